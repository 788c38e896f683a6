//! The words of a job that readers of words look at.

use lrs_cli_words::{BadWord, Compared, Job, Source, compared_of};
use lrs_events::ClassName;
use lrs_sheet_records::Sheet;

fn route_in<'a>(job: &Job<'a>) -> Option<&'a str> {
    match job {
        Job::At { route, .. }
        | Job::Where { route, .. }
        | Job::Translate { route, .. }
        | Job::Strip { route, .. }
        | Job::Diagram { route, .. }
        | Job::Route { route, .. } => Some(route),
        Job::Rows { route, .. }
        | Job::Overlay { route, .. }
        | Job::Lengths { route, .. }
        | Job::List { route, .. } => *route,
        _ => None,
    }
}

// The position, and the method by which it is read.
fn position_in<'a>(job: &Job<'a>) -> Option<(&'a str, &'a str)> {
    match job {
        Job::At {
            method,
            position,
            ..
        }
        | Job::Translate {
            method,
            position,
            ..
        } => Some((method, position)),
        _ => None,
    }
}

// The first of these words that is no name of a class.
fn unreadable_class<'a>(classes: &[&'a str]) -> Option<&'a str> {
    for class in classes {
        if ClassName::new(class.as_bytes()).is_none() {
            return Some(*class);
        }
    }
    None
}

// The first of the names between commas that is no name of a class.
fn unreadable_part(names: &str) -> Option<&str> {
    for name in names.split(',') {
        if ClassName::new(name.as_bytes()).is_none() {
            return Some(name);
        }
    }
    None
}

fn class_in<'a>(job: &Job<'a>) -> Option<&'a str> {
    match job {
        Job::Lengths { by, .. } => unreadable_part((*by)?),
        Job::Strip { classes, .. } | Job::Diagram { classes, .. } | Job::Overlay { classes, .. } =>
            unreadable_class(classes.as_slice()),
        Job::Rows { class, .. } | Job::Gone { class, .. } => *class,
        _ => None,
    }
}

// Where a stretch begins and where it ends.
fn stretch_in<'a>(job: &Job<'a>) -> (Option<&'a str>, Option<&'a str>) {
    match job {
        Job::Diagram { from, to, .. }
        | Job::Rows { from, to, .. }
        | Job::Overlay { from, to, .. } => (*from, *to),
        _ => (None, None),
    }
}

fn asset_in<'a>(job: &Job<'a>) -> Option<&'a str> {
    match job {
        Job::Find { asset, .. } | Job::History { asset, .. } => Some(asset),
        Job::Rows { asset, .. } => *asset,
        _ => None,
    }
}

// The place, or behind the word `link` the link; and the millimetre of the link.
fn place_in<'a>(job: &Job<'a>) -> (Option<&'a str>, Option<&'a str>) {
    match job {
        Job::Where { place, mm, .. } => (Some(place), *mm),
        _ => (None, None),
    }
}

// The columns that are named of a list.
fn columns_in<'a>(job: &Job<'a>) -> Option<&'a str> {
    match job {
        Job::Lengths { columns, .. }
        | Job::List { columns, .. }
        | Job::Rows { columns, .. }
        | Job::Overlay { columns, .. }
        | Job::Gone { columns, .. }
        | Job::History { columns, .. } => *columns,
        _ => None,
    }
}

// The last of these words.
fn last_of<'a>(first: &'a str, others: &[&'a str]) -> &'a str {
    match others.last() {
        Some(word) => *word,
        None => first,
    }
}

// Words that only one kind of job has.
fn other_in<'a>(job: &Job<'a>, word: BadWord) -> Option<&'a str> {
    match (job, word) {
        (Job::Translate { to, .. }, BadWord::Destination) => Some(to),
        (Job::Strip { side, .. }, BadWord::Side) => Some(side),
        (Job::Overlay { side, .. }, BadWord::Side) => *side,
        (Job::List { what, .. }, BadWord::What | BadWord::RouteOfList | BadWord::ExactOfList) => {
            Some(what)
        }
        (Job::Rows { .. }, BadWord::TwoForms) => Some("--on-links"),
        (Job::Gone { edit, .. }, BadWord::Edit) => *edit,
        (Job::Gone { since, .. } | Job::Diff { since, .. }, BadWord::Since) => *since,
        (Job::Diff { db, others, .. }, BadWord::Compared) => Some(last_of(db, others.as_slice())),
        (Job::Edit { sheet, .. } | Job::Survey { sheet, .. }, BadWord::AskOfStdin) => Some(sheet),
        (Job::Gone { until, .. } | Job::Log { until, .. }, BadWord::Until) => *until,
        (Job::Log { until, .. }, BadWord::UntilBesideKey | BadWord::UntilBesideSum) => *until,
        (Job::Log { from, .. }, BadWord::Number | BadWord::FromBesideKey) => *from,
        (Job::Log { key, .. }, BadWord::Key | BadWord::SumBesideKey) => *key,
        (Job::Serve { port, .. }, BadWord::Port) => Some(port),
        (Job::Serve { max, .. }, BadWord::Max) => Some(max),
        (Job::Serve { most_reply, .. }, BadWord::MostReply) => *most_reply,
        _ => None,
    }
}

/// The text that a job has for a word that cannot be read.
pub(crate) fn given<'a>(job: &Job<'a>, word: BadWord) -> Option<&'a str> {
    match word {
        BadWord::Route | BadWord::NotLink => route_in(job),
        BadWord::Method => Some(position_in(job)?.0),
        BadWord::Position => Some(position_in(job)?.1),
        BadWord::Class => class_in(job),
        BadWord::From => stretch_in(job).0,
        BadWord::To => stretch_in(job).1,
        BadWord::Asset => asset_in(job),
        BadWord::Place | BadWord::Link => place_in(job).0,
        BadWord::Millimetre => place_in(job).1,
        BadWord::Columns | BadWord::RepeatedColumn => columns_in(job),
        BadWord::Destination
        | BadWord::Side
        | BadWord::What
        | BadWord::RouteOfList
        | BadWord::ExactOfList
        | BadWord::TwoForms
        | BadWord::Edit
        | BadWord::Since
        | BadWord::Until
        | BadWord::Number
        | BadWord::Key
        | BadWord::FromBesideKey
        | BadWord::UntilBesideKey
        | BadWord::SumBesideKey
        | BadWord::UntilBesideSum
        | BadWord::Port
        | BadWord::Max
        | BadWord::MostReply
        | BadWord::Compared
        | BadWord::Draft
        | BadWord::AskOfStdin => other_in(job, word),
    }
}

/// The method by which a job's position is read: none where it has no position.
pub(crate) fn method_given<'a>(job: &Job<'a>) -> Option<&'a str> {
    Some(position_in(job)?.0)
}

// The two that a job compares, if it is a difference of two.
fn sources_in<'a>(job: &Job<'a>) -> Option<(Source<'a>, Source<'a>)> {
    let Job::Diff { db, others, since } = job else {
        return None;
    };
    match compared_of(db, others.as_slice(), *since) {
        Ok(Compared::Inventories { before, after }) => Some((before, after)),
        _ => None,
    }
}

// The file of an inventory, if it is in one.
fn file_in<'a>(source: Source<'a>) -> Option<&'a str> {
    match source {
        Source::Inventory(db) if db != ":memory:" => Some(db),
        _ => None,
    }
}

// The file of a log, if an inventory is made by one.
fn log_in<'a>(source: Source<'a>) -> Option<&'a str> {
    match source {
        Source::Log(file) => Some(file),
        Source::Inventory(_) => None,
    }
}

/// The inventory of a job, of two the first: none for the page, and to tidy a sheet.
pub(crate) fn inventory_of<'a>(job: &Job<'a>) -> Option<&'a str> {
    match job {
        Job::Edit { db, .. }
        | Job::Survey { db, .. }
        | Job::Check { db, .. }
        | Job::At { db, .. }
        | Job::Where { db, .. }
        | Job::Translate { db, .. }
        | Job::Strip { db, .. }
        | Job::Diagram { db, .. }
        | Job::Totals { db }
        | Job::Lengths { db, .. }
        | Job::Find { db, .. }
        | Job::Route { db, .. }
        | Job::Ask { db, .. }
        | Job::List { db, .. }
        | Job::Rows { db, .. }
        | Job::Overlay { db, .. }
        | Job::Gone { db, .. }
        | Job::History { db, .. }
        | Job::Log { db, .. }
        | Job::Draft { db, .. }
        | Job::Audit { db }
        | Job::Serve { db, .. } => Some(db),
        Job::Diff { db, .. } => match sources_in(job) {
            Some((Source::Log(file), _)) => Some(file),
            _ => Some(db),
        },
        Job::Page { .. } | Job::Tidy { .. } => None,
    }
}

/// The files that a job opens: that of its inventory; or of two those that are not in memory or made by a log.
pub(crate) fn files_of<'a>(job: &Job<'a>) -> (Option<&'a str>, Option<&'a str>) {
    match sources_in(job) {
        Some((before, after)) => match (file_in(before), file_in(after)) {
            (None, other) => (other, None),
            both => both,
        },
        None => (inventory_of(job), None),
    }
}

// The log of a job that compares what a log makes, of two the first.
fn log_of<'a>(job: &Job<'a>) -> Option<&'a str> {
    let (before, after) = sources_in(job)?;
    match log_in(before) {
        Some(file) => Some(file),
        None => log_in(after),
    }
}

/// The sheet of a job, if it has one. A log is one.
pub(crate) fn sheet_of<'a>(job: &Job<'a>) -> Option<&'a str> {
    match job {
        Job::Edit { sheet, .. } | Job::Survey { sheet, .. } | Job::Check { sheet, .. } => {
            Some(sheet)
        }
        Job::Ask { questions, .. } => Some(questions),
        Job::Tidy { file, .. } => Some(file),
        Job::Diff { .. } => log_of(job),
        _ => None,
    }
}

/// Whether a job's sheet is one of questions.
pub(crate) fn has_questions(job: &Job<'_>) -> bool {
    matches!(job, Job::Ask { .. })
}

/// Of which kind a job's sheet is, if it has one that is no sheet of questions.
pub(crate) fn sheet_kind(job: &Job<'_>) -> Option<Sheet> {
    match job {
        Job::Survey { .. } | Job::Check { survey: true, .. } => Some(Sheet::Survey),
        Job::Edit { .. } | Job::Check { .. } | Job::Diff { .. } => Some(Sheet::Edits),
        _ => None,
    }
}

/// The header that a job's sheet has to have.
pub(crate) fn wanted_header(job: &Job<'_>) -> &'static str {
    match sheet_kind(job) {
        Some(Sheet::Edits) => "key,verb,a,b,c,d,e,f,g,h,i",
        Some(Sheet::Survey) => "key,asset,class,route,side,method,from,to,value,offset",
        None => "key,question,a,b,c,d",
    }
}

/// Whether a job tries its sheet before it does anything: so standard error says already where it cannot be read.
pub(crate) fn tries_sheet(job: &Job<'_>) -> bool {
    match job {
        Job::Check { .. } => true,
        Job::Edit { all, ask, .. } | Job::Survey { all, ask, .. } => *all || *ask,
        _ => false,
    }
}

/// Whether a job makes its inventory where there is none.
pub(crate) fn makes_inventory(job: &Job<'_>) -> bool {
    matches!(
        job,
        Job::Edit { .. } | Job::Survey { .. } | Job::Serve { .. }
    )
}

/// Whether a job does the records of a sheet.
pub(crate) fn does_records(job: &Job<'_>) -> bool {
    matches!(job, Job::Edit { .. } | Job::Survey { .. })
}

/// Whether a job's inventory ends with the program.
pub(crate) fn is_in_memory(job: &Job<'_>) -> bool {
    inventory_of(job) == Some(":memory:")
}

/// The port of a job, if it serves.
pub(crate) fn port_of<'a>(job: &Job<'a>) -> Option<&'a str> {
    match job {
        Job::Serve { port, .. } => Some(port),
        _ => None,
    }
}

/// The folder of a job, if it writes the page.
pub(crate) fn folder_of<'a>(job: &Job<'a>) -> Option<&'a str> {
    match job {
        Job::Page { dir } => Some(dir),
        _ => None,
    }
}
