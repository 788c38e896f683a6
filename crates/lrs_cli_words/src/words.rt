//! Which job the words ask for.

ghost use Rattle.std.specs.Prelude.{◌≡◌, ◌≢◌, IfOk, Err, map};
ghost use Rattle.clap.specs.Words.{found_of, kind_of, rows_of, subcommand_rows_of};
ghost use Rattle.lrs_cli_words.specs.Words.{AreGiven, AsksForHelp, AsksForVersion, HasJobWords, HasWords, IsJobOf, IsMet, IsMisused, job_name, rules_of};

use crate::arguments::{copied_words, given_word, given_words, is_set, word_in};
use crate::command_line::program;
use crate::job::{Job, JobName, read_job};
use clap::error::ErrorKind;
use clap::{ArgMatches, Error};
use std::alloc::{AllocError, Global};

/// Why the words are no job.
#[derive(Drop)]
pub enum WordsFault {
    Memory,
    /// Help was asked for: its text.
    Help(String),
    /// The version was asked for: its text.
    Version(String),
    /// They are not understood: what is wrong, and the usage.
    Usage(String),
}

impl From<AllocError> for WordsFault {
    ghost use Rattle.lrs_cli_words.specs.declared.words.WordsFault.TheVariants.{Memory};

    ghost from_gives = { λ _ e. e ≡ Memory };

    fn from(_: AllocError) -> Self {
        WordsFault::Memory
    }
}

// Why `clap` gave no matches. Its texts are for the user.
fn fault_of(alloc: Global, error: &Error) -> WordsFault
    ensures memory { kind_of error.now ≡ ErrorKind.OutOfMemory → result ≡ WordsFault.Memory }
    ensures help { (text : _) → result ≡ WordsFault.Help text
        → kind_of error.now ≡ ErrorKind.DisplayHelp }
    ensures version { (text : _) → result ≡ WordsFault.Version text
        → kind_of error.now ≡ ErrorKind.DisplayVersion }
    ensures other_than_help { (text : _) → result ≡ WordsFault.Usage text
        → kind_of error.now ≢ ErrorKind.DisplayHelp }
    ensures other_than_version { (text : _) → result ≡ WordsFault.Usage text
        → kind_of error.now ≢ ErrorKind.DisplayVersion }
{
    let kind = error.kind();
    let Ok(text) = format!(in alloc; "{error}") else {
        return WordsFault::Memory;
    };
    match kind {
        ErrorKind::OutOfMemory => WordsFault::Memory,
        ErrorKind::DisplayHelp => WordsFault::Help(text),
        ErrorKind::DisplayVersion => WordsFault::Version(text),
        _ => WordsFault::Usage(text),
    }
}

fn edit_job<'a>(given: &ArgMatches<'a>) -> Job<'a>
    requires { AreGiven (rules_of JobName.Edit) (rows_of (found_of given.now)) }
    ensures name { job_name result ≡ JobName.Edit }
    ensures words { HasWords result (rows_of (found_of given.now)) }
{
    let db = given_word(given, "DB");
    let sheet = given_word(given, "SHEET");
    let sums = is_set(given, "sums");
    let resume = is_set(given, "resume");
    let all = is_set(given, "all");
    let whole = is_set(given, "whole");
    let ask = is_set(given, "ask");
    Job::Edit {
        db,
        sheet,
        sums,
        resume,
        all,
        whole,
        ask,
    }
}

fn survey_job<'a>(given: &ArgMatches<'a>) -> Job<'a>
    requires { AreGiven (rules_of JobName.Survey) (rows_of (found_of given.now)) }
    ensures name { job_name result ≡ JobName.Survey }
    ensures words { HasWords result (rows_of (found_of given.now)) }
{
    let db = given_word(given, "DB");
    let sheet = given_word(given, "SHEET");
    let sums = is_set(given, "sums");
    let resume = is_set(given, "resume");
    let all = is_set(given, "all");
    let whole = is_set(given, "whole");
    let ask = is_set(given, "ask");
    Job::Survey {
        db,
        sheet,
        sums,
        resume,
        all,
        whole,
        ask,
    }
}

fn check_job<'a>(given: &ArgMatches<'a>) -> Job<'a>
    requires { AreGiven (rules_of JobName.Check) (rows_of (found_of given.now)) }
    ensures name { job_name result ≡ JobName.Check }
    ensures words { HasWords result (rows_of (found_of given.now)) }
{
    let db = given_word(given, "DB");
    let sheet = given_word(given, "SHEET");
    let survey = is_set(given, "survey");
    let diff = is_set(given, "diff");
    Job::Check {
        db,
        sheet,
        survey,
        diff,
    }
}

fn tidy_job<'a>(given: &ArgMatches<'a>) -> Job<'a>
    requires { AreGiven (rules_of JobName.Tidy) (rows_of (found_of given.now)) }
    ensures name { job_name result ≡ JobName.Tidy }
    ensures words { HasWords result (rows_of (found_of given.now)) }
{
    let file = given_word(given, "FILE");
    let survey = is_set(given, "survey");
    Job::Tidy { file, survey }
}

fn at_job<'a>(given: &ArgMatches<'a>) -> Job<'a>
    requires { AreGiven (rules_of JobName.At) (rows_of (found_of given.now)) }
    ensures name { job_name result ≡ JobName.At }
    ensures words { HasWords result (rows_of (found_of given.now)) }
{
    let db = given_word(given, "DB");
    let route = given_word(given, "ROUTE");
    let method = given_word(given, "METHOD");
    let position = given_word(given, "POS");
    Job::At {
        db,
        route,
        method,
        position,
    }
}

fn where_job<'a>(given: &ArgMatches<'a>) -> Job<'a>
    requires { AreGiven (rules_of JobName.Where) (rows_of (found_of given.now)) }
    ensures name { job_name result ≡ JobName.Where }
    ensures words { HasWords result (rows_of (found_of given.now)) }
{
    let db = given_word(given, "DB");
    let route = given_word(given, "ROUTE");
    let place = given_word(given, "PLACE");
    let mm = word_in(given, "MM");
    Job::Where {
        db,
        route,
        place,
        mm,
    }
}

fn translate_job<'a>(given: &ArgMatches<'a>) -> Job<'a>
    requires { AreGiven (rules_of JobName.Translate) (rows_of (found_of given.now)) }
    ensures name { job_name result ≡ JobName.Translate }
    ensures words { HasWords result (rows_of (found_of given.now)) }
{
    let db = given_word(given, "DB");
    let route = given_word(given, "ROUTE");
    let method = given_word(given, "METHOD");
    let position = given_word(given, "POS");
    let to = given_word(given, "TO");
    Job::Translate {
        db,
        route,
        method,
        position,
        to,
    }
}

fn strip_job<'a>(alloc: Global, given: &ArgMatches<'a>) -> Result<Job<'a>, AllocError>
    requires { AreGiven (rules_of JobName.Strip) (rows_of (found_of given.now)) }
    ensures name { IfOk result (λ job. job_name job ≡ JobName.Strip) }
    ensures words { IfOk result (λ job. HasWords job (rows_of (found_of given.now))) }
{
    let db = given_word(given, "DB");
    let route = given_word(given, "ROUTE");
    let side = given_word(given, "SIDE");
    let mut classes = Vec::new(alloc);
    classes.extend_from_slice(given_words(given, "CLASS"))?;
    Ok(Job::Strip {
        db,
        route,
        side,
        classes,
    })
}

fn diagram_job<'a>(alloc: Global, given: &ArgMatches<'a>) -> Result<Job<'a>, AllocError>
    requires { AreGiven (rules_of JobName.Diagram) (rows_of (found_of given.now)) }
    ensures name { IfOk result (λ job. job_name job ≡ JobName.Diagram) }
    ensures words { IfOk result (λ job. HasWords job (rows_of (found_of given.now))) }
{
    let db = given_word(given, "DB");
    let route = given_word(given, "ROUTE");
    let classes = copied_words(alloc, given, "CLASS")?;
    Ok(Job::Diagram {
        db,
        route,
        classes,
        from: word_in(given, "from"),
        to: word_in(given, "to"),
    })
}

fn totals_job<'a>(given: &ArgMatches<'a>) -> Job<'a>
    requires { AreGiven (rules_of JobName.Totals) (rows_of (found_of given.now)) }
    ensures name { job_name result ≡ JobName.Totals }
    ensures words { HasWords result (rows_of (found_of given.now)) }
{
    let db = given_word(given, "DB");
    Job::Totals { db }
}

fn lengths_job<'a>(given: &ArgMatches<'a>) -> Job<'a>
    requires { AreGiven (rules_of JobName.Lengths) (rows_of (found_of given.now)) }
    ensures name { job_name result ≡ JobName.Lengths }
    ensures words { HasWords result (rows_of (found_of given.now)) }
{
    let db = given_word(given, "DB");
    let route = word_in(given, "route");
    let by = word_in(given, "by");
    let text = is_set(given, "text");
    let columns = word_in(given, "columns");
    Job::Lengths {
        db,
        route,
        by,
        text,
        columns,
    }
}

fn find_job<'a>(given: &ArgMatches<'a>) -> Job<'a>
    requires { AreGiven (rules_of JobName.Find) (rows_of (found_of given.now)) }
    ensures name { job_name result ≡ JobName.Find }
    ensures words { HasWords result (rows_of (found_of given.now)) }
{
    let db = given_word(given, "DB");
    let asset = given_word(given, "ASSET");
    Job::Find { db, asset }
}

fn route_job<'a>(given: &ArgMatches<'a>) -> Job<'a>
    requires { AreGiven (rules_of JobName.Route) (rows_of (found_of given.now)) }
    ensures name { job_name result ≡ JobName.Route }
    ensures words { HasWords result (rows_of (found_of given.now)) }
{
    let db = given_word(given, "DB");
    let route = given_word(given, "ROUTE");
    Job::Route { db, route }
}

fn ask_job<'a>(given: &ArgMatches<'a>) -> Job<'a>
    requires { AreGiven (rules_of JobName.Ask) (rows_of (found_of given.now)) }
    ensures name { job_name result ≡ JobName.Ask }
    ensures words { HasWords result (rows_of (found_of given.now)) }
{
    let db = given_word(given, "DB");
    let questions = given_word(given, "QUESTIONS");
    Job::Ask { db, questions }
}

fn list_job<'a>(given: &ArgMatches<'a>) -> Job<'a>
    requires { AreGiven (rules_of JobName.List) (rows_of (found_of given.now)) }
    ensures name { job_name result ≡ JobName.List }
    ensures words { HasWords result (rows_of (found_of given.now)) }
{
    let db = given_word(given, "DB");
    let what = given_word(given, "WHAT");
    let route = word_in(given, "route");
    let exact = is_set(given, "exact");
    let text = is_set(given, "text");
    let columns = word_in(given, "columns");
    Job::List {
        db,
        what,
        route,
        exact,
        text,
        columns,
    }
}

fn rows_job<'a>(given: &ArgMatches<'a>) -> Job<'a>
    requires { AreGiven (rules_of JobName.Rows) (rows_of (found_of given.now)) }
    ensures name { job_name result ≡ JobName.Rows }
    ensures words { HasWords result (rows_of (found_of given.now)) }
{
    let db = given_word(given, "DB");
    let route = word_in(given, "route");
    let from = word_in(given, "from");
    let to = word_in(given, "to");
    let class = word_in(given, "class");
    let asset = word_in(given, "asset");
    let exact = is_set(given, "exact");
    let on_links = is_set(given, "on-links");
    let text = is_set(given, "text");
    let columns = word_in(given, "columns");
    Job::Rows {
        db,
        route,
        from,
        to,
        class,
        asset,
        exact,
        on_links,
        text,
        columns,
    }
}

fn overlay_job<'a>(alloc: Global, given: &ArgMatches<'a>) -> Result<Job<'a>, AllocError>
    requires { AreGiven (rules_of JobName.Overlay) (rows_of (found_of given.now)) }
    ensures name { IfOk result (λ job. job_name job ≡ JobName.Overlay) }
    ensures words { IfOk result (λ job. HasWords job (rows_of (found_of given.now))) }
{
    let db = given_word(given, "DB");
    let route = word_in(given, "route");
    let side = word_in(given, "side");
    let from = word_in(given, "from");
    let to = word_in(given, "to");
    let gaps = is_set(given, "gaps");
    let text = is_set(given, "text");
    let columns = word_in(given, "columns");
    let mut classes = Vec::new(alloc);
    classes.extend_from_slice(given_words(given, "CLASS"))?;
    Ok(Job::Overlay {
        db,
        classes,
        route,
        side,
        from,
        to,
        gaps,
        text,
        columns,
    })
}

fn gone_job<'a>(given: &ArgMatches<'a>) -> Job<'a>
    requires { AreGiven (rules_of JobName.Gone) (rows_of (found_of given.now)) }
    ensures name { job_name result ≡ JobName.Gone }
    ensures words { HasWords result (rows_of (found_of given.now)) }
{
    let db = given_word(given, "DB");
    let edit = word_in(given, "edit");
    let class = word_in(given, "class");
    let since = word_in(given, "since");
    let until = word_in(given, "until");
    let text = is_set(given, "text");
    let columns = word_in(given, "columns");
    Job::Gone {
        db,
        edit,
        class,
        since,
        until,
        text,
        columns,
    }
}

fn history_job<'a>(given: &ArgMatches<'a>) -> Job<'a>
    requires { AreGiven (rules_of JobName.History) (rows_of (found_of given.now)) }
    ensures name { job_name result ≡ JobName.History }
    ensures words { HasWords result (rows_of (found_of given.now)) }
{
    let db = given_word(given, "DB");
    let asset = given_word(given, "ASSET");
    let text = is_set(given, "text");
    let columns = word_in(given, "columns");
    Job::History {
        db,
        asset,
        text,
        columns,
    }
}

fn log_job<'a>(given: &ArgMatches<'a>) -> Job<'a>
    requires { AreGiven (rules_of JobName.Log) (rows_of (found_of given.now)) }
    ensures name { job_name result ≡ JobName.Log }
    ensures words { HasWords result (rows_of (found_of given.now)) }
{
    let db = given_word(given, "DB");
    let from = word_in(given, "FROM");
    let until = word_in(given, "until");
    let key = word_in(given, "key");
    let text = is_set(given, "text");
    let sum = is_set(given, "sum");
    Job::Log {
        db,
        from,
        until,
        key,
        text,
        sum,
    }
}

fn diff_job<'a>(alloc: Global, given: &ArgMatches<'a>) -> Result<Job<'a>, AllocError>
    requires { AreGiven (rules_of JobName.Diff) (rows_of (found_of given.now)) }
    ensures name { IfOk result (λ job. job_name job ≡ JobName.Diff) }
    ensures words { IfOk result (λ job. HasWords job (rows_of (found_of given.now))) }
{
    let db = given_word(given, "DB");
    let others = copied_words(alloc, given, "OTHER")?;
    Ok(Job::Diff {
        db,
        others,
        since: word_in(given, "since"),
    })
}

fn draft_job<'a>(alloc: Global, given: &ArgMatches<'a>) -> Result<Job<'a>, AllocError>
    requires { AreGiven (rules_of JobName.Draft) (rows_of (found_of given.now)) }
    ensures name { IfOk result (λ job. job_name job ≡ JobName.Draft) }
    ensures words { IfOk result (λ job. HasWords job (rows_of (found_of given.now))) }
{
    let what = given_word(given, "WHAT");
    let db = given_word(given, "DB");
    let words = copied_words(alloc, given, "WORD")?;
    Ok(Job::Draft {
        what,
        db,
        words,
        number: word_in(given, "number"),
        key: word_in(given, "key"),
    })
}

fn audit_job<'a>(given: &ArgMatches<'a>) -> Job<'a>
    requires { AreGiven (rules_of JobName.Audit) (rows_of (found_of given.now)) }
    ensures name { job_name result ≡ JobName.Audit }
    ensures words { HasWords result (rows_of (found_of given.now)) }
{
    let db = given_word(given, "DB");
    Job::Audit { db }
}

fn serve_job<'a>(given: &ArgMatches<'a>) -> Job<'a>
    requires { AreGiven (rules_of JobName.Serve) (rows_of (found_of given.now)) }
    ensures name { job_name result ≡ JobName.Serve }
    ensures words { HasWords result (rows_of (found_of given.now)) }
{
    let db = given_word(given, "DB");
    let port = given_word(given, "PORT");
    let max = given_word(given, "MAX");
    let sums = is_set(given, "sums");
    let log = is_set(given, "log");
    let end_on_fault = is_set(given, "end-on-fault");
    let most_reply = word_in(given, "most-reply");
    let page = is_set(given, "page");
    Job::Serve {
        db,
        port,
        max,
        sums,
        log,
        end_on_fault,
        most_reply,
        page,
    }
}

fn page_job<'a>(given: &ArgMatches<'a>) -> Job<'a>
    requires { AreGiven (rules_of JobName.Page) (rows_of (found_of given.now)) }
    ensures name { job_name result ≡ JobName.Page }
    ensures words { HasWords result (rows_of (found_of given.now)) }
{
    let dir = given_word(given, "DIR");
    Job::Page { dir }
}

// The job of this name, with its words.
fn job_with<'a>(alloc: Global, name: JobName, given: &ArgMatches<'a>) -> Result<Job<'a>, AllocError>
    requires { AreGiven (rules_of name) (rows_of (found_of given.now)) }
    ensures name { IfOk result (λ job. job_name job ≡ name) }
    ensures words { IfOk result (λ job. HasWords job (rows_of (found_of given.now))) }
{
    match name {
        JobName::Edit => Ok(edit_job(given)),
        JobName::Survey => Ok(survey_job(given)),
        JobName::Check => Ok(check_job(given)),
        JobName::Tidy => Ok(tidy_job(given)),
        JobName::At => Ok(at_job(given)),
        JobName::Where => Ok(where_job(given)),
        JobName::Translate => Ok(translate_job(given)),
        JobName::Strip => strip_job(alloc, given),
        JobName::Diagram => diagram_job(alloc, given),
        JobName::Totals => Ok(totals_job(given)),
        JobName::Lengths => Ok(lengths_job(given)),
        JobName::Find => Ok(find_job(given)),
        JobName::Route => Ok(route_job(given)),
        JobName::Ask => Ok(ask_job(given)),
        JobName::List => Ok(list_job(given)),
        JobName::Rows => Ok(rows_job(given)),
        JobName::Overlay => overlay_job(alloc, given),
        JobName::Gone => Ok(gone_job(given)),
        JobName::History => Ok(history_job(given)),
        JobName::Log => Ok(log_job(given)),
        JobName::Diff => diff_job(alloc, given),
        JobName::Draft => draft_job(alloc, given),
        JobName::Audit => Ok(audit_job(given)),
        JobName::Serve => Ok(serve_job(given)),
        JobName::Page => Ok(page_job(given)),
    }
}

// The job that was met, with its words, which were given.
fn job_in<'a>(alloc: Global, matches: &ArgMatches<'a>) -> Result<Job<'a>, AllocError>
    requires { HasJobWords (subcommand_rows_of matches.now) }
    ensures { IfOk result (λ job. IsMet job (subcommand_rows_of matches.now)) }
{
    match matches.subcommand() {
        Some((name, given)) => match read_job(name) {
            Some(job) => job_with(alloc, job, given),
            None => unreachable!(),
        },
        None => unreachable!(),
    }
}

/// What these words, which are those after the program's name, ask for.
///
/// # Errors
/// `Help` and `Version` where they ask for these, `Usage` where they are not understood, and `Memory`.
pub fn job_of<'a>(alloc: Global, words: &'a [&'a str]) -> Result<Job<'a>, WordsFault>
    ensures job { IfOk result (IsJobOf (map (λ w. w.now) words.now)) }
    ensures help { (text : _) → result ≡ Err (WordsFault.Help text)
        → AsksForHelp (map (λ w. w.now) words.now) }
    ensures version { (text : _) → result ≡ Err (WordsFault.Version text)
        → AsksForVersion (map (λ w. w.now) words.now) }
    ensures usage { (text : _) → result ≡ Err (WordsFault.Usage text)
        → IsMisused (map (λ w. w.now) words.now) }
{
    let command = program(alloc)?;
    let matches = match command.try_get_matches_from(words) {
        Ok(matches) => matches,
        Err(error) => return Err(fault_of(alloc, &error)),
    };
    let job = job_in(alloc, &matches)?;
    Ok(job)
}
