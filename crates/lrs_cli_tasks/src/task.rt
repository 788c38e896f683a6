//! What a job has the program do.

ghost use Rattle.std.specs.Prelude.{◌≡◌, IfOk, IfErr, OnOk, option_map};
ghost use Rattle.lrs_cli_words.specs.Questions.{Asks, AsksNothing, CannotAsk};
ghost use Rattle.lrs_cli_tasks.specs.Columns.{CannotPick, columns_of};
ghost use Rattle.lrs_cli_tasks.specs.Tasks.{IsFormOf, IsTaskOf, IsUnread, MayAsk, columns_given, has_text_cells, kind_of};

use crate::columns::picked_columns;
use lrs_cli_words::{
    BadWord, Compared, Job, QuestionFault, Service, Source, compared_of, question_of, service_of,
    summed_of,
};
use lrs_machine::Question;
use lrs_measure::Rows;
use lrs_sheet_records::Sheet;
use std::alloc::Global;

/// How the list that answers a question is written.
#[derive(Drop)]
pub struct ListForm {
    /// Of each line only the fields at these places, counted from 0, in this order; where there are none, all.
    pub columns: Option<Rows<usize>>,
    /// Each cell is written as text, for a spreadsheet.
    pub as_text: bool,
}

/// The words of a draft: what it is to do, the words of that, the number of its first asset, and the front of its keys.
#[derive(Clone, Copy)]
pub struct DraftWords<'a> {
    pub what: &'a str,
    pub words: &'a [&'a str],
    pub number: Option<&'a str>,
    pub key: Option<&'a str>,
}

/// What is done with an inventory.
#[derive(Drop)]
pub enum Work<'a> {
    /// A sheet of this kind is read from `from`, and done; or it goes on behind its last record that is an edit. With
    /// `all` it is done only if no record of it is refused, with `whole` only if its last line has an end, and with
    /// `asks` only where `yes` is read from the standard input.
    Sheet {
        kind: Sheet,
        from: &'a str,
        resumes: bool,
        all: bool,
        whole: bool,
        asks: bool,
    },
    /// A sheet of this kind is read from `from`, and tried. With `differs` it is told what would change.
    Check {
        kind: Sheet,
        from: &'a str,
        differs: bool,
    },
    /// A question is answered, and its list written in this form.
    Question {
        question: Question,
        form: ListForm,
    },
    /// A sheet of questions is read from `from`, and answered.
    Questions {
        from: &'a str,
    },
    /// The log is summed, up to an edit or all of it.
    Sum {
        up_to: Option<u64>,
    },
    /// It is told what the edits from this one on changed.
    Since {
        edit: u64,
    },
    /// An edit sheet is written that does what these words say.
    Draft(DraftWords<'a>),
    /// The log is done again in memory, and what it makes is compared with what is kept.
    Audit,
    /// The inventory is served.
    Service(Service),
}

/// What the program does.
#[derive(Drop)]
pub enum Task<'a> {
    /// This is done with the inventory `db`.
    Inventory {
        db: &'a str,
        work: Work<'a>,
    },
    /// It is told what the one inventory and the other differ in.
    Difference {
        before: Source<'a>,
        after: Source<'a>,
    },
    /// The web page is written into the folder `dir`.
    Page {
        dir: &'a str,
    },
    /// A sheet of this kind is made of what is read from `from`.
    Tidy {
        kind: Sheet,
        from: &'a str,
    },
}

// Whether a sheet is done is read from the standard input, so the sheet itself is not.
fn refuse_stdin(sheet: &str, asks: bool) -> Result<(), QuestionFault>
    ensures unread { IfErr result (CannotAsk sheet.now asks) }
    ensures may { OnOk result (MayAsk sheet.now asks) }
{
    if asks && sheet == "stdin" {
        return Err(QuestionFault::Unreadable(BadWord::AskOfStdin));
    }
    Ok(())
}

fn sheet_work<'a>(
    kind: Sheet,
    from: &'a str,
    resumes: bool,
    all: bool,
    whole: bool,
    asks: bool,
) -> Work<'a>
    ensures { result ≡ Work.Sheet kind from.entry resumes all whole asks }
{
    Work::Sheet {
        kind,
        from,
        resumes,
        all,
        whole,
        asks,
    }
}

fn kind_of(survey: bool) -> Sheet
    ensures { result ≡ kind_of survey }
{
    if survey { Sheet::Survey } else { Sheet::Edits }
}

fn check_work<'a>(from: &'a str, survey: bool, differs: bool) -> Work<'a>
    ensures { result ≡ Work.Check (kind_of survey) from.entry differs }
{
    let kind = kind_of(survey);
    Work::Check {
        kind,
        from,
        differs,
    }
}

// Whether each cell of what the job lists is written as text.
fn writes_text_cells(job: &Job<'_>) -> bool
    ensures { result ≡ has_text_cells job.now }
{
    match job {
        Job::Lengths { text, .. }
        | Job::List { text, .. }
        | Job::Rows { text, .. }
        | Job::Overlay { text, .. }
        | Job::Gone { text, .. }
        | Job::History { text, .. }
        | Job::Log { text, .. } => *text,
        _ => false,
    }
}

// The text that names the columns of what the job lists.
fn columns_given<'a>(job: &Job<'a>) -> Option<&'a str>
    ensures { option_map (λ t. t.now) result ≡ columns_given job.now }
{
    match job {
        Job::Lengths { columns, .. }
        | Job::List { columns, .. }
        | Job::Rows { columns, .. }
        | Job::Overlay { columns, .. }
        | Job::Gone { columns, .. }
        | Job::History { columns, .. } => *columns,
        _ => None,
    }
}

// The form in which the list that answers a question of a job is written.
fn form_of(alloc: Global, job: &Job<'_>, question: &Question) -> Result<ListForm, QuestionFault>
    ensures form { IfOk result (IsFormOf job.now question.now) }
    ensures unread { IfErr result (CannotPick (columns_of question.now) (columns_given job.now)) }
{
    match picked_columns(alloc, question, columns_given(job)) {
        Ok(columns) => Ok(ListForm {
            columns,
            as_text: writes_text_cells(job),
        }),
        Err(fault) => Err(fault),
    }
}

// The question of a job that asks one, and the form of the list that answers it.
fn asked_of(alloc: Global, job: &Job<'_>) -> Result<(Question, ListForm), QuestionFault>
    requires { AsksNothing job.now → ⊥ }
    ensures asked { IfOk result (λ asked. Asks job.now asked.0
        × IsFormOf job.now asked.0 asked.1) }
    ensures unread { IfErr result (IsUnread job.now) }
{
    match question_of(alloc, job)? {
        Some(question) => match form_of(alloc, job, &question) {
            Ok(form) => Ok((question, form)),
            Err(fault) => Err(fault),
        },
        None => unreachable!(),
    }
}

fn tidy_task<'a>(from: &'a str, survey: bool) -> Task<'a>
    ensures { result ≡ Task.Tidy (kind_of survey) from.entry }
{
    let kind = kind_of(survey);
    Task::Tidy { kind, from }
}

/// What a job asks for. Its words are read, and nothing else is looked at.
///
/// # Errors
/// A word that cannot be read, one of `columns` that the list of the job does not have, and `Memory`.
pub fn task_of<'a>(alloc: Global, job: &'a Job<'a>) -> Result<Task<'a>, QuestionFault>
    ensures task { IfOk result (IsTaskOf job.now) }
    ensures unread { IfErr result (IsUnread job.now) }
{
    let (db, work) = match job {
        Job::Page { dir } => return Ok(Task::Page { dir }),
        Job::Tidy { file, survey } => return Ok(tidy_task(file, *survey)),
        Job::Edit {
            db,
            sheet,
            resume,
            all,
            whole,
            ask,
            ..
        } => {
            refuse_stdin(sheet, *ask)?;
            (
                db,
                sheet_work(Sheet::Edits, sheet, *resume, *all, *whole, *ask),
            )
        }
        Job::Survey {
            db,
            sheet,
            resume,
            all,
            whole,
            ask,
            ..
        } => {
            refuse_stdin(sheet, *ask)?;
            (
                db,
                sheet_work(Sheet::Survey, sheet, *resume, *all, *whole, *ask),
            )
        }
        Job::Check {
            db,
            sheet,
            survey,
            diff,
        } => (db, check_work(sheet, *survey, *diff)),
        Job::Ask { db, questions } => (db, Work::Questions { from: questions }),
        Job::Diff { db, others, since } => match compared_of(db, others.as_slice(), *since)? {
            Compared::Inventories { before, after } => {
                return Ok(Task::Difference { before, after });
            }
            Compared::Since { edit } => (db, Work::Since { edit }),
        },
        Job::Draft {
            what,
            db,
            words,
            number,
            key,
        } => {
            let words = words.as_slice();
            let (number, key) = (*number, *key);
            (
                db,
                Work::Draft(DraftWords {
                    what,
                    words,
                    number,
                    key,
                }),
            )
        }
        Job::Audit { db } => (db, Work::Audit),
        Job::Log {
            db,
            from,
            until,
            key,
            sum: true,
            ..
        } => (
            db,
            Work::Sum {
                up_to: summed_of(*from, *until, *key)?,
            },
        ),
        Job::Serve {
            db,
            port,
            max,
            log,
            end_on_fault,
            most_reply,
            page,
            ..
        } => (
            db,
            Work::Service(service_of(port, max, *log, *end_on_fault, *most_reply, *page)?),
        ),
        Job::At { db, .. }
        | Job::Where { db, .. }
        | Job::Translate { db, .. }
        | Job::Strip { db, .. }
        | Job::Diagram { db, .. }
        | Job::Totals { db }
        | Job::Lengths { db, .. }
        | Job::Find { db, .. }
        | Job::Route { db, .. }
        | Job::List { db, .. }
        | Job::Rows { db, .. }
        | Job::Overlay { db, .. }
        | Job::Gone { db, .. }
        | Job::History { db, .. }
        | Job::Log { db, .. } => match asked_of(alloc, job) {
            Ok((question, form)) => (db, Work::Question { question, form }),
            Err(fault) => return Err(fault),
        },
    };
    Ok(Task::Inventory { db, work })
}
