//! The command line, as `clap` is told of it.

ghost use Rattle.std.specs.Prelude.{◌≡◌, IfOk, fold};
ghost use Rattle.clap.specs.Words.{app_of};
ghost use Rattle.lrs_cli_words.specs.Parts.{app_of_line};
ghost use Rattle.lrs_cli_words.specs.Words.{app_of_job, bare_line, line_of_program, with_job};

use crate::job::JobName;
use crate::parts::{JobLine, LinePart, line_of};
use crate::sheet_help::{ASKED, DRAFTED, RECORDED, RECORDS, SURVEYED, TIDIED};
use crate::word_help::{
    ALL, AS_SUM, AS_SURVEY, AS_TEXT, ASKING, ASSET, BY, CLASS, CLASSES, COLUMNS, COMPARED, DB,
    DIFFERING, DIR, DRAFT_WORDS, END_ON_FAULT, EXACT, EXACT_REFS, FILE, FROM_EDIT, FROM_PLACE,
    GAPS, KEY_FRONT, MAX, METHOD, MM, MOST_REPLY, NUMBER, OF_ASSET, OF_CLASS, OF_EDIT, OF_KEY,
    OF_LISTED_ROUTE, OF_ROUTE, OF_SIDE, ON_LINKS, OTHER, PLACE, PORT, POS, QUESTIONS, RESUME,
    ROUTE, ROWS_FROM, ROWS_TO, SHEET, SIDE, SINCE, SINCE_EDIT, SUMS, TELLING, TO, TO_PLACE, UNTIL,
    UNTIL_EDIT, WANTED, WHAT, WHOLE, WITH_PAGE,
};
use clap::Command;
use std::alloc::{AllocError, Global};

/// The version of the program, and the kit that proved it.
static VERSION: &str = "0.8.20, proved by rattle-kit-13f logic dac8208d650f15bf";

// What help says of a list: its columns, their order, examples.
const LENGTHS_SAID: &str =
    "Columns: class,value,left,right,length,assets. Left, right and length are in
metres; length is what is held on either side, each millimetre once. Assets is
how many assets hold some of it, so that signs are counted.

With --by: each class, empty where it has no value, and left, right, length; one
line for each combination of values that a millimetre has on some side.

Examples: roadlrs lengths roads.db --route A1
          roadlrs lengths roads.db --by SPEED,SURFACE";

const ROWS_SAID: &str = "Rows come in the order of the road: by route, from, side, class and asset.

Examples: roadlrs rows roads.db --route A1 --class SPEED
          roadlrs rows roads.db --route A1 --from abs:3000 --to rel:KM2+500
          roadlrs rows roads.db --columns route,from,to,value";

const OVERLAY_SAID: &str =
    "Columns: route,from,to,from_measure,to_measure,side and each CLASS, which is
empty where it has no value. A route is divided where the value of one changes.

Examples: roadlrs overlay roads.db SPEED SURFACE --route A1
          roadlrs overlay roads.db SPEED --gaps";

// What help says of the program, behind its commands.
static GENERAL: &str = "Four options go with every command, anywhere after roadlrs:
  --existing   a DB that is not there is a fault, and no new inventory
  --explain    of a fault, says what was found and what to do
  --wait S     waits S seconds, 5 unless said, for a DB that another program has
  --expect ID  does nothing with a DB of another identity

roadlrs help VERB shows the fields and the refusals of a verb of edit sheets.";

static EDIT: JobLine = JobLine {
    name: "edit",
    about: "Applies an edit sheet and prints one reply per record",
    example: RECORDS,
    usage: Some("roadlrs edit <DB> <SHEET>"),
    parts: &[
        LinePart::Required("DB", DB),
        LinePart::Required("SHEET", SHEET),
        LinePart::Switch("sums", SUMS),
        LinePart::Switch("resume", RESUME),
        LinePart::Switch("all", ALL),
        LinePart::Switch("whole", WHOLE),
        LinePart::Switch("ask", ASKING),
    ],
};

static SURVEY: JobLine = JobLine {
    name: "survey",
    about: "Enters the assets of a survey and prints one reply per record",
    example: SURVEYED,
    usage: Some("roadlrs survey <DB> <SHEET>"),
    parts: &[
        LinePart::Required("DB", DB),
        LinePart::Required("SHEET", SHEET),
        LinePart::Switch("sums", SUMS),
        LinePart::Switch("resume", RESUME),
        LinePart::Switch("all", ALL),
        LinePart::Switch("whole", WHOLE),
        LinePart::Switch("ask", ASKING),
    ],
};

static CHECK: JobLine = JobLine {
    name: "check",
    about: "Prints the replies that edit would give, with advice; writes nothing",
    example: "Example: roadlrs check roads.db first.csv",
    usage: None,
    parts: &[
        LinePart::Required("DB", DB),
        LinePart::Required("SHEET", SHEET),
        LinePart::Switch("survey", AS_SURVEY),
        LinePart::Switch("diff", DIFFERING),
    ],
};

static TIDY: JobLine = JobLine {
    name: "tidy",
    about: "Prints what a spreadsheet wrote as a sheet; says what it changed",
    example: TIDIED,
    usage: None,
    parts: &[
        LinePart::Required("FILE", FILE),
        LinePart::Switch("survey", AS_SURVEY),
    ],
};

static AT: JobLine = JobLine {
    name: "at",
    about: "Shows a position's place on its link and the assets there",
    example: "Example: roadlrs at roads.db A1 abs 3000",
    usage: None,
    parts: &[
        LinePart::Required("DB", DB),
        LinePart::Required("ROUTE", ROUTE),
        LinePart::Required("METHOD", METHOD),
        LinePart::Required("POS", POS),
    ],
};

static WHERE: JobLine = JobLine {
    name: "where",
    about: "Shows what is at a place, and its position by each method",
    example: "Examples: roadlrs where roads.db A1 3000
          roadlrs where roads.db A1 rel:KM2+500
          roadlrs where roads.db link 101 3000",
    usage: None,
    parts: &[
        LinePart::Required("DB", DB),
        LinePart::Required("ROUTE", ROUTE),
        LinePart::Required("PLACE", PLACE),
        LinePart::Optional("MM", MM),
    ],
};

static TRANSLATE: JobLine = JobLine {
    name: "translate",
    about: "Converts a position to another method or to its link",
    example: "Example: roadlrs translate roads.db A1 int 1/3 abs",
    usage: None,
    parts: &[
        LinePart::Required("DB", DB),
        LinePart::Required("ROUTE", ROUTE),
        LinePart::Required("METHOD", METHOD),
        LinePart::Required("POS", POS),
        LinePart::Required("TO", TO),
    ],
};

static STRIP: JobLine = JobLine {
    name: "strip",
    about: "Divides a route wherever the value of a listed class changes",
    example: "Example: roadlrs strip roads.db A1 R SPEED WIDTH",
    usage: None,
    parts: &[
        LinePart::Required("DB", DB),
        LinePart::Required("ROUTE", ROUTE),
        LinePart::Required("SIDE", SIDE),
        LinePart::Several("CLASS", CLASS),
    ],
};

static DIAGRAM: JobLine = JobLine {
    name: "diagram",
    about: "Draws a straight-line diagram of a route as SVG",
    example: "Example: roadlrs diagram roads.db A1 SPEED > a1.svg",
    usage: Some("roadlrs diagram <DB> <ROUTE> [CLASS]..."),
    parts: &[
        LinePart::Required("DB", DB),
        LinePart::Required("ROUTE", ROUTE),
        LinePart::Any("CLASS", CLASSES),
        LinePart::Valued("from", "PLACE", FROM_PLACE),
        LinePart::Valued("to", "PLACE", TO_PLACE),
    ],
};

static TOTALS: JobLine = JobLine {
    name: "totals",
    about: "Counts what each class has entered, retired, abandoned and present",
    example: "Example: roadlrs totals roads.db",
    usage: None,
    parts: &[LinePart::Required("DB", DB)],
};

static LENGTHS: JobLine = JobLine {
    name: "lengths",
    about: "Lists the length of each value of each class in metres, as CSV",
    example: LENGTHS_SAID,
    usage: None,
    parts: &[
        LinePart::Required("DB", DB),
        LinePart::Valued("route", "ROUTE", OF_ROUTE),
        LinePart::Valued("by", "CLASSES", BY),
        LinePart::Switch("text", AS_TEXT),
        LinePart::Valued("columns", "NAMES", COLUMNS),
    ],
};

static FIND: JobLine = JobLine {
    name: "find",
    about: "Shows where an asset is",
    example: "Example: roadlrs find roads.db 10",
    usage: None,
    parts: &[
        LinePart::Required("DB", DB),
        LinePart::Required("ASSET", ASSET),
    ],
};

static ROUTE_SHEET: JobLine = JobLine {
    name: "route",
    about: "Prints the commands that make a route as an edit sheet",
    example: RECORDED,
    usage: None,
    parts: &[
        LinePart::Required("DB", DB),
        LinePart::Required("ROUTE", ROUTE),
    ],
};

static ASK: JobLine = JobLine {
    name: "ask",
    about: "Answers a sheet of questions",
    example: ASKED,
    usage: None,
    parts: &[
        LinePart::Required("DB", DB),
        LinePart::Required("QUESTIONS", QUESTIONS),
    ],
};

static LIST: JobLine = JobLine {
    name: "list",
    about: "Lists the routes, links, classes, referents, marks or pieces as CSV",
    example: "Examples: roadlrs list roads.db routes
          roadlrs list roads.db refs --route A1",
    usage: None,
    parts: &[
        LinePart::Required("DB", DB),
        LinePart::Required("WHAT", WHAT),
        LinePart::Valued("route", "ROUTE", OF_LISTED_ROUTE),
        LinePart::Switch("exact", EXACT_REFS),
        LinePart::Switch("text", AS_TEXT),
        LinePart::Valued("columns", "NAMES", COLUMNS),
    ],
};

static ROWS: JobLine = JobLine {
    name: "rows",
    about: "Lists the stretches that assets hold as CSV",
    example: ROWS_SAID,
    usage: None,
    parts: &[
        LinePart::Required("DB", DB),
        LinePart::Valued("route", "ROUTE", OF_ROUTE),
        LinePart::Valued("from", "PLACE", ROWS_FROM),
        LinePart::Valued("to", "PLACE", ROWS_TO),
        LinePart::Valued("class", "CLASS", OF_CLASS),
        LinePart::Valued("asset", "ASSET", OF_ASSET),
        LinePart::Switch("exact", EXACT),
        LinePart::Switch("on-links", ON_LINKS),
        LinePart::Switch("text", AS_TEXT),
        LinePart::Valued("columns", "NAMES", COLUMNS),
    ],
};

static OVERLAY: JobLine = JobLine {
    name: "overlay",
    about: "Lists the values of exclusive classes side by side as CSV",
    example: OVERLAY_SAID,
    usage: None,
    parts: &[
        LinePart::Required("DB", DB),
        LinePart::Several("CLASS", CLASS),
        LinePart::Valued("route", "ROUTE", OF_ROUTE),
        LinePart::Valued("side", "SIDE", OF_SIDE),
        LinePart::Valued("from", "PLACE", ROWS_FROM),
        LinePart::Valued("to", "PLACE", ROWS_TO),
        LinePart::Switch("gaps", GAPS),
        LinePart::Switch("text", AS_TEXT),
        LinePart::Valued("columns", "NAMES", COLUMNS),
    ],
};

static GONE: JobLine = JobLine {
    name: "gone",
    about: "Lists what was retired, or abandoned with its ground, as CSV",
    example: "Example: roadlrs gone roads.db --edit 17",
    usage: None,
    parts: &[
        LinePart::Required("DB", DB),
        LinePart::Valued("edit", "N", OF_EDIT),
        LinePart::Valued("class", "CLASS", OF_CLASS),
        LinePart::Valued("since", "N", SINCE),
        LinePart::Valued("until", "N", UNTIL),
        LinePart::Switch("text", AS_TEXT),
        LinePart::Valued("columns", "NAMES", COLUMNS),
    ],
};

static HISTORY: JobLine = JobLine {
    name: "history",
    about: "Lists what was entered, retired and abandoned of an asset, as CSV",
    example: "Example: roadlrs history roads.db 10",
    usage: None,
    parts: &[
        LinePart::Required("DB", DB),
        LinePart::Required("ASSET", ASSET),
        LinePart::Switch("text", AS_TEXT),
        LinePart::Valued("columns", "NAMES", COLUMNS),
    ],
};

static LOG: JobLine = JobLine {
    name: "log",
    about: "Prints the accepted commands as an edit sheet",
    example: "Example: roadlrs log roads.db > log.csv",
    usage: None,
    parts: &[
        LinePart::Required("DB", DB),
        LinePart::Optional("FROM", FROM_EDIT),
        LinePart::Valued("until", "N", UNTIL_EDIT),
        LinePart::Valued("key", "KEY", OF_KEY),
        LinePart::Switch("text", AS_TEXT),
        LinePart::Switch("sum", AS_SUM),
    ],
};

static DIFF: JobLine = JobLine {
    name: "diff",
    about: "Prints what two inventories differ in",
    example: "Examples: roadlrs diff old.db new.db
          roadlrs diff roads.db :log log.csv
          roadlrs diff roads.db --since 40",
    usage: Some("roadlrs diff <DB> <OTHER> | <DB> --since <N>"),
    parts: &[
        LinePart::Required("DB", COMPARED),
        LinePart::Any("OTHER", OTHER),
        LinePart::Valued("since", "N", SINCE_EDIT),
    ],
};

static DRAFT: JobLine = JobLine {
    name: "draft",
    about: "Writes an edit sheet that does what is wanted, and changes nothing",
    example: DRAFTED,
    usage: Some("roadlrs draft <WHAT> <DB> [WORD]..."),
    parts: &[
        LinePart::Required("WHAT", WANTED),
        LinePart::Required("DB", DB),
        LinePart::Any("WORD", DRAFT_WORDS),
        LinePart::Valued("number", "N", NUMBER),
        LinePart::Valued("key", "PREFIX", KEY_FRONT),
    ],
};

static AUDIT: JobLine = JobLine {
    name: "audit",
    about: "Applies the log to an empty inventory and compares the two",
    example: "Example: roadlrs audit roads.db",
    usage: None,
    parts: &[LinePart::Required("DB", DB)],
};

static SERVE: JobLine = JobLine {
    name: "serve",
    about: "Serves the inventory over HTTP on 127.0.0.1, one request at a time",
    example: "Example: roadlrs serve roads.db 8080 1000000",
    usage: Some("roadlrs serve <DB> <PORT> <MAX>"),
    parts: &[
        LinePart::Required("DB", DB),
        LinePart::Required("PORT", PORT),
        LinePart::Required("MAX", MAX),
        LinePart::Switch("sums", SUMS),
        LinePart::Switch("log", TELLING),
        LinePart::Switch("end-on-fault", END_ON_FAULT),
        LinePart::Valued("most-reply", "BYTES", MOST_REPLY),
        LinePart::Switch("page", WITH_PAGE),
    ],
};

static PAGE: JobLine = JobLine {
    name: "page",
    about: "Writes a web page for a served inventory",
    example: "Example: roadlrs page www",
    usage: None,
    parts: &[LinePart::Required("DIR", DIR)],
};

// The line of a job.
fn line_in_table(job: JobName) -> &'static JobLine
    ensures { app_of_line result.now ≡ app_of_job job }
{
    match job {
        JobName::Edit => &EDIT,
        JobName::Survey => &SURVEY,
        JobName::Check => &CHECK,
        JobName::Tidy => &TIDY,
        JobName::At => &AT,
        JobName::Where => &WHERE,
        JobName::Translate => &TRANSLATE,
        JobName::Strip => &STRIP,
        JobName::Diagram => &DIAGRAM,
        JobName::Totals => &TOTALS,
        JobName::Lengths => &LENGTHS,
        JobName::Find => &FIND,
        JobName::Route => &ROUTE_SHEET,
        JobName::Ask => &ASK,
        JobName::List => &LIST,
        JobName::Rows => &ROWS,
        JobName::Overlay => &OVERLAY,
        JobName::Gone => &GONE,
        JobName::History => &HISTORY,
        JobName::Log => &LOG,
        JobName::Diff => &DIFF,
        JobName::Draft => &DRAFT,
        JobName::Audit => &AUDIT,
        JobName::Serve => &SERVE,
        JobName::Page => &PAGE,
    }
}

/// A line that may go on as that of one more job.
fn with_job<'a>(alloc: Global, line: Command<'a>, job: JobName) -> Result<Command<'a>, AllocError>
    ensures { IfOk result (λ c. app_of c ≡ with_job (app_of line.entry) job) }
{
    let below = line_of(alloc, line_in_table(job))?;
    line.subcommand(below)
}

fn with_jobs<'a>(
    alloc: Global,
    line: Command<'a>,
    jobs: &[JobName],
) -> Result<Command<'a>, AllocError>
    ensures { IfOk result (λ c. app_of c ≡ fold with_job (app_of line.entry) jobs.now) }
{
    let mut line = line;
    for job in jobs {
        line = with_job(alloc, line, *job)?;
    }
    Ok(line)
}

/// The command line of the program, with none of its jobs.
fn bare_line<'a>(alloc: Global) -> Result<Command<'a>, AllocError>
    ensures { IfOk result (λ c. app_of c ≡ bare_line) }
{
    Command::new(alloc, "roadlrs")
        .version(VERSION)
        .about("Keeps a road asset inventory by linear referencing")
        .after_help(GENERAL)
        .no_binary_name(true)
        .subcommand_required(true)
        .bin_name("roadlrs")
}

/// The command line of the program.
pub(crate) fn program<'a>(alloc: Global) -> Result<Command<'a>, AllocError>
    ensures { IfOk result (λ c. app_of c ≡ line_of_program) }
{
    let line = bare_line(alloc)?;
    with_jobs(
        alloc,
        line,
        &[
            JobName::Edit,
            JobName::Survey,
            JobName::Check,
            JobName::Tidy,
            JobName::At,
            JobName::Where,
            JobName::Translate,
            JobName::Strip,
            JobName::Diagram,
            JobName::Totals,
            JobName::Lengths,
            JobName::Find,
            JobName::Route,
            JobName::Ask,
            JobName::List,
            JobName::Rows,
            JobName::Overlay,
            JobName::Gone,
            JobName::History,
            JobName::Log,
            JobName::Diff,
            JobName::Draft,
            JobName::Audit,
            JobName::Serve,
            JobName::Page,
        ],
    )
}
