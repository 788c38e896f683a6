//! What the program can be asked for.

ghost use Rattle.std.specs.Prelude.{◌≡◌, Some, IfSome};
ghost use Rattle.lrs_cli_words.specs.declared.job.JobName.{JobName as DeclaredName};
ghost use Rattle.lrs_cli_words.specs.Words.{has_new_sums, name_text};

/// What the program can be asked for.
#[derive(Clone, Copy)]
pub enum JobName {
    Edit,
    Survey,
    Check,
    Tidy,
    At,
    Where,
    Translate,
    Strip,
    Diagram,
    Totals,
    Lengths,
    Find,
    Route,
    Ask,
    List,
    Rows,
    Overlay,
    Gone,
    History,
    Log,
    Diff,
    Draft,
    Audit,
    Serve,
    Page,
}

/// A job, with its words as they were given. `db` is the inventory; with `sums` a new file of it
/// gets sums of its pages. With `resume` a sheet goes on behind its last record that is an edit, with
/// `all` it is done only if no record is refused, with `whole` only if its last line has an end, and with
/// `ask` only where `yes` is read from the standard input.
/// With `text` each cell of a list is written as text, for a spreadsheet; of a list with `columns` only
/// these are written, in the order in which they are named.
#[derive(Drop)]
pub enum Job<'a> {
    /// Does the edit sheet `sheet`.
    Edit {
        db: &'a str,
        sheet: &'a str,
        sums: bool,
        resume: bool,
        all: bool,
        whole: bool,
        ask: bool,
    },
    /// Does the survey `sheet`.
    Survey {
        db: &'a str,
        sheet: &'a str,
        sums: bool,
        resume: bool,
        all: bool,
        whole: bool,
        ask: bool,
    },
    /// Says what `sheet` would be answered, an edit sheet or a survey, and does nothing. With `diff` it says what would
    /// change.
    Check {
        db: &'a str,
        sheet: &'a str,
        survey: bool,
        diff: bool,
    },
    /// Makes an edit sheet of what a spreadsheet wrote into the file `file`, or a survey.
    Tidy {
        file: &'a str,
        survey: bool,
    },
    /// Says who holds a millimetre of a route.
    At {
        db: &'a str,
        route: &'a str,
        method: &'a str,
        position: &'a str,
    },
    /// Says what is at a place of a route; or, where `route` is `link`, at the millimetre `mm` of the link `place`.
    Where {
        db: &'a str,
        route: &'a str,
        place: &'a str,
        mm: Option<&'a str>,
    },
    /// Says a position on a route by another method, or on a link.
    Translate {
        db: &'a str,
        route: &'a str,
        method: &'a str,
        position: &'a str,
        to: &'a str,
    },
    /// Shows the segments of a route by classes.
    Strip {
        db: &'a str,
        route: &'a str,
        side: &'a str,
        classes: Vec<&'a str>,
    },
    /// Draws a route with the assets of classes, or of all where none is named, from a place to another.
    Diagram {
        db: &'a str,
        route: &'a str,
        classes: Vec<&'a str>,
        from: Option<&'a str>,
        to: Option<&'a str>,
    },
    /// Counts side millimetres by class.
    Totals {
        db: &'a str,
    },
    /// Says how long each value of each class is, on a route where it is given; or with `by` each combination of the
    /// values of the classes that it names.
    Lengths {
        db: &'a str,
        route: Option<&'a str>,
        by: Option<&'a str>,
        text: bool,
        columns: Option<&'a str>,
    },
    /// Says where an asset lies.
    Find {
        db: &'a str,
        asset: &'a str,
    },
    /// Prints the commands that make a route as an edit sheet.
    Route {
        db: &'a str,
        route: &'a str,
    },
    /// Answers the questions of the sheet `questions`.
    Ask {
        db: &'a str,
        questions: &'a str,
    },
    /// Lists all of one kind: routes, links or classes; or the referents, marks or pieces of all routes, or of one. With
    /// `exact` measures are whole numbers or fractions.
    List {
        db: &'a str,
        what: &'a str,
        route: Option<&'a str>,
        exact: bool,
        text: bool,
        columns: Option<&'a str>,
    },
    /// Lists the stretches that assets hold: on a route, from a place to another, of a class, of an asset, where these
    /// are given. With `exact` measures are whole numbers or fractions; with `on_links` stretches are told on links.
    Rows {
        db: &'a str,
        route: Option<&'a str>,
        from: Option<&'a str>,
        to: Option<&'a str>,
        class: Option<&'a str>,
        asset: Option<&'a str>,
        exact: bool,
        on_links: bool,
        text: bool,
        columns: Option<&'a str>,
    },
    /// Shows the values of exclusive classes side by side, segment by segment: on a route, on a side, from a place to
    /// another, where these are given. With `gaps` only segments on which a class has no value are shown.
    Overlay {
        db: &'a str,
        classes: Vec<&'a str>,
        route: Option<&'a str>,
        side: Option<&'a str>,
        from: Option<&'a str>,
        to: Option<&'a str>,
        gaps: bool,
        text: bool,
        columns: Option<&'a str>,
    },
    /// Lists what was retired or abandoned: by one edit, by those from a number on, or up to one, and of a class, where
    /// these are given.
    Gone {
        db: &'a str,
        edit: Option<&'a str>,
        class: Option<&'a str>,
        since: Option<&'a str>,
        until: Option<&'a str>,
        text: bool,
        columns: Option<&'a str>,
    },
    /// Lists what was entered, retired and abandoned of an asset.
    History {
        db: &'a str,
        asset: &'a str,
        text: bool,
        columns: Option<&'a str>,
    },
    /// Prints the accepted commands as an edit sheet: from a number on, or up to one, or the one of a key. With `sum` it
    /// prints the sum of them all, or up to the number `from`.
    Log {
        db: &'a str,
        from: Option<&'a str>,
        until: Option<&'a str>,
        key: Option<&'a str>,
        text: bool,
        sum: bool,
    },
    /// Prints what two inventories differ in: `db` and the one that `others` names; or `db` before the edit `since` and
    /// now. `:log` and a file stand for what a log makes.
    Diff {
        db: &'a str,
        others: Vec<&'a str>,
        since: Option<&'a str>,
    },
    /// Prints an edit sheet that does what `what` and its words say, with assets that are numbered from `number` on and
    /// keys that begin with `key`.
    Draft {
        what: &'a str,
        db: &'a str,
        words: Vec<&'a str>,
        number: Option<&'a str>,
        key: Option<&'a str>,
    },
    /// Does the log again in memory, and compares what it makes with what is kept.
    Audit {
        db: &'a str,
    },
    /// Serves `max` connections over HTTP on a port of this machine. With `log` each request is told on
    /// standard error, with `end_on_fault` a failed commit ends the service, and a reply has at most
    /// `most_reply` bytes. With `page` the web page is shown at `/`.
    Serve {
        db: &'a str,
        port: &'a str,
        max: &'a str,
        sums: bool,
        log: bool,
        end_on_fault: bool,
        most_reply: Option<&'a str>,
        page: bool,
    },
    /// Writes the web page into the folder `dir`.
    Page {
        dir: &'a str,
    },
}

/// Whether a file that the job makes gets sums of its pages.
pub fn new_has_sums(job: &Job<'_>) -> bool
    ensures { result ≡ has_new_sums job.now }
{
    match job {
        Job::Edit { sums, .. } | Job::Survey { sums, .. } | Job::Serve { sums, .. } => *sums,
        Job::Check { .. }
        | Job::Tidy { .. }
        | Job::At { .. }
        | Job::Where { .. }
        | Job::Translate { .. }
        | Job::Strip { .. }
        | Job::Diagram { .. }
        | Job::Totals { .. }
        | Job::Lengths { .. }
        | Job::Find { .. }
        | Job::Route { .. }
        | Job::Ask { .. }
        | Job::List { .. }
        | Job::Rows { .. }
        | Job::Overlay { .. }
        | Job::Gone { .. }
        | Job::History { .. }
        | Job::Log { .. }
        | Job::Diff { .. }
        | Job::Draft { .. }
        | Job::Audit { .. }
        | Job::Page { .. } => false,
    }
}

/// The job of this name.
pub(crate) fn read_job(name: &str) -> Option<JobName>
    ensures read { IfSome result (λ job. name.now ≡ name_text job) }
    ensures found { (job : DeclaredName) → name.now ≡ name_text job → result ≡ Some job }
{
    match name {
        "edit" => Some(JobName::Edit),
        "survey" => Some(JobName::Survey),
        "check" => Some(JobName::Check),
        "tidy" => Some(JobName::Tidy),
        "at" => Some(JobName::At),
        "where" => Some(JobName::Where),
        "translate" => Some(JobName::Translate),
        "strip" => Some(JobName::Strip),
        "diagram" => Some(JobName::Diagram),
        "totals" => Some(JobName::Totals),
        "lengths" => Some(JobName::Lengths),
        "find" => Some(JobName::Find),
        "route" => Some(JobName::Route),
        "ask" => Some(JobName::Ask),
        "list" => Some(JobName::List),
        "rows" => Some(JobName::Rows),
        "overlay" => Some(JobName::Overlay),
        "gone" => Some(JobName::Gone),
        "history" => Some(JobName::History),
        "log" => Some(JobName::Log),
        "diff" => Some(JobName::Diff),
        "draft" => Some(JobName::Draft),
        "audit" => Some(JobName::Audit),
        "serve" => Some(JobName::Serve),
        "page" => Some(JobName::Page),
        _ => None,
    }
}
