//! What stands behind each fault of a job, and what to do about it: lines on standard error.

use crate::contents::Contents;
use crate::flaw::{tell_flaw, tell_last_line, tell_tidying};
use crate::holder::Holder;
use crate::inspection::{Found, inspect};
use crate::job_texts::{
    does_records, files_of, folder_of, has_questions, inventory_of, is_in_memory, makes_inventory,
    port_of, sheet_kind, sheet_of, tries_sheet, wanted_header,
};
use crate::lines::{say, say_of};
use crate::rules::{BrokenRow, broken_row, rules_of};
use lrs_cli_words::Job;
use lrs_sheet_advice::SheetFlaw;
use lrs_sheet_records::Sheet;
use std::io::ErrorKind;
use std::rt::HostRuntime;
use std::{fs, io};

// What is said of a path where nothing is.
fn nothing_there(job: &Job<'_>, existing: bool) -> &'static str {
    if makes_inventory(job) && !existing {
        "it is not there, and was not made: its folder is not open to you to write, or its disk is full"
    } else {
        "there is no such file"
    }
}

fn tell_holder(rt: &HostRuntime, db: &str, holder: &Option<Holder>) {
    match holder {
        Some(Holder { process, name, .. }) => {
            let _ = eprintln!(rt;
                "explain: {db}: another program has it open: {name}, process {process}"
            );
        }
        None => say_of(
            rt,
            db,
            "another program has it open, as roadlrs serve or sqlite3",
        ),
    }
}

// Says what a database has.
fn tell_contents(rt: &HostRuntime, db: &str, contents: &Contents) {
    match contents {
        Contents::Inventory => say_of(
            rt,
            db,
            "the file is in order; its log named -wal could not be opened, or not made",
        ),
        Contents::OtherOrder => say_of(
            rt,
            db,
            "the tables of an inventory, made in another order or with other columns",
        ),
        Contents::Added(sort, name) => {
            let _ = eprintln!(rt; "explain: {db}: it has {sort} {name}, which no inventory has");
        }
        Contents::Tables(names) => {
            let _ = eprintln!(rt;
                "explain: {db}: a database with other tables than an inventory's:{names}"
            );
        }
        Contents::Unreadable(why) => say_of(rt, db, why.as_str()),
        Contents::Unknown => say_of(
            rt,
            db,
            "a database that is too large to be looked into here",
        ),
    }
}

// Says what stands at the path of an inventory.
fn tell_found(rt: &HostRuntime, job: &Job<'_>, existing: bool, db: &str, found: &Found) {
    let what = match found {
        Found::Nothing => nothing_there(job, existing),
        Found::NoFolder(folder) => {
            let _ = eprintln!(rt; "explain: {db}: there is no folder {folder}");
            return;
        }
        Found::LooseLink => "it is a link to a file that is not there",
        Found::LogAlone => "it is missing or cut short, and a log, named -wal, lies beside it",
        Found::Folder => "it is a folder",
        Found::NoFile => "it is a device, a pipe or a socket",
        Found::SecondName => "the file has a second name, by a hard link",
        Found::Journal => "a journal of SQLite's lies beside it, or something else of that name",
        Found::Empty => "the file is empty",
        Found::Refused(why) => why.as_str(),
        Found::InUse(holder) => return tell_holder(rt, db, holder),
        Found::NoDatabase => "it is not a database of SQLite's",
        Found::Database(contents) => return tell_contents(rt, db, contents),
        Found::Unknown => "memory ran out before it was looked at",
    };
    say_of(rt, db, what);
}

// What to do where nothing is at a path.
fn cure_of_nothing(job: &Job<'_>, existing: bool) -> &'static str {
    if !makes_inventory(job) {
        "name a file that is there; edit and survey make one"
    } else if existing {
        "name a file that is there; without --existing and --expect a new one is made"
    } else {
        "name a file in a folder where you may write, and make room"
    }
}

// What to do about an empty file.
fn cure_of_empty(job: &Job<'_>, existing: bool) -> &'static str {
    if !makes_inventory(job) {
        "name an inventory; edit and survey make one in an empty file"
    } else if existing {
        "name an inventory; without --existing and --expect one is made in an empty file"
    } else {
        "the file, its log named -wal and their folder must be open to you to write"
    }
}

// Says what to do about what a database has.
fn tell_cure_of_contents(rt: &HostRuntime, db: &str, contents: &Contents) {
    let cure = match contents {
        Contents::Inventory => "the file, its log and their folder must be open to you to write",
        Contents::OtherOrder => {
            "docs/OPERATING.md says how to copy its rows into a new file; this one was not changed"
        }
        Contents::Added(sort, name) => {
            let _ = eprintln!(rt;
                "explain: sqlite3 {db} 'DROP {sort} {name}' takes it away; the file was not changed"
            );
            return;
        }
        Contents::Tables(_) => "name another file; this one was not changed",
        Contents::Unreadable(_) => {
            "it is damaged or cut short: restore a copy; or has a trigger, which sqlite3 shows by .schema"
        }
        Contents::Unknown => "sqlite3 shows by .schema what it has",
    };
    say(rt, cure);
}

// Says what to do about a file that another program has.
fn tell_cure_of_use(rt: &HostRuntime, holder: &Option<Holder>) {
    match holder {
        Some(
            Holder {
                port: Some(port),
                ..
            },
        ) => {
            let _ = eprintln!(rt;
                "explain: ask it over HTTP, as http://127.0.0.1:{port}/v1/totals: it has the file as long as it runs"
            );
        }
        _ => say(
            rt,
            "end that program, or wait for it by --wait SECONDS: one program at a time has the file",
        ),
    }
}

// Says what to do about what stands at the path of an inventory.
fn tell_cure(rt: &HostRuntime, job: &Job<'_>, existing: bool, db: &str, found: &Found) {
    match found {
        Found::Nothing => say(rt, cure_of_nothing(job, existing)),
        Found::NoFolder(_) => say(rt, "make the folder, or name another"),
        Found::LogAlone => say(
            rt,
            "bring the file back: what was committed is in both; or remove the log, to begin anew",
        ),
        Found::Folder | Found::NoFile | Found::LooseLink => say(rt, "name a file"),
        Found::SecondName => say(
            rt,
            "take one of the names away: the log can lie beside one alone",
        ),
        Found::Journal => say(rt, "open it with sqlite3, which plays the journal back"),
        Found::Empty => say(rt, cure_of_empty(job, existing)),
        Found::Refused(_) => say(
            rt,
            "the file, its log named -wal and their folder must be open to you to write",
        ),
        Found::InUse(holder) => tell_cure_of_use(rt, holder),
        Found::NoDatabase => say(
            rt,
            "name another file, or restore a copy; this one was not changed",
        ),
        Found::Database(contents) => tell_cure_of_contents(rt, db, contents),
        Found::Unknown => say(rt, "give more memory"),
    }
}

// Whether what is found at a path is an inventory in order.
fn is_in_order(found: &Found) -> bool {
    matches!(found, Found::Database(Contents::Inventory))
}

// Says what stands at the path of an inventory that cannot be opened, and what to do about it. It is another one where
// this one is in order, and there are two: then nothing is said.
fn tell_unopened(
    rt: &HostRuntime,
    job: &Job<'_>,
    existing: bool,
    db: &str,
    has_other: bool,
) -> bool {
    let found = inspect(rt, db);
    if has_other && is_in_order(&found) {
        return false;
    }
    tell_found(rt, job, existing, db, &found);
    tell_cure(rt, job, existing, db, &found);
    true
}

/// The inventory cannot be opened, or one of two: what is found at its path. With `existing` none was to be made.
pub fn explain_open(rt: &HostRuntime, job: &Job<'_>, existing: bool) {
    let (db, other) = files_of(job);
    if !tell_unopened(rt, job, existing, db.unwrap_or(""), other.is_some()) {
        let _ = tell_unopened(rt, job, existing, other.unwrap_or(""), false);
    }
}

// Says which row of a table is unsound, where that is seen.
fn tell_broken_row(rt: &HostRuntime, db: &str, table: &str) -> bool {
    let Some(broken) = broken_row(rt, db, table) else {
        return false;
    };
    let BrokenRow { row, flaw } = broken;
    let _ = eprintln!(rt; "explain: {db}: Unsound:{table}: the row {row}: {flaw}");
    true
}

// The same in the one or the other of two inventories.
fn tell_broken_rows(rt: &HostRuntime, db: &str, other: Option<&str>, table: &str) -> bool {
    if tell_broken_row(rt, db, table) {
        return true;
    }
    match other {
        Some(other) => tell_broken_row(rt, other, table),
        None => false,
    }
}

/// What is kept is unsound, in the inventory or in one of two: this table is.
pub fn explain_unsound(rt: &HostRuntime, job: &Job<'_>, table: &str) {
    let (db, other) = files_of(job);
    let db = db.unwrap_or("");
    if !tell_broken_rows(rt, db, other, table) {
        let rules = rules_of(table);
        let which = if other.is_some() {
            ", or the other"
        } else {
            ""
        };
        let _ = eprintln!(rt;
            "explain: {db}{which}: Unsound:{table}: a rule of its rows is broken: {rules}"
        );
    }
    say(
        rt,
        "something else than roadlrs wrote into it, or it is damaged: restore a copy; nothing was changed",
    );
    say(
        rt,
        "then give the sheets since that copy again, in order, each with --resume",
    );
}

/// Memory ran out.
pub fn explain_memory(rt: &HostRuntime) {
    say(rt, "memory ran out; what was answered done is kept");
}

// Why a file that was open is not written.
fn failed_keeping(rt: &HostRuntime, db: &str) -> &'static str {
    match fs::metadata(rt, db) {
        Err(error) if error.kind() == ErrorKind::NotFound => {
            "the file was moved away or removed while it was open"
        }
        _ => "the disk is full or has failed, or the file or its log was moved away",
    }
}

/// The inventory was not written.
pub fn explain_keep(rt: &HostRuntime, job: &Job<'_>) {
    let db = inventory_of(job).unwrap_or("");
    say_of(rt, db, failed_keeping(rt, db));
    say(
        rt,
        "what was answered done is kept; of the at most 1,024 records behind it all or none",
    );
    if does_records(job) {
        say(
            rt,
            "make room, or put the file and its log back, and give the sheet again with --resume",
        );
    } else {
        say(
            rt,
            "make room, or put the file and its log back, and start the program again",
        );
    }
}

/// The inventory was not written before, and has to be opened again.
pub fn explain_reopening(rt: &HostRuntime) {
    say(
        rt,
        "an earlier command was not written; start the program again",
    );
}

// Why a sheet is not read, where that is known: whether it is so before any record.
fn tell_unread(rt: &HostRuntime, sheet: &str) -> bool {
    match fs::metadata(rt, sheet) {
        Err(error) => {
            let _ = eprintln!(rt; "explain: {sheet}: {error}");
            return true;
        }
        Ok(found) if found.is_dir() => {
            say_of(rt, sheet, "it is a folder; name a file");
            return true;
        }
        Ok(found) if !found.is_file() => {}
        Ok(_) => {
            if let Err(error) = fs::open(rt, sheet) {
                let _ = eprintln!(rt; "explain: {sheet}: {error}");
                return true;
            }
        }
    }
    say_of(rt, sheet, "it could not be read to its end");
    false
}

// What is so of the records of a sheet that was not read to its end.
fn state_of_unread(job: &Job<'_>) -> &'static str {
    if has_questions(job) {
        "ask again: questions change nothing"
    } else if !does_records(job) || tries_sheet(job) {
        "nothing was done; give the sheet again"
    } else if is_in_memory(job) {
        "what was done in memory is gone; give the sheet again"
    } else {
        "what was answered done is kept; give the sheet again with --resume"
    }
}

/// The sheet was not read.
pub fn explain_read(rt: &HostRuntime, job: &Job<'_>) {
    let sheet = sheet_of(job).unwrap_or("");
    if sheet == "stdin" {
        say(rt, "standard input could not be read to its end");
        say(rt, state_of_unread(job));
    } else if tell_unread(rt, sheet) {
        say(rt, "nothing was done; name a sheet that can be read");
    } else {
        say(rt, state_of_unread(job));
    }
}

// Why the page is not written into its folder.
fn unwritten_page(rt: &HostRuntime, folder: &str) -> &'static str {
    match fs::metadata(rt, folder) {
        Ok(found) if found.is_dir() => {
            "index.html could not be written: the folder is not open to you to write, or its disk is full"
        }
        Ok(_) => "it is no folder",
        Err(_) => "the folder could not be made: the one above it is missing, or not open to you",
    }
}

// What is so of what was to be written to standard output.
fn state_of_unwritten(job: &Job<'_>) -> &'static str {
    if !does_records(job) {
        "nothing was changed; ask again"
    } else if is_in_memory(job) {
        "what was done in memory is gone; give the sheet again"
    } else {
        "records up to some one are done, also some without a reply; give the sheet again with --resume"
    }
}

/// The answers, or the page, were not written: the system's reason, where standard output told one.
pub fn explain_write(rt: &HostRuntime, job: &Job<'_>, reason: Option<io::Error>) {
    if let Some(folder) = folder_of(job) {
        return say_of(rt, folder, unwritten_page(rt, folder));
    }
    match reason {
        Some(error) => {
            let _ = eprintln!(rt; "explain: standard output took no more: {error}");
        }
        None => say(rt, "standard output took no more"),
    }
    say(rt, state_of_unwritten(job));
}

// What says where a sheet is wrong that was not read again.
fn tell_check(rt: &HostRuntime, job: &Job<'_>) {
    match sheet_kind(job) {
        Some(Sheet::Edits) => say(
            rt,
            "with the sheet in a file, roadlrs check DB FILE says where, and what is wanted",
        ),
        Some(Sheet::Survey) => say(
            rt,
            "with the sheet in a file, roadlrs check DB FILE --survey says where, and what is wanted",
        ),
        None => {}
    }
}

/// The sheet has another header.
pub fn explain_header(rt: &HostRuntime, job: &Job<'_>) {
    let sheet = sheet_of(job).unwrap_or("");
    if tries_sheet(job) {
        say_of(rt, sheet, "above stands what its first line has");
    } else if tell_flaw(rt, job, SheetFlaw::Header).is_none() {
        let header = wanted_header(job);
        let _ = eprintln!(rt; "explain: {sheet}: its first line is not the header {header}");
        tell_check(rt, job);
    }
    let _ = tell_tidying(rt, job);
    if has_questions(job) {
        say(rt, "nothing was asked; mend the header and ask again");
    } else {
        say(
            rt,
            "nothing was done; mend the header and give the sheet again",
        );
    }
}

// What is so of the records before one that has the wrong number of fields.
fn state_before_record(job: &Job<'_>) -> &'static str {
    if has_questions(job) {
        "the questions before it are answered; mend the sheet and ask again"
    } else if tries_sheet(job) || !does_records(job) {
        "nothing was done; mend the sheet and give it again"
    } else if is_in_memory(job) {
        "the records before it were done in memory alone; mend the sheet and give it again"
    } else {
        "the records before it are as their replies say; mend the sheet, and give it again with --resume"
    }
}

/// A record of the sheet has another number of fields than its header.
pub fn explain_record(rt: &HostRuntime, job: &Job<'_>) {
    let sheet = sheet_of(job).unwrap_or("");
    if tries_sheet(job) {
        say_of(rt, sheet, "above stands which record cannot be read");
    } else if tell_flaw(rt, job, SheetFlaw::Width).is_none() {
        say_of(rt, sheet, "a record has too few or too many fields");
        tell_check(rt, job);
    }
    let _ = tell_tidying(rt, job);
    say(rt, state_before_record(job));
}

/// Two records of the sheet have one key, so it does not go on.
pub fn explain_repeated_key(rt: &HostRuntime, job: &Job<'_>) {
    say_of(
        rt,
        sheet_of(job).unwrap_or(""),
        "two of its records have one key, so it is not known behind which of them to go on; nothing was done",
    );
    say(
        rt,
        "take the second one out, or give it a key of its own, and send the sheet again with --resume",
    );
}

/// The last line of the sheet has no end, and it was to have one.
pub fn explain_cut_off(rt: &HostRuntime, job: &Job<'_>) {
    if tell_last_line(rt, job).is_none() {
        say_of(rt, sheet_of(job).unwrap_or(""), "its last line has no end");
    }
    say(rt, "it may have been cut off there; nothing was done");
    say(
        rt,
        "give the whole sheet; without --whole it is done as it is",
    );
}

/// The port cannot be listened on.
pub fn explain_port(rt: &HostRuntime, job: &Job<'_>) {
    say_of(
        rt,
        port_of(job).unwrap_or(""),
        "the port is taken by another program, or only root may listen on it",
    );
    say(
        rt,
        "end that program, or name another port; ss -tlnp shows who listens",
    );
}

// The digits of an identity as text.
fn shown_identity(identity: &[u8; 16]) -> &str {
    str::from_utf8(identity).unwrap_or("")
}

/// The inventory of a job has this identity, or none, and another one is expected.
pub fn explain_other(
    rt: &HostRuntime,
    job: &Job<'_>,
    found: Option<[u8; 16]>,
    expected: Option<[u8; 16]>,
) {
    let db = inventory_of(job).unwrap_or("");
    if let Some(expected) = expected {
        let wanted = shown_identity(&expected);
        let _ = match found {
            Some(found) => {
                let found = shown_identity(&found);
                eprintln!(rt; "explain: {db}: its identity is {found}, and not {wanted}")
            }
            None => eprintln!(rt;
                "explain: {db}: it has no edits, so its identity is not {wanted}"
            ),
        };
    }
    say(
        rt,
        "nothing was done; name the inventory with this identity, or leave --expect away",
    );
}

/// Where more is said, whatever the fault.
pub fn name_pages(rt: &HostRuntime) {
    say(
        rt,
        "docs/OPERATING.md has more on faults, docs/SHEETS.md on sheets",
    );
}
