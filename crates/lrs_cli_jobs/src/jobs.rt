//! What is done with an inventory, in memory or in a file.

ghost use Rattle.std.specs.Prelude.{◌≡◌, ◌↔◌, false, true, IsTrue, length};
ghost use Rattle.lrs_desk.specs.DeskView.{DeskView};
ghost use Rattle.lrs_cli_jobs.specs.Jobs.{EndsInFile, EndsInMemory, EndsJob, EndsPage, EndsTask, EndsTidied, EndsWithLog, FindsKept, HasWorked, HasWorkedAt, Looks, printed};

use crate::comparison::do_comparison;
use crate::desk::{identity_at, is_expected};
use crate::question::do_question;
use crate::service::do_service;
use crate::target::{Target, cleared, look_at_target, open_target, settled_site, turn_at};
use lrs_cli_help::{MadeFile, Options, Patience, Purpose, Site, make_file, remove_file};
use lrs_cli_sheets::{
    Pace, ProgressDisplay, Sheets, World, do_audit, do_check, do_confirmed, do_draft, do_questions,
    do_since, do_tidy,
};
use lrs_cli_tasks::{
    Ending, ProgramFault, Task, Work, answer_sum, do_page, is_in_memory, open_in_memory, task_of,
};
use lrs_cli_words::{Job, QuestionFault, new_has_sums};
use lrs_desk::{Desk, Files, Holder, Keeper, OpenFault, Plain};
use lrs_sheet_records::Sheet;
use std::alloc::Global;
use std::io::Write;
use std::net::Net;
use std::rt::{HostRuntime, Runtime};

// Does what a job asks for at a desk, whatever keeps the inventory, and writes what is said to it. The replies to a
// sheet in a file go out at the pace `of_file`.
fn do_work<R: Runtime<A = Global> + Net, S: Sheets, W: Write + Drop, K: Keeper>(
    world: &World<'_, R, S>,
    desk: &mut Desk<K>,
    work: Work<'_>,
    of_file: Pace,
    to: W,
) -> Result<(W, Ending), ProgramFault>
    requires behind { desk.old.is_ahead ≡ false }
    ensures { HasWorked K.may_hold (S.text_of world.now.sheets.now) work.entry
        desk.old desk.new (W.contents to) (printed W.contents result) }
{
    match work {
        Work::Sheet {
            kind,
            from,
            resumes,
            all,
            whole,
            asks,
        } => do_confirmed(
            world, desk, kind, resumes, all, whole, asks, from, of_file, to,
        ),
        Work::Check {
            kind,
            from,
            differs,
        } => do_check(world, desk, kind, differs, from, to),
        Work::Question { question, form } => {
            do_question(world.rt, world.shown, desk, question, &form, to)
        }
        Work::Questions { from } => do_questions(world, desk, from, to),
        Work::Sum { up_to } => answer_sum(world.rt.alloc(), desk, up_to, to),
        Work::Since { edit } => do_since(world.rt, world.shown, desk, edit, to),
        Work::Draft(words) => do_draft(world.rt, desk, words, to),
        Work::Audit => do_audit(world.rt, world.shown, desk, to),
        Work::Service(service) => {
            let tells = world.shown != ProgressDisplay::Nowhere;
            do_service(world.rt, desk, service, tells, to)
        }
    }
}

// Does the same where the desk's inventory is expected, and else nothing.
fn do_expected<R: Runtime<A = Global> + Net, S: Sheets, W: Write + Drop, K: Keeper>(
    world: &World<'_, R, S>,
    desk: &mut Desk<K>,
    expected: Option<[u8; 16]>,
    work: Work<'_>,
    of_file: Pace,
    to: W,
) -> Result<(W, Ending), ProgramFault>
    requires behind { desk.old.is_ahead ≡ false }
    ensures { HasWorkedAt K.may_hold (S.text_of world.now.sheets.now) expected work.entry
        desk.old desk.new (W.contents to) (printed W.contents result) }
{
    if is_expected(desk, expected) {
        do_work(world, desk, work, of_file, to)
    } else {
        let found = identity_at(desk);
        Ok((to, Ending::Stopped(ProgramFault::OtherInventory(found))))
    }
}

// Does work in a fresh inventory in memory.
fn do_in_memory<R: Runtime<A = Global> + Net, S: Sheets, W: Write + Drop>(
    world: &World<'_, R, S>,
    expected: Option<[u8; 16]>,
    work: Work<'_>,
    to: W,
) -> Result<(W, Ending), ProgramFault>
    ensures { EndsInMemory (S.text_of world.now.sheets.now) expected ⟦<Plain as Holder>⟧.may_hold
        work.entry (W.contents to) (printed W.contents result) }
{
    match open_in_memory(world.rt.alloc()) {
        Ok(mut desk) => {
            let given = do_expected(world, &mut desk, expected, work, Pace::InPieces, to);
            desk.into_keeper().discard();
            given
        }
        Err(fault) => Ok((to, Ending::Stopped(fault))),
    }
}

// Takes the file of a new inventory away again, in which nothing is kept: no edit, and none that may be.
fn take_away<K: Keeper>(
    rt: &HostRuntime,
    target: Target<'_>,
    _desk: &Desk<K>,
    shown: ProgressDisplay,
)
    requires empty { length _desk.now.image.edits ≡ 0 }
    requires kept { _desk.now.must_reopen ≡ false }
{
    if let Some(made) = target.made {
        if remove_file(rt, target.path, made) && shown != ProgressDisplay::Nowhere {
            let path = target.path;
            let _ = eprintln!(rt; "takes it away again: {path}");
        }
    }
}

// Leaves no file that this run has made where its work was not done, and nothing is kept.
fn leave_none<K: Keeper, W>(
    rt: &HostRuntime,
    target: Target<'_>,
    desk: &Desk<K>,
    given: &Result<(W, Ending), ProgramFault>,
    shown: ProgressDisplay,
) {
    let is_done = matches!(given, Ok((_, Ending::Done)));
    if !is_done && desk.inventory().edits() == 0 && !desk.must_reopen() {
        take_away(rt, target, desk, shown);
    }
}

// Does work at a desk, whose keeper is then closed.
fn do_and_close<F: Files, S: Sheets, W: Write + Drop>(
    world: &World<'_, HostRuntime, S>,
    files: &mut F,
    mut desk: Desk<F::Kept>,
    target: Target<'_>,
    work: Work<'_>,
    to: W,
) -> Result<(W, Ending), ProgramFault>
    requires behind { desk.is_ahead ≡ false }
    ensures { (after : DeskView F.Kept) × HasWorkedAt F.Kept.may_hold
        (S.text_of world.now.sheets.now) target.entry.expected work.entry desk after
        (W.contents to) (printed W.contents result)
        × FindsKept F.Kept.may_hold after (F.may_find files.new) }
{
    let given = do_expected(world, &mut desk, target.expected, work, Pace::InGroups, to);
    // the file is open still, and nobody else has it
    leave_none(world.rt, target, &desk, &given, world.shown);
    files.close(desk.into_keeper());
    given
}

// Does work in the inventory of a file, which is closed afterwards. Where it cannot be closed, its log still has
// what was committed. Each reply goes out once its record is committed.
fn do_with_log<F: Files, S: Sheets, W: Write + Drop>(
    world: &World<'_, HostRuntime, S>,
    files: &mut F,
    target: Target<'_>,
    work: Work<'_>,
    to: W,
) -> Result<(W, Ending), ProgramFault>
    ensures { EndsWithLog (S.text_of world.now.sheets.now) target.entry.expected F.Kept.may_hold F.has_opened
        (F.may_find files.new) work.entry (W.contents to) (printed W.contents result) }
{
    match open_target(world.rt, files, target, world.shown) {
        Ok(desk) => do_and_close(world, files, desk, target, work, to),
        Err(fault) => Ok((to, Ending::Stopped(ProgramFault::from(fault)))),
    }
}

// Answers what only looks, at a desk that is then dropped with what it keeps.
fn look<F: Files, S: Sheets, W: Write + Drop>(
    world: &World<'_, HostRuntime, S>,
    mut desk: Desk<F::Seen>,
    expected: Option<[u8; 16]>,
    work: Work<'_>,
    to: W,
) -> Result<(W, Ending), ProgramFault>
    requires behind { desk.is_ahead ≡ false }
    ensures { (after : DeskView F.Seen) × HasWorkedAt F.Seen.may_hold
        (S.text_of world.now.sheets.now) expected work.entry desk after
        (W.contents to) (printed W.contents result) }
{
    let given = do_expected(world, &mut desk, expected, work, Pace::InGroups, to);
    F::discard_seen(desk.into_keeper());
    given
}

// Whether work is a question, a sheet of them, the sum of the log, a sheet that is only tried, a difference or a draft.
fn looks(work: &Work<'_>) -> bool
    ensures { IsTrue result ↔ Looks work.now }
{
    matches!(
        work,
        Work::Sum { .. }
            | Work::Question { .. }
            | Work::Questions { .. }
            | Work::Check { .. }
            | Work::Since { .. }
            | Work::Draft(_)
    )
}

// Does work in the inventory of a file. What only looks is answered without a connection, where that opening takes the
// file.
fn do_in_file<F: Files, S: Sheets, W: Write + Drop>(
    world: &World<'_, HostRuntime, S>,
    files: &mut F,
    target: Target<'_>,
    work: Work<'_>,
    to: W,
) -> Result<(W, Ending), ProgramFault>
    ensures { EndsInFile ⟦<Plain as Holder>⟧.may_hold F.Kept.may_hold F.Seen.may_hold
        F.has_opened F.has_read (F.may_find files.new) (S.text_of world.now.sheets.now)
        target.entry.expected work.entry (W.contents to) (printed W.contents result) }
{
    if matches!(work, Work::Audit) {
        return audit_with_log(world, files, target, work, to);
    }
    if !looks(&work) {
        return do_with_log(world, files, target, work, to);
    }
    match look_at_target(world.rt, files, target, world.shown) {
        Ok(Some(desk)) => look::<F, S, W>(world, desk, target.expected, work, to),
        Ok(None) => do_with_log(world, files, target, work, to),
        Err(fault) => Ok((to, Ending::Stopped(ProgramFault::from(fault)))),
    }
}

// Looks at the file of an inventory, and lets it go.
fn try_to_look<F: Files>(
    rt: &HostRuntime,
    files: &mut F,
    target: Target<'_>,
) -> Result<(), OpenFault> {
    let turn = turn_at(rt, target, Purpose::Look);
    if let Some(keeper) = cleared(rt, turn, false, files.open_to_look(rt, target.path))? {
        F::discard_seen(keeper);
    }
    Ok(())
}

// Audits the inventory of a file, which is opened as for edits, since that tests the indexes too. It is looked at before:
// beside a file that is no inventory nothing is made.
fn audit_with_log<F: Files, S: Sheets, W: Write + Drop>(
    world: &World<'_, HostRuntime, S>,
    files: &mut F,
    target: Target<'_>,
    work: Work<'_>,
    to: W,
) -> Result<(W, Ending), ProgramFault>
    ensures { EndsWithLog (S.text_of world.now.sheets.now) target.entry.expected F.Kept.may_hold F.has_opened
        (F.may_find files.new) work.entry (W.contents to) (printed W.contents result) }
{
    match try_to_look(world.rt, files, target) {
        Ok(()) => do_with_log(world, files, target, work, to),
        Err(fault) => Ok((to, Ending::Stopped(ProgramFault::from(fault)))),
    }
}

// Whether work makes an inventory where there is none.
fn makes(work: &Work<'_>) -> bool {
    matches!(work, Work::Sheet { .. } | Work::Service(_))
}

// Says on a terminal that an inventory is made.
fn tell_making(rt: &HostRuntime, path: &str, shown: ProgressDisplay) {
    if shown != ProgressDisplay::Nowhere {
        let _ = eprintln!(rt; "makes a new inventory: {path}");
    }
}

// Whether work is a sheet of which nothing may be done: it is done as a whole or not at all, or only where that is
// confirmed.
fn may_do_nothing(work: &Work<'_>) -> bool {
    matches!(
        work,
        Work::Sheet { all: true, .. } | Work::Sheet { asks: true, .. }
    )
}

// The file that is made at a path where nothing is, if it may be taken away again: only where it may be that nothing is
// done.
fn made_for(rt: &HostRuntime, path: &str, work: &Work<'_>) -> Option<MadeFile> {
    let made = make_file(rt, path);
    if may_do_nothing(work) { made } else { None }
}

// Makes an inventory, or goes on with one whose making was cut off, and does work in it. What makes none has none; but a
// sheet is tried in a fresh one.
fn do_in_new<F: Files, S: Sheets, W: Write + Drop>(
    world: &World<'_, HostRuntime, S>,
    files: &mut F,
    target: Target<'_>,
    work: Work<'_>,
    to: W,
) -> Result<(W, Ending), ProgramFault>
    ensures { EndsInFile ⟦<Plain as Holder>⟧.may_hold F.Kept.may_hold F.Seen.may_hold
        F.has_opened F.has_read (F.may_find files.new) (S.text_of world.now.sheets.now)
        target.entry.expected work.entry (W.contents to) (printed W.contents result) }
{
    if makes(&work) {
        tell_making(world.rt, target.path, world.shown);
        let target = Target {
            path: target.path,
            new_has_sums: target.new_has_sums,
            existing: target.existing,
            patience: target.patience,
            made: made_for(world.rt, target.path, &work),
            expected: target.expected,
        };
        return do_with_log(world, files, target, work, to);
    }
    if matches!(work, Work::Check { .. }) {
        return do_in_memory(world, target.expected, work, to);
    }
    Ok((to, Ending::Stopped(ProgramFault::Open)))
}

// Does work at a path, by what stands there. Where an inventory has to be there, none is made.
fn do_at_path<F: Files, S: Sheets, W: Write + Drop>(
    world: &World<'_, HostRuntime, S>,
    files: &mut F,
    target: Target<'_>,
    work: Work<'_>,
    to: W,
) -> Result<(W, Ending), ProgramFault>
    ensures { EndsInFile ⟦<Plain as Holder>⟧.may_hold F.Kept.may_hold F.Seen.may_hold
        F.has_opened F.has_read (F.may_find files.new) (S.text_of world.now.sheets.now)
        target.entry.expected work.entry (W.contents to) (printed W.contents result) }
{
    match settled_site(world.rt, target) {
        Site::Inventory => do_in_file(world, files, target, work, to),
        Site::Vacant if !target.existing => do_in_new(world, files, target, work, to),
        Site::Remnant if !target.existing && makes(&work) => {
            do_in_new(world, files, target, work, to)
        }
        _ => Ok((to, Ending::Stopped(ProgramFault::Open))),
    }
}

// Writes the page, which says nothing to the writer.
fn give_page<R: Runtime<A = Global>, W: Write + Drop>(
    rt: &R,
    dir: &str,
    to: W,
) -> Result<(W, Ending), ProgramFault>
    ensures { EndsPage (W.contents to) (printed W.contents result) }
{
    Ok((to, do_page(rt, dir)))
}

// Tidies a sheet.
fn give_tidied<S: Sheets, W: Write + Drop>(
    world: &World<'_, HostRuntime, S>,
    kind: Sheet,
    from: &str,
    to: W,
) -> Result<(W, Ending), ProgramFault>
    ensures { EndsTidied kind (S.text_of world.now.sheets.now from.now)
        (W.contents to) (printed W.contents result) }
{
    do_tidy(world, kind, from, to)
}

// Does a task: writes the page, tidies a sheet, compares two inventories, or works in the one that it names.
fn do_task<F: Files, G: Files, S: Sheets, W: Write + Drop>(
    world: &World<'_, HostRuntime, S>,
    files: &mut F,
    other: &mut G,
    task: Task<'_>,
    new_has_sums: bool,
    options: Options,
    to: W,
) -> Result<(W, Ending), ProgramFault>
    ensures { EndsTask ⟦<Plain as Holder>⟧.may_hold F.Kept.may_hold F.Seen.may_hold
        F.has_opened F.has_read (F.may_find files.new)
        G.Kept.may_hold G.Seen.may_hold G.has_opened G.has_read (S.text_of world.now.sheets.now)
        options.expected task.entry (W.contents to) (printed W.contents result) }
{
    match task {
        Task::Page { dir } => give_page(world.rt, dir, to),
        Task::Tidy { kind, from } => give_tidied(world, kind, from, to),
        Task::Difference { before, after } => {
            do_comparison(world, files, other, before, after, options, to)
        }
        Task::Inventory { db, work } => {
            if is_in_memory(db) {
                return do_in_memory(world, options.expected, work, to);
            }
            let tells = world.shown != ProgressDisplay::Nowhere;
            let target = Target {
                path: db,
                new_has_sums,
                existing: options.has_to_be(),
                patience: Patience::new(world.rt, options.wait, tells),
                made: None,
                expected: options.expected,
            };
            do_at_path(world, files, target, work, to)
        }
    }
}

/// Reads the words of a job, and then opens its inventory, if it has one, by the options `existing`, `wait` and `expected`;
/// a second one is opened by `other`. All answers are written to `to`, replies to the sheets of a file in groups, and it is
/// given back with how the program ends; the page goes into its folder. `files` and `other` have then the files that were
/// closed.
///
/// # Errors
/// `Write` where not all was written, and `Memory` where there is none for what is to be written.
pub fn do_job<F: Files, G: Files, S: Sheets, W: Write + Drop>(
    world: &World<'_, HostRuntime, S>,
    files: &mut F,
    other: &mut G,
    job: &Job<'_>,
    options: Options,
    to: W,
) -> Result<(W, Ending), ProgramFault>
    ensures { EndsJob ⟦<Plain as Holder>⟧.may_hold F.Kept.may_hold F.Seen.may_hold
        F.has_opened F.has_read (F.may_find files.new)
        G.Kept.may_hold G.Seen.may_hold G.has_opened G.has_read (S.text_of world.now.sheets.now)
        options.expected job.now (W.contents to) (printed W.contents result) }
{
    match task_of(world.rt.alloc(), job) {
        Ok(task) => do_task(world, files, other, task, new_has_sums(job), options, to),
        Err(QuestionFault::Unreadable(word)) => Ok((to, Ending::Unreadable(word))),
        Err(QuestionFault::Memory) => Ok((to, Ending::Stopped(ProgramFault::Memory))),
    }
}
