//! Commands that wait: they are done together, and then each has its line.

ghost use Rattle.std.specs.Prelude.{◌≡◌, ◌≤◌, ◌<◌, ◌+◌, ◌^◌, ◌∷◌, ◌++◌, [], Err, Result, length, take, IfOk, IfErr, OnOk};
ghost use Rattle.std.specs.Io.KnownBytes.{Appends};
ghost use Rattle.lrs_machine.specs.Image.{state_of};
ghost use Rattle.lrs_sheet.specs.Replies.{answer_count, counted, lines_of, reply_text};
ghost use Rattle.lrs_sheet.specs.WaitingCommands.{reply_of, replies_of, counted_all, DoesAll, StopsAtFirst, StopsAmong, StopsTaking, Takes};
ghost use Rattle.csv.specs.Records.{fields_of};
ghost use Rattle.lrs_sheet_records.specs.Kinds.{edit_fields, width_of};
ghost use Rattle.lrs_sheet_records.specs.Records.{FirstMalformed, place_of};
ghost use Rattle.lrs_sheet.specs.Sheets.{LeavesDesk};

use crate::reply::{Reply, Tally};
use lrs_desk::{Desk, Keeper};
use lrs_machine::{Answer, Cause, Command, Field, Key};
use lrs_sheet_records::{ReadFault, SheetFault, SheetRecord, command_in, text_at};
use std::alloc::Global;
use std::io::Write;

/// Commands that wait for others, in the order of their records, and how many records have been answered so far.
#[derive(Drop)]
pub(crate) struct Queue {
    pub waiting: Vec<(Key, Command)>,
    pub tally: Tally,
}

/// Writes the line of a reply.
pub(crate) fn write_reply<W: Write>(writer: &mut W, reply: Reply) -> Result<(), SheetFault>
    ensures written { OnOk result (Appends (W.contents writer.old) (W.contents writer.new)
        (reply_text reply ++ 10 ∷ [])) }
    ensures faults { IfErr result (λ e. e ≡ SheetFault.Write) }
{
    match writeln!(writer, "{reply}") {
        Ok(()) => Ok(()),
        Err(_) => Err(SheetFault::Write),
    }
}

/// Writes the line of an answer, under the key of its command, and counts it.
fn write_answer<W: Write>(
    command: &(Key, Command),
    answer: &Answer,
    writer: &mut W,
    tally: &mut Tally,
) -> Result<(), SheetFault>
    requires room { answer_count tally.old < 2 ^ 32 }
    ensures written { OnOk result (Appends (W.contents writer.old) (W.contents writer.new)
        (reply_text (reply_of command.now answer.now) ++ 10 ∷ [])) }
    ensures counted { OnOk result (tally.new ≡ counted tally.old answer.now) }
    ensures faults { IfErr result (λ e. e ≡ SheetFault.Write) }
{
    let reply = Reply {
        key: Some(command.0),
        answer: *answer,
    };
    write_reply(writer, reply)?;
    tally.count(*answer);
    Ok(())
}

/// Writes the line of each answer, under the key of its command, and counts it.
fn write_answers<W: Write>(
    commands: &[(Key, Command)],
    answers: &[Answer],
    writer: &mut W,
    tally: &mut Tally,
) -> Result<(), SheetFault>
    requires few { length answers.now ≤ length commands.now }
    requires room { answer_count tally.old + length answers.now ≤ 2 ^ 32 }
    ensures written { OnOk result (Appends (W.contents writer.old) (W.contents writer.new)
        (lines_of (replies_of commands.now answers.now))) }
    ensures counted { OnOk result (tally.new ≡ counted_all tally.old
        (replies_of commands.now answers.now)) }
    ensures faults { IfErr result (λ e. e ≡ SheetFault.Write) }
{
    for place in 0..answers.len() {
        write_answer(&commands[place], &answers[place], writer, tally)?;
    }
    Ok(())
}

/// Does a command, writes its line and counts it.
fn act_alone<W: Write, K: Keeper>(
    command: &(Key, Command),
    writer: &mut W,
    desk: &mut Desk<K>,
    tally: &mut Tally,
) -> Result<(), SheetFault>
    requires room { answer_count tally.old < 2 ^ 32 }
    ensures does { OnOk result (DoesAll desk.old.limits (command.now ∷ []) (state_of desk.old.image)
        (state_of desk.new.image) (W.contents writer.old)
        (W.contents writer.new) tally.old tally.new) }
    ensures stops { IfErr result (StopsAtFirst K.may_hold (command.now ∷ []) desk.old desk.new
        (W.contents writer.old) (W.contents writer.new)) }
    ensures desk { LeavesDesk K.may_hold desk.old desk.new result }
{
    let answer = desk.act(command.0, &command.1)?;
    write_answer(command, &answer, writer, tally)
}

/// Does the first of these commands by one commit, writes their lines and counts them. Says how many they are.
fn act_together<W: Write, K: Keeper>(
    commands: &[(Key, Command)],
    writer: &mut W,
    desk: &mut Desk<K>,
    tally: &mut Tally,
) -> Result<usize, SheetFault>
    requires several { 2 ≤ length commands.now }
    requires room { answer_count tally.old + length commands.now ≤ 2 ^ 32 }
    ensures few { IfOk result (λ n. (1 ≤ n) × (n ≤ length commands.now)) }
    ensures does { IfOk result (λ n. DoesAll desk.old.limits (take n commands.now)
        (state_of desk.old.image) (state_of desk.new.image) (W.contents writer.old)
        (W.contents writer.new) tally.old tally.new) }
    ensures stops { IfErr result (StopsAtFirst K.may_hold commands.now desk.old desk.new
        (W.contents writer.old) (W.contents writer.new)) }
    ensures desk { LeavesDesk K.may_hold desk.old desk.new result }
{
    let done = desk.act_on_first(commands)?;
    write_answers(commands, &done.answers, writer, tally)?;
    Ok(done.answers.len())
}

/// Does the first of these commands, one at least, writes their lines and counts them. Says how many they are.
fn do_first<W: Write, K: Keeper>(
    commands: &[(Key, Command)],
    writer: &mut W,
    desk: &mut Desk<K>,
    tally: &mut Tally,
) -> Result<usize, SheetFault>
    requires some { 1 ≤ length commands.now }
    requires room { answer_count tally.old + length commands.now ≤ 2 ^ 32 }
    ensures few { IfOk result (λ n. (1 ≤ n) × (n ≤ length commands.now)) }
    ensures does { IfOk result (λ n. DoesAll desk.old.limits (take n commands.now)
        (state_of desk.old.image) (state_of desk.new.image) (W.contents writer.old)
        (W.contents writer.new) tally.old tally.new) }
    ensures stops { IfErr result (StopsAtFirst K.may_hold commands.now desk.old desk.new
        (W.contents writer.old) (W.contents writer.new)) }
    ensures desk { LeavesDesk K.may_hold desk.old desk.new result }
{
    // If the commit of one fails, the desk still answers questions.
    if let [command] = commands {
        act_alone(command, writer, desk, tally)?;
        return Ok(1);
    }
    act_together(commands, writer, desk, tally)
}

/// Does these commands, some at a time, writes the line of each and counts it.
///
/// # Errors
///
/// `Write` if the writer fails, `Desk` if the desk does not answer. What was done and written stays so.
pub(crate) fn do_all<W: Write, K: Keeper>(
    commands: &[(Key, Command)],
    writer: &mut W,
    desk: &mut Desk<K>,
    tally: &mut Tally,
) -> Result<(), SheetFault>
    requires room { answer_count tally.old + length commands.now ≤ 2 ^ 32 }
    ensures does { OnOk result (DoesAll desk.old.limits commands.now (state_of desk.old.image)
        (state_of desk.new.image) (W.contents writer.old)
        (W.contents writer.new) tally.old tally.new) }
    ensures stops { IfErr result (StopsAmong K.may_hold commands.now desk.old desk.new
        (W.contents writer.old) (W.contents writer.new)) }
    ensures desk { LeavesDesk K.may_hold desk.old desk.new result }
{
    let mut done = 0;
    while done < commands.len() {
        done += do_first(&commands[done..], writer, desk, tally)?;
    }
    Ok(())
}

/// Does the commands that wait, and lets none wait.
pub(crate) fn settle<W: Write, K: Keeper>(
    queue: &mut Queue,
    writer: &mut W,
    desk: &mut Desk<K>,
) -> Result<(), SheetFault>
    requires room { answer_count queue.old.tally + length queue.old.waiting.items ≤ 2 ^ 32 }
    ensures none { OnOk result (queue.new.waiting.items ≡ []) }
    ensures does { OnOk result (DoesAll desk.old.limits queue.old.waiting.items (state_of desk.old.image)
        (state_of desk.new.image) (W.contents writer.old)
        (W.contents writer.new) queue.old.tally queue.new.tally) }
    ensures stops { IfErr result (StopsAmong K.may_hold queue.old.waiting.items desk.old desk.new
        (W.contents writer.old) (W.contents writer.new)) }
    ensures desk { LeavesDesk K.may_hold desk.old desk.new result }
{
    do_all(&queue.waiting, writer, desk, &mut queue.tally)?;
    queue.waiting.clear();
    Ok(())
}

/// Refuses a record whose first malformed field is this, behind the waiting commands, and lets none wait.
fn refuse<W: Write, K: Keeper>(
    row: &SheetRecord<'_>,
    field: Field,
    queue: &mut Queue,
    writer: &mut W,
    desk: &mut Desk<K>,
) -> Result<(), SheetFault>
    requires malformed { FirstMalformed (edit_fields row.now) (place_of field) }
    requires room { answer_count queue.old.tally + length queue.old.waiting.items < 2 ^ 32 }
    ensures takes { OnOk result (Takes desk.old.limits
        (edit_fields row.now) queue.old.waiting.items queue.new.waiting.items (state_of desk.old.image)
        (state_of desk.new.image) (W.contents writer.old)
        (W.contents writer.new) queue.old.tally queue.new.tally) }
    ensures none { OnOk result (queue.new.waiting.items ≡ []) }
    ensures stops { IfErr result (StopsTaking K.may_hold
        (edit_fields row.now) queue.old.waiting.items desk.old desk.new (W.contents writer.old)
        (W.contents writer.new) queue.old.tally) }
    ensures desk { LeavesDesk K.may_hold desk.old desk.new result }
{
    settle(queue, writer, desk)?;
    let answer = Answer::Refused(Cause::Malformed(field));
    let key = Key::new(text_at(row, 0));
    write_reply(writer, Reply { key, answer })?;
    queue.tally.count(answer);
    Ok(())
}

/// Lets the command of a record wait. The waiting commands are done once they are so many, before a malformed record
/// is refused, and where no other record has come.
pub(crate) fn take_row<W: Write, K: Keeper>(
    alloc: Global,
    row: &SheetRecord<'_>,
    together: usize,
    has_next: bool,
    queue: &mut Queue,
    writer: &mut W,
    desk: &mut Desk<K>,
) -> Result<(), SheetFault>
    requires width { length (fields_of row.now.fields.now) ≤ width_of row.now.sheet }
    requires room { answer_count queue.old.tally + length queue.old.waiting.items < 2 ^ 32 }
    requires few { length queue.old.waiting.items < together }
    ensures takes { OnOk result (Takes desk.old.limits
        (edit_fields row.now) queue.old.waiting.items queue.new.waiting.items (state_of desk.old.image)
        (state_of desk.new.image) (W.contents writer.old)
        (W.contents writer.new) queue.old.tally queue.new.tally) }
    ensures few { OnOk result (length queue.new.waiting.items < together) }
    ensures stops { IfErr result (StopsTaking K.may_hold
        (edit_fields row.now) queue.old.waiting.items desk.old desk.new (W.contents writer.old)
        (W.contents writer.new) queue.old.tally) }
    ensures desk { LeavesDesk K.may_hold desk.old desk.new result }
{
    let said = match command_in(alloc, row) {
        Ok(said) => said,
        Err(ReadFault::Field(field)) => return refuse(row, field, queue, writer, desk),
        Err(ReadFault::Memory) => {
            settle(queue, writer, desk)?;
            return Err(SheetFault::Memory);
        }
    };
    if queue.waiting.push(said).is_err() {
        settle(queue, writer, desk)?;
        return Err(SheetFault::Memory);
    }
    if has_next && queue.waiting.len() < together {
        return Ok(());
    }
    settle(queue, writer, desk)
}
