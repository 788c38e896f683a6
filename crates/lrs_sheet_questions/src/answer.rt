//! A record is asked at a desk and answered.

ghost use Rattle.std.specs.Prelude.{◌≡◌, ◌≤◌, ◌⊎◌, ◌++◌, length, codes, false, IfOk, IfErr, None, OnOk, Some};
ghost use Rattle.std.specs.Io.KnownBytes.{Appends};
ghost use Rattle.csv.specs.Records.{fields_of};
ghost use Rattle.lrs_report_answers.specs.Causes.{cause_text};
ghost use Rattle.lrs_sheet_questions.specs.Lines.{refused_line, told_lines};
ghost use Rattle.lrs_sheet_questions.specs.Lists.{list_kind};
ghost use Rattle.lrs_sheet_questions.specs.Replies.{IsReplied, Reply, malformed, reply_of};

use crate::lines::{count_segments, write_told};
use crate::list::{kind_of, write_list};
use csv::ByteRecord;
use lrs_desk::{Desk, Keeper};
use lrs_machine::{Field, Key};
use lrs_report_answers::{AskCause, AskFault, Told, cause_of};
use lrs_sheet_records::{
    ReadFault, Sheet, SheetFault, SheetRecord, column_name, question_in, text_at,
};
use std::alloc::Global;
use std::io;
use std::io::Write;

/// Writes why a question is refused.
fn write_refused<W: Write>(writer: &mut W, key: Key, cause: AskCause) -> io::Result<()>
    ensures { OnOk result (Appends (W.contents writer.old) (W.contents writer.new)
        (refused_line key (cause_text cause))) }
{
    writeln!(writer, "{key},refused,{cause}")
}

/// Writes that a column is the first malformed one.
fn write_column<W: Write>(writer: &mut W, key: &str, column: &str) -> io::Result<()>
    ensures { OnOk result (Appends (W.contents writer.old) (W.contents writer.new)
        (refused_line key.now (codes "Malformed:" ++ column.now))) }
{
    writeln!(writer, "{key},refused,Malformed:{column}")
}

/// Writes which field of a record is the first malformed one.
fn write_malformed<W: Write>(writer: &mut W, row: &ByteRecord, field: Field) -> io::Result<()>
    ensures { OnOk result (Appends (W.contents writer.old) (W.contents writer.new)
        (malformed (fields_of row.now) field).lines) }
{
    let record = SheetRecord {
        fields: row,
        sheet: Sheet::Edits,
    };
    let column = column_name(field);
    match Key::new(text_at(&record, 0)) {
        Some(key) => writeln!(writer, "{key},refused,Malformed:{column}"),
        None => write_column(writer, "-", column),
    }
}

/// Writes what is told to a question, where it is no list. What it takes of memory is taken before anything is written.
fn write_single<W: Write>(writer: &mut W, key: Key, told: Told<'_>) -> Result<(), SheetFault>
    requires { list_kind told ≡ None }
    ensures written { OnOk result (Appends (W.contents writer.old) (W.contents writer.new)
        (told_lines key told.entry)) }
    ensures faults { IfErr result (λ e. (e ≡ SheetFault.Write)
        ⊎ ((e ≡ SheetFault.Memory) × (W.contents writer.new ≡ W.contents writer.old))) }
{
    let Ok(count) = count_segments(&told) else {
        return Err(SheetFault::Memory);
    };
    match write_told(writer, key, told, count) {
        Ok(()) => Ok(()),
        Err(_) => Err(SheetFault::Write),
    }
}

/// Writes what is told to a question.
fn write_answer<W: Write>(
    alloc: Global,
    writer: &mut W,
    key: Key,
    told: Told<'_>,
) -> Result<(), SheetFault>
    ensures written { OnOk result (Appends (W.contents writer.old) (W.contents writer.new)
        (told_lines key told.entry)) }
    ensures faults { IfErr result (λ e. (e ≡ SheetFault.Write)
        ⊎ ((e ≡ SheetFault.Memory) × (W.contents writer.new ≡ W.contents writer.old))) }
{
    match kind_of(&told) {
        Some(kind) => write_list(alloc, writer, key, kind, &told),
        None => write_single(writer, key, told),
    }
}

/// Writes what is told to a question, or why it is refused, and says whether it is told.
fn write_said<W: Write>(
    alloc: Global,
    writer: &mut W,
    key: Key,
    said: Result<Told<'_>, AskFault>,
) -> Result<bool, SheetFault>
    ensures written { IfOk result (λ is_answer. (reply : Reply)
        × (reply_of key said.entry ≡ Some reply) × (is_answer ≡ reply.is_answer)
        × Appends (W.contents writer.old) (W.contents writer.new) reply.lines) }
    ensures faults { IfErr result (λ e. (e ≡ SheetFault.Write)
        ⊎ ((e ≡ SheetFault.Memory) × (W.contents writer.new ≡ W.contents writer.old))) }
{
    match said {
        Ok(told) => {
            write_answer(alloc, writer, key, told)?;
            Ok(true)
        }
        Err(fault) => match cause_of(fault) {
            Some(cause) => match write_refused(writer, key, cause) {
                Ok(()) => Ok(false),
                Err(_) => Err(SheetFault::Write),
            },
            None => Err(SheetFault::Memory),
        },
    }
}

/// Asks the question of a record and writes the lines of its reply. Says whether they are an answer.
///
/// # Errors
/// `Write` if the writer fails, and `Memory`, where nothing is written. Where memory runs out only behind the first line of
/// a list, that is `Write`.
pub(crate) fn answer_row<W: Write, K: Keeper>(
    alloc: Global,
    row: &ByteRecord,
    writer: &mut W,
    desk: &Desk<K>,
) -> Result<bool, SheetFault>
    requires width { length (fields_of row.now) ≤ 6 }
    requires behind { desk.now.is_ahead ≡ false }
    ensures replied { IfOk result (λ is_answer. (reply : Reply)
        × IsReplied desk.now.image (fields_of row.now) reply × (is_answer ≡ reply.is_answer)
        × Appends (W.contents writer.old) (W.contents writer.new) reply.lines) }
    ensures faults { IfErr result (λ e. (e ≡ SheetFault.Write)
        ⊎ ((e ≡ SheetFault.Memory) × (W.contents writer.new ≡ W.contents writer.old))) }
{
    match question_in(alloc, row) {
        Ok((key, question)) => write_said(alloc, writer, key, desk.ask(question)),
        Err(ReadFault::Field(field)) => match write_malformed(writer, row, field) {
            Ok(()) => Ok(false),
            Err(_) => Err(SheetFault::Write),
        },
        Err(ReadFault::Memory) => Err(SheetFault::Memory),
    }
}
