//! Questions: asked of a desk, and their answers printed.

ghost use Rattle.std.specs.Prelude.{◌≡◌, ◌⊎◌, IfOk, IfErr, OnOk, Err, false};
ghost use Rattle.std.specs.Io.KnownBytes.{Appends};
ghost use Rattle.std.specs.IoError.{error_kind};
ghost use Rattle.lrs_report_answers.specs.ToldAnswers.{IsTold};
ghost use Rattle.lrs_cli_tasks.specs.Columns.{picked_cells};
ghost use Rattle.lrs_cli_tasks.specs.Lines.{told_text};
ghost use Rattle.lrs_cli_tasks.specs.Questions.{HasAnswered, IsPrinted, ending_of, in_cells, output_in, plain_form, stop_of, unwritten_by};

use crate::buffer::{behind, buffered};
use crate::cells::write_text_cells;
use crate::endings::Ending;
use crate::fault::ProgramFault;
use crate::lines::write_told;
use crate::picked::write_picked;
use crate::task::ListForm;
use lrs_desk::{AskFault, Desk, Keeper, Question, Told};
use lrs_report_answers::cause_of;
use std::alloc::Global;
use std::io;
use std::io::{ErrorKind, Write};

/// Why no answer was printed.
#[derive(Clone, Copy)]
pub enum Unanswered {
    /// The desk answered by this fault.
    Asked(AskFault),
    /// Memory ran out while it was written.
    Memory,
    /// It was not written, or not whole.
    Write,
}

// Why an answer was not written.
fn unwritten(error: &io::Error) -> Unanswered
    ensures { result ≡ unwritten_by (error_kind error.now) }
{
    match error.kind() {
        ErrorKind::OutOfMemory => Unanswered::Memory,
        _ => Unanswered::Write,
    }
}

// The answer to a question.
fn print_answer<K: Keeper, W: Write>(
    alloc: Global,
    desk: &Desk<K>,
    question: Question,
    writer: &mut W,
) -> Result<(), Unanswered>
    requires behind { desk.now.is_ahead ≡ false }
    ensures { IsPrinted (IsTold desk.now.image question) told_text (W.contents writer.old)
        (W.contents writer.new) result }
{
    match desk.ask(question) {
        Ok(told) => match write_told(alloc, writer, told) {
            Ok(()) => Ok(()),
            Err(error) => Err(unwritten(&error)),
        },
        Err(fault) => Err(Unanswered::Asked(fault)),
    }
}

// The fault that stops the program where a question was not refused.
fn stop_of(fault: AskFault) -> ProgramFault
    ensures { result ≡ stop_of fault }
{
    match fault {
        AskFault::MustReopen => ProgramFault::MustReopen,
        AskFault::Missing(_)
        | AskFault::Place(_)
        | AskFault::End(..)
        | AskFault::Seg(_)
        | AskFault::Memory => ProgramFault::Memory,
    }
}

// How the program ends where a desk answered by a fault.
fn refusal(fault: AskFault) -> Ending
    ensures { result ≡ ending_of (Err fault) }
{
    match cause_of(fault) {
        Some(cause) => Ending::QuestionRefused(cause),
        None => Ending::Stopped(stop_of(fault)),
    }
}

// Answers a question through a buffer in front of the writer, and gives the writer back with the whole answer.
fn answer_as_it_is<K: Keeper, W: Write + Drop>(
    alloc: Global,
    desk: &Desk<K>,
    question: Question,
    to: W,
) -> Result<(W, Ending), ProgramFault>
    requires behind { desk.now.is_ahead ≡ false }
    ensures answered { IfOk result (λ done. HasAnswered desk.now.image question plain_form
        (W.contents to) (W.contents done.0) done.1) }
    ensures faults { IfErr result (λ e. (e ≡ ProgramFault.Memory) ⊎ (e ≡ ProgramFault.Write)) }
{
    let mut writer = buffered(alloc, to)?;
    let ending = match print_answer(alloc, desk, question, &mut writer) {
        Ok(()) => Ending::Done,
        Err(Unanswered::Asked(fault)) => refusal(fault),
        Err(Unanswered::Memory) => return Err(ProgramFault::Memory),
        Err(Unanswered::Write) => return Err(ProgramFault::Write),
    };
    Ok((behind(writer)?, ending))
}

// The columns of a CSV text at these places.
fn picked_text(alloc: Global, text: &[u8], places: &[usize]) -> Result<Vec<u8>, ProgramFault>
    ensures picked { IfOk result (λ picked. picked.items ≡ picked_cells places.now text.now) }
    ensures memory { IfErr result (λ e. e ≡ ProgramFault.Memory) }
{
    let mut picked = Vec::new(alloc);
    match write_picked(&mut picked, places, text) {
        Ok(()) => Ok(picked),
        // of what is written into memory, that alone can run out
        Err(_) => Err(ProgramFault::Memory),
    }
}

// Writes a CSV text, as it is or each cell as text.
fn write_cells<W: Write>(writer: &mut W, text: &[u8], as_text: bool) -> io::Result<()>
    ensures { OnOk result (Appends (W.contents writer.old) (W.contents writer.new)
        (in_cells as_text text.now)) }
{
    if as_text {
        write_text_cells(writer, text)
    } else {
        writer.write_all(text)
    }
}

// The same through a buffer in front of the writer, which is given back.
fn print_cells<W: Write + Drop>(
    alloc: Global,
    text: &[u8],
    as_text: bool,
    to: W,
) -> Result<W, ProgramFault>
    ensures written { IfOk result (λ w. Appends (W.contents to) (W.contents w)
        (in_cells as_text text.now)) }
    ensures faults { IfErr result (λ e. (e ≡ ProgramFault.Memory) ⊎ (e ≡ ProgramFault.Write)) }
{
    let mut writer = buffered(alloc, to)?;
    match write_cells(&mut writer, text, as_text) {
        Ok(()) => behind(writer),
        Err(_) => Err(ProgramFault::Write),
    }
}

// Writes a CSV text in a form, and gives the writer back.
fn print_in_form<W: Write + Drop>(
    alloc: Global,
    text: &[u8],
    form: &ListForm,
    to: W,
) -> Result<W, ProgramFault>
    ensures written { IfOk result (λ w. Appends (W.contents to) (W.contents w)
        (output_in form.now text.now)) }
    ensures faults { IfErr result (λ e. (e ≡ ProgramFault.Memory) ⊎ (e ≡ ProgramFault.Write)) }
{
    match &form.columns {
        Some(places) => match picked_text(alloc, text, places.as_slice()) {
            Ok(picked) => print_cells(alloc, picked.as_slice(), form.as_text, to),
            Err(fault) => Err(fault),
        },
        None => print_cells(alloc, text, form.as_text, to),
    }
}

// Answers a question in a form. The answer is made in memory before.
fn answer_in_form<K: Keeper, W: Write + Drop>(
    alloc: Global,
    desk: &Desk<K>,
    question: Question,
    form: &ListForm,
    to: W,
) -> Result<(W, Ending), ProgramFault>
    requires behind { desk.now.is_ahead ≡ false }
    ensures answered { IfOk result (λ done. HasAnswered desk.now.image question form.now
        (W.contents to) (W.contents done.0) done.1) }
    ensures faults { IfErr result (λ e. (e ≡ ProgramFault.Memory) ⊎ (e ≡ ProgramFault.Write)) }
{
    let mut text = Vec::new(alloc);
    match print_answer(alloc, desk, question, &mut text) {
        Ok(()) => Ok((
            print_in_form(alloc, text.as_slice(), form, to)?,
            Ending::Done,
        )),
        Err(Unanswered::Asked(fault)) => Ok((to, refusal(fault))),
        // of what is written into memory, that alone can run out
        Err(Unanswered::Memory | Unanswered::Write) => Err(ProgramFault::Memory),
    }
}

/// Answers a question, and gives the writer back with the whole answer; a list in a form, which is made in memory before
/// where it is no plain one. A question changes nothing.
///
/// # Errors
/// `Write` where the answer was not written, and `Memory` where there is none for it.
pub fn answer<K: Keeper, W: Write + Drop>(
    alloc: Global,
    desk: &Desk<K>,
    question: Question,
    form: &ListForm,
    to: W,
) -> Result<(W, Ending), ProgramFault>
    requires behind { desk.now.is_ahead ≡ false }
    ensures answered { IfOk result (λ done. HasAnswered desk.now.image question form.now
        (W.contents to) (W.contents done.0) done.1) }
    ensures faults { IfErr result (λ e. (e ≡ ProgramFault.Memory) ⊎ (e ≡ ProgramFault.Write)) }
{
    if form.as_text || form.columns.is_some() {
        answer_in_form(alloc, desk, question, form, to)
    } else {
        answer_as_it_is(alloc, desk, question, to)
    }
}
