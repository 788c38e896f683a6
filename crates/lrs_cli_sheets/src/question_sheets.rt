//! Sheets of questions, from a file or the standard input: asked of a desk, and their answers printed.

ghost use Rattle.std.specs.Prelude.{◌≡◌, ◌⊎◌, IfOk, IfErr, false};
ghost use Rattle.lrs_sheet_questions.specs.SheetAnswers.{HasAsked};
ghost use Rattle.lrs_cli_sheets.specs.QuestionSheets.{EndsAsAsked, EndsQuestions, ending_of_questions};

use crate::progress::{Extent, Measured, Progress, ProgressLine};
use crate::report::LongWork;
use crate::sheets::unopened;
use crate::world::{Sheets, World};
use lrs_cli_tasks::{Ending, ProgramFault, behind, buffered};
use lrs_sheet::{Desk, Keeper, SheetFault};
use lrs_sheet_questions::{QuestionTally, ask_all, ask_arriving};
use std::alloc::Global;
use std::io::{Read, Write};
use std::rt::Runtime;

/// When the answers to a sheet of questions are handed to the operating system.
#[derive(Clone, Copy)]
pub enum QuestionPace {
    /// Those to the questions that have arrived, before more is read: whoever sends them may wait for each of them.
    AsTheyArrive,
    /// Those to many questions at once.
    InPieces,
}

// Asks the questions of a sheet's bytes.
fn ask<S: Read + Drop, W: Write, K: Keeper>(
    alloc: Global,
    pace: QuestionPace,
    sheet: S,
    writer: &mut W,
    desk: &Desk<K>,
) -> Result<QuestionTally, SheetFault>
    requires behind { desk.now.is_ahead ≡ false }
    ensures { HasAsked desk.now.image (S.remaining sheet) (W.contents writer.old)
        (W.contents writer.new) result }
{
    match pace {
        QuestionPace::AsTheyArrive => ask_arriving(alloc, sheet, writer, desk),
        QuestionPace::InPieces => ask_all(alloc, sheet, writer, desk),
    }
}

/// Answers a sheet of questions through a buffer in front of the writer, and gives the writer back with all of the
/// answers. So a fault of the sheet is handed out beside the writer. Questions change nothing.
///
/// # Errors
/// `Write` where not all answers were written, and `Memory` where there is none for the buffer.
pub fn answer_sheet<S: Read + Drop, W: Write + Drop, K: Keeper>(
    alloc: Global,
    desk: &Desk<K>,
    pace: QuestionPace,
    sheet: S,
    to: W,
) -> Result<(W, Result<QuestionTally, SheetFault>), ProgramFault>
    requires behind { desk.now.is_ahead ≡ false }
    ensures asked { IfOk result (λ done. HasAsked desk.now.image (S.remaining sheet)
        (W.contents to) (W.contents done.0) done.1) }
    ensures faults { IfErr result (λ e. (e ≡ ProgramFault.Memory) ⊎ (e ≡ ProgramFault.Write)) }
{
    let mut writer = buffered(alloc, to)?;
    let outcome = ask(alloc, pace, sheet, &mut writer, desk);
    Ok((behind(writer)?, outcome))
}

// How the program ends where a sheet of questions ended so.
fn ending_of(outcome: Result<QuestionTally, SheetFault>) -> Ending
    ensures { result ≡ ending_of_questions outcome }
{
    match outcome {
        Ok(tally) if tally.refused == 0 => Ending::Done,
        Ok(_) => Ending::RecordsRefused,
        Err(fault) => Ending::Stopped(ProgramFault::from(fault)),
    }
}

// Answers the questions that a reader gives. The writer is given back with how the program ends.
fn print_answers<R: Runtime<A = Global>, N: Sheets, S: Read + Drop, W: Write + Drop, K: Keeper>(
    world: &World<'_, R, N>,
    desk: &Desk<K>,
    extent: Extent,
    sheet: S,
    to: W,
) -> Result<(W, Ending), ProgramFault>
    requires behind { desk.now.is_ahead ≡ false }
    ensures ended { IfOk result (λ done. EndsAsAsked desk.now.image (S.remaining sheet)
        (W.contents to) (W.contents done.0) done.1) }
    ensures failed { IfErr result (λ e. (e ≡ ProgramFault.Memory) ⊎ (e ≡ ProgramFault.Write)) }
{
    let line = ProgressLine::new(world.rt, world.shown, LongWork::Questions, extent);
    let sheet = Measured {
        from: sheet,
        line: &line,
    };
    let progress = Progress { to, line: &line };
    let answered = answer_sheet(world.rt.alloc(), desk, pace_of(extent), sheet, progress);
    line.clear();
    match answered {
        Ok((progress, outcome)) => Ok((progress.into_writer(), ending_of(outcome))),
        Err(fault) => Err(fault),
    }
}

fn pace_of(extent: Extent) -> QuestionPace {
    match extent {
        Extent::Bytes(_) => QuestionPace::InPieces,
        Extent::Sent | Extent::Typed => QuestionPace::AsTheyArrive,
    }
}

/// Answers a sheet of questions, a file or the standard input. The writer is given back with all of the answers, and how
/// the program ends. It changes nothing.
///
/// # Errors
/// `Write` where not all answers were written, and `Memory` where there is none for the buffer.
pub fn do_questions<R: Runtime<A = Global>, S: Sheets, W: Write + Drop, K: Keeper>(
    world: &World<'_, R, S>,
    desk: &Desk<K>,
    name: &str,
    to: W,
) -> Result<(W, Ending), ProgramFault>
    requires behind { desk.now.is_ahead ≡ false }
    ensures ended { IfOk result (λ done. EndsQuestions desk.now.image
        (S.text_of world.now.sheets.now name.now) (W.contents to) (W.contents done.0) done.1) }
    ensures failed { IfErr result (λ e. (e ≡ ProgramFault.Memory) ⊎ (e ≡ ProgramFault.Write)) }
{
    match world.sheets.open(name) {
        Ok(sheet) => print_answers(world, desk, world.sheets.extent(name), sheet, to),
        Err(error) => Ok((to, unopened(world.rt, name, error))),
    }
}
