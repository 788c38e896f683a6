//! One question, and what a terminal is told of it.

ghost use Rattle.std.specs.Prelude.{◌≡◌, ◌⊎◌, IfErr, IfOk, false};
ghost use Rattle.lrs_cli_tasks.specs.Questions.{HasAnswered};

use lrs_cli_sheets::{ProgressDisplay, tell_of_question};
use lrs_cli_tasks::{Ending, ListForm, ProgramFault, answer, first_columns};
use lrs_cli_words::{BadWord, Job, question_of};
use lrs_desk::{Desk, Keeper, Question};
use std::alloc::Global;
use std::io::Write;
use std::rt::{HostRuntime, Runtime};

/// Answers a question as `answer` does. Before, a terminal is told how the places that it names are understood, and what
/// became of an asset of which nothing is left.
///
/// # Errors
/// Those of `answer`.
pub(crate) fn do_question<R: Runtime<A = Global>, W: Write + Drop, K: Keeper>(
    rt: &R,
    shown: ProgressDisplay,
    desk: &Desk<K>,
    question: Question,
    form: &ListForm,
    to: W,
) -> Result<(W, Ending), ProgramFault>
    requires behind { desk.now.is_ahead ≡ false }
    ensures answered { IfOk result (λ done. HasAnswered desk.now.image question form.now
        (W.contents to) (W.contents done.0) done.1) }
    ensures faults { IfErr result (λ e. (e ≡ ProgramFault.Memory) ⊎ (e ≡ ProgramFault.Write)) }
{
    tell_of_question(rt, shown, desk.inventory(), &question);
    answer(rt.alloc(), desk, question, form, to)
}

// Says which columns the list has that answers a question.
fn tell_columns(rt: &HostRuntime, question: &Question) {
    if let Some(columns) = first_columns(question) {
        let (before, behind) = match question {
            Question::Combinations { .. } => ("each CLASS and ", ""),
            Question::Overlay(_) => ("", " and each CLASS"),
            _ => ("", ""),
        };
        let _ = eprintln!(rt; "hint: its columns are {before}{columns}{behind}");
    }
}

/// Says on standard error which columns the list of a job has, where the word that cannot be read is to name some of them.
pub(crate) fn hint_at_columns(rt: &HostRuntime, job: &Job<'_>, word: BadWord) {
    if !matches!(word, BadWord::Columns | BadWord::RepeatedColumn) {
        return;
    }
    if let Ok(Some(question)) = question_of(rt.alloc(), job) {
        tell_columns(rt, &question);
    }
}
