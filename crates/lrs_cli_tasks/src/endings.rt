//! How the program ends, and what it says of it.

ghost use Rattle.std.specs.Prelude.{◌≡◌};
ghost use Rattle.lrs_cli_tasks.specs.Endings.{status_of};

use crate::fault::{ProgramFault, table_name};
use lrs_cli_words::BadWord;
use lrs_machine::Table;
use lrs_report_answers::AskCause;
use std::fmt;

/// How the program ends.
#[derive(Clone, Copy, PartialEq, Eq)]
pub enum Ending {
    Done,
    /// A record of a sheet was refused, as its reply line says.
    RecordsRefused,
    QuestionRefused(AskCause),
    /// What is kept is not what its log makes: the first table that differs.
    Differs(Table),
    /// A sheet was to be done only where that was confirmed, and it was not.
    NotConfirmed,
    /// No sheet is drafted. Why was said where that was seen.
    NotDrafted,
    /// A word is not what it should be.
    Unreadable(BadWord),
    /// The words are not understood. What is wrong with them was said where that was seen.
    Misused,
    Stopped(ProgramFault),
}

/// The status with which the program ends.
pub fn status(ending: Ending) -> u8
    ensures { result ≡ status_of ending }
{
    match ending {
        Ending::Done => 0,
        Ending::RecordsRefused
        | Ending::QuestionRefused(_)
        | Ending::Differs(_)
        | Ending::NotConfirmed
        | Ending::NotDrafted => 1,
        Ending::Unreadable(_) | Ending::Misused => 2,
        Ending::Stopped(_) => 3,
    }
}

/// What is said of it on standard error: a line, or nothing.
impl fmt::Display for Ending {
    ghost use Rattle.std.specs.Prelude.{Some};
    ghost use Rattle.lrs_cli_tasks.specs.Endings.{last_words};

    ghost output = { λ ending. Some (last_words ending) };

    fn fmt<W: fmt::Write>(&self, f: &mut fmt::Formatter<W>) -> fmt::Result {
        match self {
            Ending::Done | Ending::RecordsRefused | Ending::Misused => Ok(()),
            Ending::QuestionRefused(cause) => writeln!(f, "roadlrs: {cause}"),
            Ending::Differs(table) => {
                let name = table_name(*table);
                writeln!(f, "roadlrs: Differs:{name}")
            }
            Ending::NotConfirmed => f.write_str("roadlrs: nothing is done\n"),
            Ending::NotDrafted => f.write_str("roadlrs: no sheet is drafted\n"),
            Ending::Unreadable(word) => writeln!(f, "error: {word}"),
            Ending::Stopped(fault) => writeln!(f, "roadlrs: fault {fault}"),
        }
    }
}
