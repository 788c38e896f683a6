//! Why a question is refused, as text.

ghost use Rattle.std.specs.Prelude.{◌≡◌};
ghost use Rattle.lrs_report_answers.specs.Causes.{cause_of, end_text, place_text};

use crate::{AskFault, End};
use lrs_machine::{Missing, SegFault, missing_text};
use lrs_position::PlaceFault;
use std::fmt;

/// Why a question is refused. A number is the index of a class that was asked for, which begins at 0.
#[derive(Clone, Copy, PartialEq, Eq)]
pub enum AskCause {
    /// What is named, and the inventory does not have.
    Missing(Missing),
    NoRef,
    TooFine,
    OffRoute,
    /// The position at an end of a stretch.
    End(End, PlaceFault),
    NoClass(u64),
    NotExclusive(u64),
    SideB,
}

fn place_text(fault: PlaceFault) -> &'static str
    ensures { result.now ≡ place_text fault }
{
    match fault {
        PlaceFault::NoRef => "NoRef",
        PlaceFault::TooFine => "TooFine",
        PlaceFault::OffRoute => "OffRoute",
    }
}

fn end_text(end: End) -> &'static str
    ensures { result.now ≡ end_text end }
{
    match end {
        End::From => "from",
        End::To => "to",
    }
}

/// Its name, and behind a colon its argument where it has one.
impl fmt::Display for AskCause {
    ghost use Rattle.std.specs.Prelude.{Some};
    ghost use Rattle.lrs_report_answers.specs.Causes.{cause_text};

    ghost output = { λ cause. Some (cause_text cause) };

    fn fmt<W: fmt::Write>(&self, f: &mut fmt::Formatter<W>) -> fmt::Result {
        match *self {
            AskCause::Missing(missing) => f.write_str(missing_text(missing)),
            AskCause::NoRef => f.write_str("NoRef"),
            AskCause::TooFine => f.write_str("TooFine"),
            AskCause::OffRoute => f.write_str("OffRoute"),
            AskCause::End(end, fault) => { write!(f, "{}:{}", place_text(fault), end_text(end)) }
            AskCause::NoClass(class) => write!(f, "NoClass:{class}"),
            AskCause::NotExclusive(class) => write!(f, "NotExclusive:{class}"),
            AskCause::SideB => f.write_str("SideB"),
        }
    }
}

/// Why a question is refused; none where it is not the question that failed, but memory ran out or what is kept has to
/// be opened again.
pub fn cause_of(fault: AskFault) -> Option<AskCause>
    ensures { result ≡ cause_of fault }
{
    match fault {
        AskFault::Missing(missing) => Some(AskCause::Missing(missing)),
        AskFault::Place(PlaceFault::NoRef) => Some(AskCause::NoRef),
        AskFault::Place(PlaceFault::TooFine) => Some(AskCause::TooFine),
        AskFault::Place(PlaceFault::OffRoute) => Some(AskCause::OffRoute),
        AskFault::End(end, fault) => Some(AskCause::End(end, fault)),
        AskFault::Seg(SegFault::NoClass(class)) => Some(AskCause::NoClass(class)),
        AskFault::Seg(SegFault::NotExclusive(class)) => Some(AskCause::NotExclusive(class)),
        AskFault::Seg(SegFault::SideB) => Some(AskCause::SideB),
        AskFault::Seg(SegFault::Memory) | AskFault::MustReopen | AskFault::Memory => None,
    }
}
