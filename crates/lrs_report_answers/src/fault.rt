//! Why a question is refused.

use crate::stretch::End;
use lrs_machine::{Missing, SegFault};
use lrs_position::PlaceFault;
use std::alloc::AllocError;

/// Why a question is refused.
#[derive(Clone, Copy, PartialEq, Eq)]
pub enum AskFault {
    /// What is named, and the inventory does not have.
    Missing(Missing),
    /// The position expression locates nothing on the route.
    Place(PlaceFault),
    /// The position expression at this end of a stretch locates nothing on the route.
    End(End, PlaceFault),
    /// Segments of these classes on this side are refused; lack of memory is `Memory`, never this.
    Seg(SegFault),
    /// What is kept has to be opened again. Only a desk answers so, once a commit has failed.
    MustReopen,
    /// Memory ran out.
    Memory,
}

impl From<AllocError> for AskFault {
    ghost use Rattle.std.specs.Prelude.{◌≡◌};
    ghost use Rattle.lrs_report_answers.specs.declared.fault.AskFault.TheVariants.{Memory};

    ghost from_gives = { λ _ e. e ≡ Memory };

    fn from(_: AllocError) -> Self {
        AskFault::Memory
    }
}

impl From<PlaceFault> for AskFault {
    ghost use Rattle.std.specs.Prelude.{◌≡◌};
    ghost use Rattle.lrs_report_answers.specs.declared.fault.AskFault.TheVariants.{Place};

    ghost from_gives = { λ fault e. e ≡ Place fault };

    fn from(fault: PlaceFault) -> Self {
        AskFault::Place(fault)
    }
}
