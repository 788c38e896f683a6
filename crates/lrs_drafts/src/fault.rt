//! Why there is no draft.

use std::alloc::{AllocError, AllocFailed};
use std::{fmt, io};

/// Why there is no draft. The texts are sentences for people.
#[derive(Clone, Copy)]
pub enum DraftFault {
    Memory,
    /// The words say no draft: which words are wanted.
    Unreadable(&'static str),
    /// What the words say cannot be done: why, and what to do about it.
    Impossible(&'static str),
}

impl fmt::Display for DraftFault {
    ghost use Rattle.std.specs.Prelude.{Some};
    ghost use Rattle.lrs_drafts.specs.Faults.{fault_text};

    ghost output = { λ fault. Some (fault_text fault) };

    fn fmt<W: fmt::Write>(&self, f: &mut fmt::Formatter<W>) -> fmt::Result {
        match self {
            DraftFault::Memory => f.write_str("out of memory"),
            DraftFault::Unreadable(why) => f.write_str(why),
            DraftFault::Impossible(why) => f.write_str(why),
        }
    }
}

impl From<AllocError> for DraftFault {
    ghost use Rattle.std.specs.Prelude.{◌≡◌};
    ghost use Rattle.lrs_drafts.specs.declared.fault.DraftFault.TheVariants.{Memory};

    ghost from_gives = { λ _ e. e ≡ Memory };

    fn from(_: AllocError) -> Self {
        DraftFault::Memory
    }
}

impl<T: Drop> From<AllocFailed<T>> for DraftFault {
    ghost use Rattle.std.specs.Prelude.{◌≡◌};
    ghost use Rattle.lrs_drafts.specs.declared.fault.DraftFault.TheVariants.{Memory};

    ghost from_gives = { λ _ e. e ≡ Memory };

    fn from(_: AllocFailed<T>) -> Self {
        DraftFault::Memory
    }
}

/// What is written goes into memory, so that only that can run out.
impl From<io::Error> for DraftFault {
    ghost use Rattle.std.specs.Prelude.{◌≡◌};
    ghost use Rattle.lrs_drafts.specs.declared.fault.DraftFault.TheVariants.{Memory};

    ghost from_gives = { λ _ e. e ≡ Memory };

    fn from(_: io::Error) -> Self {
        DraftFault::Memory
    }
}
