//! Why a command has no answer.

ghost use Rattle.std.specs.Prelude.{◌≡◌};

use std::alloc::{AllocError, AllocFailed};

/// Why a desk did not answer.
#[derive(Clone, Copy, PartialEq, Eq)]
pub enum Fault {
    Memory,
    Keep,
    MustReopen,
}

impl From<AllocError> for Fault {
    ghost use Rattle.lrs_machine.specs.declared.stops.fault.Fault.TheVariants.{Memory};

    ghost from_gives = { λ _ e. e ≡ Memory };

    fn from(_: AllocError) -> Self {
        Fault::Memory
    }
}

impl<T: Drop> From<AllocFailed<T>> for Fault {
    ghost use Rattle.lrs_machine.specs.declared.stops.fault.Fault.TheVariants.{Memory};

    ghost from_gives = { λ _ e. e ≡ Memory };

    fn from(_: AllocFailed<T>) -> Self {
        Fault::Memory
    }
}
