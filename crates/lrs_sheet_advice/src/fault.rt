//! Why advice was not written to its end.

use std::alloc::AllocError;

/// Why advice was not written to its end.
#[derive(Clone, Copy)]
pub enum AdviceFault {
    /// The writer failed.
    Write,
    Memory,
}

impl From<AllocError> for AdviceFault {
    ghost use Rattle.std.specs.Prelude.{◌≡◌};
    ghost use Rattle.lrs_sheet_advice.specs.declared.fault.AdviceFault.TheVariants.{Memory};

    ghost from_gives = { λ _ e. e ≡ Memory };

    fn from(_: AllocError) -> Self {
        AdviceFault::Memory
    }
}
