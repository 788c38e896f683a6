//! Why a sheet was not tidied.

use lrs_sheet_records::SheetFault;
use std::alloc::AllocError;

/// Why a sheet was not tidied.
#[derive(Clone, Copy)]
pub enum TidyFault {
    /// It was not read to its end.
    Read,
    Memory,
}

impl From<AllocError> for TidyFault {
    ghost use Rattle.std.specs.Prelude.{◌≡◌};
    ghost use Rattle.lrs_sheet_advice.specs.declared.tidy_sheet.fault.TidyFault.TheVariants.{Memory};

    ghost from_gives = { λ _ e. e ≡ Memory };

    fn from(_: AllocError) -> Self {
        TidyFault::Memory
    }
}

/// What the fault of a reader of records is here.
pub(crate) fn fault_of(fault: SheetFault) -> TidyFault {
    match fault {
        SheetFault::Memory => TidyFault::Memory,
        _ => TidyFault::Read,
    }
}
