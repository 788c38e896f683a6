//! Why a record says no command, and why a sheet is not answered to its end.

use lrs_machine::{Fault, Field};

/// Why a record says no command.
#[derive(Clone, Copy, PartialEq, Eq)]
pub enum ReadFault {
    /// The first field that is malformed.
    Field(Field),
    Memory,
}

/// Why a sheet was not answered to its end. The records before the fault are done.
#[derive(Clone, Copy, PartialEq, Eq)]
pub enum SheetFault {
    /// The reader failed, or there are too many records.
    Read,
    /// The writer failed.
    Write,
    /// The first record is not the sheet's header; nothing was done.
    BadHeader,
    /// A record has not as many fields as the header; those before it are done and answered.
    BadCsv,
    /// The desk did not answer.
    Desk(Fault),
    Memory,
}

impl From<Fault> for SheetFault {
    ghost use Rattle.std.specs.Prelude.{◌≡◌};
    ghost use Rattle.lrs_sheet_records.specs.declared.fault.SheetFault.TheVariants.{Desk};

    ghost from_gives = { λ fault e. e ≡ Desk fault };

    fn from(fault: Fault) -> Self {
        SheetFault::Desk(fault)
    }
}
