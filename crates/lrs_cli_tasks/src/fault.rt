//! Why the program stops, and how that is said.

ghost use Rattle.std.specs.Prelude.{◌≡◌};
ghost use Rattle.lrs_cli_tasks.specs.Faults.{table_text};

use lrs_desk::{Fault, OpenFault};
use lrs_machine::Table;
use lrs_sheet_records::SheetFault;
use std::fmt;

/// Why the program stopped before its job was done.
#[derive(Clone, Copy, PartialEq, Eq)]
pub enum ProgramFault {
    /// The inventory cannot be opened.
    Open,
    /// The inventory is another one than was expected: its identity, if it has one.
    OtherInventory(Option<[u8; 16]>),
    /// What is kept is unsound: the first table that is.
    Unsound(Table),
    Memory,
    /// The inventory was not written.
    Keep,
    MustReopen,
    /// The sheet was not read.
    Read,
    /// The replies were not written.
    Write,
    BadHeader,
    BadCsv,
    /// Two records of the sheet have one key, so it does not go on.
    RepeatedKey,
    /// The last line of the sheet has no end, and it was to have one.
    CutOff,
    /// The port cannot be listened on.
    Door,
}

impl From<OpenFault> for ProgramFault {
    ghost use Rattle.lrs_cli_tasks.specs.Faults.{fault_of_open};

    ghost from_gives = { λ fault e. e ≡ fault_of_open fault };

    fn from(fault: OpenFault) -> Self {
        match fault {
            OpenFault::Memory => ProgramFault::Memory,
            OpenFault::Keep => ProgramFault::Open,
            OpenFault::Unsound(table) => ProgramFault::Unsound(table),
        }
    }
}

impl From<Fault> for ProgramFault {
    ghost use Rattle.lrs_cli_tasks.specs.Faults.{fault_of_desk};

    ghost from_gives = { λ fault e. e ≡ fault_of_desk fault };

    fn from(fault: Fault) -> Self {
        match fault {
            Fault::Memory => ProgramFault::Memory,
            Fault::Keep => ProgramFault::Keep,
            Fault::MustReopen => ProgramFault::MustReopen,
        }
    }
}

impl From<SheetFault> for ProgramFault {
    ghost use Rattle.lrs_cli_tasks.specs.Faults.{fault_of_sheet};

    ghost from_gives = { λ fault e. e ≡ fault_of_sheet fault };

    fn from(fault: SheetFault) -> Self {
        match fault {
            SheetFault::Read => ProgramFault::Read,
            SheetFault::Write => ProgramFault::Write,
            SheetFault::BadHeader => ProgramFault::BadHeader,
            SheetFault::BadCsv => ProgramFault::BadCsv,
            SheetFault::Desk(fault) => ProgramFault::from(fault),
            SheetFault::Memory => ProgramFault::Memory,
        }
    }
}

/// The name of a table, as the program says it.
pub fn table_name(table: Table) -> &'static str
    ensures { result.now ≡ table_text table }
{
    match table {
        Table::Version => "version",
        Table::Link => "link",
        Table::Class => "class",
        Table::Asset => "asset",
        Table::Piece => "piece",
        Table::Mark => "mark",
        Table::Ref => "ref",
        Table::Span => "span",
        Table::Entered => "entered",
        Table::Gone => "gone",
        Table::Edit => "edit",
        Table::Origin => "origin",
    }
}

impl fmt::Display for ProgramFault {
    ghost use Rattle.std.specs.Prelude.{Some};
    ghost use Rattle.lrs_cli_tasks.specs.Faults.{fault_text};

    ghost output = { λ fault. Some (fault_text fault) };

    fn fmt<W: fmt::Write>(&self, f: &mut fmt::Formatter<W>) -> fmt::Result {
        match self {
            ProgramFault::Open => f.write_str("Open"),
            ProgramFault::OtherInventory(_) => f.write_str("OtherInventory"),
            ProgramFault::Unsound(table) => {
                let name = table_name(*table);
                write!(f, "Unsound:{name}")
            }
            ProgramFault::Memory => f.write_str("Memory"),
            ProgramFault::Keep => f.write_str("Keep"),
            ProgramFault::MustReopen => f.write_str("MustReopen"),
            ProgramFault::Read => f.write_str("Read"),
            ProgramFault::Write => f.write_str("Write"),
            ProgramFault::BadHeader => f.write_str("BadHeader"),
            ProgramFault::BadCsv => f.write_str("BadCsv"),
            ProgramFault::RepeatedKey => f.write_str("RepeatedKey"),
            ProgramFault::CutOff => f.write_str("CutOff"),
            ProgramFault::Door => f.write_str("Door"),
        }
    }
}
