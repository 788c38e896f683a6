//! Why the rows of a store are not read.

use lrs_machine::Table;
use std::alloc::AllocError;

/// Why rows give no part of an image.
#[derive(Clone, Copy, PartialEq, Eq)]
pub enum RowsFault {
    /// There is too little memory.
    Memory,
    /// The rows of this table are unsound.
    Unsound(Table),
}

impl From<AllocError> for RowsFault {
    ghost use Rattle.std.specs.Prelude.{◌≡◌};
    ghost use Rattle.lrs_store_image.specs.declared.route_decoder.fault.RowsFault.TheVariants.{Memory};

    ghost from_gives = { λ _ e. e ≡ Memory };

    fn from(_e: AllocError) -> RowsFault {
        RowsFault::Memory
    }
}
