//! Laws of the ledger of what is gone.

ghost use Rattle.lrs_image_laws.specs.GoneRows.{GoneStaysInOrder};

/// The ledger of what is gone stays in order with the rows of the next edit.
pub fn gone_stays_in_order()
    ensures { GoneStaysInOrder }
{}
