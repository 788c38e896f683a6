//! Laws of canonical rows.

ghost use Rattle.lrs_events.specs.Row.Members.{RowsAreOne, AssetRowsAreOne, NoneIsShorter};

/// Canonical rows are determined by what they stand for: two lists of them that stand for the same are one list.
pub fn rows_are_one()
    ensures { RowsAreOne }
{}

/// So are the rows of one asset: where two lists of canonical rows stand for the same of an asset, they have the same
/// rows of it, whatever else they have.
pub fn asset_rows_are_one()
    ensures { AssetRowsAreOne }
{}

/// Canonical rows are as few as what they stand for can be written in, where no asset has two rows over one millimetre:
/// each begins where one of the others does, and there are not fewer of those.
pub fn none_is_shorter()
    ensures { NoneIsShorter }
{}
