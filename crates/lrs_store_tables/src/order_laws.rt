//! The law of what a store holds, over its rows in any order.

ghost use Rattle.lrs_store_tables.specs.Contents.OrderLaws.{ContentIsOfRows};

/// Stores with the same rows hold the same: one sound image, or one first table that is unsound.
pub fn content_is_of_rows()
    ensures { ContentIsOfRows }
{}
