//! Laws of what is written of a change, over all rows.

ghost use Rattle.lrs_store_commit.specs.Laws.ChangeLaws.{WrittenIsEncoded};

/// After a change is written, rows that stood for a sound image stand for the changed image.
pub fn written_is_encoded()
    ensures { WrittenIsEncoded }
{}
