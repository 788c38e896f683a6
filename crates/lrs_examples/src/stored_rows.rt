//! Examples of stored rows.

ghost use Rattle.lrs_examples.specs.StoredTables.{NamedTables};

/// Changes of stored rows, and the table that each makes unsound.
pub fn stored_tables()
    ensures { NamedTables }
{}
