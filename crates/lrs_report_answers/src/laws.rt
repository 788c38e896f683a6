//! What the rows of the ledgers, and all lists of an image, say of totals; and that there is one list of combinations.

ghost use Rattle.lrs_report_answers.specs.Combinations.{CombinationsAreUnique};
ghost use Rattle.lrs_report_answers.specs.Totals.{LedgersTotal, ListsTotal};

/// The totals of a class are sums of lengths of the rows of the ledgers.
pub fn ledgers_total()
    ensures { LedgersTotal }
{}

/// The totals that are counted over the lists of a sound image are those of its state: what lies on the routes has the
/// length of what is present, and no sum is too great for 64 bits.
pub fn lists_total()
    ensures { ListsTotal }
{}

/// No two lists are the combinations of the values of the same classes, on one route or on all.
pub fn combinations_are_unique()
    ensures { CombinationsAreUnique }
{}
