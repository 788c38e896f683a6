//! The rows of what is known, whatever was done.

ghost use Rattle.lrs_promises.specs.Rows.{HasFewestRows};

use lrs_desk::{Desk, Keeper};

/// Whatever was done at a desk, the rows of its inventory are the maximal stretches of what is held: a function of the
/// courses of its routes and of what is held, and of nothing else. No other rows that say the same are fewer, where no
/// asset has two over one millimetre.
pub fn rows<K: Keeper>(desk: &Desk<K>)
    ensures { HasFewestRows desk.now.image }
{
    desk.inventory().prove_sound();
}
