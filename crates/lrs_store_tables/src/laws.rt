//! Laws of what a store holds, over all its rows.

ghost use Rattle.lrs_store_tables.specs.Contents.Laws.{BroughtUpHoldsTheSame, ContentIsSound, EmptyStoreHoldsNothing};

/// A store without any row holds the image without entries.
pub fn empty_store_holds_nothing()
    ensures { EmptyStoreHoldsNothing }
{}

/// An image that a store holds is sound.
pub fn contents_are_sound()
    ensures { ContentIsSound }
{}

/// A store of version 1 that is brought up to version 2, its assets' origins written, holds the image that it
/// held.
pub fn brought_up_holds_the_same()
    ensures { BroughtUpHoldsTheSame }
{}
