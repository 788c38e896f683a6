//! Laws that tie the rows of a store to the image that it holds.

ghost use Rattle.lrs_store_commit.specs.Laws.ImageLaws.{ContentHasTexts, ContentIsEncoded, EncodedHolds};

/// A store with the rows that a sound image is written as holds this image.
pub fn the_encoded_image_is_held()
    ensures { EncodedHolds }
{}

/// A store of version 2 has the rows that the image it holds is written as.
pub fn the_content_is_encoded()
    ensures { ContentIsEncoded }
{}

/// Each text of an image that a store holds is of its kind, so that what was read can be written and read again.
pub fn texts_of_the_content_are_of_their_kinds()
    ensures { ContentHasTexts }
{}
