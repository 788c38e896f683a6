//! Examples of images, sound and unsound.

ghost use Rattle.lrs_examples.specs.Images.{ImageStands, UnsoundTables};

/// An image stands for the state of the speed limit.
pub fn image_stands()
    ensures { ImageStands }
{}

/// One unsound neighbour of that image for each table.
pub fn unsound_tables()
    ensures { UnsoundTables }
{}
