//! Orderly and lawful is sound.

ghost use Rattle.lrs_image_laws.specs.Orderly.{OrderlyLawfulIsSound, SoundIsOrderly, SoundIsOrderlyLawful};
ghost use Rattle.lrs_image_laws.specs.CommandChanges.{MadeIsSound};

/// An orderly image that stands for a lawful state is sound.
pub fn orderly_lawful_images_are_sound()
    ensures { OrderlyLawfulIsSound }
{}

/// A sound image is orderly.
pub fn sound_images_are_orderly()
    ensures { SoundIsOrderly }
{}

/// An image is sound exactly where it is orderly and its state is lawful.
pub fn sound_is_orderly_and_lawful()
    ensures { SoundIsOrderlyLawful }
{}

/// What a command makes of a sound image, in order, is sound with its edit.
pub fn what_commands_make_is_sound()
    ensures { MadeIsSound }
{}
