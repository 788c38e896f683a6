//! An image that is kept in memory.

ghost use Rattle.std.specs.Prelude.{◌≡◌, IfOk, Ok, []};
ghost use Rattle.lrs_machine.specs.Image.{nothing};
ghost use Rattle.lrs_machine.specs.Sound.{IsSound};
ghost use Rattle.lrs_image.specs.OpenLists.{image_of};
ghost use Rattle.lrs_desk.specs.PlainKeeper.{IsBase};
ghost use Rattle.lrs_image.specs.ChangeLists.{apply_all};
ghost use Rattle.lrs_image.specs.KeeperCalls.{content_of};

use lrs_image::{Change, CommitFault, Holder, ImageLists, Keeper, LoadFault};
use lrs_image_sound::first_unsound;
use lrs_machine::{Image, Table};
use std::alloc::{AllocError, Global};
use std::marker::Model;
use std::mem;

#[derive(Drop)]
enum Content {
    Sound(ImageLists),
    Unsound(Table),
}

/// Keeps an image in memory, or the name of its first unsound table. It has the image that it was loaded as last, and
/// each change since. So `stage` takes a change as it is, and `commit` takes no memory and never fails. `load` makes the
/// changes of a copy of that image.
#[derive(Drop)]
pub struct Plain {
    base: Content,
    changes: Vec<Change>,
    /// How many of the changes are kept; the others are staged.
    kept: usize,
}

impl Model for Plain {
    ghost use Rattle.lrs_desk.specs.PlainKeeper.{content_after, PlainView, IsPlain};
    ghost use Rattle.std.specs.Prelude.{take, drop};

    ghost Value = { PlainView };

    ghost view = { λ plain. record { content = content_after (take plain.kept plain.changes.items) plain.base; staged = drop plain.kept plain.changes.items } };

    ghost invariant = { λ plain. IsPlain plain.base plain.kept plain.changes.items };
}

impl Plain {
    /// Keeps this image, or the name of its first unsound table.
    ///
    /// # Errors
    /// When memory runs out.
    pub fn new(image: Image, alloc: Global) -> Result<Plain, AllocError>
        ensures { IfOk result (λ plain. plain ≡ record { content = content_of image; staged = [] }) }
    {
        let base = match first_unsound(alloc, &image)? {
            Some(table) => Content::Unsound(table),
            None => Content::Sound(ImageLists::of_image(alloc, image)?),
        };
        Ok(Plain {
            base,
            changes: Vec::new(alloc),
            kept: 0,
        })
    }

    /// Keeps the image without entries.
    pub fn empty(alloc: Global) -> Plain
        ensures { result ≡ record { content = Ok nothing; staged = [] } }
    {
        Plain {
            base: Content::Sound(ImageLists::empty(alloc)),
            changes: Vec::new(alloc),
            kept: 0,
        }
    }

    /// Drops it. As a call of this crate it is one step to prove for a caller, and not one for each part.
    pub fn discard(self) {
        drop(self);
    }

    /// Drops what is staged.
    pub fn drop_staged(&mut self)
        ensures same { self.new ≡ record self.old { staged = [] } }
        ensures sound { IfOk self.new.content (λ image. IsSound image) }
    {
        self.changes.truncate(self.kept);
    }

    // Has the image that its changes made, in place of the one before them.
    fn fold(&mut self, made: ImageLists)
        requires sound { IsSound (image_of made) }
        requires same { self.old.content ≡ Ok (image_of made) }
        ensures { self.new ≡ record self.old { staged = [] } }
    {
        self.changes.clear();
        self.kept = 0;
        drop(mem::replace(&mut self.base, Content::Sound(made)));
    }
}

impl Holder for Plain {
    ghost use Rattle.std.specs.Prelude.{◌≡◌, ⊤};
    ghost use Rattle.lrs_image.specs.KeeperCalls.{is_image};

    ghost may_hold = { λ plain c. c ≡ plain.content };

    ghost is_clean = { λ plain. ⊤ };

    ghost is_open = { λ plain. ⊤ };

    ghost is_loaded = { λ plain. is_image plain.content };

    // It has no device, so that no commit fails.
    ghost failures = { λ plain. 0 };
}

impl Keeper for Plain {
    ghost use Rattle.lrs_desk.specs.PlainKeeper.{finds_kept};

    ghost staged = { λ plain. plain.staged };

    fn load(&mut self, alloc: Global) -> Result<Image, LoadFault> {
        self.changes.truncate(self.kept);
        let base = match &self.base {
            Content::Sound(base) => base,
            Content::Unsound(table) => return Err(LoadFault::Unsound(*table)),
        };
        let made = made_of(alloc, base, &self.changes)?;
        match made.image(alloc) {
            Ok(image) => {
                self.fold(made);
                Ok(image)
            }
            Err(AllocError) => {
                drop(made);
                Err(LoadFault::Memory)
            }
        }
    }

    fn stage(&mut self, change: Change) -> Result<(), AllocError> {
        self.changes.push(change)?;
        Ok(())
    }

    fn commit(&mut self) -> Result<(), CommitFault> {
        self.kept = self.changes.as_slice().len();
        Ok(())
    }

    ghost finds = { λ plain clean opened. finds_kept plain };
}

/// What changes make of an image.
fn made_of(alloc: Global, base: &ImageLists, changes: &[Change]) -> Result<ImageLists, AllocError>
    requires base { IsBase changes.now (image_of base.now) }
    ensures made { IfOk result (λ made. image_of made ≡ apply_all changes.now (image_of base.now)) }
    ensures sound { IfOk result (λ made. IsSound (image_of made)) }
{
    let image = base.image(alloc)?;
    let mut made = ImageLists::of_image(alloc, image)?;
    match made.change_all(alloc, changes) {
        Ok(()) => Ok(made),
        Err(AllocError) => {
            drop(made);
            Err(AllocError)
        }
    }
}
