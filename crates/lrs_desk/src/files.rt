//! What opens the inventories in files.

use crate::desk::OpenFault;
use lrs_image::Keeper;
use std::rt::HostRuntime;

/// Opens the keeper of an inventory in a file: once for all work, and before that once for questions alone. It has the
/// files that were closed.
pub trait Files: Drop {
    ghost use Rattle.std.specs.Prelude.{◌≡◌, IfErr, IfOk, IfSome, Result};
    ghost use Rattle.lrs_machine.specs.declared.image.Image.{Image};
    ghost use Rattle.lrs_machine.specs.declared.table.Table.{Table};

    /// Keeps an inventory in a file.
    type Kept: Keeper;

    /// Keeps an inventory in a file for questions alone.
    type Seen: Keeper;

    /// What an opening for all work may find in the file at a path.
    ghost has_opened: { Result Image Table → Type 0 };

    /// What an opening that only looks may have read in the file at a path.
    ghost has_read: { Result Image Table → Type 0 };

    /// What an opening may find in the files that it has: nothing is told of such as are not closed, or of which a commit
    /// has failed.
    ghost may_find: { Self → Result Image Table → Type 0 };

    /// Opens the file of an inventory, or makes one where there is none. What is kept is what the file held, and nothing
    /// else. A new file gets sums of its pages where that is asked for.
    ///
    /// # Errors
    /// `Memory` if memory runs out, and `Keep` if the file cannot be opened for another cause, or was opened before.
    fn open(
        &mut self,
        rt: &HostRuntime,
        path: &str,
        new_has_sums: bool,
    ) -> Result<Self::Kept, OpenFault>
        ensures opened { IfOk result (λ keeper. (c : Result Image Table)
            → Self.Kept.may_hold keeper c → has_opened c) };

    /// Opens the file of an inventory for questions. What is kept is what the file held, and nothing else. There is
    /// nothing where this opening does not take the file, as one that is new or of version 1, or where it was looked at
    /// before: it is left to `open`.
    ///
    /// # Errors
    /// `Memory` if memory runs out.
    fn open_to_look(
        &mut self,
        rt: &HostRuntime,
        path: &str,
    ) -> Result<Option<Self::Seen>, OpenFault>
        ensures read { IfOk result (λ found. IfSome found (λ keeper. (c : Result Image Table)
            → Self.Seen.may_hold keeper c → has_read c)) }
        ensures fault { IfErr result (λ e. e ≡ OpenFault.Memory) };

    /// Closes a keeper, and has its files. An opening finds in them what was kept, and nothing else. Where that fails, its
    /// log still has what was committed.
    fn close(&mut self, keeper: Self::Kept)
        ensures found { (c : Result Image Table) → may_find self.new c
            → Self.Kept.may_hold keeper c };

    /// Lets a keeper go, which is not closed: what was committed may be in its log alone, where the next opening finds it.
    fn discard(keeper: Self::Kept);

    /// Drops a keeper for questions.
    fn discard_seen(keeper: Self::Seen);
}
