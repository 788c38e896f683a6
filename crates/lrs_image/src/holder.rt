//! What holds an image.

/// Holds an image, on a device that may fail: what keepers and batches share.
pub trait Holder {
    ghost use Rattle.std.specs.Prelude.{ℕ, Bool, Result};
    ghost use Rattle.lrs_machine.specs.declared.image.Image.{Image};
    ghost use Rattle.lrs_machine.specs.declared.table.Table.{Table};

    // What an opening at this moment may find: a sound image, or the first unsound table.
    ghost may_hold: { Self → Result Image Table → Type 0 };

    // Whether the device has so far given back what it was given.
    ghost is_clean: { Self → Type 0 };

    // Whether it still reaches its device, as it does after a call that answers Ok.
    ghost is_open: { Self → Type 0 };

    /// Whether the last `load` answered Ok.
    ghost is_loaded: { Self → Bool };

    /// How often the device has failed, or memory ran out in a commit.
    ghost failures: { Self → ℕ };
}
