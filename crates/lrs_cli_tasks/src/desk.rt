//! The desk of the inventory that the words name.

ghost use Rattle.std.specs.Prelude.{◌≡◌, ◌↔◌, IfOk, IfErr, IsTrue, Result, codes, false};
ghost use Rattle.lrs_measure.specs.Limits.{most_assets, most_edits, most_routes};
ghost use Rattle.lrs_machine.specs.Image.{nothing};
ghost use Rattle.lrs_machine.specs.declared.image.Image.{Image};
ghost use Rattle.lrs_machine.specs.declared.table.Table.{Table};
ghost use Rattle.lrs_image.specs.KeeperCalls.{HoldsOnly};
ghost use Rattle.lrs_cli_tasks.specs.Faults.{HasNoDesk};

use crate::fault::ProgramFault;
use lrs_desk::{Desk, Holder, Keeper, Plain};
use lrs_machine::Limits;
use std::alloc::Global;

/// Whether a word names a fresh inventory in memory.
pub fn is_in_memory(db: &str) -> bool
    ensures { IsTrue result ↔ (db.now ≡ codes ":memory:") }
{
    db == ":memory:"
}

/// Opens a desk with full limits over a keeper, or gives the keeper back, which holds what it held.
pub fn open_full<K: Keeper>(keeper: K, alloc: Global) -> Result<Desk<K>, (ProgramFault, K)>
    ensures kept { IfOk result (λ desk. HoldsOnly (K.may_hold desk.keeper) desk.image) }
    ensures content { IfOk result (λ desk. (c : Result Image Table)
        → K.may_hold desk.keeper c → K.may_hold keeper c) }
    ensures open { IfOk result (λ desk. desk.must_reopen ≡ false) }
    ensures behind { IfOk result (λ desk. desk.is_ahead ≡ false) }
    ensures limits { IfOk result (λ desk. (desk.limits.routes ≡ most_routes)
        × (desk.limits.assets ≡ most_assets) × (desk.limits.edits ≡ most_edits)) }
    ensures fault { IfErr result (λ e. HasNoDesk K.failures K.may_hold keeper e.1 e.0) }
{
    match Desk::open(keeper, Limits::full(), alloc) {
        Ok(desk) => Ok(desk),
        Err((fault, keeper)) => Err((ProgramFault::from(fault), keeper)),
    }
}

/// Opens a fresh inventory in memory, which ends with the program.
pub fn open_in_memory(alloc: Global) -> Result<Desk<Plain>, ProgramFault>
    ensures fresh { IfOk result (λ desk. (desk.image ≡ nothing) × (desk.must_reopen ≡ false)) }
    ensures kept { IfOk result (λ desk. HoldsOnly (⟦<Plain as Holder>⟧.may_hold desk.keeper)
        desk.image) }
    ensures behind { IfOk result (λ desk. desk.is_ahead ≡ false) }
    ensures limits { IfOk result (λ desk. (desk.limits.routes ≡ most_routes)
        × (desk.limits.assets ≡ most_assets) × (desk.limits.edits ≡ most_edits)) }
    ensures memory { IfErr result (λ e. e ≡ ProgramFault.Memory) }
{
    match open_full(Plain::empty(alloc), alloc) {
        Ok(desk) => Ok(desk),
        Err((_, plain)) => {
            plain.discard();
            Err(ProgramFault::Memory)
        }
    }
}
