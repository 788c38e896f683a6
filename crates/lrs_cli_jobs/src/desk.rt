//! Desks over inventories in files: for all work, or for questions alone; and which inventory a desk has.

ghost use Rattle.std.specs.Prelude.{◌≡◌, ◌↔◌, IfErr, IfOk, IfSome, IsTrue, Ok, Result, false};
ghost use Rattle.lrs_measure.specs.Limits.{most_assets, most_edits, most_routes};
ghost use Rattle.lrs_machine.specs.declared.image.Image.{Image as ImageRows};
ghost use Rattle.lrs_machine.specs.declared.table.Table.{Table as DeclaredTable};
ghost use Rattle.lrs_image.specs.KeeperCalls.{HoldsOnly};
ghost use Rattle.lrs_cli_jobs.specs.Jobs.{IsExpected, identity_at};

use lrs_desk::{Desk, Files, Keeper, OpenFault};
use lrs_machine::Limits;
use lrs_sheet_log::identity_of_log;
use std::rt::HostRuntime;

/// Opens a desk with full limits over the inventory in a file, or over a new one where there is none. The desk acts on
/// what the file holds, and on nothing else. A new file gets sums of its pages where that is asked for.
///
/// # Errors
/// `Unsound` with the first unsound table of the file, `Memory` if memory runs out, and `Keep` if the file cannot be
/// opened for another cause.
pub(crate) fn open_desk<F: Files>(
    rt: &HostRuntime,
    files: &mut F,
    path: &str,
    new_has_sums: bool,
) -> Result<Desk<F::Kept>, OpenFault>
    ensures kept { IfOk result (λ desk. HoldsOnly (F.Kept.may_hold desk.keeper) desk.image) }
    ensures opened { IfOk result (λ desk. (c : Result ImageRows DeclaredTable)
        → F.Kept.may_hold desk.keeper c → F.has_opened c) }
    ensures found { IfOk result (λ desk. F.Kept.is_clean desk.keeper
        → F.has_opened (Ok desk.image)) }
    ensures open { IfOk result (λ desk. desk.must_reopen ≡ false) }
    ensures behind { IfOk result (λ desk. desk.is_ahead ≡ false) }
    ensures limits { IfOk result (λ desk. (desk.limits.routes ≡ most_routes)
        × (desk.limits.assets ≡ most_assets) × (desk.limits.edits ≡ most_edits)) }
{
    let keeper = files.open(rt, path, new_has_sums)?;
    match Desk::open(keeper, Limits::full(), rt.alloc()) {
        Ok(desk) => Ok(desk),
        Err((fault, keeper)) => {
            F::discard(keeper);
            Err(fault)
        }
    }
}

/// Opens a desk over the inventory in a file for questions. The desk answers of what the file held, and of nothing
/// else. There is none where this opening does not take the file, or cannot read it: it is left to `open_desk`.
///
/// # Errors
/// `Unsound` with the first unsound table of the file, and `Memory` if memory runs out.
pub(crate) fn open_desk_to_look<F: Files>(
    rt: &HostRuntime,
    files: &mut F,
    path: &str,
) -> Result<Option<Desk<F::Seen>>, OpenFault>
    ensures kept { IfOk result (λ found. IfSome found (λ desk.
        HoldsOnly (F.Seen.may_hold desk.keeper) desk.image)) }
    ensures read { IfOk result (λ found. IfSome found (λ desk. (c : Result ImageRows DeclaredTable)
        → F.Seen.may_hold desk.keeper c → F.has_read c)) }
    ensures found { IfOk result (λ found. IfSome found (λ desk. F.Seen.is_clean desk.keeper
        → F.has_read (Ok desk.image))) }
    ensures open { IfOk result (λ found. IfSome found (λ desk. desk.must_reopen ≡ false)) }
    ensures behind { IfOk result (λ found. IfSome found (λ desk. desk.is_ahead ≡ false)) }
    ensures fault { IfErr result (λ e. e ≡ OpenFault.Keep → ⊥) }
{
    let Some(keeper) = files.open_to_look(rt, path)? else {
        return Ok(None);
    };
    match Desk::open(keeper, Limits::full(), rt.alloc()) {
        Ok(desk) => Ok(Some(desk)),
        Err((fault, keeper)) => {
            F::discard_seen(keeper);
            match fault {
                OpenFault::Keep => Ok(None),
                fault => Err(fault),
            }
        }
    }
}

/// The identity of a desk's inventory.
pub(crate) fn identity_at<K: Keeper>(desk: &Desk<K>) -> Option<[u8; 16]>
    ensures { result ≡ identity_at desk.now.image }
{
    identity_of_log(desk.inventory().kept())
}

/// Whether a desk has the inventory that is expected.
pub(crate) fn is_expected<K: Keeper>(desk: &Desk<K>, expected: Option<[u8; 16]>) -> bool
    ensures { IsTrue result ↔ IsExpected expected (identity_at desk.now.image) }
{
    match expected {
        Some(_) => identity_at(desk) == expected,
        None => true,
    }
}
