//! Where a new asset is to be: the checks that `enter` and `supersede` share.

ghost use Rattle.std.specs.Prelude.{IfErr, ◌≡◌, ◌||◌, IfOk};
ghost use Rattle.lrs_machine.specs.Machine.{is_wrong_kind};
ghost use Rattle.lrs_verbs.specs.Entries.{HasBegun};
ghost use Rattle.lrs_verbs.specs.EntryRequests.{is_left_out, IsWanted, IsRefused};

use lrs_events::Kind;
use lrs_inventory::{Inventory, RouteStretch, Stop, refuse_if};
use lrs_machine::{Cause, NewAsset, RouteRow};
use lrs_position::EventLocation;

/// What a new asset is to hold: the kind of its class, its route, and the stretch of this that it wants. Where it
/// takes the places of others, only exclusive classes are taken.
///
/// # Errors
/// The first check of the new asset that fails.
pub fn wanted_of<'a>(
    inventory: &'a Inventory,
    asked: &NewAsset,
    only_exclusive: bool,
) -> Result<(Kind, &'a RouteRow, RouteStretch), Stop>
    ensures wanted { IfOk result (λ wanted.
        IsWanted inventory.now only_exclusive asked.now wanted.0 wanted.1.now wanted.2) }
    ensures refused { IfErr result (λ why. IsRefused inventory.now only_exclusive asked.now why) }
{
    let is_known = inventory.asset(asked.asset.get()).is_some();
    refuse_if(is_known, Cause::AssetKnown)?;
    match inventory.class(&asked.class) {
        None => Err(Stop::Refused(Cause::NoClass)),
        Some(kind) => match inventory.route(&asked.route) {
            None => Err(Stop::Refused(Cause::NoRoute)),
            Some(route) => wanted_on(inventory, asked, only_exclusive, kind, route),
        },
    }
}

/// What a new asset of a class of this kind is to hold of its route.
fn wanted_on<'a>(
    inventory: &'a Inventory,
    asked: &NewAsset,
    only_exclusive: bool,
    kind: Kind,
    route: &'a RouteRow,
) -> Result<(Kind, &'a RouteRow, RouteStretch), Stop>
    requires begun { HasBegun inventory.now asked.now kind route.now }
    ensures wanted { IfOk result (λ wanted.
        IsWanted inventory.now only_exclusive asked.now wanted.0 wanted.1.now wanted.2) }
    ensures refused { IfErr result (λ why. IsRefused inventory.now only_exclusive asked.now why) }
{
    let is_wrong = is_refused(kind, asked.location, only_exclusive);
    refuse_if(is_wrong, Cause::WrongKind)?;
    let stretch = inventory.stretch(route, asked.location)?;
    refuse_if(stretch.is_empty(), Cause::Empty)?;
    Ok((kind, route, stretch))
}

/// Whether a kind is not taken, or not with this location.
fn is_refused(kind: Kind, location: EventLocation, only_exclusive: bool) -> bool
    ensures { result ≡ (is_wrong_kind kind location.to || is_left_out only_exclusive kind) }
{
    is_wrong_kind(kind, location) || is_left_out(only_exclusive, kind)
}

/// Whether a kind is left out where only exclusive classes are taken.
fn is_left_out(only_exclusive: bool, kind: Kind) -> bool
    ensures { result ≡ is_left_out only_exclusive kind }
{
    match kind {
        Kind::Point | Kind::Stretch => only_exclusive,
        Kind::Exclusive => false,
    }
}

/// Whether a location is not one of an asset of this kind: a point has no end, and any other one has.
pub fn is_wrong_kind(kind: Kind, location: EventLocation) -> bool
    ensures { result ≡ is_wrong_kind kind location.to }
{
    let has_end = location.to().is_some();
    match kind {
        Kind::Point => has_end,
        Kind::Stretch | Kind::Exclusive => !has_end,
    }
}
