//! Rows in the order of their keys, by neighbours.

ghost use Rattle.std.specs.Prelude.{◌≡◌};
ghost use Rattle.lrs_measure.specs.Lists.{each_two};
ghost use Rattle.lrs_machine.specs.Sound;
ghost use Rattle.lrs_events.specs.Parts.{part_key, part_before, side_number};
ghost use Rattle.lrs_machine.specs.Sound.{are_links, are_classes, asset_before, gone_key, gone_before};
ghost use Rattle.lrs_image_sound.specs.Tables.{route_before};

use lrs_element::Link;
use lrs_events::{Asset, Class, Gone, LinkSide, Part};
use lrs_machine::RouteRow;

/// Whether links are in the order of their numbers.
pub fn are_links(links: &[Link]) -> bool
    ensures { result ≡ are_links links.now }
{
    links.is_sorted_by(|a, b| a.number < b.number)
}

/// Whether classes are in the order of their names.
pub fn are_classes(classes: &[Class]) -> bool
    ensures { result ≡ are_classes classes.now }
{
    classes.is_sorted_by(|a, b| a.name.bytes().cmp(b.name.bytes()).is_lt())
}

/// Whether assets are in the order of their numbers.
pub(crate) fn assets_rise(assets: &[Asset]) -> bool
    ensures { result ≡ each_two asset_before assets.now }
{
    assets.is_sorted_by(|a, b| a.number < b.number)
}

/// Whether routes are in the order of their names.
pub(crate) fn routes_rise(routes: &[RouteRow]) -> bool
    ensures { result ≡ each_two route_before routes.now }
{
    routes.is_sorted_by(|a, b| a.route.name.bytes().cmp(b.route.name.bytes()).is_lt())
}

fn side_number(side: LinkSide) -> u64
    ensures { result ≡ side_number side }
{
    match side {
        LinkSide::Left => 0,
        LinkSide::Right => 1,
    }
}

/// What a row of the ledger of what was entered is sorted by: edit, asset, link, start and side.
pub fn part_key(part: &Part) -> [u64; 5]
    ensures { result ≡ part_key part.now }
{
    [
        part.edit,
        part.asset,
        u64::from(part.link),
        u64::from(part.from),
        side_number(part.side),
    ]
}

/// What a row of the ledger of what is gone is sorted by: edit, reason, asset, link, start and side.
pub fn gone_key(gone: &Gone) -> [u64; 6]
    ensures { result ≡ gone_key gone.now }
{
    [
        gone.part.edit,
        u64::from(gone.abandoned),
        gone.part.asset,
        u64::from(gone.part.link),
        u64::from(gone.part.from),
        side_number(gone.part.side),
    ]
}

fn part_before(x: &Part, y: &Part) -> bool
    ensures { result ≡ part_before x.now y.now }
{
    part_key(x).cmp(&part_key(y)).is_lt()
}

fn gone_before(x: &Gone, y: &Gone) -> bool
    ensures { result ≡ gone_before x.now y.now }
{
    gone_key(x).cmp(&gone_key(y)).is_lt()
}

/// Whether entered parts are in their order.
pub(crate) fn entered_rise(entered: &[Part]) -> bool
    ensures { result ≡ each_two part_before entered.now }
{
    entered.is_sorted_by(|x, y| part_before(x, y))
}

/// Whether parts that are gone are in their order.
pub(crate) fn gone_rise(gone: &[Gone]) -> bool
    ensures { result ≡ each_two gone_before gone.now }
{
    gone.is_sorted_by(|x, y| gone_before(x, y))
}
