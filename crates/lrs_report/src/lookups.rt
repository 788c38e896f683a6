//! Classes and assets, found by search, and why segments are refused.

ghost use Rattle.std.specs.Prelude.{◌≡◌, true, not, position};
ghost use Rattle.lrs_measure.specs.Lists.{each_two};
ghost use Rattle.lrs_machine.specs.Sound.{asset_before, class_before};
ghost use Rattle.lrs_machine.specs.Segments.{is_class, is_exclusive, is_exclusive_class, segment_fault};
ghost use Rattle.lrs_report.specs.SideValues.{asset_value};

use crate::known_rows::KnownRows;
use lrs_events::{Asset, Class, ClassName, Kind, Side, Value};
use lrs_machine::SegFault;

fn is_exclusive(kind: Kind) -> bool
    ensures { result ≡ is_exclusive kind }
{
    match kind {
        Kind::Point | Kind::Stretch => false,
        Kind::Exclusive => true,
    }
}

/// Whether there is a class of this name.
fn is_class<C: KnownRows<Class, ClassName>>(classes: &C, name: &ClassName) -> bool
    requires { each_two class_before (C.rows classes.now) ≡ true }
    ensures { result ≡ is_class (C.rows classes.now) name.now }
{
    match classes.row(name) {
        Some(_) => true,
        None => false,
    }
}

/// Whether there is an exclusive class of this name.
fn is_exclusive_class<C: KnownRows<Class, ClassName>>(classes: &C, name: &ClassName) -> bool
    requires { each_two class_before (C.rows classes.now) ≡ true }
    ensures { result ≡ is_exclusive_class (C.rows classes.now) name.now }
{
    match classes.row(name) {
        Some(class) => is_exclusive(class.kind),
        None => false,
    }
}

/// The first class asked for that is not there.
fn first_unknown<C: KnownRows<Class, ClassName>>(classes: &C, wanted: &[ClassName]) -> Option<usize>
    requires { each_two class_before (C.rows classes.now) ≡ true }
    ensures { result ≡ position (λ name. not (is_class (C.rows classes.now) name)) wanted.now }
{
    wanted.iter().position(|name| !is_class(classes, name))
}

/// The first class asked for that is not exclusive.
fn first_shared<C: KnownRows<Class, ClassName>>(classes: &C, wanted: &[ClassName]) -> Option<usize>
    requires { each_two class_before (C.rows classes.now) ≡ true }
    ensures { result ≡ position (λ name.
        not (is_exclusive_class (C.rows classes.now) name)) wanted.now }
{
    wanted
        .iter()
        .position(|name| !is_exclusive_class(classes, name))
}

/// Why the segments of these classes on this side are refused.
pub(crate) fn fault_of<C: KnownRows<Class, ClassName>>(
    classes: &C,
    wanted: &[ClassName],
    side: Side,
) -> Option<SegFault>
    requires { each_two class_before (C.rows classes.now) ≡ true }
    ensures { result ≡ segment_fault (C.rows classes.now) wanted.now side }
{
    if let Some(i) = first_unknown(classes, wanted) {
        return Some(SegFault::NoClass(i as u64));
    }
    if let Some(i) = first_shared(classes, wanted) {
        return Some(SegFault::NotExclusive(i as u64));
    }
    match side {
        Side::L | Side::R => None,
        Side::B => Some(SegFault::SideB),
    }
}

/// The value of the asset of a number.
pub(crate) fn asset_value<A: KnownRows<Asset, u64>>(assets: &A, number: u64) -> Option<Value>
    requires { each_two asset_before (A.rows assets.now) ≡ true }
    ensures { result ≡ asset_value (A.rows assets.now) number }
{
    match assets.row(&number) {
        Some(asset) => Some(asset.value),
        None => None,
    }
}
