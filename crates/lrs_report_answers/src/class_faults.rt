//! Why segments of classes are refused on whatever route.

ghost use Rattle.std.specs.Prelude.{◌≡◌, true, not, position};
ghost use Rattle.lrs_measure.specs.Lists.{each_two};
ghost use Rattle.lrs_events.specs.declared.side.Side.TheVariants.{L};
ghost use Rattle.lrs_machine.specs.Image.{state_of};
ghost use Rattle.lrs_machine.specs.Segments.{is_class, is_exclusive, is_exclusive_class, segment_fault};
ghost use Rattle.lrs_machine.specs.Sound.{class_before};
ghost use Rattle.lrs_report_answers.specs.RouteSegments.{class_list};

use lrs_events::{Class, ClassName, Kind};
use lrs_inventory::Inventory;
use lrs_machine::SegFault;
use lrs_ordered::Chunked;

fn is_exclusive(kind: Kind) -> bool
    ensures { result ≡ is_exclusive kind }
{
    match kind {
        Kind::Point | Kind::Stretch => false,
        Kind::Exclusive => true,
    }
}

/// Whether there is a class of this name.
fn is_class(classes: &Chunked<Class>, name: &ClassName) -> bool
    requires { each_two class_before classes.now.rows ≡ true }
    ensures { result ≡ is_class classes.now.rows name.now }
{
    match classes.find(name) {
        Some(_) => true,
        None => false,
    }
}

/// Whether there is an exclusive class of this name.
fn is_exclusive_class(classes: &Chunked<Class>, name: &ClassName) -> bool
    requires { each_two class_before classes.now.rows ≡ true }
    ensures { result ≡ is_exclusive_class classes.now.rows name.now }
{
    match classes.find(name) {
        Some(class) => is_exclusive(class.kind),
        None => false,
    }
}

/// The first class asked for that is not there.
fn first_unknown(classes: &Chunked<Class>, wanted: &[ClassName]) -> Option<usize>
    requires { each_two class_before classes.now.rows ≡ true }
    ensures { result ≡ position (λ name. not (is_class classes.now.rows name)) wanted.now }
{
    wanted.iter().position(|name| !is_class(classes, name))
}

/// The first class asked for that is not exclusive.
fn first_shared(classes: &Chunked<Class>, wanted: &[ClassName]) -> Option<usize>
    requires { each_two class_before classes.now.rows ≡ true }
    ensures { result ≡ position (λ name. not (is_exclusive_class classes.now.rows name))
        wanted.now }
{
    wanted
        .iter()
        .position(|name| !is_exclusive_class(classes, name))
}

fn fault_of(classes: &Chunked<Class>, wanted: &[ClassName]) -> Option<SegFault>
    requires { each_two class_before classes.now.rows ≡ true }
    ensures { result ≡ segment_fault classes.now.rows wanted.now L }
{
    if let Some(i) = first_unknown(classes, wanted) {
        return Some(SegFault::NoClass(i as u64));
    }
    if let Some(i) = first_shared(classes, wanted) {
        return Some(SegFault::NotExclusive(i as u64));
    }
    None
}

/// Why the segments of these classes are refused on one side of whatever route.
pub(crate) fn class_fault(inventory: &Inventory, wanted: &[ClassName]) -> Option<SegFault>
    ensures { result ≡ segment_fault (class_list (state_of inventory.now)) wanted.now L }
{
    fault_of(&inventory.kept().classes, wanted)
}
