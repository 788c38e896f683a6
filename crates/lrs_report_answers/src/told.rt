//! What is told to a question: its answer, with the words of the question that its text repeats.

use crate::{AtAnswer, Combination, FoundRow, RouteSegments, Whereabouts};
use lrs_events::{ClassName, Side};
use lrs_inventory::Inventory;
use lrs_machine::{Listing, OverlayWanted, RowsWanted, Total};
use lrs_measure::{Frac, Rows};
use lrs_position::{Expr, Route, RouteName};
use lrs_report::Diagram;
use lrs_report_lists::ValueLength;

/// What is told to a question: one variant for each kind of answer.
#[derive(Drop)]
pub enum Told<'a> {
    /// Where a position of a route stands, and the assets that hold the place.
    At {
        route: RouteName,
        found: AtAnswer,
    },
    /// A route.
    Route(Route),
    /// The segments of a side of a route by these classes, which are made where they are taken; the length of the route is
    /// in millimetres.
    Segments {
        route: RouteName,
        side: Side,
        length: u64,
        classes: Rows<ClassName>,
        segments: RouteSegments<'a>,
    },
    /// A position of a route, by another method.
    Translated {
        route: RouteName,
        position: Expr,
    },
    /// A position of a route on a link: the distance from the link's start, in millimetres.
    OnLink {
        route: RouteName,
        link: u32,
        distance: Frac,
    },
    /// A straight-line diagram of a route.
    Diagram(Diagram),
    /// What there is of each class.
    Totals(Rows<Total>),
    /// The stretches that an asset holds.
    Found(Rows<FoundRow>),
    /// What is at a place.
    Where(Whereabouts),
    /// How long each value of each class is.
    Lengths(Rows<ValueLength>),
    /// How long each combination of the values of these classes is.
    Combinations {
        classes: Rows<ClassName>,
        combinations: Rows<Combination>,
    },
    /// The rows of this inventory that are wanted, which has all that they name. Each row is made where it is written.
    Rows {
        wanted: RowsWanted,
        inventory: &'a Inventory,
    },
    /// The segments of this inventory that are wanted, with the values of exclusive classes side by side. It has the route that
    /// they name, and the classes. Each segment is made where it is written.
    Overlay {
        wanted: OverlayWanted,
        inventory: &'a Inventory,
    },
    /// What is listed of this inventory, which has all that the listing names. Each entry is made where it is written.
    Listing {
        listing: Listing,
        inventory: &'a Inventory,
    },
    /// How many edits were accepted.
    Health(u64),
}
