//! Questions: what can be asked of an inventory.

use crate::key::Key;
use lrs_events::{ClassName, LinkSide, Side};
use lrs_measure::Rows;
use lrs_position::{Expr, RouteName, Target};

/// How a position is to be told.
#[derive(Clone, Copy, PartialEq, Eq)]
pub enum Destination {
    /// By a method, on its route.
    Method(Target),
    /// On the link under it.
    Link,
}

/// A place of a route.
#[derive(Clone, Copy, PartialEq, Eq)]
pub enum Place {
    /// A chainage of the route, in millimetres.
    Chainage(u64),
    /// Where a position expression stands on the route.
    Position(Expr),
}

/// A place that is asked for.
#[derive(Clone, Copy, PartialEq, Eq)]
pub enum AskedPlace {
    /// A place of the route of a name, a chainage from 0 to the route's length; a position stands in its millimetre.
    OnRoute { route: RouteName, place: Place },
    /// A millimetre of the link of a number, from 0 to the link's length; at the link's end the last one is meant.
    OnLink { link: u32, mm: u64 },
}

/// How rows are told.
#[derive(Clone, Copy, PartialEq, Eq)]
pub enum RowForm {
    /// On their routes, with measures as decimals of three places.
    Decimal,
    /// On their routes, with measures as they are, as whole numbers or fractions.
    Exact,
    /// On the links under them.
    OnLinks,
}

/// What is asked of rows: to lie on a route, between two places of it, to be of a class, and of an asset. What is not asked
/// leaves out nothing.
#[derive(Clone, Copy, PartialEq, Eq)]
pub struct RowsAsked {
    pub route: Option<RouteName>,
    pub from: Option<Place>,
    pub to: Option<Place>,
    pub class: Option<ClassName>,
    pub asset: Option<u64>,
    pub form: RowForm,
}

/// The same where the places are found: a row has a millimetre at or behind chainage `from` and before chainage `to`.
#[derive(Clone, Copy, PartialEq, Eq)]
pub struct RowsWanted {
    pub route: Option<RouteName>,
    pub from: Option<u64>,
    pub to: Option<u64>,
    pub class: Option<ClassName>,
    pub asset: Option<u64>,
    pub form: RowForm,
}

/// What is asked of the values of exclusive classes side by side: on a route, on a side, between two places of the route, and
/// only where a class has no value. What is not asked leaves out nothing.
#[derive(Drop)]
pub struct OverlayAsked {
    pub classes: Rows<ClassName>,
    pub route: Option<RouteName>,
    pub side: Option<LinkSide>,
    pub from: Option<Place>,
    pub to: Option<Place>,
    pub gaps: bool,
}

/// The same where the places are found: a segment has a millimetre at or behind chainage `from` and before chainage `to`.
#[derive(Drop)]
pub struct OverlayWanted {
    pub classes: Rows<ClassName>,
    pub route: Option<RouteName>,
    pub side: Option<LinkSide>,
    pub from: Option<u64>,
    pub to: Option<u64>,
    pub gaps: bool,
}

/// What is asked of parts that were retired or abandoned: to be taken away by an edit, by edits from a number on, by edits up
/// to a number, and to be of a class. What is not asked leaves out nothing.
#[derive(Clone, Copy, PartialEq, Eq)]
pub struct GoneWanted {
    pub edit: Option<u64>,
    pub since: Option<u64>,
    pub until: Option<u64>,
    pub class: Option<ClassName>,
}

/// What is listed, entry by entry, in the order in which the inventory keeps it.
#[derive(Clone, Copy, PartialEq, Eq)]
pub enum Listing {
    /// The routes, and how long each is.
    Routes,
    Links,
    Classes,
    /// The referents of every route, or of one; measures are exact, or decimals of three places.
    Refs {
        route: Option<RouteName>,
        exact: bool,
    },
    /// The marks of every route, or of one.
    Marks(Option<RouteName>),
    /// The pieces of links of which every route is made, or one.
    Pieces(Option<RouteName>),
    /// What was retired or abandoned.
    Gone(GoneWanted),
    /// What was entered, retired and abandoned of the asset of a number.
    History(u64),
    /// The accepted commands from this number on, or up to another, as an edit sheet.
    Log {
        from: u64,
        until: Option<u64>,
    },
    /// The accepted command of this key, as an edit sheet.
    LogOfKey(Key),
}

/// What is asked of an inventory: one variant for each kind of question.
#[derive(Drop)]
pub enum Question {
    /// The millimetre of a route in which a position stands, and the assets that hold it.
    At {
        route: RouteName,
        position: Expr,
    },
    /// A route: its course, marks and referents.
    Route {
        route: RouteName,
    },
    /// The segments of a side of a route by these exclusive classes.
    Segments {
        route: RouteName,
        side: Side,
        classes: Rows<ClassName>,
    },
    /// A position of a route by another method, or on its link.
    Translate {
        route: RouteName,
        position: Expr,
        to: Destination,
    },
    /// What is drawn of a route as a straight-line diagram: the assets of these classes, or of all where none is named,
    /// from a place to another, or from the route's start, or to its end.
    Diagram {
        route: RouteName,
        classes: Rows<ClassName>,
        from: Option<Place>,
        to: Option<Place>,
    },
    /// What there is of each class.
    Totals,
    /// The stretches that an asset holds.
    Find {
        asset: u64,
    },
    /// What is at a place, and its position by each method.
    Where(AskedPlace),
    /// How long each value of each class is, on a route where it is given.
    Lengths(Option<RouteName>),
    /// How long each combination of the values of these exclusive classes is, on a route where it is given.
    Combinations {
        route: Option<RouteName>,
        classes: Rows<ClassName>,
    },
    /// The stretches that assets hold.
    Rows(RowsAsked),
    /// The segments of routes by exclusive classes, with their values side by side.
    Overlay(OverlayAsked),
    /// A list of the inventory.
    List(Listing),
    /// How many edits were accepted.
    Health,
}
