//! Commands: what a record of a sheet asks for. A command is always well formed, by the types of its
//! parts.

use crate::operands::{AssetNumber, Chainage, LateralOffset, MarkList, PieceList};
use lrs_element::Link;
use lrs_events::{Class, ClassName, Side, Value};
use lrs_position::{EnteredPosition, EventLocation, RefName, RouteName};

/// An asset that is entered: its class, where it lies on a route and on which side, its value and its
/// lateral offset.
#[derive(Clone, Copy, PartialEq, Eq)]
pub struct NewAsset {
    pub asset: AssetNumber,
    pub class: ClassName,
    pub route: RouteName,
    pub side: Side,
    pub location: EventLocation,
    pub value: Value,
    pub offset: LateralOffset,
}

/// One variant for each verb.
#[derive(Drop)]
pub enum Command {
    /// A new link.
    Link(Link),
    /// A new class.
    Class(Class),
    /// A new route over free ground.
    Route {
        name: RouteName,
        pieces: PieceList,
        marks: MarkList,
    },
    /// A referent in the millimetre of a position.
    Ref {
        name: RefName,
        route: RouteName,
        at: EnteredPosition,
    },
    /// A referent goes.
    Unref {
        name: RefName,
    },
    /// An asset comes to hold places.
    Enter(NewAsset),
    /// An asset's places there go, on both sides.
    Retire {
        asset: AssetNumber,
        route: RouteName,
        location: EventLocation,
    },
    /// The part of a route from a mark on becomes a route of its own.
    Split {
        route: RouteName,
        at: Chainage,
        name: RouteName,
    },
    /// The second route is appended to the first, and its name goes.
    Join {
        first: RouteName,
        second: RouteName,
    },
    /// A route gets another name.
    Renumber {
        route: RouteName,
        name: RouteName,
    },
    /// A route gets other marks.
    Recalibrate {
        route: RouteName,
        marks: MarkList,
    },
    /// Pieces replace the route from one chainage to another; the marks are for the whole new route.
    Realign {
        route: RouteName,
        from: Chainage,
        to: Chainage,
        pieces: Option<PieceList>,
        marks: MarkList,
    },
    /// A route goes.
    Close {
        route: RouteName,
    },
    /// As `Enter`, in the place of what the class has there.
    Supersede(NewAsset),
    /// A route runs the other way.
    Turn {
        route: RouteName,
    },
}
