//! What a sheet is drafted for.

use lrs_events::Value;
use lrs_machine::{AssetNumber, PieceList, Place};
use lrs_position::RouteName;

/// What a sheet is drafted for.
#[derive(Drop)]
pub enum Draft {
    /// The route ends at the place, and what lies behind is the route `new`. A mark is added there where there is none.
    Split {
        route: RouteName,
        place: Place,
        new: RouteName,
    },
    /// From the one place to the other the route runs over these pieces. The old road becomes the route `old`, with all
    /// that lies on it.
    Bypass {
        route: RouteName,
        from: Place,
        to: Place,
        pieces: PieceList,
        old: RouteName,
    },
    /// The asset gives up all that it holds.
    Retire {
        asset: AssetNumber,
    },
    /// Asset `number` is entered with this value where the asset lies, which gives up all that it holds.
    Replace {
        asset: AssetNumber,
        number: AssetNumber,
        value: Value,
    },
    /// Asset `number` is entered as the asset is, at a place of a route or from it to another, and the asset gives up all
    /// that it holds.
    Move {
        asset: AssetNumber,
        number: AssetNumber,
        route: RouteName,
        from: Place,
        to: Option<Place>,
    },
    /// The routes are joined in this order, under the name of the first.
    Merge {
        routes: Vec<RouteName>,
    },
    /// The edit of the number `from` and all behind it are undone, or the last edit alone. Assets that they took away are
    /// entered anew, with numbers from `number` on.
    Undo {
        from: Option<u64>,
        number: Option<AssetNumber>,
    },
}
