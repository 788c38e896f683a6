//! The limits of this project's profile of ISO 19148: of links, routes and measures, of what a command can state, and of how
//! much an inventory may hold. `specs/Limits` has the same numbers for contracts.

/// The greatest number of a link.
pub const GREATEST_LINK: u32 = 999_999;

/// The longest link, in millimetres.
pub const LONGEST_LINK: u32 = 1_000_000_000;

/// The longest route, in millimetres.
pub const LONGEST_ROUTE: u64 = 10_000_000_000;

/// The most pieces of a route, counted in the fewest pieces that say its course.
pub const MOST_PIECES: usize = 1_000;

/// The most marks of a route.
pub const MOST_MARKS: usize = 1_000;

/// The greatest measure.
pub const GREATEST_MEASURE: u64 = 100_000_000_000;

/// The greatest distance from a referent, in millimetres.
pub const GREATEST_DISTANCE: u64 = 10_000_000_000;

/// The greatest denominator of a proportion that a command can state.
pub const GREATEST_DENOMINATOR: u64 = 1_000_000;

/// The greatest denominator of a measure or a distance that a position expression can have.
pub const FINEST: u128 = 10_000_000_000_000_000;

/// The greatest denominator of a proportion that a position expression can have.
pub const FINEST_PROPORTION: u128 = 1_000_000_000_000_000_000_000;

/// The greatest lateral offset of an asset, in millimetres.
pub const GREATEST_LATERAL: u32 = 100_000;

/// The greatest number of an asset.
pub const GREATEST_ASSET: u64 = 1_000_000_000_000;

/// The most routes at one time.
pub const MOST_ROUTES: usize = 10_000;

/// The most assets ever.
pub const MOST_ASSETS: usize = 1_000_000;

/// The most edits ever.
pub const MOST_EDITS: usize = 10_000_000;

/// The most places of one asset in each ledger.
pub const MOST_PAIRS: u64 = 20_000_000_000;
