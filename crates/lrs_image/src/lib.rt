//! The image as it is kept: its lists in chunks, the changes that commands make of it, and keepers.
#![tactic(auto)]

mod batches;
mod change;
mod commit;
mod holder;
mod image_lists;
mod keeper;
mod lists;
mod open_route;
mod routes;
mod row_counts;
mod staged;

pub use batches::Batches;
pub use change::{Change, Difference, ReferentChange, RouteChange, RouteKeys};
pub use commit::{make_change, stage_change};
pub use holder::Holder;
pub use image_lists::ImageLists;
pub use keeper::{CommitFault, Keeper, LoadFault};
pub use open_route::OpenRoute;
pub use staged::Staged;
