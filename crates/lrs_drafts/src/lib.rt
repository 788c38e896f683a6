//! Drafts: edit sheets that are written for somebody who says what is to be. Each is done on a copy first, and is given
//! only where each of its records is done there and what is intended holds.
#![tactic(auto)]

mod assembly;
mod asset_drafts;
mod confirmation;
mod draft;
mod fault;
mod former_desk;
mod fronts;
mod ground;
mod holdings;
mod keys;
mod lost_rows;
mod marks;
mod placement;
mod positions;
mod returns;
mod route_drafts;
mod routes;
mod sheet;
mod undo;
mod undone;
mod undone_edit;
mod words;

pub use draft::Draft;
pub use fault::DraftFault;
pub use sheet::draft_sheet;
pub use words::read_draft;
