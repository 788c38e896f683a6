//! Questions over HTTP, asked by the parameters of a query and answered as JSON (RFC 8259), SVG or CSV.
#![tactic(auto)]

mod answers;
mod bounded;
mod class_values;
mod combinations;
mod draft_faults;
mod entries;
mod ledgers;
mod lines;
mod list;
mod list_parameters;
mod list_text;
mod listings;
mod members;
mod overlay;
mod paged_text;
mod pages;
mod parameters;
mod parts;
mod question;
mod replies;
mod reply;
mod row_lists;
mod trial;
mod unknown_parameters;

pub use bounded::BoundedBytes;
pub use draft_faults::{bad_draft, not_drafted};
pub use pages::{KeyField, KeyMember, KeyValue, Page, PageFault, page_of};
pub use question::{Parameter, QueryFault, question_of};
pub use replies::reply_to;
pub use reply::{csv_reply, unasked, unpaged};
pub use trial::{TrialCounts, TrialFault, trial_reply};
pub use unknown_parameters::{unknown_in, unknown_reply};
