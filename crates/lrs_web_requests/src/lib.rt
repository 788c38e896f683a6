//! The lower half of HTTP: what a request asks for, and how a reply is written (RFC 9110, RFC 9112).
//!
//! Nothing here knows of an inventory. Heads are read by `httparse`, paths by `matchit`, queries by `form_urlencoded`.
#![tactic(auto)]

mod body;
mod framing;
mod head;
pub mod laws;
mod paths;
mod query;
mod request;
mod response;
mod sites;

pub use body::BodyFault;
pub use paths::{DraftKind, Format, Resource, routes};
pub use query::{switched, unknown_name, value_of, values_of};
pub use request::{Course, Request, receive};
pub use response::{Content, ContentType, RequestMethod, Response, write_reply, write_unavailable};
