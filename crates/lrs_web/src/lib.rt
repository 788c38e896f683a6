//! Requests over HTTP, done at a desk: bytes in, bytes out, over any reader and writer, and connections of any door.
#![tactic(auto)]

mod door;
mod draft;
mod draft_form;
mod questions;
mod recipient;
mod request;
mod sheet;
mod trial;

pub use door::{Door, DoorFault, Served, serve_all};
pub use lrs_sheet::{Desk, Keeper};
pub use recipient::Client;
pub use request::{WebFault, serve_one};
