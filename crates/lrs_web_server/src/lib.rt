//! Serves a desk on a port of this machine.
#![tactic(auto)]

mod arrival;
mod connection;
mod deadlines;
mod departure;
mod hall;
mod journal;
mod journal_outlet;
mod judge;
mod listener;
mod service;

pub use connection::{ReplyWriter, RequestReader};
pub use listener::Listening;
pub use lrs_web::Served;
pub use service::{ServiceFault, ServiceOptions, serve};
