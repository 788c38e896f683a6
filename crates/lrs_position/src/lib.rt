//! Routes, referents and position expressions (ISO 19148, linear referencing).
//!
//! Which chainage a position expression locates, by the absolute, the relative and the interpolative
//! method.
#![tactic(auto)]

mod expression;
mod ground_index;
mod link_position;
mod location;
mod name;
mod route;
mod texts;
mod translation;

pub use expression::{EnteredPosition, EventLocation, Expr, Method, Target};
pub use ground_index::GroundIndex;
pub use link_position::{link_to_route, route_to_link};
pub use location::{PlaceFault, cell, locate, snap};
pub use name::{RefName, RouteName};
pub use route::{Referent, Route};
pub use texts::{read_expr, read_method, read_target};
pub use translation::{express, translate};
