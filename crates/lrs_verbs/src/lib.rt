//! The verbs, a module each: the checks of a command in their order, and then the plan of what it changes.
#![tactic(auto)]

pub mod laws;
mod routes;
mod verbs;

pub use routes::{plan_join, plan_realign, plan_recalibrate, plan_split};
pub use verbs::{
    plan_class, plan_close, plan_enter, plan_link, plan_ref, plan_renumber, plan_retire,
    plan_route, plan_supersede, plan_turn, plan_unref,
};
