//! The verbs, a file each: what a command would change, or the first check of its verb that fails.

mod class;
mod close;
mod enter;
mod link;
mod location;
mod new_referent;
mod referents;
mod renumber;
mod retire;
mod route;
mod supersede;
mod turn;
mod unref;

pub use class::plan_class;
pub use close::plan_close;
pub use enter::plan_enter;
pub use link::plan_link;
pub use new_referent::plan_ref;
pub use renumber::plan_renumber;
pub use retire::plan_retire;
pub use route::plan_route;
pub use supersede::plan_supersede;
pub use turn::plan_turn;
pub use unref::plan_unref;
