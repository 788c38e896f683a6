//! The verbs that split, join, recalibrate and realign routes, a module each: the checks of a command in their order, and
//! then the plan of what it changes.

mod join;
mod realign;
mod realigned_rows;
mod recalibrate;
mod split;

pub use join::plan_join;
pub use realign::plan_realign;
pub use recalibrate::plan_recalibrate;
pub use split::plan_split;
