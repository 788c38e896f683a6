//! What is at a chainage of a route, or at a millimetre of a link: the ground there, who holds it, and the place by every
//! method.

mod answer;
mod ground;
pub mod laws;
mod place;
mod positions;
mod question;

pub use answer::Whereabouts;
pub use question::whereabouts;
