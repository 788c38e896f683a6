//! Totals of a class.

use lrs_events::ClassName;

/// What was entered, retired and abandoned of a class, and what of it is present, in side millimetres: a
/// stretch on both sides counts once on each, and a point counts 1 for each side.
#[derive(Clone, Copy, PartialEq, Eq)]
pub struct Total {
    pub class: ClassName,
    pub entered: u64,
    pub retired: u64,
    pub abandoned: u64,
    pub present: u64,
}
