//! Worked examples of the ground machine, which its own definitions compute.
//!
//! Each theorem of `specs/` states what the definitions give for a small road: three links of 10, 6 and 4
//! millimetres, and a route over the first two. A definition that is changed breaks some of them. The
//! functions here have no bodies of their own; each stands for one of the examples.
#![tactic(auto)]

pub mod assets;
#[cfg(test)]
mod calls;
#[cfg(test)]
mod fractions;
pub mod images;
#[cfg(test)]
mod memory;
pub mod records;
pub mod refusals;
pub mod retirements;
pub mod routes;
pub mod stored_rows;
