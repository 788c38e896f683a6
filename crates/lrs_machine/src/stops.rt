//! Runs that stop: no acknowledged command is lost, and none is doubled.
//!
//! A run is a list of steps over what is stored: openings, commands with their answers, and stops
//! (`specs/Stopped`). What holds of all such runs is in `laws`; `examples` has small runs worked out.

pub mod examples;
mod fault;
pub mod laws;

pub use fault::Fault;
