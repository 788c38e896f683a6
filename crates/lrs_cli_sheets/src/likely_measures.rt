//! Chainages that look as if measures were meant, where those measures are, and how they are written.

use crate::places::{Places, chainage_at};
use lrs_machine::Place;
use lrs_position::Route;
use std::fmt;

// Measures that name a stretch so many times as long as chainages of the same numbers are what was meant, most likely.
const FAR_LONGER: u64 = 100;

/// Numbers that were given as chainages, and the chainages at which the measures of the same numbers are.
#[derive(Clone, Copy)]
pub(crate) enum LikelyMeasures {
    One { number: u64, at: u64 },
    Two { numbers: (u64, u64), at: (u64, u64) },
}

/// Says what the numbers are.
impl fmt::Display for LikelyMeasures {
    fn fmt<W: fmt::Write>(&self, f: &mut fmt::Formatter<W>) -> fmt::Result {
        match *self {
            LikelyMeasures::One { number, .. } => {
                write!(f, "{number} is a chainage in millimetres")
            }
            LikelyMeasures::Two { numbers, .. } => {
                let (from, to) = numbers;
                write!(f, "{from} and {to} are chainages in millimetres")
            }
        }
    }
}

/// What to do where chainages alone can be given: at which the measures are.
#[derive(Clone, Copy)]
pub(crate) struct MeasuredChainages {
    pub(crate) likely: LikelyMeasures,
}

impl fmt::Display for MeasuredChainages {
    fn fmt<W: fmt::Write>(&self, f: &mut fmt::Formatter<W>) -> fmt::Result {
        match self.likely {
            LikelyMeasures::One { number, at } => {
                write!(f, "measure {number} is at chainage {at}")
            }
            LikelyMeasures::Two { numbers, at } => {
                let (from, to) = numbers;
                let (first, last) = at;
                write!(f, "measures {from} and {to} ")?;
                write!(f, "are at chainages {first} and {last}")
            }
        }
    }
}

/// What to do where places can be given: how the measures are written.
#[derive(Clone, Copy)]
pub(crate) struct MeasuredPlaces {
    pub(crate) likely: LikelyMeasures,
}

impl fmt::Display for MeasuredPlaces {
    fn fmt<W: fmt::Write>(&self, f: &mut fmt::Formatter<W>) -> fmt::Result {
        match self.likely {
            LikelyMeasures::One { number, .. } => { write!(f, "for a measure write abs:{number}") }
            LikelyMeasures::Two { numbers, .. } => {
                let (from, to) = numbers;
                write!(f, "for measures write abs:{from} and abs:{to}")
            }
        }
    }
}

// The chainages of two measures of a route, where the stretch between them is far longer than the one between chainages of
// the same numbers.
fn far_longer(route: &Route, from: u64, to: u64) -> Option<(u64, u64)> {
    let first = chainage_at(route, from)?;
    let last = chainage_at(route, to)?;
    let given = to.saturating_sub(from).saturating_mul(FAR_LONGER);
    if given < last.saturating_sub(first) {
        Some((first, last))
    } else {
        None
    }
}

// The chainage of one measure, by the stretch to the next whole measure; at the last one, from the one before.
fn one_far_longer(route: &Route, number: u64) -> Option<u64> {
    if let Some((at, _)) = far_longer(route, number, number.saturating_add(1)) {
        return Some(at);
    }
    match far_longer(route, number.saturating_sub(1), number) {
        Some((_, at)) => Some(at),
        None => None,
    }
}

fn one_likely(route: &Route, number: u64) -> Option<LikelyMeasures> {
    match one_far_longer(route, number) {
        Some(at) => Some(LikelyMeasures::One { number, at }),
        None => None,
    }
}

fn two_likely(route: &Route, from: u64, to: u64) -> Option<LikelyMeasures> {
    match far_longer(route, from, to) {
        Some(at) => Some(LikelyMeasures::Two {
            numbers: (from, to),
            at,
        }),
        None => None,
    }
}

/// The measures that were meant most likely where these places of a route were given. A position is meant as it is.
pub(crate) fn likely_measures(route: &Route, places: &Places) -> Option<LikelyMeasures> {
    match places {
        Places::At(Place::Chainage(number))
        | Places::From(Place::Chainage(number))
        | Places::To(Place::Chainage(number))
        | Places::Between(Place::Chainage(number), Place::Position(_))
        | Places::Between(Place::Position(_), Place::Chainage(number)) => {
            one_likely(route, *number)
        }
        Places::Between(Place::Chainage(from), Place::Chainage(to)) => {
            two_likely(route, *from, *to)
        }
        _ => None,
    }
}
