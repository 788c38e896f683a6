//! Marks on the line between others, and the marks of routes that are put together.

use lrs_element::Mark;
use lrs_measure::gcd;
use std::alloc::{AllocError, Global};

/// The measure at a chainage between two marks, if it is a whole number.
fn measure_between(before: Mark, after: Mark, at: u64) -> Option<u64> {
    let along = u128::from(at.checked_sub(before.chainage)?);
    let length = u128::from(after.chainage.checked_sub(before.chainage)?);
    let rise = u128::from(after.measure.checked_sub(before.measure)?);
    let product = along.checked_mul(rise)?;
    if product.checked_rem(length)? != 0 {
        return None;
    }
    let part = u64::try_from(product.checked_div(length)?).ok()?;
    before.measure.checked_add(part)
}

/// The measure at a chainage of marks, if it is a whole number.
pub(crate) fn measure_at(marks: &[Mark], at: u64) -> Option<u64> {
    let mut before = None;
    for mark in marks {
        if mark.chainage == at {
            return Some(mark.measure);
        }
        if mark.chainage > at {
            return match before {
                Some(before) => measure_between(before, *mark, at),
                None => None,
            };
        }
        before = Some(*mark);
    }
    None
}

/// Marks with this one among them, in the place of another one at its chainage.
///
/// # Errors
/// When memory runs out.
pub(crate) fn with_mark(
    alloc: Global,
    marks: &[Mark],
    more: Mark,
) -> Result<Vec<Mark>, AllocError> {
    let mut list = Vec::new(alloc);
    for mark in marks {
        if mark.chainage < more.chainage {
            list.push(*mark)?;
        }
    }
    list.push(more)?;
    for mark in marks {
        if mark.chainage > more.chainage {
            list.push(*mark)?;
        }
    }
    Ok(list)
}

/// The marks from one of them up to a chainage, both counted from that one.
///
/// # Errors
/// When memory runs out.
pub(crate) fn counted_from(
    alloc: Global,
    marks: &[Mark],
    first: Mark,
    to: u64,
) -> Result<Vec<Mark>, AllocError> {
    let mut list = Vec::new(alloc);
    for mark in marks {
        if first.chainage <= mark.chainage && mark.chainage <= to {
            list.push(Mark {
                chainage: mark.chainage.saturating_sub(first.chainage),
                measure: mark.measure.saturating_sub(first.measure),
            })?;
        }
    }
    Ok(list)
}

/// The first place behind a mark where the measure is whole on the line to the next one, if it is before that.
fn first_whole(start: Mark, next: Mark) -> Option<Mark> {
    let length = next.chainage.checked_sub(start.chainage)?;
    let rise = next.measure.checked_sub(start.measure)?;
    let parts = u64::try_from(gcd(u128::from(length), u128::from(rise))).ok()?;
    if parts < 2 {
        return None;
    }
    Some(Mark {
        chainage: start.chainage.checked_add(length.checked_div(parts)?)?,
        measure: start.measure.checked_add(rise.checked_div(parts)?)?,
    })
}

/// A mark of a second line behind the end of the first, its measure raised.
fn moved(mark: Mark, end: Mark, up: u64) -> Mark {
    Mark {
        chainage: mark.chainage.saturating_add(end.chainage),
        measure: mark.measure.saturating_add(up),
    }
}

/// Adds the marks of a route behind those of another: with their own measures where these begin above the end of the
/// other's, and else going on from there. Of the former it says `true`: a join alone does not make them. There the first
/// whole measure behind the seam has a mark of its own, so that all measures from it on stay.
///
/// # Errors
/// When memory runs out.
pub(crate) fn push_marks(list: &mut Vec<Mark>, second: &[Mark]) -> Result<bool, AllocError> {
    let Some(end) = list.as_slice().last().copied() else {
        return Ok(false);
    };
    let [start, next, ..] = second else {
        return Ok(false);
    };
    let rises = start.measure > end.measure;
    if rises {
        if let Some(mark) = first_whole(*start, *next) {
            list.push(moved(mark, end, 0))?;
        }
    }
    let up = end.measure.saturating_sub(start.measure);
    for (i, mark) in second.iter().enumerate() {
        if i > 0 {
            list.push(moved(*mark, end, up))?;
        }
    }
    Ok(rises)
}
