//! Entries of the same values added up, from entries in their order.

ghost use Rattle.std.specs.Prelude.{◌≡◌, ◌<◌, ◌^◌, true, length, slice_index_or, sum_by, IfOk};
ghost use Rattle.std.specs.List.{prefix_len};
ghost use Rattle.lrs_measure.specs.Lists.{each_two};
ghost use Rattle.lrs_report_answers.specs.CombinationParts.{Fit, IsGroup, IsTable, has_values, not_behind, part_of};
ghost use Rattle.lrs_report_answers.specs.declared.combinations.table.Part.TheVariants as part;

use crate::combinations::Combination;
use crate::combinations::order::has_values_of;
use lrs_measure::Rows;
use std::alloc::{AllocError, Global};

/// What is added up: the left side, the right side, or either.
#[derive(Clone, Copy)]
pub(crate) enum Part {
    Left,
    Right,
    Either,
}

fn part_of(part: Part, entry: &Combination) -> u64
    ensures { result ≡ part_of part entry.now }
{
    match part {
        Part::Left => entry.left,
        Part::Right => entry.right,
        Part::Either => entry.length,
    }
}

/// The millimetres of entries together. The sum stays at the greatest number where it would pass it.
fn total(entries: &[Combination], part: Part) -> u64
    ensures { sum_by (part_of part) entries.now < 2 ^ 64
        → result ≡ sum_by (part_of part) entries.now }
{
    let mut total = 0u64;
    for entry in entries {
        total = total.saturating_add(part_of(part, entry));
    }
    total
}

/// How many of the first entries have the values of another.
fn count_alike(entries: &[Combination], first: &Combination) -> usize
    ensures { result ≡ prefix_len (has_values first.now.values) entries.now }
{
    for (i, entry) in entries.iter().enumerate() {
        if !has_values_of(entry, first) {
            return i;
        }
    }
    entries.len()
}

/// How many of the first entries have the values of the first one.
fn group_len(entries: &[Combination], first: &Combination) -> usize
    requires some { 0 < length entries.now }
    requires first { first.now ≡ slice_index_or entries.now 0 first.now }
    requires order { each_two not_behind entries.now ≡ true }
    ensures { IsGroup first.now entries.now result }
{
    count_alike(entries, first)
}

/// Entries of the same values, which the first one has, as one.
fn sum_of(
    alloc: Global,
    first: &Combination,
    group: &[Combination],
) -> Result<Combination, AllocError>
    ensures values { IfOk result (λ sum. sum.values ≡ first.now.values) }
    ensures left { IfOk result (λ sum. sum_by (part_of part.Left) group.now < 2 ^ 64
        → sum.left ≡ sum_by (part_of part.Left) group.now) }
    ensures right { IfOk result (λ sum. sum_by (part_of part.Right) group.now < 2 ^ 64
        → sum.right ≡ sum_by (part_of part.Right) group.now) }
    ensures either { IfOk result (λ sum. sum_by (part_of part.Either) group.now < 2 ^ 64
        → sum.length ≡ sum_by (part_of part.Either) group.now) }
{
    Ok(Combination {
        values: first.values.copy(alloc)?,
        left: total(group, Part::Left),
        right: total(group, Part::Right),
        length: total(group, Part::Either),
    })
}

/// One combination for all entries of the same values, in the order of the values.
pub(crate) fn table_of(
    alloc: Global,
    entries: &[Combination],
) -> Result<Rows<Combination>, AllocError>
    requires order { each_two not_behind entries.now ≡ true }
    ensures { IfOk result (λ rows. Fit entries.now → IsTable entries.now rows) }
{
    let mut rows = Vec::new(alloc);
    let mut rest = entries;
    while !rest.is_empty() {
        let first = &rest[0];
        let count = group_len(rest, first);
        let (group, others) = rest.split_at(count);
        let sum = sum_of(alloc, first, group)?;
        rows.push(sum)?;
        rest = others;
    }
    Ok(Rows::from_vec(rows))
}
