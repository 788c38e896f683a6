//! The table of edits.

ghost use Rattle.std.specs.Prelude.{◌≡◌, not, map, length, IfOk, IsPermutation};
ghost use Rattle.std.specs.Ordering.{nat_cmp};
ghost use Rattle.std.specs.List.{list_all};
ghost use Rattle.std.specs.List.Sorted.{IsSorted};
ghost use Rattle.lrs_measure.specs.Lists.{each_two, is_from_to};
ghost use Rattle.lrs_measure.specs.Texts.{same_name, name_cmp};
ghost use Rattle.lrs_machine.specs.Sound.{is_named_by, parts_of, are_edits};

use lrs_events::{Gone, Part};
use lrs_machine::{Edit, Key};
use lrs_measure::limits::MOST_EDITS;
use std::alloc::{AllocError, Global};

fn is_named(count: u64, part: &Part) -> bool
    ensures { result ≡ is_from_to 1 count part.now.edit }
{
    1 <= part.edit && part.edit <= count
}

/// Whether there is each edit that entered parts name.
fn name_entered(count: u64, entered: &[Part]) -> bool
    ensures { result ≡ list_all (λ p. is_from_to 1 count p.edit) entered.now }
{
    entered.iter().all(|part| is_named(count, part))
}

/// Whether there is each edit that parts that are gone name.
fn name_gone(count: u64, gone: &[Gone]) -> bool
    ensures { result ≡ list_all (λ g. is_from_to 1 count g.part.edit) gone.now }
{
    gone.iter().all(|row| is_named(count, &row.part))
}

fn keys_of(alloc: Global, edits: &[Edit]) -> Result<Vec<Key>, AllocError>
    ensures { IfOk result (λ keys. keys.items ≡ map (λ e. e.key) edits.now) }
{
    let mut keys = Vec::with_capacity(alloc, edits.len())?;
    for edit in edits {
        keys.push(edit.key)?;
    }
    Ok(keys)
}

/// Whether no two keys are the same. A sort brings two that are side by side.
fn differ(mut keys: Vec<Key>) -> bool
    ensures { result ≡ each_two (λ k l. not (same_name k l)) keys.items }
{
    keys.sort_unstable();
    keys.is_sorted_by(|k, l| k.bytes().cmp(l.bytes()).is_lt())
}

/// Whether each key is that of one edit, the ledgers name edits that are there, and there are not too
/// many.
///
/// # Errors
/// When memory runs out.
pub fn are_edits(
    alloc: Global,
    entered: &[Part],
    gone: &[Gone],
    edits: &[Edit],
) -> Result<bool, AllocError>
    ensures { IfOk result (λ sound. sound ≡ are_edits entered.now gone.now edits.now) }
{
    let count = edits.len() as u64;
    if edits.len() > MOST_EDITS || !name_entered(count, entered) {
        return Ok(false);
    }
    if !name_gone(count, gone) {
        return Ok(false);
    }
    let keys = keys_of(alloc, edits)?;
    Ok(differ(keys))
}
