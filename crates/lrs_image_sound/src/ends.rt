//! Whether parts have each pair of asset and place as often as others: by their ends alone.

ghost use Rattle.std.specs.Prelude.{◌≡◌, ◌↔◌, ℕ, ◌+◌, ◌<◌, ◌++◌, map, filter, length, slice_index_or, IsTrue, IfOk, IsPermutation};
ghost use Rattle.std.specs.List.{AllByRecursion};
ghost use Rattle.lrs_image_sound.specs.SweptParts.{IsFilled};
ghost use Rattle.lrs_image_sound.specs.Pairs.{is_in, AreHadAlike, AreHadAlikeIn};
ghost use Rattle.lrs_image_sound.specs.Ends.{start_of, end_of, IsRising};

use lrs_events::{LinkSide, Part};
use std::alloc::{AllocError, Global};

/// How many chunks the assets are taken in, by the rests of their numbers.
const CHUNKS: u64 = 8;

/// Where a part begins or ends, on its line.
#[derive(Clone, Copy, PartialEq, Eq)]
pub struct End {
    pub asset: u64,
    pub link: u32,
    pub right: bool,
    pub mm: u32,
}

fn start_of(part: &Part) -> End
    ensures { result ≡ start_of part.now }
{
    End {
        asset: part.asset,
        link: part.link,
        right: matches!(part.side, LinkSide::Right),
        mm: part.from,
    }
}

fn end_of(part: &Part) -> End
    ensures { result ≡ end_of part.now }
{
    End {
        asset: part.asset,
        link: part.link,
        right: matches!(part.side, LinkSide::Right),
        mm: part.to,
    }
}

/// Which of the chunks has a part.
fn is_in(chunk: u64, part: &Part) -> bool
    ensures { result ≡ is_in chunk part.now }
{
    part.asset % CHUNKS == chunk
}

fn push_starts(ends: &mut Vec<End>, chunk: u64, parts: &[Part]) -> Result<(), AllocError>
    ensures { IfOk result (λ _. ends.new.items ≡ ends.old.items
        ++ map start_of (filter (is_in chunk) parts.now)) }
{
    for part in parts {
        if is_in(chunk, part) {
            ends.push(start_of(part))?;
        }
    }
    Ok(())
}

fn push_ends(ends: &mut Vec<End>, chunk: u64, parts: &[Part]) -> Result<(), AllocError>
    ensures { IfOk result (λ _. ends.new.items ≡ ends.old.items
        ++ map end_of (filter (is_in chunk) parts.now)) }
{
    for part in parts {
        if is_in(chunk, part) {
            ends.push(end_of(part))?;
        }
    }
    Ok(())
}

fn end_key(end: &End) -> ((u64, u32, bool), u32)
    ensures { result ≡ ((end.now.asset, end.now.link, end.now.right), end.now.mm) }
{
    ((end.asset, end.link, end.right), end.mm)
}

fn sort_ends(ends: &mut Vec<End>)
    ensures permutation { IsPermutation ends.old.items ends.new.items }
    ensures sorted { (k : ℕ) (d : End) → k + 1 < length ends.new.items
        → IsRising (slice_index_or ends.new.items k d) (slice_index_or ends.new.items (k + 1) d) }
{
    ends.sort_unstable_by_key(|end| end_key(end));
}

/// Where parts of a chunk begin, and where others end, in order.
fn present_ends(
    alloc: Global,
    chunk: u64,
    first: &[Part],
    more: &[Part],
    all: &[Part],
) -> Result<Vec<End>, AllocError>
    ensures permutation { IfOk result (λ ends. IsPermutation
        (map start_of (filter (is_in chunk) first.now ++ filter (is_in chunk) more.now)
        ++ map end_of (filter (is_in chunk) all.now)) ends.items) }
    ensures sorted { IfOk result (λ ends. (k : ℕ) (d : End) → k + 1 < length ends.items
        → IsRising (slice_index_or ends.items k d) (slice_index_or ends.items (k + 1) d)) }
{
    let mut ends = Vec::new(alloc);
    push_starts(&mut ends, chunk, first)?;
    push_starts(&mut ends, chunk, more)?;
    push_ends(&mut ends, chunk, all)?;
    sort_ends(&mut ends);
    Ok(ends)
}

fn past_ends(
    alloc: Global,
    chunk: u64,
    first: &[Part],
    more: &[Part],
    all: &[Part],
) -> Result<Vec<End>, AllocError>
    ensures permutation { IfOk result (λ ends. IsPermutation
        (map start_of (filter (is_in chunk) all.now)
        ++ map end_of (filter (is_in chunk) first.now
        ++ filter (is_in chunk) more.now)) ends.items) }
    ensures sorted { IfOk result (λ ends. (k : ℕ) (d : End) → k + 1 < length ends.items
        → IsRising (slice_index_or ends.items k d) (slice_index_or ends.items (k + 1) d)) }
{
    let mut ends = Vec::new(alloc);
    push_starts(&mut ends, chunk, all)?;
    push_ends(&mut ends, chunk, first)?;
    push_ends(&mut ends, chunk, more)?;
    sort_ends(&mut ends);
    Ok(ends)
}

/// Whether each pair of an asset of the chunk and a place is had as often by the first two together as by all. What
/// begins in those two or ends in all is then what begins in all or ends in those two.
fn are_alike_in(
    alloc: Global,
    chunk: u64,
    first: &[Part],
    more: &[Part],
    all: &[Part],
) -> Result<bool, AllocError>
    requires filled { AllByRecursion IsFilled (first.now ++ more.now) }
    requires filled_all { AllByRecursion IsFilled all.now }
    ensures { IfOk result (λ alike. IsTrue alike
        ↔ AreHadAlikeIn chunk (first.now ++ more.now) all.now) }
{
    let there = present_ends(alloc, chunk, first, more, all)?;
    let back = past_ends(alloc, chunk, first, more, all)?;
    Ok(there == back)
}

/// Whether each pair of asset and place is had as often by the first two together as by all. The assets are taken
/// in chunks, since the ends take much memory.
pub fn are_had_alike(
    alloc: Global,
    first: &[Part],
    more: &[Part],
    all: &[Part],
) -> Result<bool, AllocError>
    requires filled { AllByRecursion IsFilled (first.now ++ more.now) }
    requires filled_all { AllByRecursion IsFilled all.now }
    ensures { IfOk result (λ alike. IsTrue alike ↔ AreHadAlike (first.now ++ more.now) all.now) }
{
    for chunk in 0..CHUNKS {
        if !are_alike_in(alloc, chunk, first, more, all)? {
            return Ok(false);
        }
    }
    Ok(true)
}
