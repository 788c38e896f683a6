//! Counts of the rows of ledgers, class by class.

ghost use Rattle.std.specs.Prelude.{◌≡◌, ◌<◌, ◌≤◌, ℕ, true, map, insert, length, slice_get, IfOk, IfSome, vec_len, vec_capacity};
ghost use Rattle.lrs_measure.specs.Lists.{each_two};
ghost use Rattle.lrs_measure.specs.OrderedLists.{insert_by, place_by};
ghost use Rattle.lrs_measure.specs.Texts.{name_before};
ghost use Rattle.lrs_machine.specs.Sound.{asset_before};
ghost use Rattle.lrs_image_sound.specs.Exclusive.{is_place};
ghost use Rattle.lrs_report_answers.specs.Tally.Counts.{names_of, no_count, count_before, with_class, is_count_of, raised, raised_of, column_of, with_part, with_entered, with_gone, total_counted};

use lrs_events::{Asset, Class, ClassName, Gone, Part};
use lrs_machine::Total;
use lrs_ordered::Chunked;
use std::alloc::{AllocError, Global};

/// What the rows of the ledgers that were read have of a class, in side millimetres.
#[derive(Clone, Copy)]
pub(crate) struct Count {
    class: ClassName,
    entered: u64,
    retired: u64,
    abandoned: u64,
}

/// Which sum of a class a row of a ledger is a part of.
#[derive(Clone, Copy)]
enum CountedSum {
    Entered,
    Retired,
    Abandoned,
}

/// The place of a class among the counts, by binary search.
fn place_of(counts: &[Count], class: ClassName) -> Option<usize>
    requires order { each_two name_before (names_of counts.now) ≡ true }
    ensures within { IfSome result (λ at. at < length counts.now) }
    ensures place { (k : ℕ) → is_count_of class (slice_get counts.now k) ≡ is_place result k }
{
    match counts.binary_search_by(|count| count.class.bytes().cmp(class.bytes())) {
        Ok(at) => Some(at),
        Err(_) => None,
    }
}

/// The count with so much more in a column. No sum grows beyond the greatest number, which none reaches.
fn raised(count: Count, column: CountedSum, length: u64) -> Count
    ensures { result ≡ raised column length count }
{
    let mut count = count;
    match column {
        CountedSum::Entered => count.entered = count.entered.saturating_add(length),
        CountedSum::Retired => count.retired = count.retired.saturating_add(length),
        CountedSum::Abandoned => count.abandoned = count.abandoned.saturating_add(length),
    }
    count
}

/// Adds so much to a column of a class.
fn raise(counts: &mut Vec<Count>, class: ClassName, column: CountedSum, length: u64)
    requires order { each_two name_before (names_of counts.old.items) ≡ true }
    ensures names { names_of counts.new.items ≡ names_of counts.old.items }
    ensures sums { counts.new.items ≡ raised_of class column length counts.old.items }
{
    match place_of(counts, class) {
        Some(at) => counts[at] = raised(counts[at], column, length),
        None => {}
    }
}

/// Adds a row of a ledger to the class of its asset.
fn add_part(counts: &mut Vec<Count>, assets: &Chunked<Asset>, column: CountedSum, part: &Part)
    requires order { each_two name_before (names_of counts.old.items) ≡ true }
    requires assets { each_two asset_before assets.now.rows ≡ true }
    ensures names { names_of counts.new.items ≡ names_of counts.old.items }
    ensures sums { counts.new.items ≡ with_part assets.now.rows column part.now counts.old.items }
{
    match assets.find(&part.asset) {
        Some(asset) => {
            let length = part.to.saturating_sub(part.from);
            raise(counts, asset.class, column, u64::from(length));
        }
        None => {}
    }
}

/// Adds the rows of what was entered.
pub(crate) fn add_entered(counts: &mut Vec<Count>, assets: &Chunked<Asset>, entered: &[Part])
    requires order { each_two name_before (names_of counts.old.items) ≡ true }
    requires assets { each_two asset_before assets.now.rows ≡ true }
    ensures names { names_of counts.new.items ≡ names_of counts.old.items }
    ensures sums { counts.new.items ≡ with_entered assets.now.rows entered.now counts.old.items }
{
    for part in entered {
        add_part(counts, assets, CountedSum::Entered, part);
    }
}

/// What a row of what is gone is a part of.
fn column_of(gone: &Gone) -> CountedSum
    ensures { result ≡ column_of gone.now }
{
    if gone.abandoned {
        CountedSum::Abandoned
    } else {
        CountedSum::Retired
    }
}

/// Adds the rows of what is gone.
pub(crate) fn add_gone(counts: &mut Vec<Count>, assets: &Chunked<Asset>, gone: &[Gone])
    requires order { each_two name_before (names_of counts.old.items) ≡ true }
    requires assets { each_two asset_before assets.now.rows ≡ true }
    ensures { counts.new.items ≡ with_gone assets.now.rows gone.now counts.old.items }
{
    for row in gone {
        add_part(counts, assets, column_of(row), &row.part);
    }
}

/// The count of a class without rows.
fn no_count(class: &Class) -> Count
    ensures { result ≡ no_count class.now }
{
    Count {
        class: class.name,
        entered: 0,
        retired: 0,
        abandoned: 0,
    }
}

/// Where the count of a class belongs among the others.
fn place_for(counts: &[Count], count: &Count) -> usize
    requires order { each_two count_before (insert_by count_before count.now counts.now) ≡ true }
    ensures place { result ≡ place_by (count_before count.now) counts.now }
    ensures within { result ≤ length counts.now }
{
    counts.partition_point(|other| !is_before(count, other))
}

fn is_before(count: &Count, other: &Count) -> bool
    ensures { result ≡ count_before count.now other.now }
{
    count.class.bytes().cmp(other.class.bytes()).is_lt()
}

/// Puts a count into a vector that has room for it.
fn insert_at(counts: &mut Vec<Count>, at: usize, count: Count)
    requires room { vec_len counts.old < vec_capacity counts.old }
    requires place { at ≤ vec_len counts.old }
    ensures { counts.new.items ≡ insert counts.old.items at count }
{
    if counts.insert(at, count).is_err() {
        unreachable!()
    }
}

/// Puts the count of a class without rows in its place by name.
fn put_class(counts: &mut Vec<Count>, class: &Class)
    requires room { vec_len counts.old < vec_capacity counts.old }
    requires order { each_two count_before (insert_by count_before
        (no_count class.now) counts.old.items) ≡ true }
    ensures { counts.new.items ≡ insert_by count_before (no_count class.now) counts.old.items }
{
    let count = no_count(class);
    let at = place_for(counts, &count);
    insert_at(counts, at, count);
}

/// Puts that of a new class, if there is one.
pub(crate) fn put_some_class(counts: &mut Vec<Count>, class: &Option<Class>)
    requires room { vec_len counts.old < vec_capacity counts.old }
    requires order { each_two count_before (with_class class.now counts.old.items) ≡ true }
    ensures { counts.new.items ≡ with_class class.now counts.old.items }
{
    match class {
        Some(class) => put_class(counts, class),
        None => {}
    }
}

/// A count without rows for each class.
pub(crate) fn no_counts(alloc: Global, classes: &Chunked<Class>) -> Result<Vec<Count>, AllocError>
    ensures { IfOk result (λ counts. counts.items ≡ map no_count classes.now.rows) }
{
    let mut counts = Vec::new(alloc);
    for class in classes.iter() {
        counts.push(no_count(class))?;
    }
    Ok(counts)
}

/// The total of a class whose rows are counted.
fn total_of(count: &Count) -> Total
    ensures { result ≡ total_counted count.now }
{
    let gone = count.retired.saturating_add(count.abandoned);
    Total {
        class: count.class,
        entered: count.entered,
        retired: count.retired,
        abandoned: count.abandoned,
        present: count.entered.saturating_sub(gone),
    }
}

/// The totals of all classes whose rows are counted.
pub(crate) fn totals_of(alloc: Global, counts: &[Count]) -> Result<Vec<Total>, AllocError>
    ensures { IfOk result (λ totals. totals.items ≡ map total_counted counts.now) }
{
    let mut totals = Vec::with_capacity(alloc, counts.len())?;
    for count in counts {
        totals.push(total_of(count))?;
    }
    Ok(totals)
}
