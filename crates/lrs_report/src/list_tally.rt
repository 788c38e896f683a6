//! Totals of classes, to which rows are added one after the other.

ghost use Rattle.std.specs.Prelude.{◌≡◌, ◌≤◌, true, length, map, IfOk};
ghost use Rattle.std.specs.Ordering.{is_eq, is_ge};
ghost use Rattle.lrs_measure.specs.Lists.{each_two};
ghost use Rattle.lrs_measure.specs.OrderedLists.{place_by};
ghost use Rattle.lrs_machine.specs.Sound.{asset_before};
ghost use Rattle.lrs_report.specs.ListTotals.{asset_class, kept_sum, row_length};
ghost use Rattle.lrs_report.specs.ListTally.{are_by_class, class_order, no_total, raised, raised_of, sum_of, with_entered, with_gone, with_part, with_routes, with_rows};

use crate::KnownRows;
use lrs_events::{Asset, Class, ClassName, Gone, Part, Side, Span, Spans};
use lrs_machine::Total;
use std::alloc::{AllocError, Global};

/// Which sum of a total a row is a part of.
#[derive(Clone, Copy)]
pub(crate) enum Sum {
    Entered,
    Retired,
    Abandoned,
    Present,
}

/// The total with so much more in a sum. No sum grows beyond the greatest number.
fn raised(total: Total, sum: Sum, length: u64) -> Total
    ensures { result ≡ raised sum length total }
{
    let mut total = total;
    match sum {
        Sum::Entered => total.entered = total.entered.saturating_add(length),
        Sum::Retired => total.retired = total.retired.saturating_add(length),
        Sum::Abandoned => total.abandoned = total.abandoned.saturating_add(length),
        Sum::Present => total.present = total.present.saturating_add(length),
    }
    total
}

/// How many of the totals are of a class before this one.
fn totals_below(totals: &[Total], class: &ClassName) -> usize
    requires order { are_by_class totals.now ≡ true }
    ensures place { result ≡ place_by (λ t. is_ge (class_order class.now t)) totals.now }
    ensures bound { result ≤ length totals.now }
{
    totals.partition_point(|total| total.class.bytes().cmp(class.bytes()).is_lt())
}

/// Whether the total is that of the class.
fn is_of(total: &Total, class: &ClassName) -> bool
    ensures { result ≡ is_eq (class_order class.now total.now) }
{
    total.class.bytes().cmp(class.bytes()).is_eq()
}

/// Adds so much to a sum of a class.
fn raise(totals: &mut Vec<Total>, class: &ClassName, sum: Sum, length: u64)
    requires order { are_by_class totals.old.items ≡ true }
    ensures order { are_by_class totals.new.items ≡ true }
    ensures sums { totals.new.items ≡ raised_of class.now sum length totals.old.items }
{
    let at = totals_below(totals, class);
    if at < totals.len() && is_of(&totals[at], class) {
        totals[at] = raised(totals[at], sum, length);
    }
}

/// The class of the asset of a number.
fn asset_class<A: KnownRows<Asset, u64>>(assets: &A, number: u64) -> Option<ClassName>
    requires { each_two asset_before (A.rows assets.now) ≡ true }
    ensures { result ≡ asset_class (A.rows assets.now) number }
{
    match assets.row(&number) {
        Some(asset) => Some(asset.class),
        None => None,
    }
}

/// Adds a part to the class of its asset.
fn add_part(totals: &mut Vec<Total>, assets: &[Asset], sum: Sum, part: &Part)
    requires order { are_by_class totals.old.items ≡ true }
    requires assets { each_two asset_before assets.now ≡ true }
    ensures order { are_by_class totals.new.items ≡ true }
    ensures sums { totals.new.items ≡ with_part assets.now sum part.now totals.old.items }
{
    match asset_class(&assets, part.asset) {
        Some(class) => {
            let length = part.to.saturating_sub(part.from);
            raise(totals, &class, sum, u64::from(length));
        }
        None => {}
    }
}

/// Adds the parts that were entered.
pub(crate) fn add_entered(totals: &mut Vec<Total>, assets: &[Asset], entered: &[Part])
    requires order { are_by_class totals.old.items ≡ true }
    requires assets { each_two asset_before assets.now ≡ true }
    ensures order { are_by_class totals.new.items ≡ true }
    ensures sums { totals.new.items ≡ with_entered assets.now entered.now totals.old.items }
{
    for part in entered {
        add_part(totals, assets, Sum::Entered, part);
    }
}

/// What a part that is gone is a part of.
fn sum_of(gone: &Gone) -> Sum
    ensures { result ≡ sum_of gone.now }
{
    if gone.abandoned {
        Sum::Abandoned
    } else {
        Sum::Retired
    }
}

/// Adds the parts that are gone.
pub(crate) fn add_gone(totals: &mut Vec<Total>, assets: &[Asset], gone: &[Gone])
    requires order { are_by_class totals.old.items ≡ true }
    requires assets { each_two asset_before assets.now ≡ true }
    ensures order { are_by_class totals.new.items ≡ true }
    ensures sums { totals.new.items ≡ with_gone assets.now gone.now totals.old.items }
{
    for row in gone {
        add_part(totals, assets, sum_of(row), &row.part);
    }
}

/// How many side millimetres a row of a route has, up to the greatest number.
fn row_length(row: &Span) -> u64
    ensures { result ≡ kept_sum (row_length row.now) }
{
    let length = row.to.saturating_sub(row.from);
    match row.side {
        Side::L | Side::R => length,
        Side::B => length.saturating_add(length),
    }
}

/// Adds a row of a route.
fn add_row(totals: &mut Vec<Total>, row: &Span)
    requires order { are_by_class totals.old.items ≡ true }
    ensures order { are_by_class totals.new.items ≡ true }
    ensures sums { totals.new.items ≡ raised_of row.now.class Sum.Present
        (row_length row.now) totals.old.items }
{
    raise(totals, &row.class, Sum::Present, row_length(row));
}

/// Adds the rows of a route.
fn add_rows(totals: &mut Vec<Total>, rows: &[Span])
    requires order { are_by_class totals.old.items ≡ true }
    ensures order { are_by_class totals.new.items ≡ true }
    ensures sums { totals.new.items ≡ with_rows rows.now totals.old.items }
{
    for row in rows {
        add_row(totals, row);
    }
}

/// Adds the rows of routes.
pub(crate) fn add_routes(totals: &mut Vec<Total>, spans: &[&Spans])
    requires order { are_by_class totals.old.items ≡ true }
    ensures order { are_by_class totals.new.items ≡ true }
    ensures sums { totals.new.items ≡ with_routes (map (λ s. s.now) spans.now) totals.old.items }
{
    for route in spans {
        add_rows(totals, route.rows());
    }
}

/// The total of a class without rows.
fn no_total(class: &Class) -> Total
    ensures { result ≡ no_total class.now }
{
    Total {
        class: class.name,
        entered: 0,
        retired: 0,
        abandoned: 0,
        present: 0,
    }
}

/// A total without rows for each class.
pub(crate) fn no_totals(alloc: Global, classes: &[Class]) -> Result<Vec<Total>, AllocError>
    ensures { IfOk result (λ totals. totals.items ≡ map no_total classes.now) }
{
    let mut totals = Vec::with_capacity(alloc, classes.len())?;
    for class in classes {
        totals.push(no_total(class))?;
    }
    Ok(totals)
}
