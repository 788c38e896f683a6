//! Which rows are asked for.

ghost use Rattle.std.specs.Prelude.{◌≡◌, ◌&&◌};
ghost use Rattle.std.specs.Option.{option_map};
ghost use Rattle.lrs_measure.specs.Texts.{same_name};
ghost use Rattle.lrs_report_lists.specs.WantedRows.{earlier, has_between, is_asset_of, is_edit_wanted, is_number, is_of_class, is_since, is_until, is_wanted, later};

use lrs_events::{Asset, ClassName, Gone, Span};
use lrs_machine::{GoneWanted, RowsWanted};

fn later(from: Option<u64>, at: u64) -> u64
    ensures { result ≡ later from at }
{
    match from {
        Some(from) => from.max(at),
        None => at,
    }
}

fn earlier(to: Option<u64>, at: u64) -> u64
    ensures { result ≡ earlier to at }
{
    match to {
        Some(to) => to.min(at),
        None => at,
    }
}

fn has_between(from: Option<u64>, to: Option<u64>, row: &Span) -> bool
    ensures { result ≡ has_between from to row.now }
{
    later(from, row.from) < earlier(to, row.to)
}

fn is_of_class(class: Option<ClassName>, row: &Span) -> bool
    ensures { result ≡ is_of_class class row.now }
{
    match class {
        Some(class) => row.class == class,
        None => true,
    }
}

fn is_number(asked: Option<u64>, number: u64) -> bool
    ensures { result ≡ is_number asked number }
{
    match asked {
        Some(asked) => number == asked,
        None => true,
    }
}

/// Whether a row is asked for, on whichever route it lies.
pub fn is_wanted(wanted: &RowsWanted, row: &Span) -> bool
    ensures { result ≡ is_wanted wanted.now row.now }
{
    has_between(wanted.from, wanted.to, row)
        && is_of_class(wanted.class, row)
        && is_number(wanted.asset, row.asset)
}

fn is_since(first: Option<u64>, number: u64) -> bool
    ensures { result ≡ is_since first number }
{
    match first {
        Some(first) => first <= number,
        None => true,
    }
}

fn is_until(last: Option<u64>, number: u64) -> bool
    ensures { result ≡ is_until last number }
{
    match last {
        Some(last) => number <= last,
        None => true,
    }
}

fn is_edit_wanted(wanted: &GoneWanted, edit: u64) -> bool
    ensures { result ≡ is_edit_wanted wanted.now edit }
{
    is_number(wanted.edit, edit) && is_since(wanted.since, edit) && is_until(wanted.until, edit)
}

fn has_class(asset: &Asset, class: &ClassName) -> bool
    ensures { result ≡ same_name asset.now.class class.now }
{
    asset.class == *class
}

/// Whether an asset is of the class that is asked for; none is of no class.
fn is_asset_of(class: Option<ClassName>, asset: Option<&Asset>) -> bool
    ensures { result ≡ is_asset_of class (option_map (λ a. a.now) asset.entry) }
{
    match (class, asset) {
        (None, _) => true,
        (Some(class), Some(asset)) => has_class(asset, &class),
        (Some(_), None) => false,
    }
}

/// Whether a part that is gone is asked for. The asset is the part's, if it is known.
pub fn is_gone_wanted(wanted: &GoneWanted, asset: Option<&Asset>, gone: &Gone) -> bool
    ensures { result ≡ (is_edit_wanted wanted.now gone.now.part.edit
        && is_asset_of wanted.now.class (option_map (λ a. a.now) asset.entry)) }
{
    is_edit_wanted(wanted, gone.part.edit) && is_asset_of(wanted.class, asset)
}
