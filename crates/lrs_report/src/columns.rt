//! Columns: what a class has along a route, stretch by stretch.

ghost use Rattle.std.specs.Prelude.{◌≡◌, true};
ghost use Rattle.lrs_measure.specs.Lists.{each_two};
ghost use Rattle.lrs_machine.specs.Sound.{asset_before};
ghost use Rattle.lrs_report.specs.SideValues.{asset_value};
ghost use Rattle.lrs_report.specs.Columns.{first_stretch, first_value, first_end, behind, stretches_behind, stretches_from};

use crate::known_rows::KnownRows;
use crate::lookups::asset_value;
use lrs_events::{Asset, Span, Value};
use std::marker::Model;

/// A value or none up to a chainage, from where the stretch before it ended.
#[derive(Clone, Copy, PartialEq, Eq)]
pub struct ValueStretch {
    pub to: u64,
    pub value: Option<Value>,
}

/// Where a column has come: its first stretch, and the rows behind it.
#[derive(Clone, Copy)]
pub struct Ahead<'a> {
    pub first: Option<ValueStretch>,
    pub rows: &'a [Span],
}

/// The first stretch from a chainage on, of rows that follow one another up to the end of a route, and the rows behind it.
fn ahead_from<'a, A: KnownRows<Asset, u64>>(
    from: u64,
    len: u64,
    rows: &'a [Span],
    assets: &A,
) -> Ahead<'a>
    requires order { each_two asset_before (A.rows assets.now) ≡ true }
    ensures { stretches_behind (asset_value (A.rows assets.now)) len result.first result.rows.now
        ≡ stretches_from (asset_value (A.rows assets.now)) from len rows.now }
{
    let next = match rows.first() {
        Some(row) => row.from,
        None => len,
    };
    if from < next {
        let first = Some(ValueStretch {
            to: next,
            value: None,
        });
        return Ahead { first, rows };
    }
    match rows.split_first() {
        Some((row, others)) => {
            let first = Some(ValueStretch {
                to: row.to,
                value: asset_value(assets, row.asset),
            });
            Ahead {
                first,
                rows: others,
            }
        }
        None => Ahead { first: None, rows },
    }
}

/// Stretches that follow one another up to the end of a route: those of rows, and those between the rows. Each is found
/// where the one before it is passed, so that a column takes no memory. Contracts see those that are not passed.
#[derive(Drop)]
pub struct Column<'a, A: KnownRows<Asset, u64>> {
    first: Option<ValueStretch>,
    rows: &'a [Span],
    assets: &'a A,
    len: u64,
}

impl<'a, A: KnownRows<Asset, u64>> Model for Column<'a, A> {
    ghost use Rattle.std.specs.Prelude.{◌≡◌, List, true};
    ghost use Rattle.lrs_measure.specs.Lists.{each_two};
    ghost use Rattle.lrs_machine.specs.Sound.{asset_before};
    ghost use Rattle.lrs_report.specs.SideValues.{asset_value};
    ghost use Rattle.lrs_report.specs.Columns.{stretches_behind};
    ghost use Rattle.lrs_report.specs.declared.columns.ValueStretch.{ValueStretch};

    ghost Value = { List ValueStretch };

    ghost view = { λ column. stretches_behind (asset_value (A.rows column.assets.now)) column.len column.first column.rows.now };

    ghost invariant = { λ column. each_two asset_before (A.rows column.assets.now) ≡ true };
}

impl<'a, A: KnownRows<Asset, u64>> Column<'a, A> {
    /// The column of rows that follow one another on a route of this length.
    pub fn new(rows: &'a [Span], assets: &'a A, len: u64) -> Column<'a, A>
        requires order { each_two asset_before (A.rows assets.now) ≡ true }
        ensures { result ≡ stretches_from (asset_value (A.rows assets.now)) 0 len rows.now }
    {
        let Ahead { first, rows } = ahead_from(0, len, rows, assets);
        Column {
            first,
            rows,
            assets,
            len,
        }
    }

    /// The same stretches.
    pub fn again(&self) -> Column<'a, A>
        ensures { result ≡ self.now }
    {
        Column {
            first: self.first,
            rows: self.rows,
            assets: self.assets,
            len: self.len,
        }
    }

    /// The first stretch.
    fn first(&self) -> Option<ValueStretch>
        ensures { result ≡ first_stretch self.now }
    {
        self.first
    }

    /// The value of the first stretch.
    pub fn value(&self) -> Option<Value>
        ensures { result ≡ first_value self.now }
    {
        match self.first() {
            Some(stretch) => stretch.value,
            None => None,
        }
    }

    /// Where the first stretch ends, or the route where there is none.
    pub fn end(&self, len: u64) -> u64
        ensures { result ≡ first_end len self.now }
    {
        match self.first() {
            Some(stretch) => stretch.to,
            None => len,
        }
    }

    /// Passes the first stretch, if it ends there or before.
    pub fn pass(&mut self, to: u64)
        ensures { self.new ≡ behind to self.old }
    {
        match self.first {
            Some(stretch) if stretch.to <= to => {
                let ahead = ahead_from(stretch.to, self.len, self.rows, self.assets);
                self.first = ahead.first;
                self.rows = ahead.rows;
            }
            Some(_) | None => {}
        }
    }
}
