//! Columns of all classes asked for, swept into segments.

ghost use Rattle.std.specs.Prelude.{◌≡◌, ◌∷◌, ◌<◌, false, ◌^◌, drop, length, map, slice_get, IfOk};
ghost use Rattle.std.specs.List.{AllByRecursion};
ghost use Rattle.std.specs.Option.{option_copied};
ghost use Rattle.lrs_machine.specs.Segments.{same_values};
ghost use Rattle.lrs_report.specs.Columns.{IsColumn, first_value, least_end, behind};
ghost use Rattle.lrs_report.specs.Sweep.{segments_between, CanGoOn, IsPassed};

use crate::columns::Column;
use crate::known_rows::KnownRows;
use lrs_events::{Asset, Value};
use lrs_machine::Segment;
use lrs_measure::{Rows, TryCopy};
use std::alloc::{AllocError, Global};
use std::marker::Model;

/// Where the first of the columns' first stretches ends.
fn least_end<A: KnownRows<Asset, u64>>(columns: &[Column<'_, A>], len: u64) -> u64
    ensures { result ≡ least_end len columns.now }
{
    let mut least = len;
    for column in columns {
        least = least.min(column.end(len));
    }
    least
}

/// Passes the first stretches that end there or before.
fn pass<A: KnownRows<Asset, u64>>(columns: &mut Vec<Column<'_, A>>, to: u64)
    ensures { columns.new.items ≡ map (behind to) columns.old.items }
{
    for i in 0..columns.len() {
        columns[i].pass(to);
    }
}

/// Goes on to where the first of the first stretches ends, and answers where that is.
fn go_on<A: KnownRows<Asset, u64>>(columns: &mut Vec<Column<'_, A>>, len: u64) -> u64
    ensures end { result ≡ least_end len columns.old.items }
    ensures columns { columns.new.items ≡ map (behind result) columns.old.items }
{
    let end = least_end(columns, len);
    pass(columns, end);
    end
}

/// Whether the first stretches have these values.
fn have<A: KnownRows<Asset, u64>>(columns: &[Column<'_, A>], values: &[Option<Value>]) -> bool
    requires { length values.now ≡ length columns.now }
    ensures { result ≡ same_values values.now (map first_value columns.now) }
{
    for i in 0..columns.len() {
        if values[i] != columns[i].value() {
            return false;
        }
    }
    true
}

/// Copies the values of the first stretches.
fn first_values<A: KnownRows<Asset, u64>>(
    alloc: Global,
    columns: &[Column<'_, A>],
) -> Result<Vec<Option<Value>>, AllocError>
    ensures { IfOk result (λ values. values.items ≡ map first_value columns.now) }
{
    let mut values = Vec::with_capacity(alloc, columns.len())?;
    for column in columns {
        values.push(column.value())?;
    }
    Ok(values)
}

/// Copies the values of the first stretches over those of others.
fn set_first_values<A: KnownRows<Asset, u64>>(
    values: &mut Vec<Option<Value>>,
    columns: &[Column<'_, A>],
)
    requires { length values.old.items ≡ length columns.now }
    ensures { values.new.items ≡ map first_value columns.now }
{
    for i in 0..columns.len() {
        values[i] = columns[i].value();
    }
}

/// An equal segment.
fn segment_again(alloc: Global, segment: &Segment) -> Result<Segment, AllocError>
    ensures { IfOk result (λ same. same ≡ segment.now) }
{
    Ok(Segment {
        from: segment.from,
        to: segment.to,
        values: segment.values.copy(alloc)?,
    })
}

/// The same columns.
fn columns_again<'a, A: KnownRows<Asset, u64>>(
    alloc: Global,
    columns: &[Column<'a, A>],
) -> Result<Vec<Column<'a, A>>, AllocError>
    ensures { IfOk result (λ same. same.items ≡ columns.now) }
{
    let mut same = Vec::with_capacity(alloc, columns.len())?;
    for column in columns {
        same.push(column.again())?;
    }
    Ok(same)
}

/// Goes on to where the columns have other values, or the route ends, and answers where that is.
fn pass_same<A: KnownRows<Asset, u64>>(
    columns: &mut Vec<Column<'_, A>>,
    values: &[Option<Value>],
    from: u64,
    len: u64,
) -> u64
    requires within { from < len }
    requires columns { AllByRecursion (IsColumn from len) columns.old.items }
    requires values { values.now ≡ map first_value columns.old.items }
    ensures passed { IsPassed from len values.now columns.old.items result columns.new.items }
    ensures other { result < len → same_values values.now (map first_value columns.new.items)
        ≡ false }
{
    let mut to = go_on(columns, len);
    while to < len && have(columns, values) {
        to = go_on(columns, len);
    }
    to
}

/// The first segment of columns from a chainage on, which has the values of their first stretches.
fn first_segment<A: KnownRows<Asset, u64>>(
    columns: &mut Vec<Column<'_, A>>,
    values: Vec<Option<Value>>,
    from: u64,
    len: u64,
) -> Segment
    requires within { from < len }
    requires columns { AllByRecursion (IsColumn from len) columns.old.items }
    requires values { values.items ≡ map first_value columns.old.items }
    ensures from { result.from ≡ from }
    ensures behind { CanGoOn result columns.new.items len }
    ensures segments { segments_between columns.old.items from len
        ≡ result ∷ segments_between columns.new.items result.to len }
{
    let to = pass_same(columns, values.as_slice(), from, len);
    let values = Rows::from_vec(values);
    Segment { from, to, values }
}

/// Segments of a route in order, up to its end. Each is made where the one before it is passed, so what is in memory does not
/// grow with the route. Contracts see those that are not passed.
#[derive(Drop)]
pub struct Segments<'a, A: KnownRows<Asset, u64>> {
    first: Option<Segment>,
    columns: Vec<Column<'a, A>>,
    len: u64,
    alloc: Global,
}

impl<'a, A: KnownRows<Asset, u64>> Model for Segments<'a, A> {
    ghost use Rattle.std.specs.Prelude.{List};
    ghost use Rattle.lrs_machine.specs.declared.segment.Segment.{Segment};
    ghost use Rattle.lrs_report.specs.Sweep.{segments_from, HasBegun};

    ghost Value = { List Segment };

    ghost view = { λ left. segments_from left.first left.columns.items left.len };

    ghost invariant = { λ left. HasBegun left.first left.columns.items left.len };
}

impl<'a, A: KnownRows<Asset, u64>> Segments<'a, A> {
    /// The segments of columns along a route of this length.
    ///
    /// # Errors
    /// When memory runs out.
    pub(crate) fn of_columns(
        alloc: Global,
        mut columns: Vec<Column<'a, A>>,
        len: u64,
    ) -> Result<Segments<'a, A>, AllocError>
        requires { AllByRecursion (IsColumn 0 len) columns.items }
        ensures { IfOk result (λ all. all ≡ segments_between columns.entry.items 0 len) }
    {
        let mut first = None;
        if 0 < len {
            let values = first_values(alloc, &columns)?;
            first = Some(first_segment(&mut columns, values, 0, len));
        }
        Ok(Segments {
            first,
            columns,
            len,
            alloc,
        })
    }

    /// The first segment, or `None` at the end of the route.
    pub fn first(&self) -> Option<&Segment>
        ensures { option_copied result ≡ slice_get self.now 0 }
    {
        self.first.as_ref()
    }

    /// Passes the first segment, if there is one. It takes no memory.
    pub fn pass(&mut self)
        ensures { self.new ≡ drop 1 self.old }
    {
        let len = self.len;
        if let Some(passed) = self.first.take() {
            if passed.to < len {
                let from = passed.to;
                let mut values = passed.values.into_vec();
                set_first_values(&mut values, &self.columns);
                self.first = Some(first_segment(&mut self.columns, values, from, len));
            }
        }
    }

    /// The same segments. There are no more than a route has millimetres.
    fn again(&self) -> Result<Segments<'a, A>, AllocError>
        ensures same { IfOk result (λ same. same ≡ self.now) }
        ensures few { IfOk result (λ _. length self.now < 2 ^ 64) }
    {
        let first = match &self.first {
            Some(segment) => Some(segment_again(self.alloc, segment)?),
            None => None,
        };
        let columns = columns_again(self.alloc, &self.columns)?;
        Ok(Segments {
            first,
            columns,
            len: self.len,
            alloc: self.alloc,
        })
    }

    /// How many segments there are.
    ///
    /// # Errors
    /// When memory runs out.
    pub fn count(&self) -> Result<usize, AllocError>
        ensures { IfOk result (λ count. count ≡ length self.now) }
    {
        let mut left = self.again()?;
        let mut count = 0;
        while let Some(_) = left.first() {
            count += 1;
            left.pass();
        }
        Ok(count)
    }

    /// All segments at once.
    ///
    /// # Errors
    /// When memory runs out.
    pub fn into_vec(mut self) -> Result<Vec<Segment>, AllocError>
        ensures { IfOk result (λ all. all.items ≡ self.entry) }
    {
        let alloc = self.alloc;
        let mut all = Vec::new(alloc);
        while let Some(segment) = self.first() {
            all.push(segment_again(alloc, segment)?)?;
            self.pass();
        }
        Ok(all)
    }
}
