//! The first table in which two images differ.

ghost use Rattle.std.specs.Prelude.{◌≡◌, ◌↔◌, ◌≤◌, ◌<◌, IsTrue, []};
ghost use Rattle.lrs_machine.specs.declared.table.Table.{Table as TableName};
ghost use Rattle.lrs_image.specs.OpenLists.{image_of};
ghost use Rattle.lrs_sheet_log.specs.Differences.{AreEach, IsFirstDifference, SameRoute, SameTable, TakesNext, course_row, marks_row, rank, refs_row, spans_row};

use lrs_element::{Course, Link, Mark, Piece};
use lrs_events::{Asset, Class, Gone, Part, Span};
use lrs_image::ImageLists;
use lrs_machine::{Edit, RouteRow, Table};
use lrs_ordered::{Chunked, RowsIter};
use lrs_position::Referent;

/// Rows that can be compared, as a table shows them.
trait Compared {
    ghost same: { TableName → Self → Self → Type 0 };

    /// Whether the table shows the same of both.
    fn is_same(&self, table: Table, other: &Self) -> bool
        ensures { IsTrue result ↔ same table self.now other.now };
}

/// Whether there are as many rows, and each pair is the same.
fn are_each<T: Compared>(table: Table, first: &[T], second: &[T]) -> bool
    ensures { IsTrue result ↔ AreEach (T.same table) first.now second.now }
{
    if first.len() != second.len() {
        return false;
    }
    for place in 0..first.len() {
        if !first[place].is_same(table, &second[place]) {
            return false;
        }
    }
    true
}

/// Whether a row is the same as the first of these, which is passed over.
fn is_next<T: Compared>(table: Table, row: &T, others: &mut RowsIter<'_, T>) -> bool
    ensures { TakesNext (T.same table row.now) others.old others.new result }
{
    match others.next() {
        Some(other) => row.is_same(table, other),
        None => false,
    }
}

fn is_past_all<T>(others: &mut RowsIter<'_, T>) -> bool
    ensures { IsTrue result ↔ (others.old ≡ []) }
{
    others.next().is_none()
}

/// The same of rows in chunks.
fn are_each_in_chunks<T: Compared>(table: Table, first: &Chunked<T>, second: &Chunked<T>) -> bool
    ensures { IsTrue result ↔ AreEach (T.same table) first.now.rows second.now.rows }
{
    let mut others = second.iter();
    for row in first.iter() {
        if !is_next(table, row, &mut others) {
            return false;
        }
    }
    is_past_all(&mut others)
}

impl Compared for Link {
    ghost same = { λ _ a b. a ≡ b };

    fn is_same(&self, _table: Table, other: &Link) -> bool {
        self.number == other.number && self.length == other.length
    }
}

impl Compared for Class {
    ghost same = { λ _ a b. a ≡ b };

    fn is_same(&self, _table: Table, other: &Class) -> bool {
        self.name == other.name && self.kind == other.kind
    }
}

impl Compared for Asset {
    ghost same = { λ _ a b. a ≡ b };

    fn is_same(&self, _table: Table, other: &Asset) -> bool {
        self.number == other.number
            && self.class == other.class
            && self.value == other.value
            && self.lateral == other.lateral
            && self.entered_by == other.entered_by
    }
}

impl Compared for Part {
    ghost same = { λ _ a b. a ≡ b };

    fn is_same(&self, _table: Table, other: &Part) -> bool {
        self.edit == other.edit
            && self.asset == other.asset
            && self.link == other.link
            && self.from == other.from
            && self.to == other.to
            && self.side == other.side
    }
}

impl Compared for Gone {
    ghost same = { λ _ a b. a ≡ b };

    fn is_same(&self, table: Table, other: &Gone) -> bool {
        self.part.is_same(table, &other.part) && self.abandoned == other.abandoned
    }
}

impl Compared for Edit {
    ghost same = { λ _ a b. a ≡ b };

    fn is_same(&self, _table: Table, other: &Edit) -> bool {
        self.key == other.key && self.line.as_str() == other.line.as_str()
    }
}

impl Compared for Piece {
    ghost same = { λ _ a b. a ≡ b };

    fn is_same(&self, _table: Table, other: &Piece) -> bool {
        self.link == other.link
            && self.from == other.from
            && self.to == other.to
            && self.forward == other.forward
    }
}

impl Compared for Mark {
    ghost same = { λ _ a b. a ≡ b };

    fn is_same(&self, _table: Table, other: &Mark) -> bool {
        self.chainage == other.chainage && self.measure == other.measure
    }
}

impl Compared for Referent {
    ghost same = { λ _ a b. a ≡ b };

    fn is_same(&self, _table: Table, other: &Referent) -> bool {
        self.name == other.name && self.at == other.at
    }
}

impl Compared for Span {
    ghost same = { λ _ a b. a ≡ b };

    fn is_same(&self, _table: Table, other: &Span) -> bool {
        self.asset == other.asset
            && self.class == other.class
            && self.from == other.from
            && self.to == other.to
            && self.side == other.side
    }
}

fn is_same_course(one: &Course, other: &Course) -> bool
    ensures { IsTrue result ↔ (one.now ≡ other.now) }
{
    are_each(Table::Piece, one.pieces(), other.pieces())
}

fn have_same_name(one: &RouteRow, other: &RouteRow) -> bool
    ensures { IsTrue result ↔ (one.now.route.name ≡ other.now.route.name) }
{
    one.route.name == other.route.name
}

fn have_same_course(one: &RouteRow, other: &RouteRow) -> bool
    ensures { IsTrue result ↔ (course_row one.now ≡ course_row other.now) }
{
    have_same_name(one, other) && is_same_course(&one.route.course, &other.route.course)
}

fn have_same_marks(one: &RouteRow, other: &RouteRow) -> bool
    ensures { IsTrue result ↔ (marks_row one.now ≡ marks_row other.now) }
{
    have_same_name(one, other)
        && are_each(
            Table::Mark,
            one.route.marks.list(),
            other.route.marks.list(),
        )
}

fn have_same_referents(one: &RouteRow, other: &RouteRow) -> bool
    ensures { IsTrue result ↔ (refs_row one.now ≡ refs_row other.now) }
{
    have_same_name(one, other)
        && are_each(
            Table::Ref,
            one.route.refs.as_slice(),
            other.route.refs.as_slice(),
        )
}

fn have_same_spans(one: &RouteRow, other: &RouteRow) -> bool
    ensures { IsTrue result ↔ (spans_row one.now ≡ spans_row other.now) }
{
    have_same_name(one, other) && are_each(Table::Span, one.spans.rows(), other.spans.rows())
}

impl Compared for RouteRow {
    ghost same = { SameRoute };

    fn is_same(&self, table: Table, other: &RouteRow) -> bool {
        match table {
            Table::Mark => have_same_marks(self, other),
            Table::Ref => have_same_referents(self, other),
            Table::Span => have_same_spans(self, other),
            _ => have_same_course(self, other),
        }
    }
}

fn have_same_routes(table: Table, left: &ImageLists, right: &ImageLists) -> bool
    ensures { IsTrue result ↔ AreEach (SameRoute table) left.now.routes.rows right.now.routes.rows }
{
    are_each_in_chunks(table, &left.routes, &right.routes)
}

/// Whether two images have the same rows in a table.
fn have_same(table: Table, left: &ImageLists, right: &ImageLists) -> bool
    ensures { IsTrue result ↔ SameTable table (image_of left.now) (image_of right.now) }
{
    match table {
        Table::Version => true,
        Table::Link => are_each_in_chunks(table, &left.links, &right.links),
        Table::Class => are_each_in_chunks(table, &left.classes, &right.classes),
        Table::Asset => are_each_in_chunks(table, &left.assets, &right.assets),
        Table::Piece => have_same_routes(Table::Piece, left, right),
        Table::Mark => have_same_routes(Table::Mark, left, right),
        Table::Ref => have_same_routes(Table::Ref, left, right),
        Table::Span => have_same_routes(Table::Span, left, right),
        Table::Entered => are_each(table, left.entered.as_slice(), right.entered.as_slice()),
        Table::Gone => are_each(table, left.gone.as_slice(), right.gone.as_slice()),
        Table::Edit => are_each(table, left.edits.as_slice(), right.edits.as_slice()),
        Table::Origin => true,
    }
}

/// The table of this rank, among those of an image.
fn table_at(place: u32) -> Table
    requires least { 1 ≤ place }
    requires most { place < 11 }
    ensures { rank result ≡ place }
{
    match place {
        1 => Table::Link,
        2 => Table::Class,
        3 => Table::Asset,
        4 => Table::Piece,
        5 => Table::Mark,
        6 => Table::Ref,
        7 => Table::Span,
        8 => Table::Entered,
        9 => Table::Gone,
        _ => Table::Edit,
    }
}

/// The first table in which two images differ, in the order of tables; none where the images are the same.
pub fn first_difference(left: &ImageLists, right: &ImageLists) -> Option<Table>
    ensures { IsFirstDifference (image_of left.now) (image_of right.now) result }
{
    for place in 1..11 {
        let table = table_at(place);
        if !have_same(table, left, right) {
            return Some(table);
        }
    }
    None
}
