//! The rows of a store as they stand there, cell by cell.

use std::marker::Model;

/// The n-th piece of a route, run over the millimetres `a <= k < b` of a link: forwards where `dir` is 0,
/// backwards where it is 1.
#[derive(Drop)]
pub struct PieceCells<'a> {
    pub route: &'a [u8],
    pub n: i64,
    pub link: i64,
    pub a: i64,
    pub b: i64,
    pub dir: i64,
}

impl<'a> Model for PieceCells<'a> {
    ghost use Rattle.lrs_store_tables.specs.Contents.Tables.{PieceRow};

    ghost Value = { PieceRow };

    ghost view = { λ r. record { route = r.route.now; n = r.n; link = r.link; a = r.a; b = r.b; dir = r.dir } };
}

/// The n-th mark of a route.
#[derive(Drop)]
pub struct MarkCells<'a> {
    pub route: &'a [u8],
    pub n: i64,
    pub chainage: i64,
    pub measure: i64,
}

impl<'a> Model for MarkCells<'a> {
    ghost use Rattle.lrs_store_tables.specs.Contents.Tables.{MarkRow};

    ghost Value = { MarkRow };

    ghost view = { λ r. record { route = r.route.now; n = r.n; chainage = r.chainage; measure = r.measure } };
}

/// A referent of a route.
#[derive(Drop)]
pub struct RefCells<'a> {
    pub name: &'a [u8],
    pub route: &'a [u8],
    pub place: i64,
}

impl<'a> Model for RefCells<'a> {
    ghost use Rattle.lrs_store_tables.specs.Contents.Tables.{RefRow};

    ghost Value = { RefRow };

    ghost view = { λ r. record { name = r.name.now; route = r.route.now; place = r.place } };
}

/// A span of a route: side 0 is left, 1 is right, 2 is both.
#[derive(Drop)]
pub struct SpanCells<'a> {
    pub asset: i64,
    pub route: &'a [u8],
    pub lo: i64,
    pub hi: i64,
    pub side: i64,
}

impl<'a> Model for SpanCells<'a> {
    ghost use Rattle.lrs_store_tables.specs.Contents.Tables.{SpanRow};

    ghost Value = { SpanRow };

    ghost view = { λ r. record { asset = r.asset; route = r.route.now; lo = r.lo; hi = r.hi; side = r.side } };
}
