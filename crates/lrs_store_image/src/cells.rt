//! The rows of a table as they were read, cell by cell; their texts are borrowed.

ghost use Rattle.std.specs.Prelude.{◌≡◌, map, IfOk};
ghost use Rattle.lrs_store_tables.specs.StoredRows.{piece_in, mark_in, ref_in, span_in};

use crate::{MarkCells, PieceCells, RefCells, SpanCells};
use lrs_store_tables::decode::{text_at, whole_at};
use sqlite::Row;
use std::alloc::{AllocError, Global};

fn piece(row: &Row) -> PieceCells<'_>
    ensures { result ≡ piece_in row.now }
{
    PieceCells {
        route: text_at(row, 0),
        n: whole_at(row, 1),
        link: whole_at(row, 2),
        a: whole_at(row, 3),
        b: whole_at(row, 4),
        dir: whole_at(row, 5),
    }
}

fn mark(row: &Row) -> MarkCells<'_>
    ensures { result ≡ mark_in row.now }
{
    MarkCells {
        route: text_at(row, 0),
        n: whole_at(row, 1),
        chainage: whole_at(row, 2),
        measure: whole_at(row, 3),
    }
}

fn referent(row: &Row) -> RefCells<'_>
    ensures { result ≡ ref_in row.now }
{
    RefCells {
        name: text_at(row, 0),
        route: text_at(row, 1),
        place: whole_at(row, 2),
    }
}

fn span(row: &Row) -> SpanCells<'_>
    ensures { result ≡ span_in row.now }
{
    SpanCells {
        asset: whole_at(row, 0),
        route: text_at(row, 1),
        lo: whole_at(row, 2),
        hi: whole_at(row, 3),
        side: whole_at(row, 4),
    }
}

/// The rows of the table of pieces.
pub(crate) fn pieces(alloc: Global, rows: &[Row]) -> Result<Vec<PieceCells<'_>>, AllocError>
    ensures { IfOk result (λ found. found.items ≡ map piece_in rows.now) }
{
    let mut found = Vec::new(alloc);
    for row in rows {
        found.push(piece(row))?;
    }
    Ok(found)
}

/// The rows of the table of marks.
pub(crate) fn marks(alloc: Global, rows: &[Row]) -> Result<Vec<MarkCells<'_>>, AllocError>
    ensures { IfOk result (λ found. found.items ≡ map mark_in rows.now) }
{
    let mut found = Vec::new(alloc);
    for row in rows {
        found.push(mark(row))?;
    }
    Ok(found)
}

/// The rows of the table of referents.
pub(crate) fn referents(alloc: Global, rows: &[Row]) -> Result<Vec<RefCells<'_>>, AllocError>
    ensures { IfOk result (λ found. found.items ≡ map ref_in rows.now) }
{
    let mut found = Vec::new(alloc);
    for row in rows {
        found.push(referent(row))?;
    }
    Ok(found)
}

/// The rows of the table of spans.
pub(crate) fn spans(alloc: Global, rows: &[Row]) -> Result<Vec<SpanCells<'_>>, AllocError>
    ensures { IfOk result (λ found. found.items ≡ map span_in rows.now) }
{
    let mut found = Vec::new(alloc);
    for row in rows {
        found.push(span(row))?;
    }
    Ok(found)
}
