//! The values of a row, as a statement takes them.

ghost use Rattle.std.specs.Prelude.{◌≡◌, length, map, pos, OnOk};
ghost use Rattle.sqlite_value.specs.declared.value.Value.TheVariants.{Int};
ghost use Rattle.sqlite.specs.Values.{bound};
ghost use Rattle.lrs_store_tables.specs.Contents.Laws.{origin_row};
ghost use Rattle.lrs_store_tables.specs.Contents.Encoders.{asset_row, span_row, entered_row, gone_row, edit_row};
ghost use Rattle.lrs_store_tables.specs.Cells.{asset_cells, origin_cells, span_cells, entered_cells, gone_cells, edit_cells};

use lrs_events::{Asset, Gone, Part, Span};
use lrs_machine::Edit;
use lrs_position::RouteName;
use lrs_store_tables::number::{cause_number, link_side_number, number, side_number};
use sqlite::Error;
use sqlite::types::ValueRef;

/// Numbers, in turn. With one call for all of them a function has one exit where a number is too large.
pub fn fill_numbers(numbers: &[u64], cells: &mut [ValueRef<'_>]) -> Result<(), Error>
    requires room { length cells.old ≡ length numbers.now }
    ensures filled { OnOk result (bound cells.new ≡ map (λ n. Int (pos n)) numbers.now) }
    ensures room { length cells.new ≡ length numbers.now }
{
    for i in 0..numbers.len() {
        cells[i] = number(numbers[i])?;
    }
    Ok(())
}

/// Those of an asset.
pub fn fill_asset<'a>(asset: &'a Asset, cells: &mut [ValueRef<'a>]) -> Result<(), Error>
    requires room { length cells.old ≡ 4 }
    ensures filled { OnOk result (bound cells.new ≡ asset_cells (asset_row asset.now)) }
    ensures room { length cells.new ≡ 4 }
{
    let own = number(asset.number)?;
    let class = ValueRef::Text(asset.class.bytes());
    let value = ValueRef::Text(asset.value.bytes());
    let lateral = number(asset.lateral as u64)?;
    cells.copy_from_slice(&[own, class, value, lateral]);
    Ok(())
}

/// Those of the row that tells which edit entered an asset.
pub fn fill_origin<'a>(asset: &'a Asset, cells: &mut [ValueRef<'a>]) -> Result<(), Error>
    requires room { length cells.old ≡ 2 }
    ensures filled { OnOk result (bound cells.new ≡ origin_cells (origin_row asset.now)) }
    ensures room { length cells.new ≡ 2 }
{
    fill_numbers(&[asset.number, asset.entered_by], cells)
}

/// Those of a span of a route.
pub fn fill_span<'a>(
    route: &'a RouteName,
    span: &'a Span,
    cells: &mut [ValueRef<'a>],
) -> Result<(), Error>
    requires room { length cells.old ≡ 5 }
    ensures filled { OnOk result (bound cells.new ≡ span_cells (span_row route.now span.now)) }
    ensures room { length cells.new ≡ 5 }
{
    let route = ValueRef::Text(route.bytes());
    let mut numbers = [ValueRef::Null; 4];
    fill_numbers(
        &[span.asset, span.from, span.to, side_number(span.side)],
        &mut numbers,
    )?;
    let [asset, from, to, side] = numbers;
    cells.copy_from_slice(&[asset, route, from, to, side]);
    Ok(())
}

/// Those of a part that was entered.
pub fn fill_part<'a>(part: &'a Part, cells: &mut [ValueRef<'a>]) -> Result<(), Error>
    requires room { length cells.old ≡ 6 }
    ensures filled { OnOk result (bound cells.new ≡ entered_cells (entered_row part.now)) }
    ensures room { length cells.new ≡ 6 }
{
    let (link, from, to) = (part.link as u64, part.from as u64, part.to as u64);
    let side = link_side_number(part.side);
    fill_numbers(&[part.edit, part.asset, link, from, to, side], cells)
}

/// Those of a part that is gone.
pub fn fill_gone<'a>(gone: &'a Gone, cells: &mut [ValueRef<'a>]) -> Result<(), Error>
    requires room { length cells.old ≡ 7 }
    ensures filled { OnOk result (bound cells.new ≡ gone_cells (gone_row gone.now)) }
    ensures room { length cells.new ≡ 7 }
{
    let part = &gone.part;
    let (link, from, to) = (part.link as u64, part.from as u64, part.to as u64);
    let (cause, side) = (cause_number(gone.abandoned), link_side_number(part.side));
    fill_numbers(&[part.edit, cause, part.asset, link, from, to, side], cells)
}

/// Those of an edit under its number.
pub fn fill_edit<'a>(n: u64, edit: &'a Edit, cells: &mut [ValueRef<'a>]) -> Result<(), Error>
    requires room { length cells.old ≡ 3 }
    ensures filled { OnOk result (bound cells.new ≡ edit_cells (edit_row n edit.now)) }
    ensures room { length cells.new ≡ 3 }
{
    let own = number(n)?;
    let token = ValueRef::Text(edit.key.bytes());
    let line = ValueRef::Text(edit.line.as_str().as_bytes());
    cells.copy_from_slice(&[own, token, line]);
    Ok(())
}
