//! Some columns of a CSV text.

ghost use Rattle.std.specs.Prelude.{◌≡◌, OnOk, ◌∷◌};
ghost use Rattle.std.specs.List.{flat_map};
ghost use Rattle.std.specs.Io.KnownBytes.{Appends};
ghost use Rattle.lrs_cli_tasks.specs.Columns.{field_at, picked_cells, picked_line};

use lrs_sheet_records::cut_at;
use std::io;
use std::io::Write;

/// The field of a line at a place, counted from 0; an empty one where it has none.
fn field_at(line: &[u8], place: usize) -> &[u8]
    ensures { result.now ≡ field_at line.now place }
{
    let mut rest = line;
    for _turn in 0..place {
        match cut_at(rest, b',').1 {
            Some(behind) => rest = behind,
            None => return b"".as_slice(),
        }
    }
    cut_at(rest, b',').0
}

/// Writes a comma and the field of a line at a place.
fn write_next<W: Write>(writer: &mut W, line: &[u8], place: usize) -> io::Result<()>
    ensures { OnOk result (Appends (W.contents writer.old) (W.contents writer.new)
        (44 ∷ field_at line.now place)) }
{
    writer.write_all(b",")?;
    writer.write_all(field_at(line, place))
}

/// Writes the fields of a line at these places, each behind a comma.
fn write_others<W: Write>(writer: &mut W, line: &[u8], places: &[usize]) -> io::Result<()>
    ensures { OnOk result (Appends (W.contents writer.old) (W.contents writer.new)
        (flat_map (λ place. 44 ∷ field_at line.now place) places.now)) }
{
    for place in places {
        write_next(writer, line, *place)?;
    }
    Ok(())
}

/// Writes the fields of a line at these places, in this order; of an empty line nothing.
fn write_line<W: Write>(writer: &mut W, places: &[usize], line: &[u8]) -> io::Result<()>
    ensures { OnOk result (Appends (W.contents writer.old) (W.contents writer.new)
        (picked_line places.now line.now)) }
{
    if line.is_empty() {
        return Ok(());
    }
    match places.split_first() {
        Some((first, others)) => {
            writer.write_all(field_at(line, *first))?;
            write_others(writer, line, others)
        }
        None => Ok(()),
    }
}

/// Writes of each line of a CSV text whose cells have no quotes the fields at these places, in this order.
pub(crate) fn write_picked<W: Write>(
    writer: &mut W,
    places: &[usize],
    text: &[u8],
) -> io::Result<()>
    ensures { OnOk result (Appends (W.contents writer.old) (W.contents writer.new)
        (picked_cells places.now text.now)) }
{
    let mut rest = text;
    'lines: loop {
        let (line, behind) = cut_at(rest, b'\n');
        write_line(writer, places, line)?;
        match behind {
            Some(more) => rest = more,
            None => return Ok(()),
        }
        writer.write_all(b"\n")?;
    }
}
