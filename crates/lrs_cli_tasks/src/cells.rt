//! Cells of a CSV text, each written so that a spreadsheet takes it as text.

ghost use Rattle.std.specs.Prelude.{◌≡◌, OnOk};
ghost use Rattle.std.specs.Io.KnownBytes.{Appends};
ghost use Rattle.lrs_cli_tasks.specs.Cells.{close_of, is_edge, with_marks};
ghost use Rattle.lrs_cli_tasks.specs.Lines.{text_cells};

use std::io;
use std::io::Write;

// Whether a byte stands between two cells: a comma, or the end of a line.
fn is_edge(byte: u8) -> bool
    ensures { result ≡ is_edge byte }
{
    byte == b',' || byte == b'\n'
}

/// Writes a byte; before an edge what ends the cell that is open, and else what begins one where none is.
fn write_byte<W: Write>(writer: &mut W, is_open: bool, edge: bool, byte: u8) -> io::Result<()>
    ensures { OnOk result (Appends (W.contents writer.old) (W.contents writer.new)
        (with_marks is_open edge byte)) }
{
    match (is_open, edge) {
        (true, true) => writer.write_all(&[b'"', b'"', b'"', byte]),
        (false, false) => writer.write_all(&[b'"', b'=', b'"', b'"', byte]),
        (true, false) | (false, true) => writer.write_all(&[byte]),
    }
}

/// Writes what ends a cell, if one is open.
fn write_close<W: Write>(writer: &mut W, is_open: bool) -> io::Result<()>
    ensures { OnOk result (Appends (W.contents writer.old) (W.contents writer.new)
        (close_of is_open)) }
{
    if is_open {
        writer.write_all(&[b'"', b'"', b'"'])
    } else {
        Ok(())
    }
}

/// Writes a CSV text whose cells have no quotes, each cell as text for a spreadsheet.
pub(crate) fn write_text_cells<W: Write>(writer: &mut W, text: &[u8]) -> io::Result<()>
    ensures { OnOk result (Appends (W.contents writer.old) (W.contents writer.new)
        (text_cells text.now)) }
{
    let mut is_open = false;
    for byte in text {
        let edge = is_edge(*byte);
        write_byte(writer, is_open, edge, *byte)?;
        is_open = !edge;
    }
    write_close(writer, is_open)
}
