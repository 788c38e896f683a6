//! The lengths of values, written as CSV.

ghost use Rattle.std.specs.Prelude.{OnOk};
ghost use Rattle.std.specs.List.{flat_map};
ghost use Rattle.std.specs.Io.KnownBytes.{Appends};
ghost use Rattle.lrs_report_lists.specs.Length.Lines.{key_part, length_line, lengths_text, numbers_part};

use crate::length_lists::table::ValueLength;
use lrs_measure::Metres;
use std::io;
use std::io::Write;

fn write_key<W: Write>(writer: &mut W, row: &ValueLength) -> io::Result<()>
    ensures { OnOk result (Appends (W.contents writer.old) (W.contents writer.new)
        (key_part row.now)) }
{
    let class = row.class;
    let value = row.value;
    write!(writer, "{class},{value},")
}

fn write_numbers<W: Write>(writer: &mut W, row: &ValueLength) -> io::Result<()>
    ensures { OnOk result (Appends (W.contents writer.old) (W.contents writer.new)
        (numbers_part row.now)) }
{
    let left = Metres::new(row.left);
    let right = Metres::new(row.right);
    let length = Metres::new(row.length);
    let assets = row.assets;
    writeln!(writer, "{left},{right},{length},{assets}")
}

fn write_line<W: Write>(writer: &mut W, row: &ValueLength) -> io::Result<()>
    ensures { OnOk result (Appends (W.contents writer.old) (W.contents writer.new)
        (length_line row.now)) }
{
    write_key(writer, row)?;
    write_numbers(writer, row)
}

fn write_lines<W: Write>(writer: &mut W, rows: &[ValueLength]) -> io::Result<()>
    ensures { OnOk result (Appends (W.contents writer.old) (W.contents writer.new)
        (flat_map length_line rows.now)) }
{
    for row in rows {
        write_line(writer, row)?;
    }
    Ok(())
}

/// Writes lengths of values: the header `class,value,left,right,length,assets`, and a line for each, with the lengths in metres,
/// with three decimals, and the number of assets. It takes no memory beyond the writer's, and does not flush the writer.
///
/// # Errors
/// That of the writer. Part of the lines may be written then.
pub fn write_lengths<W: Write>(writer: &mut W, rows: &[ValueLength]) -> io::Result<()>
    ensures { OnOk result (Appends (W.contents writer.old) (W.contents writer.new)
        (lengths_text rows.now)) }
{
    writer.write_all(b"class,value,left,right,length,assets\n")?;
    write_lines(writer, rows)
}
