//! The list of the combinations of values.

ghost use Rattle.std.specs.Prelude.{◌≡◌, ◌∷◌, ◌++◌, [], OnOk, map};
ghost use Rattle.std.specs.List.{flat_map};
ghost use Rattle.std.specs.Io.KnownBytes.{Appends};
ghost use Rattle.lrs_report_answers.specs.Combinations.{combination_line, combinations_header, combinations_text, fields_behind, lengths_line};
ghost use Rattle.lrs_report_answers.specs.Overlay.{value_field};

use crate::combinations::Combination;
use lrs_events::{ClassName, Value};
use lrs_measure::Metres;
use std::io;
use std::io::Write;

/// Writes a field and then a comma.
fn write_behind<W: Write>(writer: &mut W, field: &[u8]) -> io::Result<()>
    ensures { OnOk result (Appends (W.contents writer.old) (W.contents writer.new)
        (field.now ++ 44 ∷ [])) }
{
    writer.write_all(field)?;
    writer.write_all(b",")
}

fn write_names<W: Write>(writer: &mut W, classes: &[ClassName]) -> io::Result<()>
    ensures { OnOk result (Appends (W.contents writer.old) (W.contents writer.new)
        (fields_behind classes.now)) }
{
    for class in classes {
        write_behind(writer, class.bytes())?;
    }
    Ok(())
}

fn write_header<W: Write>(writer: &mut W, classes: &[ClassName]) -> io::Result<()>
    ensures { OnOk result (Appends (W.contents writer.old) (W.contents writer.new)
        (combinations_header classes.now)) }
{
    write_names(writer, classes)?;
    writer.write_all(b"left,right,length\n")
}

/// Writes a value if there is one, and then a comma.
fn write_value<W: Write>(writer: &mut W, value: Option<Value>) -> io::Result<()>
    ensures { OnOk result (Appends (W.contents writer.old) (W.contents writer.new)
        (value_field value ++ 44 ∷ [])) }
{
    match value {
        Some(value) => write_behind(writer, value.bytes()),
        None => writer.write_all(b","),
    }
}

fn write_values<W: Write>(writer: &mut W, values: &[Option<Value>]) -> io::Result<()>
    ensures { OnOk result (Appends (W.contents writer.old) (W.contents writer.new)
        (fields_behind (map value_field values.now))) }
{
    for value in values {
        write_value(writer, *value)?;
    }
    Ok(())
}

fn write_lengths<W: Write>(writer: &mut W, row: &Combination) -> io::Result<()>
    ensures { OnOk result (Appends (W.contents writer.old) (W.contents writer.new)
        (lengths_line row.now)) }
{
    let left = Metres::new(row.left);
    let right = Metres::new(row.right);
    let length = Metres::new(row.length);
    writeln!(writer, "{left},{right},{length}")
}

fn write_line<W: Write>(writer: &mut W, row: &Combination) -> io::Result<()>
    ensures { OnOk result (Appends (W.contents writer.old) (W.contents writer.new)
        (combination_line row.now)) }
{
    write_values(writer, row.values.as_slice())?;
    write_lengths(writer, row)
}

fn write_lines<W: Write>(writer: &mut W, rows: &[Combination]) -> io::Result<()>
    ensures { OnOk result (Appends (W.contents writer.old) (W.contents writer.new)
        (flat_map combination_line rows.now)) }
{
    for row in rows {
        write_line(writer, row)?;
    }
    Ok(())
}

/// Writes combinations of the values of these classes: a column for each class in the order in which they are asked for, and
/// then `left,right,length`; a line for each combination, with an empty field where a class has no value, and the lengths in
/// metres, with three decimals. It takes no memory beyond the writer's, and does not flush the writer.
///
/// # Errors
/// That of the writer. Part of the lines may be written then.
pub fn write_combinations<W: Write>(
    writer: &mut W,
    classes: &[ClassName],
    rows: &[Combination],
) -> io::Result<()>
    ensures { OnOk result (Appends (W.contents writer.old) (W.contents writer.new)
        (combinations_text classes.now rows.now)) }
{
    write_header(writer, classes)?;
    write_lines(writer, rows)
}
