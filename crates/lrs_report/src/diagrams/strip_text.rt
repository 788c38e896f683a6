//! The strip of segments, written without taking memory.

ghost use Rattle.std.specs.Prelude.{◌∷◌, ◌++◌, length, map, OnOk};
ghost use Rattle.std.specs.List.{flat_map};
ghost use Rattle.std.specs.Io.KnownBytes.{Appends};
ghost use Rattle.lrs_measure.specs.FractionTexts.{metres_text};
ghost use Rattle.lrs_report.specs.Drawings.Strips.{aligned, columns_text, title_text, heading_text, value_text, segment_text, strip_text};

use crate::{KnownRows, Segments};
use lrs_events::{Asset, ClassName, Side, Value};
use lrs_machine::Segment;
use lrs_measure::Metres;
use lrs_position::{Route, RouteName};
use std::io;
use std::io::Write;

const SPACES: [u8; 12] = *b"            ";

/// Writes a text at the right of a column.
fn write_aligned<W: Write>(writer: &mut W, text: &[u8]) -> io::Result<()>
    ensures { OnOk result (Appends (W.contents writer.old) (W.contents writer.new)
        (aligned text.now)) }
{
    writer.write_all(&SPACES[text.len().min(12)..])?;
    writer.write_all(text)
}

/// Writes millimetres in metres at the right of a column.
fn write_metres<W: Write>(writer: &mut W, millimetres: u64) -> io::Result<()>
    ensures { OnOk result (Appends (W.contents writer.old) (W.contents writer.new)
        (aligned (metres_text millimetres))) }
{
    let whole = millimetres / 1000;
    let tenths = millimetres / 100 % 10;
    let hundredths = millimetres / 10 % 10;
    let thousandths = millimetres % 10;
    write!(writer, "{whole:>8}.{tenths}{hundredths}{thousandths}")
}

/// Writes a space and then a text at the right of a column.
fn write_next<W: Write>(writer: &mut W, text: &[u8]) -> io::Result<()>
    ensures { OnOk result (Appends (W.contents writer.old) (W.contents writer.new)
        (32 ∷ aligned text.now)) }
{
    writer.write_all(b" ")?;
    write_aligned(writer, text)
}

/// Writes a column for each class.
fn write_names<W: Write>(writer: &mut W, wanted: &[ClassName]) -> io::Result<()>
    ensures { OnOk result (Appends (W.contents writer.old) (W.contents writer.new)
        (columns_text wanted.now)) }
{
    for name in wanted {
        write_next(writer, name.bytes())?;
    }
    Ok(())
}

/// Writes a space and then a value, or a dash where there is none, at the right of a column.
fn write_value<W: Write>(writer: &mut W, value: Option<Value>) -> io::Result<()>
    ensures { OnOk result (Appends (W.contents writer.old) (W.contents writer.new)
        (32 ∷ aligned (value_text value))) }
{
    match value {
        Some(value) => write_next(writer, value.bytes()),
        None => write_next(writer, b"-"),
    }
}

/// Writes a column for each value.
fn write_values<W: Write>(writer: &mut W, values: &[Option<Value>]) -> io::Result<()>
    ensures { OnOk result (Appends (W.contents writer.old) (W.contents writer.new)
        (columns_text (map value_text values.now))) }
{
    for value in values {
        write_value(writer, *value)?;
    }
    Ok(())
}

fn write_title<W: Write>(writer: &mut W, route: &RouteName, side: Side, len: u64) -> io::Result<()>
    ensures { OnOk result (Appends (W.contents writer.old) (W.contents writer.new)
        (title_text route.now side len)) }
{
    let length = Metres::new(len);
    writer.write_all(b"STRIP ")?;
    writer.write_all(route.bytes())?;
    writeln!(writer, " {side} {length}")
}

fn write_heading<W: Write>(writer: &mut W, wanted: &[ClassName]) -> io::Result<()>
    ensures { OnOk result (Appends (W.contents writer.old) (W.contents writer.new)
        (heading_text wanted.now)) }
{
    write_aligned(writer, b"FROM")?;
    write_next(writer, b"TO")?;
    write_names(writer, wanted)?;
    writer.write_all(b"\n")
}

/// Writes the line of a segment.
fn write_segment<W: Write>(writer: &mut W, segment: &Segment) -> io::Result<()>
    ensures { OnOk result (Appends (W.contents writer.old) (W.contents writer.new)
        (segment_text segment.now)) }
{
    write_metres(writer, segment.from)?;
    writer.write_all(b" ")?;
    write_metres(writer, segment.to)?;
    write_values(writer, segment.values.as_slice())?;
    writer.write_all(b"\n")
}

/// Writes the lines of segments.
fn write_segments<W: Write>(writer: &mut W, segments: &[Segment]) -> io::Result<()>
    ensures { OnOk result (Appends (W.contents writer.old) (W.contents writer.new)
        (flat_map segment_text segments.now)) }
{
    for segment in segments {
        write_segment(writer, segment)?;
    }
    Ok(())
}

/// Writes the lines of segments that are made one by one.
fn write_each<W: Write, A: KnownRows<Asset, u64>>(
    writer: &mut W,
    mut segments: Segments<'_, A>,
) -> io::Result<()>
    ensures { OnOk result (Appends (W.contents writer.old) (W.contents writer.new)
        (flat_map segment_text segments.entry)) }
{
    while let Some(segment) = segments.first() {
        write_segment(writer, segment)?;
        segments.pass();
    }
    Ok(())
}

/// Writes the title of a strip with the name of a route, the side and the length, and a heading with the classes asked for.
fn write_front<W: Write>(
    writer: &mut W,
    name: &RouteName,
    side: Side,
    len: u64,
    wanted: &[ClassName],
) -> io::Result<()>
    ensures { OnOk result (Appends (W.contents writer.old) (W.contents writer.new)
        (title_text name.now side len ++ heading_text wanted.now)) }
{
    write_title(writer, name, side, len)?;
    write_heading(writer, wanted)
}

/// Writes the strip of segments of a route that has this name and this length in millimetres: a title with the name, the side
/// and the length in metres, a heading with the classes asked for, and a line for each segment. It takes no memory beyond the
/// writer's; the writer is not flushed.
///
/// # Errors
/// That of the writer. Part of the strip may be written then.
pub fn strip_of<W: Write, A: KnownRows<Asset, u64>>(
    writer: &mut W,
    name: &RouteName,
    side: Side,
    len: u64,
    wanted: &[ClassName],
    segments: Segments<'_, A>,
) -> io::Result<()>
    ensures { OnOk result (Appends (W.contents writer.old) (W.contents writer.new)
        (strip_text name.now side len wanted.now segments.entry)) }
{
    write_front(writer, name, side, len, wanted)?;
    write_each(writer, segments)
}

/// Writes the strip of a route's segments on one side (ISO 19148: linear segments), as `strip_of` does with the name and the
/// length of the route. Chainages and the length are in metres. It takes no memory beyond the writer's.
///
/// # Errors
/// That of the writer. Part of the strip may be written then.
pub fn strip<W: Write>(
    route: &Route,
    side: Side,
    wanted: &[ClassName],
    segments: &[Segment],
    writer: &mut W,
) -> io::Result<()>
    ensures { OnOk result (Appends (W.contents writer.old) (W.contents writer.new)
        (strip_text route.now.name side (length route.now.course) wanted.now segments.now)) }
{
    write_front(writer, &route.name, side, route.length(), wanted)?;
    write_segments(writer, segments)
}
