//! The lines of answers, written without taking memory.

ghost use Rattle.std.specs.Prelude.{◌≡◌, ◌∷◌, [], length, codes, IfOk, None, OnOk};
ghost use Rattle.std.specs.List.{flat_map};
ghost use Rattle.std.specs.Fmt.{decimal};
ghost use Rattle.std.specs.Io.KnownBytes.{Appends};
ghost use Rattle.lrs_events.specs.Names.{side_text};
ghost use Rattle.lrs_machine.specs.Lines.{fields, method_text};
ghost use Rattle.lrs_sheet_questions.specs.Lines.{at_lines, expression_line, fields_line, found_lines, hit_line, place_line, row_line, segment_count, segment_line, segments_lines, told_lines, value_field, where_lines};
ghost use Rattle.lrs_sheet_questions.specs.Lists.{list_kind};

use lrs_events::{Side, Value};
use lrs_machine::{Hit, Key, Segment};
use lrs_measure::Frac;
use lrs_position::{Expr, RouteName};
use lrs_report_answers::{AtAnswer, FoundRow, RouteSegments, Told, Whereabouts};
use std::alloc::AllocError;
use std::io;
use std::io::Write;

/// The name of a route as text.
fn name_of(route: &RouteName) -> &str
    ensures { result.now ≡ route.now }
{
    match str::from_utf8(route.bytes()) {
        Ok(text) => text,
        Err(_) => unreachable!(),
    }
}

fn write_place<W: Write>(
    writer: &mut W,
    key: Key,
    route: &RouteName,
    found: &AtAnswer,
) -> io::Result<()>
    ensures { OnOk result (Appends (W.contents writer.old) (W.contents writer.new)
        (place_line key route.now found.now)) }
{
    let at = found.at;
    let link = found.ground.link;
    let mm = found.ground.mm;
    let direction = if found.ground.forward { "+" } else { "-" };
    let name = name_of(route);
    let count = found.hits.len();
    writeln!(
        writer,
        "{key},place,{name},{at},{link},{mm},{direction},{count}"
    )
}

fn write_hit<W: Write>(writer: &mut W, key: Key, hit: &Hit) -> io::Result<()>
    ensures { OnOk result (Appends (W.contents writer.old) (W.contents writer.new)
        (hit_line key hit.now)) }
{
    let number = hit.asset.number;
    let class = hit.asset.class;
    let side = hit.side;
    let offset = hit.asset.lateral;
    let value = hit.asset.value;
    let edit = hit.asset.entered_by;
    writeln!(
        writer,
        "{key},hit,{number},{class},{side},{offset},{value},{edit}"
    )
}

fn write_hits<W: Write>(writer: &mut W, key: Key, hits: &[Hit]) -> io::Result<()>
    ensures { OnOk result (Appends (W.contents writer.old) (W.contents writer.new)
        (flat_map (hit_line key) hits.now)) }
{
    for hit in hits {
        write_hit(writer, key, hit)?;
    }
    Ok(())
}

fn write_at<W: Write>(
    writer: &mut W,
    key: Key,
    route: &RouteName,
    found: &AtAnswer,
) -> io::Result<()>
    ensures { OnOk result (Appends (W.contents writer.old) (W.contents writer.new)
        (at_lines key route.now found.now)) }
{
    write_place(writer, key, route, found)?;
    write_hits(writer, key, found.hits.as_slice())
}

fn method_of(expression: &Expr) -> &'static str
    ensures { result.now ≡ method_text expression.now }
{
    match expression {
        Expr::Abs(_) => "abs",
        Expr::Rel(..) => "rel",
        Expr::Int(_) => "int",
    }
}

fn write_expression<W: Write>(
    writer: &mut W,
    key: Key,
    route: &RouteName,
    expression: &Expr,
) -> io::Result<()>
    ensures { OnOk result (Appends (W.contents writer.old) (W.contents writer.new)
        (expression_line key route.now expression.now)) }
{
    let name = name_of(route);
    let method = method_of(expression);
    let position = *expression;
    writeln!(writer, "{key},position,{name},{method},{position}")
}

fn write_expressions<W: Write>(
    writer: &mut W,
    key: Key,
    route: &RouteName,
    expressions: &[Expr],
) -> io::Result<()>
    ensures { OnOk result (Appends (W.contents writer.old) (W.contents writer.new)
        (flat_map (expression_line key route.now) expressions.now)) }
{
    for expression in expressions {
        write_expression(writer, key, route, expression)?;
    }
    Ok(())
}

/// Writes how many positions follow.
fn write_position_count<W: Write>(writer: &mut W, key: Key, count: usize) -> io::Result<()>
    ensures { OnOk result (Appends (W.contents writer.old) (W.contents writer.new)
        (fields_line (key ∷ codes "positions" ∷ decimal count ∷ []))) }
{
    writeln!(writer, "{key},positions,{count}")
}

/// Writes what is at a place: the millimetre and who holds it, and then the place by every method.
fn write_where<W: Write>(writer: &mut W, key: Key, found: &Whereabouts) -> io::Result<()>
    ensures { OnOk result (Appends (W.contents writer.old) (W.contents writer.new)
        (where_lines key found.now)) }
{
    write_at(writer, key, &found.route, &found.found)?;
    write_position_count(writer, key, found.positions.len())?;
    write_expressions(writer, key, &found.route, found.positions.as_slice())
}

fn write_on_link<W: Write>(
    writer: &mut W,
    key: Key,
    route: &RouteName,
    link: u32,
    distance: Frac,
) -> io::Result<()>
    ensures { OnOk result (Appends (W.contents writer.old) (W.contents writer.new)
        (told_lines key (Told.OnLink route.now link distance))) }
{
    let name = name_of(route);
    writeln!(writer, "{key},position,{name},link,{link}:{distance}")
}

fn write_row<W: Write>(writer: &mut W, key: Key, row: &FoundRow) -> io::Result<()>
    ensures { OnOk result (Appends (W.contents writer.old) (W.contents writer.new)
        (row_line key row.now)) }
{
    let from = row.from;
    let to = row.to;
    let side = row.side;
    let name = name_of(&row.route);
    writeln!(writer, "{key},row,{name},{from},{to},{side}")
}

fn write_rows<W: Write>(writer: &mut W, key: Key, rows: &[FoundRow]) -> io::Result<()>
    ensures { OnOk result (Appends (W.contents writer.old) (W.contents writer.new)
        (flat_map (row_line key) rows.now)) }
{
    for row in rows {
        write_row(writer, key, row)?;
    }
    Ok(())
}

/// Writes how many rows follow.
fn write_row_count<W: Write>(writer: &mut W, key: Key, count: usize) -> io::Result<()>
    ensures { OnOk result (Appends (W.contents writer.old) (W.contents writer.new)
        (fields_line (key ∷ codes "found" ∷ decimal count ∷ []))) }
{
    writeln!(writer, "{key},found,{count}")
}

fn write_found<W: Write>(writer: &mut W, key: Key, rows: &[FoundRow]) -> io::Result<()>
    ensures { OnOk result (Appends (W.contents writer.old) (W.contents writer.new)
        (found_lines key rows.now)) }
{
    write_row_count(writer, key, rows.len())?;
    write_rows(writer, key, rows)
}

fn write_value<W: Write>(writer: &mut W, value: Option<Value>) -> io::Result<()>
    ensures { OnOk result (Appends (W.contents writer.old) (W.contents writer.new)
        (value_field value)) }
{
    match value {
        Some(value) => write!(writer, ",{value}"),
        None => writer.write_all(b",-"),
    }
}

fn write_values<W: Write>(writer: &mut W, values: &[Option<Value>]) -> io::Result<()>
    ensures { OnOk result (Appends (W.contents writer.old) (W.contents writer.new)
        (flat_map value_field values.now)) }
{
    for value in values {
        write_value(writer, *value)?;
    }
    Ok(())
}

/// Writes where a segment begins and ends, without the end of the line.
fn write_stretch<W: Write>(writer: &mut W, key: Key, from: u64, to: u64) -> io::Result<()>
    ensures { OnOk result (Appends (W.contents writer.old) (W.contents writer.new)
        (fields (key ∷ codes "segment" ∷ decimal from ∷ decimal to ∷ []))) }
{
    write!(writer, "{key},segment,{from},{to}")
}

fn write_segment<W: Write>(writer: &mut W, key: Key, segment: &Segment) -> io::Result<()>
    ensures { OnOk result (Appends (W.contents writer.old) (W.contents writer.new)
        (segment_line key segment.now)) }
{
    write_stretch(writer, key, segment.from, segment.to)?;
    write_values(writer, segment.values.as_slice())?;
    writer.write_all(b"\n")
}

fn write_each<W: Write>(writer: &mut W, key: Key, mut segments: RouteSegments<'_>) -> io::Result<()>
    ensures { OnOk result (Appends (W.contents writer.old) (W.contents writer.new)
        (flat_map (segment_line key) segments.entry)) }
{
    while let Some(segment) = segments.first() {
        write_segment(writer, key, segment)?;
        segments.pass();
    }
    Ok(())
}

/// Writes how many segments follow.
fn write_segment_count<W: Write>(
    writer: &mut W,
    key: Key,
    route: &RouteName,
    side: Side,
    count: usize,
) -> io::Result<()>
    ensures { OnOk result (Appends (W.contents writer.old) (W.contents writer.new)
        (fields_line (key ∷ codes "segments" ∷ route.now ∷ side_text side ∷ decimal count ∷ []))) }
{
    let name = name_of(route);
    writeln!(writer, "{key},segments,{name},{side},{count}")
}

fn write_segments<W: Write>(
    writer: &mut W,
    key: Key,
    route: &RouteName,
    side: Side,
    count: usize,
    segments: RouteSegments<'_>,
) -> io::Result<()>
    requires { count ≡ length segments }
    ensures { OnOk result (Appends (W.contents writer.old) (W.contents writer.new)
        (segments_lines key route.now side segments.entry)) }
{
    write_segment_count(writer, key, route, side, count)?;
    write_each(writer, key, segments)
}

/// How many segments are told.
///
/// # Errors
/// When memory runs out.
pub(crate) fn count_segments(told: &Told<'_>) -> Result<usize, AllocError>
    ensures { IfOk result (λ count. count ≡ segment_count told.now) }
{
    match told {
        Told::Segments { segments, .. } => segments.count(),
        Told::At { .. }
        | Told::Translated { .. }
        | Told::OnLink { .. }
        | Told::Found(_)
        | Told::Route(_)
        | Told::Diagram(_)
        | Told::Totals(_)
        | Told::Where(_)
        | Told::Lengths(_)
        | Told::Combinations { .. }
        | Told::Rows { .. }
        | Told::Overlay { .. }
        | Told::Listing { .. }
        | Told::Health(_) => Ok(0),
    }
}

/// Writes what is told to a question of a sheet, under its key, where it is no list. So many segments are told.
pub(crate) fn write_told<W: Write>(
    writer: &mut W,
    key: Key,
    told: Told<'_>,
    count: usize,
) -> io::Result<()>
    requires counted { count ≡ segment_count told }
    requires no_list { list_kind told ≡ None }
    ensures { OnOk result (Appends (W.contents writer.old) (W.contents writer.new)
        (told_lines key told.entry)) }
{
    match told {
        Told::At { route, found } => write_at(writer, key, &route, &found),
        Told::Translated { route, position } => write_expression(writer, key, &route, &position),
        Told::OnLink {
            route,
            link,
            distance,
        } => write_on_link(writer, key, &route, link, distance),
        Told::Found(rows) => write_found(writer, key, rows.as_slice()),
        Told::Where(found) => write_where(writer, key, &found),
        Told::Segments {
            route,
            side,
            segments,
            ..
        } => write_segments(writer, key, &route, side, count, segments),
        Told::Route(_)
        | Told::Diagram(_)
        | Told::Totals(_)
        | Told::Lengths(_)
        | Told::Combinations { .. }
        | Told::Rows { .. }
        | Told::Overlay { .. }
        | Told::Listing { .. }
        | Told::Health(_) => Ok(()),
    }
}
