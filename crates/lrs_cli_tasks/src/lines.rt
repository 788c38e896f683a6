//! Answers, written without taking memory.

ghost use Rattle.std.specs.Prelude.{◌≡◌, OnOk};
ghost use Rattle.std.specs.List.{flat_map};
ghost use Rattle.std.specs.Io.KnownBytes.{Appends};
ghost use Rattle.lrs_machine.specs.Lines.{method_text};
ghost use Rattle.lrs_report_answers.specs.Overlay.{overlay_text};
ghost use Rattle.lrs_report_lists.specs.Lists.{rows_text};
ghost use Rattle.lrs_cli_tasks.specs.Lines.{at_text, expression_line, found_text, hit_text, link_position_text, listing_text, place_text, position_line, row_text, told_text, total_text, totals_text, whereabouts_text};

use lrs_desk::Inventory;
use lrs_machine::{Hit, Listing, OverlayWanted, RowsWanted, Total};
use lrs_measure::Frac;
use lrs_position::{Expr, RouteName};
use lrs_report::{strip_of, write_diagram};
use lrs_report_answers::{
    AtAnswer, FoundRow, Told, Whereabouts, write_combinations, write_overlay,
};
use lrs_report_lists::{
    write_classes, write_gone, write_history, write_lengths, write_links, write_marks,
    write_pieces, write_refs, write_routes, write_rows,
};
use lrs_sheet_log::{write_log, write_log_of_key, write_route_sheet};
use std::alloc::Global;
use std::io;
use std::io::Write;

/// Writes a millimetre of a route, and the one of a link that it is.
fn write_place<W: Write>(writer: &mut W, route: &RouteName, found: &AtAnswer) -> io::Result<()>
    ensures { OnOk result (Appends (W.contents writer.old) (W.contents writer.new)
        (place_text route.now found.now)) }
{
    let at = found.at;
    let link = found.ground.link;
    let mm = found.ground.mm;
    let direction = if found.ground.forward { "+" } else { "-" };
    writer.write_all(route.bytes())?;
    writeln!(writer, " {at} {link} {mm} {direction}")
}

/// Writes the line of an asset that holds a millimetre.
fn write_hit<W: Write>(writer: &mut W, hit: &Hit) -> io::Result<()>
    ensures { OnOk result (Appends (W.contents writer.old) (W.contents writer.new)
        (hit_text hit.now)) }
{
    let number = hit.asset.number;
    let class = hit.asset.class;
    let side = hit.side;
    let offset = hit.asset.lateral;
    let value = hit.asset.value;
    let edit = hit.asset.entered_by;
    writeln!(writer, "{number} {class} {side} {offset} {value} {edit}")
}

/// Writes the lines of assets that hold a millimetre.
fn write_hits<W: Write>(writer: &mut W, hits: &[Hit]) -> io::Result<()>
    ensures { OnOk result (Appends (W.contents writer.old) (W.contents writer.new)
        (flat_map hit_text hits.now)) }
{
    for hit in hits {
        write_hit(writer, hit)?;
    }
    Ok(())
}

/// Writes where a position stands, and a line for each asset that holds it.
fn write_at<W: Write>(writer: &mut W, route: &RouteName, found: &AtAnswer) -> io::Result<()>
    ensures { OnOk result (Appends (W.contents writer.old) (W.contents writer.new)
        (at_text route.now found.now)) }
{
    write_place(writer, route, found)?;
    write_hits(writer, found.hits.as_slice())
}

/// Writes the line of a row of an asset.
fn write_row<W: Write>(writer: &mut W, row: &FoundRow) -> io::Result<()>
    ensures { OnOk result (Appends (W.contents writer.old) (W.contents writer.new)
        (row_text row.now)) }
{
    let from = row.from;
    let to = row.to;
    let side = row.side;
    writer.write_all(row.route.bytes())?;
    writeln!(writer, " {from} {to} {side}")
}

/// Writes a line for each row of an asset.
fn write_found<W: Write>(writer: &mut W, rows: &[FoundRow]) -> io::Result<()>
    ensures { OnOk result (Appends (W.contents writer.old) (W.contents writer.new)
        (found_text rows.now)) }
{
    for row in rows {
        write_row(writer, row)?;
    }
    Ok(())
}

/// Writes the line of the totals of a class.
fn write_total<W: Write>(writer: &mut W, total: &Total) -> io::Result<()>
    ensures { OnOk result (Appends (W.contents writer.old) (W.contents writer.new)
        (total_text total.now)) }
{
    let class = total.class;
    let entered = total.entered;
    let retired = total.retired;
    let abandoned = total.abandoned;
    let present = total.present;
    writeln!(writer, "{class} {entered} {retired} {abandoned} {present}")
}

/// Writes a line for each class.
fn write_totals<W: Write>(writer: &mut W, totals: &[Total]) -> io::Result<()>
    ensures { OnOk result (Appends (W.contents writer.old) (W.contents writer.new)
        (totals_text totals.now)) }
{
    for total in totals {
        write_total(writer, total)?;
    }
    Ok(())
}

/// Writes the line of a position expression.
fn write_expression<W: Write>(writer: &mut W, expression: Expr) -> io::Result<()>
    ensures { OnOk result (Appends (W.contents writer.old) (W.contents writer.new)
        (expression_line expression)) }
{
    writeln!(writer, "{expression}")
}

/// Writes the line of a position on a link: the link, and the distance in millimetres from its start.
fn write_link_position<W: Write>(writer: &mut W, link: u32, distance: Frac) -> io::Result<()>
    ensures { OnOk result (Appends (W.contents writer.old) (W.contents writer.new)
        (link_position_text link distance)) }
{
    writeln!(writer, "{link}:{distance}")
}

/// The word for the method of a position.
fn method_of(position: Expr) -> &'static str
    ensures { result.now ≡ method_text position }
{
    match position {
        Expr::Abs(_) => "abs",
        Expr::Rel(..) => "rel",
        Expr::Int(_) => "int",
    }
}

/// Writes the line of a position: its method, and the position.
fn write_position<W: Write>(writer: &mut W, position: Expr) -> io::Result<()>
    ensures { OnOk result (Appends (W.contents writer.old) (W.contents writer.new)
        (position_line position)) }
{
    let method = method_of(position);
    writeln!(writer, "{method} {position}")
}

/// Writes a line for each position.
fn write_positions<W: Write>(writer: &mut W, positions: &[Expr]) -> io::Result<()>
    ensures { OnOk result (Appends (W.contents writer.old) (W.contents writer.new)
        (flat_map position_line positions.now)) }
{
    for position in positions {
        write_position(writer, *position)?;
    }
    Ok(())
}

/// Writes what is at a place: the millimetre and a line for each asset that holds it, and then a line for each position.
fn write_whereabouts<W: Write>(writer: &mut W, found: &Whereabouts) -> io::Result<()>
    ensures { OnOk result (Appends (W.contents writer.old) (W.contents writer.new)
        (whereabouts_text found.now)) }
{
    write_at(writer, &found.route, &found.found)?;
    write_positions(writer, found.positions.as_slice())
}

/// Writes how many edits were accepted.
fn write_health<W: Write>(writer: &mut W, edits: u64) -> io::Result<()>
    ensures { OnOk result (Appends (W.contents writer.old) (W.contents writer.new)
        (told_text (Told.Health edits))) }
{
    writeln!(writer, "{edits}")
}

/// Writes a list of an inventory: a header, and a line for each entry; of the log, an edit sheet.
fn write_listing<W: Write>(
    writer: &mut W,
    inventory: &Inventory,
    listing: &Listing,
) -> io::Result<()>
    ensures { OnOk result (Appends (W.contents writer.old) (W.contents writer.new)
        (listing_text inventory.now listing.now)) }
{
    let kept = inventory.kept();
    match listing {
        Listing::Routes => write_routes(writer, kept),
        Listing::Links => write_links(writer, kept),
        Listing::Classes => write_classes(writer, kept),
        Listing::Refs { route, exact } => write_refs(writer, kept, route.as_ref(), *exact),
        Listing::Marks(route) => write_marks(writer, kept, route.as_ref()),
        Listing::Pieces(route) => write_pieces(writer, kept, route.as_ref()),
        Listing::Gone(wanted) => write_gone(writer, kept, wanted),
        Listing::History(asset) => write_history(writer, kept, *asset),
        Listing::Log { from, until } => write_log(writer, kept, *from, *until),
        Listing::LogOfKey(key) => {
            let _ = write_log_of_key(writer, kept, key)?;
            Ok(())
        }
    }
}

/// Writes the rows of an inventory that are wanted, as CSV.
fn write_wanted<W: Write>(
    alloc: Global,
    writer: &mut W,
    inventory: &Inventory,
    wanted: &RowsWanted,
) -> io::Result<()>
    ensures { OnOk result (Appends (W.contents writer.old) (W.contents writer.new)
        (rows_text wanted.now inventory.now)) }
{
    write_rows(alloc, writer, inventory.kept(), wanted)
}

/// Writes the segments of an inventory that are wanted, with their values side by side, as CSV.
fn write_segments<W: Write>(
    alloc: Global,
    writer: &mut W,
    inventory: &Inventory,
    wanted: &OverlayWanted,
) -> io::Result<()>
    ensures { OnOk result (Appends (W.contents writer.old) (W.contents writer.new)
        (overlay_text wanted.now inventory.now)) }
{
    write_overlay(alloc, writer, inventory, wanted)
}

/// Writes what is told to a question, in lines; lists as CSV, a route as an edit sheet, and a diagram as an SVG picture.
/// Rows and an overlay take memory for one route at a time; all else takes none beyond the writer's. It does not flush the
/// writer.
///
/// # Errors
/// That of the writer, and one of the kind `OutOfMemory`. Part of the lines may be written then.
pub(crate) fn write_told<W: Write>(alloc: Global, writer: &mut W, told: Told<'_>) -> io::Result<()>
    ensures { OnOk result (Appends (W.contents writer.old) (W.contents writer.new)
        (told_text told.entry)) }
{
    match told {
        Told::At { route, found } => write_at(writer, &route, &found),
        Told::Route(route) => write_route_sheet(writer, &route),
        Told::Segments {
            route,
            side,
            length,
            classes,
            segments,
        } => strip_of(writer, &route, side, length, classes.as_slice(), segments),
        Told::Translated { position, .. } => write_expression(writer, position),
        Told::OnLink { link, distance, .. } => write_link_position(writer, link, distance),
        Told::Diagram(diagram) => write_diagram(writer, &diagram),
        Told::Totals(totals) => write_totals(writer, totals.as_slice()),
        Told::Found(rows) => write_found(writer, rows.as_slice()),
        Told::Where(found) => write_whereabouts(writer, &found),
        Told::Lengths(rows) => write_lengths(writer, rows.as_slice()),
        Told::Combinations {
            classes,
            combinations,
        } => write_combinations(writer, classes.as_slice(), combinations.as_slice()),
        Told::Rows { wanted, inventory } => write_wanted(alloc, writer, inventory, &wanted),
        Told::Overlay { wanted, inventory } => write_segments(alloc, writer, inventory, &wanted),
        Told::Listing { listing, inventory } => write_listing(writer, inventory, &listing),
        Told::Health(edits) => write_health(writer, edits),
    }
}
