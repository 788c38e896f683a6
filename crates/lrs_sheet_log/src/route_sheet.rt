//! A route as an edit sheet: the records of the commands that make it, written without taking memory.

ghost use Rattle.std.specs.Prelude.{◌≡◌, ◌++◌, ◌∷◌, [], OnOk, if◌then◌else◌, length};
ghost use Rattle.std.specs.List.{flat_map};
ghost use Rattle.std.specs.Io.KnownBytes.{Appends};
ghost use Rattle.lrs_measure.specs.Lists.{is_nothing};
ghost use Rattle.lrs_machine.specs.Lines.{mark_text, marks_text, piece_text, pieces_text};
ghost use Rattle.lrs_sheet_log.specs.RouteSheets as spec;
ghost use Rattle.lrs_sheet_log.specs.RouteSheets.{calibrated, command_line, laid, laid_with_referents, route_sheet, set_on};

use crate::lines::write_header;
use lrs_element::{Mark, Piece};
use lrs_position::{Referent, Route};
use std::io;
use std::io::Write;

/// Writes the key, the verb and the first field of a command under its verb and its first field: what stands before that
/// in the key, it, what stands between the two, it again, and a comma.
fn write_head<W: Write>(
    writer: &mut W,
    before: &[u8],
    name: &[u8],
    between: &[u8],
) -> io::Result<()>
    ensures { OnOk result (Appends (W.contents writer.old) (W.contents writer.new)
        (before.now ++ (name.now ++ (between.now ++ (name.now ++ 44 ∷ []))))) }
{
    writer.write_all(before)?;
    writer.write_all(name)?;
    writer.write_all(between)?;
    writer.write_all(name)?;
    writer.write_all(b",")
}

/// Writes the space before a word, unless it is the first.
fn write_space<W: Write>(writer: &mut W, is_first: bool) -> io::Result<()>
    ensures { OnOk result (Appends (W.contents writer.old) (W.contents writer.new)
        (if is_first then [] else 32 ∷ [])) }
{
    if is_first {
        return Ok(());
    }
    writer.write_all(b" ")
}

/// Writes a piece.
fn write_piece<W: Write>(writer: &mut W, piece: &Piece) -> io::Result<()>
    ensures { OnOk result (Appends (W.contents writer.old) (W.contents writer.new)
        (piece_text piece.now)) }
{
    let Piece { link, from, to, .. } = *piece;
    let direction = if piece.forward { "+" } else { "-" };
    write!(writer, "{link}:{from}:{to}:{direction}")
}

/// Writes pieces between spaces.
fn write_pieces<W: Write>(writer: &mut W, pieces: &[Piece]) -> io::Result<()>
    ensures { OnOk result (Appends (W.contents writer.old) (W.contents writer.new)
        (pieces_text pieces.now)) }
{
    for (i, piece) in pieces.iter().enumerate() {
        write_space(writer, i == 0)?;
        write_piece(writer, piece)?;
    }
    Ok(())
}

/// Writes a mark.
fn write_mark<W: Write>(writer: &mut W, mark: &Mark) -> io::Result<()>
    ensures { OnOk result (Appends (W.contents writer.old) (W.contents writer.new)
        (mark_text mark.now)) }
{
    let Mark { chainage, measure } = *mark;
    write!(writer, "{chainage}:{measure}")
}

/// Writes marks between spaces.
fn write_marks<W: Write>(writer: &mut W, marks: &[Mark]) -> io::Result<()>
    ensures { OnOk result (Appends (W.contents writer.old) (W.contents writer.new)
        (marks_text marks.now)) }
{
    for (i, mark) in marks.iter().enumerate() {
        write_space(writer, i == 0)?;
        write_mark(writer, mark)?;
    }
    Ok(())
}

/// Writes the record that lays a route over its course, with these marks.
fn write_laid<W: Write>(writer: &mut W, route: &Route, marks: &[Mark]) -> io::Result<()>
    ensures { OnOk result (Appends (W.contents writer.old) (W.contents writer.new)
        (command_line (laid route.now marks.now))) }
{
    write_head(writer, b"route-", route.name.bytes(), b",route,")?;
    write_pieces(writer, route.course.pieces())?;
    writer.write_all(b",")?;
    write_marks(writer, marks)?;
    writer.write_all(b",,,,,,\n")
}

/// Writes the record that sets a referent in its millimetre.
fn write_referent<W: Write>(writer: &mut W, route: &Route, referent: &Referent) -> io::Result<()>
    ensures { OnOk result (Appends (W.contents writer.old) (W.contents writer.new)
        (command_line (set_on route.now.name referent.now))) }
{
    let at = referent.at;
    write_head(writer, b"ref-", referent.name.bytes(), b",ref,")?;
    writer.write_all(route.name.bytes())?;
    writeln!(writer, ",abs,{at},,,,,")
}

/// Writes the record of each referent.
fn write_referents<W: Write>(writer: &mut W, route: &Route, refs: &[Referent]) -> io::Result<()>
    ensures { OnOk result (Appends (W.contents writer.old) (W.contents writer.new)
        (flat_map (λ x. command_line (set_on route.now.name x)) refs.now)) }
{
    for referent in refs {
        write_referent(writer, route, referent)?;
    }
    Ok(())
}

/// Writes the record that gives a route its marks.
fn write_calibrated<W: Write>(writer: &mut W, route: &Route) -> io::Result<()>
    ensures { OnOk result (Appends (W.contents writer.old) (W.contents writer.new)
        (command_line (calibrated route.now))) }
{
    let name = route.name.bytes();
    write_head(writer, b"recalibrate-", name, b",recalibrate,")?;
    write_marks(writer, route.marks.list())?;
    writer.write_all(b",,,,,,,\n")
}

/// Marks by which the measure is the chainage.
fn chainage_marks(route: &Route) -> [Mark; 2]
    ensures { result ≡ spec.chainage_marks (length route.now.course) }
{
    let end = route.length();
    [
        Mark {
            chainage: 0,
            measure: 0,
        },
        Mark {
            chainage: end,
            measure: end,
        },
    ]
}

/// Writes the records of a route with referents.
fn write_with_referents<W: Write>(writer: &mut W, route: &Route) -> io::Result<()>
    ensures { OnOk result (Appends (W.contents writer.old) (W.contents writer.new)
        (flat_map command_line (laid_with_referents route.now))) }
{
    let marks = chainage_marks(route);
    write_laid(writer, route, &marks)?;
    write_referents(writer, route, route.refs.as_slice())?;
    write_calibrated(writer, route)
}

/// Whether a route has no referents.
fn lacks_referents(route: &Route) -> bool
    ensures { result ≡ is_nothing route.now.refs }
{
    route.refs.as_slice().is_empty()
}

/// Writes an edit sheet of the commands that make a route on its links: `route`; with referents, `route` with the chainage
/// as the measure, `ref` for each of them in its millimetre, and `recalibrate`. A key is the verb, a dash and the name of
/// the route or referent. It takes no memory beyond the writer's, and does not flush the writer.
///
/// # Errors
/// That of the writer. Part of the sheet may be written then.
pub fn write_route_sheet<W: Write>(writer: &mut W, route: &Route) -> io::Result<()>
    ensures { OnOk result (Appends (W.contents writer.old) (W.contents writer.new)
        (route_sheet route.now)) }
{
    write_header(writer)?;
    if lacks_referents(route) {
        write_laid(writer, route, route.marks.list())
    } else {
        write_with_referents(writer, route)
    }
}
