//! The text of a difference.

ghost use Rattle.std.specs.Prelude.{◌≡◌, ◌∷◌, ◌++◌, [], OnOk, codes, if◌then◌else◌};
ghost use Rattle.std.specs.Io.KnownBytes.{Appends};
ghost use Rattle.lrs_machine.specs.Lines.{fields, mark_text, marks_text, piece_text, pieces_text};
ghost use Rattle.lrs_report_lists.specs.CoursePieces.{pieces_of};
ghost use Rattle.lrs_report_lists.specs.Lines.{csv_line};
ghost use Rattle.lrs_difference.specs.declared.line.Item.TheVariants as item;
ghost use Rattle.lrs_difference.specs.Lines as spec;
ghost use Rattle.lrs_difference.specs.Lines.{asset_fields, item_fields, line_text, lines_text};

use crate::line::{AssetFacts, Item, Line, Sign};
use lrs_element::{Course, Mark, Marks, Piece};
use lrs_events::{ClassName, Kind, Side};
use lrs_position::{RefName, RouteName};
use std::io;
use std::io::Write;

/// `-` for what is removed, `+` for what is added.
pub fn sign_text(sign: Sign) -> &'static str
    ensures { result.now ≡ spec.sign_text sign }
{
    match sign {
        Sign::Removed => "-",
        Sign::Added => "+",
    }
}

pub(crate) fn write_link<W: Write>(writer: &mut W, number: u32, length: u32) -> io::Result<()>
    ensures { OnOk result (Appends (W.contents writer.old) (W.contents writer.new)
        (csv_line (item_fields (item.Link number length)))) }
{
    writeln!(writer, "link,{number},{length}")
}

pub(crate) fn write_class<W: Write>(writer: &mut W, name: ClassName, kind: Kind) -> io::Result<()>
    ensures { OnOk result (Appends (W.contents writer.old) (W.contents writer.new)
        (csv_line (item_fields (item.Class name kind)))) }
{
    writeln!(writer, "class,{name},{kind}")
}

/// Writes the space before a word, unless it is the first.
fn write_space<W: Write>(writer: &mut W, is_first: bool) -> io::Result<()>
    ensures { OnOk result (Appends (W.contents writer.old) (W.contents writer.new)
        (if is_first then [] else 32 ∷ [])) }
{
    if is_first {
        return Ok(());
    }
    writer.write_all(b" ")
}

fn write_piece<W: Write>(writer: &mut W, piece: &Piece) -> io::Result<()>
    ensures { OnOk result (Appends (W.contents writer.old) (W.contents writer.new)
        (piece_text piece.now)) }
{
    let Piece { link, from, to, .. } = *piece;
    let direction = if piece.forward { "+" } else { "-" };
    write!(writer, "{link}:{from}:{to}:{direction}")
}

/// Writes pieces between spaces.
fn write_pieces<W: Write>(writer: &mut W, pieces: &[Piece]) -> io::Result<()>
    ensures { OnOk result (Appends (W.contents writer.old) (W.contents writer.new)
        (pieces_text pieces.now)) }
{
    for (i, piece) in pieces.iter().enumerate() {
        write_space(writer, i == 0)?;
        write_piece(writer, piece)?;
    }
    Ok(())
}

/// Writes the pieces of a course.
fn write_course<W: Write>(writer: &mut W, course: &Course) -> io::Result<()>
    ensures { OnOk result (Appends (W.contents writer.old) (W.contents writer.new)
        (pieces_text (pieces_of course.now))) }
{
    write_pieces(writer, course.pieces())
}

fn write_mark<W: Write>(writer: &mut W, mark: &Mark) -> io::Result<()>
    ensures { OnOk result (Appends (W.contents writer.old) (W.contents writer.new)
        (mark_text mark.now)) }
{
    let Mark { chainage, measure } = *mark;
    write!(writer, "{chainage}:{measure}")
}

/// Writes marks between spaces.
fn write_marks<W: Write>(writer: &mut W, marks: &[Mark]) -> io::Result<()>
    ensures { OnOk result (Appends (W.contents writer.old) (W.contents writer.new)
        (marks_text marks.now)) }
{
    for (i, mark) in marks.iter().enumerate() {
        write_space(writer, i == 0)?;
        write_mark(writer, mark)?;
    }
    Ok(())
}

/// Writes what stands before the pieces of a route.
fn write_route_head<W: Write>(writer: &mut W, name: &RouteName) -> io::Result<()>
    ensures { OnOk result (Appends (W.contents writer.old) (W.contents writer.new)
        (codes "route" ++ 44 ∷ (name.now ++ 44 ∷ []))) }
{
    writer.write_all(b"route,")?;
    writer.write_all(name.bytes())?;
    writer.write_all(b",")
}

pub(crate) fn write_route<W: Write>(
    writer: &mut W,
    name: &RouteName,
    course: &Course,
    marks: &Marks,
) -> io::Result<()>
    ensures { OnOk result (Appends (W.contents writer.old) (W.contents writer.new)
        (csv_line (item_fields (item.Route name.now course.now marks.now)))) }
{
    write_route_head(writer, name)?;
    write_course(writer, course)?;
    writer.write_all(b",")?;
    write_marks(writer, marks.list())?;
    writer.write_all(b"\n")
}

pub(crate) fn write_referent<W: Write>(
    writer: &mut W,
    name: &RefName,
    link: u32,
    mm: u32,
) -> io::Result<()>
    ensures { OnOk result (Appends (W.contents writer.old) (W.contents writer.new)
        (csv_line (item_fields (item.Referent name.now link mm)))) }
{
    writer.write_all(b"ref,")?;
    writer.write_all(name.bytes())?;
    writeln!(writer, ",{link},{mm}")
}

/// Writes the fields of an asset.
fn write_facts<W: Write>(writer: &mut W, asset: &AssetFacts) -> io::Result<()>
    ensures { OnOk result (Appends (W.contents writer.old) (W.contents writer.new)
        (fields (asset_fields asset.now))) }
{
    let AssetFacts {
        number,
        class,
        value,
        lateral,
    } = *asset;
    write!(writer, "{number},{class},{value},{lateral}")
}

pub(crate) fn write_asset<W: Write>(writer: &mut W, asset: &AssetFacts) -> io::Result<()>
    ensures { OnOk result (Appends (W.contents writer.old) (W.contents writer.new)
        (csv_line (item_fields (item.Asset asset.now)))) }
{
    writer.write_all(b"asset,")?;
    write_facts(writer, asset)?;
    writer.write_all(b"\n")
}

pub(crate) fn write_held<W: Write>(
    writer: &mut W,
    asset: &AssetFacts,
    link: u32,
    from: u32,
    to: u32,
    side: Side,
) -> io::Result<()>
    ensures { OnOk result (Appends (W.contents writer.old) (W.contents writer.new)
        (csv_line (item_fields (item.Holds asset.now link from to side)))) }
{
    writer.write_all(b"holds,")?;
    write_facts(writer, asset)?;
    writeln!(writer, ",{link},{from},{to},{side}")
}

fn write_item<W: Write>(writer: &mut W, item: &Item) -> io::Result<()>
    ensures { OnOk result (Appends (W.contents writer.old) (W.contents writer.new)
        (csv_line (item_fields item.now))) }
{
    match item {
        Item::Link { number, length } => write_link(writer, *number, *length),
        Item::Class { name, kind } => write_class(writer, *name, *kind),
        Item::Route {
            name,
            course,
            marks,
        } => write_route(writer, name, course, marks),
        Item::Referent { name, link, mm } => write_referent(writer, name, *link, *mm),
        Item::Asset(asset) => write_asset(writer, asset),
        Item::Holds {
            asset,
            link,
            from,
            to,
            side,
        } => write_held(writer, asset, *link, *from, *to, *side),
    }
}

pub(crate) fn write_sign<W: Write>(writer: &mut W, sign: Sign) -> io::Result<()>
    ensures { OnOk result (Appends (W.contents writer.old) (W.contents writer.new)
        (spec.sign_text sign ++ 44 ∷ [])) }
{
    let sign = sign_text(sign);
    write!(writer, "{sign},")
}

/// Writes a line: its sign, the kind of its item, and the item. It takes no memory beyond the writer's, and does not flush
/// the writer.
///
/// # Errors
/// That of the writer. Part of the line may be written then.
pub fn write_line<W: Write>(writer: &mut W, line: &Line) -> io::Result<()>
    ensures { OnOk result (Appends (W.contents writer.old) (W.contents writer.new)
        (line_text line.now)) }
{
    write_sign(writer, line.sign)?;
    write_item(writer, &line.item)
}

/// Writes lines, one after another, as `write_line` does.
///
/// # Errors
/// That of the writer. Part of the lines may be written then.
pub fn write_lines<W: Write>(writer: &mut W, lines: &[Line]) -> io::Result<()>
    ensures { OnOk result (Appends (W.contents writer.old) (W.contents writer.new)
        (lines_text lines.now)) }
{
    for line in lines {
        write_line(writer, line)?;
    }
    Ok(())
}
