//! Shapes: what is drawn along a line, one behind the other.

ghost use Rattle.std.specs.Prelude.{◌≡◌, OnOk};
ghost use Rattle.std.specs.List.{flat_map};
ghost use Rattle.std.specs.Io.KnownBytes.{Appends};
ghost use Rattle.lrs_report.specs.Drawings.Shapes.{direction_text, link_from, link_text, link_to, piece_title, row_start, row_title, value_text};

use crate::Scale;
use crate::diagrams::diagram::{DrawnPiece, DrawnRow};
use lrs_element::Mark;
use lrs_events::Value;
use lrs_position::Referent;
use std::io;
use std::io::Write;

/// What has a shape in a diagram.
pub(crate) trait Shape {
    ghost use Rattle.std.specs.Prelude.{ℕ, List, OnOk};
    ghost use Rattle.std.specs.Io.KnownBytes.{Appends};
    ghost use Rattle.lrs_report.specs.declared.diagrams.scale.Scale.{Scale};

    /// The text that draws it.
    ghost drawn: { Scale → Self → List ℕ };

    fn draw<W: Write>(&self, scale: Scale, writer: &mut W) -> io::Result<()>
        ensures { OnOk result (Appends (W.contents writer.old) (W.contents writer.new)
            (drawn scale self.now)) };
}

/// Draws each of these.
pub(crate) fn draw_each<W: Write, T: Shape>(
    writer: &mut W,
    scale: Scale,
    shapes: &[T],
) -> io::Result<()>
    ensures { OnOk result (Appends (W.contents writer.old) (W.contents writer.new)
        (flat_map (T.drawn scale) shapes.now)) }
{
    for shape in shapes {
        shape.draw(scale, writer)?;
    }
    Ok(())
}

/// Writes a value, or a dash where there is none.
pub(crate) fn write_value<W: Write>(writer: &mut W, value: Option<Value>) -> io::Result<()>
    ensures { OnOk result (Appends (W.contents writer.old) (W.contents writer.new)
        (value_text value)) }
{
    match value {
        Some(value) => writer.write_all(value.bytes()),
        None => writer.write_all(b"-"),
    }
}

/// Begins the tick or the box of a row.
fn start_row<W: Write>(writer: &mut W, scale: Scale, row: &DrawnRow) -> io::Result<()>
    ensures { OnOk result (Appends (W.contents writer.old) (W.contents writer.new)
        (row_start scale row.now)) }
{
    let x = scale.x_at(row.from);
    let width = scale.width_of(row.from, row.to);
    if row.is_point {
        write!(writer, "<path d='M{x} -60v120'><title>")
    } else {
        write!(writer, "<path d='M{x} 0h{width}'><title>")
    }
}

fn title_row<W: Write>(writer: &mut W, row: &DrawnRow) -> io::Result<()>
    ensures { OnOk result (Appends (W.contents writer.old) (W.contents writer.new)
        (row_title row.now)) }
{
    let asset = row.asset;
    write!(writer, "{asset}: ")?;
    write_value(writer, row.value)?;
    writer.write_all(b"</title></path>\n")
}

impl Shape for DrawnRow {
    ghost use Rattle.lrs_report.specs.Drawings.Shapes.{row_text};

    ghost drawn = { row_text };

    fn draw<W: Write>(&self, scale: Scale, writer: &mut W) -> io::Result<()> {
        start_row(writer, scale, self)?;
        title_row(writer, self)
    }
}

pub(crate) fn direction_of(is_forward: bool) -> &'static str
    ensures { result.now ≡ direction_text is_forward }
{
    if is_forward { "+" } else { "-" }
}

fn write_link_from<W: Write>(writer: &mut W, link: u32, from: u32) -> io::Result<()>
    ensures { OnOk result (Appends (W.contents writer.old) (W.contents writer.new)
        (link_from link from)) }
{
    write!(writer, "{link}:{from}:")
}

fn write_link_to<W: Write>(writer: &mut W, to: u32, is_forward: bool) -> io::Result<()>
    ensures { OnOk result (Appends (W.contents writer.old) (W.contents writer.new)
        (link_to to is_forward)) }
{
    let direction = direction_of(is_forward);
    write!(writer, "{to}:{direction}</title></path>\n")
}

fn title_piece<W: Write>(writer: &mut W, drawn: &DrawnPiece) -> io::Result<()>
    ensures { OnOk result (Appends (W.contents writer.old) (W.contents writer.new)
        (piece_title drawn.now)) }
{
    write_link_from(writer, drawn.piece.link, drawn.piece.from)?;
    write_link_to(writer, drawn.piece.to, drawn.piece.forward)
}

fn box_piece<W: Write>(writer: &mut W, scale: Scale, drawn: &DrawnPiece) -> io::Result<()>
    ensures { OnOk result (Appends (W.contents writer.old) (W.contents writer.new)
        (link_text scale drawn.now)) }
{
    let x = scale.x_at(drawn.from);
    let width = scale.width_of(drawn.from, drawn.to);
    write!(writer, "<path d='M{x} 0h{width}'><title>")?;
    title_piece(writer, drawn)
}

impl Shape for DrawnPiece {
    ghost use Rattle.lrs_report.specs.Drawings.Shapes.{piece_text};

    ghost drawn = { piece_text };

    fn draw<W: Write>(&self, scale: Scale, writer: &mut W) -> io::Result<()> {
        if self.from < scale.to && scale.from < self.to {
            return box_piece(writer, scale, self);
        }
        writer.write_all(b"")
    }
}

impl Shape for Mark {
    ghost use Rattle.lrs_report.specs.Drawings.Shapes.{mark_text};

    ghost drawn = { mark_text };

    fn draw<W: Write>(&self, scale: Scale, writer: &mut W) -> io::Result<()> {
        if scale.has_place(self.chainage) {
            let x = scale.x_at(self.chainage);
            return writeln!(writer, "<path d='M{x} 280v60'/>");
        }
        writer.write_all(b"")
    }
}

impl Shape for Referent {
    ghost use Rattle.lrs_report.specs.Drawings.Shapes.{referent_text};

    ghost drawn = { referent_text };

    fn draw<W: Write>(&self, scale: Scale, writer: &mut W) -> io::Result<()> {
        if scale.has_place(self.at) {
            let x = scale.x_at(self.at);
            return writeln!(writer, "<path d='M{x} 150v190'/>");
        }
        writer.write_all(b"")
    }
}
