//! The axis of a diagram: chainage in metres, measures at the marks, referents, and the links that the route runs over.

ghost use Rattle.std.specs.Prelude.{◌≡◌, ◌<◌, OnOk};
ghost use Rattle.std.specs.Io.KnownBytes.{Appends};
ghost use Rattle.lrs_report.specs.Drawings.Axis.{axis_head, axis_labels, axis_lines, axis_text, links_text, shown_tick, tick_at, tick_line, tick_metres, tick_start, tick_text, ticks_text};

use crate::diagrams::diagram::Diagram;
use crate::diagrams::labels::write_labels;
use crate::diagrams::shapes::draw_each;
use crate::{DrawnPiece, Scale};
use lrs_measure::Metres;
use std::io;
use std::io::Write;

/// The names of the rows, and the axis itself.
const NAMES: &[u8] =
    b"<text x='40' y='130'>referents</text>\n<text x='40' y='260'>measures</text>\n<text x='40' y='480'>metres</text>\n<text x='40' y='635'>links</text>\n<path d='M1000 340h10000'/>\n";

/// The most ticks: ten steps are no shorter than what is shown, and one begins before it.
const MOST_TICKS: u64 = 12;

fn write_tick_line<W: Write>(writer: &mut W, x: u64) -> io::Result<()>
    ensures { OnOk result (Appends (W.contents writer.old) (W.contents writer.new) (tick_line x)) }
{
    write!(writer, "<path d='M{x} 340v50'/>\n")
}

fn write_tick_start<W: Write>(writer: &mut W, x: u64) -> io::Result<()>
    ensures { OnOk result (Appends (W.contents writer.old) (W.contents writer.new) (tick_start x)) }
{
    write!(writer, "<text text-anchor='middle' x='{x}' y='480'>")
}

fn write_tick_metres<W: Write>(writer: &mut W, chainage: u64) -> io::Result<()>
    ensures { OnOk result (Appends (W.contents writer.old) (W.contents writer.new)
        (tick_metres chainage)) }
{
    let metres = Metres::new(chainage);
    write!(writer, "{metres}</text>\n")
}

fn write_tick<W: Write>(writer: &mut W, scale: Scale, chainage: u64) -> io::Result<()>
    ensures { OnOk result (Appends (W.contents writer.old) (W.contents writer.new)
        (tick_text scale chainage)) }
{
    let x = scale.x_at(chainage);
    write_tick_line(writer, x)?;
    write_tick_start(writer, x)?;
    write_tick_metres(writer, chainage)
}

fn write_shown_tick<W: Write>(writer: &mut W, scale: Scale, i: u64) -> io::Result<()>
    requires { i < 12 }
    ensures { OnOk result (Appends (W.contents writer.old) (W.contents writer.new)
        (shown_tick scale i)) }
{
    let chainage = tick_at(scale, i);
    if scale.has_place(chainage) {
        return write_tick(writer, scale, chainage);
    }
    writer.write_all(b"")
}

/// The chainage of the tick of this number, counted from the last one at or before the start.
fn tick_at(scale: Scale, i: u64) -> u64
    requires { i < 12 }
    ensures { result ≡ tick_at scale i }
{
    let step = scale.step();
    (scale.from / step + i) * step
}

fn write_ticks<W: Write>(writer: &mut W, scale: Scale) -> io::Result<()>
    ensures { OnOk result (Appends (W.contents writer.old) (W.contents writer.new)
        (ticks_text scale)) }
{
    for i in 0..MOST_TICKS {
        write_shown_tick(writer, scale, i)?;
    }
    Ok(())
}

fn write_links<W: Write>(writer: &mut W, scale: Scale, pieces: &[DrawnPiece]) -> io::Result<()>
    ensures { OnOk result (Appends (W.contents writer.old) (W.contents writer.new)
        (links_text scale pieces.now)) }
{
    writer.write_all(b"<g class='p' transform='translate(0,600)'>\n")?;
    draw_each(writer, scale, pieces)?;
    writer.write_all(b"</g>\n<g transform='translate(20,635)'>\n")?;
    write_labels(writer, scale, pieces)
}

fn write_axis_head<W: Write>(writer: &mut W, top: u64) -> io::Result<()>
    ensures { OnOk result (Appends (W.contents writer.old) (W.contents writer.new)
        (axis_head top)) }
{
    writeln!(
        writer,
        "<g data-axis='true' transform='translate(0,{top})'>"
    )?;
    writer.write_all(NAMES)
}

fn write_lines<W: Write>(writer: &mut W, diagram: &Diagram) -> io::Result<()>
    ensures { OnOk result (Appends (W.contents writer.old) (W.contents writer.new)
        (axis_lines diagram.now)) }
{
    draw_each(writer, diagram.scale, diagram.referents.as_slice())?;
    draw_each(writer, diagram.scale, diagram.marks.as_slice())?;
    write_ticks(writer, diagram.scale)?;
    write_links(writer, diagram.scale, diagram.pieces.as_slice())
}

fn write_axis_labels<W: Write>(writer: &mut W, diagram: &Diagram) -> io::Result<()>
    ensures { OnOk result (Appends (W.contents writer.old) (W.contents writer.new)
        (axis_labels diagram.now)) }
{
    writer.write_all(b"</g>\n<g transform='translate(20,130)'>\n")?;
    write_labels(writer, diagram.scale, diagram.referents.as_slice())?;
    writer.write_all(b"</g>\n<g transform='translate(20,260)'>\n")?;
    write_labels(writer, diagram.scale, diagram.marks.as_slice())
}

/// Writes the axis below this height.
pub(crate) fn write_axis<W: Write>(writer: &mut W, diagram: &Diagram, top: u64) -> io::Result<()>
    ensures { OnOk result (Appends (W.contents writer.old) (W.contents writer.new)
        (axis_text diagram.now top)) }
{
    write_axis_head(writer, top)?;
    write_lines(writer, diagram)?;
    write_axis_labels(writer, diagram)?;
    writer.write_all(b"</g>\n</g>\n")
}
