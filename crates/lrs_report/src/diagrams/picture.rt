//! A diagram as an SVG picture (SVG 1.1).

ghost use Rattle.std.specs.Prelude.{◌≡◌, ◌<◌, ◌^◌, OnOk};
ghost use Rattle.std.specs.Io.KnownBytes.{Appends};
ghost use Rattle.lrs_report.specs.Drawings.Pictures.{bands_height, bar_label, bar_line, bar_text, data_text, diagram_text, head_text, heading_text, name_text, page_text, parts_text, range_text, root_text, start_text, title_text};

use crate::diagrams::axis::write_axis;
use crate::diagrams::bands::{FIRST_TOP, PITCH, write_bands};
use crate::{Diagram, Scale};
use lrs_measure::Metres;
use std::io;
use std::io::Write;

/// How high the axis is with all that stands at it.
const AXIS_HEIGHT: u64 = 720;

/// What is free below the last band.
const FOOT: u64 = 60;

const STYLE: &[u8] =
    b"<style>text{font:100px monospace}.h{font-size:130px}path{fill:none;stroke:#000;stroke-width:10}.l{stroke:#ccc}.b path{stroke:#8fb0dc;stroke-width:130;stroke-opacity:.8}.b path:nth-of-type(even){stroke:#ccdcf2}.t path{stroke:#b3540a;stroke-width:16}.p path{stroke:#bbb;stroke-width:90}.p path:nth-of-type(even){stroke:#e2e2e2}</style>\n";

fn write_root<W: Write>(writer: &mut W, height: u64) -> io::Result<()>
    ensures { OnOk result (Appends (W.contents writer.old) (W.contents writer.new)
        (root_text height)) }
{
    let pixels = height / 10;
    write!(
        writer,
        "<svg xmlns='http://www.w3.org/2000/svg' viewBox='0 0 12000 {height}' width='1200' height='{pixels}' role='img' "
    )
}

fn write_range<W: Write>(writer: &mut W, scale: Scale) -> io::Result<()>
    ensures { OnOk result (Appends (W.contents writer.old) (W.contents writer.new)
        (range_text scale)) }
{
    let from = scale.from;
    let to = scale.to;
    write!(writer, "' data-from='{from}' data-to='{to}'>\n")
}

fn write_data<W: Write>(writer: &mut W, diagram: &Diagram) -> io::Result<()>
    ensures { OnOk result (Appends (W.contents writer.old) (W.contents writer.new)
        (data_text diagram.now)) }
{
    writer.write_all(b"data-route='")?;
    writer.write_all(diagram.route.bytes())?;
    write_range(writer, diagram.scale)
}

/// Writes what the diagram is of.
fn write_title<W: Write>(writer: &mut W, diagram: &Diagram) -> io::Result<()>
    ensures { OnOk result (Appends (W.contents writer.old) (W.contents writer.new)
        (title_text diagram.now)) }
{
    let from = Metres::new(diagram.scale.from);
    let to = Metres::new(diagram.scale.to);
    writer.write_all(b"Route ")?;
    writer.write_all(diagram.route.bytes())?;
    write!(writer, " from {from} m to {to} m")
}

/// Writes what the diagram is of, as browsers and readers show it.
fn write_name<W: Write>(writer: &mut W, diagram: &Diagram) -> io::Result<()>
    ensures { OnOk result (Appends (W.contents writer.old) (W.contents writer.new)
        (name_text diagram.now)) }
{
    writer.write_all(b"<title>")?;
    write_title(writer, diagram)?;
    writer.write_all(b"</title>\n")
}

/// Writes what the diagram is of, at the top of the page.
fn write_heading<W: Write>(writer: &mut W, diagram: &Diagram) -> io::Result<()>
    ensures { OnOk result (Appends (W.contents writer.old) (W.contents writer.new)
        (heading_text diagram.now)) }
{
    writer.write_all(b"<text class='h' x='40' y='160'>")?;
    write_title(writer, diagram)?;
    writer.write_all(b"</text>\n")
}

fn write_page<W: Write>(writer: &mut W, height: u64) -> io::Result<()>
    ensures { OnOk result (Appends (W.contents writer.old) (W.contents writer.new)
        (page_text height)) }
{
    writer.write_all(STYLE)?;
    writeln!(
        writer,
        "<rect width='12000' height='{height}' fill='#fff'/>"
    )
}

fn write_bar_line<W: Write>(writer: &mut W, length: u64) -> io::Result<()>
    ensures { OnOk result (Appends (W.contents writer.old) (W.contents writer.new)
        (bar_line length)) }
{
    write!(writer, "<path d='M1000 300v-40h{length}v40'/>\n")
}

fn write_bar_label<W: Write>(writer: &mut W, step: u64) -> io::Result<()>
    ensures { OnOk result (Appends (W.contents writer.old) (W.contents writer.new)
        (bar_label step)) }
{
    let metres = Metres::new(step);
    write!(writer, "<text x='1020' y='380'>{metres} m</text>\n")
}

fn write_bar<W: Write>(writer: &mut W, diagram: &Diagram) -> io::Result<()>
    ensures { OnOk result (Appends (W.contents writer.old) (W.contents writer.new)
        (bar_text diagram.now)) }
{
    write_bar_line(writer, diagram.scale.bar())?;
    write_bar_label(writer, diagram.scale.step())
}

/// Writes how large the picture is, and what it is of.
fn write_start<W: Write>(writer: &mut W, diagram: &Diagram, height: u64) -> io::Result<()>
    ensures { OnOk result (Appends (W.contents writer.old) (W.contents writer.new)
        (start_text diagram.now height)) }
{
    write_root(writer, height)?;
    write_data(writer, diagram)?;
    write_name(writer, diagram)
}

fn write_head<W: Write>(writer: &mut W, diagram: &Diagram, height: u64) -> io::Result<()>
    ensures { OnOk result (Appends (W.contents writer.old) (W.contents writer.new)
        (head_text diagram.now height)) }
{
    write_start(writer, diagram, height)?;
    write_page(writer, height)?;
    write_heading(writer, diagram)?;
    write_bar(writer, diagram)
}

/// How high all bands of one side are.
fn bands_height(diagram: &Diagram) -> u64
    ensures height { result ≡ bands_height diagram.now }
    ensures least { result < 2 ^ 40 }
{
    PITCH * diagram.classes.len() as u64
}

/// Writes the parts of a picture of this height, whose axis begins at `top`, and whose bands of the right side are `shift`
/// below those of the left side.
fn write_parts<W: Write>(
    writer: &mut W,
    diagram: &Diagram,
    top: u64,
    shift: u64,
    height: u64,
) -> io::Result<()>
    requires { shift < 2 ^ 47 }
    ensures { OnOk result (Appends (W.contents writer.old) (W.contents writer.new)
        (parts_text diagram.now top shift height)) }
{
    write_head(writer, diagram, height)?;
    write_bands(writer, diagram, shift)?;
    write_axis(writer, diagram, top)?;
    writer.write_all(b"</svg>\n")
}

/// Writes a diagram as an SVG picture: a title and a scale, for each class a band above the axis for the left side and one
/// below it for the right side, and the axis with chainages in metres, measures, referents and links. Each row stands once
/// on each of its bands. It takes no memory beyond the writer's, and does not flush the writer.
///
/// # Errors
/// That of the writer. Part of the picture may be written then.
pub fn write_diagram<W: Write>(writer: &mut W, diagram: &Diagram) -> io::Result<()>
    ensures { OnOk result (Appends (W.contents writer.old) (W.contents writer.new)
        (diagram_text diagram.now)) }
{
    let bands = bands_height(diagram);
    let top = FIRST_TOP + bands;
    let shift = bands + AXIS_HEIGHT;
    write_parts(writer, diagram, top, shift, top + shift + FOOT)
}
