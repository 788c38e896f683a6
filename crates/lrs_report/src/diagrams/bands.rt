//! The bands of classes: one on each side of the axis.

ghost use Rattle.std.specs.Prelude.{◌≡◌, ◌<◌, ◌^◌, ◌+◌, length, OnOk};
ghost use Rattle.std.specs.Io.KnownBytes.{Appends};
ghost use Rattle.lrs_report.specs.Drawings.Bands.{band_group, band_head, band_middle, band_name, band_style, band_text, bands_text, class_head, class_text, classes_text};

use crate::Scale;
use crate::diagrams::diagram::{ClassBands, Diagram, DrawnRow};
use crate::diagrams::labels::write_labels;
use crate::diagrams::shapes::draw_each;
use lrs_events::{Class, Kind, Side};
use std::io;
use std::io::Write;

/// Where the first band begins, behind the heading.
pub(crate) const FIRST_TOP: u64 = 400;

/// How far the top of a band is below that of the band before it.
pub(crate) const PITCH: u64 = 170;

/// Ticks for points, boxes for stretches.
fn style_of(kind: Kind) -> &'static str
    ensures { result.now ≡ band_style kind }
{
    match kind {
        Kind::Point => "t",
        Kind::Stretch | Kind::Exclusive => "b",
    }
}

/// Writes the line above a band, and the name of its class and side.
fn write_band_name<W: Write>(writer: &mut W, class: &Class, side: Side, top: u64) -> io::Result<()>
    requires { top < 2 ^ 48 }
    ensures { OnOk result (Appends (W.contents writer.old) (W.contents writer.new)
        (band_name class.now side top)) }
{
    let name = class.name;
    let base = top + 120;
    write!(writer, "<path class='l' d='M1000 {top}h10000'/>\n")?;
    write!(writer, "<text x='40' y='{base}'>{name} {side}</text>\n")
}

/// Writes where the rows of a band lie, and how they are drawn.
fn write_band_group<W: Write>(writer: &mut W, kind: Kind, top: u64) -> io::Result<()>
    requires { top < 2 ^ 48 }
    ensures { OnOk result (Appends (W.contents writer.old) (W.contents writer.new)
        (band_group kind top)) }
{
    let style = style_of(kind);
    let middle = top + 85;
    write!(
        writer,
        "<g class='{style}' transform='translate(0,{middle})'>\n"
    )
}

/// Writes what stands before the rows of a band: the line above it, its name, and where it lies.
fn write_band_head<W: Write>(writer: &mut W, class: &Class, side: Side, top: u64) -> io::Result<()>
    requires { top < 2 ^ 48 }
    ensures { OnOk result (Appends (W.contents writer.old) (W.contents writer.new)
        (band_head class.now side top)) }
{
    write_band_name(writer, class, side, top)?;
    write_band_group(writer, class.kind, top)
}

/// Writes what stands between the rows of a band and their labels.
fn write_band_middle<W: Write>(writer: &mut W, top: u64) -> io::Result<()>
    requires { top < 2 ^ 48 }
    ensures { OnOk result (Appends (W.contents writer.old) (W.contents writer.new)
        (band_middle top)) }
{
    let base = top + 120;
    write!(writer, "</g>\n<g transform='translate(20,{base})'>\n")
}

fn write_labelled<W: Write>(
    writer: &mut W,
    scale: Scale,
    top: u64,
    rows: &[DrawnRow],
) -> io::Result<()>
    requires { top < 2 ^ 48 }
    ensures { OnOk result (Appends (W.contents writer.old) (W.contents writer.new)
        (band_text scale top rows.now)) }
{
    draw_each(writer, scale, rows)?;
    write_band_middle(writer, top)?;
    write_labels(writer, scale, rows)?;
    writer.write_all(b"</g>\n")
}

/// Writes a band: each row once, and the labels that fit.
fn write_band<W: Write>(
    writer: &mut W,
    scale: Scale,
    class: &Class,
    side: Side,
    top: u64,
    rows: &[DrawnRow],
) -> io::Result<()>
    requires { top < 2 ^ 48 }
    ensures { OnOk result (Appends (W.contents writer.old) (W.contents writer.new)
        (bands_text scale class.now side top rows.now)) }
{
    write_band_head(writer, class, side, top)?;
    write_labelled(writer, scale, top, rows)
}

fn write_class_head<W: Write>(writer: &mut W, class: &Class) -> io::Result<()>
    ensures { OnOk result (Appends (W.contents writer.old) (W.contents writer.new)
        (class_head class.now)) }
{
    let name = class.name;
    let kind = class.kind;
    writeln!(writer, "<g data-class='{name}' data-kind='{kind}'>")
}

/// Writes the two bands of a class; the right one is so far below the left one.
fn write_class<W: Write>(
    writer: &mut W,
    scale: Scale,
    shift: u64,
    top: u64,
    bands: &ClassBands,
) -> io::Result<()>
    requires { top + shift < 2 ^ 48 }
    ensures { OnOk result (Appends (W.contents writer.old) (W.contents writer.new)
        (class_text scale shift top bands.now)) }
{
    write_class_head(writer, &bands.class)?;
    write_band(
        writer,
        scale,
        &bands.class,
        Side::L,
        top,
        bands.left.as_slice(),
    )?;
    write_band(
        writer,
        scale,
        &bands.class,
        Side::R,
        top + shift,
        bands.right.as_slice(),
    )?;
    writer.write_all(b"</g>\n")
}

/// Writes the bands of a diagram.
pub(crate) fn write_bands<W: Write>(writer: &mut W, diagram: &Diagram, shift: u64) -> io::Result<()>
    requires { shift < 2 ^ 47 }
    ensures { OnOk result (Appends (W.contents writer.old) (W.contents writer.new)
        (classes_text diagram.now.scale shift 400 diagram.now.classes)) }
{
    write_classes(
        writer,
        diagram.scale,
        shift,
        FIRST_TOP,
        diagram.classes.as_slice(),
    )
}

/// Writes the bands of classes, each class below the one before it, from a top on.
fn write_classes<W: Write>(
    writer: &mut W,
    scale: Scale,
    shift: u64,
    first: u64,
    classes: &[ClassBands],
) -> io::Result<()>
    requires few { length classes.now < 2 ^ 32 }
    requires first { first < 2 ^ 32 }
    requires shift { shift < 2 ^ 47 }
    ensures { OnOk result (Appends (W.contents writer.old) (W.contents writer.new)
        (classes_text scale shift first classes.now)) }
{
    let mut top = first;
    for bands in classes {
        write_class(writer, scale, shift, top, bands)?;
        top += PITCH;
    }
    Ok(())
}
