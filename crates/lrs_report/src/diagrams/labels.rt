//! Labels: texts beside what is drawn, of which no two overlap.

ghost use Rattle.std.specs.Prelude.{◌≡◌, ◌^◌, ◌<◌, IfOk, OnOk};
ghost use Rattle.std.specs.Io.KnownBytes.{Appends};
ghost use Rattle.lrs_report.specs.Drawings.Labels.{fits, label_text, labels_text, next_free, text_if, room_for};

use crate::Scale;
use crate::diagrams::diagram::{DrawnPiece, DrawnRow};
use crate::diagrams::shapes::{direction_of, write_value};
use lrs_element::Mark;
use lrs_position::Referent;
use std::io;
use std::io::Write;

/// The last place of a label that may go on behind what it names.
const RIGHT_LIMIT: u64 = 11_960;

/// Where a label begins and ends, in units of the page, and where it has to end.
#[derive(Clone, Copy, PartialEq, Eq)]
pub(crate) struct LabelPlace {
    pub is_wanted: bool,
    pub start: u64,
    pub end: u64,
    pub limit: u64,
}

/// How much room a label of this many characters takes.
fn room_for(characters: u64) -> u64
    requires { characters < 2 ^ 32 }
    ensures { result ≡ room_for characters }
{
    40 + 60 * characters
}

/// What has a label in a diagram.
pub(crate) trait Label {
    ghost use Rattle.std.specs.Prelude.{◌≡◌, ℕ, List, OnOk};
    ghost use Rattle.std.specs.Io.KnownBytes.{Appends};
    ghost use Rattle.lrs_report.specs.declared.diagrams.scale.Scale.{Scale};
    ghost use Rattle.lrs_report.specs.declared.diagrams.labels.LabelPlace.{LabelPlace};

    ghost place: { Scale → Self → LabelPlace };

    ghost text: { Self → List ℕ };

    fn label_place(&self, scale: Scale) -> LabelPlace
        ensures { result ≡ place scale self.now };

    fn write_text<W: Write>(&self, writer: &mut W) -> io::Result<()>
        ensures { OnOk result (Appends (W.contents writer.old) (W.contents writer.new)
            (text self.now)) };
}

/// Whether a label has its place, with nothing in front of it from there on.
fn fits(free: u64, place: LabelPlace) -> bool
    ensures { result ≡ fits free place }
{
    place.is_wanted && free <= place.start && place.end <= place.limit
}

fn write_label<W: Write, L: Label>(writer: &mut W, start: u64, label: &L) -> io::Result<()>
    ensures { OnOk result (Appends (W.contents writer.old) (W.contents writer.new)
        (label_text start (L.text label.now))) }
{
    write!(writer, "<text x='{start}'>")?;
    label.write_text(writer)?;
    writer.write_all(b"</text>\n")
}

/// Writes a label if it fits, and says from where on the next one may begin.
fn write_if_fits<W: Write, L: Label>(
    writer: &mut W,
    scale: Scale,
    free: u64,
    label: &L,
) -> io::Result<u64>
    ensures next { IfOk result (λ next. next ≡ next_free free (L.place scale label.now)) }
    ensures written { OnOk result (Appends (W.contents writer.old) (W.contents writer.new)
        (text_if free (L.place scale label.now) (L.text label.now))) }
{
    let place = label.label_place(scale);
    if fits(free, place) {
        write_label(writer, place.start, label)?;
        return Ok(place.end);
    }
    writer.write_all(b"")?;
    Ok(free)
}

/// Writes the labels of these, each where it fits behind those before it.
pub(crate) fn write_labels<W: Write, L: Label>(
    writer: &mut W,
    scale: Scale,
    labels: &[L],
) -> io::Result<()>
    ensures { OnOk result (Appends (W.contents writer.old) (W.contents writer.new)
        (labels_text (L.place scale) L.text 0 labels.now)) }
{
    let mut free = 0;
    for label in labels {
        free = write_if_fits(writer, scale, free, label)?;
    }
    Ok(())
}

impl Label for DrawnRow {
    ghost use Rattle.lrs_report.specs.Drawings.Labels.{row_place};
    ghost use Rattle.lrs_report.specs.Drawings.Shapes.{value_text};

    ghost place = { row_place };

    ghost text = { λ row. value_text row.value };

    fn label_place(&self, scale: Scale) -> LabelPlace {
        let start = scale.x_at(self.from);
        let characters = match self.value {
            Some(value) => value.bytes().len() as u64,
            None => 1,
        };
        LabelPlace {
            is_wanted: true,
            start,
            end: start + room_for(characters),
            limit: if self.is_point {
                RIGHT_LIMIT
            } else {
                scale.x_at(self.to)
            },
        }
    }

    fn write_text<W: Write>(&self, writer: &mut W) -> io::Result<()> {
        write_value(writer, self.value)
    }
}

impl Label for Mark {
    ghost use Rattle.std.specs.Fmt.{decimal};
    ghost use Rattle.lrs_report.specs.Drawings.Labels.{mark_place};

    ghost place = { mark_place };

    ghost text = { λ mark. decimal mark.measure };

    fn label_place(&self, scale: Scale) -> LabelPlace {
        let start = scale.x_at(self.chainage);
        LabelPlace {
            is_wanted: scale.has_place(self.chainage),
            start,
            end: start + room_for(12),
            limit: RIGHT_LIMIT,
        }
    }

    fn write_text<W: Write>(&self, writer: &mut W) -> io::Result<()> {
        let measure = self.measure;
        write!(writer, "{measure}")
    }
}

impl Label for Referent {
    ghost use Rattle.lrs_report.specs.Drawings.Labels.{referent_place};

    ghost place = { referent_place };

    ghost text = { λ referent. referent.name };

    fn label_place(&self, scale: Scale) -> LabelPlace {
        let start = scale.x_at(self.at);
        LabelPlace {
            is_wanted: scale.has_place(self.at),
            start,
            end: start + room_for(self.name.bytes().len() as u64),
            limit: RIGHT_LIMIT,
        }
    }

    fn write_text<W: Write>(&self, writer: &mut W) -> io::Result<()> {
        writer.write_all(self.name.bytes())
    }
}

impl Label for DrawnPiece {
    ghost use Rattle.lrs_report.specs.Drawings.Labels.{piece_label, piece_place};

    ghost place = { piece_place };

    ghost text = { piece_label };

    fn label_place(&self, scale: Scale) -> LabelPlace {
        let start = scale.x_at(self.from);
        LabelPlace {
            is_wanted: true,
            start,
            end: start + room_for(8),
            limit: scale.x_at(self.to),
        }
    }

    fn write_text<W: Write>(&self, writer: &mut W) -> io::Result<()> {
        let link = self.piece.link;
        let direction = direction_of(self.piece.forward);
        write!(writer, "{link} {direction}")
    }
}
