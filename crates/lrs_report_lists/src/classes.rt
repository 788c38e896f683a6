//! The list of classes.

ghost use Rattle.std.specs.Prelude.{OnOk};
ghost use Rattle.std.specs.List.{flat_map};
ghost use Rattle.std.specs.Io.KnownBytes.{Appends};
ghost use Rattle.lrs_image.specs.OpenLists.{image_of};
ghost use Rattle.lrs_report_lists.specs.Lines.{class_line};
ghost use Rattle.lrs_report_lists.specs.Lists.{classes_text};

use lrs_events::Class;
use lrs_image::ImageLists;
use lrs_ordered::Chunked;
use std::io;
use std::io::Write;

fn write_class<W: Write>(writer: &mut W, class: &Class) -> io::Result<()>
    ensures { OnOk result (Appends (W.contents writer.old) (W.contents writer.new)
        (class_line class.now)) }
{
    let name = class.name;
    let kind = class.kind;
    writeln!(writer, "{name},{kind}")
}

fn write_each_class<W: Write>(writer: &mut W, classes: &Chunked<Class>) -> io::Result<()>
    ensures { OnOk result (Appends (W.contents writer.old) (W.contents writer.new)
        (flat_map class_line classes.now.rows)) }
{
    for class in classes.iter() {
        write_class(writer, class)?;
    }
    Ok(())
}

/// Writes each class, by name: `class,kind`, the kind `point`, `stretch` or `exclusive`. It takes no memory beyond the writer's,
/// and does not flush the writer.
///
/// # Errors
/// That of the writer. Part of the list may be written then.
pub fn write_classes<W: Write>(writer: &mut W, kept: &ImageLists) -> io::Result<()>
    ensures { OnOk result (Appends (W.contents writer.old) (W.contents writer.new)
        (classes_text (image_of kept.now))) }
{
    writer.write_all(b"class,kind\n")?;
    write_each_class(writer, &kept.classes)
}
