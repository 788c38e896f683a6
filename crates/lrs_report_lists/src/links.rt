//! The list of links.

ghost use Rattle.std.specs.Prelude.{OnOk};
ghost use Rattle.std.specs.List.{flat_map};
ghost use Rattle.std.specs.Io.KnownBytes.{Appends};
ghost use Rattle.lrs_image.specs.OpenLists.{image_of};
ghost use Rattle.lrs_report_lists.specs.Lines.{link_line};
ghost use Rattle.lrs_report_lists.specs.Lists.{links_text};

use lrs_element::Link;
use lrs_image::ImageLists;
use lrs_ordered::Chunked;
use std::io;
use std::io::Write;

fn write_link<W: Write>(writer: &mut W, link: &Link) -> io::Result<()>
    ensures { OnOk result (Appends (W.contents writer.old) (W.contents writer.new)
        (link_line link.now)) }
{
    let number = link.number;
    let length = link.length;
    writeln!(writer, "{number},{length}")
}

fn write_each_link<W: Write>(writer: &mut W, links: &Chunked<Link>) -> io::Result<()>
    ensures { OnOk result (Appends (W.contents writer.old) (W.contents writer.new)
        (flat_map link_line links.now.rows)) }
{
    for link in links.iter() {
        write_link(writer, link)?;
    }
    Ok(())
}

/// Writes each link, by number: `link,length`, the length in millimetres. It takes no memory beyond the writer's, and does not
/// flush the writer.
///
/// # Errors
/// That of the writer. Part of the list may be written then.
pub fn write_links<W: Write>(writer: &mut W, kept: &ImageLists) -> io::Result<()>
    ensures { OnOk result (Appends (W.contents writer.old) (W.contents writer.new)
        (links_text (image_of kept.now))) }
{
    writer.write_all(b"link,length\n")?;
    write_each_link(writer, &kept.links)
}
