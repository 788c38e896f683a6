//! Lists as CSV, byte for byte what the command line prints.

ghost use Rattle.std.specs.Prelude.{◌≡◌, IfOk, OnOk};
ghost use Rattle.std.specs.Io.KnownBytes.{Appends};
ghost use Rattle.lrs_machine.specs.Sound.{IsSound};
ghost use Rattle.lrs_image.specs.OpenLists.{image_of};
ghost use Rattle.lrs_report_lists.specs.Length.Lines.{lengths_text};
ghost use Rattle.lrs_report_lists.specs.Lists.{rows_text};
ghost use Rattle.lrs_web_requests.specs.Text.{answer_of};
ghost use Rattle.lrs_web_requests.specs.declared.paths.Format.TheVariants.{Csv};
ghost use Rattle.lrs_web_replies.specs.Listings.{listing_answer, listing_text};

use crate::bounded::BoundedBytes;
use crate::pages::Page;
use crate::reply::csv_reply;
use lrs_image::ImageLists;
use lrs_machine::{Listing, RowsWanted};
use lrs_report_lists::{
    ValueLength, write_classes, write_gone, write_history, write_lengths, write_links, write_marks,
    write_pieces, write_refs, write_routes, write_rows,
};
use lrs_sheet_log::{write_log, write_log_of_key};
use lrs_web_requests::Response;
use std::alloc::{AllocError, Global};
use std::io;
use std::io::Write;

fn write_listing<W: Write>(writer: &mut W, kept: &ImageLists, listing: &Listing) -> io::Result<()>
    requires sound { IsSound (image_of kept.now) }
    ensures { OnOk result (Appends (W.contents writer.old) (W.contents writer.new)
        (listing_text (image_of kept.now) listing.now)) }
{
    match listing {
        Listing::Routes => write_routes(writer, kept),
        Listing::Links => write_links(writer, kept),
        Listing::Classes => write_classes(writer, kept),
        Listing::Refs { route, exact } => write_refs(writer, kept, route.as_ref(), *exact),
        Listing::Marks(route) => write_marks(writer, kept, route.as_ref()),
        Listing::Pieces(route) => write_pieces(writer, kept, route.as_ref()),
        Listing::Gone(wanted) => write_gone(writer, kept, wanted),
        Listing::History(asset) => write_history(writer, kept, *asset),
        Listing::Log { from, until } => write_log(writer, kept, *from, *until),
        Listing::LogOfKey(key) => {
            let _ = write_log_of_key(writer, kept, key)?;
            Ok(())
        }
    }
}

// It takes every byte that it is given, unless it has no room for it or memory runs out.
fn listing_lines(
    alloc: Global,
    most: usize,
    kept: &ImageLists,
    listing: &Listing,
) -> Result<Vec<u8>, AllocError>
    requires sound { IsSound (image_of kept.now) }
    ensures { IfOk result (λ bytes. bytes.items ≡ listing_text (image_of kept.now) listing.now) }
{
    let mut text = BoundedBytes::new(alloc, most);
    match write_listing(&mut text, kept, listing) {
        Ok(()) => Ok(text.bytes),
        Err(_) => Err(AllocError),
    }
}

/// The reply with a list of an inventory as CSV.
///
/// Whatever the page, it is the whole list.
///
/// # Errors
/// When memory or so many bytes do not suffice.
#[tactic(auto, using(crate::proofs::WrittenLines::as_lines))]
pub(crate) fn csv_listing(
    alloc: Global,
    most: usize,
    _page: &Page,
    kept: &ImageLists,
    listing: &Listing,
) -> Result<Response, AllocError>
    requires sound { IsSound (image_of kept.now) }
    ensures { IfOk result (λ reply. answer_of reply
        ≡ listing_answer Csv _page.now (image_of kept.now) listing.now) }
{
    let bytes = listing_lines(alloc, most, kept, listing)?;
    Ok(csv_reply(bytes))
}

/// The rows that are asked for as CSV.
///
/// # Errors
/// When memory or so many bytes do not suffice.
pub(crate) fn rows_lines(
    alloc: Global,
    most: usize,
    kept: &ImageLists,
    wanted: &RowsWanted,
) -> Result<Vec<u8>, AllocError>
    requires sound { IsSound (image_of kept.now) }
    ensures { IfOk result (λ bytes. bytes.items ≡ rows_text wanted.now (image_of kept.now)) }
{
    let mut text = BoundedBytes::new(alloc, most);
    match write_rows(alloc, &mut text, kept, wanted) {
        Ok(()) => Ok(text.bytes),
        Err(_) => Err(AllocError),
    }
}

/// The lengths of values as CSV, in metres, and how many assets hold them.
///
/// # Errors
/// When memory or so many bytes do not suffice.
pub(crate) fn lengths_lines(
    alloc: Global,
    most: usize,
    lengths: &[ValueLength],
) -> Result<Vec<u8>, AllocError>
    ensures { IfOk result (λ bytes. bytes.items ≡ lengths_text lengths.now) }
{
    let mut text = BoundedBytes::new(alloc, most);
    match write_lengths(&mut text, lengths) {
        Ok(()) => Ok(text.bytes),
        Err(_) => Err(AllocError),
    }
}
