//! The log, written without taking memory.

ghost use Rattle.std.specs.Prelude.{◌≡◌, ◌==◌, ◌||◌, ◌-◌, ◌++◌, ◌∷◌, [], OnOk, IfOk, count_by, drop, replicate, take, if◌then◌else◌};
ghost use Rattle.std.specs.List.{flat_map, list_any};
ghost use Rattle.std.specs.Io.KnownBytes.{Appends};
ghost use Rattle.lrs_measure.specs.Texts.{same_name};
ghost use Rattle.lrs_machine.specs.Image.{state_of};
ghost use Rattle.lrs_image.specs.OpenLists.{image_of};
ghost use Rattle.lrs_sheet_records.specs.Kinds.{edit_header};
ghost use Rattle.lrs_sheet_log.specs.Log as spec;
ghost use Rattle.lrs_sheet_log.specs.Log.{edits_text, edits_under, log_text, record_text, row_line};

use lrs_image::ImageLists;
use lrs_machine::{Edit, Key};
use std::io;
use std::io::Write;

fn commas_in(line: &[u8]) -> usize
    ensures { result ≡ count_by (λ byte. byte == 44) line.now }
{
    line.iter().filter(|byte| **byte == b',').count()
}

/// The commas before the empty fields of a record: one for each field that a line has fewer than nine behind its verb.
pub(crate) fn empty_fields(line: &[u8]) -> &'static [u8]
    ensures { result.now ≡ replicate (9 - count_by (λ byte. byte == 44) line.now) 44 }
{
    let commas: &[u8] = b",,,,,,,,,";
    let filled = commas_in(line).min(9);
    &commas[filled..]
}

/// Writes a key, a line behind it, what stands behind the line, and a line feed.
fn write_fields<W: Write>(writer: &mut W, key: &[u8], line: &[u8], behind: &[u8]) -> io::Result<()>
    ensures { OnOk result (Appends (W.contents writer.old) (W.contents writer.new)
        (key.now ++ 44 ∷ (line.now ++ (behind.now ++ 10 ∷ [])))) }
{
    writer.write_all(key)?;
    writer.write_all(b",")?;
    writer.write_all(line)?;
    writer.write_all(behind)?;
    writer.write_all(b"\n")
}

/// Writes the line of an edit.
fn write_edit<W: Write>(writer: &mut W, edit: &Edit) -> io::Result<()>
    ensures { OnOk result (Appends (W.contents writer.old) (W.contents writer.new)
        (row_line edit.now)) }
{
    let line = edit.line.as_str().as_bytes();
    write_fields(writer, edit.key.bytes(), line, empty_fields(line))
}

/// Writes the header of an edit sheet.
pub(crate) fn write_header<W: Write>(writer: &mut W) -> io::Result<()>
    ensures { OnOk result (Appends (W.contents writer.old) (W.contents writer.new)
        (record_text edit_header)) }
{
    writer.write_all(b"key,verb,a,b,c,d,e,f,g,h,i\n")
}

/// Writes the lines of edits.
fn write_edits<W: Write>(writer: &mut W, edits: &[Edit]) -> io::Result<()>
    ensures { OnOk result (Appends (W.contents writer.old) (W.contents writer.new)
        (flat_map row_line edits.now)) }
{
    for edit in edits {
        write_edit(writer, edit)?;
    }
    Ok(())
}

/// The edits from this number on.
fn rest_from(edits: &[Edit], number: u64) -> &[Edit]
    ensures { result.now ≡ drop (number - 1) edits.now }
{
    let passed = number.saturating_sub(1).min(edits.len() as u64);
    &edits[passed as usize..]
}

/// The first edits, so many of them, or all.
pub(crate) fn first_edits(edits: &[Edit], count: u64) -> &[Edit]
    ensures { result.now ≡ take count edits.now }
{
    let count = count.min(edits.len() as u64);
    &edits[..count as usize]
}

/// The edits up to this number, or all.
fn up_to(edits: &[Edit], until: Option<u64>) -> &[Edit]
    ensures { result.now ≡ spec.up_to until edits.now }
{
    match until {
        Some(number) => first_edits(edits, number),
        None => edits,
    }
}

/// Writes the edits from a number on, and up to another, or to the last one, as an edit sheet; `from` 0 and 1 both mean
/// from the first. It takes no memory beyond the writer's, and does not flush the writer.
///
/// # Errors
/// That of the writer. Part of the sheet may be written then.
pub fn write_log<W: Write>(
    writer: &mut W,
    kept: &ImageLists,
    from: u64,
    until: Option<u64>,
) -> io::Result<()>
    ensures { OnOk result (Appends (W.contents writer.old) (W.contents writer.new)
        (log_text from until (image_of kept.now))) }
{
    write_header(writer)?;
    write_edits(writer, rest_from(up_to(&kept.edits, until), from))
}

fn has_key(edit: &Edit, key: &Key) -> bool
    ensures { result ≡ same_name edit.now.key key.now }
{
    edit.key == *key
}

/// Writes the line of an edit if it has this key. Says whether it has.
fn write_if_under<W: Write>(writer: &mut W, edit: &Edit, key: &Key) -> io::Result<bool>
    ensures written { OnOk result (Appends (W.contents writer.old) (W.contents writer.new)
        (if same_name edit.now.key key.now then row_line edit.now else [])) }
    ensures has { IfOk result (λ has. has ≡ same_name edit.now.key key.now) }
{
    if !has_key(edit, key) {
        return Ok(false);
    }
    write_edit(writer, edit)?;
    Ok(true)
}

fn either(one: bool, other: bool) -> bool
    ensures { result ≡ (one || other) }
{
    one || other
}

/// Writes the lines of the edits with this key. Says whether there is one.
fn write_edits_under<W: Write>(writer: &mut W, edits: &[Edit], key: &Key) -> io::Result<bool>
    ensures written { OnOk result (Appends (W.contents writer.old) (W.contents writer.new)
        (flat_map (λ edit. if same_name edit.key key.now then row_line edit else []) edits.now)) }
    ensures found { IfOk result (λ found. found ≡ list_any (λ edit.
        same_name edit.key key.now) edits.now) }
{
    let mut found = false;
    for edit in edits {
        let has = write_if_under(writer, edit, key)?;
        found = either(found, has);
    }
    Ok(found)
}

/// Writes the edit of a key as an edit sheet, which has no record if there is no such edit. Says whether there is one.
/// It takes no memory beyond the writer's, and does not flush the writer.
///
/// # Errors
/// That of the writer. Part of the sheet may be written then.
pub fn write_log_of_key<W: Write>(writer: &mut W, kept: &ImageLists, key: &Key) -> io::Result<bool>
    ensures written { OnOk result (Appends (W.contents writer.old) (W.contents writer.new)
        (edits_text (edits_under key.now (state_of (image_of kept.now)).done))) }
    ensures found { IfOk result (λ found. found ≡ list_any (λ e.
        same_name e.key key.now) (state_of (image_of kept.now)).done) }
{
    write_header(writer)?;
    write_edits_under(writer, &kept.edits, key)
}
