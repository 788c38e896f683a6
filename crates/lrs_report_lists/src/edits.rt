//! Edits by number, with their keys and verbs.

ghost use Rattle.std.specs.Prelude.{◌≡◌, ◌==◌, ◌++◌, ◌∷◌, [], OnOk};
ghost use Rattle.std.specs.List.{position};
ghost use Rattle.std.specs.Option.{option_map};
ghost use Rattle.std.specs.Io.KnownBytes.{Appends};
ghost use Rattle.lrs_report_lists.specs.Lines.{edit_numbered, verb_in};
ghost use Rattle.lrs_report_lists.specs.Parts.{edit_part, named_part};

use lrs_machine::Edit;
use std::io;
use std::io::Write;

/// The edit of a number; edits are numbered from 1.
pub fn edit_numbered(edits: &[Edit], number: u64) -> Option<&Edit>
    ensures { option_map (λ e. e.now) result ≡ edit_numbered edits.now number }
{
    if number == 0 || number > edits.len() as u64 {
        return None;
    }
    Some(&edits[number as usize - 1])
}

/// Where the first comma stands.
fn comma_place(line: &[u8]) -> Option<usize>
    ensures { result ≡ position (λ byte. byte == 44) line.now }
{
    line.iter().position(|byte| *byte == b',')
}

/// What stands before the first comma of a line.
fn verb_in(line: &[u8]) -> &[u8]
    ensures { result.now ≡ verb_in line.now }
{
    match comma_place(line) {
        Some(comma) => &line[..comma],
        None => line,
    }
}

/// The verb of an edit.
pub fn verb_of(edit: &Edit) -> &[u8]
    ensures { result.now ≡ verb_in edit.now.line }
{
    verb_in(edit.line.as_str().as_bytes())
}

fn write_key_and_verb<W: Write>(writer: &mut W, key: &[u8], verb: &[u8]) -> io::Result<()>
    ensures { OnOk result (Appends (W.contents writer.old) (W.contents writer.new)
        (key.now ++ 44 ∷ (verb.now ++ 44 ∷ []))) }
{
    writer.write_all(key)?;
    writer.write_all(b",")?;
    writer.write_all(verb)?;
    writer.write_all(b",")
}

fn write_edit<W: Write>(writer: &mut W, edit: Option<&Edit>) -> io::Result<()>
    ensures { OnOk result (Appends (W.contents writer.old) (W.contents writer.new)
        (named_part (option_map (λ e. e.now) edit.entry))) }
{
    match edit {
        Some(edit) => write_key_and_verb(writer, edit.key.bytes(), verb_of(edit)),
        None => writer.write_all(b",,"),
    }
}

/// Writes the number of an edit, its key and its verb, each with a comma behind it.
pub(crate) fn write_numbered<W: Write>(
    writer: &mut W,
    edits: &[Edit],
    number: u64,
) -> io::Result<()>
    ensures { OnOk result (Appends (W.contents writer.old) (W.contents writer.new)
        (edit_part number (edit_numbered edits.now number))) }
{
    write!(writer, "{number},")?;
    write_edit(writer, edit_numbered(edits, number))
}
