//! What the rows of the table of edits say. A line takes memory, so that a row is not decoded as those of other
//! tables are.

ghost use Rattle.std.specs.Prelude.{◌≡◌, ◌+◌, ◌&&◌, nat_eq, IfOk};
ghost use Rattle.std.specs.Str.{is_utf8};
ghost use Rattle.std.specs.Option.{option_map};
ghost use Rattle.lrs_machine.specs.Keys.{is_key};
ghost use Rattle.lrs_store_tables.specs.Contents.Decoders.{each_of, only_if, edit_of, counted};
ghost use Rattle.lrs_store_tables.specs.StoredRows.{edit_in};

use lrs_machine::{Edit, Key, Line};
use lrs_store_tables::decode::{number_at, text_at};
use sqlite::Row;
use std::alloc::{AllocError, Global};
use std::marker::Model;

/// An edit and its number.
#[derive(Drop)]
pub struct NumberedEdit {
    pub n: u64,
    pub edit: Edit,
}

impl Model for NumberedEdit {
    ghost use Rattle.lrs_machine.specs.declared.image.Edit.{Edit};
    ghost use Rattle.lrs_store_tables.specs.Contents.Decoders.{Numbered};

    ghost Value = { Numbered Edit };

    ghost view = { λ r. record { n = r.n; said = r.edit } };
}

/// The key of this text, if it is one.
fn key_of(text: &[u8]) -> Option<Key>
    ensures { result ≡ only_if (is_key text.now) text.now }
{
    Key::new(text)
}

/// The line of this text, if it is UTF-8.
fn line_of(alloc: Global, text: &[u8]) -> Result<Option<Line>, AllocError>
    ensures { IfOk result (λ line. line ≡ only_if (is_utf8 text.now) text.now) }
{
    match str::from_utf8(text) {
        Ok(text) => Ok(Some(Line::from_text(String::from_str(alloc, text)?))),
        Err(_) => Ok(None),
    }
}

/// The edit of this number whose key and line are of these texts.
fn edit(alloc: Global, n: u64, key: &[u8], line: &[u8]) -> Result<Option<NumberedEdit>, AllocError>
    ensures { IfOk result (λ said. said ≡ only_if (is_key key.now && is_utf8 line.now)
        (record { n = n; said = record { key = key.now; line = line.now } })) }
{
    let Some(key) = key_of(key) else {
        return Ok(None);
    };
    let Some(line) = line_of(alloc, line)? else {
        return Ok(None);
    };
    Ok(Some(NumberedEdit {
        n,
        edit: Edit { key, line },
    }))
}

/// What a row says, if it says something.
fn said(alloc: Global, row: &Row) -> Result<Option<NumberedEdit>, AllocError>
    ensures { IfOk result (λ said. said ≡ edit_of (edit_in row.now)) }
{
    match number_at(row, 0) {
        Some(n) => edit(alloc, n, text_at(row, 1), text_at(row, 2)),
        None => Ok(None),
    }
}

/// What all rows say, if each says something.
///
/// # Errors
/// When memory runs out.
pub(crate) fn all_said(alloc: Global, rows: &[Row]) -> Result<Option<Vec<NumberedEdit>>, AllocError>
    ensures { IfOk result (λ found. option_map (λ v. v.items) found ≡ each_of (λ r.
        edit_of (edit_in r)) rows.now) }
{
    let mut found = Vec::new(alloc);
    for row in rows {
        let Some(edit) = said(alloc, row)? else {
            return Ok(None);
        };
        found.push(edit)?;
    }
    Ok(Some(found))
}

/// Whether this is the number after as many as this.
fn follows(n: u64, count: usize) -> bool
    ensures { result ≡ nat_eq n (1 + count) }
{
    n > 0 && n - 1 == count as u64
}

/// The edits without their numbers, if these are the ones from 1 on.
///
/// # Errors
/// When memory runs out.
pub(crate) fn counted(
    alloc: Global,
    edits: Vec<NumberedEdit>,
) -> Result<Option<Vec<Edit>>, AllocError>
    ensures { IfOk result (λ found. option_map (λ v. v.items) found ≡ counted 1 edits.items) }
{
    let mut found = Vec::new(alloc);
    for numbered in edits {
        if follows(numbered.n, found.len()) {
            found.push(numbered.edit)?;
        } else {
            return Ok(None);
        }
    }
    Ok(Some(found))
}
