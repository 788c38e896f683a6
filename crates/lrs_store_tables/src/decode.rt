//! What stored rows say.

ghost use Rattle.std.specs.Prelude.{◌≡◌, ◌&&◌, IfOk};
ghost use Rattle.std.specs.Option.{option_map};
ghost use Rattle.sqlite_value.specs.Order.{column};
ghost use Rattle.lrs_measure.specs.Limits.{is_link};
ghost use Rattle.lrs_events.specs.Names.{is_class_name, is_value};
ghost use Rattle.lrs_store_tables.specs.Contents.Decoders.{each_of, only_if, kind_numbered, link_side_numbered, is_abandoned_numbered};
ghost use Rattle.lrs_store_tables.specs.Contents.Decoders as decoding;
ghost use Rattle.lrs_store_tables.specs.StoredRows.{whole_at, text_at};

use crate::{short, whole};
use lrs_element::Link;
use lrs_events::{Asset, Class, ClassName, Gone, Kind, LinkSide, Part, Value};
use lrs_measure::limits::{GREATEST_LINK, LONGEST_LINK};
use sqlite::Row;
use sqlite::types::ValueRef;
use std::alloc::{AllocError, Global};

/// The whole number in a column; what is none reads as -1.
pub fn whole_at(row: &Row, at: usize) -> i64
    ensures { result ≡ whole_at at row.now }
{
    match row.get_ref(at) {
        Ok(ValueRef::Int(n)) => n,
        _ => -1,
    }
}

/// The text in a column; what is none reads as a byte that is no UTF-8.
pub fn text_at(row: &Row, at: usize) -> &[u8]
    ensures { result.now ≡ text_at at row.now }
{
    match row.get_ref(at) {
        Ok(ValueRef::Text(text)) => text,
        _ => &[255],
    }
}

/// The number in a column, if it is whole and not negative.
pub fn number_at(row: &Row, at: usize) -> Option<u64>
    ensures { result ≡ decoding.whole (whole_at at row.now) }
{
    whole(whole_at(row, at))
}

fn kind_numbered(n: u64) -> Option<Kind>
    ensures { result ≡ kind_numbered n }
{
    match n {
        0 => Some(Kind::Point),
        1 => Some(Kind::Stretch),
        2 => Some(Kind::Exclusive),
        _ => None,
    }
}

fn side_numbered(n: u64) -> Option<LinkSide>
    ensures { result ≡ link_side_numbered n }
{
    match n {
        0 => Some(LinkSide::Left),
        1 => Some(LinkSide::Right),
        _ => None,
    }
}

fn is_abandoned(n: u64) -> Option<bool>
    ensures { result ≡ is_abandoned_numbered n }
{
    match n {
        0 => Some(false),
        1 => Some(true),
        _ => None,
    }
}

fn class_name(text: &[u8]) -> Option<ClassName>
    ensures { result ≡ only_if (is_class_name text.now) text.now }
{
    ClassName::new(text)
}

fn value(text: &[u8]) -> Option<Value>
    ensures { result ≡ only_if (is_value text.now) text.now }
{
    Value::new(text)
}

/// An asset whose class and value are of these texts.
fn asset(number: u64, lateral: u32, class: &[u8], text: &[u8]) -> Option<Asset>
    ensures { result ≡ only_if (is_class_name class.now && is_value text.now)
        (record
        { number = number; class = class.now; value = text.now; lateral = lateral; entered_by = 0 }) }
{
    let class = class_name(class)?;
    let value = value(text)?;
    Some(Asset {
        number,
        class,
        value,
        lateral,
        entered_by: 0,
    })
}

/// A value that a stored row can say.
pub trait Said: Sized + Drop {
    ghost use Rattle.std.specs.Prelude.{◌≡◌, Option};
    ghost use Rattle.sqlite_value.specs.Order.{Row as Cells};

    ghost said: { Cells → Option Self };

    /// What a row says, if it says something.
    fn said(row: &Row) -> Option<Self>
        ensures { result ≡ said row.now };
}

/// What all rows say, if each says something.
pub fn said_all<T: Said>(alloc: Global, rows: &[Row]) -> Result<Option<Vec<T>>, AllocError>
    ensures { IfOk result (λ found. option_map (λ v. v.items) found ≡ each_of T.said rows.now) }
{
    let mut found = Vec::new(alloc);
    for row in rows {
        let Some(value) = T::said(row) else {
            return Ok(None);
        };
        found.push(value)?;
    }
    Ok(Some(found))
}

/// Whether a link has its number and its length within their limits.
fn is_link(number: u64, length: u64) -> bool
    ensures { result ≡ is_link number length }
{
    1 <= number
        && number <= u64::from(GREATEST_LINK)
        && 1 <= length
        && length <= u64::from(LONGEST_LINK)
}

impl Said for Link {
    ghost use Rattle.lrs_store_tables.specs.Contents.Decoders.{link_of};
    ghost use Rattle.lrs_store_tables.specs.StoredRows.{link_in};

    ghost said = { λ r. link_of (link_in r) };

    fn said(row: &Row) -> Option<Link> {
        let number = number_at(row, 0)?;
        let length = number_at(row, 1)?;
        if !is_link(number, length) {
            return None;
        }
        Some(Link {
            number: number as u32,
            length: length as u32,
        })
    }
}

impl Said for Class {
    ghost use Rattle.lrs_store_tables.specs.Contents.Decoders.{class_of};
    ghost use Rattle.lrs_store_tables.specs.StoredRows.{class_in};

    ghost said = { λ r. class_of (class_in r) };

    fn said(row: &Row) -> Option<Class> {
        let kind = kind_numbered(whole(whole_at(row, 1))?)?;
        let name = class_name(text_at(row, 0))?;
        Some(Class { name, kind })
    }
}

impl Said for Asset {
    ghost use Rattle.lrs_store_tables.specs.Contents.Decoders.{asset_of};
    ghost use Rattle.lrs_store_tables.specs.StoredRows.{asset_in};

    ghost said = { λ r. asset_of (asset_in r) };

    fn said(row: &Row) -> Option<Asset> {
        let number = whole(whole_at(row, 0))?;
        let lateral = short(whole_at(row, 3))?;
        asset(number, lateral, text_at(row, 1), text_at(row, 2))
    }
}

impl Said for Part {
    ghost use Rattle.lrs_store_tables.specs.Contents.Decoders.{part_of};
    ghost use Rattle.lrs_store_tables.specs.StoredRows.{entered_in};

    ghost said = { λ r. part_of (entered_in r) };

    fn said(row: &Row) -> Option<Part> {
        let edit = whole(whole_at(row, 0))?;
        let asset = whole(whole_at(row, 1))?;
        let link = short(whole_at(row, 2))?;
        let from = short(whole_at(row, 3))?;
        let to = short(whole_at(row, 4))?;
        let side = side_numbered(whole(whole_at(row, 5))?)?;
        Some(Part {
            edit,
            asset,
            link,
            from,
            to,
            side,
        })
    }
}

impl Said for Gone {
    ghost use Rattle.lrs_store_tables.specs.Contents.Decoders.{gone_of};
    ghost use Rattle.lrs_store_tables.specs.StoredRows.{gone_in};

    ghost said = { λ r. gone_of (gone_in r) };

    fn said(row: &Row) -> Option<Gone> {
        let abandoned = is_abandoned(whole(whole_at(row, 1))?)?;
        let edit = whole(whole_at(row, 0))?;
        let asset = whole(whole_at(row, 2))?;
        let link = short(whole_at(row, 3))?;
        let from = short(whole_at(row, 4))?;
        let to = short(whole_at(row, 5))?;
        let side = side_numbered(whole(whole_at(row, 6))?)?;
        let part = Part {
            edit,
            asset,
            link,
            from,
            to,
            side,
        };
        Some(Gone { part, abandoned })
    }
}
