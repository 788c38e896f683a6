//! The text of a list, and of the object that has it, written item by item: no more than one item is in memory as a value.

ghost use Rattle.std.specs.Prelude.{◌≡◌, ◌∷◌, ◌++◌, [], List, length, false, IfOk, OnOk};
ghost use Rattle.std.specs.List.{flat_map};
ghost use Rattle.serde_json.specs.Data.{Data, string};
ghost use Rattle.serde_json.specs.View.{view};
ghost use Rattle.serde_json.specs.Written.{compact_text, has_float};
ghost use Rattle.lrs_machine.specs.Lines.{Text};
ghost use Rattle.lrs_web_replies.specs.Answers.{segment_data};
ghost use Rattle.lrs_web_replies.specs.Parts.{front_text, item_text, name_text, opened_text};
ghost use Rattle.lrs_web_replies.specs.JsonParts.{each, list as list_data};

use crate::answers::bytes_of;
use crate::list::Shown;
use lrs_report_answers::RouteSegments;
use serde_json::Value;
use std::alloc::{AllocError, Global};

/// Adds an object up to the value of its first member, which has this name.
pub(crate) fn add_front(alloc: Global, bytes: &mut Vec<u8>, name: &str) -> Result<(), AllocError>
    ensures { OnOk result (bytes.new.items ≡ bytes.old.items ++ front_text name.now) }
{
    bytes.push(b'{')?;
    add_text(alloc, bytes, name)?;
    bytes.push(b':')?;
    Ok(())
}

/// An object up to the value of its first member, which has this name.
pub(crate) fn begin(alloc: Global, name: &str) -> Result<Vec<u8>, AllocError>
    ensures { IfOk result (λ bytes. bytes.items ≡ front_text name.now) }
{
    let mut bytes = Vec::new(alloc);
    add_front(alloc, &mut bytes, name)?;
    Ok(bytes)
}

/// Adds a value.
pub(crate) fn add_value(alloc: Global, bytes: &mut Vec<u8>, value: Value) -> Result<(), AllocError>
    requires { has_float (view value) ≡ false }
    ensures { OnOk result (bytes.new.items ≡ bytes.old.items ++ compact_text (view value)) }
{
    let text = bytes_of(alloc, value)?;
    bytes.extend_from_slice(text.as_slice())
}

/// Adds a text as a value.
pub(crate) fn add_text(alloc: Global, bytes: &mut Vec<u8>, text: &str) -> Result<(), AllocError>
    ensures { OnOk result (bytes.new.items
        ≡ bytes.old.items ++ compact_text (string text.now)) }
{
    let value = Value::try_from_str(alloc, text)?;
    add_value(alloc, bytes, value)
}

/// Adds the comma before an item, where the text has not so many bytes yet.
pub(crate) fn add_comma(most: usize, bytes: &mut Vec<u8>) -> Result<(), AllocError>
    ensures { OnOk result (bytes.new.items ≡ bytes.old.items ++ 44 ∷ []) }
{
    if bytes.len() >= most {
        return Err(AllocError);
    }
    bytes.push(b',')?;
    Ok(())
}

/// Adds an item, with a comma before it, where the text has not so many bytes yet.
pub(crate) fn add_item(
    alloc: Global,
    most: usize,
    bytes: &mut Vec<u8>,
    item: Value,
) -> Result<(), AllocError>
    requires { has_float (view item) ≡ false }
    ensures { OnOk result (bytes.new.items ≡ bytes.old.items ++ item_text (view item)) }
{
    add_comma(most, bytes)?;
    add_value(alloc, bytes, item)
}

/// Adds the name of one more member, with a comma before it and a colon behind it.
pub(crate) fn add_name(alloc: Global, bytes: &mut Vec<u8>, name: &str) -> Result<(), AllocError>
    ensures { OnOk result (bytes.new.items ≡ bytes.old.items ++ name_text name.now) }
{
    let name = Value::try_from_str(alloc, name)?;
    add_item(alloc, usize::MAX, bytes, name)?;
    bytes.push(b':')?;
    Ok(())
}

fn add_one<T: Shown>(
    alloc: Global,
    most: usize,
    bytes: &mut Vec<u8>,
    one: &T,
) -> Result<(), AllocError>
    requires whole { has_float (T.shown one.now) ≡ false }
    ensures { OnOk result (bytes.new.items ≡ bytes.old.items ++ item_text (T.shown one.now)) }
{
    let value = one.value(alloc)?;
    add_item(alloc, most, bytes, value)
}

/// Adds each segment, with a comma before it.
fn add_segments(
    alloc: Global,
    most: usize,
    bytes: &mut Vec<u8>,
    mut segments: RouteSegments<'_>,
) -> Result<(), AllocError>
    ensures { OnOk result (bytes.new.items
        ≡ bytes.old.items ++ flat_map (λ one. item_text (segment_data one)) segments.entry) }
{
    while let Some(segment) = segments.first() {
        add_one(alloc, most, bytes, segment)?;
        segments.pass();
    }
    Ok(())
}

/// Puts the opening bracket in the place of the first comma; where there are no items, behind what there is.
fn open_list(bytes: &mut Vec<u8>, start: usize) -> Result<(), AllocError>
    ensures { OnOk result ((front : Text) (items : List Data) → length front ≡ start
        → bytes.old.items ≡ front ++ flat_map item_text items
        → bytes.new.items ≡ front ++ opened_text items) }
{
    if start < bytes.len() {
        bytes[start] = b'[';
        return Ok(());
    }
    bytes.push(b'[')?;
    Ok(())
}

/// Ends the list, whose items begin behind so many bytes.
pub(crate) fn close_list(bytes: &mut Vec<u8>, start: usize) -> Result<(), AllocError>
    ensures { OnOk result ((front : Text) (items : List Data) → length front ≡ start
        → bytes.old.items ≡ front ++ flat_map item_text items
        → bytes.new.items ≡ front ++ compact_text (list_data items)) }
{
    open_list(bytes, start)?;
    bytes.push(b']')?;
    Ok(())
}

/// Adds the list of segments, one by one.
pub(crate) fn add_segment_list(
    alloc: Global,
    most: usize,
    bytes: &mut Vec<u8>,
    segments: RouteSegments<'_>,
) -> Result<(), AllocError>
    ensures { OnOk result (bytes.new.items
        ≡ bytes.old.items ++ compact_text (each segment_data segments.entry)) }
{
    let start = bytes.len();
    add_segments(alloc, most, bytes, segments)?;
    close_list(bytes, start)
}

/// Ends the list, whose items begin behind so many bytes, and the object.
pub(crate) fn end(mut bytes: Vec<u8>, start: usize) -> Result<Vec<u8>, AllocError>
    ensures { IfOk result (λ whole. (front : Text) (items : List Data) → length front ≡ start
        → bytes.items ≡ front ++ flat_map item_text items
        → whole.items ≡ front ++ (compact_text (list_data items) ++ 125 ∷ [])) }
{
    close_list(&mut bytes, start)?;
    bytes.push(b'}')?;
    Ok(bytes)
}
