//! What was taken away of assets, and what became of one asset, as replies.

ghost use Rattle.std.specs.Prelude.{◌≡◌, ◌++◌, IfOk, OnOk, map, filter};
ghost use Rattle.std.specs.List.{flat_map};
ghost use Rattle.std.specs.Option.{option_map};
ghost use Rattle.serde_json.specs.Written.{compact_text};
ghost use Rattle.lrs_machine.specs.Sound.{IsSound};
ghost use Rattle.lrs_image.specs.OpenLists.{image_of};
ghost use Rattle.lrs_report_lists.specs.Lines.{edit_numbered};
ghost use Rattle.lrs_report_lists.specs.WantedRows.{is_gone_of, is_part_of};
ghost use Rattle.lrs_web_replies.specs.Listings.{all_gone_data, entered_data, event_data_with, gone_data_with, history_data, history_items, left_data};
ghost use Rattle.lrs_web_replies.specs.Parts.{entered_part, gone_part, item_text, left_part};

use crate::entries::{event_value, gone_value};
use crate::list_text::{add_item, begin, end};
use lrs_events::{Asset, Gone, Part};
use lrs_image::ImageLists;
use lrs_machine::{Edit, GoneWanted};
use lrs_report_lists::{asset_numbered, edit_numbered, is_gone_wanted, is_part_of, reason_text};
use std::alloc::{AllocError, Global};

// ---- what is gone

fn add_gone_of(
    alloc: Global,
    most: usize,
    bytes: &mut Vec<u8>,
    edit: Option<&Edit>,
    asset: Option<&Asset>,
    gone: &Gone,
) -> Result<(), AllocError>
    ensures { OnOk result (bytes.new.items ≡ bytes.old.items ++ item_text
        (gone_data_with (option_map (λ e. e.now) edit.entry)
        (option_map (λ a. a.now) asset.entry) gone.now)) }
{
    let value = gone_value(alloc, edit, asset, gone)?;
    add_item(alloc, most, bytes, value)
}

/// Adds a part that is gone where it is asked for.
fn add_asked_part(
    alloc: Global,
    most: usize,
    bytes: &mut Vec<u8>,
    kept: &ImageLists,
    wanted: &GoneWanted,
    gone: &Gone,
) -> Result<(), AllocError>
    requires sound { IsSound (image_of kept.now) }
    ensures { OnOk result (bytes.new.items
        ≡ bytes.old.items ++ gone_part wanted.now (image_of kept.now) gone.now) }
{
    let asset = asset_numbered(&kept.assets, gone.part.asset);
    if is_gone_wanted(wanted, asset, gone) {
        let edit = edit_numbered(kept.edits.as_slice(), gone.part.edit);
        return add_gone_of(alloc, most, bytes, edit, asset, gone);
    }
    Ok(())
}

fn add_parts(
    alloc: Global,
    most: usize,
    bytes: &mut Vec<u8>,
    kept: &ImageLists,
    wanted: &GoneWanted,
    ledger: &[Gone],
) -> Result<(), AllocError>
    requires sound { IsSound (image_of kept.now) }
    ensures { OnOk result (bytes.new.items ≡ bytes.old.items
        ++ flat_map (gone_part wanted.now (image_of kept.now)) ledger.now) }
{
    for gone in ledger {
        add_asked_part(alloc, most, bytes, kept, wanted, gone)?;
    }
    Ok(())
}

pub(crate) fn gone_json(
    alloc: Global,
    most: usize,
    kept: &ImageLists,
    wanted: &GoneWanted,
) -> Result<Vec<u8>, AllocError>
    requires sound { IsSound (image_of kept.now) }
    ensures { IfOk result (λ bytes. bytes.items
        ≡ compact_text (all_gone_data wanted.now (image_of kept.now))) }
{
    let mut bytes = begin(alloc, "gone")?;
    let start = bytes.len();
    add_parts(alloc, most, &mut bytes, kept, wanted, kept.gone.as_slice())?;
    end(bytes, start)
}

// ---- the history of an asset

fn add_event_of(
    alloc: Global,
    most: usize,
    bytes: &mut Vec<u8>,
    edit: Option<&Edit>,
    event: &'static str,
    part: &Part,
) -> Result<(), AllocError>
    ensures { OnOk result (bytes.new.items ≡ bytes.old.items ++ item_text
        (event_data_with (option_map (λ e. e.now) edit.entry) event.now part.now)) }
{
    let value = event_value(alloc, edit, event, part)?;
    add_item(alloc, most, bytes, value)
}

/// Adds what became of a part by its edit.
fn add_event(
    alloc: Global,
    most: usize,
    bytes: &mut Vec<u8>,
    edits: &[Edit],
    event: &'static str,
    part: &Part,
) -> Result<(), AllocError>
    ensures { OnOk result (bytes.new.items ≡ bytes.old.items ++ item_text
        (event_data_with (edit_numbered edits.now part.now.edit) event.now part.now)) }
{
    let edit = edit_numbered(edits, part.edit);
    add_event_of(alloc, most, bytes, edit, event, part)
}

/// Adds a part that was entered, where it is of the asset.
fn add_entered(
    alloc: Global,
    most: usize,
    bytes: &mut Vec<u8>,
    asset: u64,
    edits: &[Edit],
    part: &Part,
) -> Result<(), AllocError>
    ensures { OnOk result (bytes.new.items
        ≡ bytes.old.items ++ entered_part asset edits.now part.now) }
{
    if is_part_of(asset, part) {
        return add_event(alloc, most, bytes, edits, "entered", part);
    }
    Ok(())
}

/// Adds a part that is gone, where it is of the asset.
fn add_left(
    alloc: Global,
    most: usize,
    bytes: &mut Vec<u8>,
    asset: u64,
    edits: &[Edit],
    gone: &Gone,
) -> Result<(), AllocError>
    ensures { OnOk result (bytes.new.items
        ≡ bytes.old.items ++ left_part asset edits.now gone.now) }
{
    if is_part_of(asset, &gone.part) {
        return add_event(
            alloc,
            most,
            bytes,
            edits,
            reason_text(gone.abandoned),
            &gone.part,
        );
    }
    Ok(())
}

fn add_each_entered(
    alloc: Global,
    most: usize,
    bytes: &mut Vec<u8>,
    asset: u64,
    edits: &[Edit],
    entered: &[Part],
) -> Result<(), AllocError>
    ensures { OnOk result (bytes.new.items
        ≡ bytes.old.items ++ flat_map (entered_part asset edits.now) entered.now) }
{
    for part in entered {
        add_entered(alloc, most, bytes, asset, edits, part)?;
    }
    Ok(())
}

fn add_each_left(
    alloc: Global,
    most: usize,
    bytes: &mut Vec<u8>,
    asset: u64,
    edits: &[Edit],
    ledger: &[Gone],
) -> Result<(), AllocError>
    ensures { OnOk result (bytes.new.items
        ≡ bytes.old.items ++ flat_map (left_part asset edits.now) ledger.now) }
{
    for gone in ledger {
        add_left(alloc, most, bytes, asset, edits, gone)?;
    }
    Ok(())
}

fn add_history(
    alloc: Global,
    most: usize,
    bytes: &mut Vec<u8>,
    kept: &ImageLists,
    asset: u64,
) -> Result<(), AllocError>
    ensures { OnOk result (bytes.new.items
        ≡ bytes.old.items ++ flat_map item_text (history_items asset (image_of kept.now))) }
{
    let edits = kept.edits.as_slice();
    add_each_entered(alloc, most, bytes, asset, edits, kept.entered.as_slice())?;
    add_each_left(alloc, most, bytes, asset, edits, kept.gone.as_slice())
}

pub(crate) fn history_json(
    alloc: Global,
    most: usize,
    kept: &ImageLists,
    asset: u64,
) -> Result<Vec<u8>, AllocError>
    ensures { IfOk result (λ bytes. bytes.items
        ≡ compact_text (history_data asset (image_of kept.now))) }
{
    let mut bytes = begin(alloc, "history")?;
    let start = bytes.len();
    add_history(alloc, most, &mut bytes, kept, asset)?;
    end(bytes, start)
}
