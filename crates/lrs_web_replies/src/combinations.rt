//! The lengths of combinations of the values of exclusive classes, as replies.

ghost use Rattle.std.specs.Prelude.{◌≡◌, ◌++◌, IfOk, OnOk, codes, map};
ghost use Rattle.std.specs.List.{flat_map};
ghost use Rattle.serde_json.specs.View.{view};
ghost use Rattle.serde_json.specs.Written.{compact_text};
ghost use Rattle.lrs_report_answers.specs.Combinations.{combinations_text};
ghost use Rattle.lrs_web_requests.specs.Text.{answer_of};
ghost use Rattle.lrs_web_replies.specs.Combinations.{combination_data, combinations_data};
ghost use Rattle.lrs_web_replies.specs.Listings.{in_format, named_list};
ghost use Rattle.lrs_web_replies.specs.Parts.{item_text};

use crate::bounded::BoundedBytes;
use crate::class_values::with_held;
use crate::list_text::{add_item, begin, end};
use crate::members::{Member, Scalar, members_of};
use crate::reply::{csv_reply, found_reply};
use lrs_events::ClassName;
use lrs_report_answers::{Combination, write_combinations};
use lrs_web_requests::{Format, Response};
use serde_json::Value;
use std::alloc::{AllocError, Global};

/// A combination: its lengths in millimetres, and a value or null of each class.
fn combination_value(alloc: Global, combination: &Combination) -> Result<Value, AllocError>
    ensures { IfOk result (λ value. view value ≡ combination_data combination.now) }
{
    let members = members_of(
        alloc,
        &[
            Member("left", Scalar::Whole(combination.left)),
            Member("length", Scalar::Whole(combination.length)),
            Member("right", Scalar::Whole(combination.right)),
        ],
    )?;
    with_held(alloc, members, combination.values.as_slice())
}

fn add_combination(
    alloc: Global,
    most: usize,
    bytes: &mut Vec<u8>,
    combination: &Combination,
) -> Result<(), AllocError>
    ensures { OnOk result (bytes.new.items
        ≡ bytes.old.items ++ item_text (combination_data combination.now)) }
{
    let value = combination_value(alloc, combination)?;
    add_item(alloc, most, bytes, value)
}

/// Adds each combination, with a comma before it.
fn add_combinations(
    alloc: Global,
    most: usize,
    bytes: &mut Vec<u8>,
    combinations: &[Combination],
) -> Result<(), AllocError>
    ensures { OnOk result (bytes.new.items
        ≡ bytes.old.items ++ flat_map (λ one. item_text (combination_data one)) combinations.now) }
{
    for one in combinations {
        add_combination(alloc, most, bytes, one)?;
    }
    Ok(())
}

fn combinations_json(
    alloc: Global,
    most: usize,
    combinations: &[Combination],
) -> Result<Vec<u8>, AllocError>
    ensures { IfOk result (λ bytes. bytes.items ≡ compact_text
        (named_list (codes "combinations") (map combination_data combinations.now))) }
{
    let mut bytes = begin(alloc, "combinations")?;
    let start = bytes.len();
    add_combinations(alloc, most, &mut bytes, combinations)?;
    end(bytes, start)
}

// It takes every byte that it is given, unless it has no room for it or memory runs out.
fn combinations_lines(
    alloc: Global,
    most: usize,
    classes: &[ClassName],
    combinations: &[Combination],
) -> Result<Vec<u8>, AllocError>
    ensures { IfOk result (λ bytes. bytes.items ≡ combinations_text classes.now combinations.now) }
{
    let mut text = BoundedBytes::new(alloc, most);
    match write_combinations(&mut text, classes, combinations) {
        Ok(()) => Ok(text.bytes),
        Err(_) => Err(AllocError),
    }
}

/// The reply with the lengths of the combinations of the values of these classes, in a format: as JSON in millimetres, as
/// CSV in metres.
///
/// # Errors
/// When memory or so many bytes do not suffice.
pub(crate) fn combinations_reply(
    alloc: Global,
    most: usize,
    format: Format,
    classes: &[ClassName],
    combinations: &[Combination],
) -> Result<Response, AllocError>
    ensures { IfOk result (λ reply. answer_of reply
        ≡ in_format format (combinations_data classes.now combinations.now)
        (combinations_text classes.now combinations.now)) }
{
    match format {
        Format::Json => {
            let bytes = combinations_json(alloc, most, combinations)?;
            Ok(found_reply(bytes))
        }
        Format::Csv => {
            let bytes = combinations_lines(alloc, most, classes, combinations)?;
            Ok(csv_reply(bytes))
        }
    }
}
