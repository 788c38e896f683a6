//! What is told of a sheet that was tried, as a reply.

ghost use Rattle.std.specs.Prelude.{◌≡◌, ◌∷◌, ◌++◌, [], IfOk, OnOk, codes, option_map, vec_items};
ghost use Rattle.std.specs.List.{flat_map};
ghost use Rattle.std.specs.Str.Lines.{lines};
ghost use Rattle.serde_json.specs.Data.{string};
ghost use Rattle.serde_json.specs.Written.{compact_text};
ghost use Rattle.lrs_web_requests.specs.Text.{answer_of};
ghost use Rattle.lrs_web_replies.specs.JsonParts.{each};
ghost use Rattle.lrs_web_replies.specs.Parts.{item_text};
ghost use Rattle.lrs_web_replies.specs.Trials.{advice_data, count_data, counted, counts_text, fault_data, fault_text, lines_data, member_text, named_data, place_text, text_data, trial_answer, trial_status, trial_text, words_text};

use crate::list_text::{
    add_comma, add_front, add_item, add_name, add_text, add_value, begin, close_list,
};
use crate::reply::json_reply;
use http::StatusCode;
use lrs_sheet_advice::AdviceItem;
use lrs_web_requests::Response;
use serde_json::Value;
use std::alloc::{AllocError, Global};

/// How many replies there were of each kind.
#[derive(Clone, Copy)]
pub struct TrialCounts {
    pub done: u64,
    pub again: u64,
    pub refused: u64,
}

/// Why a sheet is none to its end.
#[derive(Clone, Copy)]
pub enum TrialFault {
    BadHeader,
    BadCsv,
}

impl TrialFault {
    fn name(self) -> &'static str
        ensures { result.now ≡ fault_text self }
    {
        match self {
            TrialFault::BadHeader => "BadHeader",
            TrialFault::BadCsv => "BadCsv",
        }
    }
}

/// Adds a count, or null where there is none.
fn add_count(alloc: Global, bytes: &mut Vec<u8>, count: Option<u64>) -> Result<(), AllocError>
    ensures { OnOk result (bytes.new.items
        ≡ bytes.old.items ++ compact_text (count_data count)) }
{
    match count {
        Some(count) => add_value(alloc, bytes, Value::from(count)),
        None => add_value(alloc, bytes, Value::Null),
    }
}

/// The object up to the end of its counts.
fn begin_counts(
    alloc: Global,
    done: Option<u64>,
    again: Option<u64>,
    refused: Option<u64>,
) -> Result<Vec<u8>, AllocError>
    ensures { IfOk result (λ bytes. bytes.items ≡ counts_text done again refused) }
{
    let mut bytes = begin(alloc, "done")?;
    add_count(alloc, &mut bytes, done)?;
    add_name(alloc, &mut bytes, "again")?;
    add_count(alloc, &mut bytes, again)?;
    add_name(alloc, &mut bytes, "refused")?;
    add_count(alloc, &mut bytes, refused)?;
    Ok(bytes)
}

/// The same by how the sheet ended.
fn begin_trial(
    alloc: Global,
    outcome: Result<TrialCounts, TrialFault>,
) -> Result<Vec<u8>, AllocError>
    ensures { IfOk result (λ bytes. bytes.items ≡ counts_text (counted (λ c. c.done) outcome)
        (counted (λ c. c.again) outcome) (counted (λ c. c.refused) outcome)) }
{
    match outcome {
        Ok(counts) => {
            let (done, again) = (Some(counts.done), Some(counts.again));
            begin_counts(alloc, done, again, Some(counts.refused))
        }
        Err(_) => begin_counts(alloc, None, None, None),
    }
}

/// Adds the member that names the fault.
fn add_fault(
    alloc: Global,
    bytes: &mut Vec<u8>,
    outcome: Result<TrialCounts, TrialFault>,
) -> Result<(), AllocError>
    ensures { OnOk result (bytes.new.items
        ≡ bytes.old.items ++ member_text (codes "fault") (fault_data outcome)) }
{
    add_name(alloc, bytes, "fault")?;
    let value = match outcome {
        Ok(_) => Value::Null,
        Err(fault) => Value::try_from_str(alloc, fault.name())?,
    };
    add_value(alloc, bytes, value)
}

fn add_line(alloc: Global, most: usize, bytes: &mut Vec<u8>, line: &str) -> Result<(), AllocError>
    ensures { OnOk result (bytes.new.items ≡ bytes.old.items ++ item_text (string line.now)) }
{
    let value = Value::try_from_str(alloc, line)?;
    add_item(alloc, most, bytes, value)
}

/// Adds each line of a text, with a comma before it.
#[tactic(auto, using(crate::proofs::TrialText::none_yet))]
fn add_lines(alloc: Global, most: usize, bytes: &mut Vec<u8>, text: &str) -> Result<(), AllocError>
    ensures { OnOk result (bytes.new.items
        ≡ bytes.old.items ++ flat_map (λ line. item_text (string line)) (lines text.now)) }
{
    for line in text.lines() {
        add_line(alloc, most, bytes, line)?;
    }
    Ok(())
}

/// Adds the list of the lines of a text.
fn add_line_list(
    alloc: Global,
    most: usize,
    bytes: &mut Vec<u8>,
    text: &str,
) -> Result<(), AllocError>
    ensures { OnOk result (bytes.new.items
        ≡ bytes.old.items ++ compact_text (each string (lines text.now))) }
{
    let start = bytes.len();
    add_lines(alloc, most, bytes, text)?;
    close_list(bytes, start)
}

/// Adds a member that is the list of the lines of a text.
fn add_lines_of(
    alloc: Global,
    most: usize,
    bytes: &mut Vec<u8>,
    name: &str,
    text: &[u8],
) -> Result<(), AllocError>
    ensures { OnOk result (bytes.new.items
        ≡ bytes.old.items ++ member_text name.now (lines_data text.now)) }
{
    add_name(alloc, bytes, name)?;
    let shown = String::from_utf8_lossy(alloc, text)?;
    add_line_list(alloc, most, bytes, shown.as_str())
}

// ---- advice

/// Adds a text as a value.
fn add_shown(alloc: Global, bytes: &mut Vec<u8>, text: &[u8]) -> Result<(), AllocError>
    ensures { OnOk result (bytes.new.items
        ≡ bytes.old.items ++ compact_text (text_data text.now)) }
{
    let shown = String::from_utf8_lossy(alloc, text)?;
    add_text(alloc, bytes, shown.as_str())
}

/// Adds the line of the sheet, or null where there is none.
fn add_line_number(
    alloc: Global,
    bytes: &mut Vec<u8>,
    line: Option<usize>,
) -> Result<(), AllocError>
    ensures { OnOk result (bytes.new.items
        ≡ bytes.old.items ++ compact_text (count_data line)) }
{
    match line {
        Some(line) => add_count(alloc, bytes, Some(line as u64)),
        None => add_count(alloc, bytes, None),
    }
}

/// Adds the letter of a column, or null where there is none.
fn add_letter(alloc: Global, bytes: &mut Vec<u8>, letter: Option<u8>) -> Result<(), AllocError>
    ensures { OnOk result (bytes.new.items ≡ bytes.old.items
        ++ compact_text (named_data (option_map (λ letter. letter ∷ []) letter))) }
{
    match letter {
        Some(letter) => add_shown(alloc, bytes, &[letter]),
        None => add_value(alloc, bytes, Value::Null),
    }
}

/// Adds a member that is a text, or null where there is none.
fn add_named(
    alloc: Global,
    bytes: &mut Vec<u8>,
    name: &str,
    text: &Option<Vec<u8>>,
) -> Result<(), AllocError>
    ensures { OnOk result (bytes.new.items ≡ bytes.old.items
        ++ member_text name.now (named_data (option_map vec_items text.now))) }
{
    add_name(alloc, bytes, name)?;
    match text {
        Some(text) => add_shown(alloc, bytes, text.as_slice()),
        None => add_value(alloc, bytes, Value::Null),
    }
}

/// Adds advice up to the end of its column.
fn add_place(alloc: Global, bytes: &mut Vec<u8>, advice: &AdviceItem) -> Result<(), AllocError>
    ensures { OnOk result (bytes.new.items ≡ bytes.old.items ++ place_text advice.now) }
{
    add_front(alloc, bytes, "line")?;
    add_line_number(alloc, bytes, advice.line)?;
    add_named(alloc, bytes, "key", &advice.key)?;
    add_name(alloc, bytes, "column")?;
    add_letter(alloc, bytes, advice.column)
}

/// Adds the rest of it.
fn add_words(alloc: Global, bytes: &mut Vec<u8>, advice: &AdviceItem) -> Result<(), AllocError>
    ensures { OnOk result (bytes.new.items ≡ bytes.old.items ++ words_text advice.now) }
{
    add_named(alloc, bytes, "value", &advice.value)?;
    add_named(alloc, bytes, "wanted", &advice.wanted)?;
    add_name(alloc, bytes, "text")?;
    add_shown(alloc, bytes, advice.text.as_slice())
}

/// Adds advice, with a comma before it.
#[tactic(auto, using(crate::proofs::TrialText::advice_written))]
fn add_advice(
    alloc: Global,
    most: usize,
    bytes: &mut Vec<u8>,
    advice: &AdviceItem,
) -> Result<(), AllocError>
    ensures { OnOk result (bytes.new.items
        ≡ bytes.old.items ++ item_text (advice_data advice.now)) }
{
    add_comma(most, bytes)?;
    add_place(alloc, bytes, advice)?;
    add_words(alloc, bytes, advice)?;
    bytes.push(b'}')?;
    Ok(())
}

/// Adds each item of advice, with a comma before it.
fn add_each_advice(
    alloc: Global,
    most: usize,
    bytes: &mut Vec<u8>,
    advice: &[AdviceItem],
) -> Result<(), AllocError>
    ensures { OnOk result (bytes.new.items
        ≡ bytes.old.items ++ flat_map (λ one. item_text (advice_data one)) advice.now) }
{
    for one in advice {
        add_advice(alloc, most, bytes, one)?;
    }
    Ok(())
}

/// Adds the list of advice.
fn add_advice_list(
    alloc: Global,
    most: usize,
    bytes: &mut Vec<u8>,
    advice: &[AdviceItem],
) -> Result<(), AllocError>
    ensures { OnOk result (bytes.new.items
        ≡ bytes.old.items ++ compact_text (each advice_data advice.now)) }
{
    let start = bytes.len();
    add_each_advice(alloc, most, bytes, advice)?;
    close_list(bytes, start)
}

/// Adds the member that is the list of advice.
fn add_advice_of(
    alloc: Global,
    most: usize,
    bytes: &mut Vec<u8>,
    advice: &[AdviceItem],
) -> Result<(), AllocError>
    ensures { OnOk result (bytes.new.items
        ≡ bytes.old.items ++ member_text (codes "advice") (each advice_data advice.now)) }
{
    add_name(alloc, bytes, "advice")?;
    add_advice_list(alloc, most, bytes, advice)
}

// ---- the whole

/// What is told of a sheet that was tried: how it ended, the lines of its replies, advice, and the lines of the difference
/// that it makes.
///
/// # Errors
/// When memory or so many bytes do not suffice.
#[tactic(auto, using(crate::proofs::TrialText::trial_written))]
fn trial_json(
    alloc: Global,
    most: usize,
    outcome: Result<TrialCounts, TrialFault>,
    replies: &[u8],
    advice: &[AdviceItem],
    difference: &[u8],
) -> Result<Vec<u8>, AllocError>
    ensures { IfOk result (λ bytes. bytes.items
        ≡ trial_text outcome replies.now advice.now difference.now) }
{
    let mut bytes = begin_trial(alloc, outcome)?;
    add_fault(alloc, &mut bytes, outcome)?;
    add_lines_of(alloc, most, &mut bytes, "replies", replies)?;
    add_advice_of(alloc, most, &mut bytes, advice)?;
    add_lines_of(alloc, most, &mut bytes, "difference", difference)?;
    bytes.push(b'}')?;
    Ok(bytes)
}

fn status_of(outcome: Result<TrialCounts, TrialFault>) -> StatusCode
    ensures { result ≡ trial_status outcome }
{
    match outcome {
        Ok(_) => StatusCode::OK,
        Err(_) => StatusCode::UNPROCESSABLE_ENTITY,
    }
}

/// The reply to a sheet that was tried: how it ended, the lines of what it would be answered, advice, and the lines of what
/// differs behind it. It is no longer made once it has so many bytes.
///
/// # Errors
/// When memory or so many bytes do not suffice.
pub fn trial_reply(
    alloc: Global,
    most: usize,
    outcome: Result<TrialCounts, TrialFault>,
    replies: &[u8],
    advice: &[AdviceItem],
    difference: &[u8],
) -> Result<Response, AllocError>
    ensures { IfOk result (λ reply. answer_of reply
        ≡ trial_answer outcome replies.now advice.now difference.now) }
{
    let bytes = trial_json(alloc, most, outcome, replies, advice, difference)?;
    Ok(json_reply(status_of(outcome), bytes))
}
