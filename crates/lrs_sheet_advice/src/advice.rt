//! Advice about a whole sheet.

ghost use Rattle.std.specs.Prelude.{◌≡◌, ◌∷◌, [], IfNone, IfOk, IfSome, OnOk, option_map};
ghost use Rattle.lrs_sheet_advice.specs.Refusals.{WritesAdvice, head_text, key_of, refusals, refusals_left};

use crate::fault::AdviceFault;
use crate::line::{AdviceLine, write_line};
use crate::records::Records;
use crate::refused::{say_head, say_refused};
use crate::reply::{is_refusal, key_text};
use lrs_sheet_records::{Sheet, cut_at};
use std::alloc::{AllocError, Global};
use std::io::Write;

/// A reply that refuses its record, and the replies behind it.
#[derive(Clone, Copy)]
pub(crate) struct Refusal<'a> {
    pub reply: &'a [u8],
    pub behind: Option<&'a [u8]>,
}

/// Goes on through the replies that are left and their records, up to the next reply that refuses its record.
#[tactic(auto, using(crate::proofs::RefusalsLeft::less, crate::proofs::RefusalsLeft::one_refused))]
pub(crate) fn next_refusal<'a>(
    records: &mut Records<'_>,
    replies: Option<&'a [u8]>,
) -> Result<Option<Refusal<'a>>, AdviceFault>
    ensures some { IfOk result (λ found. IfSome found (λ refusal.
        refusals_left (option_map (λ text. text.now) replies.entry) ≡ refusal.reply.now
        ∷ refusals_left (option_map (λ text. text.now) refusal.behind))) }
    ensures none { IfOk result (λ found. IfNone found
        (refusals_left (option_map (λ text. text.now) replies.entry) ≡ [])) }
{
    let mut left = replies;
    'replies: loop {
        match left {
            None => return Ok(None),
            Some(text) => {
                records.go_on()?;
                let (reply, behind) = cut_at(text, b'\n');
                if is_refusal(reply) {
                    return Ok(Some(Refusal { reply, behind }));
                }
                left = behind;
            }
        }
    }
}

/// Says where the record of a refusal is, what is wrong with it and what to do about it; gives the line on which it starts.
pub(crate) fn say_line(
    alloc: Global,
    head: &mut AdviceLine,
    body: &mut AdviceLine,
    records: &mut Records<'_>,
    reply: &[u8],
) -> Result<Option<usize>, AllocError>
    ensures { IfOk result (λ start. head.new ≡ head_text start (key_of reply.now)) }
{
    let start = records.line();
    say_head(alloc, head, start, key_text(reply))?;
    say_refused(alloc, body, records, reply)?;
    Ok(start)
}

/// Writes the line about a refusal.
fn advise<W: Write>(
    alloc: Global,
    writer: &mut W,
    head: &mut AdviceLine,
    body: &mut AdviceLine,
    records: &mut Records<'_>,
    reply: &[u8],
) -> Result<(), AdviceFault>
    ensures { OnOk result (WritesAdvice (reply.now ∷ [])
        (W.contents writer.old) (W.contents writer.new)) }
{
    say_line(alloc, head, body, records, reply)?;
    write_line(writer, head, body)
}

/// Goes on to the header, then through the refusals, and writes a line for each.
#[tactic(auto, using(crate::proofs::RefusalsLeft::fewer))]
fn write_lines<W: Write>(
    alloc: Global,
    writer: &mut W,
    head: &mut AdviceLine,
    body: &mut AdviceLine,
    records: &mut Records<'_>,
    replies: &[u8],
) -> Result<(), AdviceFault>
    ensures { OnOk result (WritesAdvice (refusals replies.now)
        (W.contents writer.old) (W.contents writer.new)) }
{
    records.go_on()?;
    let mut left = Some(replies);
    'refusals: loop {
        match next_refusal(records, left)? {
            Some(refusal) => {
                advise(alloc, writer, head, body, records, refusal.reply)?;
                left = refusal.behind;
            }
            None => return Ok(()),
        }
    }
}

/// Writes a line for each record of a sheet that its reply refuses, in their order: the line of the sheet on which the
/// record starts and its key, the field that is meant, what is wrong with it and what to do about it. `replies` are the
/// reply lines of the sheet, one a record. Where none refuses, nothing is written.
///
/// # Errors
///
/// `Write` if the writer fails, and `Memory`. Some of the lines may be written then.
pub fn write_advice<W: Write>(
    alloc: Global,
    writer: &mut W,
    kind: Sheet,
    sheet: &[u8],
    replies: &[u8],
) -> Result<(), AdviceFault>
    ensures { OnOk result (WritesAdvice (refusals replies.now)
        (W.contents writer.old) (W.contents writer.new)) }
{
    let mut records = Records::new(alloc, kind, sheet);
    let mut head = AdviceLine::new(alloc);
    let mut body = AdviceLine::new(alloc);
    write_lines(alloc, writer, &mut head, &mut body, &mut records, replies)
}
