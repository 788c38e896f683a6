//! The replies that refuse a record, as lines.

ghost use Rattle.std.specs.Prelude.{◌≡◌, ◌++◌, ◌∷◌, [], IfOk, OnOk};
ghost use Rattle.std.specs.List.{filter};
ghost use Rattle.lrs_sheet_advice.specs.AdviceLines.{lines_text};
ghost use Rattle.lrs_sheet_advice.specs.Refusals.{is_refusal as refuses, refusals};

use crate::reply::is_refusal;
use lrs_sheet_records::cut_at;
use std::alloc::{AllocError, Global};

fn push_line(lines: &mut Vec<u8>, line: &[u8]) -> Result<(), AllocError>
    ensures { OnOk result (lines.new.items ≡ lines.old.items ++ lines_text (line.now ∷ [])) }
{
    lines.extend_from_slice(line)?;
    lines.push(b'\n')?;
    Ok(())
}

/// Adds a reply as a line if it refuses its record.
fn push_refusal(lines: &mut Vec<u8>, reply: &[u8]) -> Result<(), AllocError>
    ensures { OnOk result (lines.new.items
        ≡ lines.old.items ++ lines_text (filter refuses (reply.now ∷ []))) }
{
    if is_refusal(reply) {
        push_line(lines, reply)
    } else {
        Ok(())
    }
}

/// The lines among these replies that refuse a record, in their order.
///
/// # Errors
/// When memory runs out.
pub fn refusals(alloc: Global, replies: &[u8]) -> Result<Vec<u8>, AllocError>
    ensures { IfOk result (λ lines. lines.items ≡ lines_text (refusals replies.now)) }
{
    let mut lines = Vec::new(alloc);
    let mut rest = replies;
    'replies: loop {
        let (reply, behind) = cut_at(rest, b'\n');
        push_refusal(&mut lines, reply)?;
        match behind {
            Some(text) => rest = text,
            None => return Ok(lines),
        }
    }
}
