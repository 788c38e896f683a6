//! What is decided about a command: an answer, or what it changes.

ghost use Rattle.std.specs.Prelude.{◌≡◌, IfOk, IfSome, IfNone};
ghost use Rattle.lrs_measure.specs.Texts.{same_name};
ghost use Rattle.lrs_machine.specs.Image.{state_of};
ghost use Rattle.lrs_machine.specs.Lines.{line_of};
ghost use Rattle.lrs_machine.specs.Machine.{answer_known};
ghost use Rattle.lrs_machine.specs.declared.command.Command.{Command as CommandSaid};
ghost use Rattle.lrs_machine.specs.Stop.KnownEdits.{edit_of};
ghost use Rattle.lrs_desk.specs.Decisions.{IsDecision, HasRoom, LacksRoom};

use crate::commands::plan_command;
use lrs_inventory::{Inventory, Plan, Stop};
use lrs_machine::{Answer, Cause, Command, Edit, Key, Limits, Line, What};
use std::alloc::{AllocError, Global};

/// What becomes of a command.
#[derive(Drop)]
pub enum Decision {
    /// Nothing changes.
    Stay(Answer),
    /// This plan is made.
    Make(Plan),
}

/// Decides a command. Its key is looked for first, then the limits are, and then its verb's checks.
pub fn decide(
    alloc: Global,
    inventory: &Inventory,
    limits: &Limits,
    key: &Key,
    command: &Command,
    line: &Line,
) -> Result<Decision, AllocError>
    requires line { line.now ≡ line_of command.now }
    ensures decided { IfOk result (IsDecision limits.now key.now command.now inventory.now) }
{
    if let Some((number, edit)) = inventory.edit_of_key(key) {
        return Ok(Decision::Stay(known_answer(number, edit, line)));
    }
    if let Some(what) = lacks_room(inventory, limits, command) {
        return Ok(Decision::Stay(Answer::Refused(Cause::TooMany(what))));
    }
    inventory.prove_sound();
    match plan_command(alloc, inventory, command) {
        Ok(plan) => Ok(Decision::Make(plan)),
        Err(stop) => {
            let cause = refusal(stop)?;
            Ok(Decision::Stay(Answer::Refused(cause)))
        }
    }
}

/// Why a command is refused, or lack of memory.
fn refusal(stop: Stop) -> Result<Cause, AllocError>
    ensures { IfOk result (λ cause. stop ≡ Stop.Refused cause) }
{
    match stop {
        Stop::Refused(cause) => Ok(cause),
        Stop::Memory => Err(AllocError),
    }
}

/// The number of the edit that a command with this line is, under this key.
pub(crate) fn known_edit(inventory: &Inventory, key: &Key, line: &Line) -> Option<u64>
    ensures { (command : CommandSaid) → line.now ≡ line_of command
        → result ≡ edit_of (state_of inventory.now) (record { key = key.now; command = command }) }
{
    let (number, edit) = inventory.edit_of_key(key)?;
    has_line(edit, line).then_some(number)
}

/// Whether an edit is of a command with this line.
fn has_line(edit: &Edit, line: &Line) -> bool
    ensures { result ≡ same_name edit.now.line line.now }
{
    edit.line.as_str() == line.as_str()
}

fn known_answer(number: u64, edit: &Edit, line: &Line) -> Answer
    ensures { result ≡ answer_known number edit.now.line line.now }
{
    if has_line(edit, line) {
        Answer::Again(number)
    } else {
        Answer::Refused(Cause::KeyUsed(number))
    }
}

fn lacks_room(inventory: &Inventory, limits: &Limits, command: &Command) -> Option<What>
    ensures room { IfNone result (HasRoom limits.now command.now inventory.now) }
    ensures none { IfSome result (λ what. LacksRoom what limits.now command.now inventory.now) }
{
    let needs_asset = matches!(command, Command::Enter(_) | Command::Supersede(_));
    let needs_route = matches!(command, Command::Route { .. } | Command::Split { .. });
    if inventory.edits() >= limits.edits {
        Some(What::Edits)
    } else if needs_asset && inventory.assets() >= limits.assets {
        Some(What::Assets)
    } else if needs_route && inventory.routes() >= limits.routes {
        Some(What::Routes)
    } else {
        None
    }
}
