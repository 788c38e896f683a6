//! Commands that are done together: here first, by changes that are kept then.

ghost use Rattle.std.specs.Prelude.{◌≡◌, ◌+◌, ◌<◌, ◌≤◌, ◌∷◌, ◌++◌, [], IfNone, IfOk, IfSome, OnOk, OnErr, length, vec_len, vec_capacity};
ghost use Rattle.lrs_image.specs.Change.{apply, CanMake, rows_of};
ghost use Rattle.lrs_image.specs.ChangeLists.{rows_in};
ghost use Rattle.lrs_image.specs.KeeperCalls.{OnlyStages};
ghost use Rattle.lrs_machine.specs.Stop.StoppedRuns.{IsAccepted};
ghost use Rattle.lrs_report_answers.specs.Tally.RunningCounts.{IsCounted};
ghost use Rattle.lrs_inventory.specs.Plans.{change_of, TellsGround};
ghost use Rattle.lrs_desk.specs.Desk.{AreBounded, StopsBy, most_rows, records_of};
ghost use Rattle.lrs_desk.specs.Group.{DoesNext, IsGroup};

use crate::decision::{Decision, decide};
use lrs_events::Class;
use lrs_image::{Difference, Keeper};
use lrs_inventory::{Inventory, Plan};
use lrs_machine::{Answer, Command, Edit, Key, Limits};
use lrs_report_answers::Counts;
use std::alloc::{AllocError, Global};

/// What `Desk::act_on_first` did of the commands that it was given.
#[derive(Drop)]
pub struct FirstAnswers {
    /// The answers to the first of them, in order.
    pub answers: Vec<Answer>,
    /// Whether memory ran out for the next one.
    pub ran_out: bool,
}

/// The most rows that the changes of a group list before its last one.
const MOST_ROWS: u64 = 4_096;

/// Does the first of these commands, in order: one at least, and no more after one that is refused, or by which more than
/// 4,096 rows are listed. What they change is staged. Where memory runs out for another one than the first, those before
/// it are done.
///
/// # Errors
/// When memory runs out for the first; nothing has changed then.
pub fn do_first<K: Keeper>(
    alloc: Global,
    limits: &Limits,
    inventory: &mut Inventory,
    counts: &mut Counts,
    keeper: &mut K,
    commands: &[(Key, Command)],
) -> Result<FirstAnswers, AllocError>
    requires some { 1 ≤ length commands.now }
    requires staged { K.staged keeper.old ≡ [] }
    requires counted { IsCounted inventory.old counts.old }
    ensures does { IfOk result (λ done. IsGroup limits.now (records_of commands.now)
        inventory.old inventory.new done.answers.items (K.staged keeper.new)) }
    ensures stops { IfOk result (λ done. StopsBy done.ran_out (length commands.now)
        inventory.old inventory.new done.answers.items) }
    ensures bounded { AreBounded (K.staged keeper.new) }
    ensures memory { OnErr result (inventory.new ≡ inventory.old) }
    ensures not_staged { OnErr result (K.staged keeper.new ≡ []) }
    ensures rest { OnlyStages K.Holder keeper.old keeper.new }
    ensures counted { IsCounted inventory.new counts.new }
{
    inventory.prove_sound();
    let mut given = Vec::new(alloc);
    let mut rows = 0;
    for (key, command) in commands {
        match do_next(
            alloc, limits, inventory, counts, keeper, key, command, rows, &mut given,
        ) {
            Ok(Some(more)) => rows = more,
            Ok(None) => {
                return Ok(FirstAnswers {
                    answers: given,
                    ran_out: false,
                });
            }
            Err(AllocError) => {
                if given.is_empty() {
                    return Err(AllocError);
                }
                return Ok(FirstAnswers {
                    answers: given,
                    ran_out: true,
                });
            }
        }
    }
    Ok(FirstAnswers {
        answers: given,
        ran_out: false,
    })
}

// Does one more command behind those that list so many rows, and says how many are listed then, if another may follow:
// none does behind a refusal, or where they are too many. Lack of memory changes nothing.
fn do_next<K: Keeper>(
    alloc: Global,
    limits: &Limits,
    inventory: &mut Inventory,
    counts: &mut Counts,
    keeper: &mut K,
    key: &Key,
    command: &Command,
    rows: u64,
    given: &mut Vec<Answer>,
) -> Result<Option<u64>, AllocError>
    requires counted { IsCounted inventory.old counts.old }
    requires listed { rows ≡ rows_in (K.staged keeper.old) }
    requires few { rows ≤ most_rows }
    ensures does { IfOk result (DoesNext limits.now key.now command.now
        inventory.old inventory.new given.old.items given.new.items
        (K.staged keeper.old) (K.staged keeper.new)) }
    ensures memory { OnErr result (inventory.new ≡ inventory.old) }
    ensures given { OnErr result (given.new.items ≡ given.old.items) }
    ensures not_staged { OnErr result (K.staged keeper.new ≡ K.staged keeper.old) }
    ensures rest { OnlyStages K.Holder keeper.old keeper.new }
    ensures counted { IsCounted inventory.new counts.new }
{
    given.reserve(1)?; // nothing fails once the command is done
    let line = command.line(alloc)?;
    match decide(alloc, inventory, limits, key, command, &line)? {
        Decision::Stay(answer) => {
            let next = rows_behind(&answer, rows);
            push_in_room(given, answer);
            Ok(next)
        }
        Decision::Make(plan) => {
            let next = rows_with(rows, &plan.difference);
            let edit = Edit { key: *key, line };
            let answer = make(alloc, inventory, counts, keeper, edit, plan)?;
            push_in_room(given, answer);
            Ok(next)
        }
    }
}

// So many rows still, behind a command that is answered so and changes nothing, unless it is refused.
fn rows_behind(answer: &Answer, rows: u64) -> Option<u64>
    ensures accepted { IfSome result (λ n. IsAccepted answer.now × (n ≡ rows)) }
    ensures refused { IfNone result (IsAccepted answer.now → ⊥) }
{
    match answer {
        Answer::Done(_) | Answer::Again(_) => Some(rows),
        Answer::Refused(_) => None,
    }
}

// The rows with those of one more change, unless they are too many.
fn rows_with(rows: u64, difference: &Difference) -> Option<u64>
    requires few { rows ≤ most_rows }
    ensures few { IfSome result (λ n. (n ≡ rows + rows_of difference.now) × (n ≤ most_rows)) }
    ensures many { IfNone result (most_rows < rows + rows_of difference.now) }
{
    let sum = rows.saturating_add(difference.rows());
    if sum <= MOST_ROWS { Some(sum) } else { None }
}

// Puts an element at the end of a vector that has room for it.
fn push_in_room<T: Drop>(items: &mut Vec<T>, item: T)
    requires room { vec_len items.old < vec_capacity items.old }
    ensures items { items.new.items ≡ items.old.items ++ item ∷ [] }
{
    if items.push(item).is_err() {
        unreachable!()
    }
}

// Makes the change of a plan here, stages it, and counts what it brings. It answers the number of its edit.
fn make<K: Keeper>(
    alloc: Global,
    inventory: &mut Inventory,
    counts: &mut Counts,
    keeper: &mut K,
    edit: Edit,
    plan: Plan,
) -> Result<Answer, AllocError>
    requires can { CanMake (change_of edit plan) inventory.old }
    requires tells { TellsGround plan inventory.old }
    requires counted { IsCounted inventory.old counts.old }
    ensures answer { IfOk result (λ answer. answer ≡ Answer.Done (length inventory.old.edits + 1)) }
    ensures staged { OnOk result (K.staged keeper.new ≡ K.staged keeper.old ++ change_of edit plan ∷ []) }
    ensures ok { OnOk result (inventory.new ≡ apply (change_of edit plan) inventory.old) }
    ensures err { OnErr result (inventory.new ≡ inventory.old) }
    ensures not_staged { OnErr result (K.staged keeper.new ≡ K.staged keeper.old) }
    ensures rest { OnlyStages K.Holder keeper.old keeper.new }
    ensures counted { IsCounted inventory.new counts.new }
{
    inventory.prove_sound();
    let Ok(()) = counts.reserve() else {
        plan.discard();
        drop(edit);
        return Err(AllocError);
    };
    let number = inventory.edits() + 1;
    let class = class_of(&plan);
    inventory.stage(alloc, keeper, edit, plan)?;
    counts.catch_up(inventory.kept(), class);
    Ok(Answer::Done(number))
}

// The new class of a plan, if it has one.
pub fn class_of(plan: &Plan) -> Option<Class>
    ensures { result ≡ plan.now.difference.class }
{
    plan.difference.class
}
