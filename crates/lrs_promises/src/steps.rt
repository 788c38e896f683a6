//! The calls of a desk as steps of a run that may stop.

ghost use Rattle.std.specs.Prelude.{◌≡◌, ◌≤◌, ◌++◌, ◌∷◌, ◌↔◌, [], Err, List, length, IfOk, IfErr, OnOk, IsTrue, Result};
ghost use Rattle.lrs_machine.specs.declared.answer.Limits.{Limits as DeskLimits};
ghost use Rattle.lrs_machine.specs.declared.image.Image.{Image as ImageRows};
ghost use Rattle.lrs_machine.specs.declared.table.Table.{Table as ImageTable};
ghost use Rattle.lrs_machine.specs.Image.{state_of};
ghost use Rattle.lrs_machine.specs.Machine.{step as do_step};
ghost use Rattle.lrs_machine.specs.State.{State};
ghost use Rattle.lrs_machine.specs.Stop.StoppedRuns.{Step, Open, Stop};
ghost use Rattle.lrs_machine.specs.Stop.Laws.{IsMadeBy};
ghost use Rattle.lrs_desk.specs.Desk.{IsUnchanged, records_of};
ghost use Rattle.lrs_promises.specs.DeskLaws.Steps.{AreStepsOf, IsAtRest, IsInRun, step_of};

use lrs_desk::{
    Answer, Command, Desk, Fault, FirstAnswers, Holder, Keeper, Key, Limits, OpenFault, Plain,
};
use std::alloc::Global;

/// Opens a desk, as `Desk::open` does. Where the device gives something back, the desk acts on what is stored:
/// the fold over the commands that were answered, with all of the commands in flight or none, at their point.
///
/// # Errors
/// Those of `Desk::open`; what is stored is as it was.
pub fn open<K: Keeper>(keeper: K, limits: Limits, alloc: Global) -> Result<Desk<K>, (OpenFault, K)>
    ensures step { IfOk result (λ desk. (start : State) (xs : List Step)
        (c : Result ImageRows ImageTable) → IsAtRest limits start xs (K.may_hold keeper)
        → K.may_hold desk.keeper c → IsInRun K.may_hold limits start (xs ++ Open ∷ []) desk) }
    ensures fold { IfOk result (λ desk. (start : State) (xs : List Step)
        (c : Result ImageRows ImageTable) → IsAtRest limits start xs (K.may_hold keeper)
        → K.may_hold desk.keeper c → IsMadeBy limits start (xs ++ Open ∷ [])
        (state_of desk.image)) }
    ensures failed { IfErr result (λ e. (start : State) (xs : List Step)
        → IsAtRest limits start xs (K.may_hold keeper)
        → IsAtRest limits start (xs ++ Stop ∷ []) (K.may_hold e.1)) }
{
    Desk::open(keeper, limits, alloc)
}

/// Does a command, as `Desk::act` does: it is one step of a run, whatever is answered.
///
/// # Errors
/// Those of `Desk::act`: after `Keep` the command is in flight alone.
pub fn act<K: Keeper>(desk: &mut Desk<K>, key: Key, command: &Command) -> Result<Answer, Fault>
    ensures step { (limits : DeskLimits) (start : State) (xs : List Step)
        → IsInRun K.may_hold limits start xs desk.old → IsInRun K.may_hold limits start
        (xs ++ step_of (record { key = key; command = command.now }) result ∷ []) desk.new }
{
    desk.act(key, command)
}

/// Does a command over an inventory in memory, as `Desk::act` does. No commit fails there.
///
/// # Errors
/// When memory runs out; nothing has changed then. `MustReopen` where the desk asks for it before.
pub fn act_in_memory(desk: &mut Desk<Plain>, key: Key, command: &Command) -> Result<Answer, Fault>
    ensures answer { IfOk result (λ answer. answer ≡ (do_step desk.old.limits key command.now
        (state_of desk.old.image)).answer) }
    ensures image { OnOk result (state_of desk.new.image ≡ (do_step desk.old.limits key command.now
        (state_of desk.old.image)).state) }
    ensures memory { result ≡ Err Fault.Memory
        → IsUnchanged ⟦<Plain as Holder>⟧.may_hold desk.old desk.new }
    ensures reopen { (result ≡ Err Fault.MustReopen) ↔ IsTrue desk.old.must_reopen }
    ensures stays { result ≡ Err Fault.MustReopen
        → IsUnchanged ⟦<Plain as Holder>⟧.may_hold desk.old desk.new }
    ensures never { result ≡ Err Fault.Keep → ⊥ }
{
    desk.prove_kept();
    let answer = desk.act(key, command);
    desk.prove_kept();
    answer
}

/// Does the first of these commands, as `Desk::act_on_first` does, whatever is answered.
///
/// # Errors
/// Those of `Desk::act_on_first`: after `Keep` the first ones of the commands are in flight.
pub fn act_on_first<K: Keeper>(
    desk: &mut Desk<K>,
    commands: &[(Key, Command)],
) -> Result<FirstAnswers, Fault>
    requires some { 1 ≤ length commands.now }
    ensures step { (limits : DeskLimits) (start : State) (xs : List Step)
        → IsInRun K.may_hold limits start xs desk.old
        → (steps : List Step) × AreStepsOf (records_of commands.now) result steps
        × IsInRun K.may_hold limits start (xs ++ steps) desk.new }
{
    desk.act_on_first(commands)
}

/// Lets a desk go between two commands; the keeper can be opened again.
pub fn close<K: Keeper>(desk: Desk<K>) -> K
    ensures step { (limits : DeskLimits) (start : State) (xs : List Step)
        → IsInRun K.may_hold limits start xs desk → IsAtRest limits start (xs ++ Stop ∷ [])
        (K.may_hold result) }
{
    desk.into_keeper()
}
