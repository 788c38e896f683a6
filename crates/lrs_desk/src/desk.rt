//! The desk: it does commands, and keeps what they change.

ghost use Rattle.std.specs.Prelude.{◌≡◌, ◌↔◌, IsTrue, ◌+◌, ◌≤◌, [], IfOk, IfErr, OnOk, OnErr, Ok, Err, Result, length, true, false};
ghost use Rattle.lrs_machine.specs.declared.table.Table.{Table};
ghost use Rattle.lrs_machine.specs.declared.image.Image.{Image as ImageRows};
ghost use Rattle.lrs_machine.specs.Image.{state_of};
ghost use Rattle.lrs_machine.specs.Machine.{step};
ghost use Rattle.lrs_machine.specs.Stop.KnownEdits.{edit_of};
ghost use Rattle.lrs_image.specs.Change.{apply, CanMake};
ghost use Rattle.lrs_image.specs.KeeperCalls.{HasLoaded, HasRisen, HoldsOnly};
ghost use Rattle.lrs_image.specs.ChangeLists.{KeepsOne};
ghost use Rattle.lrs_report_answers.specs.Tally.RunningCounts.{IsCounted};
ghost use Rattle.lrs_inventory.specs.Plans.{change_of, TellsGround};
ghost use Rattle.lrs_desk.specs.Desk.{IsUnchanged, HasBroken, DoesFirst, BreaksAmid, FindsImage, KeepsImage, MakesBounded, StopsBy, records_of};

use crate::decision::{Decision, decide, known_edit};
use crate::group::{FirstAnswers, class_of, do_first};
use lrs_image::{CommitFault, Keeper, LoadFault};
use lrs_inventory::{Inventory, Plan};
use lrs_machine::{Answer, Command, Edit, Fault, Key, Limits, Table};
use lrs_report_answers::Counts;
use std::alloc::Global;
use std::marker::Model;

/// Why a desk is not opened.
#[derive(Clone, Copy, PartialEq, Eq)]
pub enum OpenFault {
    Unsound(Table),
    Keep,
    Memory,
}

impl From<LoadFault> for OpenFault {
    ghost use Rattle.std.specs.Prelude.{◌≡◌};
    ghost use Rattle.lrs_desk.specs.Desk.{opened_by};

    ghost from_gives = { λ fault e. e ≡ opened_by fault };

    fn from(fault: LoadFault) -> Self {
        match fault {
            LoadFault::Memory => OpenFault::Memory,
            LoadFault::Store => OpenFault::Keep,
            LoadFault::Unsound(table) => OpenFault::Unsound(table),
        }
    }
}

/// Does commands under keys, over any keeper.
#[derive(Drop)]
pub struct Desk<K: Keeper> {
    keeper: K,
    inventory: Inventory,
    counts: Counts,
    limits: Limits,
    must_reopen: bool,
    is_ahead: bool,
    alloc: Global,
}

impl<K: Keeper> Model for Desk<K> {
    ghost use Rattle.lrs_desk.specs.DeskView.{DeskView, IsWorking};

    ghost Value = { DeskView K };

    ghost view = { λ d. record {
      image = d.inventory;
      limits = d.limits;
      must_reopen = d.must_reopen;
      is_ahead = d.is_ahead;
      keeper = d.keeper;
      failures = K.failures d.keeper;
    } };

    ghost invariant = { λ d. IsWorking d.inventory d.counts d.must_reopen d.is_ahead (record {
      may = K.may_hold d.keeper;
      IsClean = K.is_clean d.keeper;
      IsOpen = K.is_open d.keeper;
      is_loaded = K.is_loaded d.keeper;
      staged = K.staged d.keeper;
    }) };
}

impl<K: Keeper> Desk<K> {
    /// Opens a desk over what a keeper has, which is read as a whole. With a fault the keeper is given back,
    /// and has what it had.
    ///
    /// # Errors
    ///
    /// `Unsound` with the first unsound table of what is kept, which a clean device does give back; `Keep` if the keeper
    /// counts a failure.
    pub fn open(mut keeper: K, limits: Limits, alloc: Global) -> Result<Desk<K>, (OpenFault, K)>
        ensures image { IfOk result (λ desk. HoldsOnly (K.may_hold desk.keeper) desk.image) }
        ensures content { IfOk result (λ desk. (c : Result ImageRows Table)
            → K.may_hold desk.keeper c → K.may_hold keeper c) }
        ensures limits { IfOk result (λ desk. desk.limits ≡ limits) }
        ensures open { IfOk result (λ desk. desk.must_reopen ≡ false) }
        ensures behind { IfOk result (λ desk. desk.is_ahead ≡ false) }
        ensures failures { IfOk result (λ desk. desk.failures ≡ K.failures keeper) }
        ensures found { IfOk result (λ desk. K.is_clean desk.keeper
            → K.may_hold desk.keeper (Ok desk.image)) }
        ensures unsound { IfErr result (λ e. (t : Table) → e.0 ≡ OpenFault.Unsound t
            → (c : Result ImageRows Table) → K.may_hold e.1 c → c ≡ Err t) }
        ensures named { IfErr result (λ e. (t : Table) → e.0 ≡ OpenFault.Unsound t
            → K.is_clean e.1 → K.may_hold e.1 (Err t)) }
        ensures cause { IfErr result (λ e. e.0 ≡ OpenFault.Keep
            → HasRisen (K.failures keeper) (K.failures e.1)) }
        ensures quiet { IfErr result (λ e. (e.0 ≡ OpenFault.Keep → ⊥)
            → K.failures e.1 ≡ K.failures keeper) }
        ensures err { IfErr result (λ e. (c : Result ImageRows Table) → K.may_hold e.1 c
            → K.may_hold keeper c) }
    {
        let image = match keeper.load(alloc) {
            Ok(image) => image,
            Err(fault) => return Err((OpenFault::from(fault), keeper)),
        };
        let Ok(inventory) = Inventory::new(alloc, image) else {
            return Err((OpenFault::Memory, keeper));
        };
        let Ok(counts) = Counts::of_image(alloc, inventory.kept()) else {
            inventory.discard();
            return Err((OpenFault::Memory, keeper));
        };
        Ok(Desk {
            keeper,
            inventory,
            counts,
            limits,
            must_reopen: false,
            is_ahead: false,
            alloc,
        })
    }

    /// Gives the caller's proof what this desk keeps: while it need not be opened again, an opening finds its image and
    /// nothing else, and does find it where the device is clean; and that it tells the keeper's count of failures. It does
    /// nothing.
    pub fn prove_kept(&self)
        ensures kept { KeepsImage K.may_hold self.now }
        ensures found { FindsImage K.may_hold K.is_clean self.now }
        ensures failures { self.now.failures ≡ K.failures self.now.keeper }
    {
        let _ = &self.keeper;
    }

    /// What is known.
    pub fn inventory(&self) -> &Inventory
        ensures { result.now ≡ self.now.image }
    {
        &self.inventory
    }

    /// What has been entered, retired and abandoned of each class.
    pub fn counts(&self) -> &Counts
        ensures { IsCounted self.now.image result.now }
    {
        &self.counts
    }

    /// Whether a commit has failed, so that the keeper has to be opened again before a command is done.
    pub fn must_reopen(&self) -> bool
        ensures { result ≡ self.now.must_reopen }
    {
        self.must_reopen
    }

    /// Whether that commit was of several commands: the image has them, and an opening may not find them. So no question
    /// is answered then.
    pub fn is_ahead(&self) -> bool
        ensures { result ≡ self.now.is_ahead }
    {
        self.is_ahead
    }

    /// The number of the edit that a command is, where it was accepted under this key before.
    ///
    /// # Errors
    ///
    /// `MustReopen` once a commit has failed, and `Memory`.
    pub fn edit_of(&self, key: &Key, command: &Command) -> Result<Option<u64>, Fault>
        ensures edit { IfOk result (λ number. number ≡ edit_of (state_of self.now.image)
            (record { key = key.now; command = command.now })) }
        ensures reopen { (result ≡ Err Fault.MustReopen) ↔ IsTrue self.now.must_reopen }
        ensures never { result ≡ Err Fault.Keep → ⊥ }
    {
        if self.must_reopen {
            return Err(Fault::MustReopen);
        }
        let line = command.line(self.alloc)?;
        Ok(known_edit(&self.inventory, key, &line))
    }

    pub(crate) fn alloc(&self) -> Global {
        self.alloc
    }

    /// Gives the keeper back.
    pub fn into_keeper(self) -> K
        ensures keeper { result ≡ self.keeper }
    {
        let Desk {
            keeper,
            inventory,
            counts,
            ..
        } = self;
        inventory.discard();
        counts.discard();
        keeper
    }
}

impl<K: Keeper> Desk<K> {
    /// Does a command, unless its key was accepted before or a check fails. What it changes is kept before it is
    /// answered; nothing is kept for a command that changes nothing.
    ///
    /// # Errors
    ///
    /// `Memory`, and nothing has changed. `Keep` if the keeper counts a failure: what is kept is as it was, or has the
    /// command, and questions are answered as before it. `MustReopen` from then on.
    pub fn act(&mut self, key: Key, command: &Command) -> Result<Answer, Fault>
        // The answer and the next state are the ground machine's.
        ensures answer { IfOk result (λ answer. answer ≡ (step self.old.limits key command.now
            (state_of self.old.image)).answer) }
        ensures image { OnOk result (state_of self.new.image ≡ (step self.old.limits key command.now
            (state_of self.old.image)).state) }
        ensures content { OnOk result (HoldsOnly (K.may_hold self.new.keeper) self.new.image) }
        // Whatever is answered, while it need not be opened again.
        ensures found { FindsImage K.may_hold K.is_clean self.new }

        // Lack of memory changes nothing.
        ensures memory { result ≡ Err Fault.Memory → IsUnchanged K.may_hold self.old self.new }

        // A commit fails only where the keeper counts it; the image is then as before.
        ensures keep { result ≡ Err Fault.Keep → HasBroken K.may_hold key command.now
            self.old self.new }
        ensures counts { self.old.failures ≤ self.new.failures }

        // From then on the desk asks to be opened again, and at no other time.
        ensures reopen { (result ≡ Err Fault.MustReopen) ↔ IsTrue self.old.must_reopen }
        ensures stays { result ≡ Err Fault.MustReopen → IsUnchanged K.may_hold self.old self.new }
        ensures same { result ≡ Err Fault.MustReopen → self.new ≡ self.old }
        ensures limits { self.new.limits ≡ self.old.limits }
        ensures open { OnOk result (self.new.must_reopen ≡ false) }
        ensures ahead { OnOk result (self.new.is_ahead ≡ self.old.is_ahead) }
    {
        if self.must_reopen {
            return Err(Fault::MustReopen);
        }
        let line = command.line(self.alloc)?;
        let decision = decide(
            self.alloc,
            &self.inventory,
            &self.limits,
            &key,
            command,
            &line,
        )?;
        match decision {
            Decision::Stay(answer) => Ok(answer),
            Decision::Make(plan) => {
                let edit = Edit { key, line };
                let made = make(
                    self.alloc,
                    &mut self.inventory,
                    &mut self.counts,
                    &mut self.keeper,
                    edit,
                    plan,
                );
                self.must_reopen = matches!(made, Err(Fault::Keep));
                made
            }
        }
    }
}

impl<K: Keeper> Desk<K> {
    /// Does the first of these commands, in order: all of them, or up to the first that is refused, or up to one whose change
    /// lists with those before it more than 4,096 rows, or up to one for which memory ran out. What they change is kept
    /// before they are answered, all of it by one commit.
    ///
    /// # Errors
    ///
    /// `Memory` where it ran out for the first one, and nothing has changed. `Keep` if the keeper counts a failure of the commit, or memory runs out in it: all of
    /// them are kept then, or none, and the image is ahead of an opening that finds none, so no question is answered
    /// either. `MustReopen` from then on.
    pub fn act_on_first(&mut self, commands: &[(Key, Command)]) -> Result<FirstAnswers, Fault>
        requires some { 1 ≤ length commands.now }
        // The answers and the next state are the ground machine's.
        ensures does { IfOk result (λ done. DoesFirst self.old.limits (records_of commands.now)
            (state_of self.old.image) (state_of self.new.image) done.answers.items) }
        ensures stops { IfOk result (λ done. StopsBy done.ran_out (length commands.now)
            self.old.image self.new.image done.answers.items) }
        ensures bounded { OnOk result (MakesBounded self.old.image self.new.image) }
        ensures content { OnOk result (HoldsOnly (K.may_hold self.new.keeper) self.new.image) }
        // Whatever is answered, while it need not be opened again.
        ensures found { FindsImage K.may_hold K.is_clean self.new }

        // Lack of memory changes nothing.
        ensures memory { result ≡ Err Fault.Memory → IsUnchanged K.may_hold self.old self.new }

        // A commit fails only where the keeper counts it, and then all of them are kept or none.
        ensures keep { result ≡ Err Fault.Keep → BreaksAmid K.may_hold
            (records_of commands.now) self.old self.new }
        ensures counts { self.old.failures ≤ self.new.failures }

        // From then on the desk asks to be opened again, and at no other time.
        ensures reopen { (result ≡ Err Fault.MustReopen) ↔ IsTrue self.old.must_reopen }
        ensures stays { result ≡ Err Fault.MustReopen → IsUnchanged K.may_hold self.old self.new }
        ensures same { result ≡ Err Fault.MustReopen → self.new ≡ self.old }
        ensures limits { self.new.limits ≡ self.old.limits }
        ensures open { OnOk result (self.new.must_reopen ≡ false) }
        ensures ahead { OnOk result (self.new.is_ahead ≡ self.old.is_ahead) }
    {
        if self.must_reopen {
            return Err(Fault::MustReopen);
        }
        self.inventory.prove_sound();
        let edits = self.inventory.edits();
        let given = do_first(
            self.alloc,
            &self.limits,
            &mut self.inventory,
            &mut self.counts,
            &mut self.keeper,
            commands,
        )?;
        if self.inventory.edits() == edits {
            return Ok(given); // nothing is staged
        }
        match self.keeper.commit() {
            Ok(()) => Ok(given),
            Err(_) => {
                self.must_reopen = true;
                self.is_ahead = true;
                Err(Fault::Keep)
            }
        }
    }
}

// Makes the change of a plan, counts what it brings, and answers the number of its edit.
fn make<K: Keeper>(
    alloc: Global,
    inventory: &mut Inventory,
    counts: &mut Counts,
    keeper: &mut K,
    edit: Edit,
    plan: Plan,
) -> Result<Answer, Fault>
    requires has { HasLoaded K.Holder keeper.old inventory.old }
    requires staged { K.staged keeper.old ≡ [] }
    requires can { CanMake (change_of edit plan) inventory.old }
    requires tells { TellsGround plan inventory.old }
    requires counted { IsCounted inventory.old counts.old }
    ensures answer { IfOk result (λ answer. answer ≡ Answer.Done (length inventory.old.edits + 1)) }
    ensures ok { OnOk result (inventory.new ≡ apply (change_of edit plan) inventory.old) }
    ensures err { OnErr result (inventory.new ≡ inventory.old) }
    ensures keeps { KeepsOne K.Holder Fault.Memory Fault.Keep (change_of edit plan) inventory.old
        keeper.old keeper.new result }
    ensures only { result ≡ Err Fault.MustReopen → ⊥ }
    ensures staged { K.staged keeper.new ≡ [] }
    ensures counted { IsCounted inventory.new counts.new }
{
    inventory.prove_sound();
    let Ok(()) = counts.reserve() else {
        plan.discard();
        drop(edit);
        return Err(Fault::Memory);
    };
    let number = inventory.edits() + 1;
    let class = class_of(&plan);
    match inventory.make(alloc, keeper, edit, plan) {
        Ok(()) => {
            counts.catch_up(inventory.kept(), class);
            Ok(Answer::Done(number))
        }
        Err(fault) => Err(commit_fault(fault)),
    }
}

fn commit_fault(fault: CommitFault) -> Fault
    ensures memory { result ≡ Fault.Memory → fault ≡ CommitFault.Memory }
    ensures keep { (result ≡ Fault.Keep) ↔ (fault ≡ CommitFault.Store) }
    ensures only { result ≡ Fault.MustReopen → ⊥ }
{
    match fault {
        CommitFault::Memory => Fault::Memory,
        CommitFault::Store => Fault::Keep,
    }
}
