//! The tables of a store as a keeper of batches.

ghost use Rattle.std.specs.Prelude.{◌≡◌, ◌⊎◌, ◌≤◌, IfOk, IfErr, OnOk, MatchResult, true, false, Ok, Err, Result};
ghost use Rattle.sqlite.specs.State.{HasCleanDisk, IsLive};
ghost use Rattle.sqlite.specs.Held.{state};
ghost use Rattle.sqlite.specs.Steps.{over_memory};
ghost use Rattle.lrs_machine.specs.declared.image.Image.{Image as ImageRows};
ghost use Rattle.lrs_machine.specs.declared.table.Table.{Table as DeclaredTable};
ghost use Rattle.lrs_machine.specs.Image.{nothing};
ghost use Rattle.lrs_machine.specs.Sound.{IsSound};
ghost use Rattle.lrs_image.specs.KeeperCalls.{HasRisen, HoldsOnly, HoldsSound};
ghost use Rattle.lrs_store_tables.specs.StoredRows.{LeavesStore};
ghost use Rattle.lrs_store_tables.specs.Connections.{IsReady};
ghost use Rattle.lrs_store_tables.specs.Failures.{HasFailed};
ghost use Rattle.lrs_store_tables.specs.HeldRows.{MayHold};
ghost use Rattle.lrs_store.specs.TableKeeper.HeldImages.{IsOpenIfClean, IsSafe};
ghost use Rattle.lrs_store.specs.TableKeeper.Openings.{IsSecond, HoldsAnImage};

use crate::commit::write_next;
use crate::image::load_from;
use crate::memory::new_store;
use crate::migration::make_second;
use lrs_image::{Batches, Change, CommitFault, Holder, LoadFault};
use lrs_machine::{Image, Table};
use lrs_store_tables::StoreFault;
use lrs_store_tables::stored_rows::ReadImage;
use sqlite::{Alter, Connection, MemStore};
use std::alloc::Global;
use std::marker::Model;

/// Keeps an image in the tables of a store. A write is one transaction; loading reads all tables.
///
/// After a write that answered `Store` the connection is not used again: each call fails from then on, until the store
/// is opened anew. After a load that failed nothing is loaded, and the next load tries again.
#[derive(Drop)]
pub struct Tables<S: Alter, R: ReadImage> {
    conn: Connection<S>,
    reader: R,
    edits: u64,
    is_loaded: bool,
    is_broken: bool,
    failures: u64,
}

impl<S: Alter, R: ReadImage> Model for Tables<S, R> {
    ghost use Rattle.std.specs.Prelude.{◌≡◌, false};
    ghost use Rattle.sqlite.specs.Held.{state};
    ghost use Rattle.lrs_store.specs.TableKeeper.KeeperView.{KeeperView, view_code};
    ghost use Rattle.lrs_store.specs.TableKeeper.HeldImages.{IsUsable};

    ghost Value = { KeeperView S R };

    ghost coded = { view_code S.code R.code };

    ghost view = { λ k. record {
      conn = k.conn;
      reader = k.reader;
      edits = k.edits;
      is_loaded = k.is_loaded;
      is_broken = k.is_broken;
      failures = k.failures;
    } };

    ghost invariant = { λ k. k.is_broken ≡ false → IsUsable (state S.Store k.conn) k.conn.in_transaction k.is_loaded k.edits };
}

impl<S: Alter, R: ReadImage + Drop> Tables<S, R> {
    /// Keeps what the tables of a store hold. Rows of version 1, and those of a store that has none, become rows
    /// of version 2, in one transaction, and hold the same image. Nothing is loaded yet.
    ///
    /// # Errors
    /// `Unsound` with the first unsound table of rows that are not of version 2, all of which stay as they are; `Store`
    /// if the store fails, and of rows that are of version 2, or that hold no image, only where the disk failed, or
    /// statements of the connection may take only so many steps; and `Memory` if memory runs out. The connection is
    /// given back, and holds what it held: rows of version 2 stay as they are.
    pub fn open(
        alloc: Global,
        mut conn: Connection<S>,
        reader: R,
    ) -> Result<Tables<S, R>, (LoadFault, Connection<S>)>
        requires autocommit { conn.in_transaction ≡ false }
        requires ready { IsReady (state S.Store conn) }
        ensures unloaded { IfOk result (λ k. k.is_loaded ≡ false) }
        ensures usable { IfOk result (λ k. k.is_broken ≡ false) }
        ensures clean { MatchResult result (λ k. HasCleanDisk (state S.Store k.conn)
            → HasCleanDisk (state S.Store conn)) (λ e. HasCleanDisk (state S.Store e.1)
            → HasCleanDisk (state S.Store conn)) }
        ensures found { IfOk result (λ k. IsOpenIfClean (state S.Store k.conn)) }
        ensures second { IfOk result (λ k. IsSecond (state S.Store k.conn)) }
        ensures content { IfOk result (λ k. (c : Result ImageRows DeclaredTable)
            → MayHold (state S.Store k.conn) c → MayHold (state S.Store conn) c) }
        ensures unsound { IfErr result (λ e. (t : DeclaredTable) → e.0 ≡ LoadFault.Unsound t
            → (c : Result ImageRows DeclaredTable) → MayHold (state S.Store e.1) c → c ≡ Err t) }
        ensures err { IfErr result (λ e. (c : Result ImageRows DeclaredTable)
            → MayHold (state S.Store e.1) c → MayHold (state S.Store conn) c) }
        ensures still { IfErr result (λ e. (t : DeclaredTable) → e.0 ≡ LoadFault.Unsound t
            → LeavesStore (state S.Store conn) (state S.Store e.1)) }
        ensures failed { IsSecond (state S.Store conn) → IfErr result (λ e. e.0 ≡ LoadFault.Store
            → HasCleanDisk (state S.Store e.1)
            → HasFailed (state S.Store conn) (state S.Store e.1)) }
        ensures cause { IfErr result (λ e. e.0 ≡ LoadFault.Store → HasCleanDisk (state S.Store e.1)
            → HasFailed (state S.Store conn) (state S.Store e.1)
            ⊎ HoldsAnImage (state S.Store e.1)) }
        ensures limit { MatchResult result (λ k. (state S.Store k.conn).step_limit
            ≡ (state S.Store conn).step_limit) (λ e. (state S.Store e.1).step_limit
            ≡ (state S.Store conn).step_limit) }
        ensures untouched { IsSecond (state S.Store conn) → MatchResult result (λ k.
            LeavesStore (state S.Store conn) (state S.Store k.conn)) (λ e.
            LeavesStore (state S.Store conn) (state S.Store e.1)) }
    {
        match make_second(&reader, alloc, &mut conn) {
            Ok(()) => Ok(Tables {
                conn,
                reader,
                edits: 0,
                is_loaded: false,
                is_broken: false,
                failures: 0,
            }),
            Err(fault) => Err((fault, conn)),
        }
    }

    /// Where no write has failed, all that the connection sees is committed and in the tables, and while it is open that is
    /// a database: facts for proofs, which take no time.
    pub fn prove_serving(&self)
        ensures ready { self.now.is_broken ≡ false → IsReady (state S.Store self.now.conn) }
        ensures live { IsLive (state S.Store self.now.conn) }
    {
        let _live = self.conn.schema();
    }

    /// Whether a write has failed, or the store was given up.
    pub fn has_failed(&self) -> bool
        ensures { result ≡ self.now.is_broken }
    {
        self.is_broken
    }

    /// Gives the store up, as where its files are no longer at their path. What an opening may find stays as it is; the
    /// count of failures rises, and each load and each write fails from now on.
    pub fn give_up(&mut self)
        ensures given_up { self.new.is_broken ≡ true }
        ensures risen { HasRisen self.old.failures self.new.failures }
        ensures counts { self.old.failures ≤ self.new.failures }
        ensures kept { self.new.conn ≡ self.old.conn }
        ensures loaded { self.new.is_loaded ≡ self.old.is_loaded }
    {
        self.is_broken = true;
        self.failures = self.failures.saturating_add(1);
    }

    /// Gives the connection back, with no call of the store.
    pub fn into_connection(self) -> Connection<S>
        ensures { result ≡ self.conn }
    {
        let Tables { conn, .. } = self;
        conn
    }
}

impl<R: ReadImage + Drop> Tables<MemStore, R> {
    /// Keeps the image without entries in a new store in memory. Nothing has to be loaded before the first write.
    ///
    /// # Errors
    /// When memory runs out.
    pub fn in_memory(alloc: Global, reader: R) -> Result<Tables<MemStore, R>, StoreFault>
        ensures empty { IfOk result (λ k. HoldsOnly (MayHold (state over_memory k.conn)) nothing) }
        ensures safe { IfOk result (λ k. IsSafe (state over_memory k.conn)) }
        ensures loaded { IfOk result (λ k. k.is_loaded ≡ true) }
        ensures usable { IfOk result (λ k. k.is_broken ≡ false) }
    {
        let conn = new_store(alloc)?;
        Ok(Tables {
            conn,
            reader,
            edits: 0,
            is_loaded: true,
            is_broken: false,
            failures: 0,
        })
    }
}

impl<S: Alter, R: ReadImage> Holder for Tables<S, R> {
    ghost use Rattle.sqlite.specs.Held.{state};
    ghost use Rattle.std.specs.Prelude.{IsTrue};
    ghost use Rattle.sqlite.specs.State.{HasCleanDisk};
    ghost use Rattle.lrs_store_tables.specs.HeldRows.{MayHold};

    ghost may_hold = { λ k c. MayHold (state S.Store k.conn) c };

    ghost is_clean = { λ k. HasCleanDisk (state S.Store k.conn) };

    ghost is_open = { λ k. IsTrue (state S.Store k.conn).is_open };

    ghost is_loaded = { λ k. k.is_loaded };

    ghost failures = { λ k. k.failures };
}

impl<S: Alter, R: ReadImage> Batches for Tables<S, R> {
    ghost use Rattle.lrs_store.specs.TableKeeper.HeldImages.{finds_left};

    // The last three clauses are not of `Batches`: why the store fails, that all rows stay, whatever it answers, and that
    // no load gives the connection up.
    fn load(&mut self, alloc: Global) -> Result<Image, LoadFault>
        ensures image { IfOk result (λ image. (c : Result ImageRows DeclaredTable)
            → MayHold (state S.Store self.new.conn) c → c ≡ Ok image) }
        ensures sound { IfOk result (λ image. IsSound image) }
        ensures loaded { OnOk result (self.new.is_loaded ≡ true) }
        ensures unsound { (t : DeclaredTable) → result ≡ Err (LoadFault.Unsound t)
            → (c : Result ImageRows DeclaredTable) → MayHold (state S.Store self.new.conn) c
            → c ≡ Err t }
        ensures named { (t : DeclaredTable) → result ≡ Err (LoadFault.Unsound t)
            → HasCleanDisk (state S.Store self.new.conn)
            → MayHold (state S.Store self.new.conn) (Err t) }
        ensures store { result ≡ Err LoadFault.Store
            → HasRisen self.old.failures self.new.failures }
        ensures quiet { (result ≡ Err LoadFault.Store → ⊥)
            → self.new.failures ≡ self.old.failures }
        ensures counts { self.old.failures ≤ self.new.failures }
        ensures found { HoldsSound (MayHold (state S.Store self.new.conn)) }
        ensures content { (c : Result ImageRows DeclaredTable)
            → MayHold (state S.Store self.new.conn) c → MayHold (state S.Store self.old.conn) c }
        ensures open { OnOk result (IsOpenIfClean (state S.Store self.new.conn)) }
        ensures failed { result ≡ Err LoadFault.Store → self.old.is_broken ≡ false
            → HasCleanDisk (state S.Store self.new.conn)
            → HasFailed (state S.Store self.old.conn) (state S.Store self.new.conn) }
        ensures rows { LeavesStore (state S.Store self.old.conn) (state S.Store self.new.conn) }
        ensures goes_on { self.new.is_broken ≡ self.old.is_broken }
    {
        if self.is_broken {
            self.failures = self.failures.saturating_add(1);
            return Err(LoadFault::Store);
        }
        match load_from(&self.reader, alloc, &mut self.conn) {
            Ok(image) => {
                self.edits = image.edits.len() as u64;
                self.is_loaded = true;
                Ok(image)
            }
            Err(fault) => {
                self.is_loaded = false;
                self.failures = failures_after(self.failures, &fault);
                Err(fault)
            }
        }
    }

    fn write(&mut self, changes: &[Change]) -> Result<(), CommitFault> {
        if self.is_broken {
            self.failures = self.failures.saturating_add(1);
            return Err(CommitFault::Store);
        }
        match write_next(&mut self.conn, self.edits, changes) {
            Ok(edits) => {
                self.edits = edits;
                Ok(())
            }
            Err(CommitFault::Memory) => {
                self.failures = self.failures.saturating_add(1);
                Err(CommitFault::Memory)
            }
            Err(CommitFault::Store) => {
                self.is_broken = true; // what is kept is either
                self.failures = self.failures.saturating_add(1);
                Err(CommitFault::Store)
            }
        }
    }

    ghost finds = { λ k clean opened. finds_left _ _ clean (S.Store.stays k.conn.store opened) };
}

/// The count of failures after a fault of loading.
fn failures_after(failures: u64, fault: &LoadFault) -> u64
    ensures store { fault.now ≡ LoadFault.Store → HasRisen failures result }
    ensures quiet { (fault.now ≡ LoadFault.Store → ⊥) → result ≡ failures }
    ensures counts { failures ≤ result }
{
    match fault {
        LoadFault::Store => failures.saturating_add(1),
        LoadFault::Memory | LoadFault::Unsound(_) => failures,
    }
}
