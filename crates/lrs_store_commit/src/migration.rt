//! A store of version 1 is brought up to version 2, with the edits that entered its assets.

ghost use Rattle.std.specs.Prelude.{◌≡◌, OnOk, IsTrue, false};
ghost use Rattle.sqlite.specs.State.{HasCleanDisk, Survives};
ghost use Rattle.sqlite.specs.Held.{state};
ghost use Rattle.lrs_store_tables.specs.Contents.Tables.{AreSame};
ghost use Rattle.lrs_store_tables.specs.Contents.Laws.{brought_up};
ghost use Rattle.lrs_store_tables.specs.StoredRows.{IsWriting, Makes, stored, Changes};
ghost use Rattle.lrs_store_tables.specs.RowChanges.{with_origins, without_version, without_origins};
ghost use Rattle.lrs_store_tables.specs.RowLaws.{same_refl, origins_more};
ghost use Rattle.lrs_store_tables.specs.Connections.{IsReady};
ghost use Rattle.lrs_store_tables.specs.NewStores.{BringsUp};

use crate::lists::{Written, write_all};
use lrs_events::Asset;
use lrs_store_tables::insert::{put_origin, put_version};
use sqlite::{Alter, Connection, Error, Transaction};

/// Rows that tell which edits entered some assets.
#[derive(Clone, Copy)]
struct Origins;

impl Written<Origins> for Asset {
    ghost all = { λ of n assets. with_origins assets };

    fn write<S: Alter>(
        &self,
        tx: &mut Transaction<'_, S>,
        _of: &Origins,
        _n: u64,
    ) -> Result<(), Error> {
        put_origin(tx, self)
    }

    ghost none = { λ of n t. same_refl t };

    ghost more = { λ of n k xs x t u at same. origins_more xs x t u same };
}

/// All rows go that tell which edits entered assets.
fn clear_origins<S: Alter>(tx: &mut Transaction<'_, S>) -> Result<(), Error>
    ensures changes { Changes S.Store (Makes without_origins) tx.old tx.new result }
    ensures is_open { HasCleanDisk (state S.Store tx.new.conn.now)
        → IsWriting (state S.Store tx.old.conn.now)
        → OnOk result (IsTrue (state S.Store tx.old.conn.now).is_open) }
{
    tx.execute("DELETE FROM origin", &[])?;
    Ok(())
}

/// The row of the version goes.
fn clear_version<S: Alter>(tx: &mut Transaction<'_, S>) -> Result<(), Error>
    ensures { Changes S.Store (Makes without_version) tx.old tx.new result }
{
    tx.execute("DELETE FROM version", &[])?;
    Ok(())
}

/// Writes the rows of version 2 over those of version 1.
fn write_second<S: Alter>(tx: &mut Transaction<'_, S>, assets: &[Asset]) -> Result<(), Error>
    ensures { Changes S.Store (BringsUp assets.now) tx.old tx.new result }
{
    clear_origins(tx)?;
    write_all(tx, &Origins, assets)?;
    clear_version(tx)?;
    put_version(tx, 2)
}

/// Brings a store up to version 2, with the edits that entered these assets, in one transaction.
///
/// # Errors
/// When the store fails, a number is too large for it, or one of these is not an asset of the store. What is stored
/// is then as it was, or brought up.
pub fn bring_up<S: Alter>(conn: &mut Connection<S>, assets: &[Asset]) -> Result<(), Error>
    requires autocommit { conn.old.in_transaction ≡ false }
    requires ready { IsReady (state S.Store conn.old) }
    ensures autocommit { conn.new.in_transaction ≡ false }
    ensures brought_up { HasCleanDisk (state S.Store conn.new)
        → OnOk result (AreSame (brought_up assets.now (stored (state S.Store conn.old).now.trees))
        (stored (state S.Store conn.new).committed.trees)) }
    ensures is_open { HasCleanDisk (state S.Store conn.new)
        → OnOk result (IsTrue (state S.Store conn.old).is_open
        × IsTrue (state S.Store conn.new).is_open) }
    ensures ready { OnOk result (IsReady (state S.Store conn.new)) }
    ensures crash { Survives (state S.Store conn.old) (state S.Store conn.new) (λ db.
        IsTrue (state S.Store conn.old).is_open × AreSame
        (brought_up assets.now (stored (state S.Store conn.old).now.trees)) (stored db)) }
{
    let mut tx = conn.transaction();
    write_second(&mut tx, assets)?;
    tx.commit()
}
