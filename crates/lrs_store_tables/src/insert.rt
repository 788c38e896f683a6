//! Inserted rows, one at a time.

ghost use Rattle.std.specs.Prelude.{◌≡◌, OnOk, IsTrue};
ghost use Rattle.sqlite.specs.State.{HasCleanDisk};
ghost use Rattle.sqlite.specs.Held.{state};
ghost use Rattle.lrs_store_tables.specs.StoredRows.{IsWriting, Makes, Changes};
ghost use Rattle.lrs_store_tables.specs.TableCreation.{AreEmpty};
ghost use Rattle.lrs_store_tables.specs.Failures.{ErrInsideHasReason};
ghost use Rattle.lrs_store_tables.specs.RowChanges.{with_version, with_link, with_class, with_asset_row, with_origin, with_edit};

use crate::number::{kind_number, number};
use lrs_element::Link;
use lrs_events::{Asset, Class};
use lrs_machine::Edit;
use sqlite::types::ValueRef;
use sqlite::{Alter, Error, Transaction};

/// Puts the row of the version.
pub fn put_version<S: Alter>(tx: &mut Transaction<'_, S>, version: u64) -> Result<(), Error>
    ensures changes { Changes S.Store (Makes (with_version version)) tx.old tx.new result }
    ensures is_open { HasCleanDisk (state S.Store tx.new.conn.now)
        → IsWriting (state S.Store tx.old.conn.now)
        → OnOk result (IsTrue (state S.Store tx.old.conn.now).is_open) }
    ensures cause { version ≡ 2 → (IsTrue (state S.Store tx.old.conn.now).is_open
        → AreEmpty (state S.Store tx.old.conn.now).now.trees) → ErrInsideHasReason result
        (state S.Store tx.old.conn.now) (state S.Store tx.new.conn.now) }
{
    let version = number(version)?;
    tx.execute("INSERT INTO version VALUES (?1)", &[version])?;
    Ok(())
}

/// Puts the row of a link.
pub fn put_link<S: Alter>(tx: &mut Transaction<'_, S>, link: &Link) -> Result<(), Error>
    ensures { Changes S.Store (Makes (with_link link.now)) tx.old tx.new result }
{
    let own = number(link.number as u64)?;
    let length = number(link.length as u64)?;
    tx.execute("INSERT INTO link VALUES (?1, ?2)", &[own, length])?;
    Ok(())
}

/// Puts the row of a class.
pub fn put_class<S: Alter>(tx: &mut Transaction<'_, S>, class: &Class) -> Result<(), Error>
    ensures { Changes S.Store (Makes (with_class class.now)) tx.old tx.new result }
{
    let name = ValueRef::Text(class.name.bytes());
    let kind = number(kind_number(class.kind))?;
    tx.execute("INSERT INTO class VALUES (?1, ?2)", &[name, kind])?;
    Ok(())
}

/// Puts the row of an asset.
pub fn put_asset<S: Alter>(tx: &mut Transaction<'_, S>, asset: &Asset) -> Result<(), Error>
    ensures { Changes S.Store (Makes (with_asset_row asset.now)) tx.old tx.new result }
{
    let own = number(asset.number)?;
    let class = ValueRef::Text(asset.class.bytes());
    let value = ValueRef::Text(asset.value.bytes());
    let lateral = number(asset.lateral as u64)?;
    tx.execute(
        "INSERT INTO asset VALUES (?1, ?2, ?3, ?4)",
        &[own, class, value, lateral],
    )?;
    Ok(())
}

/// Puts the row that tells which edit entered an asset.
pub fn put_origin<S: Alter>(tx: &mut Transaction<'_, S>, asset: &Asset) -> Result<(), Error>
    ensures { Changes S.Store (Makes (with_origin asset.now)) tx.old tx.new result }
{
    let own = number(asset.number)?;
    let edit = number(asset.entered_by)?;
    tx.execute("INSERT INTO origin VALUES (?1, ?2)", &[own, edit])?;
    Ok(())
}

/// Puts the row of an edit under its number.
pub fn put_edit<S: Alter>(tx: &mut Transaction<'_, S>, n: u64, edit: &Edit) -> Result<(), Error>
    ensures changes { Changes S.Store (Makes (with_edit n edit.now)) tx.old tx.new result }
    ensures is_open { HasCleanDisk (state S.Store tx.new.conn.now)
        → IsWriting (state S.Store tx.old.conn.now)
        → OnOk result (IsTrue (state S.Store tx.old.conn.now).is_open) }
{
    let own = number(n)?;
    let token = ValueRef::Text(edit.key.bytes());
    let line = ValueRef::Text(edit.line.as_str().as_bytes());
    tx.execute("INSERT INTO edit VALUES (?1, ?2, ?3)", &[own, token, line])?;
    Ok(())
}
