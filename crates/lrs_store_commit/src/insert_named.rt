//! Inserted links, classes and assets.

ghost use Rattle.lrs_store_tables.specs.StoredRows.{Makes, Changes};
ghost use Rattle.lrs_store_tables.specs.RowChanges.{with_link, with_class, with_asset};
ghost use Rattle.lrs_store_tables.specs.Writes.{with_some, with_named};

use lrs_element::Link;
use lrs_events::{Asset, Class};
use lrs_image::Difference;
use lrs_store_tables::insert::{put_asset, put_class, put_link, put_origin};
use sqlite::{Alter, Error, Transaction};

/// Puts the row of a new link.
fn put_some_link<S: Alter>(tx: &mut Transaction<'_, S>, link: &Option<Link>) -> Result<(), Error>
    ensures { Changes S.Store (Makes (with_some with_link link.now)) tx.old tx.new result }
{
    match link {
        Some(link) => put_link(tx, link),
        None => Ok(()),
    }
}

/// Puts the row of a new class.
fn put_some_class<S: Alter>(tx: &mut Transaction<'_, S>, class: &Option<Class>) -> Result<(), Error>
    ensures { Changes S.Store (Makes (with_some with_class class.now)) tx.old tx.new result }
{
    match class {
        Some(class) => put_class(tx, class),
        None => Ok(()),
    }
}

/// Puts the rows of an asset: itself, and the edit that entered it.
fn put_entered_asset<S: Alter>(tx: &mut Transaction<'_, S>, asset: &Asset) -> Result<(), Error>
    ensures { Changes S.Store (Makes (with_asset asset.now)) tx.old tx.new result }
{
    put_asset(tx, asset)?;
    put_origin(tx, asset)
}

/// Puts the rows of a new asset.
fn put_some_asset<S: Alter>(tx: &mut Transaction<'_, S>, asset: &Option<Asset>) -> Result<(), Error>
    ensures { Changes S.Store (Makes (with_some with_asset asset.now)) tx.old tx.new result }
{
    match asset {
        Some(asset) => put_entered_asset(tx, asset),
        None => Ok(()),
    }
}

/// Puts the rows of the new link, class and asset.
pub fn put_named<S: Alter>(
    tx: &mut Transaction<'_, S>,
    difference: &Difference,
) -> Result<(), Error>
    ensures { Changes S.Store (Makes (with_named difference.now)) tx.old tx.new result }
{
    put_some_link(tx, &difference.link)?;
    put_some_class(tx, &difference.class)?;
    put_some_asset(tx, &difference.asset)
}
