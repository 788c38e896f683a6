//! Rows of a route that gets another name: all of it in a table, or some by their keys.

ghost use Rattle.lrs_store_tables.specs.StoredRows.{Makes, Changes};
ghost use Rattle.lrs_store_tables.specs.RowChanges.{renamed_pieces, renamed_marks, renamed_refs, renamed_spans};
ghost use Rattle.lrs_store_tables.specs.RowLaws.{no_renamed_refs, no_renamed_spans, renamed_refs_more, renamed_spans_more};

use crate::lists::Written;
use lrs_events::Span;
use lrs_position::{RefName, RouteName};
use lrs_store_tables::number::number;
use sqlite::types::ValueRef;
use sqlite::{Alter, Error, Transaction};

/// The pieces of a route get its new name.
pub fn rename_pieces<S: Alter>(
    tx: &mut Transaction<'_, S>,
    route: &RouteName,
    name: &RouteName,
) -> Result<(), Error>
    ensures { Changes S.Store (Makes (renamed_pieces route.now name.now)) tx.old tx.new result }
{
    let old = ValueRef::Text(route.bytes());
    let new = ValueRef::Text(name.bytes());
    tx.execute("UPDATE piece SET route = ?2 WHERE route = ?1", &[old, new])?;
    Ok(())
}

/// The marks of a route get its new name.
pub fn rename_marks<S: Alter>(
    tx: &mut Transaction<'_, S>,
    route: &RouteName,
    name: &RouteName,
) -> Result<(), Error>
    ensures { Changes S.Store (Makes (renamed_marks route.now name.now)) tx.old tx.new result }
{
    let old = ValueRef::Text(route.bytes());
    let new = ValueRef::Text(name.bytes());
    tx.execute("UPDATE mark SET route = ?2 WHERE route = ?1", &[old, new])?;
    Ok(())
}

/// The route whose rows get its new name.
#[derive(Clone, Copy)]
pub struct Renaming {
    pub route: RouteName,
    pub name: RouteName,
}

impl Written<Renaming> for Span {
    ghost all = { λ of n spans. renamed_spans of.route of.name spans };

    fn write<S: Alter>(
        &self,
        tx: &mut Transaction<'_, S>,
        of: &Renaming,
        _n: u64,
    ) -> Result<(), Error> {
        let asset = number(self.asset)?;
        let from = number(self.from)?;
        let old = ValueRef::Text(of.route.bytes());
        let new = ValueRef::Text(of.name.bytes());
        tx.execute(
            "UPDATE span SET route = ?4 WHERE asset = ?1 AND route = ?2 AND lo = ?3",
            &[asset, old, from, new],
        )?;
        Ok(())
    }

    ghost none = { λ of n t. no_renamed_spans of.route of.name t };

    ghost more = { λ of n k xs x t u at same. renamed_spans_more of.route of.name xs x t u same };
}

impl Written<Renaming> for RefName {
    ghost all = { λ of n names. renamed_refs of.route of.name names };

    fn write<S: Alter>(
        &self,
        tx: &mut Transaction<'_, S>,
        of: &Renaming,
        _n: u64,
    ) -> Result<(), Error> {
        let name = ValueRef::Text(self.bytes());
        let old = ValueRef::Text(of.route.bytes());
        let new = ValueRef::Text(of.name.bytes());
        tx.execute(
            "UPDATE ref SET route = ?3 WHERE name = ?1 AND route = ?2",
            &[name, old, new],
        )?;
        Ok(())
    }

    ghost none = { λ of n t. no_renamed_refs of.route of.name t };

    ghost more = { λ of n k xs x t u at same. renamed_refs_more of.route of.name xs x t u same };
}
