//! Removed rows: all of a route in a table, or some by their keys.

ghost use Rattle.lrs_store_tables.specs.StoredRows.{Makes, Changes};
ghost use Rattle.lrs_store_tables.specs.RowChanges.{without_pieces, without_marks, less_spans, less_refs};
ghost use Rattle.lrs_store_tables.specs.RowLaws.{no_less_spans, no_less_refs, less_spans_more, less_refs_more};

use crate::lists::Written;
use lrs_events::Span;
use lrs_position::{RefName, RouteName};
use lrs_store_tables::number::number;
use sqlite::types::ValueRef;
use sqlite::{Alter, Error, Transaction};

/// The pieces of a route go.
pub fn drop_pieces<S: Alter>(tx: &mut Transaction<'_, S>, route: &RouteName) -> Result<(), Error>
    ensures { Changes S.Store (Makes (without_pieces route.now)) tx.old tx.new result }
{
    let name = ValueRef::Text(route.bytes());
    tx.execute("DELETE FROM piece WHERE route = ?1", &[name])?;
    Ok(())
}

/// The marks of a route go.
pub fn drop_marks<S: Alter>(tx: &mut Transaction<'_, S>, route: &RouteName) -> Result<(), Error>
    ensures { Changes S.Store (Makes (without_marks route.now)) tx.old tx.new result }
{
    let name = ValueRef::Text(route.bytes());
    tx.execute("DELETE FROM mark WHERE route = ?1", &[name])?;
    Ok(())
}

/// The route some of whose rows are removed.
#[derive(Clone, Copy)]
pub struct RemovedFrom {
    pub route: RouteName,
}

impl Written<RemovedFrom> for Span {
    ghost all = { λ of n spans. less_spans of.route spans };

    fn write<S: Alter>(
        &self,
        tx: &mut Transaction<'_, S>,
        of: &RemovedFrom,
        _n: u64,
    ) -> Result<(), Error> {
        let asset = number(self.asset)?;
        let from = number(self.from)?;
        let route = ValueRef::Text(of.route.bytes());
        tx.execute(
            "DELETE FROM span WHERE asset = ?1 AND route = ?2 AND lo = ?3",
            &[asset, route, from],
        )?;
        Ok(())
    }

    ghost none = { λ of n t. no_less_spans of.route t };

    ghost more = { λ of n k xs x t u at same. less_spans_more of.route xs x t u same };
}

impl Written<RemovedFrom> for RefName {
    ghost all = { λ of n names. less_refs names };

    fn write<S: Alter>(
        &self,
        tx: &mut Transaction<'_, S>,
        _of: &RemovedFrom,
        _n: u64,
    ) -> Result<(), Error> {
        let name = ValueRef::Text(self.bytes());
        tx.execute("DELETE FROM ref WHERE name = ?1", &[name])?;
        Ok(())
    }

    ghost none = { λ of n t. no_less_refs t };

    ghost more = { λ of n k xs x t u at same. less_refs_more xs x t u same };
}
