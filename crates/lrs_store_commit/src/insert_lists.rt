//! Inserted rows of a list: of a route, or of a ledger.

ghost use Rattle.lrs_store_tables.specs.RowChanges.{with_pieces, with_marks, with_refs, with_spans, with_entered, with_gone};
ghost use Rattle.lrs_store_tables.specs.RowLaws.{same_refl, pieces_more, marks_more, refs_more, spans_more, entered_more, gone_more};

use crate::cells::{fill_gone, fill_numbers, fill_part, fill_span};
use crate::lists::Written;
use lrs_element::{Mark, Piece};
use lrs_events::{Gone, Part, Span};
use lrs_position::{Referent, RouteName};
use lrs_store_tables::number::{direction_number, number};
use sqlite::types::ValueRef;
use sqlite::{Alter, Error, Transaction};

/// The route into whose lists rows are inserted.
#[derive(Clone, Copy)]
pub struct InsertedInto {
    pub route: RouteName,
}

/// Rows inserted at the end of a ledger.
#[derive(Clone, Copy)]
pub struct Ledger;

impl Written<InsertedInto> for Piece {
    ghost all = { λ of n pieces. with_pieces of.route n pieces };

    fn write<S: Alter>(
        &self,
        tx: &mut Transaction<'_, S>,
        of: &InsertedInto,
        n: u64,
    ) -> Result<(), Error> {
        let (link, from, to) = (self.link as u64, self.from as u64, self.to as u64);
        let direction = direction_number(self.forward);
        let mut cells = [ValueRef::Text(of.route.bytes()); 6];
        fill_numbers(&[n, link, from, to, direction], &mut cells[1..])?;
        tx.execute("INSERT INTO piece VALUES (?1, ?2, ?3, ?4, ?5, ?6)", &cells)?;
        Ok(())
    }

    ghost none = { λ of n t. same_refl t };

    ghost more = { λ of n k xs x t u at same. pieces_more of.route n k xs x t u at same };
}

impl Written<InsertedInto> for Mark {
    ghost all = { λ of n marks. with_marks of.route n marks };

    fn write<S: Alter>(
        &self,
        tx: &mut Transaction<'_, S>,
        of: &InsertedInto,
        n: u64,
    ) -> Result<(), Error> {
        let mut cells = [ValueRef::Text(of.route.bytes()); 4];
        fill_numbers(&[n, self.chainage, self.measure], &mut cells[1..])?;
        tx.execute("INSERT INTO mark VALUES (?1, ?2, ?3, ?4)", &cells)?;
        Ok(())
    }

    ghost none = { λ of n t. same_refl t };

    ghost more = { λ of n k xs x t u at same. marks_more of.route n k xs x t u at same };
}

impl Written<InsertedInto> for Referent {
    ghost all = { λ of n refs. with_refs of.route refs };

    fn write<S: Alter>(
        &self,
        tx: &mut Transaction<'_, S>,
        of: &InsertedInto,
        _n: u64,
    ) -> Result<(), Error> {
        let at = number(self.at)?;
        let name = ValueRef::Text(self.name.bytes());
        let route = ValueRef::Text(of.route.bytes());
        tx.execute("INSERT INTO ref VALUES (?1, ?2, ?3)", &[name, route, at])?;
        Ok(())
    }

    ghost none = { λ of n t. same_refl t };

    ghost more = { λ of n k xs x t u at same. refs_more of.route xs x t u same };
}

impl Written<InsertedInto> for Span {
    ghost all = { λ of n spans. with_spans of.route spans };

    fn write<S: Alter>(
        &self,
        tx: &mut Transaction<'_, S>,
        of: &InsertedInto,
        _n: u64,
    ) -> Result<(), Error> {
        let mut cells = [ValueRef::Null; 5];
        fill_span(&of.route, self, &mut cells)?;
        tx.execute("INSERT INTO span VALUES (?1, ?2, ?3, ?4, ?5)", &cells)?;
        Ok(())
    }

    ghost none = { λ of n t. same_refl t };

    ghost more = { λ of n k xs x t u at same. spans_more of.route xs x t u same };
}

impl Written<Ledger> for Part {
    ghost all = { λ of n parts. with_entered parts };

    fn write<S: Alter>(
        &self,
        tx: &mut Transaction<'_, S>,
        _of: &Ledger,
        _n: u64,
    ) -> Result<(), Error> {
        let mut cells = [ValueRef::Null; 6];
        fill_part(self, &mut cells)?;
        tx.execute(
            "INSERT INTO entered VALUES (?1, ?2, ?3, ?4, ?5, ?6)",
            &cells,
        )?;
        Ok(())
    }

    ghost none = { λ of n t. same_refl t };

    ghost more = { λ of n k xs x t u at same. entered_more xs x t u same };
}

impl Written<Ledger> for Gone {
    ghost all = { λ of n gone. with_gone gone };

    fn write<S: Alter>(
        &self,
        tx: &mut Transaction<'_, S>,
        _of: &Ledger,
        _n: u64,
    ) -> Result<(), Error> {
        let mut cells = [ValueRef::Null; 7];
        fill_gone(self, &mut cells)?;
        tx.execute(
            "INSERT INTO gone VALUES (?1, ?2, ?3, ?4, ?5, ?6, ?7)",
            &cells,
        )?;
        Ok(())
    }

    ghost none = { λ of n t. same_refl t };

    ghost more = { λ of n k xs x t u at same. gone_more xs x t u same };
}
