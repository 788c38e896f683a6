//! What is wanted in a field, in words: one table for all fields.

use crate::line::AdviceLine;
use crate::slot::Slot;
use lrs_position::Method;
use std::alloc::AllocError;

/// What is wanted of a position by this method, or by none that is known.
fn wanted_position(method: Option<Method>) -> &'static str {
    match method {
        Some(Method::Abs) => "a measure is wanted, a whole number from 0 to 100000000000",
        Some(Method::Rel) => {
            "a referent, + or -, and a whole number of millimetres are wanted, as KM2+500"
        }
        Some(Method::Int) => {
            "a part of the route's length is wanted, as 1/3: two whole numbers up to 1000000, the first not above the second"
        }
        None => "a position by the method in this record is wanted",
    }
}

/// What is wanted in a field, where it is not empty. The method is that of the record's positions, where it is known.
fn wanted(slot: Slot, method: Option<Method>) -> &'static str {
    match slot {
        Slot::Key => "1 to 40 of A-Z, a-z, 0-9, ., :, _ and - are wanted, and not - alone",
        Slot::VerbName => {
            "one of link, class, route, ref, unref, enter, retire, split, join, renumber, recalibrate, realign, close, supersede and turn is wanted"
        }
        Slot::LinkNumber => "a whole number from 1 to 999999 is wanted",
        Slot::LinkLength => "a whole number of millimetres from 1 to 1000000000 is wanted",
        Slot::ClassName => "1 to 8 of A-Z and 0-9 are wanted",
        Slot::ClassKind => "point, stretch or exclusive is wanted",
        Slot::Route | Slot::NewName | Slot::SecondRoute => {
            "1 to 12 of A-Z, 0-9 and - are wanted, the first not -"
        }
        Slot::Pieces | Slot::SomePieces => {
            "pieces LINK:FROM:TO:+ or LINK:FROM:TO:- are wanted with one space between two, at most 1000, as 7:0:5000:+ 8:0:300:-"
        }
        Slot::Marks => {
            "marks CHAINAGE:MEASURE are wanted with one space between two, 2 to 1000 of them, as 0:0 5000:6000"
        }
        Slot::Referent => "1 to 12 of A-Z and 0-9 are wanted",
        Slot::Asset => "a whole number from 1 to 1000000000000 is wanted",
        Slot::RouteSide => "L, R or B is wanted",
        Slot::MethodName => "abs, rel or int is wanted",
        Slot::At(_) | Slot::From(_) | Slot::To(_) => wanted_position(method),
        Slot::Value => "1 to 12 of A-Z, a-z, 0-9, ., _ and - are wanted, and not - alone",
        Slot::Offset => "a whole number of millimetres from 0 to 100000 is wanted",
        Slot::Chainage | Slot::ChainageStart | Slot::ChainageEnd => {
            "a whole number of millimetres from 0 to 10000000000 is wanted"
        }
        Slot::Unused => "this verb has no such field: leave it empty",
    }
}

/// What is said behind that of a field that may be empty: a point has no end.
fn wanted_else(slot: Slot, method: Option<Method>) -> &'static str {
    match (slot, method) {
        (Slot::SomePieces, _) => "; or nothing",
        (Slot::To(_), Some(Method::Int)) => "; and nothing for a point",
        (Slot::To(_), _) => ", and nothing for a point",
        _ => "",
    }
}

/// Says what is wanted in a field.
pub(crate) fn say_wanted(
    line: &mut AdviceLine,
    slot: Slot,
    method: Option<Method>,
) -> Result<(), AllocError> {
    line.say(wanted(slot, method))?;
    line.say(wanted_else(slot, method))
}
