//! Places of a route, as text.

ghost use Rattle.std.specs.Prelude.{◌≡◌, Some, IfSome};
ghost use Rattle.lrs_position.specs.Readings.{States};
ghost use Rattle.lrs_position.specs.declared.expression.Expr.{Expr};
ghost use Rattle.lrs_machine.specs.PlaceTexts.{IsStated, SaysPlace};
ghost use Rattle.lrs_machine.specs.declared.question.Place.{Place};
ghost use Rattle.lrs_machine.specs.declared.question.Place.TheVariants.{Position};

use crate::Place;
use lrs_measure::limits::LONGEST_ROUTE;
use lrs_measure::read_digits;
use lrs_position::{Method, read_expr};

/// The position that this text states by a method.
fn positioned(method: Method, text: &[u8]) -> Option<Place>
    ensures read { IfSome result (IsStated method text.now) }
    ensures found { (expression : Expr) → States method text.now expression
        → result ≡ Some (Position expression) }
{
    match read_expr(method, text) {
        Some(position) => Some(Place::Position(position)),
        None => None,
    }
}

/// The place that this text says: digits alone are a chainage in millimetres; `abs:`, `rel:` or `int:` stands before a
/// position by this method.
pub fn read_place(text: &[u8]) -> Option<Place>
    ensures read { IfSome result (SaysPlace text.now) }
    ensures found { (place : Place) → SaysPlace text.now place → result ≡ Some place }
{
    match text {
        [b'a', b'b', b's', b':', position @ ..] => positioned(Method::Abs, position),
        [b'r', b'e', b'l', b':', position @ ..] => positioned(Method::Rel, position),
        [b'i', b'n', b't', b':', position @ ..] => positioned(Method::Int, position),
        _ => match read_digits(text, LONGEST_ROUTE) {
            Some(chainage) => Some(Place::Chainage(chainage)),
            None => None,
        },
    }
}
