//! From one linear referencing method to another, and back.

ghost use Rattle.std.specs.Prelude.{◌≡◌, false, Result};
ghost use Rattle.lrs_report_answers.specs.ToldAnswers.{IsTranslated};
ghost use Rattle.lrs_position.specs.Translations.{target_of};
ghost use Rattle.lrs_machine.specs.Image.{state_of};
ghost use Rattle.lrs_promises.specs.RoundTrip.{ComesBack, IsTripOf};

use lrs_desk::{Desk, Keeper};
use lrs_position::{EnteredPosition, Expr, RouteName, Target};
use lrs_report_answers::AskFault;

/// A position expression by the method that was asked for, and by its own method again.
#[derive(Clone, Copy, PartialEq, Eq)]
pub struct Trip {
    /// By the method that was asked for.
    pub there: Expr,
    /// Translated back.
    pub back: Expr,
}

/// The method of an expression, and its referent.
fn method_of(expression: Expr) -> Target
    ensures { result ≡ target_of expression }
{
    match expression {
        Expr::Abs(_) => Target::Abs,
        Expr::Rel(name, _) => Target::Rel(name),
        Expr::Int(_) => Target::Int,
    }
}

/// What was entered, by another method, and translated back from it.
fn translate_back<K: Keeper>(
    desk: &Desk<K>,
    route: &RouteName,
    there: &Expr,
    method: Target,
) -> Result<Trip, AskFault>
    ensures { desk.now.is_ahead ≡ false → (back : Result Expr AskFault)
        × IsTranslated (state_of desk.now.image) route.now there.now method back
        × IsTripOf there.now back result }
{
    match desk.translate(route, *there, method) {
        Ok(back) => Ok(Trip {
            there: *there,
            back,
        }),
        Err(fault) => Err(fault),
    }
}

/// Translates a position that was entered to another method, and back. On a route of the inventory, where the position is
/// on the route and so is the referent of the method, both calls answer: the first an expression of the same chainage, and
/// the second the expression that was entered.
///
/// # Errors
/// Those of `Desk::translate`.
pub fn round_trip<K: Keeper>(
    desk: &Desk<K>,
    route: &RouteName,
    entered: EnteredPosition,
    target: Target,
) -> Result<Trip, AskFault>
    ensures { desk.now.is_ahead ≡ false
        → ComesBack (state_of desk.now.image) route.now entered target result }
{
    let method = method_of(entered.expression());
    match desk.translate(route, entered.expression(), target) {
        Ok(there) => translate_back(desk, route, &there, method),
        Err(fault) => Err(fault),
    }
}
