//! Position expressions.

ghost use Rattle.std.specs.Prelude.{◌≡◌, IsTrue};
ghost use Rattle.std.specs.Option.{SomeIff};
ghost use Rattle.lrs_position.specs.Expressions;

use crate::name::RefName;
use lrs_measure::Frac;
use lrs_measure::limits::{GREATEST_DENOMINATOR, GREATEST_DISTANCE, GREATEST_MEASURE};
use std::fmt;
use std::marker::Model;

/// A position expression (ISO 19148): the distance expression and the method that interprets it.
#[derive(Clone, Copy, PartialEq, Eq)]
pub enum Expr {
    /// At this measure of the route's marks (absolute method).
    Abs(Frac),
    /// So many millimetres of chainage from the edge of the referent's millimetre that is nearer to the
    /// route's start (relative method).
    Rel(RefName, Frac),
    /// At this proportion of the route's length (interpolative method).
    Int(Frac),
}

impl fmt::Display for Expr {
    ghost use Rattle.std.specs.Prelude.{Some};
    ghost use Rattle.lrs_position.specs.Readings.{expression_text};

    ghost output = { λ expression. Some (expression_text expression) };

    fn fmt<W: fmt::Write>(&self, f: &mut fmt::Formatter<W>) -> fmt::Result {
        match self {
            Expr::Abs(measure) => write!(f, "{measure}"),
            Expr::Rel(name, distance) => {
                if distance.num() < 0 {
                    write!(f, "{name}{distance}")
                } else {
                    write!(f, "{name}+{distance}")
                }
            }
            Expr::Int(proportion) => {
                let num = proportion.num();
                let den = proportion.den();
                write!(f, "{num}/{den}")
            }
        }
    }
}

/// A linear referencing method (ISO 19148).
#[derive(Clone, Copy, PartialEq, Eq)]
pub enum Method {
    Abs,
    Rel,
    Int,
}

/// What a position is to be expressed by: a method, and for the relative one its referent.
#[derive(Clone, Copy, PartialEq, Eq)]
pub enum Target {
    Abs,
    Rel(RefName),
    Int,
}

/// A position expression as a sheet or a request can state it: a whole measure of at most
/// 100,000,000,000, a whole distance of at most 10,000,000,000 mm either way, or a proportion `n/d`
/// with `n <= d <= 1,000,000`.
#[derive(Clone, Copy, PartialEq, Eq)]
pub struct EnteredPosition {
    expression: Expr,
}

impl Model for EnteredPosition {
    ghost use Rattle.std.specs.Prelude.{IsTrue};
    ghost use Rattle.lrs_position.specs.declared.expression.Expr.{Expr};
    ghost use Rattle.lrs_position.specs.Expressions.{is_entered};

    ghost Value = { Expr };

    ghost view = { λ position. position.expression };

    ghost invariant = { λ position. IsTrue (is_entered position.expression) };

    ghost inverse = { λ expression. record { expression = expression } };
}

/// Whether a sheet or a request can state the expression.
fn is_entered(expression: &Expr) -> bool
    ensures { result ≡ Expressions.is_entered expression.now }
{
    match expression {
        Expr::Abs(measure) => {
            measure.den() == 1
                && measure.num() >= 0
                && measure.num().unsigned_abs() <= u128::from(GREATEST_MEASURE)
        }
        Expr::Rel(_, distance) => {
            distance.den() == 1 && distance.num().unsigned_abs() <= u128::from(GREATEST_DISTANCE)
        }
        Expr::Int(proportion) => {
            proportion.den() <= u128::from(GREATEST_DENOMINATOR)
                && proportion.num() >= 0
                && proportion.num().unsigned_abs() <= proportion.den()
        }
    }
}

impl EnteredPosition {
    /// The position of this expression, if it can be entered.
    pub fn new(expression: Expr) -> Option<EnteredPosition>
        ensures { SomeIff result (IsTrue (Expressions.is_entered expression)) expression }
    {
        if !is_entered(&expression) {
            return None;
        }
        Some(EnteredPosition { expression })
    }

    /// Its expression.
    pub fn expression(self) -> Expr
        ensures expression { result ≡ self }
        ensures entered { IsTrue (Expressions.is_entered self) }
    {
        self.expression
    }
}

/// Whether both expressions are by one method.
fn same_method(first: &Expr, end: &Expr) -> bool
    ensures { result ≡ Expressions.same_method first.now end.now }
{
    match (first, end) {
        (Expr::Abs(_), Expr::Abs(_)) => true,
        (Expr::Rel(_, _), Expr::Rel(_, _)) => true,
        (Expr::Int(_), Expr::Int(_)) => true,
        _ => false,
    }
}

/// Whether both ends are by one method, where there are two.
fn are_alike(first: &EnteredPosition, end: &Option<EnteredPosition>) -> bool
    ensures { result ≡ Expressions.are_alike first.now end.now }
{
    match end {
        None => true,
        Some(end) => same_method(&first.expression, &end.expression),
    }
}

/// Where an event is (ISO 19148, at location and from-to location): at a point, or from one position to
/// another. Both are given by one method.
#[derive(Clone, Copy, PartialEq, Eq)]
pub struct EventLocation {
    from: EnteredPosition,
    to: Option<EnteredPosition>,
}

impl Model for EventLocation {
    ghost use Rattle.std.specs.Prelude.{IsTrue};
    ghost use Rattle.lrs_position.specs.Expressions.{Ends, are_alike};

    ghost Value = { Ends };

    ghost view = { λ location. record { from = location.from; to = location.to } };

    ghost invariant = { λ location. IsTrue (are_alike location.from location.to) };

    ghost inverse = { λ ends. record { from = ends.from; to = ends.to } };
}

impl EventLocation {
    /// The location at a position, or from one position to another, if both are by one method.
    pub fn new(from: EnteredPosition, to: Option<EnteredPosition>) -> Option<EventLocation>
        ensures { SomeIff result (IsTrue (Expressions.are_alike from to))
            (record { from = from; to = to }) }
    {
        if !are_alike(&from, &to) {
            return None;
        }
        Some(EventLocation { from, to })
    }

    /// Its point, or the position at which it begins.
    pub fn from(self) -> EnteredPosition
        ensures from { result ≡ self.from }
        ensures alike { IsTrue (Expressions.are_alike self.from self.to) }
    {
        self.from
    }

    /// The position at which it ends, if it is from one to another.
    pub fn to(self) -> Option<EnteredPosition>
        ensures to { result ≡ self.to }
    {
        self.to
    }
}
