//! Methods, targets and position expressions as text.

ghost use Rattle.std.specs.Prelude.{◌≡◌, [], Some, IfSome, IfNone, position};
ghost use Rattle.lrs_position.specs.declared.expression.Expr.{Expr};
ghost use Rattle.lrs_position.specs.declared.expression.Method.{Method};
ghost use Rattle.lrs_position.specs.declared.expression.Method.TheVariants as method;
ghost use Rattle.lrs_position.specs.declared.expression.Target.{Target};
ghost use Rattle.lrs_position.specs.Readings;
ghost use Rattle.lrs_position.specs.Readings.{States, IsNamed, method_text, target_text, is_sign, name_text, distance_text};

use crate::expression::{Expr, Method, Target};
use crate::name::RefName;
use lrs_measure::limits::{GREATEST_DENOMINATOR, GREATEST_DISTANCE, GREATEST_MEASURE};
use lrs_measure::{Frac, read_digits, read_fraction, read_signed};

/// The method of this text: `abs`, `rel` or `int`.
pub fn read_method(bytes: &[u8]) -> Option<Method>
    ensures read { IfSome result (λ method. bytes.now ≡ method_text method) }
    ensures found { (method : Method) → bytes.now ≡ method_text method → result ≡ Some method }
{
    match bytes {
        b"abs" => Some(Method::Abs),
        b"rel" => Some(Method::Rel),
        b"int" => Some(Method::Int),
        _ => None,
    }
}

/// The target of this text: `abs`, `int`, or `rel:` and the name of a referent.
pub fn read_target(bytes: &[u8]) -> Option<Target>
    ensures read { IfSome result (λ target. (bytes.now ≡ target_text target) × IsNamed target) }
    ensures found { (target : Target) → IsNamed target → bytes.now ≡ target_text target
        → result ≡ Some target }
{
    match bytes {
        b"abs" => Some(Target::Abs),
        b"int" => Some(Target::Int),
        [b'r', b'e', b'l', b':', name @ ..] => match RefName::new(name) {
            Some(name) => Some(Target::Rel(name)),
            None => None,
        },
        _ => None,
    }
}

/// A whole number as a fraction.
fn whole(n: i64) -> Option<Frac>
    ensures { result ≡ Some (Readings.whole n) }
{
    Frac::new(i128::from(n), 1)
}

/// Where the first sign stands.
fn sign_place(bytes: &[u8]) -> Option<usize>
    ensures { result ≡ position is_sign bytes.now }
{
    bytes.iter().position(|byte| *byte == b'+' || *byte == b'-')
}

/// What stands before the first sign, and from it on, where there is one.
fn split_at_sign(bytes: &[u8]) -> Option<(&[u8], &[u8])>
    ensures none { IfNone result (distance_text bytes.now ≡ []) }
    ensures name { IfSome result (λ parts. parts.0.now ≡ name_text bytes.now) }
    ensures distance { IfSome result (λ parts. parts.1.now ≡ distance_text bytes.now) }
{
    match sign_place(bytes) {
        Some(place) => Some((&bytes[..place], &bytes[place..])),
        None => None,
    }
}

/// The expression that this text states by a method.
///
/// By `abs` digits of a value of at most 100,000,000,000; by `rel` the name of a referent, a sign and
/// digits of a value of at most 10,000,000,000; by `int` two such numbers of at most 1,000,000 with a
/// slash between, the second not 0 and the first not above it.
pub fn read_expr(method: Method, bytes: &[u8]) -> Option<Expr>
    ensures read { IfSome result (λ expression. States method bytes.now expression) }
    ensures found { (expression : Expr) → States method bytes.now expression
        → result ≡ Some expression }
{
    match method {
        Method::Abs => read_measure(bytes),
        Method::Rel => read_distance(bytes),
        Method::Int => read_proportion(bytes),
    }
}

fn read_measure(bytes: &[u8]) -> Option<Expr>
    ensures read { IfSome result (λ expression. States method.Abs bytes.now expression) }
    ensures found { (expression : Expr) → States method.Abs bytes.now expression
        → result ≡ Some expression }
{
    let value = read_digits(bytes, GREATEST_MEASURE)?;
    Some(Expr::Abs(whole(value as i64)?))
}

fn read_distance(bytes: &[u8]) -> Option<Expr>
    ensures read { IfSome result (λ expression. States method.Rel bytes.now expression) }
    ensures found { (expression : Expr) → States method.Rel bytes.now expression
        → result ≡ Some expression }
{
    let (name, distance) = split_at_sign(bytes)?;
    let name = RefName::new(name)?;
    let distance = whole(read_signed(distance, GREATEST_DISTANCE as i64)?)?;
    Some(Expr::Rel(name, distance))
}

fn read_proportion(bytes: &[u8]) -> Option<Expr>
    ensures read { IfSome result (λ expression. States method.Int bytes.now expression) }
    ensures found { (expression : Expr) → States method.Int bytes.now expression
        → result ≡ Some expression }
{
    let proportion = read_fraction(bytes, GREATEST_DENOMINATOR)?;
    if proportion.num().unsigned_abs() > proportion.den() {
        return None;
    }
    Some(Expr::Int(proportion))
}
