//! The texts of a command's parts.

ghost use Rattle.std.specs.Prelude.{◌≡◌, ◌++◌, codes, unsigned_abs, IfOk, OnOk, string_bytes};
ghost use Rattle.std.specs.Fmt.{decimal};
ghost use Rattle.std.specs.Str.{IsAscii};
ghost use Rattle.lrs_events.specs.Names;
ghost use Rattle.lrs_machine.specs.Lines;
ghost use Rattle.lrs_machine.specs.Texts.{after_words};

use crate::operands::PieceList;
use lrs_element::{Mark, Piece};
use lrs_events::{ClassName, Kind, Side, Value};
use lrs_measure::Frac;
use lrs_position::{EnteredPosition, EventLocation, Expr, RefName, RouteName};
use std::alloc::{AllocError, Global};

pub fn kind_text(kind: Kind) -> &'static str
    ensures { result.now ≡ Names.kind_text kind }
{
    match kind {
        Kind::Point => "point",
        Kind::Stretch => "stretch",
        Kind::Exclusive => "exclusive",
    }
}

pub fn side_text(side: Side) -> &'static str
    ensures { result.now ≡ Names.side_text side }
{
    match side {
        Side::L => "L",
        Side::R => "R",
        Side::B => "B",
    }
}

// Bytes of an alphabet, as text.
fn as_text(bytes: &[u8]) -> &str
    requires { IsAscii bytes.now }
    ensures { result.now ≡ bytes.now }
{
    match str::from_utf8(bytes) {
        Ok(text) => text,
        Err(_) => unreachable!(),
    }
}

pub fn route_text(name: &RouteName) -> &str
    ensures { result.now ≡ name.now }
{
    as_text(name.bytes())
}

pub fn referent_text(name: &RefName) -> &str
    ensures { result.now ≡ name.now }
{
    as_text(name.bytes())
}

pub fn class_text(name: &ClassName) -> &str
    ensures { result.now ≡ name.now }
{
    as_text(name.bytes())
}

pub fn value_text(value: &Value) -> &str
    ensures { result.now ≡ value.now }
{
    as_text(value.bytes())
}

/// A piece as sheets and answers write it, as `1:0:5000:+`.
///
/// # Errors
/// When memory runs out.
pub fn piece_text(alloc: Global, piece: &Piece) -> Result<String, AllocError>
    ensures { IfOk result (λ text. string_bytes text ≡ Lines.piece_text piece.now) }
{
    let Piece { link, from, to, .. } = *piece;
    let direction = if piece.forward { "+" } else { "-" };
    format!(in alloc; "{link}:{from}:{to}:{direction}")
}

/// The pieces as words between spaces.
pub fn pieces_text(alloc: Global, pieces: &[Piece]) -> Result<String, AllocError>
    ensures { IfOk result (λ text. string_bytes text ≡ Lines.pieces_text pieces.now) }
{
    let mut words = String::new(alloc);
    for (i, piece) in pieces.iter().enumerate() {
        let word = piece_text(alloc, piece)?;
        push_word(&mut words, i == 0, word.as_str())?;
    }
    Ok(words)
}

/// ... and nothing where there are none.
pub fn some_pieces_text(alloc: Global, pieces: &Option<PieceList>) -> Result<String, AllocError>
    ensures { IfOk result (λ text. string_bytes text ≡ Lines.some_pieces_text pieces.now) }
{
    match pieces {
        None => Ok(String::new(alloc)),
        Some(pieces) => pieces_text(alloc, pieces.as_slice()),
    }
}

fn mark_text(alloc: Global, mark: &Mark) -> Result<String, AllocError>
    ensures { IfOk result (λ text. string_bytes text ≡ Lines.mark_text mark.now) }
{
    let Mark { chainage, measure } = *mark;
    format!(in alloc; "{chainage}:{measure}")
}

/// The marks as words between spaces.
pub fn marks_text(alloc: Global, marks: &[Mark]) -> Result<String, AllocError>
    ensures { IfOk result (λ text. string_bytes text ≡ Lines.marks_text marks.now) }
{
    let mut words = String::new(alloc);
    for (i, mark) in marks.iter().enumerate() {
        let word = mark_text(alloc, mark)?;
        push_word(&mut words, i == 0, word.as_str())?;
    }
    Ok(words)
}

// Appends a word, behind a space unless it is the first.
fn push_word(words: &mut String, is_first: bool, word: &str) -> Result<(), AllocError>
    ensures { OnOk result (string_bytes words.new
        ≡ after_words is_first (string_bytes words.old) word.now) }
{
    if !is_first {
        words.push(' ')?;
    }
    words.push_str(word)
}

pub fn method_text(expression: &Expr) -> &'static str
    ensures { result.now ≡ Lines.method_text expression.now }
{
    match expression {
        Expr::Abs(_) => "abs",
        Expr::Rel(..) => "rel",
        Expr::Int(_) => "int",
    }
}

fn signed_text(alloc: Global, number: i128) -> Result<String, AllocError>
    ensures { IfOk result (λ text. string_bytes text ≡ Lines.signed_text number) }
{
    let sign = if number < 0 { "-" } else { "+" };
    let size = number.unsigned_abs();
    format!(in alloc; "{sign}{size}")
}

fn proportion_text(alloc: Global, proportion: &Frac) -> Result<String, AllocError>
    ensures { IfOk result (λ text. string_bytes text ≡ decimal (unsigned_abs proportion.now.num)
        ++ codes "/" ++ decimal proportion.now.den) }
{
    let num = proportion.num().unsigned_abs();
    let den = proportion.den();
    format!(in alloc; "{num}/{den}")
}

/// An entered expression: a whole measure, a referent and a whole distance, or a proportion.
pub fn expression_text(alloc: Global, expression: &Expr) -> Result<String, AllocError>
    ensures { IfOk result (λ text. string_bytes text ≡ Lines.expression_text expression.now) }
{
    match expression {
        Expr::Abs(measure) => {
            let measure = measure.num().unsigned_abs();
            format!(in alloc; "{measure}")
        }
        Expr::Rel(name, distance) => {
            let name = referent_text(name);
            let distance = signed_text(alloc, distance.num())?;
            format!(in alloc; "{name}{distance}")
        }
        Expr::Int(proportion) => proportion_text(alloc, proportion),
    }
}

/// ... and nothing where there is none.
fn end_text(alloc: Global, end: Option<EnteredPosition>) -> Result<String, AllocError>
    ensures { IfOk result (λ text. string_bytes text ≡ Lines.end_text end) }
{
    match end {
        None => Ok(String::new(alloc)),
        Some(end) => expression_text(alloc, &end.expression()),
    }
}

/// The method and the ends of a location, as fields.
pub fn location_text(alloc: Global, location: EventLocation) -> Result<String, AllocError>
    ensures { IfOk result (λ text. string_bytes text
        ≡ Lines.fields (Lines.location_fields location)) }
{
    let from = location.from().expression();
    let method = method_text(&from);
    let from = expression_text(alloc, &from)?;
    let to = end_text(alloc, location.to())?;
    format!(in alloc; "{method},{from},{to}")
}
