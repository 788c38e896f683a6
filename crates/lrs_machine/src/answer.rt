//! Answers, and why a command is refused.

ghost use Rattle.std.specs.Prelude.{◌≡◌, IsTrue};
ghost use Rattle.lrs_measure.specs.Limits.{are_limits, most_routes, most_assets, most_edits};

use lrs_measure::limits::{MOST_ASSETS, MOST_EDITS, MOST_ROUTES};
use std::fmt;

/// A field of a record.
#[derive(Clone, Copy, PartialEq, Eq)]
pub enum Field {
    Key,
    Verb,
    A,
    B,
    C,
    D,
    E,
    F,
    G,
    H,
    I,
}

/// What there can be too many of.
#[derive(Clone, Copy, PartialEq, Eq)]
pub enum What {
    Edits,
    Assets,
    Routes,
}

/// Its column.
impl fmt::Display for Field {
    ghost use Rattle.std.specs.Prelude.{Some};
    ghost use Rattle.lrs_machine.specs.AnswerTexts.{field_text};

    ghost output = { λ field. Some (field_text field) };

    fn fmt<W: fmt::Write>(&self, f: &mut fmt::Formatter<W>) -> fmt::Result {
        match self {
            Field::Key => f.write_str("key"),
            Field::Verb => f.write_str("verb"),
            Field::A => f.write_str("a"),
            Field::B => f.write_str("b"),
            Field::C => f.write_str("c"),
            Field::D => f.write_str("d"),
            Field::E => f.write_str("e"),
            Field::F => f.write_str("f"),
            Field::G => f.write_str("g"),
            Field::H => f.write_str("h"),
            Field::I => f.write_str("i"),
        }
    }
}

impl fmt::Display for What {
    ghost use Rattle.std.specs.Prelude.{Some};
    ghost use Rattle.lrs_machine.specs.AnswerTexts.{what_text};

    ghost output = { λ what. Some (what_text what) };

    fn fmt<W: fmt::Write>(&self, f: &mut fmt::Formatter<W>) -> fmt::Result {
        match self {
            What::Edits => f.write_str("edits"),
            What::Assets => f.write_str("assets"),
            What::Routes => f.write_str("routes"),
        }
    }
}

/// Why a command is refused. Numbers are of edits in `KeyUsed`, of assets in `Overlap`, and else indices
/// into a list of the command, which begin at 0.
#[derive(Clone, Copy, PartialEq, Eq)]
pub enum Cause {
    Malformed(Field),
    KeyUsed(u64),
    TooMany(What),
    LinkKnown,
    NoLink,
    RouteKnown,
    NoRoute,
    ClassKnown,
    NoClass,
    AssetKnown,
    NoAsset,
    RefKnown,
    NoRef,
    BadPiece(u64),
    Taken(u64),
    TooLong,
    BadMarks(u64),
    OffRoute,
    Empty,
    WrongKind,
    Overlap(u64),
    NoMark,
    SameRoute,
    MeasureRange,
    NothingLeft,
}

/// Its name, and behind a colon its argument where it has one.
impl fmt::Display for Cause {
    ghost use Rattle.std.specs.Prelude.{Some};
    ghost use Rattle.lrs_machine.specs.AnswerTexts.{cause_text};

    ghost output = { λ cause. Some (cause_text cause) };

    fn fmt<W: fmt::Write>(&self, f: &mut fmt::Formatter<W>) -> fmt::Result {
        match *self {
            Cause::Malformed(field) => write!(f, "Malformed:{field}"),
            Cause::KeyUsed(edit) => write!(f, "KeyUsed:{edit}"),
            Cause::TooMany(what) => write!(f, "TooMany:{what}"),
            Cause::LinkKnown => f.write_str("LinkKnown"),
            Cause::NoLink => f.write_str("NoLink"),
            Cause::RouteKnown => f.write_str("RouteKnown"),
            Cause::NoRoute => f.write_str("NoRoute"),
            Cause::ClassKnown => f.write_str("ClassKnown"),
            Cause::NoClass => f.write_str("NoClass"),
            Cause::AssetKnown => f.write_str("AssetKnown"),
            Cause::NoAsset => f.write_str("NoAsset"),
            Cause::RefKnown => f.write_str("RefKnown"),
            Cause::NoRef => f.write_str("NoRef"),
            Cause::BadPiece(piece) => write!(f, "BadPiece:{piece}"),
            Cause::Taken(piece) => write!(f, "Taken:{piece}"),
            Cause::TooLong => f.write_str("TooLong"),
            Cause::BadMarks(mark) => write!(f, "BadMarks:{mark}"),
            Cause::OffRoute => f.write_str("OffRoute"),
            Cause::Empty => f.write_str("Empty"),
            Cause::WrongKind => f.write_str("WrongKind"),
            Cause::Overlap(asset) => write!(f, "Overlap:{asset}"),
            Cause::NoMark => f.write_str("NoMark"),
            Cause::SameRoute => f.write_str("SameRoute"),
            Cause::MeasureRange => f.write_str("MeasureRange"),
            Cause::NothingLeft => f.write_str("NothingLeft"),
        }
    }
}

/// The answer to a command: done as this edit, done before as this edit, or refused.
#[derive(Clone, Copy, PartialEq, Eq)]
pub enum Answer {
    Done(u64),
    Again(u64),
    Refused(Cause),
}

/// Its word and its number, or its cause, behind a comma.
impl fmt::Display for Answer {
    ghost use Rattle.std.specs.Prelude.{Some};
    ghost use Rattle.lrs_machine.specs.AnswerTexts.{answer_text};

    ghost output = { λ answer. Some (answer_text answer) };

    fn fmt<W: fmt::Write>(&self, f: &mut fmt::Formatter<W>) -> fmt::Result {
        match *self {
            Answer::Done(edit) => write!(f, "done,{edit}"),
            Answer::Again(edit) => write!(f, "again,{edit}"),
            Answer::Refused(cause) => write!(f, "refused,{cause}"),
        }
    }
}

/// How many routes there may be at one time, how many assets ever and how many edits ever: at most
/// 10,000, 1,000,000 and 10,000,000.
///
/// In a specification the ghost field of literal bounds is `bounds = refl`.
#[derive(Clone, Copy, PartialEq, Eq)]
pub struct Limits {
    pub routes: u64,
    pub assets: u64,
    pub edits: u64,
    pub ghost bounds: { IsTrue (are_limits routes assets edits) },
}

impl Limits {
    /// As much as an inventory may hold at all.
    pub fn full() -> Limits
        ensures routes { result.routes ≡ most_routes }
        ensures assets { result.assets ≡ most_assets }
        ensures edits { result.edits ≡ most_edits }
    {
        Limits {
            routes: MOST_ROUTES as u64,
            assets: MOST_ASSETS as u64,
            edits: MOST_EDITS as u64,
        }
    }
}
