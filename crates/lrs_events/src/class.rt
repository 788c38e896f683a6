//! Classes of assets, and the assets.

ghost use Rattle.std.specs.Prelude.{◌≡◌, IsTrue};
ghost use Rattle.std.specs.Option.{SomeIff};
ghost use Rattle.lrs_events.specs.Names;

use lrs_measure::alphabet::{are_capitals, are_word_bytes, has_length, is_lone_dash};
use lrs_measure::{Keyed, Ordered, Text, name_rank};
use std::marker::Model;
use std::{cmp, fmt};

fn is_class_name(bytes: &[u8]) -> bool
    ensures { result ≡ Names.is_class_name bytes.now }
{
    has_length(bytes, 8) && are_capitals(bytes)
}

fn is_value(bytes: &[u8]) -> bool
    ensures { result ≡ Names.is_value bytes.now }
{
    has_length(bytes, 12) && are_word_bytes(bytes) && !is_lone_dash(bytes)
}

/// The name of a class: 1 to 8 bytes of `A-Z0-9`.
#[derive(Clone, Copy, PartialEq, Eq, PartialOrd, Ord)]
pub struct ClassName {
    text: Text<8>,
}

impl Model for ClassName {
    ghost use Rattle.std.specs.Prelude.{List, ℕ, IsTrue};
    ghost use Rattle.lrs_events.specs.Names.{is_class_name};

    ghost Value = { List ℕ };

    ghost view = { λ name. name.text };

    ghost invariant = { λ name. IsTrue (is_class_name name.text) };

    ghost inverse = { λ text. record { text = text } };
}

impl ClassName {
    ghost use Rattle.lrs_events.specs.Names.{is_class_name};

    /// The name of this text, if it is one.
    pub fn new(bytes: &[u8]) -> Option<ClassName>
        ensures { SomeIff result (IsTrue (is_class_name bytes.now)) bytes.now }
    {
        if !is_class_name(bytes) {
            return None;
        }
        Some(ClassName {
            text: Text::new(bytes),
        })
    }

    /// Its text.
    pub fn bytes(&self) -> &[u8]
        ensures text { result.now ≡ self.now }
        ensures alphabet { IsTrue (is_class_name self.now) }
    {
        self.text.bytes()
    }
}

impl fmt::Display for ClassName {
    ghost use Rattle.std.specs.Prelude.{Some};

    ghost output = { λ name. Some name };

    fn fmt<W: fmt::Write>(&self, f: &mut fmt::Formatter<W>) -> fmt::Result {
        match str::from_utf8(self.bytes()) {
            Ok(text) => f.write_str(text),
            Err(_) => Err(fmt::Error),
        }
    }
}

/// What an asset tells of the places that it holds: 1 to 12 bytes of `A-Za-z0-9._-`, not `-` alone.
#[derive(Clone, Copy, PartialEq, Eq, PartialOrd, Ord)]
pub struct Value {
    text: Text<12>,
}

impl Model for Value {
    ghost use Rattle.std.specs.Prelude.{List, ℕ, IsTrue};
    ghost use Rattle.lrs_events.specs.Names.{is_value};

    ghost Value = { List ℕ };

    ghost view = { λ value. value.text };

    ghost invariant = { λ value. IsTrue (is_value value.text) };

    ghost inverse = { λ text. record { text = text } };
}

impl Value {
    ghost use Rattle.lrs_events.specs.Names.{is_value};

    /// The value of this text, if it is one.
    pub fn new(bytes: &[u8]) -> Option<Value>
        ensures { SomeIff result (IsTrue (is_value bytes.now)) bytes.now }
    {
        if !is_value(bytes) {
            return None;
        }
        Some(Value {
            text: Text::new(bytes),
        })
    }

    /// Its text.
    pub fn bytes(&self) -> &[u8]
        ensures text { result.now ≡ self.now }
        ensures alphabet { IsTrue (is_value self.now) }
    {
        self.text.bytes()
    }
}

impl fmt::Display for Value {
    ghost use Rattle.std.specs.Prelude.{Some};

    ghost output = { λ value. Some value };

    fn fmt<W: fmt::Write>(&self, f: &mut fmt::Formatter<W>) -> fmt::Result {
        match str::from_utf8(self.bytes()) {
            Ok(text) => f.write_str(text),
            Err(_) => Err(fmt::Error),
        }
    }
}

/// Where the assets of a class lie: at points, over stretches, or over stretches of which no two of the
/// class lie on one place.
#[derive(Clone, Copy, PartialEq, Eq)]
pub enum Kind {
    Point,
    Stretch,
    Exclusive,
}

impl fmt::Display for Kind {
    ghost use Rattle.std.specs.Prelude.{Some};
    ghost use Rattle.lrs_events.specs.Names.{kind_text};

    ghost output = { λ kind. Some (kind_text kind) };

    fn fmt<W: fmt::Write>(&self, f: &mut fmt::Formatter<W>) -> fmt::Result {
        match self {
            Kind::Point => f.write_str("point"),
            Kind::Stretch => f.write_str("stretch"),
            Kind::Exclusive => f.write_str("exclusive"),
        }
    }
}

/// A class of assets.
#[derive(Clone, Copy, PartialEq, Eq)]
pub struct Class {
    pub name: ClassName,
    pub kind: Kind,
}

impl Ordered for Class {
    ghost use Rattle.lrs_measure.specs.Texts.{name_before};

    ghost before = { λ a b. name_before a.name b.name };

    fn is_before(&self, other: &Class) -> bool {
        self.name.bytes().cmp(other.name.bytes()).is_lt()
    }

    fn rank(&self) -> u64 {
        name_rank(self.name.bytes())
    }
}

impl Keyed<ClassName> for Class {
    ghost use Rattle.lrs_measure.specs.Texts.{name_cmp};
    ghost use Rattle.lrs_measure.specs.KeyOrder.{name_after};

    ghost key_order = { λ class name. name_cmp class.name name };

    fn cmp_key(&self, name: &ClassName) -> cmp::Ordering {
        self.name.bytes().cmp(name.bytes())
    }

    fn key_rank(name: &ClassName) -> u64 {
        name_rank(name.bytes())
    }

    ghost rises = { λ a b name before from. name_after a.name b.name name before from };
}

/// An asset of the inventory. Its lateral offset is in millimetres from the linear element; `entered_by` is
/// the number of the edit that entered it.
#[derive(Clone, Copy, PartialEq, Eq)]
pub struct Asset {
    pub number: u64,
    pub class: ClassName,
    pub value: Value,
    pub lateral: u32,
    pub entered_by: u64,
}

impl Ordered for Asset {
    ghost use Rattle.std.specs.Prelude.{nat_lt};

    ghost before = { λ a b. nat_lt a.number b.number };

    fn is_before(&self, other: &Asset) -> bool {
        self.number < other.number
    }

    fn rank(&self) -> u64 {
        self.number
    }
}

impl Keyed<u64> for Asset {
    ghost use Rattle.std.specs.Ordering.{nat_cmp};
    ghost use Rattle.lrs_measure.specs.KeyOrder.{number_after};

    ghost key_order = { λ asset number. nat_cmp asset.number number };

    fn cmp_key(&self, number: &u64) -> cmp::Ordering {
        self.number.cmp(number)
    }

    fn key_rank(number: &u64) -> u64 {
        *number
    }

    ghost rises = { λ a b number before from. number_after a.number b.number number before from };
}
