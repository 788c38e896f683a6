//! The names of routes and referents.

ghost use Rattle.std.specs.Prelude.{◌≡◌, IsTrue};
ghost use Rattle.std.specs.List.{list_all};
ghost use Rattle.std.specs.Option.{SomeIff};
ghost use Rattle.lrs_position.specs.Names;

use lrs_measure::Text;
use lrs_measure::alphabet::{are_capitals, has_dash_first, has_length, is_capital};
use std::fmt;
use std::marker::Model;

fn is_route_byte(byte: u8) -> bool
    ensures { result ≡ Names.is_route_byte byte }
{
    is_capital(byte) || byte == b'-'
}

fn are_route_bytes(bytes: &[u8]) -> bool
    ensures { result ≡ list_all Names.is_route_byte bytes.now }
{
    bytes.iter().all(|byte| is_route_byte(*byte))
}

fn is_route_name(bytes: &[u8]) -> bool
    ensures { result ≡ Names.is_route_name bytes.now }
{
    has_length(bytes, 12) && are_route_bytes(bytes) && !has_dash_first(bytes)
}

fn is_referent_name(bytes: &[u8]) -> bool
    ensures { result ≡ Names.is_referent_name bytes.now }
{
    has_length(bytes, 12) && are_capitals(bytes)
}

/// The name of a route: 1 to 12 bytes of `A-Z0-9-`, the first not `-`.
#[derive(Clone, Copy, PartialEq, Eq, PartialOrd, Ord)]
pub struct RouteName {
    text: Text<12>,
}

impl Model for RouteName {
    ghost use Rattle.std.specs.Prelude.{List, ℕ, IsTrue};
    ghost use Rattle.lrs_position.specs.Names.{is_route_name};

    ghost Value = { List ℕ };

    ghost view = { λ name. name.text };

    ghost invariant = { λ name. IsTrue (is_route_name name.text) };

    ghost inverse = { λ text. record { text = text } };
}

impl RouteName {
    ghost use Rattle.lrs_position.specs.Names.{is_route_name};

    /// The name of this text, if it is one.
    pub fn new(bytes: &[u8]) -> Option<RouteName>
        ensures { SomeIff result (IsTrue (is_route_name bytes.now)) bytes.now }
    {
        if !is_route_name(bytes) {
            return None;
        }
        Some(RouteName {
            text: Text::new(bytes),
        })
    }

    /// Its text.
    pub fn bytes(&self) -> &[u8]
        ensures text { result.now ≡ self.now }
        ensures alphabet { IsTrue (is_route_name self.now) }
    {
        self.text.bytes()
    }
}

/// The name of a referent: 1 to 12 bytes of `A-Z0-9`.
#[derive(Clone, Copy, PartialEq, Eq, PartialOrd, Ord)]
pub struct RefName {
    text: Text<12>,
}

impl Model for RefName {
    ghost use Rattle.std.specs.Prelude.{List, ℕ, IsTrue};
    ghost use Rattle.lrs_position.specs.Names.{is_referent_name};

    ghost Value = { List ℕ };

    ghost view = { λ name. name.text };

    ghost invariant = { λ name. IsTrue (is_referent_name name.text) };

    ghost inverse = { λ text. record { text = text } };
}

impl RefName {
    ghost use Rattle.lrs_position.specs.Names.{is_referent_name};

    /// The name of this text, if it is one.
    pub fn new(bytes: &[u8]) -> Option<RefName>
        ensures { SomeIff result (IsTrue (is_referent_name bytes.now)) bytes.now }
    {
        if !is_referent_name(bytes) {
            return None;
        }
        Some(RefName {
            text: Text::new(bytes),
        })
    }

    /// Its text.
    pub fn bytes(&self) -> &[u8]
        ensures text { result.now ≡ self.now }
        ensures alphabet { IsTrue (is_referent_name self.now) }
    {
        self.text.bytes()
    }
}

impl fmt::Display for RefName {
    ghost use Rattle.std.specs.Prelude.{Some};

    ghost output = { λ name. Some name };

    fn fmt<W: fmt::Write>(&self, f: &mut fmt::Formatter<W>) -> fmt::Result {
        match str::from_utf8(self.bytes()) {
            Ok(text) => f.write_str(text),
            Err(_) => Err(fmt::Error),
        }
    }
}
