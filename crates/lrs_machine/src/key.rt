//! The keys of commands.

ghost use Rattle.std.specs.Prelude.{◌≡◌, IsTrue};
ghost use Rattle.std.specs.List.{list_all};
ghost use Rattle.std.specs.Option.{SomeIff};
ghost use Rattle.lrs_machine.specs.Keys;

use lrs_measure::Text;
use lrs_measure::alphabet::{has_length, is_lone_dash, is_word_byte};
use std::fmt;
use std::marker::Model;

fn is_key_byte(byte: u8) -> bool
    ensures { result ≡ Keys.is_key_byte byte }
{
    is_word_byte(byte) || byte == b':'
}

fn are_key_bytes(bytes: &[u8]) -> bool
    ensures { result ≡ list_all Keys.is_key_byte bytes.now }
{
    bytes.iter().all(|byte| is_key_byte(*byte))
}

fn is_key(bytes: &[u8]) -> bool
    ensures { result ≡ Keys.is_key bytes.now }
{
    has_length(bytes, 40) && are_key_bytes(bytes) && !is_lone_dash(bytes)
}

/// The key of a command: 1 to 40 bytes of `A-Za-z0-9.:_-`, not `-` alone.
#[derive(Clone, Copy, PartialEq, Eq, PartialOrd, Ord)]
pub struct Key {
    text: Text<40>,
}

impl Model for Key {
    ghost use Rattle.std.specs.Prelude.{List, ℕ, IsTrue};
    ghost use Rattle.lrs_machine.specs.Keys.{is_key};

    ghost Value = { List ℕ };

    ghost view = { λ key. key.text };

    ghost invariant = { λ key. IsTrue (is_key key.text) };

    ghost inverse = { λ text. record { text = text } };
}

impl Key {
    ghost use Rattle.lrs_machine.specs.Keys.{is_key};

    /// The key of this text, if it is one.
    pub fn new(bytes: &[u8]) -> Option<Key>
        ensures { SomeIff result (IsTrue (is_key bytes.now)) bytes.now }
    {
        if !is_key(bytes) {
            return None;
        }
        Some(Key {
            text: Text::new(bytes),
        })
    }

    /// Its text.
    pub fn bytes(&self) -> &[u8]
        ensures text { result.now ≡ self.now }
        ensures alphabet { IsTrue (is_key self.now) }
    {
        self.text.bytes()
    }
}

impl fmt::Display for Key {
    ghost use Rattle.std.specs.Prelude.{Some};

    ghost output = { λ key. Some key };

    fn fmt<W: fmt::Write>(&self, f: &mut fmt::Formatter<W>) -> fmt::Result {
        match str::from_utf8(self.bytes()) {
            Ok(text) => f.write_str(text),
            Err(_) => Err(fmt::Error),
        }
    }
}
