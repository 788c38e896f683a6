//! The reply to a record.

use lrs_machine::{Answer, Key};
use std::fmt;

/// The answer to a record, under its key where that is well formed.
#[derive(Clone, Copy, PartialEq, Eq)]
pub struct Reply {
    pub key: Option<Key>,
    pub answer: Answer,
}

impl fmt::Display for Reply {
    ghost use Rattle.std.specs.Prelude.{Some};
    ghost use Rattle.lrs_sheet.specs.Replies.{reply_text};

    ghost output = { λ reply. Some (reply_text reply) };

    fn fmt<W: fmt::Write>(&self, f: &mut fmt::Formatter<W>) -> fmt::Result {
        let answer = self.answer;
        match self.key {
            None => write!(f, "-,{answer}"),
            Some(key) => write!(f, "{key},{answer}"),
        }
    }
}

/// How many replies there were of each kind.
#[derive(Clone, Copy, Default, PartialEq, Eq)]
pub struct Tally {
    pub done: u64,
    pub again: u64,
    pub refused: u64,
}

impl Tally {
    ghost use Rattle.std.specs.Prelude.{◌≡◌, ◌<◌, ◌^◌};
    ghost use Rattle.lrs_sheet.specs.Replies.{answer_count, counted};

    /// Counts one more answer.
    pub(crate) fn count(&mut self, answer: Answer)
        requires { answer_count self.old < 2 ^ 32 }
        ensures { self.new ≡ counted self.old answer }
    {
        match answer {
            Answer::Done(_) => self.done += 1,
            Answer::Again(_) => self.again += 1,
            Answer::Refused(_) => self.refused += 1,
        }
    }
}
