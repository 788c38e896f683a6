//! How many questions were answered.

ghost use Rattle.std.specs.Prelude.{◌≡◌, ◌<◌, ◌+◌, ◌^◌};
ghost use Rattle.lrs_sheet_questions.specs.Replies.{counted, reply_count};

/// How many questions were answered, and how many refused.
#[derive(Clone, Copy, Default, PartialEq, Eq)]
pub struct QuestionTally {
    pub answered: u64,
    pub refused: u64,
}

impl QuestionTally {
    /// Counts one more.
    pub(crate) fn count(&mut self, is_answer: bool)
        requires { reply_count self.old < 2 ^ 32 }
        ensures { self.new ≡ counted self.old is_answer }
    {
        if is_answer {
            self.answered += 1;
        } else {
            self.refused += 1;
        }
    }
}
