//! The kinds of lists that a sheet asks for, and their words.

ghost use Rattle.std.specs.Prelude.{◌≡◌};
ghost use Rattle.lrs_sheet_questions.specs.Kinds.{entry_word, list_word};

/// A list that a sheet asks for.
#[derive(Clone, Copy, PartialEq, Eq)]
pub(crate) enum ListKind {
    Rows,
    Overlay,
    Lengths,
    History,
}

impl ListKind {
    /// The word of the list.
    pub(crate) fn word(self) -> &'static str
        ensures { result.now ≡ list_word self }
    {
        match self {
            ListKind::Rows => "rows",
            ListKind::Overlay => "overlay",
            ListKind::Lengths => "lengths",
            ListKind::History => "history",
        }
    }

    /// The word of each entry.
    pub(crate) fn entry_word(self) -> &'static str
        ensures { result.now ≡ entry_word self }
    {
        match self {
            ListKind::Rows => "row",
            ListKind::Overlay => "segment",
            ListKind::Lengths => "length",
            ListKind::History => "event",
        }
    }
}
