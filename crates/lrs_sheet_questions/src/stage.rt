//! Where in its text a list is that is passed on.

/// Where a list is that is passed on.
#[derive(Clone, Copy, PartialEq, Eq)]
pub(crate) enum Stage {
    /// In its header.
    Header,
    /// Where a line begins.
    Start,
    /// In a line.
    Inside,
}
