//! Where a record starts in a sheet.

ghost use Rattle.std.specs.Prelude.{◌≡◌, ◌≤◌, ◌<◌, length};
ghost use Rattle.lrs_sheet_advice.specs.Columns.{line_at};

/// The line at a place, of which an earlier place and its line are known.
fn line_on(sheet: &[u8], from: usize, line: usize, to: usize) -> usize
    requires order { from ≤ to }
    requires within { to ≤ length sheet.now }
    requires before { line ≡ line_at sheet.now from }
    ensures { result ≡ line_at sheet.now to }
{
    let mut line = line;
    for place in from..to {
        if sheet[place] == b'\n' {
            line += 1;
        }
    }
    line
}

/// The first place, from one on, at which no line ends.
fn behind_ends(sheet: &[u8], from: usize) -> usize
    requires { from ≤ length sheet.now }
    ensures behind { from ≤ result }
    ensures within { result ≤ length sheet.now }
{
    for place in from..sheet.len() {
        if sheet[place] != b'\r' && sheet[place] != b'\n' {
            return place;
        }
    }
    sheet.len()
}

/// A place in a sheet, and its line.
#[derive(Clone, Copy)]
pub(crate) struct Place<'a> {
    sheet: &'a [u8],
    at: usize,
    pub line: usize,
    ghost within: { at ≤ length sheet.now },
    ghost counted: { line ≡ line_at sheet.now at },
}

impl<'a> Place<'a> {
    /// The start of a sheet.
    pub(crate) fn start(sheet: &'a [u8]) -> Place<'a> {
        Place {
            sheet,
            at: 0,
            line: 1,
        }
    }

    /// The first place, from so many bytes on, at which no line ends: there a record starts. An earlier place than this
    /// one is not found again.
    pub(crate) fn record_from(self, bytes: u64) -> Place<'a> {
        let from = usize::try_from(bytes).unwrap_or(self.sheet.len());
        let from = from.max(self.at).min(self.sheet.len());
        let to = behind_ends(self.sheet, from);
        Place {
            sheet: self.sheet,
            at: to,
            line: line_on(self.sheet, self.at, self.line, to),
        }
    }
}
