//! Lengths in metres.

ghost use Rattle.std.specs.Prelude.{◌≡◌};

use std::fmt;

/// A length in millimetres, which is printed in metres with three decimals.
#[derive(Clone, Copy, PartialEq, Eq)]
pub struct Metres {
    pub millimetres: u64,
}

impl Metres {
    /// This many millimetres, to be printed in metres: 1234567 gives `1234.567`.
    pub fn new(millimetres: u64) -> Metres
        ensures { result.millimetres ≡ millimetres }
    {
        Metres { millimetres }
    }
}

impl fmt::Display for Metres {
    ghost use Rattle.std.specs.Prelude.{Some};
    ghost use Rattle.lrs_measure.specs.FractionTexts.{metres_text};

    ghost output = { λ length. Some (metres_text length.millimetres) };

    fn fmt<W: fmt::Write>(&self, f: &mut fmt::Formatter<W>) -> fmt::Result {
        let whole = self.millimetres / 1000;
        let tenths = self.millimetres / 100 % 10;
        let hundredths = self.millimetres / 10 % 10;
        let thousandths = self.millimetres % 10;
        write!(f, "{whole}.{tenths}{hundredths}{thousandths}")
    }
}
