//! The law of tidy sheets.

ghost use Rattle.lrs_sheet_advice.specs.TidySheets.{TidiesOnce};

/// To tidy a sheet twice is to tidy it once.
pub fn tidying_twice_is_tidying_once()
    ensures { TidiesOnce }
{}
