//! What is asked about, and an inventory does not have.

ghost use Rattle.std.specs.Prelude.{◌≡◌};
ghost use Rattle.lrs_machine.specs.Absence.{missing_text};

use std::fmt;

/// What is asked about, and the inventory does not have.
#[derive(Clone, Copy, PartialEq, Eq)]
pub enum Missing {
    Route,
    Class,
    Asset,
    Edit,
    Key,
    Link,
    /// The chainage is not on the route, the millimetre is not on the link, or no route runs over it.
    Place,
}

/// The name under which it is said.
pub fn missing_text(missing: Missing) -> &'static str
    ensures { result.now ≡ missing_text missing }
{
    match missing {
        Missing::Route => "NoRoute",
        Missing::Class => "NoClass",
        Missing::Asset => "NoAsset",
        Missing::Edit => "NoEdit",
        Missing::Key => "NoKey",
        Missing::Link => "NoLink",
        Missing::Place => "OffRoute",
    }
}

impl fmt::Display for Missing {
    ghost use Rattle.std.specs.Prelude.{Some};
    ghost use Rattle.lrs_machine.specs.Absence.{missing_text};

    ghost output = { λ missing. Some (missing_text missing) };

    fn fmt<W: fmt::Write>(&self, f: &mut fmt::Formatter<W>) -> fmt::Result {
        f.write_str(missing_text(*self))
    }
}
