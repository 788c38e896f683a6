//! Whether what is held and gone is what was entered.

ghost use Rattle.std.specs.Prelude.{◌≡◌, List, ◌++◌, IfOk};
ghost use Rattle.std.specs.List.{AllByRecursion};
ghost use Rattle.lrs_element.specs.declared.link.Link.{Link};
ghost use Rattle.lrs_events.specs.declared.class.Asset.{Asset};
ghost use Rattle.lrs_machine.specs.Sound.{RouteSpans, are_balanced};
ghost use Rattle.lrs_image_sound.specs.SweptParts.{IsFilled};
ghost use Rattle.lrs_image_sound.specs.Balance.{AreHeld, IsLedger};

use crate::ends::are_had_alike;
use lrs_events::Part;
use std::alloc::{AllocError, Global};

/// Whether, at each asset and place, held is what was entered and is not gone, and nothing is gone that
/// was not entered.
pub fn do_balance(
    alloc: Global,
    held: &[Part],
    entered: &[Part],
    gone: &[Part],
) -> Result<bool, AllocError>
    requires present { AllByRecursion IsFilled (held.now ++ gone.now) }
    requires entered { AllByRecursion IsFilled entered.now }
    ensures { IfOk result (λ balanced. (links : List Link) (assets : List Asset)
        (routes : List RouteSpans) → AreHeld links assets routes held.now
        → IsLedger links assets entered.now → IsLedger links assets gone.now
        → balanced ≡ are_balanced links assets routes entered.now gone.now) }
{
    are_had_alike(alloc, held, gone, entered)
}
