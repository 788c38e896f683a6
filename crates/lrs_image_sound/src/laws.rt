//! From millimetres to intervals.

ghost use Rattle.lrs_image_sound.specs.Balance.{ApartIsOnce, BalancedIsAlike};
ghost use Rattle.lrs_image_sound.specs.Exclusive.{ExclusiveIsApart};
ghost use Rattle.lrs_image_sound.specs.CourseRepeats.{CoursesAreApart};

/// Parts share nothing exactly where no pair is had twice.
pub fn apart_is_once()
    ensures { ApartIsOnce }
{}

/// Balanced is: each pair held or gone as often as entered.
pub fn balanced_is_alike()
    ensures { BalancedIsAlike }
{}

/// No place has two holders of one exclusive class exactly where the parts, keyed by their exclusive
/// classes, share nothing.
pub fn exclusive_is_apart()
    ensures { ExclusiveIsApart }
{}

/// One search for repeats over the pieces of all courses decides that each course has each millimetre once
/// and that no two courses meet.
pub fn courses_are_apart()
    ensures { CoursesAreApart }
{}
