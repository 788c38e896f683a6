//! Fractions are compared by their value.

use lrs_measure::Frac;

#[test]
fn whole_numbers_have_their_own_value(rt: HostRuntime) {
    assert!(rt; Frac::of_whole(3).has_value_of(Frac::of_whole(3)));
    assert!(rt; !Frac::of_whole(3).has_value_of(Frac::of_whole(4)));
}
