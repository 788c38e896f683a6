//! Links that are found by their numbers.

ghost use Rattle.std.specs.Prelude.{◌≡◌, ℕ, ◌<◌, ◌≤◌, nat_eq, find, length, slice_index_or, AllPairs, IsTrue};
ghost use Rattle.lrs_element.specs.Course.{are_in_order};
ghost use Rattle.lrs_element.specs.declared.link.Link.{Link};

use crate::link::Link;
use lrs_measure::{Keyed, Ordered};
use std::cmp;

/// Known links, found by their number.
pub trait KnownLinks {
    ghost use Rattle.std.specs.Prelude.{List};
    ghost use Rattle.lrs_element.specs.declared.link.Link.{Link};

    /// The links, in the order of their numbers.
    ghost links: { Self → List Link };

    /// The link of this number.
    fn link(&self, number: u32) -> Option<Link>
        requires order { IsTrue (are_in_order (links self.now)) }
        ensures { result ≡ find (λ l. nat_eq l.number number) (links self.now) };
}

/// How many of the links have a lower number.
fn links_below(links: &[Link], number: u32) -> usize
    requires { AllPairs (λ l m. l.number < m.number) links.now }
    ensures bound { result ≤ length links.now }
    ensures below { (k : ℕ) (l : Link) → k < result
        → (slice_index_or links.now k l).number < number }
    ensures from { (k : ℕ) (l : Link) → result ≤ k → k < length links.now
        → number ≤ (slice_index_or links.now k l).number }
{
    links.partition_point(|link| link.number < number)
}

/// The link of this number, by binary search.
fn find_link(links: &[Link], number: u32) -> Option<Link>
    requires { AllPairs (λ l m. l.number < m.number) links.now }
    ensures { result ≡ find (λ l. nat_eq l.number number) links.now }
{
    let at = links_below(links, number);
    if at < links.len() && links[at].number == number {
        Some(links[at])
    } else {
        None
    }
}

impl<'a> KnownLinks for &'a [Link] {
    ghost links = { λ links. links.now };

    fn link(&self, number: u32) -> Option<Link> {
        find_link(*self, number)
    }
}

impl Ordered for Link {
    ghost use Rattle.std.specs.Prelude.{nat_lt};

    ghost before = { λ a b. nat_lt a.number b.number };

    fn is_before(&self, other: &Link) -> bool {
        self.number < other.number
    }

    fn rank(&self) -> u64 {
        u64::from(self.number)
    }
}

impl Keyed<u32> for Link {
    ghost use Rattle.std.specs.Ordering.{nat_cmp};
    ghost use Rattle.lrs_measure.specs.KeyOrder.{number_after};

    ghost key_order = { λ link number. nat_cmp link.number number };

    fn cmp_key(&self, number: &u32) -> cmp::Ordering {
        self.number.cmp(number)
    }

    fn key_rank(number: &u32) -> u64 {
        u64::from(*number)
    }

    ghost rises = { λ a b n before from. number_after a.number b.number n before from };
}
