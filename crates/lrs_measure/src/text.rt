//! Short texts that lie in the value itself.

ghost use Rattle.std.specs.Prelude.{◌≡◌, ◌≤◌, length, nat_eq, Some, refl};
ghost use Rattle.std.specs.Ordering.{nat_cmp};
ghost use Rattle.std.specs.Cmp.{partial_equiv_from_equiv};
ghost use Rattle.std.specs.Cmp.Lexicographic.{pointwise, slice_cmp, nat_list_eq_equiv, nat_list_cmp_total, texts_po, texts_ties};

use std::cmp::Ordering;
use std::marker::Model;

/// A text of at most `N` bytes, ordered by its bytes.
#[derive(Clone, Copy)]
pub struct Text<const N: usize> {
    bytes: [u8; N],
    len: usize,
}

impl<const N: usize> Model for Text<N> {
    ghost use Rattle.std.specs.Prelude.{◌≡◌, ◌≤◌, ◌-◌, ◌++◌, List, ℕ, length, take, drop, replicate};
    ghost use Rattle.std.proofs.Common.{arith, length-take-le};
    ghost use Rattle.lrs_measure.specs.PaddedTexts.{padded};

    ghost Value = { List ℕ };

    ghost view = { λ t. take t.len t.bytes };

    // Behind the text stand zeros.
    ghost invariant = { λ t. (t.len ≤ N) × (length t.bytes ≡ N) × (drop t.len t.bytes ≡ replicate (N - t.len) 0) };

    ghost inverse = { λ text. record { bytes = text ++ replicate (N - length text) 0; len = length text } };

    ghost inverse_ok = { λ t h i. record {
      bytes = padded N t.len t.bytes h.0 h.1 h.2 i;
      len = length-take-le t.len t.bytes (Prim.omega (arith, h.0, h.1)) i;
    } };
}

impl<const N: usize> Text<N> {
    /// A copy of these bytes.
    pub fn new(bytes: &[u8]) -> Text<N>
        requires { length bytes.now ≤ N }
        ensures { result ≡ bytes.now }
    {
        let mut own = [0; N];
        own[..bytes.len()].copy_from_slice(bytes);
        Text {
            bytes: own,
            len: bytes.len(),
        }
    }

    /// The bytes.
    pub fn bytes(&self) -> &[u8]
        ensures { result.now ≡ self.now }
    {
        &self.bytes[..self.len]
    }
}

impl<const N: usize> PartialEq for Text<N> {
    ghost eq = { pointwise nat_eq };

    ghost laws = { partial_equiv_from_equiv nat_list_eq_equiv };

    fn eq(&self, other: &Self) -> bool {
        self.bytes() == other.bytes()
    }
}

impl<const N: usize> Eq for Text<N> {
    ghost laws = { nat_list_eq_equiv };
}

impl<const N: usize> PartialOrd for Text<N> {
    ghost partial_cmp = { λ s t. Some (slice_cmp nat_cmp s t) };

    ghost laws = { texts_po };

    fn partial_cmp(&self, other: &Self) -> Option<Ordering> {
        Some(self.cmp(other))
    }
}

impl<const N: usize> Ord for Text<N> {
    ghost cmp = { slice_cmp nat_cmp };

    ghost total = { nat_list_cmp_total };

    ghost matches_partial_cmp = { λ s t. refl };

    ghost matches_eq = { texts_ties };

    fn cmp(&self, other: &Self) -> Ordering {
        self.bytes().cmp(other.bytes())
    }
}
