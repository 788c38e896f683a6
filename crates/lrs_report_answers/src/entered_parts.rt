//! The parts that an edit entered.

ghost use Rattle.std.specs.Prelude.{◌≡◌, ◌≤◌, true, false, nat_eq, nat_lt, nat_le, filter, length};
ghost use Rattle.std.specs.List.Sorted.{IsNonDecreasingBy, IsPartitionPoint};

use lrs_events::Part;

/// How many of the parts were entered by earlier edits.
fn parts_before(parts: &[Part], edit: u64) -> usize
    requires { IsNonDecreasingBy (λ part. part.edit) parts.now }
    ensures within { result ≤ length parts.now }
    ensures point { IsPartitionPoint (λ part. nat_lt part.edit edit ≡ true) (λ part.
        nat_lt part.edit edit ≡ false) parts.now result }
{
    parts.partition_point(|part| part.edit < edit)
}

/// How many of the parts were entered by this edit or earlier ones.
fn parts_up_to(parts: &[Part], edit: u64) -> usize
    requires { IsNonDecreasingBy (λ part. part.edit) parts.now }
    ensures within { result ≤ length parts.now }
    ensures point { IsPartitionPoint (λ part. nat_le part.edit edit ≡ true) (λ part.
        nat_le part.edit edit ≡ false) parts.now result }
{
    parts.partition_point(|part| part.edit <= edit)
}

/// The parts that an edit entered, by binary search.
pub(crate) fn parts_of_edit(parts: &[Part], edit: u64) -> &[Part]
    requires { IsNonDecreasingBy (λ part. part.edit) parts.now }
    ensures { result.now ≡ filter (λ part. nat_eq part.edit edit) parts.now }
{
    let from_edit = &parts[parts_before(parts, edit)..];
    &from_edit[..parts_up_to(from_edit, edit)]
}
