//! What assets hold of links in one inventory alone.

ghost use Rattle.std.specs.Prelude.{◌≡◌, ◌∷◌, [], true, map, OnOk};
ghost use Rattle.std.specs.List.{flat_map};
ghost use Rattle.std.specs.Io.KnownBytes.{Appends};
ghost use Rattle.lrs_measure.specs.Lists.{each_two};
ghost use Rattle.lrs_difference.specs.Difference.{in_order};
ghost use Rattle.lrs_difference.specs.HeldRows.{RowsAreStretches, held_item, row_before};
ghost use Rattle.lrs_difference.specs.Lines.{line_text};

use crate::line::{AssetFacts, Sign};
use crate::merge::{Entry, write_between};
use crate::text::{write_held, write_sign};
use lrs_measure::Ordered;
use lrs_ordered::Chunked;
use lrs_report_lists::LinkStretch;
use std::io;
use std::io::Write;

/// A stretch of a link that an asset holds in one inventory alone.
#[derive(Clone, Copy)]
pub struct HeldRow {
    pub asset: AssetFacts,
    pub stretch: LinkStretch,
}

impl HeldRow {
    /// Its asset, link and start.
    fn key(&self) -> [u64; 3]
        ensures { result ≡ self.now.asset.number ∷ self.now.stretch.link
            ∷ self.now.stretch.from ∷ [] }
    {
        let LinkStretch { link, from, .. } = self.stretch;
        [self.asset.number, u64::from(link), u64::from(from)]
    }
}

impl Ordered for HeldRow {
    ghost use Rattle.lrs_difference.specs.HeldRows.{row_before};

    ghost before = { row_before };

    fn is_before(&self, other: &HeldRow) -> bool {
        let key = self.key();
        let other = other.key();
        key.as_slice().cmp(other.as_slice()).is_lt()
    }

    fn rank(&self) -> u64 {
        self.asset.number
    }
}

impl Entry for HeldRow {
    ghost use Rattle.std.specs.Prelude.{false};
    ghost use Rattle.lrs_difference.specs.HeldRows.{held_item};

    // The one inventory holds what the other does not, so that no row is in both lists.
    ghost same = { λ a b. false };

    ghost item = { held_item };

    fn is_same(&self, _other: &HeldRow) -> bool {
        false
    }

    fn write<W: Write>(&self, writer: &mut W, sign: Sign) -> io::Result<()> {
        let LinkStretch {
            link,
            from,
            to,
            side,
        } = self.stretch;
        write_sign(writer, sign)?;
        write_held(writer, &self.asset, link, from, to, side)
    }
}

/// Writes what the left rows hold as removed and what the right rows hold as added, by asset, link and start.
pub(crate) fn write_rows<W: Write>(
    writer: &mut W,
    left: &Chunked<HeldRow>,
    right: &Chunked<HeldRow>,
) -> io::Result<()>
    requires left { each_two row_before left.now.rows ≡ true }
    requires right { each_two row_before right.now.rows ≡ true }
    ensures { OnOk result (Appends (W.contents writer.old) (W.contents writer.new)
        (flat_map line_text (in_order (map held_item left.now.rows)
        (map held_item right.now.rows)))) }
{
    write_between(writer, left, right)
}

/// Rows of known assets that are in order, filled and apart, and have what one inventory holds and another does not, are
/// the stretches that it holds alone.
pub fn rows_are_stretches()
    ensures { RowsAreStretches }
{}
