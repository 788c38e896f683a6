//! What assets held before edits and hold no more, which is entered anew under new numbers.

use crate::asset_drafts::{NO_ASSET, asset_in, kind_of, route_in};
use crate::fault::DraftFault;
use crate::keys::SheetWriter;
use crate::placement::{BAD_OFFSET, Placement, entry_like, write_placed};
use crate::positions::Extent;
use crate::undone_edit::UNREAD;
use lrs_events::{Kind, Side, Span};
use lrs_image::ImageLists;
use lrs_machine::AssetNumber;
use lrs_position::Route;
use std::alloc::{AllocError, Global};

const NO_NUMBER: DraftFault = DraftFault::Impossible(
    "assets were taken away: give --number N, for new assets",
);

const NO_MORE_NUMBERS: DraftFault = DraftFault::Impossible(
    "no more numbers of assets are left behind that of --number",
);

/// The side of a row on which it is not held, if it is held on one alone.
fn other_side(side: Side, held: Side) -> Option<Side> {
    match (side, held) {
        (Side::B, Side::L) => Some(Side::R),
        (Side::B, Side::R) => Some(Side::L),
        _ => None,
    }
}

/// Adds a part of a row, if it has a millimetre.
fn push_part(
    lost: &mut Vec<Span>,
    row: &Span,
    from: u64,
    to: u64,
    side: Side,
) -> Result<(), AllocError> {
    if from < to {
        lost.push(Span {
            asset: row.asset,
            class: row.class,
            from,
            to,
            side,
        })?;
    }
    Ok(())
}

/// Adds what is lost of a row: the rows of its asset that are left come first, in their order.
fn push_lost(lost: &mut Vec<Span>, row: &Span, left: &[Span]) -> Result<(), AllocError> {
    let mut at = row.from;
    for held in left {
        if held.asset != row.asset || held.from >= row.to {
            return push_part(lost, row, at, row.to, row.side);
        }
        push_part(lost, row, at, held.from, row.side)?;
        let to = held.to.min(row.to);
        if let Some(side) = other_side(row.side, held.side) {
            push_part(lost, row, held.from.max(row.from), to, side)?;
        }
        at = to;
    }
    push_part(lost, row, at, row.to, row.side)
}

/// The rows that are left behind those of the asset that end with a row or before its end.
fn left_behind<'a>(left: &'a [Span], row: &Span) -> &'a [Span] {
    let mut rest = left;
    for _ in 0..left.len() {
        match rest {
            [first, others @ ..] if first.asset == row.asset && first.to <= row.to => rest = others,
            _ => return rest,
        }
    }
    rest
}

/// What is lost of the rows of a route where these are left: both in the order of assets, and then along the route.
fn lost_of(alloc: Global, rows: &[Span], left: &[Span]) -> Result<Vec<Span>, AllocError> {
    let mut lost = Vec::new(alloc);
    let mut rest = left;
    for row in rows {
        push_lost(&mut lost, row, rest)?;
        rest = left_behind(rest, row);
    }
    Ok(lost)
}

/// Adds the record that enters an asset like that of a row, where the row was.
fn write_returned(
    alloc: Global,
    sheet: &mut SheetWriter<'_>,
    was: &ImageLists,
    route: &Route,
    row: &Span,
    number: &AssetNumber,
) -> Result<(), DraftFault> {
    let Some(asset) = asset_in(was, row.asset) else {
        return Err(NO_ASSET);
    };
    let kind = kind_of(was, &row.class)?;
    let Some(entry) = entry_like(asset, number, row.side) else {
        return Err(BAD_OFFSET);
    };
    let extent = Extent {
        from: row.from,
        to: if kind == Kind::Point {
            None
        } else {
            Some(row.to)
        },
    };
    write_placed(alloc, sheet, was, Placement::Enter(&entry), route, extent)
}

/// Adds the records that enter assets like those of rows of a route, under numbers from this one on. Gives the number behind
/// theirs.
fn write_all_returned(
    alloc: Global,
    sheet: &mut SheetWriter<'_>,
    was: &ImageLists,
    route: &Route,
    rows: &[Span],
    first: u64,
) -> Result<u64, DraftFault> {
    let mut next = first;
    for row in rows {
        let Some(number) = AssetNumber::new(next) else {
            return Err(NO_MORE_NUMBERS);
        };
        write_returned(alloc, sheet, was, route, row, &number)?;
        next = next.saturating_add(1);
    }
    Ok(next)
}

/// Adds the records that enter anew what assets held in the one inventory and hold no more in the other, on the same routes.
/// New assets have numbers from `number` on.
///
/// # Errors
/// `Impossible` where something is lost and there are no numbers for new assets, and `Memory`.
pub(crate) fn write_lost_rows(
    alloc: Global,
    sheet: &mut SheetWriter<'_>,
    was: &ImageLists,
    now: &ImageLists,
    number: Option<AssetNumber>,
) -> Result<(), DraftFault> {
    let mut next = match number {
        Some(number) => Some(number.get()),
        None => None,
    };
    for row in was.routes.iter() {
        let Some(left) = route_in(now, &row.route.name) else {
            return Err(UNREAD);
        };
        let lost = lost_of(alloc, row.spans.rows(), left.spans.rows())?;
        if !lost.is_empty() {
            let Some(first) = next else {
                return Err(NO_NUMBER);
            };
            let behind = write_all_returned(alloc, sheet, was, &row.route, &lost, first)?;
            next = Some(behind);
        }
    }
    Ok(())
}
