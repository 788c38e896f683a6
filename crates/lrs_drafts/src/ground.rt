//! The ground of a new road.

ghost use Rattle.lrs_machine.specs.Sound.{IsSound};
ghost use Rattle.lrs_image.specs.OpenLists.{image_of};

use crate::fault::DraftFault;
use lrs_element::{Link, Piece};
use lrs_image::ImageLists;

/// The link of a number, if there is one.
fn link_of(kept: &ImageLists, number: u32) -> Option<&Link>
    requires sound { IsSound (image_of kept.now) }
{
    kept.links.find(&number)
}

/// A piece lies on its link, and no route lies there.
fn check_piece(kept: &ImageLists, piece: Piece) -> Result<(), DraftFault>
    requires sound { IsSound (image_of kept.now) }
{
    let Some(link) = link_of(kept, piece.link) else {
        return Err(DraftFault::Impossible(
            "a piece is of a link that is not there: enter the link first",
        ));
    };
    if piece.from >= piece.to || piece.to > link.length {
        return Err(DraftFault::Impossible(
            "a piece has FROM not below TO, or ends behind its link",
        ));
    }
    if kept.routes.iter().any(|row| row.route.course.covers(piece)) {
        return Err(DraftFault::Impossible(
            "a piece lies on a route: split that route there first, and join its part later",
        ));
    }
    Ok(())
}

/// How long pieces are together, in millimetres: each lies on its link, where no route is.
///
/// # Errors
/// `Impossible` where one does not.
pub(crate) fn free_length(kept: &ImageLists, pieces: &[Piece]) -> Result<u64, DraftFault>
    requires sound { IsSound (image_of kept.now) }
{
    let mut length = 0u64;
    for piece in pieces {
        check_piece(kept, *piece)?;
        length = length.saturating_add(u64::from(piece.to.saturating_sub(piece.from)));
    }
    Ok(length)
}
