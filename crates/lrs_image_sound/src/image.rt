//! A whole image, table by table: a test asks that those before it that it reads have passed.

ghost use Rattle.std.specs.Prelude.{◌≡◌, true, IfOk};
ghost use Rattle.lrs_machine.specs.Sound.{are_links, are_classes, are_assets, are_courses, are_all_referents, are_spans, are_entered, are_gone, are_edits, are_origins, courses_of, referents_of, spans_of, first_unsound};

use crate::assets::are_assets;
use crate::courses::are_courses;
use crate::edits::are_edits;
use crate::ledgers::{are_entered, are_gone};
use crate::order::{are_classes, are_links};
use crate::origins::are_origins;
use crate::referents::are_referents;
use crate::spans::are_spans;
use lrs_machine::{Image, Table};
use std::alloc::{AllocError, Global};

/// Whether the table of links is sound.
pub fn links_pass(image: &Image) -> bool
    ensures { result ≡ are_links image.now.links }
{
    are_links(image.links.as_slice())
}

/// Whether the table of classes is sound.
pub fn classes_pass(image: &Image) -> bool
    ensures { result ≡ are_classes image.now.classes }
{
    are_classes(image.classes.as_slice())
}

/// Whether the table of assets is sound.
pub fn assets_pass(image: &Image) -> bool
    requires { are_classes image.now.classes ≡ true }
    ensures { result ≡ are_assets image.now.classes image.now.assets }
{
    are_assets(image.classes.as_slice(), image.assets.as_slice())
}

/// Whether the table of pieces is sound.
///
/// # Errors
/// When memory runs out.
pub fn pieces_pass(alloc: Global, image: &Image) -> Result<bool, AllocError>
    requires { are_links image.now.links ≡ true }
    ensures { IfOk result (λ sound. sound ≡ are_courses image.now.links (courses_of image.now)) }
{
    are_courses(alloc, image.links.as_slice(), image.routes.as_slice())
}

/// Whether the table of referents is sound.
///
/// # Errors
/// When memory runs out.
pub fn referents_pass(alloc: Global, image: &Image) -> Result<bool, AllocError>
    ensures { IfOk result (λ sound. sound ≡ are_all_referents (referents_of image.now)) }
{
    are_referents(alloc, image.routes.as_slice())
}

/// Whether the table of spans is sound.
///
/// # Errors
/// When memory runs out.
pub fn spans_pass(alloc: Global, image: &Image) -> Result<bool, AllocError>
    requires classes { are_classes image.now.classes ≡ true }
    requires assets { are_assets image.now.classes image.now.assets ≡ true }
    requires courses { are_courses image.now.links (courses_of image.now) ≡ true }
    ensures { IfOk result (λ sound.
        sound ≡ are_spans image.now.links image.now.classes image.now.assets (spans_of image.now)) }
{
    are_spans(
        alloc,
        image.classes.as_slice(),
        image.assets.as_slice(),
        image.routes.as_slice(),
    )
}

/// Whether the table of what was entered is sound.
///
/// # Errors
/// When memory runs out.
pub fn entered_pass(alloc: Global, image: &Image) -> Result<bool, AllocError>
    requires links { are_links image.now.links ≡ true }
    requires assets { are_assets image.now.classes image.now.assets ≡ true }
    ensures { IfOk result (λ sound.
        sound ≡ are_entered image.now.links image.now.assets image.now.entered) }
{
    are_entered(
        alloc,
        image.links.as_slice(),
        image.assets.as_slice(),
        image.entered.as_slice(),
    )
}

/// Whether the table of what is gone is sound.
///
/// # Errors
/// When memory runs out.
pub fn gone_pass(alloc: Global, image: &Image) -> Result<bool, AllocError>
    requires links { are_links image.now.links ≡ true }
    requires assets { are_assets image.now.classes image.now.assets ≡ true }
    requires courses { are_courses image.now.links (courses_of image.now) ≡ true }
    requires spans { are_spans image.now.links image.now.classes image.now.assets
        (spans_of image.now) ≡ true }
    requires entered { are_entered image.now.links image.now.assets image.now.entered ≡ true }
    ensures { IfOk result (λ sound. sound ≡ are_gone image.now.links image.now.assets
        (spans_of image.now) image.now.entered image.now.gone) }
{
    are_gone(
        alloc,
        image.links.as_slice(),
        image.assets.as_slice(),
        image.routes.as_slice(),
        image.entered.as_slice(),
        image.gone.as_slice(),
    )
}

/// Whether the table of edits is sound.
///
/// # Errors
/// When memory runs out.
pub fn edits_pass(alloc: Global, image: &Image) -> Result<bool, AllocError>
    ensures { IfOk result (λ sound.
        sound ≡ are_edits image.now.entered image.now.gone image.now.edits) }
{
    are_edits(
        alloc,
        image.entered.as_slice(),
        image.gone.as_slice(),
        image.edits.as_slice(),
    )
}

/// Whether the table of origins is sound.
///
/// # Errors
/// When memory runs out.
pub fn origins_pass(alloc: Global, image: &Image) -> Result<bool, AllocError>
    requires { are_assets image.now.classes image.now.assets ≡ true }
    ensures { IfOk result (λ sound. sound ≡ are_origins image.now.entered image.now.assets) }
{
    are_origins(alloc, image.entered.as_slice(), image.assets.as_slice())
}

/// The first unsound table of an image, in the order of `Table`; none where the image is sound. The table
/// of marks is never named: the marks of each route fit it by its type.
///
/// It takes time in O(n log n) and memory in O(n), for n rows.
///
/// # Errors
/// When memory runs out.
pub fn first_unsound(alloc: Global, image: &Image) -> Result<Option<Table>, AllocError>
    ensures { IfOk result (λ table. table ≡ first_unsound image.now) }
{
    if !links_pass(image) {
        return Ok(Some(Table::Link));
    }
    if !classes_pass(image) {
        return Ok(Some(Table::Class));
    }
    if !assets_pass(image) {
        return Ok(Some(Table::Asset));
    }
    let pieces = pieces_pass(alloc, image)?;
    if !pieces {
        return Ok(Some(Table::Piece));
    }
    let referents = referents_pass(alloc, image)?;
    if !referents {
        return Ok(Some(Table::Ref));
    }
    let spans = spans_pass(alloc, image)?;
    if !spans {
        return Ok(Some(Table::Span));
    }
    let entered = entered_pass(alloc, image)?;
    if !entered {
        return Ok(Some(Table::Entered));
    }
    let gone = gone_pass(alloc, image)?;
    if !gone {
        return Ok(Some(Table::Gone));
    }
    let edits = edits_pass(alloc, image)?;
    if !edits {
        return Ok(Some(Table::Edit));
    }
    let origins = origins_pass(alloc, image)?;
    if !origins {
        return Ok(Some(Table::Origin));
    }
    Ok(None)
}
