//! How the lines of a difference may begin.

ghost use Rattle.std.specs.Prelude.{◌≡◌, ◌==◌, ◌++◌, ◌∷◌, [], true, IfOk, OnOk};
ghost use Rattle.std.specs.List.{list_all, list_any, starts_with};
ghost use Rattle.lrs_machine.specs.Sound.{IsSound};
ghost use Rattle.lrs_image.specs.OpenLists.{image_of};
ghost use Rattle.lrs_sheet_records.specs.Words.{parts_of};
ghost use Rattle.lrs_drafts.specs.Drafts as spec;
ghost use Rattle.lrs_drafts.specs.Drafts.{DiffersOnlyIn, changes_route, gives_up, is_entered};
ghost use Rattle.lrs_drafts.specs.Fronts.{texts_of};

use lrs_difference::write_difference;
use lrs_image::ImageLists;
use lrs_machine::AssetNumber;
use lrs_position::RouteName;
use lrs_sheet_records::cut_at;
use std::alloc::{AllocError, Global};

/// A text, a name behind it, and a comma.
fn front(alloc: Global, before: &[u8], name: &[u8]) -> Result<Vec<u8>, AllocError>
    ensures { IfOk result (λ text. text.items ≡ before.now ++ (name.now ++ 44 ∷ [])) }
{
    let mut text = Vec::new(alloc);
    text.extend_from_slice(before)?;
    text.extend_from_slice(name)?;
    text.push(b',')?;
    Ok(text)
}

/// Adds a text, a name behind it, and a comma.
#[tactic(auto, using(crate::proofs::Fronted::one_pushed))]
pub(crate) fn push_front(
    alloc: Global,
    fronts: &mut Vec<Vec<u8>>,
    before: &[u8],
    name: &[u8],
) -> Result<(), AllocError>
    ensures { OnOk result (texts_of fronts.new.items ≡ texts_of fronts.old.items
        ++ (before.now ++ (name.now ++ 44 ∷ [])) ∷ []) }
{
    let text = front(alloc, before, name)?;
    fronts.push(text)?;
    Ok(())
}

/// Adds the fronts of lines of a route.
#[tactic(auto, using(crate::proofs::Fronted::two_pushed))]
pub(crate) fn push_route(
    alloc: Global,
    fronts: &mut Vec<Vec<u8>>,
    name: &RouteName,
) -> Result<(), AllocError>
    ensures { OnOk result (texts_of fronts.new.items ≡ texts_of fronts.old.items
        ++ changes_route name.now) }
{
    push_front(alloc, fronts, b"-,route,", name.bytes())?;
    push_front(alloc, fronts, b"+,route,", name.bytes())
}

/// Adds the front of lines of what an asset holds no more.
pub(crate) fn push_given_up(
    alloc: Global,
    fronts: &mut Vec<Vec<u8>>,
    asset: AssetNumber,
) -> Result<(), AllocError>
    ensures { OnOk result (texts_of fronts.new.items ≡ texts_of fronts.old.items
        ++ gives_up asset) }
{
    let number = asset.get();
    let name = format!(in alloc; "{number}")?;
    push_front(alloc, fronts, b"-,holds,", name.as_str().as_bytes())
}

/// Adds the fronts of lines of an asset that is entered.
#[tactic(auto, using(crate::proofs::Fronted::two_pushed))]
pub(crate) fn push_entered(
    alloc: Global,
    fronts: &mut Vec<Vec<u8>>,
    asset: AssetNumber,
) -> Result<(), AllocError>
    ensures { OnOk result (texts_of fronts.new.items ≡ texts_of fronts.old.items
        ++ is_entered asset) }
{
    let number = asset.get();
    let name = format!(in alloc; "{number}")?;
    push_front(alloc, fronts, b"+,asset,", name.as_str().as_bytes())?;
    push_front(alloc, fronts, b"+,holds,", name.as_str().as_bytes())
}

fn begins_with(line: &[u8], front: &Vec<u8>) -> bool
    ensures { result ≡ starts_with (λ a b. a == b) line.now front.now.items }
{
    line.starts_with(front.as_slice())
}

fn begins_with_any(fronts: &[Vec<u8>], line: &[u8]) -> bool
    ensures { result ≡ list_any (λ front. starts_with (λ a b. a == b) line.now front.items)
        fronts.now }
{
    fronts.iter().any(|front| begins_with(line, front))
}

fn begins_with_one(fronts: &[Vec<u8>], line: &[u8]) -> bool
    ensures { result ≡ spec.begins_with_one (texts_of fronts.now) line.now }
{
    begins_with_any(fronts, line)
}

fn begins_so(fronts: &[Vec<u8>], line: &[u8]) -> bool
    ensures { result ≡ spec.begins_so (texts_of fronts.now) line.now }
{
    line.is_empty() || begins_with_one(fronts, line)
}

/// Whether each line of a text is empty or begins in one of these ways.
fn all_begin_so(fronts: &[Vec<u8>], text: &[u8]) -> bool
    ensures { result ≡ list_all (spec.begins_so (texts_of fronts.now)) (parts_of 10 text.now) }
{
    let mut rest = text;
    'lines: loop {
        let (line, behind) = cut_at(rest, b'\n');
        if !begins_so(fronts, line) {
            return false;
        }
        match behind {
            Some(more) => rest = more,
            None => return true,
        }
    }
}

/// Whether the difference of two inventories has only lines that begin in one of these ways.
///
/// # Errors
/// When memory runs out.
pub(crate) fn differs_only_in(
    alloc: Global,
    fronts: &[Vec<u8>],
    before: &ImageLists,
    after: &ImageLists,
) -> Result<bool, AllocError>
    requires before { IsSound (image_of before.now) }
    requires after { IsSound (image_of after.now) }
    ensures { IfOk result (λ only. only ≡ true → DiffersOnlyIn (texts_of fronts.now)
        (image_of before.now) (image_of after.now)) }
{
    let mut text = Vec::new(alloc);
    match write_difference(alloc, &mut text, before, after) {
        Ok(()) => Ok(all_begin_so(fronts, text.as_slice())),
        Err(_) => Err(AllocError),
    }
}
