//! What the words of a draft say.

ghost use Rattle.std.specs.Prelude.{◌≡◌, IfOk, IfSome, None, codes, map, option_map};
ghost use Rattle.lrs_sheet_records.specs.Words.{AreSaid, IsPieceText, words_of};
ghost use Rattle.lrs_drafts.specs.Words.{IsMoved, SaysAsset, SaysAssetIfGiven, SaysDraft, SaysEdit, SaysPieces, SaysRoute, SaysUndo, SaysValue};

use crate::draft::Draft;
use crate::fault::DraftFault;
use lrs_element::Piece;
use lrs_events::Value;
use lrs_machine::{AssetNumber, PieceList, Place, read_place};
use lrs_measure::limits::{GREATEST_ASSET, MOST_EDITS};
use lrs_measure::read_digits;
use lrs_position::RouteName;
use lrs_sheet_records::{cut_at, read_piece};
use std::alloc::Global;

/// The most pieces of a route.
const MOST_PIECES: u32 = 1_000;

const BAD_ROUTE: DraftFault = DraftFault::Unreadable("ROUTE is no route name");

const BAD_ASSET: DraftFault = DraftFault::Unreadable("ASSET is no asset number");

const BAD_NUMBER: DraftFault = DraftFault::Unreadable("NUMBER is no asset number");

const BAD_PLACE: DraftFault = DraftFault::Unreadable(
    "PLACE is no place: millimetres, or abs:, rel: or int: before a position",
);

const BAD_FROM: DraftFault = DraftFault::Unreadable(
    "FROM is no place: millimetres, or abs:, rel: or int: before a position",
);

const BAD_TO: DraftFault = DraftFault::Unreadable(
    "TO is no place: millimetres, or abs:, rel: or int: before a position",
);

const BAD_PIECES: DraftFault = DraftFault::Unreadable(
    "PIECES is no list of pieces: LINK:FROM:TO:+ or LINK:FROM:TO:-, with a space between two",
);

const MOVE_WORDS: DraftFault = DraftFault::Unreadable(
    "move wants ASSET NUMBER ROUTE PLACE, or ASSET NUMBER ROUTE FROM TO for a stretch",
);

fn route_of(word: &str) -> Option<RouteName>
    ensures { IfSome result (SaysRoute word.now) }
{
    RouteName::new(word.as_bytes())
}

fn value_of(word: &str) -> Option<Value>
    ensures { IfSome result (SaysValue word.now) }
{
    Value::new(word.as_bytes())
}

fn asset_of(word: &str) -> Option<AssetNumber>
    ensures { IfSome result (SaysAsset word.now) }
{
    match read_digits(word.as_bytes(), GREATEST_ASSET) {
        Some(number) => AssetNumber::new(number),
        None => None,
    }
}

fn edit_of(word: &str) -> Option<u64>
    ensures { IfSome result (SaysEdit word.now) }
{
    match read_digits(word.as_bytes(), MOST_EDITS as u64) {
        Some(edit) if edit >= 1 => Some(edit),
        _ => None,
    }
}

/// The pieces that a text says, with a space between two.
fn piece_list(alloc: Global, text: &[u8]) -> Result<Vec<Piece>, DraftFault>
    ensures { IfOk result (λ pieces. AreSaid IsPieceText (words_of text.now) pieces.items) }
{
    let mut list = Vec::new(alloc);
    let mut rest = text;
    for _turn in 0..MOST_PIECES {
        let (word, behind) = cut_at(rest, b' ');
        let Some(piece) = read_piece(word) else {
            return Err(BAD_PIECES);
        };
        list.push(piece)?;
        match behind {
            Some(text) => rest = text,
            None => return Ok(list),
        }
    }
    Err(BAD_PIECES)
}

fn pieces_of(alloc: Global, word: &str) -> Result<PieceList, DraftFault>
    ensures { IfOk result (SaysPieces word.now) }
{
    let pieces = piece_list(alloc, word.as_bytes())?;
    match PieceList::new(pieces) {
        Some(list) => Ok(list),
        None => Err(BAD_PIECES),
    }
}

fn split_of(words: &[&str]) -> Result<Draft, DraftFault>
    ensures { IfOk result (SaysDraft (codes "split") (map (λ w. w.now) words.now) None) }
{
    let [route, place, new] = words else {
        return Err(DraftFault::Unreadable("split wants ROUTE PLACE NEW"));
    };
    let Some(route) = route_of(route) else {
        return Err(BAD_ROUTE);
    };
    let Some(place) = read_place(place.as_bytes()) else {
        return Err(BAD_PLACE);
    };
    let Some(new) = route_of(new) else {
        return Err(DraftFault::Unreadable("NEW is no route name"));
    };
    Ok(Draft::Split { route, place, new })
}

fn bypass_of(alloc: Global, words: &[&str]) -> Result<Draft, DraftFault>
    ensures { IfOk result (SaysDraft (codes "bypass") (map (λ w. w.now) words.now) None) }
{
    let [route, from, to, pieces, old] = words else {
        return Err(DraftFault::Unreadable(
            "bypass wants ROUTE FROM TO PIECES OLD, with the pieces in one argument",
        ));
    };
    let Some(route) = route_of(route) else {
        return Err(BAD_ROUTE);
    };
    let Some(from) = read_place(from.as_bytes()) else {
        return Err(BAD_FROM);
    };
    let Some(to) = read_place(to.as_bytes()) else {
        return Err(BAD_TO);
    };
    let Some(old) = route_of(old) else {
        return Err(DraftFault::Unreadable("OLD is no route name"));
    };
    match pieces_of(alloc, pieces) {
        Ok(pieces) => Ok(Draft::Bypass {
            route,
            from,
            to,
            pieces,
            old,
        }),
        Err(fault) => Err(fault),
    }
}

fn retire_of(words: &[&str]) -> Result<Draft, DraftFault>
    ensures { IfOk result (SaysDraft (codes "retire") (map (λ w. w.now) words.now) None) }
{
    let [asset] = words else {
        return Err(DraftFault::Unreadable("retire wants ASSET"));
    };
    match asset_of(asset) {
        Some(asset) => Ok(Draft::Retire { asset }),
        None => Err(BAD_ASSET),
    }
}

fn replace_of(words: &[&str]) -> Result<Draft, DraftFault>
    ensures { IfOk result (SaysDraft (codes "replace") (map (λ w. w.now) words.now) None) }
{
    let [asset, number, value] = words else {
        return Err(DraftFault::Unreadable("replace wants ASSET NUMBER VALUE"));
    };
    let Some(asset) = asset_of(asset) else {
        return Err(BAD_ASSET);
    };
    let Some(number) = asset_of(number) else {
        return Err(BAD_NUMBER);
    };
    let Some(value) = value_of(value) else {
        return Err(DraftFault::Unreadable("VALUE is no value of an asset"));
    };
    Ok(Draft::Replace {
        asset,
        number,
        value,
    })
}

/// The move of an asset, as these words say it, to where it lies there or begins, and where it ends.
fn moved_to(
    asset: &str,
    number: &str,
    route: &str,
    from: Place,
    to: Option<Place>,
) -> Result<Draft, DraftFault>
    ensures { IfOk result (IsMoved asset.now number.now route.now from to) }
{
    let Some(asset) = asset_of(asset) else {
        return Err(BAD_ASSET);
    };
    let Some(number) = asset_of(number) else {
        return Err(BAD_NUMBER);
    };
    let Some(route) = route_of(route) else {
        return Err(BAD_ROUTE);
    };
    Ok(Draft::Move {
        asset,
        number,
        route,
        from,
        to,
    })
}

fn move_to_place(words: &[&str]) -> Result<Draft, DraftFault>
    ensures { IfOk result (SaysDraft (codes "move") (map (λ w. w.now) words.now) None) }
{
    let [asset, number, route, place] = words else {
        return Err(MOVE_WORDS);
    };
    match read_place(place.as_bytes()) {
        Some(place) => moved_to(asset, number, route, place, None),
        None => Err(BAD_PLACE),
    }
}

fn move_to_stretch(words: &[&str]) -> Result<Draft, DraftFault>
    ensures { IfOk result (SaysDraft (codes "move") (map (λ w. w.now) words.now) None) }
{
    let [asset, number, route, from, to] = words else {
        return Err(MOVE_WORDS);
    };
    let Some(from) = read_place(from.as_bytes()) else {
        return Err(BAD_FROM);
    };
    match read_place(to.as_bytes()) {
        Some(to) => moved_to(asset, number, route, from, Some(to)),
        None => Err(BAD_TO),
    }
}

fn move_of(words: &[&str]) -> Result<Draft, DraftFault>
    ensures { IfOk result (SaysDraft (codes "move") (map (λ w. w.now) words.now) None) }
{
    if words.len() == 4 {
        move_to_place(words)
    } else {
        move_to_stretch(words)
    }
}

/// The routes that words name.
fn routes_of(alloc: Global, words: &[&str]) -> Result<Vec<RouteName>, DraftFault>
    ensures { IfOk result (λ routes. AreSaid SaysRoute (map (λ w. w.now) words.now)
        routes.items) }
{
    let mut routes = Vec::new(alloc);
    for word in words {
        let Some(route) = route_of(word) else {
            return Err(BAD_ROUTE);
        };
        routes.push(route)?;
    }
    Ok(routes)
}

fn merge_of(alloc: Global, words: &[&str]) -> Result<Draft, DraftFault>
    ensures { IfOk result (SaysDraft (codes "merge") (map (λ w. w.now) words.now) None) }
{
    if words.len() < 2 {
        return Err(DraftFault::Unreadable("merge wants ROUTE ROUTE, or more routes"));
    }
    match routes_of(alloc, words) {
        Ok(routes) => Ok(Draft::Merge { routes }),
        Err(fault) => Err(fault),
    }
}

/// The number of the first edit that is undone, where words say one.
fn first_edit(words: &[&str]) -> Result<Option<u64>, DraftFault>
    ensures { IfOk result (SaysUndo (map (λ w. w.now) words.now)) }
{
    match words {
        [] => Ok(None),
        [word] => match edit_of(word) {
            Some(edit) => Ok(Some(edit)),
            None => Err(DraftFault::Unreadable("EDIT is no edit number")),
        },
        _ => Err(DraftFault::Unreadable("undo wants no words, or EDIT")),
    }
}

/// The number of the first new asset, where it is given.
fn asset_if_given(number: Option<&str>) -> Result<Option<AssetNumber>, DraftFault>
    ensures { IfOk result (SaysAssetIfGiven (option_map (λ w. w.now) number.entry)) }
{
    match number {
        Some(word) => match asset_of(word) {
            Some(asset) => Ok(Some(asset)),
            None => Err(BAD_NUMBER),
        },
        None => Ok(None),
    }
}

fn undo_of(words: &[&str], number: Option<&str>) -> Result<Draft, DraftFault>
    ensures { IfOk result (SaysDraft (codes "undo") (map (λ w. w.now) words.now)
        (option_map (λ w. w.now) number.entry)) }
{
    let from = match first_edit(words) {
        Ok(from) => from,
        Err(fault) => return Err(fault),
    };
    match asset_if_given(number) {
        Ok(number) => Ok(Draft::Undo { from, number }),
        Err(fault) => Err(fault),
    }
}

/// What is to be done, of what takes no number beside its words.
fn unnumbered(alloc: Global, what: &str, words: &[&str]) -> Result<Draft, DraftFault>
    ensures { IfOk result (SaysDraft what.now (map (λ w. w.now) words.now) None) }
{
    match what {
        "split" => split_of(words),
        "bypass" => bypass_of(alloc, words),
        "retire" => retire_of(words),
        "replace" => replace_of(words),
        "move" => move_of(words),
        "merge" => merge_of(alloc, words),
        _ => Err(DraftFault::Unreadable(
            "WHAT is none of split, bypass, merge, retire, replace, move and undo",
        )),
    }
}

/// What words say that is to be done; for `undo` the number of a new asset may stand beside them.
///
/// # Errors
/// `Unreadable` with the first word that cannot be read, or the words that are wanted, and `Memory`.
pub fn read_draft(
    alloc: Global,
    what: &str,
    words: &[&str],
    number: Option<&str>,
) -> Result<Draft, DraftFault>
    ensures { IfOk result (SaysDraft what.now (map (λ w. w.now) words.now)
        (option_map (λ w. w.now) number.entry)) }
{
    if what == "undo" {
        return undo_of(words, number);
    }
    match number {
        None => unnumbered(alloc, what, words),
        Some(_) => Err(DraftFault::Unreadable("--number stands only beside undo")),
    }
}
