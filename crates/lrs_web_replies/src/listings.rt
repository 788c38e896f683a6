//! Lists of an inventory as replies.

ghost use Rattle.std.specs.Prelude.{◌≡◌, ◌≤◌, ◌+◌, [], IfOk, OnOk, filter, length, map, true};
ghost use Rattle.std.specs.List.{AllByRecursion, flat_map};
ghost use Rattle.std.specs.Option.{option_map, option_map_or};
ghost use Rattle.serde_json.specs.Written.{compact_text};
ghost use Rattle.lrs_measure.specs.Lists.{each_two};
ghost use Rattle.lrs_element.specs.Pieces.{IsFilled, piece_len};
ghost use Rattle.lrs_machine.specs.Sound.{IsSound, route_before};
ghost use Rattle.lrs_image.specs.OpenLists.{image_of};
ghost use Rattle.lrs_report_lists.specs.Lists.{routes_named};
ghost use Rattle.lrs_report_lists.specs.PlacedPieces.{placed_from};
ghost use Rattle.lrs_report_lists.specs.WantedRows.{is_of_route};
ghost use Rattle.lrs_web_requests.specs.Text.{answer_of};
ghost use Rattle.lrs_web_requests.specs.declared.paths.Format.TheVariants.{Json};
ghost use Rattle.lrs_web_replies.specs.Listings.{classes_data, links_data, listing_answer, marks_data, named_list, piece_data, pieces_data, pieces_on, refs_data, routes_data};
ghost use Rattle.lrs_web_replies.specs.PagedText.{add_all, add_one};
ghost use Rattle.lrs_web_replies.specs.Pages.{paged};

use crate::entries::{OnRoute, piece_value};
use crate::ledgers::{gone_json, history_json};
use crate::lines::csv_listing;
use crate::paged_text::{PagedText, add_each};
use crate::pages::Page;
use crate::reply::found_reply;
use lrs_element::{Mark, Piece};
use lrs_image::ImageLists;
use lrs_inventory::Inventory;
use lrs_machine::{Listing, RouteRow};
use lrs_ordered::Chunked;
use lrs_position::{Referent, Route, RouteName};
use lrs_web_requests::{Format, Response};
use std::alloc::{AllocError, Global};

fn routes_json(
    alloc: Global,
    most: usize,
    page: Page,
    kept: &ImageLists,
) -> Result<Vec<u8>, AllocError>
    ensures { IfOk result (λ bytes. bytes.items ≡ compact_text (routes_data page (image_of
        kept.now))) }
{
    let mut text = PagedText::begin(alloc, most, page, "routes")?;
    add_each(alloc, &mut text, &kept.routes)?;
    text.end()
}

fn links_json(
    alloc: Global,
    most: usize,
    page: Page,
    kept: &ImageLists,
) -> Result<Vec<u8>, AllocError>
    ensures { IfOk result (λ bytes. bytes.items ≡ compact_text (links_data page (image_of
        kept.now))) }
{
    let mut text = PagedText::begin(alloc, most, page, "links")?;
    add_each(alloc, &mut text, &kept.links)?;
    text.end()
}

fn classes_json(
    alloc: Global,
    most: usize,
    page: Page,
    kept: &ImageLists,
) -> Result<Vec<u8>, AllocError>
    ensures { IfOk result (λ bytes. bytes.items ≡ compact_text (classes_data page (image_of
        kept.now))) }
{
    let mut text = PagedText::begin(alloc, most, page, "classes")?;
    add_each(alloc, &mut text, &kept.classes)?;
    text.end()
}

// ---- what routes have

#[tactic(auto, using(crate::proofs::Paging::full_one))]
fn add_on<T: OnRoute>(
    alloc: Global,
    text: &mut PagedText,
    route: &Route,
    one: &T,
) -> Result<(), AllocError>
    ensures { OnOk result (text.new ≡ add_one text.old (T.shown route.now one.now)) }
{
    if text.is_full() {
        return Ok(());
    }
    let value = one.value_on(alloc, route)?;
    text.add(alloc, value)
}

/// Adds each of a list of what a route has.
fn add_list_on<T: OnRoute>(
    alloc: Global,
    text: &mut PagedText,
    route: &Route,
    list: &[T],
) -> Result<(), AllocError>
    ensures { OnOk result (text.new ≡ add_all text.old (map (T.shown route.now) list.now)) }
{
    for one in list {
        add_on(alloc, text, route, one)?;
    }
    Ok(())
}

/// Adds a piece that lies between two chainages of a route.
#[tactic(auto, using(crate::proofs::Paging::full_one))]
fn add_piece(
    alloc: Global,
    text: &mut PagedText,
    route: &Route,
    from: u64,
    to: u64,
    piece: &Piece,
) -> Result<(), AllocError>
    requires end { to ≡ from + piece_len piece.now }
    ensures { OnOk result (text.new ≡ add_one text.old (piece_data route.now (from, piece.now))) }
{
    if text.is_full() {
        return Ok(());
    }
    let value = piece_value(alloc, route, from, to, piece)?;
    text.add(alloc, value)
}

/// Adds pieces that lie one behind the other from the start of a route.
fn add_pieces_in(
    alloc: Global,
    text: &mut PagedText,
    route: &Route,
    pieces: &[Piece],
) -> Result<(), AllocError>
    requires few { length pieces.now ≤ 1_000 }
    requires filled { AllByRecursion IsFilled pieces.now }
    ensures { OnOk result (text.new ≡ add_all text.old (map (piece_data route.now) (placed_from 0
        pieces.now))) }
{
    let mut from = 0;
    for piece in pieces {
        let to = from + piece.len();
        add_piece(alloc, text, route, from, to, piece)?;
        from = to;
    }
    Ok(())
}

/// Adds the pieces of a route.
fn add_pieces_on(alloc: Global, text: &mut PagedText, route: &Route) -> Result<(), AllocError>
    ensures { OnOk result (text.new ≡ add_all text.old (pieces_on route.now)) }
{
    add_pieces_in(alloc, text, route, route.course.pieces())
}

// ---- the lists of what routes have

/// What is listed of each route.
trait Listed {
    ghost use Rattle.std.specs.Prelude.{◌≡◌, List, OnOk};
    ghost use Rattle.serde_json.specs.Data.{Data};
    ghost use Rattle.lrs_position.specs.declared.route.Route.{Route};
    ghost use Rattle.lrs_web_replies.specs.PagedText.{add_all};

    ghost items: { Route → List Data };

    /// Adds what is listed of a route.
    fn add(alloc: Global, text: &mut PagedText, route: &Route) -> Result<(), AllocError>
        ensures { OnOk result (text.new ≡ add_all text.old (items route.now)) };
}

impl Listed for Referent {
    ghost use Rattle.lrs_web_replies.specs.Listings.{refs_on};

    ghost items = { refs_on };

    fn add(alloc: Global, text: &mut PagedText, route: &Route) -> Result<(), AllocError> {
        add_list_on(alloc, text, route, route.refs.as_slice())
    }
}

impl Listed for Mark {
    ghost use Rattle.lrs_web_replies.specs.Listings.{marks_on};

    ghost items = { marks_on };

    fn add(alloc: Global, text: &mut PagedText, route: &Route) -> Result<(), AllocError> {
        add_list_on(alloc, text, route, route.marks.list())
    }
}

impl Listed for Piece {
    ghost use Rattle.lrs_web_replies.specs.Listings.{pieces_on};

    ghost items = { pieces_on };

    fn add(alloc: Global, text: &mut PagedText, route: &Route) -> Result<(), AllocError> {
        add_pieces_on(alloc, text, route)
    }
}

fn add_all<T: Listed>(
    alloc: Global,
    text: &mut PagedText,
    routes: &Chunked<RouteRow>,
) -> Result<(), AllocError>
    ensures { OnOk result (text.new ≡ add_all text.old (flat_map (λ e. T.items e.route)
        routes.now.rows)) }
{
    for route_row in routes.iter() {
        T::add(alloc, text, &route_row.route)?;
    }
    Ok(())
}

fn add_some<T: Listed>(
    alloc: Global,
    text: &mut PagedText,
    route_row: Option<&RouteRow>,
) -> Result<(), AllocError>
    ensures { OnOk result (text.new ≡ add_all text.old (option_map_or (λ e. T.items e.route)
        (option_map (λ e. e.now) route_row.entry) [])) }
{
    match route_row {
        Some(route_row) => T::add(alloc, text, &route_row.route),
        None => Ok(()),
    }
}

/// Adds what is listed of every route, or of the one of a name, which is found by search.
fn add_named<T: Listed>(
    alloc: Global,
    text: &mut PagedText,
    route: Option<RouteName>,
    routes: &Chunked<RouteRow>,
) -> Result<(), AllocError>
    requires order { each_two route_before routes.now.rows ≡ true }
    ensures { OnOk result (text.new ≡ add_all text.old (flat_map (λ e. T.items e.route) (filter
        (is_of_route route) routes.now.rows))) }
{
    match route {
        Some(name) => add_some::<T>(alloc, text, routes.find(&name)),
        None => add_all::<T>(alloc, text, routes),
    }
}

/// The list of what the routes have, under its name.
fn named_json<T: Listed>(
    alloc: Global,
    most: usize,
    page: Page,
    kept: &ImageLists,
    route: Option<RouteName>,
    name: &str,
) -> Result<Vec<u8>, AllocError>
    requires sound { IsSound (image_of kept.now) }
    ensures { IfOk result (λ bytes. bytes.items ≡ compact_text (named_list name.now
        (paged page (flat_map (λ e. T.items e.route)
        (routes_named route (image_of kept.now)))))) }
{
    let mut text = PagedText::begin(alloc, most, page, name)?;
    add_named::<T>(alloc, &mut text, route, &kept.routes)?;
    text.end()
}

fn refs_json(
    alloc: Global,
    most: usize,
    page: Page,
    kept: &ImageLists,
    route: Option<RouteName>,
) -> Result<Vec<u8>, AllocError>
    requires sound { IsSound (image_of kept.now) }
    ensures { IfOk result (λ bytes. bytes.items
        ≡ compact_text (refs_data page route (image_of kept.now))) }
{
    named_json::<Referent>(alloc, most, page, kept, route, "refs")
}

fn marks_json(
    alloc: Global,
    most: usize,
    page: Page,
    kept: &ImageLists,
    route: Option<RouteName>,
) -> Result<Vec<u8>, AllocError>
    requires sound { IsSound (image_of kept.now) }
    ensures { IfOk result (λ bytes. bytes.items
        ≡ compact_text (marks_data page route (image_of kept.now))) }
{
    named_json::<Mark>(alloc, most, page, kept, route, "marks")
}

fn pieces_json(
    alloc: Global,
    most: usize,
    page: Page,
    kept: &ImageLists,
    route: Option<RouteName>,
) -> Result<Vec<u8>, AllocError>
    requires sound { IsSound (image_of kept.now) }
    ensures { IfOk result (λ bytes. bytes.items
        ≡ compact_text (pieces_data page route (image_of kept.now))) }
{
    named_json::<Piece>(alloc, most, page, kept, route, "pieces")
}

// ---- replies

/// The reply with a list of an inventory as JSON; the log is an edit sheet.
fn json_listing(
    alloc: Global,
    most: usize,
    page: Page,
    kept: &ImageLists,
    listing: &Listing,
) -> Result<Response, AllocError>
    requires sound { IsSound (image_of kept.now) }
    ensures { IfOk result (λ reply. answer_of reply
        ≡ listing_answer Json page (image_of kept.now) listing.now) }
{
    match listing {
        Listing::Routes => Ok(found_reply(routes_json(alloc, most, page, kept)?)),
        Listing::Links => Ok(found_reply(links_json(alloc, most, page, kept)?)),
        Listing::Classes => Ok(found_reply(classes_json(alloc, most, page, kept)?)),
        Listing::Refs { route, .. } => Ok(found_reply(refs_json(alloc, most, page, kept, *route)?)),
        Listing::Marks(route) => Ok(found_reply(marks_json(alloc, most, page, kept, *route)?)),
        Listing::Pieces(route) => Ok(found_reply(pieces_json(alloc, most, page, kept, *route)?)),
        Listing::Gone(wanted) => Ok(found_reply(gone_json(alloc, most, kept, wanted)?)),
        Listing::History(asset) => Ok(found_reply(history_json(alloc, most, kept, *asset)?)),
        Listing::Log { .. } | Listing::LogOfKey(_) => csv_listing(
            alloc, most, &page, kept, listing,
        ),
    }
}

/// The reply with a list of an inventory in a format; the log is an edit sheet in either.
///
/// # Errors
/// When memory or so many bytes do not suffice.
pub(crate) fn listing_reply(
    alloc: Global,
    most: usize,
    format: Format,
    page: Page,
    inventory: &Inventory,
    listing: &Listing,
) -> Result<Response, AllocError>
    ensures { IfOk result (λ reply. answer_of reply
        ≡ listing_answer format page inventory.now listing.now) }
{
    let kept = inventory.kept();
    match format {
        Format::Json => json_listing(alloc, most, page, kept, listing),
        Format::Csv => csv_listing(alloc, most, &page, kept, listing),
    }
}
