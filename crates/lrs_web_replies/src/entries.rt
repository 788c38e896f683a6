//! The entries of lists, as JSON.

ghost use Rattle.std.specs.Prelude.{◌≡◌, ◌+◌, IfOk, codes};
ghost use Rattle.std.specs.Option.{option_map};
ghost use Rattle.serde_json.specs.Data.{object, put, string};
ghost use Rattle.serde_json.specs.View.{members_view, view};
ghost use Rattle.lrs_element.specs.Pieces.{piece_len};
ghost use Rattle.lrs_report_lists.specs.Lines.{verb_in};
ghost use Rattle.lrs_report_lists.specs.Measures.{decimal_measure_text, measure_text};
ghost use Rattle.lrs_web_replies.specs.Members.{scalar_data};
ghost use Rattle.lrs_web_replies.specs.Listings.{event_data_with, gone_data_with, key_data, link_row_data, piece_data, row_data_with, said_of, verb_data};
ghost use Rattle.lrs_web_replies.specs.JsonParts.{whole};

use crate::answers::method_of;
use crate::list::Shown;
use crate::members::{Member, Scalar, members_of, object_of, with_value};
use lrs_element::{Link, Mark, Piece};
use lrs_events::{Asset, Class, Gone, Part, Span};
use lrs_machine::{Edit, RouteRow};
use lrs_position::{Expr, Referent, Route};
use lrs_report_lists::{
    LinkStretch, ValueLength, direction_text, link_side_text, measure_on, reason_text,
    thousandths_on,
};
use serde_json::{Map, Value};
use std::alloc::{AllocError, Global};

impl Shown for RouteRow {
    ghost use Rattle.lrs_web_replies.specs.Listings.{route_length_data};

    ghost shown = { route_length_data };

    fn value(&self, alloc: Global) -> Result<Value, AllocError> {
        object_of(
            alloc,
            &[
                Member("length", Scalar::Whole(self.route.length())),
                Member("name", Scalar::Route(self.route.name)),
            ],
        )
    }
}

impl Shown for Link {
    ghost use Rattle.lrs_web_replies.specs.Listings.{link_data};

    ghost shown = { link_data };

    fn value(&self, alloc: Global) -> Result<Value, AllocError> {
        object_of(
            alloc,
            &[
                Member("length", Scalar::Whole(u64::from(self.length))),
                Member("link", Scalar::Whole(u64::from(self.number))),
            ],
        )
    }
}

impl Shown for Class {
    ghost use Rattle.lrs_web_replies.specs.Listings.{class_data};

    ghost shown = { class_data };

    fn value(&self, alloc: Global) -> Result<Value, AllocError> {
        object_of(
            alloc,
            &[
                Member("class", Scalar::Class(self.name)),
                Member("kind", Scalar::Kind(self.kind)),
            ],
        )
    }
}

impl Shown for ValueLength {
    ghost use Rattle.lrs_web_replies.specs.Answers.{length_data};

    ghost shown = { length_data };

    fn value(&self, alloc: Global) -> Result<Value, AllocError> {
        object_of(
            alloc,
            &[
                Member("assets", Scalar::Whole(self.assets)),
                Member("class", Scalar::Class(self.class)),
                Member("left", Scalar::Whole(self.left)),
                Member("length", Scalar::Whole(self.length)),
                Member("right", Scalar::Whole(self.right)),
                Member("value", Scalar::Held(self.value)),
            ],
        )
    }
}

impl Shown for Expr {
    ghost use Rattle.lrs_web_replies.specs.Answers.{place_data};

    ghost shown = { place_data };

    fn value(&self, alloc: Global) -> Result<Value, AllocError> {
        object_of(
            alloc,
            &[
                Member("method", Scalar::Word(method_of(*self))),
                Member("pos", Scalar::Position(*self)),
            ],
        )
    }
}

/// The measure at a chainage; no text behind the route.
pub(crate) fn measure_at(route: &Route, chainage: u64) -> Scalar
    ensures { scalar_data result ≡ string (measure_text route.now.marks chainage) }
{
    Scalar::Measure(measure_on(route, chainage))
}

/// The same as a decimal with three places.
pub(crate) fn decimal_at(route: &Route, chainage: u64) -> Scalar
    ensures { scalar_data result ≡ string (decimal_measure_text route.now.marks chainage) }
{
    Scalar::Thousandths(thousandths_on(route, chainage))
}

/// What routes have, each shown with its route.
pub(crate) trait OnRoute: Sized {
    ghost use Rattle.std.specs.Prelude.{◌≡◌, IfOk, false};
    ghost use Rattle.serde_json.specs.Data.{Data};
    ghost use Rattle.serde_json.specs.View.{view};
    ghost use Rattle.serde_json.specs.Written.{has_float};
    ghost use Rattle.lrs_position.specs.declared.route.Route.{Route};

    ghost shown: { Route → Self → Data };

    fn value_on(&self, alloc: Global, route: &Route) -> Result<Value, AllocError>
        ensures { IfOk result (λ value. view value ≡ shown route.now self.now) };

    /// All numbers in it are whole.
    ghost has_no_float: { (route : Route) (one : Self) → has_float (shown route one) ≡ false };
}

impl OnRoute for Referent {
    ghost use Rattle.std.specs.Prelude.{refl};
    ghost use Rattle.lrs_web_replies.specs.Listings.{ref_data};

    ghost shown = { ref_data };

    ghost has_no_float = { λ route one. refl };

    fn value_on(&self, alloc: Global, route: &Route) -> Result<Value, AllocError> {
        object_of(
            alloc,
            &[
                Member("chainage", Scalar::Whole(self.at)),
                Member("measure", measure_at(route, self.at)),
                Member("measure_decimal", decimal_at(route, self.at)),
                Member("ref", Scalar::Referent(self.name)),
                Member("route", Scalar::Route(route.name)),
            ],
        )
    }
}

impl OnRoute for Mark {
    ghost use Rattle.std.specs.Prelude.{refl};
    ghost use Rattle.lrs_web_replies.specs.Listings.{mark_data};

    ghost shown = { mark_data };

    ghost has_no_float = { λ route one. refl };

    fn value_on(&self, alloc: Global, route: &Route) -> Result<Value, AllocError> {
        object_of(
            alloc,
            &[
                Member("chainage", Scalar::Whole(self.chainage)),
                Member("measure", Scalar::Whole(self.measure)),
                Member("route", Scalar::Route(route.name)),
            ],
        )
    }
}

/// A piece that lies between two chainages of a route.
pub(crate) fn piece_value(
    alloc: Global,
    route: &Route,
    from: u64,
    to: u64,
    piece: &Piece,
) -> Result<Value, AllocError>
    requires end { to ≡ from + piece_len piece.now }
    ensures { IfOk result (λ value. view value ≡ piece_data route.now (from, piece.now)) }
{
    object_of(
        alloc,
        &[
            Member("direction", Scalar::Word(direction_text(piece.forward))),
            Member("from", Scalar::Whole(from)),
            Member("link", Scalar::Whole(u64::from(piece.link))),
            Member("link_from", Scalar::Whole(u64::from(piece.from))),
            Member("link_to", Scalar::Whole(u64::from(piece.to))),
            Member("route", Scalar::Route(route.name)),
            Member("to", Scalar::Whole(to)),
        ],
    )
}

fn entry_of(asset: Option<&Asset>) -> Scalar
    ensures { scalar_data result
        ≡ said_of (λ x. whole x.entered_by) (option_map (λ a. a.now) asset.entry) }
{
    match asset {
        Some(asset) => Scalar::Whole(asset.entered_by),
        None => Scalar::Null,
    }
}

fn offset_of(asset: Option<&Asset>) -> Scalar
    ensures { scalar_data result
        ≡ said_of (λ x. whole x.lateral) (option_map (λ a. a.now) asset.entry) }
{
    match asset {
        Some(asset) => Scalar::Whole(u64::from(asset.lateral)),
        None => Scalar::Null,
    }
}

fn class_of(asset: Option<&Asset>) -> Scalar
    ensures { scalar_data result
        ≡ said_of (λ x. string x.class) (option_map (λ a. a.now) asset.entry) }
{
    match asset {
        Some(asset) => Scalar::Class(asset.class),
        None => Scalar::Null,
    }
}

fn value_of(asset: Option<&Asset>) -> Scalar
    ensures { scalar_data result
        ≡ said_of (λ x. string x.value) (option_map (λ a. a.now) asset.entry) }
{
    match asset {
        Some(asset) => Scalar::Held(asset.value),
        None => Scalar::Null,
    }
}

/// A row of a route, of a known asset or of none.
pub(crate) fn row_value(
    alloc: Global,
    asset: Option<&Asset>,
    route: &Route,
    row: &Span,
) -> Result<Value, AllocError>
    ensures { IfOk result (λ value. view value
        ≡ row_data_with (option_map (λ a. a.now) asset.entry) route.now row.now) }
{
    object_of(
        alloc,
        &[
            Member("asset", Scalar::Whole(row.asset)),
            Member("class", Scalar::Class(row.class)),
            Member("entry", entry_of(asset)),
            Member("from", Scalar::Whole(row.from)),
            Member("from_measure", measure_at(route, row.from)),
            Member("from_measure_decimal", decimal_at(route, row.from)),
            Member("offset", offset_of(asset)),
            Member("route", Scalar::Route(route.name)),
            Member("side", Scalar::Side(row.side)),
            Member("to", Scalar::Whole(row.to)),
            Member("to_measure", measure_at(route, row.to)),
            Member("to_measure_decimal", decimal_at(route, row.to)),
            Member("value", value_of(asset)),
        ],
    )
}

/// What a row of a known asset, or of none, holds of a link.
pub(crate) fn link_row_value(
    alloc: Global,
    asset: Option<&Asset>,
    route: &Route,
    row: &Span,
    stretch: LinkStretch,
) -> Result<Value, AllocError>
    ensures { IfOk result (λ value. view value
        ≡ link_row_data (option_map (λ a. a.now) asset.entry) route.now row.now stretch) }
{
    object_of(
        alloc,
        &[
            Member("asset", Scalar::Whole(row.asset)),
            Member("class", Scalar::Class(row.class)),
            Member("from", Scalar::Whole(u64::from(stretch.from))),
            Member("link", Scalar::Whole(u64::from(stretch.link))),
            Member("offset", offset_of(asset)),
            Member("route", Scalar::Route(route.name)),
            Member("side", Scalar::Side(stretch.side)),
            Member("to", Scalar::Whole(u64::from(stretch.to))),
            Member("value", value_of(asset)),
        ],
    )
}

fn key_of(edit: Option<&Edit>) -> Scalar
    ensures { scalar_data result ≡ key_data (option_map (λ e. e.now) edit.entry) }
{
    match edit {
        Some(edit) => Scalar::Key(edit.key),
        None => Scalar::Null,
    }
}

/// The verb of an edit: what stands before the first comma of its line.
fn verb_of(edit: &Edit) -> &str
    ensures { result.now ≡ verb_in edit.now.line }
{
    let line = edit.line.as_str();
    match line.split_once(',') {
        Some((verb, _)) => verb,
        None => line,
    }
}

fn verb_value(alloc: Global, edit: Option<&Edit>) -> Result<Value, AllocError>
    ensures { IfOk result (λ value. view value
        ≡ verb_data (option_map (λ e. e.now) edit.entry)) }
{
    match edit {
        Some(edit) => Value::try_from_str(alloc, verb_of(edit)),
        None => Ok(Value::Null),
    }
}

/// An object of these members and the verb of an edit. It takes them, so that a caller has none to drop where memory runs
/// out.
fn with_verb(
    alloc: Global,
    map: Map<String, Value>,
    edit: Option<&Edit>,
) -> Result<Value, AllocError>
    ensures { IfOk result (λ value. view value
        ≡ object (put (codes "verb") (verb_data (option_map (λ e. e.now) edit.entry))
        (members_view map.entries))) }
{
    let verb = verb_value(alloc, edit)?;
    let members = with_value(alloc, map, "verb", verb)?;
    Ok(Value::Object(members))
}

/// A part that is gone, by a known edit and of a known asset, or by none and of none.
pub(crate) fn gone_value(
    alloc: Global,
    edit: Option<&Edit>,
    asset: Option<&Asset>,
    gone: &Gone,
) -> Result<Value, AllocError>
    ensures { IfOk result (λ value. view value
        ≡ gone_data_with (option_map (λ e. e.now) edit.entry)
        (option_map (λ a. a.now) asset.entry) gone.now) }
{
    let members = members_of(
        alloc,
        &[
            Member("asset", Scalar::Whole(gone.part.asset)),
            Member("class", class_of(asset)),
            Member("edit", Scalar::Whole(gone.part.edit)),
            Member("from", Scalar::Whole(u64::from(gone.part.from))),
            Member("key", key_of(edit)),
            Member("link", Scalar::Whole(u64::from(gone.part.link))),
            Member("reason", Scalar::Word(reason_text(gone.abandoned))),
            Member("side", Scalar::Word(link_side_text(gone.part.side))),
            Member("to", Scalar::Whole(u64::from(gone.part.to))),
            Member("value", value_of(asset)),
        ],
    )?;
    with_verb(alloc, members, edit)
}

/// What became of a part by a known edit, or by none.
pub(crate) fn event_value(
    alloc: Global,
    edit: Option<&Edit>,
    event: &'static str,
    part: &Part,
) -> Result<Value, AllocError>
    ensures { IfOk result (λ value. view value
        ≡ event_data_with (option_map (λ e. e.now) edit.entry) event.now part.now) }
{
    let members = members_of(
        alloc,
        &[
            Member("edit", Scalar::Whole(part.edit)),
            Member("event", Scalar::Word(event)),
            Member("from", Scalar::Whole(u64::from(part.from))),
            Member("key", key_of(edit)),
            Member("link", Scalar::Whole(u64::from(part.link))),
            Member("side", Scalar::Word(link_side_text(part.side))),
            Member("to", Scalar::Whole(u64::from(part.to))),
        ],
    )?;
    with_verb(alloc, members, edit)
}
