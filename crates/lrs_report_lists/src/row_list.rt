//! The list of rows.

ghost use Rattle.std.specs.Prelude.{◌≡◌, [], OnOk, filter, true};
ghost use Rattle.std.specs.List.{flat_map};
ghost use Rattle.std.specs.Option.{option_map, option_map_or};
ghost use Rattle.std.specs.Io.KnownBytes.{Appends};
ghost use Rattle.lrs_measure.specs.Lists.{each_two};
ghost use Rattle.lrs_machine.specs.Sound.{IsSound, asset_before, route_before};
ghost use Rattle.lrs_image.specs.OpenLists.{image_of};
ghost use Rattle.lrs_report_lists.specs.Lines.{row_line_with};
ghost use Rattle.lrs_report_lists.specs.LinkRows.{row_text, row_text_with};
ghost use Rattle.lrs_report_lists.specs.Lists.{rows_header, rows_of, rows_text};
ghost use Rattle.lrs_report_lists.specs.Parts.{asset_part, holder_part, measures_part, place_part};
ghost use Rattle.lrs_report_lists.specs.WantedRows.{is_of_route};

use crate::assets::asset_numbered;
use crate::link_rows::write_on_links;
use crate::measures::write_measure;
use crate::road_order::rows_in_road_order;
use lrs_events::{Asset, Span};
use lrs_image::ImageLists;
use lrs_machine::{RouteRow, RowForm, RowsWanted};
use lrs_ordered::Chunked;
use lrs_position::{Route, RouteName};
use std::alloc::Global;
use std::io;
use std::io::Write;

fn write_place<W: Write>(writer: &mut W, route: &RouteName, row: &Span) -> io::Result<()>
    ensures { OnOk result (Appends (W.contents writer.old) (W.contents writer.new)
        (place_part route.now row.now)) }
{
    let from = row.from;
    let to = row.to;
    writer.write_all(route.bytes())?;
    write!(writer, ",{from},{to},")
}

fn write_measures<W: Write>(
    writer: &mut W,
    route: &Route,
    row: &Span,
    exact: bool,
) -> io::Result<()>
    ensures { OnOk result (Appends (W.contents writer.old) (W.contents writer.new)
        (measures_part exact route.now row.now)) }
{
    write_measure(writer, route, row.from, exact)?;
    writer.write_all(b",")?;
    write_measure(writer, route, row.to, exact)
}

fn write_holder<W: Write>(writer: &mut W, row: &Span) -> io::Result<()>
    ensures { OnOk result (Appends (W.contents writer.old) (W.contents writer.new)
        (holder_part row.now)) }
{
    let side = row.side;
    let asset = row.asset;
    let class = row.class;
    write!(writer, ",{side},{asset},{class},")
}

fn write_asset<W: Write>(writer: &mut W, asset: Option<&Asset>) -> io::Result<()>
    ensures { OnOk result (Appends (W.contents writer.old) (W.contents writer.new)
        (asset_part (option_map (λ a. a.now) asset.entry))) }
{
    match asset {
        Some(asset) => {
            let value = asset.value;
            let offset = asset.lateral;
            let edit = asset.entered_by;
            writeln!(writer, "{value},{offset},{edit}")
        }
        None => writer.write_all(b",,\n"),
    }
}

/// Writes the line of a row of a known asset, or of none, on its route.
fn write_on_route<W: Write>(
    writer: &mut W,
    asset: Option<&Asset>,
    route: &Route,
    row: &Span,
    exact: bool,
) -> io::Result<()>
    ensures { OnOk result (Appends (W.contents writer.old) (W.contents writer.new)
        (row_line_with exact (option_map (λ a. a.now) asset.entry) route.now row.now)) }
{
    write_place(writer, &route.name, row)?;
    write_measures(writer, route, row, exact)?;
    write_holder(writer, row)?;
    write_asset(writer, asset)
}

/// Writes a row of a known asset, or of none, in a form.
fn write_in_form<W: Write>(
    writer: &mut W,
    form: RowForm,
    asset: Option<&Asset>,
    route: &Route,
    row: &Span,
) -> io::Result<()>
    ensures { OnOk result (Appends (W.contents writer.old) (W.contents writer.new)
        (row_text_with form (option_map (λ a. a.now) asset.entry) route.now row.now)) }
{
    match form {
        RowForm::Decimal => write_on_route(writer, asset, route, row, false),
        RowForm::Exact => write_on_route(writer, asset, route, row, true),
        RowForm::OnLinks => write_on_links(writer, asset, route, row),
    }
}

fn write_row<W: Write>(
    writer: &mut W,
    form: RowForm,
    assets: &Chunked<Asset>,
    route: &Route,
    row: &Span,
) -> io::Result<()>
    requires order { each_two asset_before assets.now.rows ≡ true }
    ensures { OnOk result (Appends (W.contents writer.old) (W.contents writer.new)
        (row_text form assets.now.rows route.now row.now)) }
{
    write_in_form(writer, form, asset_numbered(assets, row.asset), route, row)
}

fn write_rows_on<W: Write>(
    writer: &mut W,
    form: RowForm,
    assets: &Chunked<Asset>,
    route: &Route,
    rows: &[Span],
) -> io::Result<()>
    requires order { each_two asset_before assets.now.rows ≡ true }
    ensures { OnOk result (Appends (W.contents writer.old) (W.contents writer.new)
        (flat_map (row_text form assets.now.rows route.now) rows.now)) }
{
    for row in rows {
        write_row(writer, form, assets, route, row)?;
    }
    Ok(())
}

/// Writes the rows of a route that are asked for.
fn write_rows_of<W: Write>(
    alloc: Global,
    writer: &mut W,
    wanted: &RowsWanted,
    assets: &Chunked<Asset>,
    route_row: &RouteRow,
) -> io::Result<()>
    requires order { each_two asset_before assets.now.rows ≡ true }
    ensures { OnOk result (Appends (W.contents writer.old) (W.contents writer.new)
        (rows_of wanted.now assets.now.rows route_row.now)) }
{
    let rows = rows_in_road_order(alloc, wanted, route_row.spans.rows())?;
    write_rows_on(writer, wanted.form, assets, &route_row.route, &rows)
}

fn write_each_row<W: Write>(
    alloc: Global,
    writer: &mut W,
    wanted: &RowsWanted,
    assets: &Chunked<Asset>,
    routes: &Chunked<RouteRow>,
) -> io::Result<()>
    requires order { each_two asset_before assets.now.rows ≡ true }
    ensures { OnOk result (Appends (W.contents writer.old) (W.contents writer.new)
        (flat_map (rows_of wanted.now assets.now.rows) routes.now.rows)) }
{
    for route_row in routes.iter() {
        write_rows_of(alloc, writer, wanted, assets, route_row)?;
    }
    Ok(())
}

/// Writes the rows that are asked for of one route, if there is one.
fn write_rows_of_some<W: Write>(
    alloc: Global,
    writer: &mut W,
    wanted: &RowsWanted,
    assets: &Chunked<Asset>,
    route_row: Option<&RouteRow>,
) -> io::Result<()>
    requires order { each_two asset_before assets.now.rows ≡ true }
    ensures { OnOk result (Appends (W.contents writer.old) (W.contents writer.new)
        (option_map_or (rows_of wanted.now assets.now.rows) (option_map (λ e. e.now) route_row.entry) [])) }
{
    match route_row {
        Some(route_row) => write_rows_of(alloc, writer, wanted, assets, route_row),
        None => Ok(()),
    }
}

/// Writes the rows that are asked for. A route that is named is found by search.
fn write_asked<W: Write>(
    alloc: Global,
    writer: &mut W,
    wanted: &RowsWanted,
    assets: &Chunked<Asset>,
    routes: &Chunked<RouteRow>,
) -> io::Result<()>
    requires assets_order { each_two asset_before assets.now.rows ≡ true }
    requires routes_order { each_two route_before routes.now.rows ≡ true }
    ensures { OnOk result (Appends (W.contents writer.old) (W.contents writer.new)
        (flat_map (rows_of wanted.now assets.now.rows)
        (filter (is_of_route wanted.now.route) routes.now.rows))) }
{
    match &wanted.route {
        Some(name) => write_rows_of_some(alloc, writer, wanted, assets, routes.find(name)),
        None => write_each_row(alloc, writer, wanted, assets, routes),
    }
}

fn write_header<W: Write>(writer: &mut W, form: RowForm) -> io::Result<()>
    ensures { OnOk result (Appends (W.contents writer.old) (W.contents writer.new)
        (rows_header form)) }
{
    match form {
        RowForm::Decimal | RowForm::Exact => writer.write_all(
            b"route,from,to,from_measure,to_measure,side,asset,class,value,offset,entry\n",
        ),
        RowForm::OnLinks => {
            writer.write_all(b"asset,class,value,offset,link,from,to,side,route\n")
        }
    }
}

/// Writes each row that is asked for, in the form that is asked for: by route, and then in the order of the road, by the
/// chainage at which the rows begin, then side, left before right before both, then class and asset. The header says what a
/// line has.
///
/// On routes: `route,from,to,from_measure,to_measure,side,asset,class,value,offset,entry`. From and to are chainages in
/// millimetres; a point's `to` is `from + 1`. The measures there are exact, or decimals of three places, a half going up. The
/// lateral offset is in millimetres, the side is seen along the route, and `entry` is the number of an edit.
///
/// On links: `asset,class,value,offset,link,from,to,side,route`, a line for each piece of the route's course that the row has
/// a millimetre of, in the order of the route. From and to are millimetres of the link, from below to, and the side is seen
/// along the link.
///
/// Beyond the writer's memory it takes that for the rows of one route at a time that are asked for, to sort them. It does not
/// flush the writer.
///
/// # Errors
/// That of the writer, and `OutOfMemory` when memory runs out. Part of the list may be written then. A route, a class or an
/// asset that is not known has no rows.
pub fn write_rows<W: Write>(
    alloc: Global,
    writer: &mut W,
    kept: &ImageLists,
    wanted: &RowsWanted,
) -> io::Result<()>
    requires sound { IsSound (image_of kept.now) }
    ensures { OnOk result (Appends (W.contents writer.old) (W.contents writer.new)
        (rows_text wanted.now (image_of kept.now))) }
{
    write_header(writer, wanted.form)?;
    write_asked(alloc, writer, wanted, &kept.assets, &kept.routes)
}
