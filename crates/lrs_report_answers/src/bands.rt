//! The bands of a diagram: the rows of classes on each side of a route.

ghost use Rattle.std.specs.Prelude.{◌≡◌, true, IfOk, length, map, filter};
ghost use Rattle.lrs_events.specs.LaneLists.Lane.{is_met};
ghost use Rattle.lrs_events.specs.declared.side.LinkSide.TheVariants.{Left, Right};
ghost use Rattle.lrs_machine.specs.Sound.{asset_before};
ghost use Rattle.lrs_measure.specs.Lists.{each_two};
ghost use Rattle.lrs_report_answers.specs.DrawnRows.{AreBands, AreBandsOf, IsBand, drawn_row, is_point, value_of};

use crate::hits::hit_of;
use lrs_events::{Asset, Class, Kind, LinkSide, Span, Spans, Value};
use lrs_measure::Rows;
use lrs_ordered::Chunked;
use lrs_report::{ClassBands, DrawnRow, Scale};
use std::alloc::{AllocError, Global};

fn is_point(kind: Kind) -> bool
    ensures { result ≡ is_point kind }
{
    match kind {
        Kind::Point => true,
        Kind::Stretch | Kind::Exclusive => false,
    }
}

/// The value of the asset of a row.
fn value_of(assets: &Chunked<Asset>, row: &Span) -> Option<Value>
    requires order { each_two asset_before assets.now.rows ≡ true }
    ensures { result ≡ value_of assets.now.rows row.now }
{
    match hit_of(assets, row) {
        Some(hit) => Some(hit.asset.value),
        None => None,
    }
}

/// The rows that have a millimetre of the stretch, as they are drawn.
fn rows_within(
    alloc: Global,
    assets: &Chunked<Asset>,
    is_point: bool,
    scale: Scale,
    rows: &[Span],
) -> Result<Rows<DrawnRow>, AllocError>
    requires order { each_two asset_before assets.now.rows ≡ true }
    ensures { IfOk result (λ drawn. drawn ≡ map (drawn_row assets.now.rows is_point)
        (filter (is_met scale.from scale.to) rows.now)) }
{
    let mut drawn = Vec::new(alloc);
    for row in rows {
        if row.from < scale.to && scale.from < row.to {
            let value = value_of(assets, row);
            drawn.push(DrawnRow {
                from: row.from,
                to: row.to,
                asset: row.asset,
                value,
                is_point,
            })?;
        }
    }
    Ok(Rows::from_vec(drawn))
}

/// What is drawn of a class on one side of a route.
fn band_of(
    alloc: Global,
    assets: &Chunked<Asset>,
    spans: &Spans,
    scale: Scale,
    class: Class,
    side: LinkSide,
) -> Result<Rows<DrawnRow>, AllocError>
    requires order { each_two asset_before assets.now.rows ≡ true }
    ensures { IfOk result (IsBand assets.now.rows spans.now scale.from scale.to class side) }
{
    let near = spans.near(class.name, side, scale.from, scale.to);
    rows_within(alloc, assets, is_point(class.kind), scale, near)
}

/// What is drawn of a class.
fn bands_of(
    alloc: Global,
    assets: &Chunked<Asset>,
    spans: &Spans,
    scale: Scale,
    class: Class,
) -> Result<ClassBands, AllocError>
    requires order { each_two asset_before assets.now.rows ≡ true }
    ensures { IfOk result (AreBandsOf assets.now.rows spans.now scale.from scale.to class) }
{
    Ok(ClassBands {
        class,
        left: band_of(alloc, assets, spans, scale, class, LinkSide::Left)?,
        right: band_of(alloc, assets, spans, scale, class, LinkSide::Right)?,
    })
}

/// What is drawn of each of these classes.
pub(crate) fn all_bands(
    alloc: Global,
    assets: &Chunked<Asset>,
    spans: &Spans,
    scale: Scale,
    classes: &[Class],
) -> Result<Rows<ClassBands>, AllocError>
    requires order { each_two asset_before assets.now.rows ≡ true }
    ensures bands { IfOk result (AreBands assets.now.rows spans.now scale.from scale.to classes.now) }
    ensures count { IfOk result (λ bands. length bands ≡ length classes.now) }
{
    let mut bands = Vec::new(alloc);
    for class in classes {
        bands.push(bands_of(alloc, assets, spans, scale, *class)?)?;
    }
    Ok(Rows::from_vec(bands))
}
