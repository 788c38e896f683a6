//! The first row of a table in which an inventory is not what its log makes, as text.

use lrs_element::{Link, Mark, Piece};
use lrs_events::{Asset, Class, Gone, LinkSide, Part, Span};
use lrs_image::ImageLists;
use lrs_machine::{Edit, RouteRow, Table};
use lrs_ordered::Chunked;
use lrs_position::{Referent, RouteName};
use std::alloc::{AllocError, Global};
use std::rt::Runtime;

// The rows of a table as texts, in the order in which an image has them.
type Texts = Vec<String>;

// A row as text. What lies on a route has the route's name in it.
trait Row {
    fn text(&self, alloc: Global, route: &str) -> Result<String, AllocError>;
}

impl Row for Link {
    fn text(&self, alloc: Global, _route: &str) -> Result<String, AllocError> {
        let number = self.number;
        let length = self.length;
        format!(in alloc; "{number},{length}")
    }
}

impl Row for Class {
    fn text(&self, alloc: Global, _route: &str) -> Result<String, AllocError> {
        let name = self.name;
        let kind = self.kind;
        format!(in alloc; "{name},{kind}")
    }
}

impl Row for Asset {
    fn text(&self, alloc: Global, _route: &str) -> Result<String, AllocError> {
        let number = self.number;
        let class = self.class;
        let value = self.value;
        let offset = self.lateral;
        let edit = self.entered_by;
        format!(in alloc; "{number},{class},{value},{offset},{edit}")
    }
}

fn part_text(alloc: Global, part: &Part, behind: &str) -> Result<String, AllocError> {
    let edit = part.edit;
    let asset = part.asset;
    let link = part.link;
    let from = part.from;
    let to = part.to;
    let side = match part.side {
        LinkSide::Left => "L",
        LinkSide::Right => "R",
    };
    format!(in alloc; "{edit},{asset},{link},{from},{to},{side}{behind}")
}

impl Row for Part {
    fn text(&self, alloc: Global, _route: &str) -> Result<String, AllocError> {
        part_text(alloc, self, "")
    }
}

impl Row for Gone {
    fn text(&self, alloc: Global, _route: &str) -> Result<String, AllocError> {
        let reason = if self.abandoned {
            ",abandoned"
        } else {
            ",retired"
        };
        part_text(alloc, &self.part, reason)
    }
}

impl Row for Edit {
    fn text(&self, alloc: Global, _route: &str) -> Result<String, AllocError> {
        let key = self.key;
        let line = self.line.as_str();
        format!(in alloc; "{key} {line}")
    }
}

impl Row for Piece {
    fn text(&self, alloc: Global, route: &str) -> Result<String, AllocError> {
        let link = self.link;
        let from = self.from;
        let to = self.to;
        let direction = if self.forward { "+" } else { "-" };
        format!(in alloc; "{route},{link}:{from}:{to}:{direction}")
    }
}

impl Row for Mark {
    fn text(&self, alloc: Global, route: &str) -> Result<String, AllocError> {
        let chainage = self.chainage;
        let measure = self.measure;
        format!(in alloc; "{route},{chainage}:{measure}")
    }
}

impl Row for Referent {
    fn text(&self, alloc: Global, route: &str) -> Result<String, AllocError> {
        let name = self.name;
        let at = self.at;
        format!(in alloc; "{name},{route},{at}")
    }
}

impl Row for Span {
    fn text(&self, alloc: Global, route: &str) -> Result<String, AllocError> {
        let asset = self.asset;
        let class = self.class;
        let from = self.from;
        let to = self.to;
        let side = self.side;
        format!(in alloc; "{route},{from},{to},{side},{asset},{class}")
    }
}

fn push_row<T: Row>(
    alloc: Global,
    texts: &mut Texts,
    route: &str,
    row: &T,
) -> Result<(), AllocError> {
    texts.push(row.text(alloc, route)?)?;
    Ok(())
}

fn push_rows<T: Row>(
    alloc: Global,
    texts: &mut Texts,
    route: &str,
    rows: &[T],
) -> Result<(), AllocError> {
    for row in rows {
        push_row(alloc, texts, route, row)?;
    }
    Ok(())
}

fn push_chunked<T: Row>(
    alloc: Global,
    texts: &mut Texts,
    rows: &Chunked<T>,
) -> Result<(), AllocError> {
    for row in rows.iter() {
        push_row(alloc, texts, "", row)?;
    }
    Ok(())
}

fn route_text(name: &RouteName) -> &str {
    match str::from_utf8(name.bytes()) {
        Ok(text) => text,
        Err(_) => "",
    }
}

// What lies on a route in a table, in its order.
fn push_on_route(
    alloc: Global,
    texts: &mut Texts,
    row: &RouteRow,
    table: Table,
) -> Result<(), AllocError> {
    let route = route_text(&row.route.name);
    match table {
        Table::Mark => push_rows(alloc, texts, route, row.route.marks.list()),
        Table::Ref => push_rows(alloc, texts, route, row.route.refs.as_slice()),
        Table::Span => push_rows(alloc, texts, route, row.spans.rows()),
        _ => push_rows(alloc, texts, route, row.route.course.pieces()),
    }
}

fn push_routes(
    alloc: Global,
    texts: &mut Texts,
    kept: &ImageLists,
    table: Table,
) -> Result<(), AllocError> {
    for row in kept.routes.iter() {
        push_on_route(alloc, texts, row, table)?;
    }
    Ok(())
}

fn push_table(
    alloc: Global,
    texts: &mut Texts,
    kept: &ImageLists,
    table: Table,
) -> Result<(), AllocError> {
    match table {
        Table::Link => push_chunked(alloc, texts, &kept.links),
        Table::Class => push_chunked(alloc, texts, &kept.classes),
        Table::Asset => push_chunked(alloc, texts, &kept.assets),
        Table::Entered => push_rows(alloc, texts, "", kept.entered.as_slice()),
        Table::Gone => push_rows(alloc, texts, "", kept.gone.as_slice()),
        Table::Edit => push_rows(alloc, texts, "", kept.edits.as_slice()),
        _ => push_routes(alloc, texts, kept, table),
    }
}

fn texts_of(alloc: Global, kept: &ImageLists, table: Table) -> Result<Texts, AllocError> {
    let mut texts = Vec::new(alloc);
    push_table(alloc, &mut texts, kept, table)?;
    Ok(texts)
}

// The text at a place; behind the last row there is none.
fn text_at(texts: &[String], place: usize) -> &str {
    match texts.get(place) {
        Some(text) => text.as_str(),
        None => "no row",
    }
}

fn tell_first<R: Runtime<A = Global>>(rt: &R, kept: &[String], made: &[String]) {
    let most = kept.len().max(made.len());
    for place in 0..most {
        let found = text_at(kept, place);
        let due = text_at(made, place);
        if found != due {
            let _ = eprintln!(rt; "kept: {found}\nlog:  {due}");
            return;
        }
    }
}

/// Says on standard error the first row of a table in which two images differ: as it is kept, and as the log makes it.
/// Where standard error takes nothing, or memory runs out, the table alone is told.
pub(crate) fn tell_row<R: Runtime<A = Global>>(
    rt: &R,
    kept: &ImageLists,
    made: &ImageLists,
    table: Table,
) {
    let Ok(kept) = texts_of(rt.alloc(), kept, table) else {
        return;
    };
    if let Ok(made) = texts_of(rt.alloc(), made, table) {
        tell_first(rt, kept.as_slice(), made.as_slice());
    }
}
