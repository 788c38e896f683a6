//! What a desk knows.

ghost use Rattle.std.specs.Prelude.{◌≡◌, IfOk};

use crate::key::Key;
use crate::line::Line;
use lrs_element::Link;
use lrs_events::{Asset, Class, Gone, Part, Spans};
use lrs_measure::{Keyed, Ordered, Rows, TryCopy, name_rank};
use lrs_position::{Route, RouteName};
use std::alloc::{AllocError, Global};
use std::cmp;

/// A route and what lies on it.
#[derive(Drop)]
pub struct RouteRow {
    pub route: Route,
    pub spans: Spans,
}

impl TryCopy for RouteRow {
    fn copy(&self, alloc: Global) -> Result<RouteRow, AllocError> {
        Ok(RouteRow {
            spans: self.spans.copy(alloc)?,
            route: self.route.copy(alloc)?,
        })
    }
}

impl Ordered for RouteRow {
    ghost use Rattle.lrs_machine.specs.Sound.{route_before};

    ghost before = { route_before };

    fn is_before(&self, other: &RouteRow) -> bool {
        let name = &self.route.name;
        let other_name = &other.route.name;
        name.bytes().cmp(other_name.bytes()).is_lt()
    }

    fn rank(&self) -> u64 {
        name_rank(self.route.name.bytes())
    }
}

impl Keyed<RouteName> for RouteRow {
    ghost use Rattle.lrs_measure.specs.Texts.{name_cmp};
    ghost use Rattle.lrs_measure.specs.KeyOrder.{name_after};

    ghost key_order = { λ route_row name. name_cmp route_row.route.name name };

    fn cmp_key(&self, name: &RouteName) -> cmp::Ordering {
        let own = &self.route.name;
        own.bytes().cmp(name.bytes())
    }

    fn key_rank(name: &RouteName) -> u64 {
        name_rank(name.bytes())
    }

    ghost rises = { λ a b name before from. name_after a.route.name b.route.name name before from };
}

/// An accepted command: its key and its canonical line.
#[derive(Drop)]
pub struct Edit {
    pub key: Key,
    pub line: Line,
}

impl TryCopy for Edit {
    fn copy(&self, alloc: Global) -> Result<Edit, AllocError> {
        Ok(Edit {
            key: self.key,
            line: self.line.copy(alloc)?,
        })
    }
}

/// All that is known, each list in the order of its key: links and assets by number, classes and routes by
/// name, `entered` by edit, asset, link, start and side, `gone` by edit, reason, asset, link, start and side,
/// edits by number.
#[derive(Drop)]
pub struct Image {
    pub links: Rows<Link>,
    pub classes: Rows<Class>,
    pub assets: Rows<Asset>,
    pub routes: Rows<RouteRow>,
    pub entered: Rows<Part>,
    pub gone: Rows<Gone>,
    pub edits: Rows<Edit>,
}

impl Image {
    ghost use Rattle.lrs_machine.specs.Image.{nothing};

    /// The image without entries. It takes no memory.
    pub fn empty(alloc: Global) -> Image
        ensures { result ≡ nothing }
    {
        Image {
            links: Rows::new(alloc),
            classes: Rows::new(alloc),
            assets: Rows::new(alloc),
            routes: Rows::new(alloc),
            entered: Rows::new(alloc),
            gone: Rows::new(alloc),
            edits: Rows::new(alloc),
        }
    }

    /// An equal image.
    ///
    /// # Errors
    ///
    /// When memory runs out.
    pub fn copy(&self, alloc: Global) -> Result<Image, AllocError>
        ensures { IfOk result (λ image. image ≡ self.now) }
    {
        Ok(Image {
            links: self.links.copy(alloc)?,
            classes: self.classes.copy(alloc)?,
            assets: self.assets.copy(alloc)?,
            entered: self.entered.copy(alloc)?,
            gone: self.gone.copy(alloc)?,
            // last, since they have most parts, and what is alive where another fails is dropped there
            edits: self.edits.copy_each(alloc)?,
            routes: self.routes.copy_each(alloc)?,
        })
    }
}
