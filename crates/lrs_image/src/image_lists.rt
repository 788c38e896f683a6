//! The lists of an image, in which room is made before anything changes.

ghost use Rattle.std.specs.Prelude.{◌≡◌, ◌≤◌, ◌+◌, IfOk, OnOk, OnErr, true};
ghost use Rattle.lrs_measure.specs.Lists.{each_two};
ghost use Rattle.lrs_machine.specs.Image.{nothing};
ghost use Rattle.lrs_machine.specs.Sound.{IsSound, route_before};
ghost use Rattle.lrs_image.specs.Change.{apply, CanMake, CanDiffer};
ghost use Rattle.lrs_image.specs.ChangeLists.{apply_all, CanMakeAll};
ghost use Rattle.lrs_image.specs.OpenLists.{image_of, image_with, HasRoomFor, IsPrepared};

use crate::change::{Change, Difference};
use crate::lists::{append_in_room, chunks_of, copies_of, make_room, push_in_room, rows_of};
use crate::open_route::OpenRoute;
use crate::routes::{drop_route, open_route, put_changed};
use lrs_element::Link;
use lrs_events::{Asset, Class, Gone, Part};
use lrs_machine::{Edit, Image, RouteRow};
use lrs_measure::{Rows, TryCopy};
use lrs_ordered::Chunked;
use std::alloc::{AllocError, Global};

/// The lists of an image: those in which rows are inserted and removed anywhere in chunks, so that one more row moves few
/// others, and those that grow at their end in vectors.
#[derive(Drop)]
pub struct ImageLists {
    pub links: Chunked<Link>,
    pub classes: Chunked<Class>,
    pub assets: Chunked<Asset>,
    pub routes: Chunked<RouteRow>,
    pub entered: Vec<Part>,
    pub gone: Vec<Gone>,
    pub edits: Vec<Edit>,
}

impl ImageLists {
    /// The lists of the image without entries. It takes no memory.
    pub fn empty(alloc: Global) -> ImageLists
        ensures { image_of result ≡ nothing }
    {
        ImageLists {
            links: Chunked::new(alloc),
            classes: Chunked::new(alloc),
            assets: Chunked::new(alloc),
            routes: Chunked::new(alloc),
            entered: Vec::new(alloc),
            gone: Vec::new(alloc),
            edits: Vec::new(alloc),
        }
    }

    /// The lists of an image.
    ///
    /// # Errors
    /// When memory runs out.
    pub fn of_image(alloc: Global, image: Image) -> Result<ImageLists, AllocError>
        ensures { IfOk result (λ kept. image_of kept ≡ image) }
    {
        let Image {
            links,
            classes,
            assets,
            routes,
            entered,
            gone,
            edits,
        } = image;
        match named_chunks(alloc, links, classes, assets, routes) {
            Ok((links, classes, assets, routes)) => Ok(ImageLists {
                links,
                classes,
                assets,
                routes,
                entered: entered.into_vec(),
                gone: gone.into_vec(),
                edits: edits.into_vec(),
            }),
            Err(AllocError) => {
                // As calls, the drops are one step each to prove, and not one for each part.
                drop(entered);
                drop(gone);
                drop(edits);
                Err(AllocError)
            }
        }
    }

    /// An equal image.
    ///
    /// # Errors
    /// When memory runs out.
    pub fn image(&self, alloc: Global) -> Result<Image, AllocError>
        ensures { IfOk result (λ image. image ≡ image_of self.now) }
    {
        Ok(Image {
            links: rows_of(alloc, &self.links)?,
            classes: rows_of(alloc, &self.classes)?,
            assets: rows_of(alloc, &self.assets)?,
            entered: Rows::from_vec(Vec::from_slice(alloc, &self.entered)?),
            gone: Rows::from_vec(Vec::from_slice(alloc, &self.gone)?),
            edits: copied_edits(alloc, &self.edits)?,
            routes: copies_of(alloc, &self.routes)?,
        })
    }
}

/// The lists in which rows come and go anywhere, in chunks.
fn named_chunks(
    alloc: Global,
    links: Rows<Link>,
    classes: Rows<Class>,
    assets: Rows<Asset>,
    routes: Rows<RouteRow>,
) -> Result<
    (
        Chunked<Link>,
        Chunked<Class>,
        Chunked<Asset>,
        Chunked<RouteRow>,
    ),
    AllocError,
>
    ensures links { IfOk result (λ lists. lists.0.rows ≡ links) }
    ensures classes { IfOk result (λ lists. lists.1.rows ≡ classes) }
    ensures assets { IfOk result (λ lists. lists.2.rows ≡ assets) }
    ensures routes { IfOk result (λ lists. lists.3.rows ≡ routes) }
{
    let routes = chunks_of(alloc, routes.into_vec())?;
    let assets = chunks_of(alloc, assets.into_vec())?;
    let classes = chunks_of(alloc, classes.into_vec())?;
    let links = chunks_of(alloc, links.into_vec())?;
    Ok((links, classes, assets, routes))
}

fn copied_edits(alloc: Global, edits: &[Edit]) -> Result<Rows<Edit>, AllocError>
    ensures { IfOk result (λ copies. copies ≡ edits.now) }
{
    let mut copies = Vec::with_capacity(alloc, edits.len())?;
    for edit in edits {
        copies.push(edit.copy(alloc)?)?;
    }
    Ok(Rows::from_vec(copies))
}

impl ImageLists {
    /// Makes room for a difference, and takes the route that changes out of its place. What the image is stays.
    ///
    /// # Errors
    /// When memory runs out; each route is then in its place.
    pub fn prepare(
        &mut self,
        alloc: Global,
        difference: &Difference,
    ) -> Result<Option<OpenRoute>, AllocError>
        requires sound { IsSound (image_of self.old) }
        requires can { CanDiffer difference.now (image_of self.old) }
        ensures image { IfOk result (λ opened. image_with opened self.new ≡ image_of self.old) }
        ensures ready { IfOk result (λ opened. IsPrepared difference.now opened self.new) }
        ensures err { OnErr result (image_of self.new ≡ image_of self.old) }
    {
        self.make_room(difference)?;
        match &difference.changed {
            Some(change) => {
                let opened = open_route(alloc, &mut self.routes, change)?;
                Ok(opened)
            }
            None => Ok(None),
        }
    }

    fn make_room(&mut self, difference: &Difference) -> Result<(), AllocError>
        ensures image { image_of self.new ≡ image_of self.old }
        ensures room { OnOk result (HasRoomFor difference.now self.new) }
    {
        self.links.reserve(1)?;
        self.classes.reserve(1)?;
        self.assets.reserve(1)?;
        self.routes.reserve(2)?;
        make_room(&mut self.entered, difference.entered.len())?;
        make_room(&mut self.gone, difference.gone.len())?;
        make_room(&mut self.edits, 1)
    }

    /// Puts a route that was to change back into its place. It takes no memory.
    pub fn put_back(&mut self, opened: Option<OpenRoute>)
        requires room { 1 ≤ self.old.routes.room }
        requires order { each_two route_before (image_with opened self.old).routes ≡ true }
        ensures { image_of self.new ≡ image_with opened self.old }
    {
        if let Some(opened) = opened {
            self.routes.insert_ordered(opened.close());
        }
    }

    /// Makes a change for which the lists are prepared. It takes no memory and cannot fail.
    pub fn finish(&mut self, opened: Option<OpenRoute>, change: Change)
        requires prepared { IsPrepared change.difference opened self.old }
        requires can { CanMake change (image_with opened self.old) }
        requires sound { IsSound (image_with opened self.old) }
        ensures { image_of self.new ≡ apply change (image_with opened self.old) }
    {
        let Change { edit, difference } = change;
        self.links.insert_some_ordered(difference.link);
        self.classes.insert_some_ordered(difference.class);
        self.assets.insert_some_ordered(difference.asset);
        put_changed(&mut self.routes, opened, difference.changed);
        drop_route(&mut self.routes, difference.dropped);
        self.routes.insert_some_ordered(difference.made);
        append_in_room(&mut self.entered, difference.entered.into_vec());
        append_in_room(&mut self.gone, difference.gone.into_vec());
        push_in_room(&mut self.edits, edit);
    }

    /// Makes a change, for which room is made first.
    ///
    /// # Errors
    /// When memory runs out; nothing has changed then.
    pub fn change(&mut self, alloc: Global, change: Change) -> Result<(), AllocError>
        requires sound { IsSound (image_of self.old) }
        requires can { CanMake change (image_of self.old) }
        ensures ok { OnOk result (image_of self.new ≡ apply change (image_of self.old)) }
        ensures err { OnErr result (image_of self.new ≡ image_of self.old) }
    {
        match self.prepare(alloc, &change.difference) {
            Ok(opened) => {
                self.finish(opened, change);
                Ok(())
            }
            Err(AllocError) => {
                // As a call, the drop is one step to prove, and not one for each part.
                drop(change);
                Err(AllocError)
            }
        }
    }

    /// Makes changes, each of what those before it made.
    ///
    /// # Errors
    /// When memory runs out; some first ones may be made then.
    pub fn change_all(&mut self, alloc: Global, changes: &[Change]) -> Result<(), AllocError>
        requires sound { IsSound (image_of self.old) }
        requires can { CanMakeAll changes.now (image_of self.old) }
        ensures ok { OnOk result (image_of self.new ≡ apply_all changes.now (image_of self.old)) }
        ensures sound { IsSound (image_of self.new) }
    {
        for change in changes {
            let change = change.copy(alloc)?;
            self.change(alloc, change)?;
        }
        Ok(())
    }
}
