//! What an accepted command changes: removed rows and inserted rows, table by table.

ghost use Rattle.std.specs.Prelude.{◌≡◌, IfOk};
ghost use Rattle.lrs_image.specs.Change as change;

use lrs_element::{Course, Link, Marks};
use lrs_events::{Asset, Class, Gone, Part, Span};
use lrs_machine::{Edit, RouteRow};
use lrs_measure::{Rows, TryCopy};
use lrs_position::{RefName, Referent, RouteName};
use std::alloc::{AllocError, Global};

/// The removed referents of a route, by their names in order, and the inserted ones.
#[derive(Drop)]
pub struct ReferentChange {
    pub gone: Rows<RefName>,
    pub come: Rows<Referent>,
}

impl TryCopy for ReferentChange {
    fn copy(&self, alloc: Global) -> Result<ReferentChange, AllocError> {
        Ok(ReferentChange {
            gone: self.gone.copy(alloc)?,
            come: self.come.copy(alloc)?,
        })
    }
}

/// What lies on a route, by the keys under which a store has it: the names of its referents, and its rows.
#[derive(Drop)]
pub struct RouteKeys {
    pub refs: Rows<RefName>,
    pub spans: Rows<Span>,
}

impl RouteKeys {
    /// Those of no route. They take no memory.
    pub fn none(alloc: Global) -> RouteKeys
        ensures { result ≡ change.no_keys }
    {
        RouteKeys {
            refs: Rows::new(alloc),
            spans: Rows::new(alloc),
        }
    }
}

impl TryCopy for RouteKeys {
    fn copy(&self, alloc: Global) -> Result<RouteKeys, AllocError> {
        Ok(RouteKeys {
            refs: self.refs.copy(alloc)?,
            spans: self.spans.copy(alloc)?,
        })
    }
}

/// What changes on one route that stays. What is not given stays as it is.
#[derive(Drop)]
pub struct RouteChange {
    /// Which route.
    pub route: RouteName,
    /// Its name from now on.
    pub name: RouteName,
    /// What lies on it after the change, where its name changes.
    pub keys: RouteKeys,
    pub course: Option<Course>,
    pub marks: Option<Marks>,
    pub refs: ReferentChange,
    pub spans_gone: Rows<Span>,
    pub spans_come: Rows<Span>,
}

impl TryCopy for RouteChange {
    fn copy(&self, alloc: Global) -> Result<RouteChange, AllocError> {
        // One value holds the lists, and a drop is a call: each is then one step to prove, and not one for each part.
        let lists = copy_route_lists(self, alloc)?;
        match copy_marks(&self.marks) {
            Ok(marks) => match copy_course(&self.course) {
                Ok(course) => {
                    let (keys, refs, spans_gone, spans_come) = lists;
                    Ok(RouteChange {
                        route: self.route,
                        name: self.name,
                        keys,
                        course,
                        marks,
                        refs,
                        spans_gone,
                        spans_come,
                    })
                }
                Err(fault) => {
                    drop(lists);
                    drop(marks);
                    Err(fault)
                }
            },
            Err(fault) => {
                drop(lists);
                Err(fault)
            }
        }
    }
}

/// The keys, referents and rows of a change.
type RouteLists = (RouteKeys, ReferentChange, Rows<Span>, Rows<Span>);

fn copy_route_lists(change: &RouteChange, alloc: Global) -> Result<RouteLists, AllocError>
    ensures { IfOk result (λ lists. (lists.0 ≡ change.now.keys) × (lists.1 ≡ change.now.refs)
        × (lists.2 ≡ change.now.spans_gone) × (lists.3 ≡ change.now.spans_come)) }
{
    let keys = change.keys.copy(alloc)?;
    match change.refs.copy(alloc) {
        Ok(refs) => match copy_rows(&change.spans_gone, &change.spans_come, alloc) {
            Ok((spans_gone, spans_come)) => Ok((keys, refs, spans_gone, spans_come)),
            Err(fault) => {
                drop(keys);
                drop(refs);
                Err(fault)
            }
        },
        Err(fault) => {
            drop(keys);
            Err(fault)
        }
    }
}

/// A pair of two lists.
type RowPair<T, U> = (Rows<T>, Rows<U>);

fn copy_rows<T: Copy, U: Copy>(
    first: &Rows<T>,
    second: &Rows<U>,
    alloc: Global,
) -> Result<RowPair<T, U>, AllocError>
    ensures { IfOk result (λ pair. (pair.0 ≡ first.now) × (pair.1 ≡ second.now)) }
{
    let first = first.copy(alloc)?;
    match second.copy(alloc) {
        Ok(second) => Ok((first, second)),
        Err(fault) => {
            drop(first);
            Err(fault)
        }
    }
}

fn copy_course(course: &Option<Course>) -> Result<Option<Course>, AllocError>
    ensures { IfOk result (λ copy. copy ≡ course.now) }
{
    match course {
        Some(course) => Ok(Some(course.copy()?)),
        None => Ok(None),
    }
}

fn copy_marks(marks: &Option<Marks>) -> Result<Option<Marks>, AllocError>
    ensures { IfOk result (λ copy. copy ≡ marks.now) }
{
    match marks {
        Some(marks) => Ok(Some(marks.copy()?)),
        None => Ok(None),
    }
}

fn copy_some<T: TryCopy>(value: &Option<T>, alloc: Global) -> Result<Option<T>, AllocError>
    ensures { IfOk result (λ copy. copy ≡ value.now) }
{
    match value {
        Some(value) => Ok(Some(value.copy(alloc)?)),
        None => Ok(None),
    }
}

/// What an accepted command changes. Of the routes at most one stays and changes, one goes, and one comes;
/// they do so in this order.
#[derive(Drop)]
pub struct Difference {
    pub link: Option<Link>,
    pub class: Option<Class>,
    pub asset: Option<Asset>,
    pub changed: Option<RouteChange>,
    pub dropped: Option<RouteName>,
    /// What lies on the route that is dropped.
    pub keys: RouteKeys,
    pub made: Option<RouteRow>,
    pub entered: Rows<Part>,
    pub gone: Rows<Gone>,
}

impl Difference {
    /// The difference that changes nothing. It takes no memory.
    pub fn none(alloc: Global) -> Difference
        ensures { result ≡ change.no_difference }
    {
        Difference {
            link: None,
            class: None,
            asset: None,
            changed: None,
            dropped: None,
            keys: RouteKeys::none(alloc),
            made: None,
            entered: Rows::new(alloc),
            gone: Rows::new(alloc),
        }
    }
}

impl TryCopy for Difference {
    fn copy(&self, alloc: Global) -> Result<Difference, AllocError> {
        let lists = copy_difference_lists(self, alloc)?;
        match copy_some(&self.made, alloc) {
            Ok(made) => match copy_some(&self.changed, alloc) {
                Ok(changed) => {
                    let (keys, entered, gone) = lists;
                    Ok(Difference {
                        link: self.link,
                        class: self.class,
                        asset: self.asset,
                        changed,
                        dropped: self.dropped,
                        keys,
                        made,
                        entered,
                        gone,
                    })
                }
                Err(fault) => {
                    drop(lists);
                    drop(made);
                    Err(fault)
                }
            },
            Err(fault) => {
                drop(lists);
                Err(fault)
            }
        }
    }
}

/// The keys of what lies on the route that goes, and the rows of both ledgers.
type DifferenceLists = (RouteKeys, Rows<Part>, Rows<Gone>);

fn copy_difference_lists(
    difference: &Difference,
    alloc: Global,
) -> Result<DifferenceLists, AllocError>
    ensures { IfOk result (λ lists. (lists.0 ≡ difference.now.keys)
        × (lists.1 ≡ difference.now.entered) × (lists.2 ≡ difference.now.gone)) }
{
    let keys = difference.keys.copy(alloc)?;
    match copy_rows(&difference.entered, &difference.gone, alloc) {
        Ok((entered, gone)) => Ok((keys, entered, gone)),
        Err(fault) => {
            drop(keys);
            Err(fault)
        }
    }
}

/// An accepted command, and what it changes.
#[derive(Drop)]
pub struct Change {
    pub edit: Edit,
    pub difference: Difference,
}

impl TryCopy for Change {
    fn copy(&self, alloc: Global) -> Result<Change, AllocError> {
        Ok(Change {
            edit: self.edit.copy(alloc)?,
            difference: self.difference.copy(alloc)?,
        })
    }
}
