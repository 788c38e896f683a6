//! The table of referents.

ghost use Rattle.std.specs.Prelude.{◌≡◌, ◌++◌, not, map, length, IfOk};
ghost use Rattle.std.specs.List.{list_all, flat_map};
ghost use Rattle.lrs_measure.specs.Lists.{each_two};
ghost use Rattle.lrs_measure.specs.Texts.{same_name};
ghost use Rattle.lrs_machine.specs.Sound.{are_all_referents};
ghost use Rattle.lrs_image_sound.specs.Tables.{route_referents};

use lrs_machine::RouteRow;
use lrs_position::{RefName, Referent};
use std::alloc::{AllocError, Global};

/// Puts the names of referents behind others.
///
/// # Errors
/// When memory runs out; some of the names may then be there.
pub fn push_names(names: &mut Vec<RefName>, refs: &[Referent]) -> Result<(), AllocError>
    ensures { IfOk result (λ _. names.new.items ≡ names.old.items ++ map (λ r. r.name) refs.now) }
{
    for referent in refs {
        names.push(referent.name)?;
    }
    Ok(())
}

fn names_of(alloc: Global, routes: &[RouteRow]) -> Result<Vec<RefName>, AllocError>
    ensures { IfOk result (λ names. names.items ≡ map (λ r.
        r.name) (flat_map (λ e. e.route.refs) routes.now)) }
{
    let mut names = Vec::new(alloc);
    for route_row in routes {
        push_names(&mut names, route_row.route.refs.as_slice())?;
    }
    Ok(names)
}

/// Whether no two names are the same. A sort brings two that are side by side.
pub fn differ(mut names: Vec<RefName>) -> bool
    ensures { result ≡ each_two (λ k l. not (same_name k l)) names.items }
{
    names.sort_unstable();
    names.is_sorted_by(|k, l| k.bytes().cmp(l.bytes()).is_lt())
}

/// Whether referents stand on their routes in the order of their names, and no name is that of two. Each
/// route's own are so by its type, which leaves the names.
///
/// # Errors
/// When memory runs out.
pub fn are_referents(alloc: Global, routes: &[RouteRow]) -> Result<bool, AllocError>
    ensures { IfOk result (λ sound. sound ≡ are_all_referents (route_referents routes.now)) }
{
    let names = names_of(alloc, routes)?;
    Ok(differ(names))
}
