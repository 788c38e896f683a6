//! For the prover alone: each text of a change is of its kind, as its type says. No function here changes anything.

ghost use Rattle.std.specs.Prelude.{IsTrue, IfSome};
ghost use Rattle.std.specs.Str.{IsUtf8};
ghost use Rattle.lrs_events.specs.Names.{is_class_name, is_value};
ghost use Rattle.lrs_machine.specs.Keys.{is_key};
ghost use Rattle.lrs_store_commit.specs.Laws.Texts.{HasTexts, HaveTexts, AreNames, MakesTexts, ChangesTexts};

use lrs_events::{Asset, Class};
use lrs_image::{Change, RouteChange};
use lrs_machine::{Edit, RouteRow};
use lrs_position::Referent;

/// Each name of a referent is one.
fn prove_referents(refs: &[Referent])
    ensures { AreNames refs.now }
{
    for referent in refs {
        let _name = referent.name.bytes();
    }
}

/// The name of a new class is one.
fn prove_class(class: &Option<Class>)
    ensures { IfSome class.now (λ c. IsTrue (is_class_name c.name)) }
{
    if let Some(class) = class {
        let _name = class.name.bytes();
    }
}

/// The value of a new asset is one.
fn prove_asset(asset: &Option<Asset>)
    ensures { IfSome asset.now (λ a. IsTrue (is_value a.value)) }
{
    if let Some(asset) = asset {
        let _value = asset.value.bytes();
    }
}

/// The names on a new route are names.
fn prove_made(route_row: &Option<RouteRow>)
    ensures { IfSome route_row.now MakesTexts }
{
    if let Some(route_row) = route_row {
        let _name = route_row.route.name.bytes();
        prove_referents(route_row.route.refs.as_slice());
    }
}

/// The names that a route gets are names.
fn prove_changed(change: &Option<RouteChange>)
    ensures { IfSome change.now ChangesTexts }
{
    if let Some(change) = change {
        let _name = change.name.bytes();
        prove_referents(change.refs.come.as_slice());
    }
}

/// The key of an edit is one, and its line is a text.
fn prove_edit(edit: &Edit)
    ensures key { IsTrue (is_key edit.now.key) }
    ensures line { IsUtf8 edit.now.line }
{
    let _key = edit.key.bytes();
    let _line = edit.line.as_str().as_bytes();
}

/// Each text of a change is of its kind, as its type says.
fn prove_texts(change: &Change)
    ensures { HasTexts change.now }
{
    let difference = &change.difference;
    prove_class(&difference.class);
    prove_asset(&difference.asset);
    prove_changed(&difference.changed);
    prove_made(&difference.made);
    prove_edit(&change.edit);
}

/// So is each text of one of the changes. It does nothing: a contract names it.
pub fn prove_all_texts(changes: &[Change])
    ensures { HaveTexts changes.now }
{
    for change in changes {
        prove_texts(change);
    }
}
