//! What a form says of a draft.

ghost use Rattle.std.specs.Prelude.{◌≡◌, ◌++◌, IfOk, OnOk, map, option_map};
ghost use Rattle.std.specs.Cow.{cow_str_bytes};
ghost use Rattle.std.specs.List.{flat_map};
ghost use Rattle.lrs_web_requests.specs.Query.{parameters, unknown_name};
ghost use Rattle.lrs_web.specs.DraftForms as spec;
ghost use Rattle.lrs_web.specs.DraftForms.{kind_text, knows};

use lrs_web_requests::{DraftKind, unknown_name, value_of, values_of};
use std::alloc::{AllocError, Global};
use std::borrow::CowStr;

/// What a draft is for, in one word.
pub(crate) fn name_of(kind: DraftKind) -> &'static str
    ensures { result.now ≡ kind_text kind }
{
    match kind {
        DraftKind::Split => "split",
        DraftKind::Bypass => "bypass",
        DraftKind::Merge => "merge",
        DraftKind::Retire => "retire",
        DraftKind::Replace => "replace",
        DraftKind::Move => "move",
        DraftKind::Undo => "undo",
    }
}

/// The first parameter of a form that a kind of draft does not know.
pub(crate) fn unknown_in<'q>(
    alloc: Global,
    kind: DraftKind,
    form: &'q [u8],
) -> Result<Option<CowStr<'q>>, AllocError>
    ensures { IfOk result (λ name. option_map cow_str_bytes name
        ≡ unknown_name (knows kind) form.now) }
{
    match kind {
        DraftKind::Split => unknown_name(alloc, form, &["route", "place", "new", "key"]),
        DraftKind::Bypass => {
            let known = ["route", "from", "to", "pieces", "old", "key"];
            unknown_name(alloc, form, &known)
        }
        DraftKind::Merge => unknown_name(alloc, form, &["route", "key"]),
        DraftKind::Retire => unknown_name(alloc, form, &["asset", "key"]),
        DraftKind::Replace => unknown_name(alloc, form, &["asset", "number", "value", "key"]),
        DraftKind::Move => {
            let known = ["asset", "number", "route", "place", "from", "to", "key"];
            unknown_name(alloc, form, &known)
        }
        DraftKind::Undo => unknown_name(alloc, form, &["since", "number", "key"]),
    }
}

/// Adds all values of a parameter of a form.
fn add_values<'q>(
    alloc: Global,
    words: &mut Vec<CowStr<'q>>,
    form: &'q [u8],
    name: &str,
) -> Result<(), AllocError>
    ensures { OnOk result (map cow_str_bytes words.new.items
        ≡ map cow_str_bytes words.old.items ++ parameters name.now form.now) }
{
    for value in values_of(alloc, form, name)? {
        words.push(value)?;
    }
    Ok(())
}

/// The values of these parameters of a form: for each name, one after the other, all of them.
fn values_by<'q>(
    alloc: Global,
    form: &'q [u8],
    names: &[&str],
) -> Result<Vec<CowStr<'q>>, AllocError>
    ensures { IfOk result (λ words. map cow_str_bytes words.items
        ≡ flat_map (λ name. parameters name.now form.now) names.now) }
{
    let mut words = Vec::new(alloc);
    for name in names {
        add_values(alloc, &mut words, form, name)?;
    }
    Ok(words)
}

/// The words of a kind of draft that a form gives.
pub(crate) fn form_words<'q>(
    alloc: Global,
    kind: DraftKind,
    form: &'q [u8],
) -> Result<Vec<CowStr<'q>>, AllocError>
    ensures { IfOk result (λ words. map cow_str_bytes words.items
        ≡ spec.form_words kind form.now) }
{
    match kind {
        DraftKind::Split => values_by(alloc, form, &["route", "place", "new"]),
        DraftKind::Bypass => values_by(alloc, form, &["route", "from", "to", "pieces", "old"]),
        DraftKind::Merge => values_by(alloc, form, &["route"]),
        DraftKind::Retire => values_by(alloc, form, &["asset"]),
        DraftKind::Replace => values_by(alloc, form, &["asset", "number", "value"]),
        DraftKind::Move => {
            let names = ["asset", "number", "route", "place", "from", "to"];
            values_by(alloc, form, &names)
        }
        DraftKind::Undo => values_by(alloc, form, &["since"]),
    }
}

/// The number that a form gives beside the words.
pub(crate) fn form_number<'q>(
    alloc: Global,
    kind: DraftKind,
    form: &'q [u8],
) -> Result<Option<CowStr<'q>>, AllocError>
    ensures { IfOk result (λ number. option_map cow_str_bytes number
        ≡ spec.form_number kind form.now) }
{
    match kind {
        DraftKind::Undo => value_of(alloc, form, "number"),
        DraftKind::Split
        | DraftKind::Bypass
        | DraftKind::Merge
        | DraftKind::Retire
        | DraftKind::Replace
        | DraftKind::Move => Ok(None),
    }
}

/// Views of texts.
pub(crate) fn text_views<'w>(
    alloc: Global,
    texts: &'w [CowStr<'_>],
) -> Result<Vec<&'w str>, AllocError>
    ensures { IfOk result (λ views. map (λ view. view.now) views.items
        ≡ map cow_str_bytes texts.now) }
{
    let mut views = Vec::new(alloc);
    for text in texts {
        views.push(text.as_str())?;
    }
    Ok(views)
}
