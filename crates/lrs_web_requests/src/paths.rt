//! Which resource a path names, and in which format.

ghost use Rattle.std.specs.Prelude.{◌≡◌, IfOk, OnOk};
ghost use Rattle.lrs_web_requests.specs.Routes.{rows, named_at, rows_of, with_all, is_answer, is_summary, is_list, is_sheet, is_draft, is_table};

use matchit::{InsertError, Router};
use std::alloc::Global;

/// What an edit sheet is drafted for.
#[derive(Clone, Copy, PartialEq, Eq)]
pub enum DraftKind {
    Split,
    Bypass,
    Merge,
    Retire,
    Replace,
    Move,
    Undo,
}

/// What can be asked for.
#[derive(Clone, Copy, PartialEq, Eq)]
pub enum Resource {
    At,
    Route,
    Segments,
    Totals,
    Translate,
    Diagram,
    Routes,
    Find,
    Log,
    Health,
    Links,
    Classes,
    Refs,
    Marks,
    Pieces,
    Rows,
    Overlay,
    Lengths,
    Gone,
    History,
    Where,
    Edits,
    Surveys,
    EditsCheck,
    SurveysCheck,
    Questions,
    Draft(DraftKind),
}

/// In which format a list is answered. It plays no part in other answers.
#[derive(Clone, Copy, PartialEq, Eq)]
pub enum Format {
    Json,
    /// The lines that the command line prints.
    Csv,
}

/// Adds the paths of answers about a place, a route or an asset.
fn add_answers(router: &mut Router<(Resource, Format)>) -> Result<(), InsertError>
    ensures { OnOk result (router.new ≡ with_all (rows_of is_answer) router.old) }
{
    router.insert("/v1/at", (Resource::At, Format::Json))?;
    router.insert("/v1/diagram", (Resource::Diagram, Format::Json))?;
    router.insert("/v1/gone", (Resource::Gone, Format::Json))?;
    router.insert("/v1/history", (Resource::History, Format::Json))?;
    router.insert("/v1/segments", (Resource::Segments, Format::Json))?;
    router.insert("/v1/translate", (Resource::Translate, Format::Json))?;
    router.insert("/v1/where", (Resource::Where, Format::Json))?;
    Ok(())
}

/// Adds the paths of answers about the whole inventory.
fn add_summaries(router: &mut Router<(Resource, Format)>) -> Result<(), InsertError>
    ensures { OnOk result (router.new ≡ with_all (rows_of is_summary) router.old) }
{
    router.insert("/health", (Resource::Health, Format::Json))?;
    router.insert("/v1/lengths", (Resource::Lengths, Format::Json))?;
    router.insert("/v1/log", (Resource::Log, Format::Json))?;
    router.insert("/v1/totals", (Resource::Totals, Format::Json))?;
    Ok(())
}

/// Adds the paths of lists, and of one route.
fn add_lists(router: &mut Router<(Resource, Format)>) -> Result<(), InsertError>
    ensures { OnOk result (router.new ≡ with_all (rows_of is_list) router.old) }
{
    router.insert("/v1/classes", (Resource::Classes, Format::Json))?;
    router.insert("/v1/find", (Resource::Find, Format::Json))?;
    router.insert("/v1/links", (Resource::Links, Format::Json))?;
    router.insert("/v1/marks", (Resource::Marks, Format::Json))?;
    router.insert("/v1/overlay", (Resource::Overlay, Format::Json))?;
    router.insert("/v1/pieces", (Resource::Pieces, Format::Json))?;
    router.insert("/v1/refs", (Resource::Refs, Format::Json))?;
    router.insert("/v1/route/{name}", (Resource::Route, Format::Json))?;
    router.insert("/v1/routes", (Resource::Routes, Format::Json))?;
    router.insert("/v1/rows", (Resource::Rows, Format::Json))?;
    Ok(())
}

/// Adds the paths that take sheets.
fn add_sheets(router: &mut Router<(Resource, Format)>) -> Result<(), InsertError>
    ensures { OnOk result (router.new ≡ with_all (rows_of is_sheet) router.old) }
{
    router.insert("/v1/edits/check", (Resource::EditsCheck, Format::Json))?;
    router.insert("/v1/edits", (Resource::Edits, Format::Json))?;
    router.insert("/v1/questions", (Resource::Questions, Format::Json))?;
    router.insert("/v1/surveys/check", (Resource::SurveysCheck, Format::Json))?;
    router.insert("/v1/surveys", (Resource::Surveys, Format::Json))?;
    Ok(())
}

/// Adds the paths that draft sheets.
fn add_drafts(router: &mut Router<(Resource, Format)>) -> Result<(), InsertError>
    ensures { OnOk result (router.new ≡ with_all (rows_of is_draft) router.old) }
{
    router.insert(
        "/v1/draft/bypass",
        (Resource::Draft(DraftKind::Bypass), Format::Json),
    )?;
    router.insert(
        "/v1/draft/merge",
        (Resource::Draft(DraftKind::Merge), Format::Json),
    )?;
    router.insert(
        "/v1/draft/move",
        (Resource::Draft(DraftKind::Move), Format::Json),
    )?;
    router.insert(
        "/v1/draft/replace",
        (Resource::Draft(DraftKind::Replace), Format::Json),
    )?;
    router.insert(
        "/v1/draft/retire",
        (Resource::Draft(DraftKind::Retire), Format::Json),
    )?;
    router.insert(
        "/v1/draft/split",
        (Resource::Draft(DraftKind::Split), Format::Json),
    )?;
    router.insert(
        "/v1/draft/undo",
        (Resource::Draft(DraftKind::Undo), Format::Json),
    )?;
    Ok(())
}

/// Adds the paths of lists as CSV.
fn add_tables(router: &mut Router<(Resource, Format)>) -> Result<(), InsertError>
    ensures { OnOk result (router.new ≡ with_all (rows_of is_table) router.old) }
{
    router.insert("/v1/classes.csv", (Resource::Classes, Format::Csv))?;
    router.insert("/v1/gone.csv", (Resource::Gone, Format::Csv))?;
    router.insert("/v1/history.csv", (Resource::History, Format::Csv))?;
    router.insert("/v1/lengths.csv", (Resource::Lengths, Format::Csv))?;
    router.insert("/v1/links.csv", (Resource::Links, Format::Csv))?;
    router.insert("/v1/marks.csv", (Resource::Marks, Format::Csv))?;
    router.insert("/v1/overlay.csv", (Resource::Overlay, Format::Csv))?;
    router.insert("/v1/pieces.csv", (Resource::Pieces, Format::Csv))?;
    router.insert("/v1/refs.csv", (Resource::Refs, Format::Csv))?;
    router.insert("/v1/routes.csv", (Resource::Routes, Format::Csv))?;
    router.insert("/v1/rows.csv", (Resource::Rows, Format::Csv))?;
    Ok(())
}

/// A router of all the paths.
pub fn routes(alloc: Global) -> Result<Router<(Resource, Format)>, InsertError>
    ensures { IfOk result (λ router. router ≡ rows) }
{
    let mut router = Router::new(alloc);
    add_answers(&mut router)?;
    add_summaries(&mut router)?;
    add_lists(&mut router)?;
    add_sheets(&mut router)?;
    add_drafts(&mut router)?;
    add_tables(&mut router)?;
    Ok(router)
}

/// The resource that a path names, and the format.
pub fn find(router: &Router<(Resource, Format)>, path: &str) -> Option<(Resource, Format)>
    requires { router.now ≡ rows }
    ensures { result ≡ named_at path.now }
{
    match router.at(path) {
        Ok(found) => Some(*found.value),
        Err(_) => None,
    }
}
