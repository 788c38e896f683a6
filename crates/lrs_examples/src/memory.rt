//! Each call that can answer lack of memory, where one of its growths is refused: it says so, the spans are as they
//! were, and the same call with memory does its work.
//!
//! With ample memory nothing here is refused. `tests/refused_growths_test.py` runs these tests with one
//! allocation refused, each in turn, and reads which calls they print.

ghost use Rattle.std.specs.Prelude.{IsTrue};
ghost use Rattle.lrs_events.specs.Spans.{are_rows};

use crate::calls;
use lrs_events::{ClassName, Side, Span, Spans};
use std::alloc::{AllocError, AllocGlobal, Global};
use std::process::Abort;

/// The class with this name.
fn class(rt: &impl Abort, name: &[u8]) -> ClassName {
    ClassName::new(name).expect(rt, "a name of a class")
}

/// A row of a sign.
fn row(rt: &impl Abort, asset: u64, from: u64, to: u64) -> Span {
    Span {
        asset,
        class: class(rt, b"SIGN"),
        from,
        to,
        side: Side::B,
    }
}

/// The rows of a route.
fn rows(rt: &impl Abort) -> [Span; 3] {
    [row(rt, 3, 0, 4), row(rt, 3, 6, 20), row(rt, 7, 2, 9)]
}

/// Says which call was refused a growth.
fn refused(rt: &impl Print, call: &str) {
    let _ = println!(rt; "refused: {call}");
}

/// Adds a row, once more where that was refused.
fn add(rt: &(impl Abort + Print + AllocGlobal), spans: &mut Spans, row: &Span) {
    if calls::add(spans, rt.alloc(), row).is_err() {
        refused(rt, "Spans::add");
        let added = calls::add(spans, rt.alloc(), row).expect(rt, "memory");
        assert!(rt; added);
    }
}

/// The spans of the route.
fn route(rt: &(impl Abort + Print + AllocGlobal)) -> Spans {
    let mut spans = Spans::empty(rt.alloc());
    let rows = rows(rt);
    for row in &rows {
        add(rt, &mut spans, row);
    }
    spans
}

/// The spans are those of the route.
fn are_the_rows(rt: &impl Abort, spans: &Spans) {
    assert!(rt; spans.rows() == rows(rt).as_slice());
}

/// A list of the rows, asked for once more where that was refused.
fn list_of(rt: &(impl Abort + AllocGlobal), spans: &Spans) -> Vec<Span>
    ensures { IsTrue (are_rows result.items) }
{
    match Vec::from_slice(rt.alloc(), spans.rows()) {
        Ok(list) => list,
        Err(_) => Vec::from_slice(rt.alloc(), spans.rows()).expect(rt, "memory"),
    }
}

/// The calls. One that answers other spans leaves them in the place of the first.
#[derive(Clone, Copy)]
enum MemoryCall {
    Add,
    RemoveWithin,
    RemoveNothing,
    RemoveAssetWithin,
    RemoveClassPlaces,
    Cut,
    Concat,
    Turned,
    Copy,
    OfRows,
    At,
    Met,
}

fn fill_gap(rt: &impl Abort, alloc: Global, spans: &mut Spans) -> Result<usize, AllocError> {
    let added = calls::add(spans, alloc, &row(rt, 3, 4, 6))?;
    Ok(usize::from(added))
}

fn clear(spans: &mut Spans, alloc: Global) -> Result<usize, AllocError> {
    let removal = spans.remove_within(alloc, 3, 8)?;
    Ok(removal.left.len())
}

/// An empty stretch has nothing to take away.
fn clear_nothing(spans: &mut Spans, alloc: Global) -> Result<usize, AllocError> {
    let removal = spans.remove_within(alloc, 8, 8)?;
    Ok(removal.left.len())
}

fn clear_asset(rt: &impl Abort, alloc: Global, spans: &mut Spans) -> Result<usize, AllocError> {
    spans.remove_asset_within(alloc, class(rt, b"SIGN"), 3, 1, 8)?;
    Ok(1)
}

fn clear_side(rt: &impl Abort, alloc: Global, spans: &mut Spans) -> Result<usize, AllocError> {
    spans.remove_class_places(alloc, class(rt, b"SIGN"), 1, 8, Side::L)?;
    Ok(1)
}

fn cut(spans: &mut Spans, alloc: Global) -> Result<usize, AllocError> {
    let (rear, _) = spans.cut(alloc, 7)?;
    Ok(rear.rows().len())
}

fn concat(
    rt: &(impl Abort + Print + AllocGlobal),
    alloc: Global,
    spans: &mut Spans,
) -> Result<usize, AllocError> {
    let other = route(rt);
    let joined = calls::concat(spans, alloc, &other, 20)?;
    Ok(usize::from(joined))
}

fn turn(spans: &mut Spans, alloc: Global) -> Result<usize, AllocError> {
    match calls::turned(spans, alloc, 20)? {
        Some(turned) => Ok(turned.rows().len()),
        None => Ok(0),
    }
}

fn take_copy(spans: &mut Spans, alloc: Global) -> Result<usize, AllocError> {
    *spans = spans.copy(alloc)?;
    Ok(1)
}

fn make_again(
    rt: &(impl Abort + AllocGlobal),
    alloc: Global,
    spans: &mut Spans,
) -> Result<usize, AllocError> {
    let list = list_of(rt, spans);
    *spans = Spans::of_rows(alloc, list)?;
    Ok(1)
}

fn find_at(spans: &mut Spans, alloc: Global) -> Result<usize, AllocError> {
    let found = spans.at(alloc, 3)?;
    Ok(found.len())
}

fn find_met(spans: &mut Spans, alloc: Global) -> Result<usize, AllocError> {
    let found = spans.met(alloc, 3, 7)?;
    Ok(found.len())
}

/// Does the call, and answers how many rows it found or whether it did its work.
fn done(
    rt: &(impl Abort + Print + AllocGlobal),
    spans: &mut Spans,
    call: MemoryCall,
) -> Result<usize, AllocError> {
    let alloc = rt.alloc();
    match call {
        MemoryCall::Add => fill_gap(rt, alloc, spans),
        MemoryCall::RemoveWithin => clear(spans, alloc),
        MemoryCall::RemoveNothing => clear_nothing(spans, alloc),
        MemoryCall::RemoveAssetWithin => clear_asset(rt, alloc, spans),
        MemoryCall::RemoveClassPlaces => clear_side(rt, alloc, spans),
        MemoryCall::Cut => cut(spans, alloc),
        MemoryCall::Concat => concat(rt, alloc, spans),
        MemoryCall::Turned => turn(spans, alloc),
        MemoryCall::Copy => take_copy(spans, alloc),
        MemoryCall::OfRows => make_again(rt, alloc, spans),
        MemoryCall::At => find_at(spans, alloc),
        MemoryCall::Met => find_met(spans, alloc),
    }
}

/// Does the call on the route, once more where that was refused: the spans are then as they were.
fn tried(
    rt: &(impl Abort + Print + AllocGlobal),
    spans: &mut Spans,
    call: MemoryCall,
    name: &str,
) -> usize {
    are_the_rows(rt, spans);
    match done(rt, spans, call) {
        Ok(found) => found,
        Err(_) => {
            refused(rt, name);
            are_the_rows(rt, spans);
            done(rt, spans, call).expect(rt, "memory")
        }
    }
}

/// The call's count is this.
fn is_count(rt: &impl Abort, name: &str, found: usize, expected: usize) {
    assert_eq!(rt; found, expected, "{name}");
}

/// The call leaves so many rows, and its answer is this.
fn leaves(
    rt: &(impl Abort + Print + AllocGlobal),
    call: MemoryCall,
    name: &str,
    rows: usize,
    answer: usize,
) {
    let mut spans = route(rt);
    let found = tried(rt, &mut spans, call, name);
    is_count(rt, name, spans.rows().len(), rows);
    is_count(rt, name, found, answer);
}

/// The call leaves spans of the same rows.
fn leaves_the_rows(rt: &(impl Abort + Print + AllocGlobal), call: MemoryCall, name: &str) {
    let mut spans = route(rt);
    let _ = tried(rt, &mut spans, call, name);
    are_the_rows(rt, &spans);
}

fn spans_are_changed(rt: &(impl Abort + Print + AllocGlobal)) {
    leaves(rt, MemoryCall::Add, "Spans::add", 2, 1);
    leaves(rt, MemoryCall::RemoveWithin, "Spans::remove_within", 4, 3);
    leaves(rt, MemoryCall::RemoveNothing, "Spans::remove_within", 3, 0);
    leaves(
        rt,
        MemoryCall::RemoveAssetWithin,
        "Spans::remove_asset_within",
        3,
        1,
    );
    leaves(
        rt,
        MemoryCall::RemoveClassPlaces,
        "Spans::remove_class_places",
        6,
        1,
    );
}

fn routes_are_cut_and_joined(rt: &(impl Abort + Print + AllocGlobal)) {
    leaves(rt, MemoryCall::Cut, "Spans::cut", 3, 2);
    leaves(rt, MemoryCall::Concat, "Spans::concat", 5, 1);
    leaves(rt, MemoryCall::Turned, "Spans::turned", 3, 3);
}

fn spans_are_made_of_others(rt: &(impl Abort + Print + AllocGlobal)) {
    leaves_the_rows(rt, MemoryCall::Copy, "Spans::copy");
    leaves_the_rows(rt, MemoryCall::OfRows, "Spans::of_rows");
}

fn rows_are_found(rt: &(impl Abort + Print + AllocGlobal)) {
    leaves(rt, MemoryCall::At, "Spans::at", 3, 2);
    leaves(rt, MemoryCall::Met, "Spans::met", 3, 3);
}

/// Who is found over a stretch: nobody over one without a millimetre.
fn stretches_are_asked(rt: &(impl Abort + Print + AllocGlobal)) {
    let spans = route(rt);
    let sign = class(rt, b"SIGN");
    assert!(rt; spans.over(8, 8, sign, Side::B).is_none());
    assert!(rt; spans.over(8, 9, sign, Side::B) == Some(3));
}

#[test]
fn each_call_bears_a_refused_growth(rt: HostRuntime) {
    spans_are_changed(&rt);
    routes_are_cut_and_joined(&rt);
    spans_are_made_of_others(&rt);
    rows_are_found(&rt);
    stretches_are_asked(&rt);
}
