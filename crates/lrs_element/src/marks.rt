//! Marks: the measure line of a route.

ghost use Rattle.std.specs.Prelude.{◌≡◌, ℕ, ◌+◌, ◌-◌, ◌^◌, ◌≤◌, ◌<◌, ◌↔◌, ◌++◌, ◌||◌, ◌&&◌, not, nat_lt, nat_eq, None, false, reverse, map, drop, length, IsTrue, IsOk, IfOk, IfErr, OnOk, OnErr};
ghost use Rattle.lrs_measure.specs.Limits.{greatest_measure, most_marks};
ghost use Rattle.lrs_element.specs.Lines.{moved_on};
ghost use Rattle.lrs_element.specs.Marks.{is_out_of_order, first_bad_mark, bad_mark, are_marks, is_inner_mark, first_mark, last_mark, marks_to, marks_from, joined_marks, mirrored, is_out_of_range};

use lrs_measure::limits::{GREATEST_MEASURE, MOST_MARKS};
use std::alloc::{AllocError, Global};
use std::marker::Model;

/// A measure at a chainage, which is in millimetres from the start of a route.
#[derive(Clone, Copy, PartialEq, Eq)]
pub struct Mark {
    pub chainage: u64,
    pub measure: u64,
}

/// The first mark that breaks a rule: 0 for fewer than two marks, 1,000 for more than that.
#[derive(Clone, Copy, PartialEq, Eq)]
pub struct MarkFault(pub usize);

/// Whether a mark is not above the one before it in both, or where it is the first, not at chainage 0.
fn is_out_of_order(before: Option<Mark>, mark: Mark) -> bool
    ensures { result ≡ is_out_of_order before mark }
{
    match before {
        None => mark.chainage != 0,
        Some(before) => !(before.chainage < mark.chainage && before.measure < mark.measure),
    }
}

/// Whether a mark breaks a rule, for a course of this length.
fn is_bad(before: Option<Mark>, mark: Mark, is_last: bool, len: u64) -> bool
    ensures { result ≡ (is_out_of_order before mark || nat_lt greatest_measure mark.measure
        || (is_last && not (nat_eq mark.chainage len))) }
{
    is_out_of_order(before, mark)
        || mark.measure > GREATEST_MEASURE
        || (is_last && mark.chainage != len)
}

/// The first mark that breaks a rule, for a course of this length.
fn first_bad_mark(marks: &[Mark], len: u64) -> Option<usize>
    ensures { result ≡ first_bad_mark len None marks.now }
{
    let mut before = None;
    for (i, mark) in marks.iter().enumerate() {
        if is_bad(before, *mark, i + 1 == marks.len(), len) {
            return Some(i);
        }
        before = Some(*mark);
    }
    None
}

/// What is wrong with a list of marks for a course of this length, its count first.
fn bad_mark(marks: &[Mark], len: u64) -> Option<usize>
    ensures { result ≡ bad_mark len marks.now }
{
    if marks.len() < 2 {
        Some(0)
    } else if marks.len() > MOST_MARKS {
        Some(MOST_MARKS)
    } else {
        first_bad_mark(marks, len)
    }
}

/// The last mark.
pub(crate) fn last_mark(marks: &[Mark]) -> Mark
    requires { 0 < length marks.now }
    ensures { result ≡ last_mark marks.now }
{
    marks[marks.len() - 1]
}

/// The marks up to the one at a chainage.
fn marks_to(alloc: Global, marks: &[Mark], at: u64) -> Result<Vec<Mark>, AllocError>
    ensures { IfOk result (λ out. out.items ≡ marks_to at marks.now) }
{
    let mut out = Vec::new(alloc);
    for mark in marks {
        if mark.chainage <= at {
            out.push(*mark)?;
        }
    }
    Ok(out)
}

/// The marks from the one at a chainage on, their chainages counted from there.
fn marks_from(alloc: Global, marks: &[Mark], at: u64) -> Result<Vec<Mark>, AllocError>
    ensures { IfOk result (λ out. out.items ≡ marks_from at marks.now) }
{
    let mut out = Vec::new(alloc);
    for mark in marks {
        if at <= mark.chainage {
            out.push(Mark {
                chainage: mark.chainage - at,
                measure: mark.measure,
            })?;
        }
    }
    Ok(out)
}

/// 2 to 1,000 marks that rise strictly in chainage and in measure, the first at chainage 0
/// (ISO 19148, absolute linear referencing method). Between neighbours the measure is linear.
#[derive(Drop)]
pub struct Marks {
    list: Vec<Mark>,
}

impl Model for Marks {
    ghost use Rattle.std.specs.Prelude.{List, IsTrue};
    ghost use Rattle.lrs_element.specs.declared.marks.Mark.{Mark};

    ghost Value = { List Mark };

    ghost use Rattle.lrs_element.specs.Lines.{moved_on};
    ghost use Rattle.lrs_element.specs.Marks.{are_marks};

    ghost view = { λ marks. marks.list.items };

    ghost invariant = { λ marks. IsTrue (are_marks marks.list.items) };
}

impl Marks {
    /// The marks of a course of this length.
    ///
    /// # Errors
    /// The first mark that breaks a rule.
    pub fn new(list: Vec<Mark>, len: u64) -> Result<Marks, MarkFault>
        ensures ok { IsOk result ↔ (bad_mark len list.items ≡ None) }
        ensures marks { IfOk result (λ marks. marks ≡ list.items) }
        ensures fault { IfErr result (λ fault. bad_mark len list.items ≡ Some fault.0) }
    {
        match bad_mark(&list, len) {
            Some(i) => Err(MarkFault(i)),
            None => Ok(Marks { list }),
        }
    }

    /// The marks in their order.
    pub fn list(&self) -> &[Mark]
        ensures list { result.now ≡ self.now }
        ensures marks { IsTrue (are_marks self.now) }
    {
        self.list.as_slice()
    }

    /// Equal marks.
    ///
    /// # Errors
    /// When memory runs out.
    pub fn copy(&self) -> Result<Marks, AllocError>
        ensures { IfOk result (λ marks. marks ≡ self.now) }
    {
        let list = Vec::from_slice(*self.list.allocator(), &self.list)?;
        Ok(Marks { list })
    }

    /// The marks up to the one at chainage `at`, and those from it on, counted from there.
    ///
    /// # Errors
    /// When memory runs out.
    pub fn cut(&self, at: u64) -> Result<(Marks, Marks), AllocError>
        requires { IsTrue (is_inner_mark self.now at) }
        ensures before { IfOk result (λ parts. parts.0 ≡ marks_to at self.now) }
        ensures after { IfOk result (λ parts. parts.1 ≡ marks_from at self.now) }
    {
        let alloc = *self.list.allocator();
        let before = Marks {
            list: marks_to(alloc, &self.list, at)?,
        };
        let after = Marks {
            list: marks_from(alloc, &self.list, at)?,
        };
        Ok((before, after))
    }

    /// Whether a join with other marks would take a measure past the greatest one.
    pub fn joins_out_of_range(&self, other: &Marks) -> bool
        ensures { result ≡ is_out_of_range (joined_marks self.now other.now) }
    {
        goes_out_of_range(&self.list, &other.list)
    }

    /// Goes on with other marks where these end: their measures move by as much as that asks.
    ///
    /// # Errors
    /// When memory runs out; the marks are then as they were.
    pub fn join(&mut self, other: &Marks) -> Result<(), AllocError>
        requires few { length (joined_marks self.old other.now) ≤ most_marks }
        requires measures { is_out_of_range (joined_marks self.old other.now) ≡ false }
        requires length { (last_mark self.old).chainage + (last_mark other.now).chainage < 2 ^ 64 }
        ensures ok { OnOk result (self.new ≡ joined_marks self.old other.now) }
        ensures err { OnErr result (self.new ≡ self.old) }
    {
        let list = joined_marks(*self.list.allocator(), &self.list, &other.list)?;
        *self = Marks { list };
        Ok(())
    }

    /// The marks seen from the other end.
    ///
    /// # Errors
    /// When memory runs out.
    pub fn mirrored(&self) -> Result<Marks, AllocError>
        ensures { IfOk result (λ marks. marks ≡ mirrored self.now) }
    {
        let list = mirrored_marks(*self.list.allocator(), &self.list)?;
        Ok(Marks { list })
    }
}

/// Whether a second line goes on past the greatest measure where it follows the first: its last mark tells.
fn goes_out_of_range(first: &[Mark], second: &[Mark]) -> bool
    requires first { IsTrue (are_marks first.now) }
    requires second { IsTrue (are_marks second.now) }
    ensures { result ≡ is_out_of_range (joined_marks first.now second.now) }
{
    let last = last_mark(second);
    let rise = last.measure - second[0].measure;
    last_mark(first).measure + rise > GREATEST_MEASURE
}

/// A mark of a second line that continues where the first line ends.
fn moved(mark: Mark, end: Mark, start: Mark) -> Mark
    requires chainage { mark.chainage + end.chainage < 2 ^ 64 }
    requires measure { mark.measure + end.measure < 2 ^ 64 }
    requires rises { start.measure ≤ mark.measure + end.measure }
    ensures { result ≡ moved_on end start mark }
{
    Mark {
        chainage: mark.chainage + end.chainage,
        measure: mark.measure + end.measure - start.measure,
    }
}

/// The marks of one line, and behind them those of the other but its first, moved on.
fn joined_marks(alloc: Global, first: &[Mark], second: &[Mark]) -> Result<Vec<Mark>, AllocError>
    requires first { IsTrue (are_marks first.now) }
    requires second { IsTrue (are_marks second.now) }
    requires length { (last_mark first.now).chainage + (last_mark second.now).chainage < 2 ^ 64 }
    ensures { IfOk result (λ out. out.items ≡ joined_marks first.now second.now) }
{
    let end = last_mark(first);
    let start = second[0];
    let mut out = Vec::from_slice(alloc, first)?;
    for i in 1..second.len() {
        out.push(moved(second[i], end, start))?;
    }
    Ok(out)
}

/// The marks seen from the other end.
fn mirrored_marks(alloc: Global, marks: &[Mark]) -> Result<Vec<Mark>, AllocError>
    requires { IsTrue (are_marks marks.now) }
    ensures { IfOk result (λ out. out.items ≡ mirrored marks.now) }
{
    let end = last_mark(marks);
    let ends = marks[0].measure + end.measure;
    let mut out = Vec::new(alloc);
    for i in (0..marks.len()).rev() {
        let mark = marks[i];
        out.push(Mark {
            chainage: end.chainage - mark.chainage,
            measure: ends - mark.measure,
        })?;
    }
    Ok(out)
}
