//! Two lists that are merged by the keys of their entries.

ghost use Rattle.std.specs.Prelude.{◌≡◌, ◌∷◌, [], true, drop, take, OnOk, slice_get, if◌then◌else◌};
ghost use Rattle.std.specs.List.{flat_map, prefix_len};
ghost use Rattle.std.specs.Io.KnownBytes.{Appends};
ghost use Rattle.std.specs.Option.{option_copied};
ghost use Rattle.lrs_measure.specs.Lists.{each_two};
ghost use Rattle.lrs_difference.specs.declared.line.Sign.TheVariants as sign;
ghost use Rattle.lrs_difference.specs.Merging.{IsByKey, first_is, lines_between};
ghost use Rattle.lrs_difference.specs.Lines.{line_text};

use crate::line::Sign;
use lrs_measure::Ordered;
use lrs_ordered::{Chunked, RowsIter};
use std::io;
use std::io::Write;
use std::marker::Model;

/// An entry of a list that is compared with another list.
pub(crate) trait Entry: Ordered {
    ghost use Rattle.std.specs.Prelude.{Bool};
    ghost use Rattle.lrs_difference.specs.declared.line.Item.{Item as ItemValue};

    ghost same: { Self → Self → Bool };

    ghost item: { Self → ItemValue };

    /// Whether both say the same.
    fn is_same(&self, other: &Self) -> bool
        ensures { result ≡ same self.now other.now };

    /// Writes its line.
    fn write<W: Write>(&self, writer: &mut W, sign: Sign) -> io::Result<()>
        ensures { OnOk result (Appends (W.contents writer.old) (W.contents writer.new)
            (line_text (record { sign = sign; item = item self.now }))) };
}

/// The entries of a list that are left, the first of them at hand.
#[derive(Drop)]
struct Rest<'a, T> {
    first: Option<&'a T>,
    others: RowsIter<'a, T>,
}

impl<'a, T> Model for Rest<'a, T> {
    ghost use Rattle.std.specs.Prelude.{List};
    ghost use Rattle.std.specs.Option.{option_map};
    ghost use Rattle.lrs_difference.specs.Merging.{with_first};

    ghost Value = { List T };

    ghost view = { λ rest. with_first (option_map (λ x. x.now) rest.first) rest.others };
}

impl<'a, T> Rest<'a, T> {
    fn new(rows: &'a Chunked<T>) -> Rest<'a, T>
        ensures { result ≡ rows.now.rows }
    {
        let mut others = rows.iter();
        let first = others.next();
        Rest { first, others }
    }

    fn first(&self) -> Option<&'a T>
        ensures { option_copied result ≡ slice_get self.now 0 }
    {
        self.first
    }

    fn pass(&mut self)
        ensures { self.new ≡ drop 1 self.old }
    {
        match self.first {
            Some(_) => self.first = self.others.next(),
            None => {}
        }
    }
}

/// Writes the entries that come before another as added, and passes them.
fn write_before<W: Write, T: Entry>(
    writer: &mut W,
    entry: &T,
    rest: &mut Rest<'_, T>,
) -> io::Result<()>
    ensures written { OnOk result (Appends (W.contents writer.old) (W.contents writer.new)
        (flat_map (λ y. line_text (record { sign = sign.Added; item = T.item y }))
        (take (prefix_len (λ y. T.before y entry.now) rest.old) rest.old))) }
    ensures rest { OnOk result
        (rest.new ≡ drop (prefix_len (λ y. T.before y entry.now) rest.old) rest.old) }
{
    while let Some(first) = rest.first() {
        if !first.is_before(entry) {
            return Ok(());
        }
        first.write(writer, Sign::Added)?;
        rest.pass();
    }
    Ok(())
}

/// Whether the first of the entries that are left says the same as another.
fn is_first_same<T: Entry>(entry: &T, rest: &Rest<'_, T>) -> bool
    ensures { result ≡ first_is (T.same entry.now) rest.now }
{
    match rest.first() {
        Some(first) => entry.is_same(first),
        None => false,
    }
}

/// Writes an entry as removed, unless the first of those that are left says the same, which is passed.
fn write_unless_same<W: Write, T: Entry>(
    writer: &mut W,
    entry: &T,
    rest: &mut Rest<'_, T>,
) -> io::Result<()>
    ensures written { OnOk result (Appends (W.contents writer.old) (W.contents writer.new)
        (if first_is (T.same entry.now) rest.old then []
        else line_text (record { sign = sign.Removed; item = T.item entry.now }))) }
    ensures rest { OnOk result (rest.new ≡
        (if first_is (T.same entry.now) rest.old then drop 1 rest.old else rest.old)) }
{
    if is_first_same(entry, rest) {
        rest.pass();
        return Ok(());
    }
    entry.write(writer, Sign::Removed)
}

/// Writes the entries that are left as added.
fn write_added<W: Write, T: Entry>(writer: &mut W, rest: &mut Rest<'_, T>) -> io::Result<()>
    ensures { OnOk result (Appends (W.contents writer.old) (W.contents writer.new)
        (flat_map (λ y. line_text (record { sign = sign.Added; item = T.item y })) rest.old)) }
{
    while let Some(first) = rest.first() {
        first.write(writer, Sign::Added)?;
        rest.pass();
    }
    Ok(())
}

/// Writes what the left list has and the right one has not as removed, and what the right one has and the left one has
/// not as added, in the order of their keys.
pub(crate) fn write_between<W: Write, T: Entry>(
    writer: &mut W,
    left: &Chunked<T>,
    right: &Chunked<T>,
) -> io::Result<()>
    requires by_key { IsByKey T.before T.same T.item }
    requires left { each_two T.before left.now.rows ≡ true }
    requires right { each_two T.before right.now.rows ≡ true }
    ensures { OnOk result (Appends (W.contents writer.old) (W.contents writer.new)
        (flat_map line_text (lines_between T.same T.item left.now.rows right.now.rows))) }
{
    let mut rest = Rest::new(right);
    for entry in left.iter() {
        write_before(writer, entry, &mut rest)?;
        write_unless_same(writer, entry, &mut rest)?;
    }
    write_added(writer, &mut rest)
}
