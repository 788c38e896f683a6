//! The lines of a list: its entries are counted, and then written one by one.

ghost use Rattle.std.specs.Prelude.{◌≡◌, ◌⊎◌, ◌∷◌, [], ℕ, List, IfErr, IfOk, OnOk, Some};
ghost use Rattle.std.specs.Fmt.{decimal};
ghost use Rattle.std.specs.Io.KnownBytes.{Appends};
ghost use Rattle.lrs_sheet_questions.specs.Entries.{behind_first, entry_lines, line_count, list_lines};
ghost use Rattle.lrs_sheet_questions.specs.Lines.{fields_line, told_lines};
ghost use Rattle.lrs_sheet_questions.specs.Kinds.{entry_word, list_word};
ghost use Rattle.lrs_sheet_questions.specs.Lists.{list_kind, list_text};

use crate::counter::LineCounter;
use crate::entries::Entries;
use crate::given::Given;
use crate::kind::ListKind;
use crate::stage::Stage;
use lrs_machine::{Key, Listing};
use lrs_report_answers::{Told, write_overlay};
use lrs_report_lists::{write_history, write_lengths, write_rows};
use lrs_sheet_records::SheetFault;
use std::alloc::Global;
use std::io;
use std::io::{ErrorKind, Write};

/// Which list is told, if it is one.
pub(crate) fn kind_of(told: &Told<'_>) -> Option<ListKind>
    ensures { result ≡ list_kind told.now }
{
    match told {
        Told::Rows { .. } => Some(ListKind::Rows),
        Told::Overlay { .. } => Some(ListKind::Overlay),
        Told::Lengths(_) => Some(ListKind::Lengths),
        Told::Listing {
            listing: Listing::History(_),
            ..
        } => Some(ListKind::History),
        Told::Listing { .. }
        | Told::At { .. }
        | Told::Translated { .. }
        | Told::OnLink { .. }
        | Told::Found(_)
        | Told::Segments { .. }
        | Told::Route(_)
        | Told::Diagram(_)
        | Told::Totals(_)
        | Told::Where(_)
        | Told::Combinations { .. }
        | Told::Health(_) => None,
    }
}

/// Writes a list as it is printed, with its header.
fn write_text<W: Write>(alloc: Global, writer: &mut W, told: &Told<'_>) -> io::Result<()>
    ensures { OnOk result (Appends (W.contents writer.old) (W.contents writer.new)
        (list_text told.now)) }
{
    match told {
        Told::Rows { wanted, inventory } => write_rows(alloc, writer, inventory.kept(), wanted),
        Told::Overlay { wanted, inventory } => write_overlay(alloc, writer, inventory, wanted),
        Told::Lengths(lengths) => write_lengths(writer, lengths.as_slice()),
        Told::Listing {
            listing: Listing::History(asset),
            inventory,
        } => write_history(writer, inventory.kept(), *asset),
        Told::Listing { .. }
        | Told::At { .. }
        | Told::Translated { .. }
        | Told::OnLink { .. }
        | Told::Found(_)
        | Told::Segments { .. }
        | Told::Route(_)
        | Told::Diagram(_)
        | Told::Totals(_)
        | Told::Where(_)
        | Told::Combinations { .. }
        | Told::Health(_) => Ok(()),
    }
}

/// How many entries a list has.
fn count_entries(alloc: Global, told: &Told<'_>) -> io::Result<u64>
    ensures { IfOk result (λ count. count ≡ line_count (behind_first (list_text told.now))) }
{
    let mut counter = LineCounter::new();
    write_text(alloc, &mut counter, told)?;
    Ok(counter.behind_first())
}

/// What is given to entries that are to be passed on, from who knows what on. The entries are named for clauses alone.
fn given_to<W: Write>(_entries: &Entries<'_, W>) -> Given
    ghost story: { List ℕ }
    ensures { result.text ≡ story }
{
    Given::new()
}

/// Writes the entries of a list.
fn write_entries<W: Write>(
    alloc: Global,
    to: &mut W,
    key: Key,
    kind: ListKind,
    told: &Told<'_>,
) -> io::Result<()>
    ensures { OnOk result (Appends (W.contents to.old) (W.contents to.new)
        (entry_lines key (entry_word kind) (behind_first (list_text told.now)))) }
{
    let mut entries = Entries {
        to,
        key,
        kind,
        stage: Stage::Header,
        is_broken: true,
        given: Given::new(),
    };
    entries.given = given_to(&entries);
    entries.is_broken = false;
    write_text(alloc, &mut entries, told)?;
    let Entries { to, is_broken, .. } = entries;
    // No effect at run time. The proof reads what the writer holds from this use of it.
    let _ = &*to;
    if is_broken {
        return Err(io::Error::from(ErrorKind::BrokenPipe));
    }
    Ok(())
}

/// Writes how many entries a list has.
fn write_count<W: Write>(writer: &mut W, key: Key, kind: ListKind, count: u64) -> io::Result<()>
    ensures { OnOk result (Appends (W.contents writer.old) (W.contents writer.new)
        (fields_line (key ∷ list_word kind ∷ decimal count ∷ []))) }
{
    let word = kind.word();
    writeln!(writer, "{key},{word},{count}")
}

/// Writes how many entries a list has, and each of them.
fn write_counted<W: Write>(
    alloc: Global,
    writer: &mut W,
    key: Key,
    kind: ListKind,
    told: &Told<'_>,
    count: u64,
) -> io::Result<()>
    requires { count ≡ line_count (behind_first (list_text told.now)) }
    ensures { OnOk result (Appends (W.contents writer.old) (W.contents writer.new)
        (list_lines key (list_word kind) (entry_word kind) (list_text told.now))) }
{
    write_count(writer, key, kind, count)?;
    write_entries(alloc, writer, key, kind, told)
}

/// Writes the lines of a list of this kind. The list is made twice: its entries are counted before the first is written, and
/// none is kept.
///
/// # Errors
/// `Memory` where it runs out while they are counted, and nothing is written. `Write` if the writer fails, and also where
/// memory runs out only behind that; part of the lines may be written then.
pub(crate) fn write_list<W: Write>(
    alloc: Global,
    writer: &mut W,
    key: Key,
    kind: ListKind,
    told: &Told<'_>,
) -> Result<(), SheetFault>
    requires { list_kind told.now ≡ Some kind }
    ensures written { OnOk result (Appends (W.contents writer.old) (W.contents writer.new)
        (told_lines key told.now)) }
    ensures faults { IfErr result (λ e. (e ≡ SheetFault.Write)
        ⊎ ((e ≡ SheetFault.Memory) × (W.contents writer.new ≡ W.contents writer.old))) }
{
    let Ok(count) = count_entries(alloc, told) else {
        return Err(SheetFault::Memory);
    };
    match write_counted(alloc, writer, key, kind, told, count) {
        Ok(()) => Ok(()),
        Err(_) => Err(SheetFault::Write),
    }
}
