//! Entries are put eight at a time, table by table.

ghost use Rattle.std.specs.Prelude.{◌≡◌, ◌+◌, ◌<◌, ◌^◌, length, OnOk, IsTrue};
ghost use Rattle.std.specs.List.{AllByRecursion, flat_map};
ghost use Rattle.sqlite.specs.State.{HasCleanDisk};
ghost use Rattle.sqlite.specs.Held.{state};
ghost use Rattle.lrs_store_tables.specs.Contents.Encoders.{edit_row};
ghost use Rattle.lrs_store_tables.specs.StoredRows.{IsWriting, Makes, Changes};
ghost use Rattle.lrs_store_tables.specs.Cells.{asset_cells, origin_cells, span_cells, entered_cells, edit_cells};
ghost use Rattle.lrs_store_commit.specs.NewAssets.{IsNewAsset, HasTwoParts, asset_rows, origin_rows, span_rows, first_rows, other_rows, with_assets_of, with_origins_of, with_spans_of, with_firsts_of, with_others_of, with_parts_of, with_edits_of, with_new_assets};

use crate::cells::{fill_asset, fill_edit, fill_origin, fill_part, fill_span};
use crate::eight_rows::{Filled, fill_eight};
use crate::insert_lists::Ledger;
use crate::lists::write_all;
use crate::new_assets::have_two_parts;
use lrs_image::Change;
use sqlite::types::ValueRef;
use sqlite::{Alter, Error, Transaction};

/// The asset that a change enters.
#[derive(Clone, Copy)]
struct Assets;

impl Filled<Assets> for Change {
    ghost has = { λ of c. IsNewAsset c };

    ghost columns = { 4 };

    ghost values = { λ of n c. flat_map asset_cells (asset_rows c) };

    fn fill<'a>(
        &'a self,
        _of: &'a Assets,
        _n: u64,
        cells: &mut [ValueRef<'a>],
    ) -> Result<(), Error> {
        match &self.difference.asset {
            Some(asset) => fill_asset(asset, cells),
            None => unreachable!(),
        }
    }
}

/// Which edit entered it.
#[derive(Clone, Copy)]
struct Origins;

impl Filled<Origins> for Change {
    ghost has = { λ of c. IsNewAsset c };

    ghost columns = { 2 };

    ghost values = { λ of n c. flat_map origin_cells (origin_rows c) };

    fn fill<'a>(
        &'a self,
        _of: &'a Origins,
        _n: u64,
        cells: &mut [ValueRef<'a>],
    ) -> Result<(), Error> {
        match &self.difference.asset {
            Some(asset) => fill_origin(asset, cells),
            None => unreachable!(),
        }
    }
}

/// Its span.
#[derive(Clone, Copy)]
struct Spans;

impl Filled<Spans> for Change {
    ghost has = { λ of c. IsNewAsset c };

    ghost columns = { 5 };

    ghost values = { λ of n c. flat_map span_cells (span_rows c) };

    fn fill<'a>(
        &'a self,
        _of: &'a Spans,
        _n: u64,
        cells: &mut [ValueRef<'a>],
    ) -> Result<(), Error> {
        match &self.difference.changed {
            Some(changed) => fill_span(&changed.route, &changed.spans_come.as_slice()[0], cells),
            None => unreachable!(),
        }
    }
}

/// The first part that it enters.
#[derive(Clone, Copy)]
struct FirstParts;

impl Filled<FirstParts> for Change {
    ghost has = { λ of c. IsNewAsset c };

    ghost columns = { 6 };

    ghost values = { λ of n c. flat_map entered_cells (first_rows c) };

    fn fill<'a>(
        &'a self,
        _of: &'a FirstParts,
        _n: u64,
        cells: &mut [ValueRef<'a>],
    ) -> Result<(), Error> {
        fill_part(&self.difference.entered.as_slice()[0], cells)
    }
}

/// The second, where there are two.
#[derive(Clone, Copy)]
struct SecondParts;

impl Filled<SecondParts> for Change {
    ghost has = { λ of c. HasTwoParts c };

    ghost columns = { 6 };

    ghost values = { λ of n c. flat_map entered_cells (other_rows c) };

    fn fill<'a>(
        &'a self,
        _of: &'a SecondParts,
        _n: u64,
        cells: &mut [ValueRef<'a>],
    ) -> Result<(), Error> {
        fill_part(&self.difference.entered.as_slice()[1], cells)
    }
}

/// Its edit.
#[derive(Clone, Copy)]
struct Edits;

impl Filled<Edits> for Change {
    ghost has = { λ of c. IsNewAsset c };

    ghost columns = { 3 };

    ghost values = { λ of n c. edit_cells (edit_row n c.edit) };

    fn fill<'a>(&'a self, _of: &'a Edits, n: u64, cells: &mut [ValueRef<'a>]) -> Result<(), Error> {
        fill_edit(n, &self.edit, cells)
    }
}

/// Puts the rows of the assets of eight entries.
fn put_assets<S: Alter>(tx: &mut Transaction<'_, S>, entries: &[Change]) -> Result<(), Error>
    requires eight { length entries.now ≡ 8 }
    requires there { AllByRecursion IsNewAsset entries.now }
    ensures { Changes S.Store (Makes (with_assets_of entries.now)) tx.old tx.new result }
{
    let mut cells = [ValueRef::Null; 32];
    fill_eight(&Assets, 0, entries, &mut cells)?;
    tx.execute(
        "INSERT INTO asset VALUES (?1, ?2, ?3, ?4), (?5, ?6, ?7, ?8), (?9, ?10, ?11, ?12), (?13, ?14, ?15, ?16), (?17, ?18, ?19, ?20), (?21, ?22, ?23, ?24), (?25, ?26, ?27, ?28), (?29, ?30, ?31, ?32)",
        &cells,
    )?;
    Ok(())
}

/// Puts the rows that tell which edits entered them.
fn put_origins<S: Alter>(tx: &mut Transaction<'_, S>, entries: &[Change]) -> Result<(), Error>
    requires eight { length entries.now ≡ 8 }
    requires there { AllByRecursion IsNewAsset entries.now }
    ensures { Changes S.Store (Makes (with_origins_of entries.now)) tx.old tx.new result }
{
    let mut cells = [ValueRef::Null; 16];
    fill_eight(&Origins, 0, entries, &mut cells)?;
    tx.execute(
        "INSERT INTO origin VALUES (?1, ?2), (?3, ?4), (?5, ?6), (?7, ?8), (?9, ?10), (?11, ?12), (?13, ?14), (?15, ?16)",
        &cells,
    )?;
    Ok(())
}

/// Puts the rows of their spans.
fn put_spans<S: Alter>(tx: &mut Transaction<'_, S>, entries: &[Change]) -> Result<(), Error>
    requires eight { length entries.now ≡ 8 }
    requires there { AllByRecursion IsNewAsset entries.now }
    ensures { Changes S.Store (Makes (with_spans_of entries.now)) tx.old tx.new result }
{
    let mut cells = [ValueRef::Null; 40];
    fill_eight(&Spans, 0, entries, &mut cells)?;
    tx.execute(
        "INSERT INTO span VALUES (?1, ?2, ?3, ?4, ?5), (?6, ?7, ?8, ?9, ?10), (?11, ?12, ?13, ?14, ?15), (?16, ?17, ?18, ?19, ?20), (?21, ?22, ?23, ?24, ?25), (?26, ?27, ?28, ?29, ?30), (?31, ?32, ?33, ?34, ?35), (?36, ?37, ?38, ?39, ?40)",
        &cells,
    )?;
    Ok(())
}

/// Puts the rows of the first parts of eight entries.
fn put_first_parts<S: Alter>(tx: &mut Transaction<'_, S>, entries: &[Change]) -> Result<(), Error>
    requires eight { length entries.now ≡ 8 }
    requires there { AllByRecursion IsNewAsset entries.now }
    ensures { Changes S.Store (Makes (with_firsts_of entries.now)) tx.old tx.new result }
{
    let mut cells = [ValueRef::Null; 48];
    fill_eight(&FirstParts, 0, entries, &mut cells)?;
    tx.execute(
        "INSERT INTO entered VALUES (?1, ?2, ?3, ?4, ?5, ?6), (?7, ?8, ?9, ?10, ?11, ?12), (?13, ?14, ?15, ?16, ?17, ?18), (?19, ?20, ?21, ?22, ?23, ?24), (?25, ?26, ?27, ?28, ?29, ?30), (?31, ?32, ?33, ?34, ?35, ?36), (?37, ?38, ?39, ?40, ?41, ?42), (?43, ?44, ?45, ?46, ?47, ?48)",
        &cells,
    )?;
    Ok(())
}

/// Puts the rows of the second parts of eight entries that have two.
fn put_second_parts<S: Alter>(tx: &mut Transaction<'_, S>, entries: &[Change]) -> Result<(), Error>
    requires eight { length entries.now ≡ 8 }
    requires there { AllByRecursion HasTwoParts entries.now }
    ensures { Changes S.Store (Makes (with_others_of entries.now)) tx.old tx.new result }
{
    let mut cells = [ValueRef::Null; 48];
    fill_eight(&SecondParts, 0, entries, &mut cells)?;
    tx.execute(
        "INSERT INTO entered VALUES (?1, ?2, ?3, ?4, ?5, ?6), (?7, ?8, ?9, ?10, ?11, ?12), (?13, ?14, ?15, ?16, ?17, ?18), (?19, ?20, ?21, ?22, ?23, ?24), (?25, ?26, ?27, ?28, ?29, ?30), (?31, ?32, ?33, ?34, ?35, ?36), (?37, ?38, ?39, ?40, ?41, ?42), (?43, ?44, ?45, ?46, ?47, ?48)",
        &cells,
    )?;
    Ok(())
}

/// Puts the rows of the other parts of entries, in turn.
fn put_others_in_turn<S: Alter>(
    tx: &mut Transaction<'_, S>,
    entries: &[Change],
) -> Result<(), Error>
    requires there { AllByRecursion IsNewAsset entries.now }
    ensures { Changes S.Store (Makes (with_others_of entries.now)) tx.old tx.new result }
{
    for i in 0..entries.len() {
        let parts = entries[i].difference.entered.as_slice();
        write_all(tx, &Ledger, &parts[1..])?;
    }
    Ok(())
}

/// Puts the rows of the parts of eight entries after the first: by one statement, if each has two parts.
fn put_other_parts<S: Alter>(tx: &mut Transaction<'_, S>, entries: &[Change]) -> Result<(), Error>
    requires eight { length entries.now ≡ 8 }
    requires there { AllByRecursion IsNewAsset entries.now }
    ensures { Changes S.Store (Makes (with_others_of entries.now)) tx.old tx.new result }
{
    if have_two_parts(entries) {
        put_second_parts(tx, entries)
    } else {
        put_others_in_turn(tx, entries)
    }
}

/// Puts the rows of the parts of eight entries.
fn put_parts<S: Alter>(tx: &mut Transaction<'_, S>, entries: &[Change]) -> Result<(), Error>
    requires eight { length entries.now ≡ 8 }
    requires there { AllByRecursion IsNewAsset entries.now }
    ensures { Changes S.Store (Makes (with_parts_of entries.now)) tx.old tx.new result }
{
    put_first_parts(tx, entries)?;
    put_other_parts(tx, entries)?;
    Ok(())
}

/// Puts the rows of the edits of eight entries. The first has this number, each next one more.
fn put_edits<S: Alter>(tx: &mut Transaction<'_, S>, n: u64, entries: &[Change]) -> Result<(), Error>
    requires eight { length entries.now ≡ 8 }
    requires there { AllByRecursion IsNewAsset entries.now }
    requires fits { n + 8 < 2 ^ 64 }
    ensures changes { Changes S.Store (Makes (with_edits_of n entries.now)) tx.old tx.new result }
    ensures is_open { HasCleanDisk (state S.Store tx.new.conn.now)
        → IsWriting (state S.Store tx.old.conn.now)
        → OnOk result (IsTrue (state S.Store tx.old.conn.now).is_open) }
{
    let mut cells = [ValueRef::Null; 24];
    fill_eight(&Edits, n, entries, &mut cells)?;
    tx.execute(
        "INSERT INTO edit VALUES (?1, ?2, ?3), (?4, ?5, ?6), (?7, ?8, ?9), (?10, ?11, ?12), (?13, ?14, ?15), (?16, ?17, ?18), (?19, ?20, ?21), (?22, ?23, ?24)",
        &cells,
    )?;
    Ok(())
}

/// Puts the rows of eight entries. Assets come first, since their origins and spans refer to them. The edit of the first
/// change has this number, each next one more.
pub fn insert_new_assets<S: Alter>(
    tx: &mut Transaction<'_, S>,
    n: u64,
    entries: &[Change],
) -> Result<(), Error>
    requires eight { length entries.now ≡ 8 }
    requires entries { AllByRecursion IsNewAsset entries.now }
    requires fits { n + 8 < 2 ^ 64 }
    ensures changes { Changes S.Store (Makes (with_new_assets n entries.now)) tx.old tx.new result }
    ensures is_open { HasCleanDisk (state S.Store tx.new.conn.now)
        → IsWriting (state S.Store tx.old.conn.now)
        → OnOk result (IsTrue (state S.Store tx.old.conn.now).is_open) }
{
    put_assets(tx, entries)?;
    put_origins(tx, entries)?;
    put_spans(tx, entries)?;
    put_parts(tx, entries)?;
    put_edits(tx, n, entries)?;
    Ok(())
}
