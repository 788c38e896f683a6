//! Advice item by item, for those who write programs.

ghost use Rattle.std.specs.Prelude.{◌≡◌, ◌∷◌, ◌++◌, [], IfOk, IfSome, IsTrue, None, OnOk, option_map, vec_items};
ghost use Rattle.lrs_sheet_advice.specs.AdviceItems.{AddsAdvice, AddsSheetAdvice, IsItemOn, IsItemOnSheet, IsLetter, key_named};
ghost use Rattle.lrs_sheet_advice.specs.AdviceLines.{is_printable_text};
ghost use Rattle.lrs_sheet_advice.specs.Refusals.{key_of, refusals};

use crate::advice::{next_refusal, say_line};
use crate::column::letter_of;
use crate::fault::AdviceFault;
use crate::line::AdviceLine;
use crate::malformed::say_wanted_in;
use crate::records::Records;
use crate::refused::field_meant;
use crate::reply::key_named;
use crate::whole::{SheetFlaw, say_flaw};
use lrs_sheet_records::Sheet;
use std::alloc::{AllocError, Global};

/// Advice about a record that is refused, or about a whole sheet.
#[derive(Drop)]
pub struct AdviceItem {
    /// The line of the sheet on which the record starts; none where the sheet has no such record.
    pub line: Option<usize>,
    /// The key of the record, where it has one that is well formed.
    pub key: Option<Vec<u8>>,
    /// The letter of the column that is meant, if one is. Of from and to, where either may be, it is that of from; of a
    /// position it is its own, and not that of its method.
    pub column: Option<u8>,
    /// The text that the record has in that column.
    pub value: Option<Vec<u8>>,
    /// What is wanted there, where the text is malformed.
    pub wanted: Option<Vec<u8>>,
    /// The line of advice, without its end.
    pub text: Vec<u8>,
}

fn length_of(text: &Option<Vec<u8>>) -> usize {
    match text {
        Some(text) => text.len(),
        None => 0,
    }
}

fn copy_of(alloc: Global, text: Option<&[u8]>) -> Result<Option<Vec<u8>>, AllocError>
    ensures { IfOk result (λ copy. option_map vec_items copy
        ≡ option_map (λ text. text.now) text.entry) }
{
    match text {
        Some(text) => Ok(Some(Vec::from_slice(alloc, text)?)),
        None => Ok(None),
    }
}

impl AdviceItem {
    /// Nothing yet but where it is.
    fn new(alloc: Global, line: Option<usize>) -> AdviceItem
        ensures line { result.line ≡ line }
        ensures key { result.key ≡ None }
        ensures column { result.column ≡ None }
        ensures value { result.value ≡ None }
        ensures wanted { result.wanted ≡ None }
        ensures text { result.text.items ≡ [] }
    {
        AdviceItem {
            line,
            key: None,
            column: None,
            value: None,
            wanted: None,
            text: Vec::new(alloc),
        }
    }

    /// How many bytes its texts have.
    fn size(&self) -> usize {
        let text = self.text.len();
        let value = length_of(&self.value);
        text.saturating_add(value)
            .saturating_add(length_of(&self.wanted))
    }

    /// Takes down the key.
    fn set_key(&mut self, alloc: Global, reply: &[u8]) -> Result<(), AllocError>
        ensures line { self.new.line ≡ self.old.line }
        ensures column { self.new.column ≡ self.old.column }
        ensures key { OnOk result (option_map vec_items self.new.key
            ≡ key_named (key_of reply.now)) }
        ensures text { self.new.text ≡ self.old.text }
    {
        self.key = copy_of(alloc, key_named(reply))?;
        Ok(())
    }

    /// Takes down which column is meant, what stands there, and what is wanted, which is said in a line first.
    fn set_place(
        &mut self,
        alloc: Global,
        line: &mut AdviceLine,
        records: &Records<'_>,
        reply: &[u8],
    ) -> Result<(), AllocError>
        ensures line { self.new.line ≡ self.old.line }
        ensures key { self.new.key ≡ self.old.key }
        ensures column { IfSome self.old.column IsLetter → IfSome self.new.column IsLetter }
        ensures text { self.new.text ≡ self.old.text }
    {
        let Some((field, is_malformed)) = field_meant(records, reply) else {
            return Ok(());
        };
        self.column = Some(letter_of(records.kind(), field));
        self.value = copy_of(alloc, records.text_found(field))?;
        if is_malformed {
            say_wanted_in(line, records, field)?;
            self.wanted = copy_of(alloc, Some(line.bytes()))?;
        }
        Ok(())
    }
}

/// Adds the line of advice to a text: how it begins, and the rest of it.
fn add_line(text: &mut Vec<u8>, head: &AdviceLine, body: &AdviceLine) -> Result<(), AllocError>
    ensures line { OnOk result (text.new.items ≡ text.old.items ++ (head.now ++ body.now)) }
    ensures printable { OnOk result (IsTrue (is_printable_text (head.now ++ body.now))) }
{
    text.extend_from_slice(head.bytes())?;
    text.extend_from_slice(body.bytes())
}

/// Takes down what is told of a refusal, behind the line on which its record starts. The line of advice has been said.
fn fill(
    alloc: Global,
    item: &mut AdviceItem,
    head: &AdviceLine,
    body: &mut AdviceLine,
    records: &Records<'_>,
    reply: &[u8],
) -> Result<(), AllocError>
    ensures line { item.new.line ≡ item.old.line }
    ensures key { OnOk result (option_map vec_items item.new.key ≡ key_named (key_of reply.now)) }
    ensures column { IfSome item.old.column IsLetter → IfSome item.new.column IsLetter }
    ensures text { OnOk result (item.new.text.items
        ≡ item.old.text.items ++ (head.now ++ body.old)) }
    ensures printable { OnOk result (IsTrue (is_printable_text (head.now ++ body.old))) }
{
    add_line(&mut item.text, head, body)?;
    item.set_key(alloc, reply)?;
    item.set_place(alloc, body, records, reply)
}

/// The item about a refusal.
#[tactic(auto, using(crate::proofs::ListedItems::told))]
fn item_on(
    alloc: Global,
    head: &mut AdviceLine,
    body: &mut AdviceLine,
    records: &mut Records<'_>,
    reply: &[u8],
) -> Result<AdviceItem, AllocError>
    ensures { IfOk result (IsItemOn reply.now) }
{
    let start = say_line(alloc, head, body, records, reply)?;
    let mut item = AdviceItem::new(alloc, start);
    fill(alloc, &mut item, head, body, records, reply)?;
    Ok(item)
}

/// Advice item by item, whose texts have at most so many bytes in all.
#[derive(Drop)]
pub struct AdviceList {
    pub items: Vec<AdviceItem>,
    left: usize,
}

impl AdviceList {
    /// None yet, and at most so many bytes.
    pub fn new(alloc: Global, most: usize) -> AdviceList
        ensures { result.items.items ≡ [] }
    {
        AdviceList {
            items: Vec::new(alloc),
            left: most,
        }
    }

    /// Adds an item. Where there is no room for it, that is answered as want of memory is.
    fn push(&mut self, item: AdviceItem) -> Result<(), AllocError>
        ensures { OnOk result (self.new.items.items ≡ self.old.items.items ++ item ∷ []) }
    {
        match self.left.checked_sub(item.size()) {
            Some(left) => {
                self.left = left;
                Ok(self.items.push(item)?)
            }
            None => Err(AllocError),
        }
    }
}

/// Adds the item about a refusal.
#[tactic(auto, using(crate::proofs::ListedItems::adds_one))]
fn push_item(
    alloc: Global,
    list: &mut AdviceList,
    head: &mut AdviceLine,
    body: &mut AdviceLine,
    records: &mut Records<'_>,
    reply: &[u8],
) -> Result<(), AdviceFault>
    ensures { OnOk result (AddsAdvice (reply.now ∷ []) list.old.items.items list.new.items.items) }
{
    let item = item_on(alloc, head, body, records, reply)?;
    Ok(list.push(item)?)
}

/// Goes on to the header, then through the refusals, and adds an item for each.
#[tactic(auto, using(crate::proofs::RefusalsLeft::fewer))]
fn push_items(
    alloc: Global,
    list: &mut AdviceList,
    head: &mut AdviceLine,
    body: &mut AdviceLine,
    records: &mut Records<'_>,
    replies: &[u8],
) -> Result<(), AdviceFault>
    ensures { OnOk result (AddsAdvice (refusals replies.now)
        list.old.items.items list.new.items.items) }
{
    records.go_on()?;
    let mut left = Some(replies);
    'refusals: loop {
        match next_refusal(records, left)? {
            Some(refusal) => {
                push_item(alloc, list, head, body, records, refusal.reply)?;
                left = refusal.behind;
            }
            None => return Ok(()),
        }
    }
}

/// Adds an item for each record of a sheet that its reply refuses, in their order. `replies` are the reply lines of the
/// sheet, one a record. Where none refuses, nothing is added.
///
/// # Errors
///
/// `Memory`, also where there is no room for an item. Some of the items may be added then.
pub fn list_advice(
    alloc: Global,
    list: &mut AdviceList,
    kind: Sheet,
    sheet: &[u8],
    replies: &[u8],
) -> Result<(), AdviceFault>
    ensures { OnOk result (AddsAdvice (refusals replies.now)
        list.old.items.items list.new.items.items) }
{
    let mut records = Records::new(alloc, kind, sheet);
    let mut head = AdviceLine::new(alloc);
    let mut body = AdviceLine::new(alloc);
    push_items(alloc, list, &mut head, &mut body, &mut records, replies)
}

/// The item about a sheet that cannot be read to its end.
fn item_on_sheet(
    alloc: Global,
    start: Option<usize>,
    line: &AdviceLine,
    nothing: &AdviceLine,
) -> Result<AdviceItem, AllocError>
    ensures { IfOk result IsItemOnSheet }
{
    let mut item = AdviceItem::new(alloc, start);
    add_line(&mut item.text, line, nothing)?;
    Ok(item)
}

/// Adds the item about a flaw.
#[tactic(auto, using(crate::proofs::ListedItems::adds_sheet))]
fn push_flaw(
    alloc: Global,
    list: &mut AdviceList,
    line: &mut AdviceLine,
    nothing: &AdviceLine,
    flaw: SheetFlaw,
    kind: Sheet,
    sheet: &[u8],
) -> Result<(), AdviceFault>
    ensures { OnOk result (AddsSheetAdvice list.old.items.items list.new.items.items) }
{
    let start = say_flaw(alloc, line, flaw, kind, sheet)?;
    let item = item_on_sheet(alloc, start, line, nothing)?;
    Ok(list.push(item)?)
}

/// Adds one item about a sheet that cannot be read to its end: the line at which it stops, where that is known, and what
/// was found there and what is wanted, in words.
///
/// # Errors
///
/// `Memory`, also where there is no room for the item.
pub fn list_fault_advice(
    alloc: Global,
    list: &mut AdviceList,
    flaw: SheetFlaw,
    kind: Sheet,
    sheet: &[u8],
) -> Result<(), AdviceFault>
    ensures { OnOk result (AddsSheetAdvice list.old.items.items list.new.items.items) }
{
    let mut line = AdviceLine::new(alloc);
    let nothing = AdviceLine::new(alloc);
    push_flaw(alloc, list, &mut line, &nothing, flaw, kind, sheet)
}
