//! The text of a list of which a page is told, written item by item.

ghost use Rattle.std.specs.Prelude.{◌≡◌, List, IfOk, OnOk, false, map};
ghost use Rattle.serde_json.specs.Data.{Data};
ghost use Rattle.serde_json.specs.View.{view};
ghost use Rattle.serde_json.specs.Written.{compact_text, has_float};
ghost use Rattle.lrs_machine.specs.Lines.{Text};
ghost use Rattle.lrs_web_replies.specs.Listings.{named_list};
ghost use Rattle.lrs_web_replies.specs.PagedText.{add_all, add_one, begun, is_none_left, is_told, one_less};
ghost use Rattle.lrs_web_replies.specs.Pages.{paged};
ghost use Rattle.lrs_web_replies.specs.declared.pages.Page.{Page as PageValue};

use crate::list::Shown;
use crate::list_text::{add_item, begin, end};
use crate::pages::{Page, is_admitted};
use lrs_ordered::Chunked;
use serde_json::Value;
use std::alloc::{AllocError, Global};
use std::marker::Model;

/// The text of a list up to its end, and what of the page is still to come.
#[derive(Drop)]
pub(crate) struct PagedText {
    bytes: Vec<u8>,
    /// How many bytes it may have.
    most: usize,
    /// Where the items begin.
    start: usize,
    page: Page,
}

impl Model for PagedText {
    ghost use Rattle.lrs_web_replies.specs.PagedText.{PageText};

    ghost Value = { PageText };

    ghost view = { λ t. record { start = t.start; page = t.page; bytes = t.bytes.items } };
}

// Whether no more items may come.
fn is_none_left(limit: Option<u64>) -> bool
    ensures { result ≡ is_none_left limit }
{
    match limit {
        Some(left) => left == 0,
        None => false,
    }
}

fn one_less(limit: Option<u64>) -> Option<u64>
    ensures { result ≡ one_less limit }
{
    match limit {
        Some(left) => Some(left.saturating_sub(1)),
        None => None,
    }
}

fn is_told(page: &Page, entry: &Value) -> bool
    ensures { result ≡ is_told page.now (view entry.now) }
{
    !is_none_left(page.limit) && is_admitted(page, entry)
}

impl PagedText {
    /// An object up to the value of its first member, which has this name.
    pub(crate) fn begin(
        alloc: Global,
        most: usize,
        page: Page,
        name: &str,
    ) -> Result<PagedText, AllocError>
        ensures { IfOk result (λ text. text ≡ begun name.now page) }
    {
        let bytes = begin(alloc, name)?;
        let start = bytes.len();
        Ok(PagedText {
            bytes,
            most,
            start,
            page,
        })
    }

    /// Whether the page has as many items as it may have, so that no more need be made.
    pub(crate) fn is_full(&self) -> bool
        ensures { result ≡ is_none_left self.now.page.limit }
    {
        is_none_left(self.page.limit)
    }

    /// Adds an item with a comma before it, where the page has it.
    pub(crate) fn add(&mut self, alloc: Global, item: Value) -> Result<(), AllocError>
        requires { has_float (view item) ≡ false }
        ensures { OnOk result (self.new ≡ add_one self.old (view item)) }
    {
        if is_told(&self.page, &item) {
            self.page.limit = one_less(self.page.limit);
            return add_item(alloc, self.most, &mut self.bytes, item);
        }
        Ok(())
    }

    /// Ends the list and the object.
    pub(crate) fn end(self) -> Result<Vec<u8>, AllocError>
        ensures { IfOk result (λ whole. (name : Text) (page : PageValue) (items : List Data)
            → self ≡ add_all (begun name page) items
            → whole.items ≡ compact_text (named_list name (paged page items))) }
    {
        end(self.bytes, self.start)
    }
}

#[tactic(auto, using(crate::proofs::Paging::full_one))]
fn add_one<T: Shown>(alloc: Global, text: &mut PagedText, one: &T) -> Result<(), AllocError>
    requires whole { has_float (T.shown one.now) ≡ false }
    ensures { OnOk result (text.new ≡ add_one text.old (T.shown one.now)) }
{
    if text.is_full() {
        return Ok(());
    }
    let value = one.value(alloc)?;
    text.add(alloc, value)
}

/// Adds each of a list.
pub(crate) fn add_each<T: Shown>(
    alloc: Global,
    text: &mut PagedText,
    list: &Chunked<T>,
) -> Result<(), AllocError>
    requires whole { (one : T) → has_float (T.shown one) ≡ false }
    ensures { OnOk result (text.new ≡ add_all text.old (map T.shown list.now.rows)) }
{
    for one in list.iter() {
        add_one(alloc, text, one)?;
    }
    Ok(())
}
