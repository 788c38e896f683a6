//! Pages of lists, as the parameters of a query give them.

ghost use Rattle.std.specs.Prelude.{◌≡◌, ◌⊎◌, ℕ, List, Option, Some, IfOk, IfErr, IfSome, IfNone, is_some, option_map};
ghost use Rattle.serde_json.specs.View.{view};
ghost use Rattle.lrs_web_requests.specs.declared.paths.Format.TheVariants.{Json};
ghost use Rattle.lrs_web_requests.specs.declared.paths.Resource.TheVariants as path;
ghost use Rattle.lrs_web_replies.specs.Pages.{CannotPage, GivesAfter, GivesLimit, GivesPage, SaysClassValue, SaysKey, SaysNumberValue, SaysReferentValue, SaysRouteValue, SaysSideValue, SaysValue, comma_place, field_order, fields_behind, first_field, is_admitted, is_behind, is_on_links, key_of, member_text, page_fault_text, side_place, side_text_place, value_order, whole};
ghost use Rattle.lrs_web_replies.specs.declared.pages.KeyField.{KeyField as Field};
ghost use Rattle.lrs_web_replies.specs.declared.pages.KeyValue.{KeyValue as Shown};

use crate::parameters::read_number;
use lrs_events::{ClassName, Side, read_side};
use lrs_measure::{Rows, read_digits};
use lrs_position::{RefName, RouteName};
use lrs_web_requests::{Format, Resource, switched, value_of};
use serde_json::Value;
use std::alloc::{AllocError, AllocFailed, Global};
use std::cmp::Ordering;

/// A member of the entries of a list that is part of their key.
#[derive(Clone, Copy, PartialEq, Eq)]
pub enum KeyMember {
    Route,
    /// The name of a route in the list of routes.
    Name,
    Link,
    Class,
    Ref,
    Chainage,
    From,
    Side,
    Asset,
}

/// What a member of a key shows.
#[derive(Clone, Copy)]
pub enum KeyValue {
    Number(u64),
    Route(RouteName),
    Class(ClassName),
    Referent(RefName),
    Side(Side),
}

/// A member of a key, with what it shows.
#[derive(Clone, Copy)]
pub struct KeyField {
    pub member: KeyMember,
    pub value: KeyValue,
}

/// Which entries of a list are told: those behind a key, or all, and of them at most `limit`.
#[derive(Drop)]
pub struct Page {
    pub limit: Option<u64>,
    pub after: Option<Rows<KeyField>>,
}

/// Why a query gives no page.
#[derive(Clone, Copy, PartialEq, Eq)]
pub enum PageFault {
    /// The limit is no number, or 0.
    Limit,
    /// What stands in place of a key is none.
    After,
    /// Memory ran out.
    Memory,
}

impl From<AllocError> for PageFault {
    ghost use Rattle.lrs_web_replies.specs.declared.pages.PageFault.TheVariants.{Memory};

    ghost from_gives = { λ _ e. e ≡ Memory };

    fn from(_: AllocError) -> Self {
        PageFault::Memory
    }
}

impl<T: Drop> From<AllocFailed<T>> for PageFault {
    ghost use Rattle.lrs_web_replies.specs.declared.pages.PageFault.TheVariants.{Memory};

    ghost from_gives = { λ _ e. e ≡ Memory };

    fn from(_: AllocFailed<T>) -> Self {
        PageFault::Memory
    }
}

impl PageFault {
    /// The name of the parameter that cannot be read.
    pub fn name(self) -> &'static str
        ensures { result.now ≡ page_fault_text self }
    {
        match self {
            PageFault::Limit => "limit",
            PageFault::After => "after",
            PageFault::Memory => "",
        }
    }
}

impl KeyMember {
    fn name(self) -> &'static str
        ensures { result.now ≡ member_text self }
    {
        match self {
            KeyMember::Route => "route",
            KeyMember::Name => "name",
            KeyMember::Link => "link",
            KeyMember::Class => "class",
            KeyMember::Ref => "ref",
            KeyMember::Chainage => "chainage",
            KeyMember::From => "from",
            KeyMember::Side => "side",
            KeyMember::Asset => "asset",
        }
    }
}

impl Page {
    /// All entries.
    pub fn whole() -> Page
        ensures { result ≡ whole }
    {
        Page {
            limit: None,
            after: None,
        }
    }
}

// ---- the order of entries

fn side_place(side: Side) -> u8
    ensures { result ≡ side_place side }
{
    match side {
        Side::L => 0,
        Side::R => 1,
        Side::B => 2,
    }
}

fn side_text_place(text: &str) -> u8
    ensures { result ≡ side_text_place text.now }
{
    if text == "L" {
        0
    } else if text == "R" {
        1
    } else {
        2
    }
}

fn number_order(number: u64, shown: &Value) -> Ordering
    ensures { result ≡ value_order (KeyValue.Number number) (view shown.now) }
{
    match shown.as_u64() {
        Some(other) => number.cmp(&other),
        None => Ordering::Equal,
    }
}

fn route_order(name: RouteName, shown: &Value) -> Ordering
    ensures { result ≡ value_order (KeyValue.Route name) (view shown.now) }
{
    match shown.as_str() {
        Some(text) => name.bytes().cmp(text.as_bytes()),
        None => Ordering::Equal,
    }
}

fn class_order(name: ClassName, shown: &Value) -> Ordering
    ensures { result ≡ value_order (KeyValue.Class name) (view shown.now) }
{
    match shown.as_str() {
        Some(text) => name.bytes().cmp(text.as_bytes()),
        None => Ordering::Equal,
    }
}

fn referent_order(name: RefName, shown: &Value) -> Ordering
    ensures { result ≡ value_order (KeyValue.Referent name) (view shown.now) }
{
    match shown.as_str() {
        Some(text) => name.bytes().cmp(text.as_bytes()),
        None => Ordering::Equal,
    }
}

fn side_order(side: Side, shown: &Value) -> Ordering
    ensures { result ≡ value_order (KeyValue.Side side) (view shown.now) }
{
    match shown.as_str() {
        Some(text) => side_place(side).cmp(&side_text_place(text)),
        None => Ordering::Equal,
    }
}

/// How a field of a key stands to what is shown.
fn value_order(value: KeyValue, shown: &Value) -> Ordering
    ensures { result ≡ value_order value (view shown.now) }
{
    match value {
        KeyValue::Number(number) => number_order(number, shown),
        KeyValue::Route(name) => route_order(name, shown),
        KeyValue::Class(name) => class_order(name, shown),
        KeyValue::Referent(name) => referent_order(name, shown),
        KeyValue::Side(side) => side_order(side, shown),
    }
}

/// How a field of a key stands to the member of an entry that has its name.
fn field_order(field: &KeyField, entry: &Value) -> Ordering
    ensures { result ≡ field_order field.now (view entry.now) }
{
    match entry.get(field.member.name()) {
        Some(shown) => value_order(field.value, shown),
        None => Ordering::Equal,
    }
}

/// Whether an entry is behind a key.
fn is_behind(key: &[KeyField], entry: &Value) -> bool
    ensures { result ≡ is_behind key.now (view entry.now) }
{
    for field in key {
        match field_order(field, entry) {
            Ordering::Less => return true,
            Ordering::Equal => {}
            Ordering::Greater => return false,
        }
    }
    false
}

/// Whether an entry is admitted to a page.
pub(crate) fn is_admitted(page: &Page, entry: &Value) -> bool
    ensures { result ≡ is_admitted page.now.after (view entry.now) }
{
    match &page.after {
        Some(key) => is_behind(key.as_slice(), entry),
        None => true,
    }
}

// ---- what a query gives

fn number_value(text: &[u8]) -> Option<KeyValue>
    ensures read { IfSome result (SaysNumberValue text.now) }
    ensures unread { IfNone result ((value : Shown) → SaysNumberValue text.now value → ⊥) }
{
    match read_digits(text, u64::MAX) {
        Some(number) => Some(KeyValue::Number(number)),
        None => None,
    }
}

fn route_value(text: &[u8]) -> Option<KeyValue>
    ensures read { IfSome result (SaysRouteValue text.now) }
    ensures unread { IfNone result ((value : Shown) → SaysRouteValue text.now value → ⊥) }
{
    match RouteName::new(text) {
        Some(name) => Some(KeyValue::Route(name)),
        None => None,
    }
}

fn class_value(text: &[u8]) -> Option<KeyValue>
    ensures read { IfSome result (SaysClassValue text.now) }
    ensures unread { IfNone result ((value : Shown) → SaysClassValue text.now value → ⊥) }
{
    match ClassName::new(text) {
        Some(name) => Some(KeyValue::Class(name)),
        None => None,
    }
}

fn referent_value(text: &[u8]) -> Option<KeyValue>
    ensures read { IfSome result (SaysReferentValue text.now) }
    ensures unread { IfNone result ((value : Shown) → SaysReferentValue text.now value → ⊥) }
{
    match RefName::new(text) {
        Some(name) => Some(KeyValue::Referent(name)),
        None => None,
    }
}

fn side_value(text: &[u8]) -> Option<KeyValue>
    ensures read { IfSome result (SaysSideValue text.now) }
    ensures unread { IfNone result ((value : Shown) → SaysSideValue text.now value → ⊥) }
{
    match read_side(text) {
        Some(side) => Some(KeyValue::Side(side)),
        None => None,
    }
}

/// What a field says that a member shows.
fn read_value(member: &KeyMember, text: &[u8]) -> Option<KeyValue>
    ensures read { IfSome result (SaysValue member.now text.now) }
    ensures unread { IfNone result ((value : Shown) → SaysValue member.now text.now value → ⊥) }
{
    match member {
        KeyMember::Route => route_value(text),
        KeyMember::Name => route_value(text),
        KeyMember::Link => number_value(text),
        KeyMember::Class => class_value(text),
        KeyMember::Ref => referent_value(text),
        KeyMember::Chainage => number_value(text),
        KeyMember::From => number_value(text),
        KeyMember::Side => side_value(text),
        KeyMember::Asset => number_value(text),
    }
}

fn field_of(member: &KeyMember, value: KeyValue) -> KeyField
    ensures member { result.member ≡ member.now }
    ensures value { result.value ≡ value }
{
    KeyField {
        member: *member,
        value,
    }
}

/// Where the first comma stands.
fn comma_place(text: &[u8]) -> Option<usize>
    ensures { result ≡ comma_place text.now }
{
    text.iter().position(|byte| *byte == b',')
}

/// What stands before the first comma, and what behind it.
fn first_field(text: &[u8]) -> (&[u8], Option<&[u8]>)
    ensures first { result.0.now ≡ first_field text.now }
    ensures behind { option_map (λ rest. rest.now) result.1 ≡ fields_behind text.now }
{
    match comma_place(text) {
        Some(place) => (&text[..place], Some(&text[place + 1..])),
        None => (text, None),
    }
}

/// The key that the fields of a text say, between commas.
fn read_key(
    alloc: Global,
    key: &[KeyMember],
    text: &[u8],
) -> Result<Option<Rows<KeyField>>, AllocError>
    ensures read { IfOk result (λ found. IfSome found (SaysKey key.now text.now)) }
    ensures unread { IfOk result (λ found. IfNone found ((fields : List Field)
        → SaysKey key.now text.now fields → ⊥)) }
{
    let mut fields = Vec::new(alloc);
    let mut rest = Some(text);
    for member in key {
        match rest {
            Some(left) => {
                let (first, behind) = first_field(left);
                match read_value(member, first) {
                    Some(value) => fields.push(field_of(member, value))?,
                    None => return Ok(None),
                }
                rest = behind;
            }
            None => return Ok(None),
        }
    }
    match rest {
        Some(_) => Ok(None),
        None => Ok(Some(Rows::from_vec(fields))),
    }
}

fn limit_in(alloc: Global, query: &[u8]) -> Result<Option<u64>, PageFault>
    ensures read { IfOk result (GivesLimit query.now) }
    ensures unread { IfErr result (λ e. (e ≡ PageFault.Memory) ⊎ ((e ≡ PageFault.Limit)
        × ((limit : Option ℕ) → GivesLimit query.now limit → ⊥))) }
{
    match value_of(alloc, query, "limit")? {
        Some(text) => match read_number(text.as_str(), 1, u64::MAX) {
            Some(number) => Ok(Some(number)),
            None => Err(PageFault::Limit),
        },
        None => Ok(None),
    }
}

fn after_in(
    alloc: Global,
    key: &[KeyMember],
    query: &[u8],
) -> Result<Option<Rows<KeyField>>, PageFault>
    ensures read { IfOk result (GivesAfter key.now query.now) }
    ensures unread { IfErr result (λ e. (e ≡ PageFault.Memory) ⊎ ((e ≡ PageFault.After)
        × ((after : Option (List Field)) → GivesAfter key.now query.now after → ⊥))) }
{
    match value_of(alloc, query, "after")? {
        Some(text) => match read_key(alloc, key, text.as_str().as_bytes())? {
            Some(fields) => Ok(Some(fields)),
            None => Err(PageFault::After),
        },
        None => Ok(None),
    }
}

/// The page of a list whose entries have this key.
fn page_by(alloc: Global, key: &[KeyMember], query: &[u8]) -> Result<Page, PageFault>
    ensures read { IfOk result (GivesPage (Some key.now) query.now) }
    ensures unread { IfErr result (CannotPage (Some key.now) query.now) }
{
    let limit = limit_in(alloc, query)?;
    let after = after_in(alloc, key, query)?;
    Ok(Page { limit, after })
}

/// Whether rows are told on the links under them, and so in no pages.
fn is_on_links(alloc: Global, query: &[u8]) -> Result<bool, AllocError>
    ensures { IfOk result (λ on_links. on_links ≡ is_on_links query.now) }
{
    match switched(alloc, query, "on_links")? {
        Some(on_links) => Ok(on_links),
        None => Ok(false),
    }
}

fn rows_page(alloc: Global, query: &[u8]) -> Result<Page, PageFault>
    ensures read { IfOk result (GivesPage (key_of Json path.Rows query.now) query.now) }
    ensures unread { IfErr result (CannotPage (key_of Json path.Rows query.now) query.now) }
{
    if is_on_links(alloc, query)? {
        return Ok(Page::whole());
    }
    let key = [
        KeyMember::Route,
        KeyMember::From,
        KeyMember::Side,
        KeyMember::Class,
        KeyMember::Asset,
    ];
    page_by(alloc, &key, query)
}

fn json_page(alloc: Global, resource: Resource, query: &[u8]) -> Result<Page, PageFault>
    ensures read { IfOk result (GivesPage (key_of Json resource query.now) query.now) }
    ensures unread { IfErr result (CannotPage (key_of Json resource query.now) query.now) }
{
    let (route, from) = (KeyMember::Route, KeyMember::From);
    match resource {
        Resource::Routes => page_by(alloc, &[KeyMember::Name], query),
        Resource::Links => page_by(alloc, &[KeyMember::Link], query),
        Resource::Classes => page_by(alloc, &[KeyMember::Class], query),
        Resource::Refs => page_by(alloc, &[route, KeyMember::Ref], query),
        Resource::Marks => page_by(alloc, &[route, KeyMember::Chainage], query),
        Resource::Pieces => page_by(alloc, &[route, from], query),
        Resource::Rows => rows_page(alloc, query),
        Resource::Overlay => page_by(alloc, &[route, KeyMember::Side, from], query),
        Resource::At
        | Resource::Route
        | Resource::Segments
        | Resource::Totals
        | Resource::Translate
        | Resource::Diagram
        | Resource::Find
        | Resource::Log
        | Resource::Health
        | Resource::Lengths
        | Resource::Gone
        | Resource::History
        | Resource::Where
        | Resource::Edits
        | Resource::Surveys
        | Resource::EditsCheck
        | Resource::SurveysCheck
        | Resource::Questions
        | Resource::Draft(_) => Ok(Page::whole()),
    }
}

/// The page of a list that a query asks for: all of it where the list is not told in pages.
///
/// # Errors
/// `Limit` or `After` where the first of them that is given cannot be read, and `Memory`.
pub fn page_of(
    alloc: Global,
    format: Format,
    resource: Resource,
    query: &[u8],
) -> Result<Page, PageFault>
    ensures read { IfOk result (GivesPage (key_of format resource query.now) query.now) }
    ensures unread { IfErr result (CannotPage (key_of format resource query.now) query.now) }
{
    match format {
        Format::Json => json_page(alloc, resource, query),
        Format::Csv => Ok(Page::whole()),
    }
}

/// Whether a list is told in pages.
pub(crate) fn is_paged(
    alloc: Global,
    format: Format,
    resource: Resource,
    query: &[u8],
) -> Result<bool, AllocError>
    ensures { IfOk result (λ paged. paged ≡ is_some (key_of format resource query.now)) }
{
    if format == Format::Csv {
        return Ok(false);
    }
    match resource {
        Resource::Routes
        | Resource::Links
        | Resource::Classes
        | Resource::Refs
        | Resource::Marks
        | Resource::Pieces
        | Resource::Overlay => Ok(true),
        Resource::Rows => Ok(!is_on_links(alloc, query)?),
        Resource::At
        | Resource::Route
        | Resource::Segments
        | Resource::Totals
        | Resource::Translate
        | Resource::Diagram
        | Resource::Find
        | Resource::Log
        | Resource::Health
        | Resource::Lengths
        | Resource::Gone
        | Resource::History
        | Resource::Where
        | Resource::Edits
        | Resource::Surveys
        | Resource::EditsCheck
        | Resource::SurveysCheck
        | Resource::Questions
        | Resource::Draft(_) => Ok(false),
    }
}
