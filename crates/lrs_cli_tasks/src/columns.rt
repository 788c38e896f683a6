//! The columns of a list: which there are, and the places of those that are named.

ghost use Rattle.std.specs.Prelude.{◌≡◌, ◌⊎◌, ◌+◌, ◌++◌, IfOk, IfErr, IfSome, IfNone, OnOk, [], ◌∷◌, Some, None, false, true, length, option_map};
ghost use Rattle.lrs_machine.specs.Image.{nothing};
ghost use Rattle.lrs_report_lists.specs.Lists.{rows_header};
ghost use Rattle.lrs_sheet_records.specs.Words.{parts_of};
ghost use Rattle.lrs_cli_words.specs.declared.question.BadWord.TheVariants as word;
ghost use Rattle.lrs_cli_words.specs.declared.question.QuestionFault.TheVariants.{Unreadable, Memory};
ghost use Rattle.lrs_cli_tasks.specs.Columns.{ArePicked, ArePlaces, CannotPick, CannotPlace, class_columns, columns_of, is_among, leading_classes, names_in, place_of};
ghost use Rattle.lrs_cli_tasks.specs.Lines.{listing_text};

use lrs_cli_words::{BadWord, QuestionFault};
use lrs_events::ClassName;
use lrs_machine::{Listing, Question, RowForm};
use lrs_measure::Rows;
use lrs_sheet_records::cut_at;
use std::alloc::Global;

fn row_columns(form: RowForm) -> &'static str
    ensures { parts_of 44 result.now ≡ names_in (rows_header form) }
{
    match form {
        RowForm::Decimal | RowForm::Exact => {
            "route,from,to,from_measure,to_measure,side,asset,class,value,offset,entry"
        }
        RowForm::OnLinks => "asset,class,value,offset,link,from,to,side,route",
    }
}

fn listing_columns(listing: &Listing) -> &'static str
    ensures { parts_of 44 result.now ≡ names_in (listing_text nothing listing.now) }
{
    match listing {
        Listing::Routes => "route,length,from,to",
        Listing::Links => "link,length",
        Listing::Classes => "class,kind",
        Listing::Refs { .. } => "ref,route,chainage,measure",
        Listing::Marks(_) => "route,chainage,measure",
        Listing::Pieces(_) => "route,from,to,link,link_from,link_to,direction",
        Listing::Gone(_) => "edit,key,verb,reason,asset,class,value,link,from,to,side",
        Listing::History(_) => "edit,key,verb,event,link,from,to,side",
        Listing::Log { .. } | Listing::LogOfKey(_) => "key,verb,a,b,c,d,e,f,g,h,i",
    }
}

/// The columns of the list that answers a question, with a comma between two, but for the classes that an overlay has behind
/// them, and combinations of values before them; none where the answer is no list.
pub fn first_columns(question: &Question) -> Option<&'static str>
    ensures some { IfSome result (λ names. columns_of question.now
        ≡ leading_classes question.now ++ (parts_of 44 names.now ++ class_columns question.now)) }
    ensures none { IfNone result (columns_of question.now ≡ []) }
{
    match question {
        Question::Rows(asked) => Some(row_columns(asked.form)),
        Question::Lengths(_) => Some("class,value,left,right,length,assets"),
        Question::Combinations { .. } => Some("left,right,length"),
        Question::Overlay(_) => Some("route,from,to,from_measure,to_measure,side"),
        Question::List(listing) => Some(listing_columns(listing)),
        Question::At { .. }
        | Question::Route { .. }
        | Question::Segments { .. }
        | Question::Translate { .. }
        | Question::Diagram { .. }
        | Question::Totals
        | Question::Find { .. }
        | Question::Where(_)
        | Question::Health => None,
    }
}

/// The place of a name among names with a comma between two, counted from 0; or how many there are.
fn place_among(names: &[u8], name: &[u8]) -> Result<usize, usize>
    ensures found { IfOk result (λ place. place_of (parts_of 44 names.now) name.now ≡ Some place) }
    ensures none { IfErr result (λ count. place_of (parts_of 44 names.now) name.now ≡ None) }
    ensures count { IfErr result (λ count. count ≡ length (parts_of 44 names.now)) }
{
    let mut rest = names;
    let mut place = 0;
    'names: loop {
        let (first, behind) = cut_at(rest, b',');
        if first == name {
            return Ok(place);
        }
        place += 1;
        match behind {
            Some(more) => rest = more,
            None => return Err(place),
        }
    }
}

/// The classes that combinations of values have for columns.
fn leading_classes(question: &Question) -> &[ClassName]
    ensures { result.now ≡ leading_classes question.now }
{
    match question {
        Question::Combinations { classes, .. } => classes.as_slice(),
        _ => &[],
    }
}

/// The classes that an overlay has for columns.
fn class_columns(question: &Question) -> &[ClassName]
    ensures { result.now ≡ class_columns question.now }
{
    match question {
        Question::Overlay(asked) => asked.classes.as_slice(),
        _ => &[],
    }
}

fn class_place(classes: &[ClassName], name: &[u8]) -> Option<usize>
    ensures { result ≡ place_of classes.now name.now }
{
    for (place, class) in classes.iter().enumerate() {
        if class.bytes() == name {
            return Some(place);
        }
    }
    None
}

/// A place behind so many columns.
fn place_after(count: usize, place: usize) -> Result<usize, QuestionFault>
    ensures found { IfOk result (λ sum. sum ≡ count + place) }
    ensures memory { IfErr result (λ e. e ≡ Memory) }
{
    // no memory has room for more columns
    count.checked_add(place).ok_or(QuestionFault::Memory)
}

/// The place of a class behind so many columns.
fn place_behind(count: usize, classes: &[ClassName], name: &[u8]) -> Result<usize, QuestionFault>
    ensures found { IfOk result (λ place. option_map (λ k. count + k) (place_of classes.now name.now)
        ≡ Some place) }
    ensures unread { IfErr result (λ e. ((e ≡ Unreadable word.Columns)
        × (place_of classes.now name.now ≡ None)) ⊎ (e ≡ Memory)) }
{
    match class_place(classes, name) {
        Some(place) => place_after(count, place),
        None => Err(QuestionFault::Unreadable(BadWord::Columns)),
    }
}

/// The place of a column among names with a comma between two, and the classes behind them.
fn later_place(names: &[u8], classes: &[ClassName], name: &[u8]) -> Result<usize, QuestionFault>
    ensures found { IfOk result (λ place. place_of (parts_of 44 names.now ++ classes.now) name.now
        ≡ Some place) }
    ensures unread { IfErr result (λ e. ((e ≡ Unreadable word.Columns)
        × (place_of (parts_of 44 names.now ++ classes.now) name.now ≡ None)) ⊎ (e ≡ Memory)) }
{
    match place_among(names, name) {
        Ok(place) => Ok(place),
        Err(count) => place_behind(count, classes, name),
    }
}

/// The place of a column of the list that answers a question.
fn column_place(question: &Question, name: &[u8]) -> Result<usize, QuestionFault>
    ensures found { IfOk result (λ place. place_of (columns_of question.now) name.now
        ≡ Some place) }
    ensures unread { IfErr result (λ e. ((e ≡ Unreadable word.Columns)
        × (place_of (columns_of question.now) name.now ≡ None)) ⊎ (e ≡ Memory)) }
{
    let Some(first) = first_columns(question) else {
        return Err(QuestionFault::Unreadable(BadWord::Columns));
    };
    let leading = leading_classes(question);
    match class_place(leading, name) {
        Some(place) => Ok(place),
        None => match later_place(first.as_bytes(), class_columns(question), name) {
            Ok(place) => place_after(leading.len(), place),
            Err(fault) => Err(fault),
        },
    }
}

fn is_among(places: &[usize], place: usize) -> bool
    ensures { result ≡ is_among place places.now }
{
    for other in places {
        if *other == place {
            return true;
        }
    }
    false
}

/// Puts a place behind others, where it is none of them.
fn push_place(places: &mut Vec<usize>, place: usize) -> Result<(), QuestionFault>
    ensures pushed { OnOk result (places.new.items ≡ places.old.items ++ place ∷ []) }
    ensures apart { OnOk result (is_among place places.old.items ≡ false) }
    ensures unread { IfErr result (λ e. ((e ≡ Unreadable word.RepeatedColumn)
        × (is_among place places.old.items ≡ true)) ⊎ (e ≡ Memory)) }
{
    if is_among(places.as_slice(), place) {
        return Err(QuestionFault::Unreadable(BadWord::RepeatedColumn));
    }
    match places.push(place) {
        Ok(()) => Ok(()),
        Err(_) => Err(QuestionFault::Memory),
    }
}

/// The places of the columns that a text names, with a comma between two.
fn places_of(alloc: Global, question: &Question, names: &[u8]) -> Result<Rows<usize>, QuestionFault>
    ensures read { IfOk result (ArePlaces (columns_of question.now) names.now) }
    ensures unread { IfErr result (CannotPlace (columns_of question.now) names.now) }
{
    let mut places = Vec::new(alloc);
    let mut rest = names;
    'names: loop {
        let (name, behind) = cut_at(rest, b',');
        let place = column_place(question, name)?;
        match push_place(&mut places, place) {
            Ok(()) => {}
            Err(fault) => return Err(fault),
        }
        match behind {
            Some(more) => rest = more,
            None => return Ok(Rows::from_vec(places)),
        }
    }
}

/// The places of the columns that are picked of the list that answers a question: those that a text names, in its order, or
/// none where all are.
///
/// # Errors
/// `Columns` where a name is that of no column, `RepeatedColumn` where two are those of one, and `Memory`.
pub(crate) fn picked_columns(
    alloc: Global,
    question: &Question,
    names: Option<&str>,
) -> Result<Option<Rows<usize>>, QuestionFault>
    ensures read { IfOk result (ArePicked (columns_of question.now)
        (option_map (λ t. t.now) names.entry)) }
    ensures unread { IfErr result (CannotPick (columns_of question.now)
        (option_map (λ t. t.now) names.entry)) }
{
    match names {
        Some(names) => match places_of(alloc, question, names.as_bytes()) {
            Ok(places) => Ok(Some(places)),
            Err(fault) => Err(fault),
        },
        None => Ok(None),
    }
}
