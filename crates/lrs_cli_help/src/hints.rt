//! Hints on words that cannot be read: the word as it was given, and what is wanted.

use crate::job_texts::{given, method_given};
use lrs_cli_words::{BadWord, Job};
use std::alloc::Global;
use std::rt::Runtime;

// What a position is, by the method that is named.
fn position_wanted(method: Option<&str>) -> &'static str {
    match method {
        Some("abs") => "no position by abs; a whole number, as 3000",
        Some("rel") => "no position by rel; a referent and millimetres, as KM2+500 or KM2-20",
        Some("int") => "no position by int; a proportion of the route, as 1/3",
        _ => "no position; as 3000 by abs, KM2+500 by rel, 1/3 by int",
    }
}

// What the word should be.
fn wanted(word: BadWord, method: Option<&str>) -> &'static str {
    match word {
        BadWord::Route => "no route name; 1 to 12 of A-Z 0-9 -, the first not -, as A38",
        BadWord::Method => "no method; abs is a measure, rel a distance, int a proportion",
        BadWord::Position => position_wanted(method),
        BadWord::Destination => "no way to say a position; abs, int, rel:KM2 or link",
        BadWord::Side => "no side of an answer; L or R, seen along the route",
        BadWord::Class => "no class name; 1 to 8 of A-Z 0-9, as SPEED",
        BadWord::From | BadWord::To | BadWord::Place => {
            "no place; as 3000 (mm from the route's start), abs:3000, rel:KM2+500 or int:1/3"
        }
        BadWord::Asset => "no asset number; a whole number from 1, as 1001",
        BadWord::What => "no list; routes, links, classes, refs, marks or pieces",
        BadWord::RouteOfList | BadWord::ExactOfList => {
            "a list without this option; --route is for refs, marks and pieces, --exact for refs"
        }
        BadWord::TwoForms => "a second form of rows; either --exact or --on-links",
        BadWord::Columns => "no choice of columns; names of the header, a comma between two",
        BadWord::RepeatedColumn => "a choice that has a column twice; each is named once",
        BadWord::Edit | BadWord::Since | BadWord::Until | BadWord::Number => {
            "no number of an edit; a whole number from 1, as 8 in the reply KEY,done,8"
        }
        BadWord::Key => "no key; 1 to 40 of A-Z a-z 0-9 . : _ -, not - alone",
        BadWord::FromBesideKey => "a second question beside --key; either FROM or --key KEY",
        BadWord::UntilBesideKey => "a second question beside --key; either --until N or --key KEY",
        BadWord::UntilBesideSum =>
            "a second question beside --sum; log DB N --sum sums up to edit N",
        BadWord::SumBesideKey => "a second question beside --sum; either --sum or --key KEY",
        BadWord::NotLink => "not link; either ROUTE PLACE, or link LINK MM",
        BadWord::Link => "no link number; a whole number from 1 to 999999, as 101",
        BadWord::Millimetre => {
            "no millimetre of a link; a whole number from the link's start, as 3000"
        }
        BadWord::Port => "no port; a whole number from 1 to 65535, as 8080",
        BadWord::Max => "no number of connections; a whole number from 0 to 1000000",
        BadWord::MostReply =>
            "no length of a reply; a whole number of bytes from 1 to 1000000000000",
        BadWord::Compared => {
            "the last of words that are no two inventories; diff old.db new.db, diff roads.db :log log.csv, diff roads.db --since 40"
        }
        BadWord::Draft => "no word of a draft",
        BadWord::AskOfStdin => "where yes is read from; name a file that has the sheet",
    }
}

/// Says on standard error what was given for a word that cannot be read, and what is wanted. Where standard error takes
/// nothing, the status alone tells.
pub fn hint_at<R: Runtime<A = Global>>(rt: &R, job: &Job<'_>, word: BadWord) {
    if let Some(text) = given(job, word) {
        let what = wanted(word, method_given(job));
        let _ = eprintln!(rt; "hint: \"{text}\" is {what}");
    }
}
