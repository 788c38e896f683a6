//! What is said of each cause, and what to do about it: one table for all causes, which begins at `sentence`.

use lrs_machine::{Cause, What};
use lrs_sheet_records::Verb;

/// What is said where there are too many.
fn too_many(what: What) -> &'static str {
    match what {
        What::Edits => {
            "the inventory is full, it has 10000000 edits: nothing more can be done in it"
        }
        What::Assets => {
            "the inventory is full, it has 1000000 assets, those counted that are gone: no more can be entered"
        }
        What::Routes => {
            "the inventory is full, it has 10000 routes: join routes, or close one, before a new one is made"
        }
    }
}

/// What is said of a cause that means something else in records of other verbs.
fn of_verb(cause: Cause, verb: Option<Verb>, has_end: bool) -> &'static str {
    match (cause, verb) {
        (Cause::NoRoute, Some(Verb::Join)) => {
            "one of the two routes in columns C and D is not known: mend the name, or put the record that makes the route before this one"
        }
        (Cause::NoRoute, _) => {
            "no route has this name: mend it, or put the record that makes the route before this one"
        }
        (Cause::NoRef, Some(Verb::Unref)) => {
            "no referent has this name: mend it, or leave this record out if the referent is gone"
        }
        (Cause::NoRef, _) if has_end => {
            "a referent in from or to does not stand on this route: mend its name, or put its ref record before this one"
        }
        (Cause::NoRef, _) => {
            "the referent in this position does not stand on this route: mend its name, or put its ref record before this one"
        }
        (Cause::OffRoute, Some(Verb::Realign)) => {
            "this chainage is behind the end of the route: take one up to its length"
        }
        (Cause::OffRoute, _) if has_end => {
            "from or to is not on the route: take positions from its start to its end, with measures from its first mark to its last"
        }
        (Cause::OffRoute, _) => {
            "this position is not on the route: take one from its start to its end, with a measure from its first mark to its last"
        }
        (Cause::Empty, Some(Verb::Retire)) => {
            "the asset has nothing between from and to on this route: mend the positions, or leave this record out if it is retired already"
        }
        (Cause::Empty, Some(Verb::Realign)) => {
            "nothing would change: from has to be before to, or at it if there are pieces in column F"
        }
        (Cause::Empty, _) => {
            "from is not before to: put the one that comes first along the route into from"
        }
        (Cause::TooLong, Some(Verb::Join)) => {
            "the joined route would be longer than 10000000000 mm, or have more than 1000 pieces or 1000 marks: join shorter routes"
        }
        (Cause::TooLong, _) => {
            "the route would be longer than 10000000000 mm or have more than 1000 pieces: make two routes of it"
        }
        (Cause::WrongKind, Some(Verb::Supersede)) => {
            "only an asset of an exclusive class supersedes others, and it has a to: take the verb enter for another class, or put an end into to"
        }
        (Cause::WrongKind, _) if has_end => {
            "the class is one of points, and a point has no end: leave to empty"
        }
        _ => "the class is not one of points: put an end into to",
    }
}

/// What is said of a cause, in a record of this verb, behind the piece, the mark, the asset or the edit that it names.
/// `has_end`: whether the record says where a stretch ends.
pub(crate) fn sentence(cause: Cause, verb: Option<Verb>, has_end: bool) -> &'static str {
    match cause {
        Cause::Malformed(_) => "it cannot be read",
        Cause::KeyUsed(_) => {
            " has this key, and is another command: take a new key, or say the same command as in that edit"
        }
        Cause::TooMany(what) => too_many(what),
        Cause::LinkKnown => {
            "a link has this number already, and links are never changed: take another number, or leave this record out"
        }
        Cause::RouteKnown => {
            "a route has this name already: take another name, or renumber or close that route before this record"
        }
        Cause::ClassKnown => {
            "a class has this name already: take another name, or leave this record out"
        }
        Cause::AssetKnown => {
            "an asset has or had this number, and numbers are not used again: take a new number"
        }
        Cause::RefKnown => {
            "a referent has this name already: take another name, or take that referent away by an unref record before this one"
        }
        Cause::NoLink => {
            "a link of these pieces is not known: mend its number, or put its link record before this one"
        }
        Cause::NoClass => {
            "no class has this name: mend it, or put its class record before this one"
        }
        Cause::NoAsset => {
            "no asset has this number: mend it, or enter the asset before this record"
        }
        Cause::NoMark => {
            "the route has no mark at this chainage, other than its first and last: split it at a mark, or give it one there by recalibrate before this record"
        }
        Cause::BadPiece(_) => {
            " has no length, or ends behind its link: FROM has to be less than TO, and TO at most the length of the link, for + and for -"
        }
        Cause::Taken(_) => {
            " runs over ground that a route, or an earlier piece of this record, has already: cut it, or take the ground from that route before this record"
        }
        Cause::BadMarks(_) => {
            " is not in order: the first mark has chainage 0, the last one the length of the route, and both numbers rise from mark to mark, up to measure 100000000000"
        }
        Cause::Overlap(_) => {
            " of this class lies there, and an exclusive class has one asset at a place: mend from and to, retire that asset there before this record, or take the verb supersede"
        }
        Cause::SameRoute => "a route is not joined to itself: name two routes",
        Cause::MeasureRange => {
            "the measures of the joined route would be above 100000000000: recalibrate one of the two routes before this record"
        }
        Cause::NothingLeft => {
            "nothing would be left of the route: give pieces here, or take the verb close"
        }
        Cause::NoRoute
        | Cause::NoRef
        | Cause::OffRoute
        | Cause::Empty
        | Cause::TooLong
        | Cause::WrongKind => of_verb(cause, verb, has_end),
    }
}
