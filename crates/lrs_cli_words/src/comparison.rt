//! Which two inventories a difference is of.

ghost use Rattle.std.specs.Prelude.{◌≡◌, ◌∷◌, ◌++◌, IfErr, IfNone, IfOk, IfSome, IsSomeAnd, List, None, Some, map, option_map};
ghost use Rattle.clap.specs.Words.{Text};
ghost use Rattle.lrs_cli_words.specs.declared.comparison.Compared.{Compared as DeclaredCompared};
ghost use Rattle.lrs_cli_words.specs.declared.comparison.Source.{Source as DeclaredSource};
ghost use Rattle.lrs_cli_words.specs.Questions.{CannotCompare, IsSource, SaysCompared, source_words};

use crate::lists::edit_of;
use crate::question::{BadWord, QuestionFault};

/// Where an inventory is found.
#[derive(Clone, Copy)]
pub enum Source<'a> {
    /// In this file, or fresh in memory where it is `:memory:`.
    Inventory(&'a str),
    /// It is what the log in this file makes.
    Log(&'a str),
}

/// What is compared.
#[derive(Clone, Copy)]
pub enum Compared<'a> {
    Inventories {
        before: Source<'a>,
        after: Source<'a>,
    },
    /// An inventory before the edit of this number, and now.
    Since {
        edit: u64,
    },
}

// The source at the front of these words, which are `first` and `others`, and the words behind it.
fn front_source<'a, 'w>(
    first: &'a str,
    others: &'w [&'a str],
) -> Option<(Source<'a>, &'w [&'a str])>
    ensures found { IfSome result (λ found. (first.now ∷ map (λ w. w.now) others.now
        ≡ source_words found.0 ++ map (λ w. w.now) found.1.now) × IsSource found.0) }
    ensures only { (source : DeclaredSource) → (behind : List Text)
        → first.now ∷ map (λ w. w.now) others.now ≡ source_words source ++ behind → IsSource source
        → IsSomeAnd result (λ found. map (λ w. w.now) found.1.now ≡ behind) }
{
    if first != ":log" {
        return Some((Source::Inventory(first), others));
    }
    match others.split_first() {
        Some((file, behind)) => Some((Source::Log(file), behind)),
        None => None,
    }
}

// The source that all these words say.
fn whole_source<'a>(words: &[&'a str]) -> Option<Source<'a>>
    ensures found { IfSome result (λ source. (map (λ w. w.now) words.now ≡ source_words source)
        × IsSource source) }
    ensures none { IfNone result ((source : DeclaredSource)
        → map (λ w. w.now) words.now ≡ source_words source → IsSource source → ⊥) }
{
    let (first, others) = words.split_first()?;
    let (source, behind) = front_source(first, others)?;
    if behind.is_empty() {
        Some(source)
    } else {
        None
    }
}

// The two inventories that these words say, one behind the other.
fn inventories_in<'a>(db: &'a str, others: &[&'a str]) -> Option<Compared<'a>>
    ensures found { IfSome result (SaysCompared (db.now ∷ map (λ w. w.now) others.now) None) }
    ensures none { IfNone result ((compared : DeclaredCompared)
        → SaysCompared (db.now ∷ map (λ w. w.now) others.now) None compared → ⊥) }
{
    let (before, behind) = front_source(db, others)?;
    let after = whole_source(behind)?;
    Some(Compared::Inventories { before, after })
}

// The edit since which the inventory of the words changed; no other one may be named beside it.
fn since_of<'a>(db: &'a str, others: &[&'a str], since: &str) -> Result<Compared<'a>, QuestionFault>
    ensures compared { IfOk result (SaysCompared (db.now ∷ map (λ w. w.now) others.now)
        (Some since.now)) }
    ensures fault { IfErr result (CannotCompare (db.now ∷ map (λ w. w.now) others.now)
        (Some since.now)) }
{
    if !others.is_empty() {
        return Err(QuestionFault::Unreadable(BadWord::Compared));
    }
    let edit = edit_of(since, BadWord::Since)?;
    Ok(Compared::Since { edit })
}

/// What the words of `diff` compare: the inventory `db`, the words behind it, and the edit that may be given.
///
/// # Errors
/// `Compared` where they are neither two inventories nor one and an edit, and `Since` where that is no number of one.
pub fn compared_of<'a>(
    db: &'a str,
    others: &[&'a str],
    since: Option<&str>,
) -> Result<Compared<'a>, QuestionFault>
    ensures compared { IfOk result (SaysCompared (db.now ∷ map (λ w. w.now) others.now)
        (option_map (λ w. w.now) since.entry)) }
    ensures fault { IfErr result (CannotCompare (db.now ∷ map (λ w. w.now) others.now)
        (option_map (λ w. w.now) since.entry)) }
{
    match since {
        Some(since) => since_of(db, others, since),
        None => match inventories_in(db, others) {
            Some(compared) => Ok(compared),
            None => Err(QuestionFault::Unreadable(BadWord::Compared)),
        },
    }
}
