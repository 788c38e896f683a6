//! The words and options that were given to a job, each by its id.

ghost use Rattle.std.specs.Prelude.{◌≡◌, ◌↔◌, IsTrue, IfOk, IfSome, IfNone, Some, None, [], is_some, map, true, unwrap_or};
ghost use Rattle.clap.specs.Words.{all_of, first_of, found_of, rows_of};
ghost use Rattle.lrs_cli_words.specs.Words.{IsSet};

use clap::ArgMatches;
use std::alloc::{AllocError, Global};

/// The word that was given for this id.
pub(crate) fn word_in<'a>(given: &ArgMatches<'a>, id: &str) -> Option<&'a str>
    ensures none { IfNone result (first_of id.now (rows_of (found_of given.now)) ≡ None) }
    ensures some { IfSome result (λ word. first_of id.now (rows_of (found_of given.now))
        ≡ Some word.now) }
{
    given.get_str(id)
}

/// All words that were given for this id.
fn words_in<'g, 'a>(given: &'g ArgMatches<'a>, id: &str) -> Option<&'g [&'a str]>
    ensures none { IfNone result (first_of id.now (rows_of (found_of given.now)) ≡ None) }
    ensures none_at_all { IfNone result (all_of id.now (rows_of (found_of given.now)) ≡ None) }
    ensures some { IfSome result (λ words. all_of id.now (rows_of (found_of given.now))
        ≡ Some (map (λ w. w.now) words.now)) }
{
    given.get_strs(id)
}

/// The word of this id, where one was given.
pub(crate) fn given_word<'a>(given: &ArgMatches<'a>, id: &str) -> &'a str
    requires { is_some (first_of id.now (rows_of (found_of given.now))) ≡ true }
    ensures { first_of id.now (rows_of (found_of given.now)) ≡ Some result.now }
{
    match word_in(given, id) {
        Some(word) => word,
        None => unreachable!(),
    }
}

/// All words of this id, where one was given.
pub(crate) fn given_words<'g, 'a>(given: &'g ArgMatches<'a>, id: &str) -> &'g [&'a str]
    requires { is_some (first_of id.now (rows_of (found_of given.now))) ≡ true }
    ensures { all_of id.now (rows_of (found_of given.now)) ≡ Some (map (λ w. w.now) result.now) }
{
    match words_in(given, id) {
        Some(words) => words,
        None => unreachable!(),
    }
}

/// The option of this id was given.
pub(crate) fn is_set(given: &ArgMatches<'_>, id: &str) -> bool
    ensures { IsTrue result ↔ IsSet id.now (rows_of (found_of given.now)) }
{
    match word_in(given, id) {
        Some(word) => word == "true",
        None => false,
    }
}

/// A copy of the words that were given for this id: of none where it was not given.
pub(crate) fn copied_words<'a>(
    alloc: Global,
    given: &ArgMatches<'a>,
    id: &str,
) -> Result<Vec<&'a str>, AllocError>
    ensures { IfOk result (λ words. unwrap_or (all_of id.now (rows_of (found_of given.now))) []
        ≡ map (λ w. w.now) words.items) }
{
    let mut words = Vec::new(alloc);
    if let Some(named) = words_in(given, id) {
        words.extend_from_slice(named)?;
    }
    Ok(words)
}
