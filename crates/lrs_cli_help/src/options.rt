//! The options that go with every job, and the words without them.

ghost use Rattle.std.specs.Prelude.{◌≡◌, IfOk, OnOk, fold, option_map};
ghost use Rattle.std.specs.List.{list_all, list_any};
ghost use Rattle.std.specs.Option.{SomeIff};
ghost use Rattle.lrs_cli_help.specs.Options as spec;
ghost use Rattle.lrs_cli_help.specs.Options.{AreExpected, IsIdentity, existing, explain, is_digit, is_job_word, is_option};
ghost use Rattle.lrs_cli_help.specs.GivenWords.{reading_of};

use lrs_measure::read_digits;
use std::alloc::{AllocError, Global};

/// How many seconds are waited where nothing is said, and how many at the most.
const USUAL_WAIT: u64 = 5;

const LONGEST_WAIT: u64 = 3_600;

/// The options that go with every job.
#[derive(Clone, Copy)]
pub struct Options {
    /// An inventory that is not there is a fault, and is not made.
    pub existing: bool,
    /// Of a fault it is said what was found and what to do.
    pub explain: bool,
    /// So many seconds a file is waited for that another program has.
    pub wait: u64,
    /// The inventory has this identity, or nothing is done.
    pub expected: Option<[u8; 16]>,
}

impl Options {
    /// Whether an inventory that is not there is a fault: a new one has no identity.
    pub fn has_to_be(&self) -> bool {
        self.existing || self.expected.is_some()
    }
}

/// What the next word is: one of the job, or what an option is given.
#[derive(Clone, Copy)]
pub enum NextWord {
    OfJob,
    Wait,
    Expect,
}

/// The words of a job, and what `--wait` and `--expect` are given among them.
#[derive(Drop)]
pub struct GivenWords<'a> {
    pub words: Vec<&'a str>,
    pub wait: Option<&'a [u8]>,
    pub expected: Option<&'a [u8]>,
    pub next: NextWord,
}

fn is_option(option: &str, word: &str) -> bool
    ensures { result ≡ is_option option.now word.now }
{
    word == option
}

/// Whether an option that is given nothing stands among these words.
fn has_word(option: &str, words: &[&str]) -> bool
    ensures { result ≡ list_any (λ w. is_option option.now w.now) words.now }
{
    words.iter().any(|word| is_option(option, word))
}

/// Which of the options stand among these words, with these for how long is waited and what is expected.
pub fn options_of(words: &[&str], wait: u64, expected: Option<[u8; 16]>) -> Options
    ensures existing { result.existing ≡ list_any (λ w. is_option existing w.now) words.now }
    ensures explain { result.explain ≡ list_any (λ w. is_option explain w.now) words.now }
    ensures waits { result.wait ≡ wait }
    ensures expects { result.expected ≡ expected }
{
    Options {
        existing: has_word("--existing", words),
        explain: has_word("--explain", words),
        wait,
        expected,
    }
}

fn is_job_word(word: &str) -> bool
    ensures { result ≡ is_job_word word.now }
{
    !is_option("--existing", word) && !is_option("--explain", word)
}

impl<'a> GivenWords<'a> {
    ghost use Rattle.lrs_cli_help.specs.GivenWords.{reading_of};

    // Reads one word more that no option waits for.
    fn read_next(&mut self, word: &'a str) -> Result<(), AllocError>
        ensures { OnOk result (reading_of self.new
            ≡ spec.read_next (reading_of self.old) word.now) }
    {
        if is_option("--wait", word) {
            self.wait = Some(b"".as_slice());
            self.next = NextWord::Wait;
        } else if is_option("--expect", word) {
            self.expected = Some(b"".as_slice());
            self.next = NextWord::Expect;
        } else if let Some(given) = word.as_bytes().strip_prefix(b"--wait=") {
            self.wait = Some(given);
        } else if let Some(given) = word.as_bytes().strip_prefix(b"--expect=") {
            self.expected = Some(given);
        } else if is_job_word(word) {
            self.words.push(word)?;
        }
        Ok(())
    }

    // Reads one word more.
    fn read(&mut self, word: &'a str) -> Result<(), AllocError>
        ensures { OnOk result (reading_of self.new
            ≡ spec.read_word (reading_of self.old) word.now) }
    {
        match self.next {
            NextWord::OfJob => self.read_next(word),
            NextWord::Wait => {
                self.wait = Some(word.as_bytes());
                self.next = NextWord::OfJob;
                Ok(())
            }
            NextWord::Expect => {
                self.expected = Some(word.as_bytes());
                self.next = NextWord::OfJob;
                Ok(())
            }
        }
    }
}

/// Reads the words of a job among these: all but the options that go with every job.
///
/// # Errors
/// When memory runs out.
pub fn read_words<'a>(alloc: Global, given: &[&'a str]) -> Result<GivenWords<'a>, AllocError>
    ensures { IfOk result (λ w. reading_of w
        ≡ fold (λ r word. spec.read_word r word.now) spec.unread given.now) }
{
    let mut words = GivenWords {
        words: Vec::new(alloc),
        wait: None,
        expected: None,
        next: NextWord::OfJob,
    };
    for &word in given {
        words.read(word)?;
    }
    Ok(words)
}

/// How many seconds a job waits, by what `--wait` is given; none where that is no such number.
pub fn wait_of(given: Option<&[u8]>) -> Option<u64>
    ensures { spec.IsWait (option_map (λ text. text.now) given.entry) result }
{
    match given {
        Some(text) => read_digits(text, LONGEST_WAIT),
        None => Some(USUAL_WAIT),
    }
}

fn is_digit(byte: u8) -> bool
    ensures { result ≡ is_digit byte }
{
    matches!(byte, b'0'..=b'9' | b'a'..=b'f')
}

fn has_digits(text: &[u8]) -> bool
    ensures { result ≡ list_all is_digit text.now }
{
    text.iter().all(|byte| is_digit(*byte))
}

/// The identity that a text is; none where it is no identity.
fn identity_in(text: &[u8]) -> Option<[u8; 16]>
    ensures { SomeIff result (IsIdentity text.now) text.now }
{
    if text.len() != 16 || !has_digits(text) {
        return None;
    }
    let mut digits = [b'0'; 16];
    digits.copy_from_slice(text);
    Some(digits)
}

/// Which identity a job expects, by what `--expect` is given: any where nothing is; none where that is no identity.
pub fn expected_of(given: Option<&[u8]>) -> Option<Option<[u8; 16]>>
    ensures { AreExpected (option_map (λ text. text.now) given.entry) result }
{
    match given {
        Some(text) => Some(Some(identity_in(text)?)),
        None => Some(None),
    }
}
