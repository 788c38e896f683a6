//! The program: its words, what it does for them, and how it ends.

use crate::explanation::explain;
use crate::jobs::do_job;
use crate::output::Output;
use crate::question::hint_at_columns;
use lrs_cli_help::{
    GivenWords, Options, expected_of, hint_at, is_error_read, is_reader_gone, options_of,
    read_words, verb_help, wait_of,
};
use lrs_cli_sheets::{ProgressDisplay, Sheets, World};
use lrs_cli_tasks::{Ending, ProgramFault, status};
use lrs_cli_words::{Job, WordsFault, job_of};
use lrs_desk::Files;
use std::alloc::AllocError;
use std::cell::Cell;
use std::env;
use std::io::{ErrorKind, IsTerminal};
use std::process::ExitCode;
use std::rt::HostRuntime;

// Whether the status alone tells of a fault: where the reader of the program's output has gone, as `head` goes.
fn is_quiet(rt: &HostRuntime, fault: ProgramFault) -> bool {
    fault == ProgramFault::Write && is_reader_gone(rt)
}

// Whether a fault is explained: where that is asked for, and where standard error is a terminal.
fn is_explained(
    rt: &HostRuntime,
    shown: ProgressDisplay,
    options: Options,
    fault: ProgramFault,
) -> bool {
    let is_wanted = options.explain || shown != ProgressDisplay::Nowhere;
    is_wanted && !is_quiet(rt, fault) && is_error_read(rt)
}

// Does a job, and prints its answers. Says what was given for a word that cannot be read, and explains the fault that
// stops it.
fn do_explained<F: Files, G: Files, S: Sheets>(
    world: &World<'_, HostRuntime, S>,
    files: &mut F,
    other: &mut G,
    job: &Job<'_>,
    options: Options,
) -> Ending {
    let rt = world.rt;
    let failure = Cell::new(None);
    let output = Output::new(rt, &failure);
    let ending = match do_job(world, files, other, job, options, output) {
        Ok((_, ending)) => ending,
        Err(fault) => Ending::Stopped(fault),
    };
    match ending {
        Ending::Unreadable(word) if is_error_read(rt) => {
            hint_at(rt, job, word);
            hint_at_columns(rt, job, word);
        }
        Ending::Stopped(fault) if is_explained(rt, world.shown, options, fault) => {
            explain(rt, job, options, fault, failure.get());
        }
        _ => {}
    }
    ending
}

fn show(rt: &HostRuntime, text: String) -> Ending {
    match rt.print(text) {
        Ok(()) => Ending::Done,
        Err(_) => Ending::Stopped(ProgramFault::Write),
    }
}

fn show_text(rt: &HostRuntime, text: &str) -> Ending {
    match rt.print(text) {
        Ok(()) => Ending::Done,
        Err(_) => Ending::Stopped(ProgramFault::Write),
    }
}

// The help on a verb, where the words ask for it: `help` and its name.
fn help_on_verb(words: &[&str]) -> Option<&'static str> {
    if words.len() == 2 && words[0] == "help" {
        verb_help(words[1])
    } else {
        None
    }
}

// Says why the words are no job. Where the standard error takes nothing, the status alone says it.
fn answer_words(rt: &HostRuntime, fault: WordsFault) -> Ending {
    match fault {
        WordsFault::Memory => Ending::Stopped(ProgramFault::Memory),
        WordsFault::Help(text) => show(rt, text),
        WordsFault::Version(text) => show(rt, text),
        WordsFault::Usage(text) => {
            if is_error_read(rt) {
                let _ = rt.eprint(text.as_str());
            }
            Ending::Misused
        }
    }
}

// Does the job that the words say; or shows the help on a verb.
fn do_given<F: Files, G: Files, S: Sheets>(
    world: &World<'_, HostRuntime, S>,
    files: &mut F,
    other: &mut G,
    words: &[&str],
    options: Options,
) -> Ending {
    let rt = world.rt;
    if let Some(text) = help_on_verb(words) {
        return show_text(rt, text);
    }
    match job_of(rt.alloc(), words) {
        Ok(job) => do_explained(world, files, other, &job, options),
        Err(fault) => answer_words(rt, fault),
    }
}

// Says that what an option is given is not what it wants.
fn refuse_given(rt: &HostRuntime, option: &str, given: Option<&[u8]>, wanted: &str) -> Ending {
    let text = str::from_utf8(given.unwrap_or(b"".as_slice())).unwrap_or("");
    let _ = eprintln!(rt; "error: invalid value '{text}' for '{option}': no {wanted}");
    let _ = eprintln!(rt; "\nFor more information, try '--help'.");
    Ending::Misused
}

fn refuse_wait(rt: &HostRuntime, given: Option<&[u8]>) -> Ending {
    refuse_given(rt, "--wait <SECONDS>", given, "whole number from 0 to 3600")
}

fn refuse_expected(rt: &HostRuntime, given: Option<&[u8]>) -> Ending {
    refuse_given(
        rt,
        "--expect <ID>",
        given,
        "identity, which is 16 of 0-9 and a-f",
    )
}

// Does what words say of which the job's and its options are told apart. What may end the program only borrows the words,
// here and below, so that there is one place where they are dropped.
fn do_read<F: Files, G: Files, S: Sheets>(
    world: &World<'_, HostRuntime, S>,
    files: &mut F,
    other: &mut G,
    words: &[&str],
    read: &GivenWords<'_>,
) -> Ending {
    let Some(wait) = wait_of(read.wait) else {
        return refuse_wait(world.rt, read.wait);
    };
    let Some(expected) = expected_of(read.expected) else {
        return refuse_expected(world.rt, read.expected);
    };
    let options = options_of(words, wait, expected);
    do_given(world, files, other, read.words.as_slice(), options)
}

fn do_words<F: Files, G: Files, S: Sheets>(
    world: &World<'_, HostRuntime, S>,
    files: &mut F,
    other: &mut G,
    words: &[&str],
) -> Ending {
    match read_words(world.rt.alloc(), words) {
        Ok(read) => do_read(world, files, other, words, &read),
        Err(AllocError) => Ending::Stopped(ProgramFault::Memory),
    }
}

// The words behind the name of the program.
fn push_words<'a>(words: &mut Vec<&'a str>, given: &'a [String]) -> Result<(), AllocError> {
    for word in given.iter().skip(1) {
        words.push(word.as_str())?;
    }
    Ok(())
}

fn do_texts<F: Files, G: Files, S: Sheets>(
    world: &World<'_, HostRuntime, S>,
    files: &mut F,
    other: &mut G,
    given: &[String],
) -> Ending {
    let mut words = Vec::new(world.rt.alloc());
    match push_words(&mut words, given) {
        Ok(()) => do_words(world, files, other, words.as_slice()),
        Err(AllocError) => Ending::Stopped(ProgramFault::Memory),
    }
}

// The words that the program was started with, or how it ends where they cannot be had.
fn words_given(rt: &HostRuntime) -> Result<Vec<String>, Ending> {
    let given = match env::args(rt) {
        Ok(given) => given,
        Err(error) if error.kind() == ErrorKind::OutOfMemory => {
            return Err(Ending::Stopped(ProgramFault::Memory));
        }
        Err(_) => {
            let _ = rt.eprintln("error: a word is not UTF-8");
            return Err(Ending::Misused);
        }
    };
    match given.collect::<Vec<String>>(rt.alloc()) {
        Ok(given) => Ok(given),
        Err(_) => Err(Ending::Stopped(ProgramFault::Memory)),
    }
}

fn do_started<F: Files, G: Files, S: Sheets>(
    world: &World<'_, HostRuntime, S>,
    files: &mut F,
    other: &mut G,
) -> Ending {
    match words_given(world.rt) {
        Ok(given) => do_texts(world, files, other, given.as_slice()),
        Err(ending) => ending,
    }
}

// Says how the program ends, where somebody reads it.
fn tell_ending(rt: &HostRuntime, ending: Ending) {
    match ending {
        Ending::Done | Ending::RecordsRefused | Ending::Misused => {}
        Ending::Stopped(fault) if is_quiet(rt, fault) => {}
        _ => {
            if is_error_read(rt) {
                let _ = eprint!(rt; "{ending}");
            }
        }
    }
}

/// Does what the words of the program say, over what opens its files, the second one's by `other`, and gives its sheets;
/// and gives its status.
pub fn run<F: Files, G: Files, S: Sheets>(
    rt: &HostRuntime,
    mut files: F,
    mut other: G,
    sheets: &S,
) -> ExitCode {
    let shown = match (rt.stderr().is_terminal(), rt.stdout().is_terminal()) {
        (false, _) => ProgressDisplay::Nowhere,
        (true, false) => ProgressDisplay::Alone,
        (true, true) => ProgressDisplay::BetweenLines,
    };
    let world = World { rt, sheets, shown };
    let ending = do_started(&world, &mut files, &mut other);
    tell_ending(rt, ending);
    ExitCode::from(status(ending))
}
