//! What stands on the line of a job, as `clap` is told of it.

ghost use Rattle.std.specs.Prelude.{◌≡◌, IfOk, false, fold};
ghost use Rattle.clap.specs.Words.{app_of, new_rule, rule_of};
ghost use Rattle.clap.specs.declared.builder.command.Command.TheViews.{out-Command};
ghost use Rattle.lrs_cli_words.specs.Words.{flag, option, several};
ghost use Rattle.lrs_cli_words.specs.Parts.{app_of_line, rule_of_part, with_part};

use clap::{Arg, ArgAction, Command};
use std::alloc::{AllocError, Global};

/// What stands on a line behind the job's name, and what help says of it.
#[derive(Clone, Copy)]
pub(crate) enum LinePart {
    /// A word that has to be there.
    Required(&'static str, &'static str),
    /// The same, and more of its kind may follow it.
    Several(&'static str, &'static str),
    /// Words that may be there, none or more of them.
    Any(&'static str, &'static str),
    /// A word that may be there.
    Optional(&'static str, &'static str),
    /// An option with a value: its name, and what help calls the value.
    Valued(&'static str, &'static str, &'static str),
    /// An option with no value.
    Switch(&'static str, &'static str),
}

/// The line of a job: its name, what help says of it, its example, and its parts.
pub(crate) struct JobLine {
    pub name: &'static str,
    pub about: &'static str,
    pub example: &'static str,
    /// Where there is one, it names the words alone, and help the options too.
    pub usage: Option<&'static str>,
    pub parts: &'static [LinePart],
}

// One word, which has to be there or may be.
fn word<'a>(alloc: Global, id: &'a str, help: &'a str, is_required: bool) -> Arg<'a>
    ensures rule { rule_of result ≡ record (new_rule id.entry.now) { required = is_required } }
    ensures local { result.global ≡ false }
{
    Arg::new(alloc, id).required(is_required).help(help)
}

// One word or more, which have to be there or may be.
fn words<'a>(alloc: Global, id: &'a str, help: &'a str, is_required: bool) -> Arg<'a>
    ensures rule { rule_of result ≡ record (several id.entry.now) { required = is_required } }
    ensures local { result.global ≡ false }
{
    Arg::new(alloc, id)
        .required(is_required)
        .num_args(1..)
        .help(help)
}

fn valued<'a>(alloc: Global, name: &'a str, value: &'a str, help: &'a str) -> Arg<'a>
    ensures rule { rule_of result ≡ option name.entry.now }
    ensures local { result.global ≡ false }
{
    Arg::new(alloc, name)
        .long(name)
        .value_name(value)
        .help(help)
}

fn switch<'a>(alloc: Global, name: &'a str, help: &'a str) -> Arg<'a>
    ensures rule { rule_of result ≡ flag name.entry.now }
    ensures local { result.global ≡ false }
{
    Arg::new(alloc, name)
        .long(name)
        .action(ArgAction::SetTrue)
        .help(help)
}

fn argument<'a>(alloc: Global, part: LinePart) -> Arg<'a>
    ensures rule { rule_of result ≡ rule_of_part part }
    ensures local { result.global ≡ false }
{
    match part {
        LinePart::Required(id, help) => word(alloc, id, help, true),
        LinePart::Several(id, help) => words(alloc, id, help, true),
        LinePart::Any(id, help) => words(alloc, id, help, false),
        LinePart::Optional(id, help) => word(alloc, id, help, false),
        LinePart::Valued(name, value, help) => valued(alloc, name, value, help),
        LinePart::Switch(name, help) => switch(alloc, name, help),
    }
}

/// A line with one more part.
fn with_part<'a>(
    alloc: Global,
    line: Command<'a>,
    part: LinePart,
) -> Result<Command<'a>, AllocError>
    requires { (out-Command line).has_globals ≡ false }
    ensures app { IfOk result (λ c. app_of c ≡ with_part (app_of line.entry) part) }
    ensures local { IfOk result (λ c. (out-Command c).has_globals ≡ false) }
{
    line.arg(argument(alloc, part))
}

/// A line with these parts behind what it has.
fn with_parts<'a>(
    alloc: Global,
    line: Command<'a>,
    parts: &[LinePart],
) -> Result<Command<'a>, AllocError>
    requires { (out-Command line).has_globals ≡ false }
    ensures app { IfOk result (λ c. app_of c ≡ fold with_part (app_of line.entry) parts.now) }
    ensures local { IfOk result (λ c. (out-Command c).has_globals ≡ false) }
{
    let mut line = line;
    for part in parts {
        line = with_part(alloc, line, *part)?;
    }
    Ok(line)
}

/// The line as `clap` takes it.
pub(crate) fn line_of<'a>(alloc: Global, line: &JobLine) -> Result<Command<'a>, AllocError>
    ensures app { IfOk result (λ c. app_of c ≡ app_of_line line.now) }
    ensures local { IfOk result (λ c. (out-Command c).has_globals ≡ false) }
{
    let command = Command::new(alloc, line.name)
        .about(line.about)
        .after_help(line.example);
    match line.usage {
        Some(usage) => with_parts(alloc, command.override_usage(usage), line.parts),
        None => with_parts(alloc, command, line.parts),
    }
}
