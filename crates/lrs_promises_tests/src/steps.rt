//! The calls of a desk as steps of a run, and the one that says what a command leaves: commands that make classes.

use crate::keeper::{Failing, Failure};
use lrs_desk::{Answer, Command, Desk, Fault, Keeper, Key, Plain};
use lrs_events::{Class, ClassName, Kind};
use lrs_machine::Limits;
use lrs_promises::{act, act_in_memory, act_on_first, close, open, safe};

/// How commands are given to a desk.
#[derive(Clone, Copy)]
enum Way {
    Each,
    Safely,
    Groups,
}

/// The command that a word names under its key, as `k1:SIGN`: a class of points.
fn command_of(word: &str) -> Option<(Key, Command)> {
    let (key, class) = word.split_once(':')?;
    let key = Key::new(key.as_bytes())?;
    let name = ClassName::new(class.as_bytes())?;
    let kind = Kind::Point;
    Some((key, Command::Class(Class { name, kind })))
}

/// What a fault of a command is called.
fn name_of(fault: Fault) -> &'static str {
    match fault {
        Fault::Memory => "Memory",
        Fault::Keep => "Keep",
        Fault::MustReopen => "MustReopen",
    }
}

/// Prints what a command is answered.
fn show(rt: &HostRuntime, answered: Result<Answer, Fault>) -> Option<()> {
    match answered {
        Ok(answer) => println!(rt; "{answer}").ok(),
        Err(fault) => println!(rt; "{}", name_of(fault)).ok(),
    }
}

/// Does each command as a step of a run.
fn do_each<K: Keeper>(rt: &HostRuntime, words: &[String], desk: &mut Desk<K>) -> Option<()> {
    for word in words {
        if let Some(named) = word.as_str().strip_prefix("acts:") {
            let (key, command) = command_of(named)?;
            show(rt, act(desk, key, &command))?;
        }
    }
    Some(())
}

/// Does each command by the call that says what it leaves.
fn do_safely<K: Keeper>(rt: &HostRuntime, words: &[String], desk: &mut Desk<K>) -> Option<()> {
    for word in words {
        if let Some(named) = word.as_str().strip_prefix("acts:") {
            let (key, command) = command_of(named)?;
            show(rt, safe::act(desk, key, &command))?;
        }
    }
    Some(())
}

/// Does each command at a desk whose commits never fail.
fn do_in_memory(rt: &HostRuntime, words: &[String], desk: &mut Desk<Plain>) -> Option<()> {
    for word in words {
        if let Some(named) = word.as_str().strip_prefix("acts:") {
            let (key, command) = command_of(named)?;
            show(rt, act_in_memory(desk, key, &command))?;
        }
    }
    Some(())
}

/// The commands of all words.
fn commands_of(rt: &HostRuntime, words: &[String]) -> Option<Vec<(Key, Command)>> {
    let mut commands = Vec::new(rt.alloc());
    for word in words {
        if let Some(named) = word.as_str().strip_prefix("acts:") {
            let command = command_of(named)?;
            if commands.push(command).is_err() {
                return None;
            }
        }
    }
    Some(commands)
}

/// Prints the answers to the first of some commands, and how many these are.
fn show_answers(rt: &HostRuntime, answers: &[Answer]) -> Option<()> {
    for answer in answers {
        println!(rt; "{answer}").ok()?;
    }
    println!(rt; "{} together", answers.len()).ok()
}

/// Does the first of some commands, and says how many these are: none behind a fault, which is printed.
fn do_first<K: Keeper>(
    rt: &HostRuntime,
    commands: &[(Key, Command)],
    desk: &mut Desk<K>,
) -> Option<usize> {
    if commands.is_empty() {
        return None;
    }
    match act_on_first(desk, commands) {
        Ok(given) => {
            show_answers(rt, given.answers.as_slice())?;
            Some(given.answers.len())
        }
        Err(fault) => {
            println!(rt; "{}", name_of(fault)).ok()?;
            None
        }
    }
}

/// Does all commands in groups, up to a fault.
fn do_groups<K: Keeper>(rt: &HostRuntime, words: &[String], desk: &mut Desk<K>) -> Option<()> {
    let commands = commands_of(rt, words)?;
    let mut done = 0;
    for _turn in 0..commands.len() {
        if done >= commands.len() {
            return Some(());
        }
        let Some(count) = do_first(rt, &commands[done..], desk) else {
            return Some(());
        };
        if count > commands.len() - done {
            return None;
        }
        done += count;
    }
    Some(())
}

/// Opens a desk over a keeper, does what the words say in this way, and closes it.
fn run_steps<K: Keeper>(
    rt: &HostRuntime,
    words: &[String],
    keeper: K,
    way: Way,
) -> (K, Option<()>) {
    match open(keeper, Limits::full(), rt.alloc()) {
        Ok(mut desk) => {
            let done = match way {
                Way::Each => do_each(rt, words, &mut desk),
                Way::Safely => do_safely(rt, words, &mut desk),
                Way::Groups => do_groups(rt, words, &mut desk),
            };
            (close(desk), done)
        }
        Err((_, keeper)) => (keeper, None),
    }
}

/// Over an inventory in memory; and once more over what it keeps then.
fn run_plain(rt: &HostRuntime, words: &[String], way: Way) -> Option<()> {
    let (plain, done) = run_steps(rt, words, Plain::empty(rt.alloc()), way);
    let (plain, again) = run_steps(rt, words, plain, way);
    plain.discard();
    done?;
    again
}

/// Over a keeper whose second commit fails: it keeps the old content.
fn run_failing(rt: &HostRuntime, words: &[String], way: Way) -> Option<()> {
    let keeper = Failing::over(Plain::empty(rt.alloc()), 1, 1, Failure::Old);
    let (keeper, done) = run_steps(rt, words, keeper, way);
    keeper.discard();
    done
}

/// By the call for an inventory in memory alone.
fn run_in_memory(rt: &HostRuntime, words: &[String]) -> Option<()> {
    match open(Plain::empty(rt.alloc()), Limits::full(), rt.alloc()) {
        Ok(mut desk) => {
            let done = do_in_memory(rt, words, &mut desk);
            close(desk).discard();
            done
        }
        Err((_, plain)) => {
            plain.discard();
            None
        }
    }
}

/// The commands of the words in each way, over a keeper in memory and over one that fails.
pub fn run_all(rt: &HostRuntime, words: &[String]) -> Option<()> {
    for way in [Way::Each, Way::Safely, Way::Groups] {
        run_plain(rt, words, way)?;
        run_failing(rt, words, way)?;
    }
    run_in_memory(rt, words)
}
