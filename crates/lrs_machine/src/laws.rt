//! Laws of the ground machine, over all states and lists of commands.

ghost use Rattle.std.specs.Prelude.{IsTrue};
ghost use Rattle.lrs_machine.specs.Laws.{StepKeepsLaws, RunsAreLawful, LawfulAddsUp, LawfulCountsAll, SoundIsLawful, ActsOnce, OnlyDoneChanges, NothingBetween, RouteEditsKeep, EmptyIsSound, LinesTellCommandsApart};
ghost use Rattle.lrs_machine.specs.WellFormedCommands.{IsWellFormed, IsPosition, IsLocation, IsNewAsset, IsEnd, ArePieces};

use crate::command::{Command, NewAsset};
use crate::operands::PieceList;
use lrs_position::{EnteredPosition, EventLocation, Expr};

/// Every step keeps a lawful state lawful: each ledger pair once, held what was entered and is not
/// gone, no place held by two assets of one exclusive class, each asset entered by the one edit that it names,
/// routes and entered places on known links.
pub fn every_step_keeps_the_laws()
    ensures { StepKeepsLaws }
{}

/// So after every list of commands, from the empty inventory, the state is lawful.
pub fn every_run_is_lawful()
    ensures { RunsAreLawful }
{}

/// For each class, what is present is what was entered less what was retired and abandoned.
pub fn totals_add_up()
    ensures { LawfulAddsUp }
{}

/// Totals count all members: in a lawful state each pair of asset and place that is held, entered or gone
/// is of one asset, one place and one edit of those that totals look at.
pub fn totals_count_all()
    ensures { LawfulCountsAll }
{}

/// The state after a list of commands is the state after the list without every later command whose
/// key was accepted before.
pub fn repeated_key_acts_once()
    ensures { ActsOnce }
{}

/// Split, join, renumber, recalibrate and turn leave what every asset holds, and the ledgers.
pub fn route_edits_keep()
    ensures { RouteEditsKeep }
{}

/// Only an accepted command changes the state.
pub fn only_done_changes()
    ensures { OnlyDoneChanges }
{}

/// Between two chainages of a course there is no entry exactly where they are not in order.
pub fn nothing_between_unordered_ends()
    ensures { NothingBetween }
{}

/// A sound image stands for a lawful state: balanced, exclusive, its ledgers named, and its ground known.
pub fn sound_images_are_lawful()
    ensures { SoundIsLawful }
{}

/// The image without entries is sound, and stands for the empty state.
pub fn empty_image_is_sound()
    ensures { EmptyIsSound }
{}

/// Equal canonical lines come only of equal commands.
pub fn lines_tell_commands_apart()
    ensures { LinesTellCommandsApart }
{}

fn position(at: EnteredPosition)
    ensures { IsPosition at }
{
    if let Expr::Rel(name, _) = at.expression() {
        name.bytes();
    }
}

fn end(at: Option<EnteredPosition>)
    ensures { IsEnd at }
{
    match at {
        None => {}
        Some(at) => position(at),
    }
}

fn location(location: EventLocation)
    ensures { IsLocation location }
{
    position(location.from());
    end(location.to());
}

fn some_pieces(pieces: &Option<PieceList>)
    ensures { ArePieces pieces.now }
{
    match pieces {
        None => {}
        Some(pieces) => {
            pieces.as_slice();
        }
    }
}

fn new_asset(asked: &NewAsset)
    ensures { IsNewAsset asked.now }
{
    asked.asset.get();
    asked.class.bytes();
    asked.route.bytes();
    location(asked.location);
    asked.value.bytes();
    asked.offset.get();
}

/// Every command that a program can make is well formed: its names, numbers, lists and positions are in
/// the limits of their texts. So the law that equal lines come only of equal commands speaks of all of
/// them.
pub fn every_command_is_well_formed(command: &Command)
    ensures { IsWellFormed command.now }
{
    match command {
        Command::Link(_) => {}
        Command::Class(class) => {
            class.name.bytes();
        }
        Command::Route {
            name,
            pieces,
            marks,
        } => {
            name.bytes();
            pieces.as_slice();
            marks.as_slice();
        }
        Command::Ref { name, route, at } => {
            name.bytes();
            route.bytes();
            position(*at);
        }
        Command::Unref { name } => {
            name.bytes();
        }
        Command::Enter(fields) => new_asset(fields),
        Command::Retire {
            asset,
            route,
            location: ends,
        } => {
            asset.get();
            route.bytes();
            location(*ends);
        }
        Command::Split { route, at, name } => {
            route.bytes();
            at.get();
            name.bytes();
        }
        Command::Join { first, second } => {
            first.bytes();
            second.bytes();
        }
        Command::Renumber { route, name } => {
            route.bytes();
            name.bytes();
        }
        Command::Recalibrate { route, marks } => {
            route.bytes();
            marks.as_slice();
        }
        Command::Realign {
            route,
            from,
            to,
            pieces,
            marks,
        } => {
            route.bytes();
            from.get();
            to.get();
            some_pieces(pieces);
            marks.as_slice();
        }
        Command::Close { route } => {
            route.bytes();
        }
        Command::Supersede(fields) => new_asset(fields),
        Command::Turn { route } => {
            route.bytes();
        }
    }
}
