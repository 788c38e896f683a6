//! The verbs of edit sheets, and which one a record has.

ghost use Rattle.std.specs.Prelude.{◌≡◌, ◌≤◌, IfNone, IfSome, length};
ghost use Rattle.lrs_sheet_records.specs.Kinds.{edit_fields};
ghost use Rattle.lrs_sheet_records.specs.Fields.{ReadsArguments, ReadsCommand};
ghost use Rattle.lrs_sheet_records.specs.Verbs.{IsVerb, row_of};

use crate::arguments::{
    class_of, link_of, new_asset_of, one_route, realign_of, recalibrate_of, ref_of, retire_of,
    route_of, split_of, two_routes, unref_of,
};
use crate::fault::ReadFault;
use crate::sheet::{SheetRecord, text_at};
use lrs_machine::{Command, Field};
use std::alloc::Global;

/// What a record of an edit sheet does. A record of a survey enters an asset.
#[derive(Clone, Copy, PartialEq, Eq)]
pub enum Verb {
    Link,
    Class,
    Route,
    Ref,
    Unref,
    Enter,
    Retire,
    Split,
    Join,
    Renumber,
    Recalibrate,
    Realign,
    Close,
    Supersede,
    Turn,
}

/// The verb of this name.
pub fn read_verb(text: &[u8]) -> Option<Verb>
    ensures known { IfSome result (λ verb. text.now ≡ (row_of verb).name) }
    ensures unknown { IfNone result (IsVerb text.now → ⊥) }
{
    match text {
        b"link" => Some(Verb::Link),
        b"class" => Some(Verb::Class),
        b"route" => Some(Verb::Route),
        b"ref" => Some(Verb::Ref),
        b"unref" => Some(Verb::Unref),
        b"enter" => Some(Verb::Enter),
        b"retire" => Some(Verb::Retire),
        b"split" => Some(Verb::Split),
        b"join" => Some(Verb::Join),
        b"renumber" => Some(Verb::Renumber),
        b"recalibrate" => Some(Verb::Recalibrate),
        b"realign" => Some(Verb::Realign),
        b"close" => Some(Verb::Close),
        b"supersede" => Some(Verb::Supersede),
        b"turn" => Some(Verb::Turn),
        _ => None,
    }
}

/// The command that the fields of a verb say.
fn command_of_verb(alloc: Global, row: &SheetRecord<'_>, verb: Verb) -> Result<Command, ReadFault>
    requires { length (edit_fields row.now) ≤ 11 }
    ensures { ReadsArguments (edit_fields row.now) (row_of verb).name result }
{
    match verb {
        Verb::Link => link_of(row),
        Verb::Class => class_of(row),
        Verb::Route => route_of(alloc, row),
        Verb::Ref => ref_of(row),
        Verb::Unref => unref_of(row),
        Verb::Enter => Ok(Command::Enter(new_asset_of(row)?)),
        Verb::Retire => retire_of(row),
        Verb::Split => split_of(row),
        Verb::Join => {
            let (first, second) = two_routes(row)?;
            Ok(Command::Join { first, second })
        }
        Verb::Renumber => {
            let (route, name) = two_routes(row)?;
            Ok(Command::Renumber { route, name })
        }
        Verb::Recalibrate => recalibrate_of(alloc, row),
        Verb::Realign => realign_of(alloc, row),
        Verb::Close => Ok(Command::Close {
            route: one_route(row)?,
        }),
        Verb::Supersede => Ok(Command::Supersede(new_asset_of(row)?)),
        Verb::Turn => Ok(Command::Turn {
            route: one_route(row)?,
        }),
    }
}

/// The command that the fields after the key say.
pub(crate) fn command_by_verb(alloc: Global, row: &SheetRecord<'_>) -> Result<Command, ReadFault>
    requires { length (edit_fields row.now) ≤ 11 }
    ensures { ReadsCommand (edit_fields row.now) result }
{
    match read_verb(text_at(row, 1)) {
        Some(verb) => command_of_verb(alloc, row, verb),
        None => Err(ReadFault::Field(Field::Verb)),
    }
}
