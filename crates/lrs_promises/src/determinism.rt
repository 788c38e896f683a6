//! Equal bytes and equal states give equal bytes and equal states.

ghost use Rattle.lrs_promises.specs.Determinism.{
  AllOrNoneIsAsTried,
  CallsEndAlike,
  InventoriesAreOne,
  QuestionSheetsEndAlike,
  QuestionsEndAlike,
  ResumedEndAlike,
  SheetsEndAlike,
};

use lrs_desk::Keeper;

/// The bytes of a sheet and the state before it determine how it ends, the bytes that are written and the state after it,
/// however many records are done together.
pub fn a_sheet_determines_its_end()
    ensures { SheetsEndAlike }
{}

/// So do those of a sheet that goes on behind its last record that is an edit.
pub fn a_resumed_sheet_determines_its_end()
    ensures { ResumedEndAlike }
{}

/// A sheet that is done over HTTP as a whole or not at all is answered as its trial foretells, and makes the state that the
/// trial makes, at a desk whose inventory may hold as much as one may hold at all; where something of it is refused or at
/// fault, nothing changes.
pub fn a_sheet_is_done_as_it_was_tried<K: Keeper>()
    ensures { AllOrNoneIsAsTried K.may_hold }
{}

/// The bytes of a sheet of questions and the inventory, but for the rows of its ledgers, determine how it ends, and the
/// bytes that are written; where a history is asked for, its ledgers do so too.
pub fn a_sheet_of_questions_determines_its_answers()
    ensures { QuestionSheetsEndAlike }
{}

/// The state determines the inventory, but for the rows of its ledgers.
pub fn a_state_determines_its_inventory()
    ensures { InventoriesAreOne }
{}

/// The bytes of calls, and the state before them, determine the bytes that they write and the state after them, over any
/// keepers: of sheets and surveys that end whole or are broken off for a fault of their own, and of requests for anything
/// but what is gone and histories, also in sheets of questions, which are listed by the rows of the ledgers, and but for
/// sheets that are tried or drafted, since no definition tells the advice of a trial, or why there is no draft.
pub fn calls_determine_their_replies<K: Keeper, J: Keeper>()
    ensures { CallsEndAlike K.may_hold J.may_hold }
{}

/// The bytes of questions, and the image, determine the bytes that are answered, over any keepers: of all requests but
/// those that post an edit sheet or a survey, to be done or tried, or by which a sheet is drafted.
pub fn questions_determine_their_answers<K: Keeper, J: Keeper>()
    ensures { QuestionsEndAlike K.may_hold J.may_hold }
{}
