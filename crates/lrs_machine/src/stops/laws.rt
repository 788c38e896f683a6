//! Laws of runs that stop.

ghost use Rattle.lrs_machine.specs.Stop.Laws.{DeskIsStored, StoredIsFold, AnswersAreOfFold, SentFirstIsUnstopped, AgainWhereKept, AllAgainWhereKept, NoneIsLost, NoneIsDoubled, StoredIsLawful, StopsHaveBothOutcomes, RunsAreThere};
ghost use Rattle.lrs_machine.specs.Stop.Resumptions.{GoingOnIsUnstopped, NewKeysGoOn};

/// The open desk acts on what is stored.
pub fn the_desk_acts_on_what_is_stored()
    ensures { DeskIsStored }
{}

/// What is stored, and so what an opening finds, is the fold over the commands that were answered, in
/// order, with all of the commands in flight, or none of them, at their point.
pub fn what_is_stored_is_a_fold()
    ensures { StoredIsFold }
{}

/// Each answer that was given is the ground machine's after such a fold.
pub fn answers_are_of_the_fold()
    ensures { AnswersAreOfFold }
{}

/// Where those in flight are sent first after the opening, in their order, under their keys, and the rest
/// follows, the state is that of the same commands without a stop, and so is each answer, but for `Again`
/// with the edit's number in place of `Done` where the command had been in flight.
pub fn sent_first_is_as_without_stops()
    ensures { SentFirstIsUnstopped }
{}

/// An opening finds all acknowledged commands, with the one in flight or without it. Sent first under its
/// key, the one in flight is answered `Again` with a number exactly where it was kept as that edit. All
/// else, the answers to the other commands and the state, is as without a stop.
pub fn again_is_answered_where_it_was_kept()
    ensures { AgainWhereKept }
{}

/// So it is with several in flight together: where they were left out, all is as without a stop, and where
/// they were kept, each is answered as before, with `Again` in place of `Done`.
pub fn all_in_flight_are_answered_again_where_they_were_kept()
    ensures { AllAgainWhereKept }
{}

/// A command that was answered as an edit is that edit from then on: sent again, whatever happened
/// since, it is answered `Again` with that number, and changes nothing.
pub fn no_acknowledged_command_is_lost()
    ensures { NoneIsLost }
{}

/// No two edits have one key, however often a command was sent and wherever the run stopped.
pub fn no_command_is_doubled()
    ensures { NoneIsDoubled }
{}

/// Whatever stops, what is stored stays lawful: balanced, no place held by two assets of one exclusive
/// class, its ledgers named.
pub fn what_is_stored_is_lawful()
    ensures { StoredIsLawful }
{}

/// Where some first ones of a list of records were looked at, and nobody knows how many, going on behind the
/// last one that is an edit is as without a stop: state and answers are those of the whole list. The key of
/// that edit has to be of no edit before, and of no other record.
pub fn going_on_is_as_without_stops()
    ensures { GoingOnIsUnstopped }
{}

/// So it is where all keys are new and different from each other.
pub fn new_keys_go_on_as_without_stops()
    ensures { NewKeysGoOn }
{}

/// A run can stop within any command, and within any commands that are sent together, with none of them
/// stored and with all of them.
pub fn stops_have_both_outcomes()
    ensures { StopsHaveBothOutcomes }
{}

/// For any commands there is a run that stops nowhere.
pub fn runs_are_there()
    ensures { RunsAreThere }
{}
