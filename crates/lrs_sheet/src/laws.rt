//! The laws of sheets.

ghost use Rattle.lrs_sheet.specs.Laws.{ResumedIsUnstopped, SheetDeterminesReply};

/// The bytes of a sheet and the state before it determine the bytes of its reply and the state after it.
pub fn a_sheet_determines_its_reply()
    ensures { SheetDeterminesReply }
{}

/// A sheet whose keys are of no earlier edit, and whose replies were lost, goes on as if it had not stopped: the lines of
/// the records behind the last one that is an edit, and the state, are those of one run of the whole sheet.
pub fn a_resumed_sheet_is_as_without_a_stop()
    ensures { ResumedIsUnstopped }
{}
