//! Laws: what undoes what.

ghost use Rattle.lrs_events.specs.Row.Inverses.{JoinUndoesCut, TurnUndoesTurn};

/// Rows that are cut and joined at the same place are the rows they were.
pub fn join_undoes_cut()
    ensures { JoinUndoesCut }
{}

/// Rows that are turned twice are the rows they were.
pub fn turn_undoes_turn()
    ensures { TurnUndoesTurn }
{}
