//! What is held, gathered from one edge of stretches to the next.

ghost use Rattle.lrs_difference.specs.Sweep.{LastIsGrown, NoneIsAdded, OneIsAdded, RowsBegin, RowsEnd, RowsGoOn};

/// Where a stretch of an asset begins or ends.
#[derive(Clone, Copy)]
pub(crate) struct Edge {
    pub asset: u64,
    pub link: u32,
    pub mm: u32,
}

/// From an edge to the next, the rows stay where nothing is held. Else the last one goes on, or there is one more.
pub fn rows_are_gathered()
    ensures none { NoneIsAdded }
    ensures one { OneIsAdded }
    ensures grown { LastIsGrown }
{}

/// The rows begin with none, go on from each edge to the next, and have at the last one what is held alone.
pub fn rows_are_those_alone()
    ensures begin { RowsBegin }
    ensures go_on { RowsGoOn }
    ensures end { RowsEnd }
{}
