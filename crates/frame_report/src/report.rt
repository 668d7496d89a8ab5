//! What is reported of a frame's states.

use frame_findings::{Finding, Sequence};
use row_covers::RowPair;
use row_findings::RowUse;

/// What is found of two levers.
#[derive(Drop)]
pub struct PairReport {
    /// Whether they can be reversed together.
    pub finding: Finding,
    /// Where the walk left that open and rows refute it, these, by their places from 0.
    pub rows: Vec<u32>,
    /// Whether a way was found beside the walk on which they are.
    pub has_way: bool,
}

/// What is found of a lever.
#[derive(Drop)]
pub struct LeverReport {
    /// Its number in the plan.
    pub number: u32,
    /// Whether it can be reversed.
    pub own: Finding,
    /// Whether a way was found beside the walk on which it is.
    pub has_way: bool,
    /// What is found of it and each lever before it.
    pub others: Vec<PairReport>,
    /// Where it never can be: for each row whether this row holds it in every state.
    pub holding: Vec<bool>,
}

/// What is found of a row.
#[derive(Drop)]
pub struct RowReport {
    /// What it is good for.
    pub row_use: RowUse,
    /// Where it is redundant: for each row whether this row holds all that the redundant one holds.
    pub covering: Vec<bool>,
    /// Where it is redundant and no single row does: the first two rows that together hold all that it holds, if two
    /// do.
    pub pair: Option<RowPair>,
}

/// What is found of a frame.
#[derive(Drop)]
pub struct StatesReport {
    /// How many states were walked.
    pub count: usize,
    /// Whether these are all that can be reached.
    pub whole: bool,
    /// Each lever of the frame, in order.
    pub levers: Vec<LeverReport>,
    /// For each lever the circle to which the first rows to blame lead from it, by the rows' places from 0; none where
    /// they lead to none.
    pub circles: Vec<Vec<u32>>,
    /// Each row, in table order.
    pub rows: Vec<RowReport>,
    /// How the levers that are to be reached come to be reversed together.
    pub reach: Sequence,
    /// Where the walk left that open and rows refute it, these, by their places from 0.
    pub reach_rows: Vec<u32>,
    /// Where the walk left that open and no rows refute it, a way that was found beside the walk.
    pub reach_way: Option<Vec<u32>>,
    /// How the levers that are never to be reversed together come to be so.
    pub never: Sequence,
    /// Where the walk left that open and rows refute it, these, by their places from 0.
    pub never_rows: Vec<u32>,
    /// Where the walk left that open and no rows refute it, a way that was found beside the walk.
    pub never_way: Option<Vec<u32>>,
}
