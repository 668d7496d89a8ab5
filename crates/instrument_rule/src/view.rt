//! What a seat at the shared words knows, and the rule.
use atomic_table::TableRule;
use block_words::Way;
use line_law::Entry;
use line_plan::Plan;
use std::collections::LinkedList;

/// What one of two joined views had seen, and the boxes that it held.
pub struct Old {
    pub seen: LinkedList<Entry>,
    pub posts: LinkedList<u32>,
}

/// What a seat knows. Contracts speak of it; no value of it is made.
pub struct View {
    /// The plan of the line; none once a join has spent the seat.
    pub plan: Option<Plan>,
    /// The boxes that the seat holds. The first is the one that calls.
    pub posts: LinkedList<u32>,
    /// The beginning of the line's history that it has seen.
    pub seen: LinkedList<Entry>,
    /// How many looks it has taken: those of its awaits, and its glances.
    pub looks: u64,
    /// How many of them were glances, for no call.
    pub glances: u64,
    /// How many posts were drawn when it last drew one, before that draw; none where it never drew.
    pub drawn: Option<u64>,
    /// The way of a section in which it saw room for the next train.
    pub room: Option<Way>,
    /// Between the two looks of a join, what each of the two had seen.
    pub olds: LinkedList<Old>,
}

/// The rule: there is one legal history of the line, of which every seat has seen a beginning, and each word has its
/// number after that history.
pub struct OneHistory;

impl TableRule<(), View, Plan> for OneHistory {
    ghost use Rattle.instrument_rule.specs.Rule.{Kept};
    ghost use Rattle.instrument_rule.specs.Views.{first_view};

    ghost holds = { λ plan. Kept plan };

    ghost first = { λ plan. first_view plan };
}
