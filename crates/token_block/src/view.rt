//! What a seat at the shared words of a single line knows, and the rule.
use atomic_table::TableRule;
use std::collections::LinkedList;
use token_law::TokenEntry;

/// The tokens in the instruments of the two boxes.
#[derive(Clone, Copy, Debug, PartialEq, Eq)]
pub struct Tokens {
    pub at_0: u32,
    pub at_1: u32,
}

/// What two joined views had seen.
pub struct SeenBefore {
    pub mine: LinkedList<TokenEntry>,
    pub theirs: LinkedList<TokenEntry>,
}

/// What a seat knows. Contracts speak of it; no value of it is made.
pub struct TokenView {
    /// The tokens at the opening of the line; none once a join has spent the seat.
    pub opened: Option<Tokens>,
    /// The box whose post the seat holds.
    pub post: Option<u32>,
    /// The beginning of the line's history that it has seen.
    pub seen: LinkedList<TokenEntry>,
    /// The train whose token is held at its post.
    pub hand: Option<u16>,
    /// A train that it saw on the line to its post.
    pub came: Option<u16>,
    /// How many posts were drawn when it last drew one, before that draw; none where it never drew.
    pub drawn: Option<u64>,
    /// Between the two looks of a join, what each of the two had seen.
    pub olds: Option<SeenBefore>,
}

/// The rule: there is one legal token history of the line, of which every seat has seen a beginning, and each word has
/// its number after that history.
pub struct OneTokenHistory;

impl TableRule<(), TokenView, Tokens> for OneTokenHistory {
    ghost use Rattle.token_block.specs.Rule.{Kept};
    ghost use Rattle.token_block.specs.Views.{first_view};

    ghost holds = { λ tokens. Kept tokens };

    ghost first = { λ tokens. first_view tokens };
}
