//! The shared words of a single line.
ghost use Rattle.std.specs.Prelude.{◌≡◌, ◌≤◌};
ghost use Rattle.token_law.specs.States.{most_tokens};
ghost use Rattle.token_block.specs.Words.{line_words};

use crate::view::{OneTokenHistory, TokenView, Tokens};
use atomic_table::Table;
use std::alloc::Global;

pub type TokenTable = Table<(), TokenView, Tokens, OneTokenHistory, Global>;

/// A single line with tokens: the words that its two men share, under one rule. Contracts see the tokens at its opening
/// as the table's key.
#[derive(Drop)]
pub struct TokenLine {
    pub(crate) table: TokenTable,
    pub ghost few: { (table.shared.key.at_0 ≤ most_tokens) × (table.shared.key.at_1 ≤ most_tokens) },
    pub ghost wide: { table.shared.table_id.words ≡ line_words },
}
