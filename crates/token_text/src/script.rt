//! A token script: the tokens at each box at the opening, and the calls in order.

ghost use Rattle.std.specs.Prelude.{All, IsTrue, ◌↔◌};
ghost use Rattle.token_law.specs.Law.{IsTokenCall};

use std::marker::Model;
use token_law::TokenCall;

/// The most calls of a token script.
pub const MOST_TOKEN_CALLS: usize = 10_000;

/// The most bytes of a token script's text.
pub const TOKEN_SCRIPT_LIMIT: usize = 1_048_576;

// Whether each of these calls may be made.
fn may_each_be_made(calls: &[TokenCall]) -> bool
    ensures { IsTrue result ↔ All IsTokenCall calls.now }
{
    calls.iter().all(|call| call.may_be_made())
}

/// The tokens at each box at the opening, at most 50, and the calls in order: at most `MOST_TOKEN_CALLS`, each of which
/// may be made.
#[derive(Debug, Drop)]
pub struct TokenScript {
    /// The tokens at box 0.
    pub at_0: u32,
    /// The tokens at box 1.
    pub at_1: u32,
    calls: Vec<TokenCall>,
}

impl Model for TokenScript {
    ghost use Rattle.token_text.specs.Scripts.{IsTokenScript, TokenScriptFields};

    ghost Value = { TokenScriptFields };

    ghost view = { λ s. record { at_0 = s.at_0; at_1 = s.at_1; calls = s.calls.items } };

    ghost invariant = { λ s. IsTokenScript (record { at_0 = s.at_0; at_1 = s.at_1; calls = s.calls.items }) };
}

impl TokenScript {
    ghost use Rattle.std.specs.Prelude.{◌≡◌};
    ghost use Rattle.token_text.specs.Scripts.{IsTokenScript};

    /// Whether a script may have these tokens at each box and these calls: at most 50 tokens at each, at most
    /// `MOST_TOKEN_CALLS` calls, and only calls that may be made.
    #[tactic(auto, using(crate::proofs::Calls::call_rules))]
    pub fn fits(at_0: u32, at_1: u32, calls: &[TokenCall]) -> bool
        ensures { IsTrue result ↔ IsTokenScript (record { at_0 = at_0; at_1 = at_1; calls = calls.now }) }
    {
        at_0 <= 50 && at_1 <= 50 && calls.len() <= MOST_TOKEN_CALLS && may_each_be_made(calls)
    }

    /// The script of these tokens at each box and these calls, which `fits`. It takes no memory.
    pub fn new(at_0: u32, at_1: u32, calls: Vec<TokenCall>) -> TokenScript
        requires { IsTokenScript (record { at_0 = at_0; at_1 = at_1; calls = calls.items }) }
        ensures { result ≡ record { at_0 = at_0; at_1 = at_1; calls = calls.items } }
    {
        TokenScript { at_0, at_1, calls }
    }

    /// The calls, out of the script.
    pub fn into_calls(self) -> Vec<TokenCall>
        ensures { result.items ≡ self.calls }
    {
        self.calls
    }

    /// The calls in order.
    pub fn calls(&self) -> &[TokenCall]
        ensures { result.now ≡ self.now.calls }
    {
        self.calls.as_slice()
    }
}
