//! Laws of a single line with tokens.

ghost use Rattle.std.specs.Prelude.{◌≡◌, ℕ, ◌+◌, ◌≤◌, List, [], ◌∷◌, ◌++◌, true};
ghost use Rattle.token_law.specs.declared.calls.TokenAct.{TokenAct};
ghost use Rattle.token_law.specs.declared.calls.TokenCall.{TokenCall};
ghost use Rattle.token_law.specs.declared.calls.TokenEntry.{TokenEntry};
ghost use Rattle.token_law.specs.History.{AreTokenCalls, IsTokenHistory, told_from, token_calls, token_entry_of};
ghost use Rattle.token_law.specs.History.{token_state_of};
ghost use Rattle.token_law.specs.Law.{IsTokenCall, token_step};
ghost use Rattle.token_law.specs.States.{TokenState, all_tokens, opening_tokens};
ghost use Rattle.token_law.specs.Trains.{Carries, drawn_for, is_token_refusal, replaced_of};

/// A law of a single line: after every legal token history, the tokens in both instruments, plus 1 for a token held or
/// on the line, are the tokens at the opening. So at most one token is out. No two trains carry one, and no train
/// carries two: a train carries a token where one was drawn for it that was not put back, by what was replied alone.
/// This holds after each beginning of a legal history too, since that is itself legal.
#[tactic(auto, using(crate::proofs::Tokens::token_rules))]
pub fn one_token_law()
    ensures tokens { (at_0 at_1 : ℕ) (es : List TokenEntry) → IsTokenHistory at_0 at_1 es
        → all_tokens (token_state_of at_0 at_1 es) ≡ at_0 + at_1 }
    ensures one_out { (at_0 at_1 : ℕ) (es : List TokenEntry) → IsTokenHistory at_0 at_1 es
        → at_0 + at_1 ≤ (token_state_of at_0 at_1 es).at_0 + (token_state_of at_0 at_1 es).at_1 + 1 }
    ensures one_train { (at_0 at_1 : ℕ) (es : List TokenEntry) (train other : ℕ) → IsTokenHistory at_0 at_1 es
        → Carries es train → Carries es other → train ≡ other }
    ensures one_each { (at_0 at_1 : ℕ) (es : List TokenEntry) (train : ℕ) → IsTokenHistory at_0 at_1 es
        → drawn_for train es ≤ replaced_of train es + 1 }
    ensures beginning { (at_0 at_1 : ℕ) (es more : List TokenEntry) → IsTokenHistory at_0 at_1 (es ++ more)
        → IsTokenHistory at_0 at_1 es }
{}

/// A law: a refusal changes nothing.
#[tactic(auto, using(crate::proofs::Tokens::refusal_rules))]
pub fn refusals_law()
    ensures { (state : TokenState) (b : ℕ) (act : TokenAct) → is_token_refusal (token_step state b act).reply ≡ true
        → (token_step state b act).after ≡ state }
{}

/// A law: a legal token history grows by a call that may be made, with the law's reply; and what was called, and by
/// whom, determines every reply.
#[tactic(auto, using(crate::proofs::Histories::history_rules))]
pub fn token_history_law()
    ensures begins { (at_0 at_1 : ℕ) → IsTokenHistory at_0 at_1 [] }
    ensures grows { (at_0 at_1 : ℕ) (es : List TokenEntry) (call : TokenCall) → IsTokenHistory at_0 at_1 es
        → IsTokenCall call
        → IsTokenHistory at_0 at_1 (es ++ token_entry_of (token_state_of at_0 at_1 es) call ∷ []) }
    ensures state { (at_0 at_1 : ℕ) (es : List TokenEntry) (e : TokenEntry) → token_state_of at_0 at_1 (es ++ e ∷ [])
        ≡ (token_step (token_state_of at_0 at_1 es) e.call.box_no e.call.act).after }
    ensures determined { (at_0 at_1 : ℕ) (es more : List TokenEntry) (e : TokenEntry)
        → IsTokenHistory at_0 at_1 (es ++ e ∷ more)
        → IsTokenCall e.call × (e ≡ token_entry_of (token_state_of at_0 at_1 es) e.call) }
    ensures one { (at_0 at_1 : ℕ) (es others : List TokenEntry) → IsTokenHistory at_0 at_1 es
        → IsTokenHistory at_0 at_1 others → token_calls es ≡ token_calls others → es ≡ others }
{}

/// A law: calls that may be made give one legal token history, which has just these calls.
#[tactic(auto, using(crate::proofs::Histories::call_rules))]
pub fn token_calls_law()
    ensures legal { (at_0 at_1 : ℕ) (calls : List TokenCall) → AreTokenCalls calls
        → IsTokenHistory at_0 at_1 (told_from (opening_tokens at_0 at_1) calls) }
    ensures calls { (at_0 at_1 : ℕ) (calls : List TokenCall)
        → token_calls (told_from (opening_tokens at_0 at_1) calls) ≡ calls }
{}
