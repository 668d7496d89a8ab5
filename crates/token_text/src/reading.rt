//! The token script that a text spells.

ghost use Rattle.std.specs.Prelude.{◌≡◌, ℕ, IfOk, IsErrOf};
ghost use Rattle.rail_text.specs.Gives.{GivesText};
ghost use Rattle.rail_text.specs.Texts.{TextRunsOut};
ghost use Rattle.rail_text.specs.declared.cause.Cause.{Cause};
ghost use Rattle.token_text.specs.Drafts.{start};
ghost use Rattle.token_text.specs.Limits.{most_script_bytes};
ghost use Rattle.token_text.specs.Scripts.{IsTokenScript, TokenScriptFields, token_script_of, words_onto};
ghost use Rattle.token_text.specs.Spelled.{SpellsTokenScript};
ghost use Rattle.token_text.specs.declared.draft.Stage.TheVariants as stages;

use crate::draft::TokenDraft;
use crate::script::{TOKEN_SCRIPT_LIMIT, TokenScript};
use rail_text::{ReadError, read_text};
use std::alloc::Global;

// The token script that the bytes spell, or the first fault.
#[tactic(auto, unfolding(crate::specs::Scripts::token_script_of))]
fn script_of(alloc: Global, bytes: &[u8]) -> Result<TokenScript, ReadError>
    ensures exact { GivesText (λ script. script) result (token_script_of bytes.now) }
    ensures script { IfOk result (λ script. IsTokenScript script) }
    ensures memory { TextRunsOut words_onto (λ before. before.stage ≡ stages.Calls) most_script_bytes start bytes.now
        result }
{
    let mut draft = TokenDraft::new(alloc);
    read_text(&mut draft, TOKEN_SCRIPT_LIMIT, bytes)?;
    Ok(draft.into_script())
}

/// The token script that the bytes spell, or the line and the cause of the first fault: a text longer than
/// `TOKEN_SCRIPT_LIMIT` is `TooLong` at line 0. A script that is read has at most 50 tokens at each box, at most
/// `MOST_TOKEN_CALLS` calls, and only calls that may be made. Want of memory is told only of a text within the limit
/// that has no fault up to the line where memory ran out, behind the line `tokens`.
#[tactic(auto, using(crate::proofs::ScriptTexts::reading_rules))]
pub fn read_tokens(alloc: Global, bytes: &[u8]) -> Result<TokenScript, ReadError>
    ensures exact { GivesText (λ script. script) result (token_script_of bytes.now) }
    ensures script { IfOk result (λ script. IsTokenScript script) }
    ensures spelled { IfOk result (λ script. SpellsTokenScript bytes.now script) }
    ensures refused { (line : ℕ) (cause : Cause) → IsErrOf result (ReadError.Refused line cause)
        → (script : TokenScriptFields) → ¬ SpellsTokenScript bytes.now script }
    ensures memory { TextRunsOut words_onto (λ before. before.stage ≡ stages.Calls) most_script_bytes start bytes.now
        result }
{
    script_of(alloc, bytes)
}
