//! The calls at a single line with tokens, worked in their order and printed.

ghost use Rattle.std.specs.Prelude.{◌≡◌, ℕ, List, IfOk, IsErrOf, OnOk};
ghost use Rattle.rail_text.specs.Causes.{Rose};
ghost use Rattle.token_text.specs.Scripts.{IsTokenScript, token_script_of};
ghost use Rattle.desk_reports.specs.SingleLines.{HasTokenScript, token_script_told, tokens_told, worked_text};
ghost use Rattle.text_fetch.specs.FromTexts.{Makes, text_told};

use rail_text::Shelf;
use std::alloc::{AllocError, Global};
use text_fetch::{Stop, fetch_bytes, stop_of};
use token_block::work_tokens;
use token_text::{TOKEN_SCRIPT_LIMIT, TokenScript, print_tokens, read_tokens};

// The token script under a name, as the first text.
fn fetch_tokens<S: Shelf>(alloc: Global, shelf: &mut S, name: &str) -> Result<TokenScript, Stop>
    ensures script { Makes (λ script. script) result (text_told 1 token_script_of (S.held shelf.old name.now)) }
    ensures limits { IfOk result (λ script. IsTokenScript script) }
    ensures fault { IsErrOf result Stop.ShelfFault → Rose (S.faults shelf.old name.now) (S.faults shelf.new name.now) }
    ensures same { (n : List ℕ) → S.held shelf.new n ≡ S.held shelf.old n }
{
    let bytes = fetch_bytes(alloc, shelf, name, TOKEN_SCRIPT_LIMIT)?;
    match read_tokens(alloc, &bytes) {
        Ok(script) => Ok(script),
        Err(error) => Err(stop_of(1, error)),
    }
}

// The calls of a script with their replies, and what then stands in the instruments, as they are printed.
#[tactic(auto, using(crate::proofs::Worked::worked_is))]
fn worked_text(alloc: Global, script: &TokenScript) -> Result<Vec<u8>, AllocError>
    requires { IsTokenScript script.now }
    ensures { IfOk result (λ text. text.items ≡ worked_text script.now) }
{
    let worked = work_tokens(alloc, script.at_0, script.at_1, script.calls())?;
    print_tokens(alloc, &worked.entries, worked.at_0, worked.at_1, worked.out)
}

/// The calls of the named token script, worked in their order at a single line that opens with its tokens; or why there
/// are none.
#[tactic(auto, using(crate::proofs::Worked::given_is))]
pub fn token_outcome<S: Shelf>(
    alloc: Global,
    shelf: &mut S,
    script_name: &str,
) -> Result<Vec<u8>, Stop>
    ensures told { Makes (λ text. text.items) result (tokens_told (S.held shelf.old) script_name.now) }
    ensures script { OnOk result (HasTokenScript (token_script_told (S.held shelf.old) script_name.now)) }
    ensures fault { IsErrOf result Stop.ShelfFault
        → Rose (S.faults shelf.old script_name.now) (S.faults shelf.new script_name.now) }
    ensures same { (n : List ℕ) → S.held shelf.new n ≡ S.held shelf.old n }
{
    let script = fetch_tokens(alloc, shelf, script_name)?;
    let text = worked_text(alloc, &script);
    drop(script);
    match text {
        Ok(text) => Ok(text),
        Err(AllocError) => Err(Stop::NoMemory),
    }
}
