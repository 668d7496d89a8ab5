//! What is printed is read, and what is read is spelled so.

ghost use Rattle.std.specs.Prelude.{◌≡◌, ℕ, List, Ok};
ghost use Rattle.token_text.specs.Scripts.{IsTokenScript, TokenScriptFields, token_script_of};
ghost use Rattle.token_text.specs.Spelled.{MayNameAll, SpellsTokenScript, token_script_text};

/// A law: a text is read as a token script exactly where it spells it, with comments and empty lines or without. A
/// script as it is printed spells itself, and is read as itself.
#[tactic(auto, using(crate::proofs::ScriptTexts::script_rules))]
pub fn token_scripts_law()
    ensures printed { (script : TokenScriptFields) → IsTokenScript script → MayNameAll script.calls
        → token_script_of (token_script_text script) ≡ Ok script }
    ensures printed_spells { (script : TokenScriptFields) → IsTokenScript script → MayNameAll script.calls
        → SpellsTokenScript (token_script_text script) script }
    ensures spelled { (bytes : List ℕ) (script : TokenScriptFields) → token_script_of bytes ≡ Ok script
        → SpellsTokenScript bytes script }
    ensures spellings { (bytes : List ℕ) (script : TokenScriptFields) → SpellsTokenScript bytes script
        → token_script_of bytes ≡ Ok script }
{}
