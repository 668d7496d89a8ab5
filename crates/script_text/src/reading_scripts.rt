//! The script that a text spells.

ghost use Rattle.std.specs.Prelude.{◌≡◌, ◌<◌, ℕ, IfOk, IsErrOf, length};
ghost use Rattle.rail_text.specs.Gives.{GivesText};
ghost use Rattle.rail_text.specs.Texts.{TextRunsOut};
ghost use Rattle.rail_text.specs.declared.cause.Cause.{Cause};
ghost use Rattle.line_plan.specs.Plans.{IsPlan};
ghost use Rattle.script_text.specs.declared.draft.Stage.TheVariants as stages;
ghost use Rattle.script_text.specs.declared.script.Script.{Script};
ghost use Rattle.script_text.specs.Drafts.{start};
ghost use Rattle.script_text.specs.Scripts.{IsScriptOf, most_script_bytes, script_of, words_onto};
ghost use Rattle.script_text.specs.Spelled.{SpellsScript};

use crate::draft::ScriptDraft;
use crate::script::{SCRIPT_LIMIT, Script};
use line_plan::Plan;
use rail_text::{ReadError, read_text};
use std::alloc::Global;

// The script of a box that the bytes spell, or the first fault. The plan's version is read for what a plan's type
// keeps.
#[tactic(auto, unfolding(crate::specs::Scripts::script_of))]
fn script_of(alloc: Global, plan: &Plan, box_no: u32, bytes: &[u8]) -> Result<Script, ReadError>
    requires { box_no < length plan.now.boxes }
    ensures exact { GivesText (λ script. script) result (script_of plan.now box_no bytes.now) }
    ensures plan { IsPlan plan.now }
    ensures memory { TextRunsOut words_onto (λ before. before.stage ≡ stages.Calls) most_script_bytes
        (start plan.now box_no) bytes.now result }
{
    let _version = plan.version;
    let mut draft = ScriptDraft::new(alloc, plan, box_no);
    match read_text(&mut draft, SCRIPT_LIMIT, bytes) {
        Ok(()) => Ok(draft.into_script()),
        Err(error) => {
            drop(draft);
            Err(error)
        }
    }
}

/// The script of a box that the bytes spell, or the line and the cause of the first fault: a text longer than
/// `SCRIPT_LIMIT` is `TooLong` at line 0. The script's calls are ones that the plan knows, and their moments don't
/// fall. Want of memory is told only of a text within the limit that has no fault up to the line where memory ran out,
/// behind the line `script`.
#[tactic(auto, using(crate::proofs::ScriptTexts::reading_rules))]
pub fn read_script(
    alloc: Global,
    plan: &Plan,
    box_no: u32,
    bytes: &[u8],
) -> Result<Script, ReadError>
    requires { box_no < length plan.now.boxes }
    ensures exact { GivesText (λ script. script) result (script_of plan.now box_no bytes.now) }
    ensures script { IfOk result (λ script. IsScriptOf plan.now box_no script) }
    ensures spelled { IfOk result (λ script. SpellsScript plan.now box_no bytes.now script) }
    ensures refused { (line : ℕ) (cause : Cause) → IsErrOf result (ReadError.Refused line cause) → (script : Script)
        → ¬ SpellsScript plan.now box_no bytes.now script }
    ensures memory { TextRunsOut words_onto (λ before. before.stage ≡ stages.Calls) most_script_bytes
        (start plan.now box_no) bytes.now result }
{
    script_of(alloc, plan, box_no, bytes)
}
