//! A bell as it sounds.

ghost use Rattle.std.specs.Prelude.{◌≡◌, ◌++◌, IsTrue, OnOk, string_bytes};
ghost use Rattle.bell_codes.specs.Table.{code_at};
ghost use Rattle.line_law.specs.Known.{is_code_no};
ghost use Rattle.box_view.specs.Notices.{group_sound, more_beats, sound_text};

use bell_codes::CodeNo;
use line_plan::Plan;
use std::alloc::AllocError;

// Puts further beats of a group behind a text.
fn put_more_beats(out: &mut String, beats: u8) -> Result<(), AllocError>
    ensures { OnOk result (string_bytes out.new ≡ string_bytes out.old ++ more_beats beats) }
{
    for _ in 0..beats {
        out.push_str("-ting")?;
    }
    Ok(())
}

// Puts the beats of a group behind a text.
fn put_group(out: &mut String, beats: u8) -> Result<(), AllocError>
    ensures { OnOk result (string_bytes out.new ≡ string_bytes out.old ++ group_sound beats) }
{
    out.push_str("ting")?;
    put_more_beats(out, beats.saturating_sub(1))
}

// Puts groups behind a text.
#[tactic(auto, using(rail_text::proofs::Texts::texts))]
fn put_groups(out: &mut String, groups: &[u8]) -> Result<(), AllocError>
    ensures { OnOk result (string_bytes out.new ≡ string_bytes out.old ++ sound_text groups.now) }
{
    if let [first, rest @ ..] = groups {
        put_group(out, *first)?;
        for beats in rest {
            out.push(' ')?;
            put_group(out, *beats)?;
        }
    }
    Ok(())
}

/// Puts a code as it sounds behind a text: three beats, a pause and one are `ting-ting-ting ting`.
pub fn put_sound(out: &mut String, plan: &Plan, code: CodeNo) -> Result<(), AllocError>
    requires { IsTrue (is_code_no plan.now code) }
    ensures { OnOk result (string_bytes out.new ≡ string_bytes out.old ++ sound_text (code_at plan.now.codes code)) }
{
    let code = plan.codes.code(code);
    put_groups(out, code.groups())
}
