//! The headings of pages.

ghost use Rattle.std.specs.Prelude.{◌≡◌, ◌++◌, ◌<◌, OnOk, length, string_bytes};
ghost use Rattle.sheet_text.specs.Texts.{beside_text, box_word, heading_text, no_train_text, other_text};
ghost use Rattle.sheet_text.specs.Texts.{owner_text, title_text};

use block_words::Way;
use line_plan::{Plan, way_word};
use script_text::put_number;
use std::alloc::AllocError;

// The names of the columns, in two lines.
const COLUMNS: &str = "\n\
    \x20                                   with the box in the rear                     with the box in advance\n\
    \x20  No description                   offered accepted entering  arrived      out\
    \x20 offered accepted entering departed      out\n";

// What stands before the name of the box whose register it is.
const OWNER: &str = "Train register of ";

// Whose number is told behind the name of a box.
const BESIDE: &str = ", entries of levers, instruments, Call Attention and answers: ";

// The name of a box.
#[tactic(auto, unfolding(crate::specs::Texts::box_word))]
fn put_box(out: &mut String, plan: &Plan, box_no: u32) -> Result<(), AllocError>
    ensures { OnOk result (string_bytes out.new ≡ string_bytes out.old ++ box_word plan.now box_no) }
{
    if (box_no as usize) < plan.boxes.len() {
        out.push_str(plan.box_name(box_no))
    } else {
        out.push_str("an unknown box")
    }
}

// Whose register it is.
#[tactic(auto, unfolding(crate::specs::Texts::owner_text))]
fn put_owner(out: &mut String, plan: &Plan, box_no: u32) -> Result<(), AllocError>
    ensures { OnOk result (string_bytes out.new ≡ string_bytes out.old ++ owner_text plan.now box_no) }
{
    out.push_str(OWNER)?;
    put_box(out, plan, box_no)
}

// Beside whose register something stands.
#[tactic(auto, unfolding(crate::specs::Texts::other_text))]
fn put_other(out: &mut String, plan: &Plan, box_no: u32) -> Result<(), AllocError>
    ensures { OnOk result (string_bytes out.new ≡ string_bytes out.old ++ other_text plan.now box_no) }
{
    out.push_str("Beside the register of ")?;
    put_box(out, plan, box_no)
}

/// Puts whose sheet it is behind a text. Where memory runs out a part may stand behind the text.
#[tactic(auto, unfolding(crate::specs::Texts::title_text))]
pub fn put_title(out: &mut String, plan: &Plan, box_no: u32, way: Way) -> Result<(), AllocError>
    ensures { OnOk result (string_bytes out.new ≡ string_bytes out.old ++ title_text plan.now box_no way) }
{
    put_owner(out, plan, box_no)?;
    out.push_str(", ")?;
    out.push_str(way_word(way))?;
    out.push_str(" line")
}

/// Puts the heading of a page of a sheet behind a text: whose sheet it is, the number of the page, and the names of
/// the columns.
#[tactic(auto, unfolding(crate::specs::Texts::heading_text))]
pub fn put_heading(
    out: &mut String,
    plan: &Plan,
    box_no: u32,
    way: Way,
    page: usize,
) -> Result<(), AllocError>
    ensures { OnOk result (string_bytes out.new ≡ string_bytes out.old ++ heading_text plan.now box_no way page) }
{
    put_title(out, plan, box_no, way)?;
    out.push_str(", page ")?;
    put_number(out, page as u64)?;
    out.push_str(COLUMNS)
}

/// Puts what stands in place of a sheet without rows behind a text.
#[tactic(auto, unfolding(crate::specs::Texts::no_train_text))]
pub fn put_no_train(out: &mut String, plan: &Plan, box_no: u32, way: Way) -> Result<(), AllocError>
    ensures { OnOk result (string_bytes out.new ≡ string_bytes out.old ++ no_train_text plan.now box_no way) }
{
    put_title(out, plan, box_no, way)?;
    out.push_str(": no train\n")
}

/// Puts behind a text how many entries of a box stand beside its sheets.
#[tactic(auto, unfolding(crate::specs::Texts::beside_text))]
pub fn put_beside(
    out: &mut String,
    plan: &Plan,
    box_no: u32,
    count: usize,
) -> Result<(), AllocError>
    ensures { OnOk result (string_bytes out.new ≡ string_bytes out.old ++ beside_text plan.now box_no count) }
{
    put_other(out, plan, box_no)?;
    out.push_str(BESIDE)?;
    put_number(out, count as u64)?;
    out.push('\n')
}
