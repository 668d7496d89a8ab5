//! What is marked, as text.

ghost use Rattle.std.specs.Prelude.{◌≡◌, ◌++◌, IfOk, OnOk, decimal, string_bytes};
ghost use Rattle.std.specs.List.{flat_map};
ghost use Rattle.line_law.specs.History.{IsLegal};
ghost use Rattle.line_report.specs.Asked.{AreFewEntries};
ghost use Rattle.box_marking.specs.Markings.{markings_of};
ghost use Rattle.box_marking.specs.Texts.{are_some, box_word, code_word, heading_text, lapse_text};
ghost use Rattle.box_marking.specs.Texts.{marking_text, markings_text, offered_by, rule_name, rule_text, train_word};

use crate::lapse::Lapse;
use crate::marking::{Marking, mark};
use bell_codes::CodeNo;
use line_law::{Entry, is_code_no};
use line_plan::Plan;
use rail_text::NoMemory;
use script_text::{position_word, put_code, put_number};
use std::alloc::{AllocError, Global};

// The name of the rule by which a lapse is marked.
fn rule_name(lapse: &Lapse) -> &'static str
    ensures { result.now ≡ rule_name lapse.now }
{
    match lapse {
        Lapse::Unacknowledged { .. } => "unacknowledged",
        Lapse::Misrepeated { .. } => "misrepeated",
        Lapse::Misdescribed { .. } => "misdescribed",
        Lapse::LeftOff { .. } => "left off",
        Lapse::LeftOn { .. } => "left on",
        Lapse::BeforeCause { .. } => "before its cause",
        Lapse::Late { .. } => "late",
    }
}

// Puts the name of a box behind a text.
fn put_box(out: &mut String, plan: &Plan, box_no: u32) -> Result<(), AllocError>
    ensures { OnOk result (string_bytes out.new ≡ string_bytes out.old ++ box_word plan.now box_no) }
{
    if (box_no as usize) < plan.boxes.len() {
        out.push_str(plan.box_name(box_no))
    } else {
        out.push_str("an unknown box")
    }
}

// Puts the name of a train behind a text.
fn put_train(out: &mut String, plan: &Plan, train: u32) -> Result<(), AllocError>
    ensures { OnOk result (string_bytes out.new ≡ string_bytes out.old ++ train_word plan.now train) }
{
    if plan.is_train(train) {
        out.push_str(plan.train(train).name.as_str())
    } else {
        out.push_str("an unknown train")
    }
}

// Puts a code behind a text.
fn put_code_word(out: &mut String, plan: &Plan, code: CodeNo) -> Result<(), AllocError>
    ensures { OnOk result (string_bytes out.new ≡ string_bytes out.old ++ code_word plan.now code) }
{
    if is_code_no(plan, code) {
        put_code(out, plan, code)
    } else {
        out.push_str("an unknown code")
    }
}

// Puts a code, and the entry by which it was offered, behind a text.
fn put_offered(out: &mut String, plan: &Plan, code: CodeNo, by: u32) -> Result<(), AllocError>
    ensures { OnOk result (string_bytes out.new ≡ string_bytes out.old ++ offered_by plan.now code by) }
{
    put_code_word(out, plan, code)?;
    out.push_str(" by entry ")?;
    put_number(out, u64::from(by))
}

// Puts two texts behind a text.
fn put_both(out: &mut String, first: &str, second: &str) -> Result<(), AllocError>
    ensures { OnOk result (string_bytes out.new ≡ string_bytes out.old ++ (first.now ++ second.now)) }
{
    out.push_str(first)?;
    out.push_str(second)
}

// Puts words and a number behind a text.
fn put_numbered(out: &mut String, words: &str, number: u32) -> Result<(), AllocError>
    ensures { OnOk result (string_bytes out.new ≡ string_bytes out.old ++ (words.now ++ decimal number)) }
{
    out.push_str(words)?;
    put_number(out, u64::from(number))
}

// Puts what an entry is marked for behind a text.
fn put_lapse(out: &mut String, plan: &Plan, lapse: &Lapse) -> Result<(), AllocError>
    ensures { OnOk result (string_bytes out.new ≡ string_bytes out.old ++ lapse_text plan.now lapse.now) }
{
    match *lapse {
        Lapse::Unacknowledged { code } => {
            out.push_str("heard ")?;
            put_code_word(out, plan, code)?;
            out.push_str(", never rung back")
        }
        Lapse::Misrepeated {
            offered,
            repeated,
            by,
        } => {
            out.push_str("offered ")?;
            put_offered(out, plan, offered, by)?;
            out.push_str(", repeated ")?;
            put_code_word(out, plan, repeated)
        }
        Lapse::Misdescribed { offered, train, by } => {
            put_train(out, plan, train)?;
            out.push_str(" was offered as ")?;
            put_offered(out, plan, offered, by)
        }
        Lapse::LeftOff { lever } => {
            out.push_str("lever ")?;
            put_number(out, u64::from(lever))?;
            out.push_str(" wasn't put back behind the train")
        }
        Lapse::LeftOn { shown } => {
            put_both(out, "the commutator was left at ", position_word(shown))
        }
        Lapse::BeforeCause { cause } => {
            put_numbered(out, "its moment lies before that of entry ", cause)
        }
        Lapse::Late { since } => put_numbered(out, "too long after entry ", since),
    }
}

// Puts the number of an entry and the name of its box behind a text.
fn put_heading(out: &mut String, plan: &Plan, entry: u32, box_no: u32) -> Result<(), AllocError>
    ensures { OnOk result (string_bytes out.new ≡ string_bytes out.old ++ heading_text plan.now entry box_no) }
{
    put_number(out, u64::from(entry))?;
    out.push(' ')?;
    put_box(out, plan, box_no)?;
    out.push(' ')
}

// Puts the name of a rule behind a text.
fn put_rule(out: &mut String, lapse: &Lapse) -> Result<(), AllocError>
    ensures { OnOk result (string_bytes out.new ≡ string_bytes out.old ++ rule_text lapse.now) }
{
    out.push_str(rule_name(lapse))?;
    out.push_str(": ")
}

// The line of a marking: the entry's number, its box, the name of the rule, and what the entry is marked for.
#[tactic(auto, unfolding(crate::specs::Texts::marking_text))]
fn put_marking(out: &mut String, plan: &Plan, marking: &Marking) -> Result<(), AllocError>
    ensures { OnOk result (string_bytes out.new ≡ string_bytes out.old ++ marking_text plan.now marking.now) }
{
    put_heading(out, plan, marking.entry, marking.box_no)?;
    put_rule(out, &marking.lapse)?;
    put_lapse(out, plan, &marking.lapse)?;
    out.push('\n')
}

// The lines of all markings.
fn put_markings(out: &mut String, plan: &Plan, markings: &[Marking]) -> Result<(), AllocError>
    ensures { OnOk result (string_bytes out.new
        ≡ string_bytes out.old ++ flat_map (marking_text plan.now) markings.now) }
{
    for marking in markings {
        put_marking(out, plan, marking)?;
    }
    Ok(())
}

// Whether there is a marking.
fn are_some(markings: &[Marking]) -> bool
    ensures { result ≡ are_some markings.now }
{
    match markings {
        [] => false,
        [..] => true,
    }
}

/// The markings of a journal as they are told: a line for each, with the entry's number, the name of its box, that of
/// the rule, and what the entry is marked for; or `nothing to mark`.
#[tactic(auto, unfolding(crate::specs::Texts::markings_text))]
pub fn print_markings(alloc: Global, plan: &Plan, markings: &[Marking]) -> Result<String, NoMemory>
    ensures { IfOk result (λ text. string_bytes text ≡ markings_text plan.now markings.now) }
{
    let mut out = String::new(alloc);
    if are_some(markings) {
        put_markings(&mut out, plan, markings)?;
    } else {
        out.push_str("nothing to mark\n")?;
    }
    Ok(out)
}

/// What an instructor marks, as text.
#[derive(Drop)]
pub struct MarkedText {
    pub text: String,
    /// Whether there is something.
    pub is_marked: bool,
}

/// What an instructor marks in a legal journal, of one box or of all, as text, and whether there is something. There
/// are fewer than 2^32 entries.
pub fn mark_text(
    alloc: Global,
    plan: &Plan,
    entries: &[Entry],
    only: Option<u32>,
    within: Option<u32>,
) -> Result<MarkedText, NoMemory>
    requires legal { IsLegal plan.now entries.now }
    requires few { AreFewEntries entries.now }
    ensures text { IfOk result (λ marked.
        string_bytes marked.text ≡ markings_text plan.now (markings_of plan.now within only entries.now)) }
    ensures any { IfOk result (λ marked. marked.is_marked ≡ are_some (markings_of plan.now within only entries.now)) }
{
    let markings = mark(alloc, plan, entries, only, within)?;
    let is_marked = are_some(&markings);
    let text = print_markings(alloc, plan, &markings)?;
    drop(markings);
    Ok(MarkedText { text, is_marked })
}
