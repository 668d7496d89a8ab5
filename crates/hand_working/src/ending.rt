//! What is put when he goes off duty.

ghost use Rattle.std.specs.Prelude.{◌≡◌, ◌<◌, ◌^◌, ◌++◌, [], All, IfOk, IsTrue, OnOk, length, string_bytes, true};
ghost use Rattle.std.specs.Prelude.{if◌then◌else◌};
ghost use Rattle.std.specs.List.{flat_map};
ghost use Rattle.script_text.specs.Entries.{IsSpelled};
ghost use Rattle.line_law.specs.History.{part_of};
ghost use Rattle.line_law.specs.Refusals.{is_refused};
ghost use Rattle.hand_working.specs.Duties.{doings_of, journal_at, post_of};
ghost use Rattle.hand_working.specs.Endings.{IsEnding, TellsRefusal, TellsRefusals, against_text, breach_text};
ghost use Rattle.hand_working.specs.Endings.{his_breaches, his_marks, name_text, number_text};
ghost use Rattle.reg_audit.specs.Rules.{rule_number};

use crate::book::{book_of, journal_of, put_book};
use crate::duty::Duty;
use box_marking::{MarkedText, mark_text};
use line_law::{Entry, is_refused};
use line_plan::Plan;
use rail_text::NoMemory;
use reg_audit::{Breach, Rule, audit};
use reply_sentences::put_sentence;
use script_text::{put_call, put_number};
use std::alloc::{AllocError, Global};

// Puts a refused call behind a text, with its sentence.
fn put_refused(out: &mut String, plan: &Plan, entry: &Entry) -> Result<(), AllocError>
    requires { IsSpelled plan.now entry.now }
    ensures { OnOk result (TellsRefusal true plan.now entry.now (string_bytes out.old) (string_bytes out.new)) }
{
    out.push_str("refused: ")?;
    put_call(out, plan, entry.box_no, &entry.call)?;
    out.push_str(": ")?;
    put_sentence(out, plan, entry)?;
    out.push('\n')
}

// Puts a call behind a text, where it was refused.
fn put_refusal(out: &mut String, plan: &Plan, entry: &Entry) -> Result<(), AllocError>
    requires { IsSpelled plan.now entry.now }
    ensures { OnOk result (TellsRefusal (is_refused entry.now.reply) plan.now entry.now (string_bytes out.old)
        (string_bytes out.new)) }
{
    if !is_refused(&entry.reply) {
        return Ok(());
    }
    put_refused(out, plan, entry)
}

// Puts the refused ones of these entries behind a text.
fn put_refusals(out: &mut String, plan: &Plan, entries: &[Entry]) -> Result<(), AllocError>
    requires { All (IsSpelled plan.now) entries.now }
    ensures { OnOk result (TellsRefusals plan.now entries.now (string_bytes out.old) (string_bytes out.new)) }
{
    for entry in entries {
        put_refusal(out, plan, entry)?;
    }
    Ok(())
}

// The number of a rule.
fn number_of(rule: Rule) -> u64
    ensures { result ≡ rule_number rule }
{
    u64::from(rule.number())
}

// Puts the number of a rule behind a text.
#[tactic(auto, unfolding(crate::specs::Endings::number_text))]
fn put_rule_number(out: &mut String, rule: Rule) -> Result<(), AllocError>
    ensures { OnOk result (string_bytes out.new ≡ string_bytes out.old ++ number_text rule) }
{
    out.push_str("against rule ")?;
    put_number(out, number_of(rule))
}

// Puts the name of a rule behind a text.
#[tactic(auto, unfolding(crate::specs::Endings::name_text))]
fn put_rule_name(out: &mut String, rule: Rule) -> Result<(), AllocError>
    ensures { OnOk result (string_bytes out.new ≡ string_bytes out.old ++ name_text rule) }
{
    out.push_str(", ")?;
    out.push_str(rule.name())?;
    out.push_str(": ")
}

// Puts the line of a breach behind a text: the rule, and the call.
#[tactic(auto, unfolding(crate::specs::Endings::against_text))]
fn put_against(out: &mut String, plan: &Plan, entry: &Entry, rule: Rule) -> Result<(), AllocError>
    requires { IsSpelled plan.now entry.now }
    ensures { OnOk result (string_bytes out.new ≡ string_bytes out.old ++ against_text plan.now rule entry.now.call) }
{
    put_rule_number(out, rule)?;
    put_rule_name(out, rule)?;
    put_call(out, plan, entry.box_no, &entry.call)?;
    out.push('\n')
}

// Puts the line of a breach behind a text, where it is his.
fn put_breach(
    out: &mut String,
    plan: &Plan,
    box_no: u32,
    entries: &[Entry],
    breach: &Breach,
) -> Result<(), AllocError>
    requires { All (IsSpelled plan.now) entries.now }
    ensures { OnOk result (string_bytes out.new
        ≡ string_bytes out.old ++ breach_text plan.now box_no entries.now breach.now) }
{
    match entries.get((breach.entry as usize).saturating_sub(1)) {
        Some(entry) if entry.box_no == box_no => put_against(out, plan, entry, breach.rule),
        _ => Ok(()),
    }
}

// Puts his ones of these breaches behind a text, a line each.
fn put_breaches(
    out: &mut String,
    plan: &Plan,
    box_no: u32,
    entries: &[Entry],
    breaches: &[Breach],
) -> Result<(), AllocError>
    requires { All (IsSpelled plan.now) entries.now }
    ensures { OnOk result (string_bytes out.new
        ≡ string_bytes out.old ++ flat_map (breach_text plan.now box_no entries.now) breaches.now) }
{
    for breach in breaches {
        put_breach(out, plan, box_no, entries, breach)?;
    }
    Ok(())
}

// Puts behind a text where he worked against the nine rules.
#[tactic(auto, unfolding(crate::specs::Endings::his_breaches))]
fn put_audit(alloc: Global, duty: &Duty<'_>, out: &mut String) -> Result<(), NoMemory>
    ensures { IfOk result (λ _. string_bytes out.new
        ≡ string_bytes out.old ++ his_breaches (post_of duty.now) (doings_of duty.now)) }
{
    let session = duty.session();
    session.meets_conditions();
    duty.is_spelled();
    let journal = journal_of(alloc, duty)?;
    let breaches = audit(alloc, session.plan(), &journal)?;
    drop(journal);
    let put = put_breaches(
        out,
        session.plan(),
        session.box_no(),
        session.journal(),
        &breaches,
    );
    drop(breaches);
    put?;
    Ok(())
}

// Puts what is marked behind a text, if there is something.
fn put_marked(out: &mut String, marked: &MarkedText) -> Result<(), AllocError>
    ensures { OnOk result (string_bytes out.new
        ≡ string_bytes out.old ++ (if marked.now.is_marked then string_bytes marked.now.text else [])) }
{
    if marked.is_marked {
        out.push_str(marked.text.as_str())
    } else {
        Ok(())
    }
}

// Puts behind a text what an instructor would mark of what he did, if there is something.
#[tactic(auto, unfolding(crate::specs::Endings::his_marks))]
fn put_marks(alloc: Global, duty: &Duty<'_>, out: &mut String) -> Result<(), NoMemory>
    ensures { IfOk result (λ _. string_bytes out.new
        ≡ string_bytes out.old ++ his_marks (post_of duty.now) (doings_of duty.now)) }
{
    let session = duty.session();
    session.meets_conditions();
    let (plan, box_no) = (session.plan(), session.box_no());
    let marked = mark_text(alloc, plan, session.journal(), Some(box_no), None)?;
    let put = put_marked(out, &marked);
    drop(marked);
    put?;
    Ok(())
}

// Puts his refused calls behind a text.
fn put_his_refusals(alloc: Global, duty: &Duty<'_>, out: &mut String) -> Result<(), NoMemory>
    ensures { IfOk result (λ _. TellsRefusals duty.now.session.plan
        (part_of duty.now.session.box_no (journal_at (post_of duty.now) (doings_of duty.now)))
        (string_bytes out.old) (string_bytes out.new)) }
{
    let register = book_of(alloc, duty)?;
    put_refusals(out, duty.session().plan(), register.entries())?;
    drop(register);
    Ok(())
}

/// How to see the rest.
const MORE: &str = "\
to keep the journal, which `box_main judge` finds legal: --journal FILE
to keep your calls as a script: --script FILE
";

/// What is put when he goes off duty: his register, his refused calls with their sentences, where he worked against the
/// nine rules of good working, what an instructor would mark besides, and how to see the rest.
pub(crate) fn ending(alloc: Global, duty: &Duty<'_>) -> Result<String, NoMemory>
    ensures { IfOk result (λ text. IsEnding (post_of duty.now) (doings_of duty.now) (string_bytes text)) }
{
    let mut out = String::new(alloc);
    put_book(alloc, duty, &mut out)?;
    put_his_refusals(alloc, duty, &mut out)?;
    put_audit(alloc, duty, &mut out)?;
    put_marks(alloc, duty, &mut out)?;
    out.push_str(MORE)?;
    Ok(out)
}
