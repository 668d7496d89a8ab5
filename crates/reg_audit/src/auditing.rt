//! The audit of a journal.

ghost use Rattle.std.specs.Prelude.{◌≡◌, ◌++◌, IfOk, OnOk};
ghost use Rattle.line_law.specs.History.{IsLegal};
ghost use Rattle.line_report.specs.Asked.{AreFewEntries};
ghost use Rattle.reg_audit.specs.Audits.{IsAuditOf};
ghost use Rattle.reg_audit.specs.Held.{held_told};
ghost use Rattle.reg_audit.specs.Marks.{breaches_at, breaches_of, rules_on};

use crate::deed::{Deed, deed_of};
use crate::marks::{SideMarks, is_broken, mark, no_marks};
use crate::rule::{Breach, Rule};
use block_words::Way;
use line_law::{ByWay, Entry, Journal};
use line_plan::Plan;
use line_report::{HeldTrains, count_on, no_trains};
use rail_text::NoMemory;
use std::alloc::Global;
use std::marker::Model;

// The rules that a deed may break, in their order.
const BY_BELL: [Rule; 2] = [Rule::Offer, Rule::Out];

const BY_TURNING: [Rule; 2] = [Rule::Clear, Rule::Normal];

const BY_PASSING: [Rule; 2] = [Rule::Entering, Rule::Danger];

const BY_BERTHING: [Rule; 1] = [Rule::Berth];

const BY_DIVIDING: [Rule; 2] = [Rule::Berth, Rule::Divided];

const BY_RELEASE: [Rule; 1] = [Rule::Release];

// The rules that may be broken by what was done, in their order. None of the others can be.
fn rules_on(deed: &Deed) -> &'static [Rule]
    ensures { result.now ≡ rules_on deed.now }
{
    match deed {
        Deed::Rang { .. } => &BY_BELL,
        Deed::Turned { .. } => &BY_TURNING,
        Deed::WentPast { .. } => &BY_PASSING,
        Deed::Berthed { .. } => &BY_BERTHING,
        Deed::PartBerthed { .. } => &BY_DIVIDING,
        Deed::Released => &BY_RELEASE,
        Deed::Heard { .. } | Deed::Nothing => &[],
    }
}

// How many trains the section of a turned line holds, by the trains of each pair of neighbours.
fn held_told(trains: &[ByWay<HeldTrains>], box_no: u32, deed: &Deed) -> u32
    ensures { result ≡ held_told trains.now box_no deed.now }
{
    let Deed::Turned { way, .. } = *deed else {
        return 0;
    };
    let pair = match way {
        Way::Up => box_no,
        Way::Down => box_no.saturating_sub(1),
    };
    match trains.get(pair as usize) {
        Some(trains) => trains.get(way).now,
        None => 0,
    }
}

// Adds the breaches by an entry, in the order of the rules.
fn add_breaches(
    found: &mut Vec<Breach>,
    plan: &Plan,
    number: u32,
    marks: &ByWay<SideMarks>,
    held: u32,
    deed: &Deed,
) -> Result<(), NoMemory>
    ensures { OnOk result (found.new.items
        ≡ found.old.items ++ breaches_at plan.now number marks.now held deed.now) }
{
    for rule in rules_on(deed) {
        if is_broken(plan, marks, held, deed, *rule) {
            found.push(Breach {
                entry: number,
                rule: *rule,
            })?;
        }
    }
    Ok(())
}

/// An audit of a legal history that goes on entry by entry, with a few marks for each side of each box. Contracts see
/// the marks of each box, the trains of each pair of neighbours, how many entries were heard, and their breaches.
#[derive(Drop)]
pub(crate) struct Auditor {
    marks: Vec<ByWay<SideMarks>>,
    trains: Vec<ByWay<HeldTrains>>,
    count: u32,
    found: Vec<Breach>,
}

impl Model for Auditor {
    ghost use Rattle.reg_audit.specs.Auditors.{AuditorFields};

    ghost Value = { AuditorFields };

    ghost view = { λ auditor. record {
      marks = auditor.marks.items;
      trains = auditor.trains.items;
      count = auditor.count;
      found = auditor.found.items;
    } };
}

impl Auditor {
    ghost use Rattle.std.specs.Prelude.{◌≡◌, [], ◌∷◌, ◌++◌, List, IfOk, OnOk};
    ghost use Rattle.line_law.specs.declared.call.Entry.{Entry};
    ghost use Rattle.line_law.specs.History.{IsLegal};
    ghost use Rattle.reg_audit.specs.Auditors.{ComesNext, HasAudited};

    /// An audit of a plan's line of which no entry was heard.
    pub(crate) fn open(alloc: Global, plan: &Plan) -> Result<Auditor, NoMemory>
        ensures { IfOk result (λ auditor. HasAudited plan.now [] auditor) }
    {
        plan.meets_conditions();
        let boxes = plan.boxes.len();
        Ok(Auditor {
            marks: no_marks(alloc, boxes)?,
            trains: no_trains(alloc, boxes - 1)?,
            count: 0,
            found: Vec::new(alloc),
        })
    }

    /// Hears an entry more, behind those of a legal history, which with it is one again.
    pub(crate) fn hear(&mut self, plan: &Plan, entry: &Entry) -> Result<(), NoMemory>
        requires { ComesNext plan.now self.old entry.now }
        ensures { (es : List Entry) → HasAudited plan.now es self.old → IsLegal plan.now (es ++ entry.now ∷ [])
            → OnOk result (HasAudited plan.now (es ++ entry.now ∷ []) self.new) }
    {
        plan.meets_conditions();
        let at = entry.box_no as usize;
        let deed = deed_of(plan, entry);
        count_on(&mut self.trains, plan, entry);
        let held = held_told(&self.trains, entry.box_no, &deed);
        self.count += 1;
        let here = &mut self.marks[at];
        add_breaches(&mut self.found, plan, self.count, here, held, &deed)?;
        mark(plan, &deed, here);
        Ok(())
    }

    /// The breaches of the entries so far.
    pub(crate) fn into_found(self) -> Vec<Breach>
        ensures { result.items ≡ self.found }
    {
        self.found
    }
}

// The breaches of a journal, entry by entry.
fn breaches_in(alloc: Global, plan: &Plan, entries: &[Entry]) -> Result<Vec<Breach>, NoMemory>
    requires legal { IsLegal plan.now entries.now }
    requires few { AreFewEntries entries.now }
    ensures { IfOk result (λ breaches. breaches.items ≡ breaches_of plan.now entries.now) }
{
    let mut auditor = Auditor::open(alloc, plan)?;
    for entry in entries {
        auditor.hear(plan, entry)?;
    }
    Ok(auditor.into_found())
}

/// Audits a legal journal: each entry that breaks one of the nine rules is named with the rule, and nothing else is; by
/// entry, then by rule, once each. There are fewer than 2^32 entries. It goes over the journal once, with a few marks
/// for each side of each box; the calls aren't performed again, so a caller judges first.
#[tactic(auto, using(crate::proofs::Exactly::audit_exact))]
pub fn audit(alloc: Global, plan: &Plan, journal: &Journal) -> Result<Vec<Breach>, NoMemory>
    requires legal { IsLegal plan.now journal.now.entries }
    requires few { AreFewEntries journal.now.entries }
    ensures exact { IfOk result (λ breaches. IsAuditOf plan.now journal.now.entries breaches.items) }
    ensures list { IfOk result (λ breaches. breaches.items ≡ breaches_of plan.now journal.now.entries) }
{
    plan.meets_conditions();
    breaches_in(alloc, plan, journal.entries.as_slice())
}
