//! The judge of a journal: whether each reply is the law's.

ghost use Rattle.std.specs.Prelude.{◌≡◌, ◌↔◌, ◌++◌, ◌<◌, ◌+◌, ℕ, IfOk, IsTrue, Ok, OnOk, length, string_bytes};
ghost use Rattle.line_law.specs.History.{IsLegal, opened};
ghost use Rattle.line_law.specs.Lines.{IsLineOf};
ghost use Rattle.line_report.specs.Asked.{AreAsked, AreFewEntries};
ghost use Rattle.line_report.specs.Verdicts.{IsWrongAt, heard_all, legal_text, opening_judge, verdict_of, wrong_text};
ghost use Rattle.script_text.specs.Replies.{is_spelled_reply};

use line_law::{Entry, Journal, Plain, Reply};
use line_plan::Plan;
use rail_text::NoMemory;
use script_text::put_reply;
use std::alloc::{AllocError, Global};
use std::fmt::Write;
use std::marker::Model;

/// What a judge finds of a journal.
#[derive(Clone, Copy, Debug)]
pub enum Verdict {
    /// Every reply is the law's.
    Legal,
    /// The first entry whose reply isn't the law's, from 1; what the journal says there, and what the law says.
    WrongAt { line: u32, said: Reply, law: Reply },
}

// Whether these entries may be judged, by each performed once on a line that has just opened.
fn may_perform_all(plan: &Plan, plain: &mut Plain, entries: &[Entry]) -> bool
    requires few { AreFewEntries entries.now }
    requires line { IsLineOf plan.now plain.old }
    requires opening { plain.old ≡ opened plan.now }
    ensures { IsTrue result ↔ AreAsked plan.now entries.now }
{
    plan.meets_conditions();
    for entry in entries {
        if !plain.may_call(plan, entry.box_no, &entry.call) {
            return false;
        }
        plain.perform(plan, entry.box_no, &entry.call);
    }
    true
}

/// Whether a journal may be judged: the plan knows each call of each box, and moments don't fall within a box. There
/// are fewer than 2^32 entries.
pub fn may_judge(alloc: Global, plan: &Plan, journal: &Journal) -> Result<bool, NoMemory>
    requires { AreFewEntries journal.now.entries }
    ensures { IfOk result (λ may. IsTrue may ↔ AreAsked plan.now journal.now.entries) }
{
    let mut plain = Plain::open(alloc, plan)?;
    let may = may_perform_all(plan, &mut plain, journal.entries.as_slice());
    drop(plain);
    Ok(may)
}

/// What a judge finds who hears the entries of a journal one after another: each is performed once on a line that has
/// just opened, up to the first whose reply isn't the law's. Contracts see the plan, the state of the line, how many
/// entries he has heard, what he finds of them, and the box of the one that is wrong.
#[derive(Drop)]
pub(crate) struct Judgement<'a> {
    plan: &'a Plan,
    plain: Plain,
    count: u32,
    verdict: Verdict,
    box_no: u32,
}

impl<'a> Model for Judgement<'a> {
    ghost use Rattle.line_report.specs.Verdicts.{IsJudge, JudgeFields};

    ghost Value = { JudgeFields };

    ghost view = { λ judge. record {
      plan = judge.plan.now;
      state = judge.plain.line;
      count = judge.count;
      verdict = judge.verdict;
      box_no = judge.box_no;
    } };

    ghost invariant = { λ judge. IsJudge judge.plan.now judge.plain judge.count };
}

impl<'a> Judgement<'a> {
    ghost use Rattle.std.specs.Prelude.{◌≡◌, ◌++◌, ◌<◌, ◌+◌, ◌^◌, ℕ, IfOk, OnOk, string_bytes};
    ghost use Rattle.line_law.specs.States.{IsStateOf};
    ghost use Rattle.line_law.specs.declared.call.Reply.{Reply};
    ghost use Rattle.line_report.specs.Verdicts.{CanPrint, MayHear, found_text, heard, opening_judge};

    /// A judge who has heard nothing.
    pub(crate) fn open(alloc: Global, plan: &'a Plan) -> Result<Judgement<'a>, NoMemory>
        ensures { IfOk result (λ judge. judge ≡ opening_judge plan.now) }
    {
        Ok(Judgement {
            plan,
            plain: Plain::open(alloc, plan)?,
            count: 0,
            verdict: Verdict::Legal,
            box_no: 0,
        })
    }

    /// Hears an entry more. It takes no memory.
    pub(crate) fn hear(&mut self, entry: &Entry)
        requires few { self.old.count + 1 < 2 ^ 32 }
        requires call { MayHear self.old entry.now }
        ensures heard { self.new ≡ heard self.old entry.now }
        ensures line { IsStateOf self.new.plan self.new.state }
    {
        self.count += 1;
        if let Verdict::Legal = self.verdict {
            let law = self.plain.perform(self.plan, entry.box_no, &entry.call);
            if !entry.reply.is_same(&law) {
                self.box_no = entry.box_no;
                self.verdict = Verdict::WrongAt {
                    line: self.count,
                    said: entry.reply,
                    law,
                };
            }
        }
    }

    /// What he finds of the entries so far.
    pub(crate) fn verdict(&self) -> Verdict
        ensures { result ≡ self.now.verdict }
    {
        self.verdict
    }

    /// What he finds, as it is printed.
    pub(crate) fn put_found(&self, out: &mut String) -> Result<(), AllocError>
        requires { (k : ℕ) (said law : Reply) → self.now.verdict ≡ Verdict.WrongAt k said law
            → CanPrint self.now.plan self.now.box_no said law }
        ensures { OnOk result (string_bytes out.new ≡ string_bytes out.old ++ found_text self.now) }
    {
        match self.verdict {
            Verdict::Legal => put_legal(out, self.count),
            Verdict::WrongAt { line, said, law } => {
                put_wrong(out, self.plan, self.box_no, line, &said, &law)
            }
        }
    }
}

// A judge who has heard nothing hears these entries.
fn hear_all(judge: &mut Judgement<'_>, entries: &[Entry])
    requires opening { judge.old ≡ opening_judge judge.old.plan }
    requires asked { AreAsked judge.old.plan entries.now }
    requires few { AreFewEntries entries.now }
    ensures { judge.new ≡ heard_all judge.old entries.now }
{
    judge.plan.meets_conditions();
    for entry in entries {
        judge.hear(entry);
    }
}

/// Judges a journal: whether each reply is the law's. The calls of each box are ones that the plan knows, with moments
/// that don't fall, as `read_journal` gives them; and there are fewer than 2^32 entries. A journal is legal exactly
/// where no reply is wrong; else the first that is wrong is named.
#[tactic(auto, using(crate::proofs::Verdicts::legal_exactly, crate::proofs::Verdicts::wrong_exactly, crate::proofs::Heard::all_heard))]
pub fn judge(alloc: Global, plan: &Plan, journal: &Journal) -> Result<Verdict, NoMemory>
    requires asked { AreAsked plan.now journal.now.entries }
    requires few { AreFewEntries journal.now.entries }
    ensures exact { IfOk result (λ verdict. verdict ≡ verdict_of plan.now journal.now.entries) }
    ensures legal { IfOk result (λ verdict. verdict ≡ Verdict.Legal ↔ IsLegal plan.now journal.now.entries) }
    ensures wrong { (k : ℕ) (said law : Reply) → result ≡ Ok (Verdict.WrongAt k said law)
        → IsWrongAt plan.now journal.now.entries k said law }
{
    plan.meets_conditions();
    let mut judge = Judgement::open(alloc, plan)?;
    hear_all(&mut judge, journal.entries.as_slice());
    let verdict = judge.verdict();
    drop(judge);
    Ok(verdict)
}

// The line of a legal journal of so many entries.
#[tactic(auto, unfolding(crate::specs::Verdicts::legal_text))]
fn put_legal(out: &mut String, count: u32) -> Result<(), AllocError>
    ensures { OnOk result (string_bytes out.new ≡ string_bytes out.old ++ legal_text count) }
{
    write!(out, "legal {count}\n")
}

// The lines of a wrong entry of a box: its number, what the journal says there, and what the law says.
#[tactic(auto, unfolding(crate::specs::Verdicts::wrong_text))]
fn put_wrong(
    out: &mut String,
    plan: &Plan,
    box_no: u32,
    line: u32,
    said: &Reply,
    law: &Reply,
) -> Result<(), AllocError>
    requires box_no { box_no < length plan.now.boxes }
    requires said { IsTrue (is_spelled_reply plan.now box_no said.now) }
    requires law { IsTrue (is_spelled_reply plan.now box_no law.now) }
    ensures { OnOk result (string_bytes out.new
        ≡ string_bytes out.old ++ wrong_text plan.now box_no line said.now law.now) }
{
    write!(out, "wrong at {line}\nsaid ")?;
    put_reply(out, plan, box_no, said)?;
    out.push_str("\nlaw ")?;
    put_reply(out, plan, box_no, law)?;
    out.push_str("\n")
}
