//! A session: one man at his own box, and the others by their scripts.

ghost use Rattle.std.specs.Prelude.{◌≡◌, ◌+◌, ◌<◌, ◌^◌, ◌++◌, ◌∷◌, [], IfOk, length};
ghost use mathlib.Core.List.{IsPrefix};
ghost use Rattle.line_law.specs.Law.{MayCall, step};
ghost use Rattle.line_law.specs.Serial.{calls_left, count_left};
ghost use Rattle.box_session.specs.Others.{call_from};
ghost use Rattle.box_session.specs.Works.{IsAfter, IsGoingOn};

use crate::made_call::{MOST_MADE, MadeCall};
use crate::others::{go_on, work_call};
use crate::work::{Work, open_work, work_again};
use line_law::{Call, Entry, Journal, Plain, Reply, knows};
use line_plan::{Items, Plan};
use rail_text::NoMemory;
use script_text::Script;
use std::alloc::{AllocError, Global};
use std::marker::Model;

/// A session. Contracts see the plan, his box, the scripts, his calls that aren't taken back, and whether the line is
/// worked as far as the journal, which these determine.
#[derive(Drop)]
pub struct Session<'a> {
    plan: &'a Plan,
    box_no: u32,
    scripts: &'a [Script],
    entries: Vec<Entry>,
    made: Vec<MadeCall>,
    work: Work<'a>,
    is_worked: bool,
}

impl<'a> Model for Session<'a> {
    ghost use Rattle.box_session.specs.Sessions.{SessionFields};

    ghost Value = { SessionFields };

    ghost use Rattle.box_session.specs.Works.{IsKept, calls_made};
    ghost use Rattle.serial_working.specs.Rosters.{calls_of_scripts};

    ghost view = { λ s. record {
      plan = s.plan.now;
      box_no = s.box_no;
      scripts = calls_of_scripts s.scripts.now;
      calls = calls_made s.made.items;
      is_worked = s.is_worked;
    } };

    ghost invariant = { λ s. IsKept s.plan.now s.box_no s.scripts.now s.entries.items s.made.items s.is_worked
        s.work.line s.work.roster };
}

// The man of a box makes a call, which is kept with its place, and the others go on. Where memory runs out, only calls
// and entries were added.
fn work_made(
    work: &mut Work<'_>,
    plan: &Plan,
    box_no: u32,
    call: &Call,
    entries: &mut Vec<Entry>,
    made: &mut Vec<MadeCall>,
) -> Result<Reply, AllocError>
    requires going { IsGoingOn plan.now work.old.line work.old.roster }
    requires few { work.old.line.calls + count_left work.old.roster + 1 < 2 ^ 32 }
    requires call { MayCall plan.now work.old.line.line box_no call.now }
    requires own { calls_left work.old.roster box_no ≡ [] }
    ensures grows { IsPrefix entries.old.items entries.new.items }
    ensures more { IsPrefix made.old.items made.new.items }
    ensures reply { IfOk result (λ reply. reply ≡ (step plan.now work.old.line.line box_no call.now).reply) }
    ensures entries { IfOk result (λ _. entries.new.items ≡ entries.old.items
        ++ call_from plan.now work.old.line.line work.old.roster box_no call.now) }
    ensures made { IfOk result (λ _. made.new.items ≡ made.old.items
        ++ record { call = call.now; place = length entries.old.items } ∷ []) }
    ensures after { IfOk result (λ _. IsAfter plan.now work.old.line work.old.roster
        (call_from plan.now work.old.line.line work.old.roster box_no call.now) work.new.line work.new.roster) }
{
    let place = entries.len();
    made.push(MadeCall { call: *call, place })?;
    work_call(work, plan, box_no, call, entries)
}

impl<'a> Session<'a> {
    ghost use Rattle.std.specs.Prelude.{◌≡◌, ◌<◌, ◌≤◌, ◌↔◌, ◌^◌, ◌++◌, ◌∷◌, [], nat_le, true, false, IfOk, IfErr};
    ghost use Rattle.std.specs.Prelude.{IsTrue, length};
    ghost use Rattle.line_law.specs.History.{state_of};
    ghost use Rattle.line_plan.specs.Plans.{IsPlan};
    ghost use Rattle.line_law.specs.Law.{MayCall, step};
    ghost use Rattle.line_law.specs.Lines.{IsLineOf};
    ghost use Rattle.line_law.specs.Serial.{AreCalls, calls_left};
    ghost use Rattle.line_law.specs.States.{box_at};
    ghost use Rattle.serial_working.specs.Rosters.{calls_of_scripts};
    ghost use Rattle.text_fetch.specs.Runs.{AreScriptsOf};
    ghost use Rattle.box_session.specs.Sessions.{IsSession, TakesBack, journal_of, last_moment};
    ghost use Rattle.box_session.specs.Works.{ArePlaced, calls_made};

    /// The line opens, and the others go on by their scripts up to where each is stopped or has ended. The script of
    /// his own box is empty.
    pub fn begin(
        alloc: Global,
        plan: &'a Plan,
        box_no: u32,
        scripts: &'a [Script],
    ) -> Result<Session<'a>, NoMemory>
        requires scripts { AreScriptsOf plan.now scripts.now }
        requires box_no { box_no < length plan.now.boxes }
        requires own { calls_left (calls_of_scripts scripts.now) box_no ≡ [] }
        ensures { IfOk result (λ session. session ≡ record {
          plan = plan.now;
          box_no = box_no;
          scripts = calls_of_scripts scripts.now;
          calls = [];
          is_worked = true;
        }) }
    {
        plan.meets_conditions();
        let mut work = open_work(alloc, plan, scripts)?;
        let mut entries = Vec::new(alloc);
        match go_on(&mut work, plan, &mut entries) {
            Ok(()) => {
                let made = Vec::new(alloc);
                Ok(Session {
                    plan,
                    box_no,
                    scripts,
                    entries,
                    made,
                    work,
                    is_worked: true,
                })
            }
            Err(AllocError) => {
                drop(work);
                drop(entries);
                Err(NoMemory)
            }
        }
    }

    /// Shows a proof what every session is.
    pub fn meets_conditions(&self)
        ensures session { IsSession self.now.plan self.now.scripts self.now.box_no self.now.calls
            (journal_of self.now) }
        ensures few { length self.now.calls ≤ MOST_MADE }
        ensures calls { AreCalls self.now.plan self.now.box_no 0 self.now.calls }
        ensures at { self.now.box_no < length self.now.plan.boxes }
        ensures plan { IsPlan self.now.plan }
        ensures short { length (journal_of self.now) < 2 ^ 32 }
    {
        self.plan.meets_conditions();
    }

    /// Whether he has made as many calls as he may.
    pub fn is_full(&self) -> bool
        ensures { result ≡ nat_le MOST_MADE (length self.now.calls) }
    {
        self.made.len() >= MOST_MADE
    }

    /// The moment of his last call, or 0.
    pub fn moment(&self) -> u32
        ensures { result ≡ last_moment self.now.calls }
    {
        match self.made.last() {
            Some(made) => made.call.moment,
            None => 0,
        }
    }

    /// The plan.
    pub fn plan(&self) -> &'a Plan
        ensures { result.now ≡ self.now.plan }
    {
        self.plan
    }

    /// His box.
    pub fn box_no(&self) -> u32
        ensures { result ≡ self.now.box_no }
    {
        self.box_no
    }

    // The moment of his box, as the journal leaves it.
    fn moment_there(&self) -> u32
        ensures { result ≡ (box_at (state_of self.now.plan (journal_of self.now)) self.now.box_no).moment }
    {
        self.meets_conditions();
        self.moment()
    }

    /// Whether he may make a call now: the plan knows it, and its moment isn't below that of his last one.
    pub fn may_call(&self, call: &Call) -> bool
        ensures { IsTrue result
            ↔ MayCall self.now.plan (state_of self.now.plan (journal_of self.now)) self.now.box_no call.now }
    {
        knows(self.plan(), self.box_no(), call) && self.moment_there() <= call.moment
    }

    /// What was done so far, by him and the others.
    pub fn journal(&self) -> &[Entry]
        ensures { result.now ≡ journal_of self.now }
    {
        &self.entries
    }

    /// His calls, in order, each with its place in the journal.
    pub fn calls(&self) -> &[MadeCall]
        ensures calls { calls_made result.now ≡ self.now.calls }
        ensures places { ArePlaced self.now.plan self.now.scripts self.now.box_no [] result.now }
    {
        &self.made
    }

    /// Whether the line is worked as far as the journal. It isn't where a call was taken back since.
    pub fn is_worked(&self) -> bool
        ensures { result ≡ self.now.is_worked }
    {
        self.is_worked
    }

    /// Works the line again as far as the journal, where it isn't.
    pub fn work_again(&mut self, alloc: Global) -> Result<(), NoMemory>
        ensures done { IfOk result (λ _. self.new ≡ record self.old { is_worked = true }) }
        ensures not_done { IfErr result (λ _. self.new ≡ self.old) }
    {
        if self.is_worked {
            return Ok(());
        }
        let plan = self.plan;
        plan.meets_conditions();
        let entries = self.entries.as_slice();
        let work = work_again(alloc, plan, self.scripts, self.box_no, entries)?;
        self.work = work;
        self.is_worked = true;
        Ok(())
    }

    /// The line as the journal leaves it.
    pub fn line(&self) -> &Plain
        requires { IsTrue self.now.is_worked }
        ensures state { result.now
            ≡ record { line = state_of self.now.plan (journal_of self.now); calls = length (journal_of self.now) } }
        ensures line { IsLineOf self.now.plan result.now }
        ensures few { result.now.calls < 2 ^ 32 }
    {
        self.plan.meets_conditions();
        &self.work.line
    }

    /// The reply that a call would get now, with nothing changed.
    pub fn answer(&self, call: &Call) -> Reply
        requires worked { IsTrue self.now.is_worked }
        requires call { MayCall self.now.plan (state_of self.now.plan (journal_of self.now)) self.now.box_no call.now }
        ensures { result ≡ (step self.now.plan (state_of self.now.plan (journal_of self.now)) self.now.box_no
            call.now).reply }
    {
        self.line().answer(self.plan(), self.box_no(), call)
    }

    // A call is made on the line as the journal leaves it.
    fn make_here(&mut self, call: &Call) -> Result<Reply, NoMemory>
        requires worked { IsTrue self.old.is_worked }
        requires room { length self.old.calls < MOST_MADE }
        requires call { MayCall self.old.plan (state_of self.old.plan (journal_of self.old)) self.old.box_no call.now }
        ensures reply { IfOk result (λ reply. reply ≡ (step self.old.plan
            (state_of self.old.plan (journal_of self.old)) self.old.box_no call.now).reply) }
        ensures made { IfOk result (λ _. self.new ≡ record self.old { calls = self.old.calls ++ call.now ∷ [] }) }
        ensures not_made { IfErr result (λ _. self.new ≡ record self.old { is_worked = self.new.is_worked }) }
    {
        let plan = self.plan;
        plan.meets_conditions();
        let count = self.made.len();
        let place = self.entries.len();
        match work_made(
            &mut self.work,
            plan,
            self.box_no,
            call,
            &mut self.entries,
            &mut self.made,
        ) {
            Ok(reply) => Ok(reply),
            Err(AllocError) => {
                self.made.truncate(count);
                self.entries.truncate(place);
                self.is_worked = false;
                Err(NoMemory)
            }
        }
    }

    /// He makes a call, and the others go on. Where memory runs out, the call isn't made.
    pub fn make(&mut self, alloc: Global, call: &Call) -> Result<Reply, NoMemory>
        requires room { length self.old.calls < MOST_MADE }
        requires call { MayCall self.old.plan (state_of self.old.plan (journal_of self.old)) self.old.box_no call.now }
        ensures reply { IfOk result (λ reply. reply ≡ (step self.old.plan
            (state_of self.old.plan (journal_of self.old)) self.old.box_no call.now).reply) }
        ensures made { IfOk result (λ _. self.new
            ≡ record self.old { calls = self.old.calls ++ call.now ∷ []; is_worked = true }) }
        ensures not_made { IfErr result (λ _. self.new ≡ record self.old { is_worked = self.new.is_worked }) }
    {
        self.work_again(alloc)?;
        self.make_here(call)
    }

    /// Takes back his last call, if he has made one, and all that the others did since. It takes no memory.
    pub fn undo(&mut self) -> Option<Call>
        ensures { TakesBack self.old self.new result }
    {
        let Some(last) = self.made.pop() else {
            return None;
        };
        self.entries.truncate(last.place);
        self.is_worked = false;
        Some(last.call)
    }

    /// The session ends with its journal.
    pub fn end(self) -> Journal
        ensures { result.entries ≡ journal_of self.entry }
    {
        let Session {
            plan: _,
            box_no: _,
            scripts: _,
            entries,
            made,
            work,
            is_worked: _,
        } = self;
        drop(made);
        drop(work);
        Journal {
            entries: Items::from_vec(entries),
        }
    }
}
