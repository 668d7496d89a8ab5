//! A service: a plan, the calls made so far, the line as they leave it, and what is left of the scripts.

use crate::others::{Work, go_on, no_scripts, work_call};
use crate::replay::{bring, line_behind};
use line_law::{Call, Entry, Plain};
use line_plan::Plan;
use look_records::changes_text;
use rail_text::NoMemory;
use script_text::Script;
use std::alloc::{AllocError, Global};
use std::marker::Model;

/// The most entries that a service keeps, those counted that are still to come by scripts.
pub const MOST_ENTRIES: usize = 4_294_967_294;

/// A line that is held for a program of others. Contracts see the plan, the calls made so far with their replies, and
/// what is left of each box's script; the line is as the calls leave it.
#[derive(Drop)]
pub struct Service {
    plan: Plan,
    work: Work,
    entries: Vec<Entry>,
    earlier: Plain,
    earlier_count: usize,
}

impl Model for Service {
    ghost use Rattle.line_service.specs.Services.{IsHeld, ServiceFields};

    ghost Value = { ServiceFields };

    ghost view = { λ s. record { plan = s.plan; entries = s.entries.items; left = s.work.roster } };

    ghost invariant = { λ s. IsHeld s.plan s.entries.items s.work.roster s.work.line s.earlier s.earlier_count };
}

impl Service {
    ghost use Rattle.std.specs.Prelude.{◌≡◌, ◌<◌, ◌≤◌, ◌^◌, IfErr, IfOk, OnErr, OnOk, length, nat_le, nat_lt, not};
    ghost use Rattle.std.specs.Prelude.{string_bytes, take};
    ghost use Rattle.line_plan.specs.Plans.{IsPlan};
    ghost use Rattle.line_law.specs.History.{IsLegal, entry_of, state_of};
    ghost use Rattle.line_law.specs.Law.{MayCall};
    ghost use Rattle.line_law.specs.Lines.{IsLineOf};
    ghost use Rattle.line_law.specs.Serial.{AreLeft};
    ghost use Rattle.line_law.specs.States.{box_at};
    ghost use Rattle.script_text.specs.Entries.{IsSpelled};
    ghost use Rattle.script_text.specs.Limits.{most_calls};
    ghost use Rattle.look_records.specs.Changes.{IsChangesText};
    ghost use Rattle.line_service.specs.Answers.{with_first};
    ghost use Rattle.line_service.specs.Calls.{MayFollow, with_entry};
    ghost use Rattle.line_service.specs.Scripts.{MayWork, with_script};
    ghost use Rattle.line_service.specs.Services.{count_in_all, gone_on, has_script, line_of, opening};

    /// The line of a plan as it opens, with no call made and no script given.
    pub fn new(alloc: Global, plan: Plan) -> Result<Service, NoMemory>
        ensures { IfOk result (λ service. service ≡ opening plan) }
    {
        plan.meets_conditions();
        let line = Plain::open(alloc, &plan)?;
        let earlier = Plain::open(alloc, &plan)?;
        let roster = no_scripts(alloc, &plan)?;
        Ok(Service {
            plan,
            work: Work { line, roster },
            entries: Vec::new(alloc),
            earlier,
            earlier_count: 0,
        })
    }

    /// Shows a proof what every service is.
    pub fn meets_conditions(&self)
        ensures plan { IsPlan self.now.plan }
        ensures legal { IsLegal self.now.plan self.now.entries }
        ensures left { AreLeft self.now.plan (line_of self.now) self.now.left }
        ensures few { count_in_all self.now < 2 ^ 32 }
    {
        self.plan.meets_conditions();
    }

    /// The plan.
    pub fn plan(&self) -> &Plan
        ensures { result.now ≡ self.now.plan }
    {
        &self.plan
    }

    /// The calls made so far, with their replies.
    pub fn entries(&self) -> &[Entry]
        ensures { result.now ≡ self.now.entries }
    {
        &self.entries
    }

    /// Whether there are as many entries as may be, those counted that are still to come.
    pub fn is_full(&self) -> bool
        ensures { result ≡ nat_le MOST_ENTRIES (count_in_all self.now) }
    {
        self.entries.len() + self.work.roster.count() >= MOST_ENTRIES
    }

    /// Whether a box is worked by its script, which has calls left.
    pub fn has_script(&self, box_no: u32) -> bool
        requires { box_no < length self.now.plan.boxes }
        ensures { result ≡ has_script self.now box_no }
    {
        self.meets_conditions();
        self.work.roster.count_of(box_no as usize) > 0
    }

    /// Whether there is room for the entries of a script, in the place of what is left of its box's earlier one.
    pub fn has_room(&self, script: &Script) -> bool
        requires at { script.now.box_no < length self.now.plan.boxes }
        requires few { length script.now.calls ≤ most_calls }
        ensures { result ≡ not (nat_lt MOST_ENTRIES (count_in_all (with_script self.now script.now))) }
    {
        self.meets_conditions();
        let left = self.work.roster.count() - self.work.roster.count_of(script.box_no as usize);
        self.entries.len() + left + script.calls.len() <= MOST_ENTRIES
    }

    /// The line as the calls leave it.
    pub fn line(&self) -> &Plain
        ensures state { result.now ≡ record { line = line_of self.now; calls = length self.now.entries } }
        ensures line { IsLineOf self.now.plan result.now }
        ensures few { result.now.calls < 2 ^ 32 }
    {
        self.plan.meets_conditions();
        &self.work.line
    }

    /// The moment of a box's last call, or 0.
    pub fn last_moment(&self, box_no: u32) -> u32
        requires { box_no < length self.now.plan.boxes }
        ensures { result ≡ (box_at (line_of self.now) box_no).moment }
    {
        self.line().boxes()[box_no as usize].moment
    }

    /// The entry of a call that may be made now. Nothing is changed.
    pub fn entry_of(&self, box_no: u32, call: &Call) -> Entry
        requires { MayCall self.now.plan (line_of self.now) box_no call.now }
        ensures { result ≡ entry_of self.now.plan (line_of self.now) box_no call.now }
    {
        let reply = self.line().answer(&self.plan, box_no, call);
        Entry {
            box_no,
            call: *call,
            reply,
        }
    }

    /// Shows a proof that an entry can be printed which the law allows behind those that are there.
    #[tactic(auto, using(crate::proofs::Kept::spelled_next))]
    pub fn is_spelled(&self, entry: &Entry)
        requires { MayFollow self.now entry.now }
        ensures { IsSpelled self.now.plan entry.now }
    {
        self.meets_conditions();
        let _ = entry;
    }

    /// Goes back to where there were so many entries, and no box has a script any more. Where memory runs out, nothing
    /// is changed.
    pub fn go_back(&mut self, alloc: Global, count: usize) -> Result<(), NoMemory>
        requires { count ≤ length self.old.entries }
        ensures back { IfOk result (λ _. self.new ≡ with_first self.old count) }
        ensures kept { IfErr result (λ _. self.new ≡ self.old) }
    {
        self.plan.meets_conditions();
        let line = line_behind(alloc, &self.plan, &self.entries, count)?;
        let earlier = Plain::open(alloc, &self.plan)?;
        let roster = no_scripts(alloc, &self.plan)?;
        self.work = Work { line, roster };
        self.earlier = earlier;
        self.earlier_count = 0;
        self.entries.truncate(count);
        Ok(())
    }

    /// Makes the call of an entry which the law allows behind those that are there, and then the boxes go on that have
    /// scripts. Where memory runs out, nothing is changed.
    pub fn keep(&mut self, entry: Entry) -> Result<(), AllocError>
        requires { MayFollow self.old entry }
        ensures made { OnOk result (self.new ≡ gone_on (with_entry self.old entry)) }
        ensures not_made { OnErr result (self.new ≡ self.old) }
    {
        let count = self.work.roster.count();
        self.entries.reserve(count + 1)?;
        work_call(&mut self.work, &self.plan, &mut self.entries, &entry);
        Ok(())
    }

    /// Gives a box a script to work by, in the place of what is left of an earlier one, and then the boxes go on that
    /// have scripts. Where memory runs out, nothing is changed.
    pub fn work_by(&mut self, script: Script) -> Result<(), AllocError>
        requires { MayWork self.old script }
        ensures given { OnOk result (self.new ≡ gone_on (with_script self.old script)) }
        ensures not_given { OnErr result (self.new ≡ self.old) }
    {
        self.plan.meets_conditions();
        let Script { box_no, calls } = script;
        let count = self.work.roster.count();
        self.entries.reserve(count + calls.len())?;
        self.work.roster.give(box_no as usize, calls);
        go_on(&mut self.work, &self.plan, &mut self.entries);
        Ok(())
    }

    /// The text of what stands otherwise on the line than it did behind so many entries. Nothing is changed. What is
    /// asked of the same number or of a later one than before costs no more than the entries between.
    pub fn changes_since(&mut self, alloc: Global, count: usize) -> Result<String, NoMemory>
        requires { count ≤ length self.old.entries }
        ensures text { IfOk result (λ text. IsChangesText self.old.plan
            (state_of self.old.plan (take count self.old.entries)) (line_of self.old) (length self.old.entries)
            (string_bytes text)) }
        ensures same { self.new ≡ self.old }
    {
        self.plan.meets_conditions();
        bring(
            alloc,
            &self.plan,
            &mut self.earlier,
            &self.entries,
            self.earlier_count,
            count,
        )?;
        self.earlier_count = count;
        let entries = self.entries.len() as u64;
        changes_text(alloc, &self.plan, &self.earlier, &self.work.line, entries)
    }
}
