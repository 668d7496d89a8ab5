//! What the man at his box has in hand: the session, and his clock.

use box_session::{MOST_MADE, Session};
use line_law::{Call, Entry};
use line_plan::Plan;
use rail_text::NoMemory;
use script_text::Script;
use std::alloc::Global;
use std::marker::Model;

/// The session of a man at his box, with his clock: the moment at which he makes his next call, where he types none.
/// Contracts see the session, and his clock before each of his calls and now.
#[derive(Drop)]
pub struct Duty<'a> {
    session: Session<'a>,
    befores: Vec<u32>,
    moment: u32,
}

impl<'a> Model for Duty<'a> {
    ghost use Rattle.hand_working.specs.Duties.{DutyFields};

    ghost Value = { DutyFields };

    ghost use Rattle.hand_working.specs.Duties.{AreDoings};

    ghost view = { λ duty. record { session = duty.session; befores = duty.befores.items; moment = duty.moment } };

    ghost invariant = { λ duty. AreDoings duty.session.plan.version
        (record { calls = duty.session.calls; befores = duty.befores.items; moment = duty.moment }) };
}

impl<'a> Duty<'a> {
    ghost use Rattle.std.specs.Prelude.{◌≡◌, ◌<◌, ◌≤◌, ◌∷◌, [], All, IfErr, IfOk, IfSome, IsTrue, None, length};
    ghost use Rattle.line_law.specs.History.{entry_of};
    ghost use Rattle.line_law.specs.Known.{KnowsCall, moments_of};
    ghost use Rattle.line_law.specs.Serial.{calls_left};
    ghost use Rattle.script_text.specs.Entries.{IsSpelled};
    ghost use Rattle.serial_working.specs.Rosters.{calls_of_scripts};
    ghost use Rattle.text_fetch.specs.Runs.{AreScriptsOf};
    ghost use Rattle.box_session.specs.Sessions.{last_moment};
    ghost use Rattle.hand_working.specs.Duties.{doings_of, journal_at, no_doings, post_of, state_at};
    ghost use Rattle.hand_working.specs.Duties.{taken_back, with_made};

    /// He comes on duty: the line opens, and the others go on by their scripts up to where each is stopped or has
    /// ended. The script of his own box is empty.
    pub fn begin(
        alloc: Global,
        plan: &'a Plan,
        box_no: u32,
        scripts: &'a [Script],
    ) -> Result<Duty<'a>, NoMemory>
        requires scripts { AreScriptsOf plan.now scripts.now }
        requires box_no { box_no < length plan.now.boxes }
        requires own { calls_left (calls_of_scripts scripts.now) box_no ≡ [] }
        ensures post { IfOk result (λ duty. post_of duty
            ≡ record { plan = plan.now; box_no = box_no; scripts = calls_of_scripts scripts.now }) }
        ensures fresh { IfOk result (λ duty. doings_of duty ≡ no_doings) }
    {
        let session = Session::begin(alloc, plan, box_no, scripts)?;
        Ok(Duty {
            session,
            befores: Vec::new(alloc),
            moment: 0,
        })
    }

    /// The session.
    pub fn session(&self) -> &Session<'a>
        ensures { result.now ≡ self.now.session }
    {
        &self.session
    }

    /// Shows a proof that all that was done so far can be printed.
    pub(crate) fn is_spelled(&self)
        ensures { All (IsSpelled self.now.session.plan) (journal_at (post_of self.now) (doings_of self.now)) }
    {
        self.session.meets_conditions();
    }

    /// His clock.
    pub fn moment(&self) -> u32
        ensures same { result ≡ self.now.moment }
        ensures day { result < moments_of self.now.session.plan.version }
        ensures later { last_moment self.now.session.calls ≤ result }
    {
        self.moment
    }

    /// Works the line again as far as the journal, where a call was taken back since.
    pub fn work_again(&mut self, alloc: Global) -> Result<(), NoMemory>
        ensures post { post_of self.new ≡ post_of self.old }
        ensures doings { doings_of self.new ≡ doings_of self.old }
        ensures worked { IfOk result (λ _. IsTrue self.new.session.is_worked) }
    {
        self.session.work_again(alloc)
    }

    /// He makes a call that his box knows, not before his clock, and the others go on. Where memory runs out, it isn't
    /// made.
    pub fn make(&mut self, alloc: Global, call: &Call) -> Result<Entry, NoMemory>
        requires known { KnowsCall self.old.session.plan self.old.session.box_no call.now }
        requires later { self.old.moment ≤ call.now.moment }
        requires room { length self.old.session.calls < MOST_MADE }
        ensures post { post_of self.new ≡ post_of self.old }
        ensures made { IfOk result (λ _. doings_of self.new ≡ with_made (doings_of self.old) call.now) }
        ensures entry { IfOk result (λ entry. entry ≡ entry_of self.old.session.plan
            (state_at (post_of self.old) (doings_of self.old)) self.old.session.box_no call.now) }
        ensures worked { IfOk result (λ _. IsTrue self.new.session.is_worked) }
        ensures spelled { IfOk result (λ entry. IsSpelled self.old.session.plan entry) }
        ensures not_made { IfErr result (λ _. doings_of self.new ≡ doings_of self.old) }
    {
        self.session.meets_conditions();
        self.befores.push(self.moment)?;
        match self.session.make(alloc, call) {
            Ok(reply) => {
                self.moment = call.moment;
                Ok(Entry {
                    box_no: self.session.box_no(),
                    call: *call,
                    reply,
                })
            }
            Err(NoMemory) => {
                self.befores.pop();
                Err(NoMemory)
            }
        }
    }

    /// His clock is set to a moment of the day that isn't before it.
    pub fn set_clock(&mut self, moment: u32)
        requires later { self.old.moment ≤ moment }
        requires day { moment < moments_of self.old.session.plan.version }
        ensures { self.new ≡ record self.old { moment = moment } }
    {
        self.moment = moment;
    }

    /// He takes his last call back, if he has made one, and all that the others did since. It takes no memory.
    pub fn take_back(&mut self) -> Option<Call>
        ensures post { post_of self.new ≡ post_of self.old }
        ensures doings { doings_of self.new ≡ taken_back (doings_of self.old) }
        ensures none { result ≡ None → self.old.session.calls ≡ [] }
        ensures known { IfSome result (KnowsCall self.old.session.plan self.old.session.box_no) }
    {
        self.session.meets_conditions();
        let undone = self.session.undo();
        self.session.meets_conditions();
        let before = self.befores.pop().unwrap_or(self.moment);
        self.moment = before.max(self.session.moment());
        undone
    }
}
