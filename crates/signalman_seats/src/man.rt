//! A signalman.

ghost use Rattle.std.specs.Prelude.{◌≡◌, ◌+◌, ◌<◌, ◌≤◌, ℕ, [], ◌∷◌, Some, length};
ghost use mathlib.Core.List.{IsPrefix};
ghost use Rattle.line_law.specs.History.{IsLegal, part_of};
ghost use Rattle.line_plan.specs.Plans.{PlanFields};
ghost use Rattle.line_law.specs.Known.{KnowsCall, knows_call};
ghost use Rattle.instrument_rule.specs.Calls.{Sits};
ghost use Rattle.instrument_rule.specs.Posts.{plan_of, view_of};
ghost use Rattle.instrument_rule.specs.Rule.{Seen};
ghost use Rattle.instrument_rule.specs.Views.{twin_view};
ghost use Rattle.signalman_seats.specs.Men.{AreFittings, IsDrawn, IsFresh, IsOf, Performed};

use crate::fittings::Fittings;
use crate::looks::{Answer, work};
use crate::notes::PlanNotes;
use crate::pausing::{BacksOff, Pauses};
use box_desk::Desk;
use instrument_rule::{Line, Post};
use line_law::{Call, Entry, Reply};
use std::marker::Model;
use train_register::Register;

/// The signalman of one box: his post at the line's shared words, his desk, and his register.
///
/// He may go to another thread, and a line may be shared by threads, so that each of its men works on one. Contracts
/// see him as a `Man`, and say "of that line" by the table of words at which he has his post and by the line's plan.
#[derive(Drop)]
pub struct Signalman {
    post: Post,
    box_no: u32,
    desk: Desk,
    register: Register,
    looks_taken: u64,
    notes: PlanNotes,
}

impl Model for Signalman {
    ghost use Rattle.instrument_rule.specs.Posts.{view_of};
    ghost use Rattle.signalman_seats.specs.Men.{IsMan, Man};

    ghost Value = { Man };

    ghost view = { λ man. record {
      table_id = man.post.seat.table_id;
      view = view_of man.post;
      box_no = man.box_no;
      entries = man.register.entries;
      spare = man.register.spare;
      moment = man.desk.here.moment;
    } };

    ghost invariant = { λ man. IsMan (view_of man.post) man.box_no man.desk man.register man.looks_taken man.notes };
}

impl Signalman {
    // A man at a post that has just drawn his box, with what he works with there.
    pub(crate) fn at_post(post: Post, box_no: u32, fittings: Fittings) -> Signalman
        requires drawn { (plan : PlanFields) × (room : ℕ) × (box_no < length plan.boxes) × (room ≤ 10000)
            × IsDrawn plan box_no (view_of post)
            × AreFittings plan box_no room fittings.desk fittings.register fittings.notes }
        ensures { (plan : PlanFields) (room : ℕ) → IsDrawn plan box_no (view_of post)
            → AreFittings plan box_no room fittings.desk fittings.register fittings.notes
            → IsFresh post.seat.table_id plan box_no room result }
    {
        let Fittings {
            desk,
            register,
            notes,
        } = fittings;
        Signalman {
            post,
            box_no,
            desk,
            register,
            looks_taken: 0,
            notes,
        }
    }

    // His post and his register.
    pub(crate) fn into_parts(self) -> (Post, Register)
        ensures post { (result.0.seat.table_id ≡ self.table_id) × (view_of result.0 ≡ self.view) }
        ensures register { result.1 ≡ record { box_no = self.box_no; entries = self.entries; spare = self.spare } }
        ensures sits { (self.view.posts ≡ self.box_no ∷ []) × (self.view.olds ≡ []) }
        ensures part { self.entries ≡ part_of self.box_no self.view.seen }
        ensures glances { self.view.glances ≡ 0 }
    {
        let Self {
            post,
            box_no: _,
            desk,
            register,
            looks_taken: _,
            notes,
        } = self;
        drop(desk);
        drop(notes);
        (post, register)
    }

    /// His box, from 0.
    pub fn box_no(&self) -> u32
        ensures { result ≡ self.now.box_no }
    {
        self.box_no
    }

    /// How many more calls his register has room for.
    pub fn spare(&self) -> usize
        ensures { result ≡ self.now.spare }
    {
        self.register.spare()
    }

    /// All his calls so far with their replies, in order: his part of what he has seen. With those that his register
    /// still has room for, they are no more than a box may have.
    pub fn entries(&self) -> &[Entry]
        ensures value { result.now ≡ self.now.entries }
        ensures part { self.now.entries ≡ part_of self.now.box_no self.now.view.seen }
        ensures few { length self.now.entries + self.now.spare ≤ 10000 }
    {
        self.register.entries()
    }

    /// The moment of his last call; 0 before the first.
    pub fn moment(&self) -> u32
        ensures { result ≡ self.now.moment }
    {
        self.desk.moment()
    }

    /// Whether the plan of his line knows a call of his box: the line, lever, signal or train that the call names is
    /// there, its code is in the code table, and its moment is one of a day. Of any other call the answer is no.
    pub fn knows(&self, call: &Call) -> bool
        ensures { (plan : PlanFields) → self.now.view.plan ≡ Some plan
            → result ≡ knows_call plan self.now.box_no call.now }
    {
        self.notes.knows(self.desk.box_plan(), self.box_no, call)
    }

    /// How many looks his awaits have taken: all that he took, for he glances at nothing.
    pub fn looks_taken(&self) -> u64
        ensures value { result ≡ self.now.view.looks }
        ensures glances { self.now.view.glances ≡ 0 }
    {
        self.looks_taken
    }

    /// One call of his box, decided at one step on one word of the line. An await looks at its word, and at no other,
    /// until it is satisfied, so many times at most, and may pause between two looks. It takes no memory and waits for
    /// nobody.
    ///
    /// What he has seen has grown to a legal history of the line whose last entry is his box, this call and the reply,
    /// the one entry more of his part. So the reply is the law's after what stands before it there, after which the
    /// word of the call read as it did at the step; of a refusal [`refusal_law`](crate::refusal_law) says why it comes:
    ///
    /// - `BellBusy` and `Silent`: at the step the bell held an unheard code, or none.
    /// - `HeldByInstrument`: his box lets the lever move, and at the step the instrument wasn't at Line Clear unspent.
    /// - `SectionFull`: his box lets the train go, and at the step its lane was taken.
    /// - `NoTrainAt`: his box lets the train come, and at the step its lane was empty.
    /// - `BellNotYet`, `BlockNotYet` and `TrainNotYet`: he took exactly `looks` looks, all at the word of the call, and
    ///   none of them found what the call waits for.
    /// - Any other refusal: the state of his own box, whatever the others did.
    pub fn perform(&mut self, line: &Line, call: Call, looks: u32) -> Reply
        requires line { IsOf line.now.table.shared.table_id (plan_of line.now) self.old }
        requires spare { 0 < self.old.spare }
        requires looks { 1 ≤ looks }
        requires known { KnowsCall (plan_of line.now) self.old.box_no call }
        requires later { self.old.moment ≤ call.moment }
        ensures line { IsOf line.now.table.shared.table_id (plan_of line.now) self.new }
        ensures box_no { self.new.box_no ≡ self.old.box_no }
        ensures performed { Performed (plan_of line.now) self.old.box_no call looks result self.old.view
            self.new.view }
        ensures entries { self.new.entries ≡ part_of self.old.box_no self.new.view.seen }
        ensures spare { self.new.spare + 1 ≡ self.old.spare }
        ensures moment { self.new.moment ≡ call.moment }
    {
        self.perform_pausing(line, call, looks, &BacksOff::new())
    }

    /// As [`perform`](Signalman::perform), of which it has the very clauses, pausing between two looks as it is told.
    ///
    /// It returns if what it is handed does, and may wait through that alone.
    pub fn perform_pausing<P: Pauses>(
        &mut self,
        line: &Line,
        call: Call,
        looks: u32,
        pauses: &P,
    ) -> Reply
        requires line { IsOf line.now.table.shared.table_id (plan_of line.now) self.old }
        requires spare { 0 < self.old.spare }
        requires looks { 1 ≤ looks }
        requires known { KnowsCall (plan_of line.now) self.old.box_no call }
        requires later { self.old.moment ≤ call.moment }
        ensures line { IsOf line.now.table.shared.table_id (plan_of line.now) self.new }
        ensures box_no { self.new.box_no ≡ self.old.box_no }
        ensures performed { Performed (plan_of line.now) self.old.box_no call looks result self.old.view
            self.new.view }
        ensures entries { self.new.entries ≡ part_of self.old.box_no self.new.view.seen }
        ensures spare { self.new.spare + 1 ≡ self.old.spare }
        ensures moment { self.new.moment ≡ call.moment }
    {
        let Answer { reply, looks } = work(
            &mut self.post,
            line,
            &mut self.desk,
            &call,
            looks,
            pauses,
        );
        self.looks_taken += looks as u64;
        let box_no = self.box_no;
        let entry = Entry {
            box_no,
            call,
            reply,
        };
        self.register.push(entry);
        reply
    }

    /// A post that has seen as much as he and holds no box, from which to watch the line. It takes no memory.
    pub fn lend_watch(&mut self, line: &Line) -> Post
        requires { IsOf line.now.table.shared.table_id (plan_of line.now) self.old }
        ensures same { self.new ≡ self.old }
        ensures line { result.seat.table_id ≡ line.now.table.shared.table_id }
        ensures watch { view_of result ≡ twin_view self.old.view }
        ensures legal { IsLegal (plan_of line.now) self.old.view.seen }
    {
        self.post.split(line)
    }

    /// Takes back a post that holds no box: what it had seen is then a beginning of what he has seen, and all else of
    /// his stays. It takes no memory.
    pub fn take_watch(&mut self, line: &Line, post: Post)
        requires line { IsOf line.now.table.shared.table_id (plan_of line.now) self.old }
        requires table { post.seat.table_id ≡ line.now.table.shared.table_id }
        requires watch { Sits (plan_of line.now) (view_of post) × ((view_of post).posts ≡ []) }
        ensures line { IsOf line.now.table.shared.table_id (plan_of line.now) self.new }
        ensures mine { Seen self.new.view.seen self.old.view.posts self.old.view.seen }
        ensures others { IsPrefix (view_of post).seen self.new.view.seen }
        ensures kept { self.new ≡ record self.old { view = record self.old.view { seen = self.new.view.seen } } }
        ensures legal { IsLegal (plan_of line.now) self.new.view.seen }
    {
        self.post.join(line, post);
    }
}
