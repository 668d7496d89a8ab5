//! The incoming lines of a box, each with its Welwyn control or its permit.

ghost use Rattle.std.specs.Prelude.{◌≡◌, ◌+◌, ◌<◌, ◌≤◌, ◌^◌, ℕ, Option, IfSome, IsSome, IsTrue, None, Some, option_map};
ghost use Rattle.std.specs.Prelude.{◌↔◌};
ghost use Rattle.line_law.specs.Arrivals.{line_berthed, line_cleared, line_parted};
ghost use Rattle.line_law.specs.Controls.{berthed_control, given, left_control};
ghost use Rattle.line_law.specs.Instruments.{line_turned};
ghost use Rattle.line_law.specs.States.{control_of as opening_control_of, opening_line};
ghost use Rattle.welwyn_control.specs.Releases.{ComesAt, winding_after};
ghost use Rattle.box_desk.specs.IncomingLines.{IsFree, LetsTurn, Suits, SuitsBerth, control_after, control_of};
ghost use Rattle.box_desk.specs.IncomingLines.{incoming_of, winding_of};

use block_words::Position;
use line_plan::Berth;
use welwyn_control::{Permit, ReleaseReply, Welwyn};

/// What holds the commutator of an incoming line back from a further Line Clear.
#[derive(Clone, Copy, Debug, PartialEq, Eq)]
pub(crate) enum LineControl {
    Absolute(Welwyn),
    Permissive(Permit),
}

/// What a desk has of an incoming line.
#[derive(Clone, Copy, Debug, PartialEq, Eq)]
pub(crate) struct IncomingLine {
    /// What its commutator shows.
    pub(crate) position: Position,
    /// How many times the commutator was turned.
    pub(crate) turns: u64,
    pub(crate) control: LineControl,
    /// How many trains were taken off the plain line.
    pub(crate) taken: u64,
    /// The train whose left portion stands on the plain line.
    pub(crate) portion: Option<u32>,
}

impl LineControl {
    // A line that is permissive of so many trains, or absolute.
    fn new(most: Option<u8>) -> LineControl
        requires { IfSome most (λ n. (1 ≤ n) × (n ≤ 3)) }
        ensures suits { Suits most result }
        ensures control { control_of result ≡ opening_control_of most }
        ensures winding { winding_of result ≡ None }
    {
        match most {
            Some(most) => LineControl::Permissive(Permit::new(most)),
            None => LineControl::Absolute(Welwyn::new()),
        }
    }

    // Line Clear is given.
    fn give(&mut self)
        requires { IsFree self.old }
        ensures suits { (most : Option ℕ) → Suits most self.old → Suits most self.new }
        ensures control { control_of self.new ≡ given (control_of self.old) }
        ensures winding { winding_of self.new ≡ None }
    {
        match self {
            LineControl::Absolute(welwyn) => welwyn.give(),
            LineControl::Permissive(permit) => permit.give(),
        }
    }

    // A train has come to the berth.
    fn berthed(&mut self)
        ensures suits { (most : Option ℕ) → Suits most self.old → Suits most self.new }
        ensures control { control_of self.new ≡ berthed_control (control_of self.old) }
        ensures winding { winding_of self.new ≡ None }
    {
        match self {
            LineControl::Absolute(welwyn) => welwyn.berthed(),
            LineControl::Permissive(permit) => permit.berthed(),
        }
    }

    // A train has left the berth.
    fn cleared(&mut self)
        ensures suits { (most : Option ℕ) → Suits most self.old → Suits most self.new }
        ensures control { control_of self.new ≡ left_control (control_of self.old) }
        ensures winding { winding_of self.new ≡ winding_of self.old }
    {
        match self {
            LineControl::Absolute(welwyn) => welwyn.cleared(),
            LineControl::Permissive(permit) => permit.cleared(),
        }
    }

    /// Whether a release was begun and not completed.
    pub(crate) fn winding(&self) -> bool
        ensures { IsTrue result ↔ IsSome (winding_of self.now) }
    {
        match self {
            LineControl::Absolute(welwyn) => welwyn.winding(),
            LineControl::Permissive(permit) => permit.winding(),
        }
    }

    /// Begins a release, where none was begun, and gives the moment from which it may come.
    pub(crate) fn wind(&mut self, moment: u32, delay: u32) -> u32
        requires few { moment + delay < 2 ^ 32 }
        requires none { winding_of self.old ≡ None }
        ensures suits { (most : Option ℕ) → Suits most self.old → Suits most self.new }
        ensures ready { result ≡ moment + delay }
        ensures control { control_of self.new ≡ control_of self.old }
        ensures winding { winding_of self.new ≡ Some (moment + delay) }
    {
        let ready_at = match self {
            LineControl::Absolute(welwyn) => welwyn.wind(moment, delay),
            LineControl::Permissive(permit) => permit.wind(moment, delay),
        };
        ready_at.unwrap()
    }

    /// Completes a release at a moment.
    pub(crate) fn release(&mut self, moment: u32) -> ReleaseReply
        ensures suits { (most : Option ℕ) → Suits most self.old → Suits most self.new }
        ensures reply { ComesAt result (winding_of self.old) moment }
        ensures control { control_of self.new ≡ control_after result (control_of self.old) }
        ensures winding { winding_of self.new ≡ winding_after result (winding_of self.old) }
    {
        match self {
            LineControl::Absolute(welwyn) => welwyn.release(moment),
            LineControl::Permissive(permit) => permit.release(moment),
        }
    }
}

impl IncomingLine {
    /// The incoming line that has this berth, as the line opens; one without a berth is absolute.
    pub(crate) fn open(berth: Option<&Berth>) -> IncomingLine
        requires { IfSome (option_map (λ berth. berth.now) berth) (λ berth. IfSome berth.permissive
            (λ n. (1 ≤ n) × (n ≤ 3))) }
        ensures suits { SuitsBerth (option_map (λ berth. berth.now) berth.entry) result.control }
        ensures line { incoming_of result ≡ opening_line (option_map (λ berth. berth.now) berth.entry) }
    {
        let most = match berth {
            Some(berth) => berth.permissive,
            None => None,
        };
        IncomingLine {
            position: Position::Normal,
            turns: 0,
            control: LineControl::new(most),
            taken: 0,
            portion: None,
        }
    }

    /// Its commutator is turned once more; Line Clear is given, and ends a winding.
    pub(crate) fn turn(&mut self, position: Position)
        requires few { self.old.turns < 2 ^ 32 }
        requires free { LetsTurn position self.old.control }
        ensures suits { (most : Option ℕ) → Suits most self.old.control → Suits most self.new.control }
        ensures line { incoming_of self.new ≡ line_turned (incoming_of self.old) position (self.old.turns + 1) }
    {
        self.position = position;
        self.turns += 1;
        if position == Position::LineClear {
            self.control.give();
        }
    }

    /// Its train with this number has come whole into the berth.
    pub(crate) fn berth(&mut self, j: u64)
        ensures suits { (most : Option ℕ) → Suits most self.old.control → Suits most self.new.control }
        ensures line { incoming_of self.new ≡ line_berthed (incoming_of self.old) j }
    {
        self.taken = j;
        self.control.berthed();
    }

    /// This train has come into the berth and left a portion behind.
    pub(crate) fn part(&mut self, train: u32)
        ensures suits { (most : Option ℕ) → Suits most self.old.control → Suits most self.new.control }
        ensures line { incoming_of self.new ≡ line_parted (incoming_of self.old) train }
    {
        self.portion = Some(train);
        self.control.berthed();
    }

    /// The left portion of its train with this number was cleared away.
    pub(crate) fn clear(&mut self, j: u64)
        ensures suits { (most : Option ℕ) → Suits most self.old.control → Suits most self.new.control }
        ensures line { incoming_of self.new ≡ line_cleared (incoming_of self.old) j }
    {
        self.taken = j;
        self.portion = None;
    }

    /// A train has left its berth.
    pub(crate) fn leave(&mut self)
        ensures suits { (most : Option ℕ) → Suits most self.old.control → Suits most self.new.control }
        ensures line { incoming_of self.new ≡ record (incoming_of self.old) {
          control = left_control (control_of self.old.control);
        } }
    {
        self.control.cleared();
    }
}
