//! Calls, replies and journals.

use bell_codes::CodeNo;
use block_words::{Position, Way, WelwynState};
use line_plan::Items;

/// What a signalman does. Levers have their numbers in the frame; trains are numbered from 1.
#[derive(Clone, Copy, Debug, PartialEq, Eq)]
pub enum Act {
    /// He rings a code on the bell towards a side.
    Ring { side: Way, code: CodeNo },
    /// He hears the bell from a side.
    Hear { side: Way },
    /// He waits until the bell from a side has rung this code, and hears it.
    AwaitBell { side: Way, code: CodeNo },
    /// He turns the commutator of an incoming line.
    Turn { way: Way, position: Position },
    /// He waits until the instrument of an outgoing line shows this position.
    AwaitBlock { way: Way, position: Position },
    /// He pulls a lever.
    Pull { lever: u32 },
    /// He puts a lever back.
    Put { lever: u32 },
    /// A train of his box is brought to its place.
    Bring { train: u32 },
    /// A train passes the signal of a lever, whose arm is off.
    Pass { lever: u32 },
    /// A train passes the signal of a lever at danger.
    Overrun { lever: u32 },
    /// He waits until a train approaches on an incoming line.
    AwaitTrain { way: Way },
    /// The next train of an incoming line comes whole into the berth.
    Berth { way: Way },
    /// The next train of an incoming line comes into the berth and leaves a portion behind.
    BerthPart { way: Way },
    /// The left portion of an incoming line is cleared away.
    ClearPortion { way: Way },
    /// He begins to wind the release of an incoming line.
    Wind { way: Way },
    /// He releases the control of an incoming line, where the winding has lasted.
    Release { way: Way },
}

/// One call of a signalman: what he does, and when. A moment is in minutes where the plan has version 1, else in
/// seconds.
#[derive(Clone, Copy, Debug, PartialEq, Eq)]
pub struct Call {
    pub moment: u32,
    pub act: Act,
}

/// What a signalman is answered. Places are numbered from 0 in his box, trains and rows from 1. In each variant the
/// smaller fields stand first, which keeps a reply at sixteen bytes.
#[derive(Clone, Copy, Debug)]
pub enum Reply {
    /// The code was rung, the `k`th on that bell.
    Rung {
        k: u64,
    },
    /// Refused: the bell's `k`th code stands unheard.
    BellBusy {
        code: CodeNo,
        k: u64,
    },
    /// The bell's `k`th code was heard.
    Heard {
        code: CodeNo,
        k: u64,
    },
    /// Refused: no code stands unheard after the bell's `k`th.
    Silent {
        k: u64,
    },
    /// Refused: after `k` codes the bell shows another code, or none.
    BellNotYet {
        shown: Option<CodeNo>,
        k: u64,
    },
    /// The commutator was turned, for the `v`th time.
    Turned {
        v: u64,
    },
    /// Refused: the commutator shows that position.
    AlreadyThere,
    /// Refused: Line Clear is turned to from Normal alone.
    NotFromNormal,
    /// Refused: this home lever of the berth is reversed.
    HomeReversed {
        lever: u32,
    },
    /// Refused: a train stands on the berth or on a clearing place.
    TrackOccupied {
        place: u32,
        train: u32,
    },
    /// Refused: Welwyn control holds the commutator.
    WelwynHolds {
        state: WelwynState,
    },
    /// Refused: as many trains are out on the permissive line as it may hold.
    CountFull {
        out: u32,
    },
    /// The instrument shows the position, at its `v`th turn.
    Seen {
        v: u64,
    },
    /// Refused: at its `v`th turn the instrument shows another position.
    BlockNotYet {
        shown: Position,
        v: u64,
    },
    /// The lever was pulled.
    Pulled,
    /// The starter was pulled under the Line Clear of its instrument's `v`th turn.
    PulledUnder {
        v: u64,
    },
    /// Refused: the lever is reversed.
    AlreadyReversed,
    /// Refused: the lever is a spare one.
    Spare,
    /// Refused: a row of the locking table holds the lever by another one.
    HeldByLever {
        lever: u32,
        row: u32,
    },
    /// Refused: a train stands on a track circuit that locks the lever.
    HeldByTrack {
        place: u32,
        train: u32,
    },
    /// Refused: the starter's instrument didn't show Line Clear unspent. It is told as it stood before the call.
    HeldByInstrument {
        way: Way,
        shown: Position,
        spent: bool,
        v: u64,
    },
    /// The lever was put back.
    Put,
    /// Refused: the lever is normal.
    AlreadyNormal,
    /// The train stands at its place.
    Brought,
    /// Refused: the train was brought before.
    AlreadyBrought,
    /// Refused: a train stands in the way.
    Occupied {
        place: u32,
        train: u32,
    },
    /// The train passed the signal.
    Passed {
        train: u32,
    },
    /// The train passed the starter and entered the section, as its `k`th train.
    Entered {
        train: u32,
        k: u64,
    },
    /// Refused: no train stands at the signal.
    NoTrain,
    /// Refused: the arm is at danger.
    AtDanger,
    /// Refused: the arm is off.
    ArmOff,
    /// Refused: the plain line has no room for its `k`th train.
    SectionFull {
        k: u64,
    },
    /// The section's `j`th train approaches.
    Approaching {
        train: u32,
        j: u64,
    },
    /// Refused: the section's `j`th train isn't on the plain line.
    TrainNotYet {
        j: u64,
    },
    /// The section's `j`th train came whole into the berth.
    Berthed {
        train: u32,
        j: u64,
    },
    /// The section's `j`th train came into the berth and left a portion behind.
    PartBerthed {
        train: u32,
        j: u64,
    },
    /// Refused: the section's `j`th train isn't on the plain line.
    NoTrainAt {
        j: u64,
    },
    /// Refused: a train stands in the berth.
    BerthOccupied {
        train: u32,
    },
    /// Refused: a portion of this train is left on the plain line.
    PortionAhead {
        train: u32,
    },
    /// The left portion of the section's `j`th train was cleared away.
    Cleared {
        train: u32,
        j: u64,
    },
    /// Refused: no portion is left.
    NoPortion,
    /// The winding began; the release may come at this moment.
    Winding {
        ready_at: u32,
    },
    /// Refused: the winding has begun.
    AlreadyWinding,
    /// Refused: the commutator doesn't show Normal.
    NotAtNormal,
    /// The control was released.
    Released,
    /// Refused: no winding has begun.
    NotWinding,
    /// Refused: the winding lasts until this moment.
    TooSoon {
        ready_at: u32,
    },
}

/// A call that a box made, with its reply.
#[derive(Clone, Copy, Debug, PartialEq, Eq)]
pub struct Entry {
    pub box_no: u32,
    pub call: Call,
    pub reply: Reply,
}

/// What happened on a line, call by call.
#[derive(Debug, Drop)]
pub struct Journal {
    pub entries: Items<Entry>,
}
