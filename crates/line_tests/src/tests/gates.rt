//! The calls that pass the gate, each signalman on a thread of his own.

use crate::tests::desk::{
    ASH_IDLE, BEECH_IDLE, RUN_TWO, SOUND, TWO_BOXES, WATCH_TWO, agrees, work_behind,
};
use box_top::{Gate, Status};
use rail_text::NoMemory;
use std::alloc::Global;
use std::process::Abort;
use std::sync::Wait;
use std::sync::atomic::{AtomicU64, Ordering};
use std::test::Fail;
use std::thread::Threads;

// A gate that counts the calls of three boxes, and those that came out of their turn.
#[derive(Drop)]
struct Counter {
    calls: [AtomicU64; 3],
    astray: AtomicU64,
}

impl Counter {
    fn new() -> Counter {
        Counter {
            calls: [AtomicU64::new(0), AtomicU64::new(0), AtomicU64::new(0)],
            astray: AtomicU64::new(0),
        }
    }

    // Whether so many calls of each box have passed, each in its turn.
    fn has_counted(&self, calls: [u64; 3]) -> bool {
        self.astray.load(Ordering::SeqCst) == 0
            && self.calls[0].load(Ordering::SeqCst) == calls[0]
            && self.calls[1].load(Ordering::SeqCst) == calls[1]
            && self.calls[2].load(Ordering::SeqCst) == calls[2]
    }
}

impl Gate for Counter {
    fn pass(&self, box_no: u32, call_no: u32) {
        let before = match self.calls.get(box_no as usize) {
            Some(calls) => calls.fetch_add(1, Ordering::SeqCst),
            None => u64::MAX,
        };
        if before.wrapping_add(1) != u64::from(call_no) {
            self.astray.fetch_add(1, Ordering::SeqCst);
        }
    }
}

// The texts of a run of two boxes, and how many calls of each box pass.
type Count = (&'static [&'static [u8]], [u64; 3]);

const COUNTS: [Count; 4] = [
    (&[TWO_BOXES, ASH_IDLE, BEECH_IDLE], [0, 0, 0]),
    (
        &[
            TWO_BOXES,
            b"script Ash\n10:00 ring down 1\n10:00 await_bell down 1\nend\n",
            b"script Beech\n10:00 await_bell up 1\n10:00 ring up 1\nend\n",
        ],
        [2, 2, 0],
    ),
    // A call that is refused passes once too.
    (
        &[
            TWO_BOXES,
            b"script Ash\n10:00 ring down 1\n10:00 ring down 1\n10:00 hear down\nend\n",
            b"script Beech\n10:00 hear up\nend\n",
        ],
        [3, 1, 0],
    ),
    // Where a text is refused no call is made.
    (
        &[TWO_BOXES, b"script Ash\n06:00 hear down\nend\n", b"script"],
        [0, 0, 0],
    ),
];

// Works the texts of each row by these words, and tests which calls pass.
fn test_counts<R: Threads + Wait + Sync + Abort>(
    rt: &R,
    alloc: Global,
    words: &[&str],
) -> Result<(), NoMemory> {
    for (row, (texts, calls)) in COUNTS.into_iter().enumerate() {
        let gate = Counter::new();
        let worked = work_behind(rt, alloc, words, texts, SOUND, &gate, b"");
        let is_so = gate.has_counted(calls);
        drop(gate);
        worked?;
        agrees(rt, words, row as u64, is_so);
    }
    Ok(())
}

#[test]
fn calls_pass_the_gate_once_and_in_turn(rt: HostRuntime) -> Result<(), Fail> {
    test_counts(&rt, rt.alloc(), RUN_TWO)?;
    Ok(())
}

#[test]
fn watched_calls_pass_the_gate_once_and_in_turn(rt: HostRuntime) -> Result<(), Fail> {
    test_counts(&rt, rt.alloc(), WATCH_TWO)?;
    Ok(())
}

#[test]
fn calls_of_a_made_line_pass_the_gate(rt: HostRuntime) -> Result<(), Fail> {
    let gate = Counter::new();
    let words = &["stress", "2"];
    let worked = work_behind(&rt, rt.alloc(), words, &[], SOUND, &gate, b"");
    let is_so = gate.has_counted([32, 56, 32]);
    drop(gate);
    worked?;
    agrees(&rt, words, 120, is_so);
    Ok(())
}

// A call of a box waits at the gate until a call of another box has come there.
#[derive(Clone, Copy)]
struct Hold {
    box_no: u32,
    call_no: u32,
    other_box: usize,
    other_call: u64,
}

// How many turns a call waits at most.
const MOST_TURNS: u64 = 1_000_000_000;

// A gate at which calls of two boxes wait for one another. It keeps which call of each box came last, and how many gave
// up.
#[derive(Drop)]
struct Meeting {
    holds: &'static [Hold],
    came: [AtomicU64; 2],
    gave_up: AtomicU64,
}

impl Meeting {
    fn new(holds: &'static [Hold]) -> Meeting {
        Meeting {
            holds,
            came: [AtomicU64::new(0), AtomicU64::new(0)],
            gave_up: AtomicU64::new(0),
        }
    }

    // Waits until the other call has come.
    fn wait(&self, hold: Hold) {
        let Some(came) = self.came.get(hold.other_box) else {
            return;
        };
        for _ in 0..MOST_TURNS {
            if hold.other_call <= came.load(Ordering::SeqCst) {
                return;
            }
        }
        self.gave_up.fetch_add(1, Ordering::SeqCst);
    }
}

impl Gate for Meeting {
    fn pass(&self, box_no: u32, call_no: u32) {
        if let Some(came) = self.came.get(box_no as usize) {
            came.store(u64::from(call_no), Ordering::SeqCst);
        }
        for hold in self.holds {
            if hold.box_no == box_no && hold.call_no == call_no {
                self.wait(*hold);
            }
        }
    }
}

// The texts of a run of two boxes, which calls wait for which, and what is printed.
type Meet = (&'static [&'static [u8]], &'static [Hold], &'static [u8]);

const MEETINGS: [Meet; 2] = [
    // The first call of each box waits for that of the other: no order on one thread has that.
    (
        &[
            TWO_BOXES,
            b"script Ash\n10:00 hear down\n10:00 hear down\nend\n",
            b"script Beech\n10:00 hear up\n10:00 hear up\nend\n",
        ],
        &[
            Hold {
                box_no: 0,
                call_no: 1,
                other_box: 1,
                other_call: 1,
            },
            Hold {
                box_no: 1,
                call_no: 1,
                other_box: 0,
                other_call: 1,
            },
        ],
        b"journal 1\n\
            1 Ash 10:00 hear down -> silent 0\n\
            2 Ash 10:00 hear down -> silent 0\n\
            3 Beech 10:00 hear up -> silent 0\n\
            4 Beech 10:00 hear up -> silent 0\n\
            end\n\
            register Ash 2\n\
            1 10:00 hear down -> silent 0\n\
            2 10:00 hear down -> silent 0\n\
            register Beech 2\n\
            1 10:00 hear up -> silent 0\n\
            2 10:00 hear up -> silent 0\n\
            refusals 4\n\
            1 Ash 10:00 hear down -> silent 0\n\
            2 Ash 10:00 hear down -> silent 0\n\
            3 Beech 10:00 hear up -> silent 0\n\
            4 Beech 10:00 hear up -> silent 0\n\
            section down Ash Beech most 0\n\
            section up Beech Ash most 0\n",
    ),
    // The bell is rung when the await has been given up: on one thread it would have been heard.
    (
        &[
            b"plan 1\nboxes 2\ndelay 2\nlooks 3\nbox Ash\nbox Beech\nend\n",
            b"script Ash\n10:00 ring down 1\nend\n",
            b"script Beech\n10:00 await_bell up 1\n10:00 ring up 1\nend\n",
        ],
        &[Hold {
            box_no: 0,
            call_no: 1,
            other_box: 1,
            other_call: 2,
        }],
        b"journal 1\n\
            1 Beech 10:00 await_bell up 1 -> not_yet 0 none\n\
            2 Ash 10:00 ring down 1 -> rung 1\n\
            3 Beech 10:00 ring up 1 -> rung 1\n\
            end\n\
            register Ash 1\n\
            1 10:00 ring down 1 -> rung 1\n\
            register Beech 2\n\
            1 10:00 await_bell up 1 -> not_yet 0 none\n\
            2 10:00 ring up 1 -> rung 1\n\
            refusals 1\n\
            1 Beech 10:00 await_bell up 1 -> not_yet 0 none\n\
            section down Ash Beech most 0\n\
            section up Beech Ash most 0\n",
    ),
];

#[test]
fn calls_of_two_boxes_meet(rt: HostRuntime) -> Result<(), Fail> {
    for (row, (texts, holds, printed)) in MEETINGS.into_iter().enumerate() {
        let gate = Meeting::new(holds);
        let worked = work_behind(&rt, rt.alloc(), RUN_TWO, texts, SOUND, &gate, printed);
        let met = gate.gave_up.load(Ordering::SeqCst) == 0;
        drop(gate);
        let is_so = worked?.fills(printed.len(), Status::Done, printed);
        agrees(&rt, RUN_TWO, row as u64, met & is_so);
    }
    Ok(())
}
