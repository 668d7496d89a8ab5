//! Bad signalmen, each on a thread of his own, five hundred times each: whatever comes of it, the judge finds it legal,
//! the journal stands in the order of its own parts, and while it is clean its section holds few trains.

use crate::tests::desk::{JUDGE, RUN_TWO, SOUND, agrees, output_behind, serve_at_desk};
use crate::tests::orders::are_orderly;
use box_top::{Gate, Status};
use rail_text::ReadError;
use std::alloc::Global;
use std::sync::Wait;
use std::sync::atomic::{AtomicU64, Ordering};
use std::test::Fail;
use std::thread::Threads;

// A section from Ash to Beech, with six trains at Ash.
const PLAN: &[u8] = b"plan 1\nboxes 2\ndelay 2\nlooks 1000000000\n\
    box Ash\nplace P\nplace Q\nlever 1 signal\nlever 2 signal\nlever 3 points\nlever 4 points\n\
    lever 5 points\nlever 6 points\nlever 7 spare\nlever 8 signal\nstarter down 8 P\ntrack 3 Q\n\
    row 2 locks 5 normal\nrow 3 locks 4 both ways\nrow 1 locks 2 normal when 6 reversed\n\
    box Beech\nplace B\nplace M\nlever 1 signal\nsignal 1 B M\nberth down B\nclear down M\n\
    train t1 ordinary Ash P\ntrain t2 express Ash P\ntrain t3 light Ash Q\ntrain t4 empty Ash P\n\
    train t5 light Ash P\ntrain t6 ordinary Ash P\nend\n";

// The scripts of Ash and Beech, and what the judge says: how many calls they have.
type Bad = (&'static [u8], &'static [u8], &'static [u8]);

const BAD: [Bad; 7] = [
    // Beech gives Line Clear again and again, and releases the line by hand.
    (
        b"script Ash\nend\n",
        b"script Beech\n10:00 turn down line_clear\n10:00 turn down line_clear\n10:00 wind down\n\
            10:00 turn down normal\n10:00 turn down line_clear\n10:00 wind down\n10:00 wind down\n\
            10:01 release down\n10:02 release down\n10:02 release down\n10:02 turn down line_clear\nend\n",
        b"legal 11\n",
    ),
    // The same while Ash sends a train as soon as he sees Line Clear.
    (
        b"script Ash\n10:00 bring t1\n10:00 await_block down line_clear\n10:00 pull 8\n10:00 pass 8\nend\n",
        b"script Beech\n10:00 turn down line_clear\n10:00 turn down line_clear\n10:00 wind down\n\
            10:00 turn down normal\n10:00 turn down line_clear\n10:00 wind down\n10:00 wind down\n\
            10:01 release down\n10:02 release down\n10:02 release down\n10:02 turn down line_clear\nend\n",
        b"legal 15\n",
    ),
    // The arm is at danger behind a train.
    (
        b"script Ash\n10:00 bring t1\n10:00 await_block down line_clear\n10:00 pull 8\n10:00 pass 8\n\
            10:00 bring t2\n10:00 pass 8\nend\n",
        b"script Beech\n10:00 turn down line_clear\nend\n",
        b"legal 7\n",
    ),
    // A second train overruns the starter behind the first.
    (
        b"script Ash\n10:00 bring t1\n10:00 await_block down line_clear\n10:00 pull 8\n10:00 pass 8\n\
            10:00 bring t2\n10:00 pass 8\n10:00 overrun 8\nend\n",
        b"script Beech\n10:00 turn down line_clear\nend\n",
        b"legal 8\n",
    ),
    // Trains overrun until the plain line is full.
    (
        b"script Ash\n10:00 bring t1\n10:00 overrun 8\n10:00 bring t2\n10:00 overrun 8\n10:00 bring t4\n\
            10:00 overrun 8\n10:00 bring t5\n10:00 overrun 8\n10:00 bring t6\n10:00 overrun 8\n\
            10:00 ring down 1\n10:00 await_bell down 1\n10:00 overrun 8\nend\n",
        b"script Beech\n10:00 await_bell up 1\n10:00 berth down\n10:00 ring up 1\nend\n",
        b"legal 16\n",
    ),
    // A train is berthed in part, and its portion is left while another train follows.
    (
        b"script Ash\n10:00 bring t1\n10:00 await_block down line_clear\n10:00 pull 8\n10:00 pass 8\n\
            10:00 bring t2\n10:00 overrun 8\nend\n",
        b"script Beech\n10:00 turn down line_clear\n10:00 await_train down\n10:00 berth_part down\n\
            10:00 berth down\n10:00 pull 1\n10:00 pass 1\n10:00 clear_portion down\n\
            10:00 clear_portion down\n10:00 await_train down\n10:00 berth down\n10:00 berth down\nend\n",
        b"legal 17\n",
    ),
    // Line Clear is given with the home off, and with trains in the berth and past it.
    (
        b"script Ash\n10:00 bring t1\n10:00 overrun 8\nend\n",
        b"script Beech\n10:00 pull 1\n10:00 turn down line_clear\n10:00 put 1\n10:00 await_train down\n\
            10:00 berth down\n10:00 turn down line_clear\n10:00 pull 1\n10:00 pass 1\n10:00 put 1\n\
            10:00 turn down line_clear\n10:00 turn down train_on_line\n10:00 turn down line_clear\nend\n",
        b"legal 14\n",
    ),
];

// How often each is worked.
const TIMES: u64 = 500;

// The longest that a call is kept waiting, in turns.
const LONGEST: u64 = 2000;

// A gate that keeps each call waiting for as long as it happens.
#[derive(Drop)]
struct Restless {
    calls: AtomicU64,
}

impl Gate for Restless {
    fn pass(&self, box_no: u32, _: u32) {
        let calls = self.calls.fetch_add(1, Ordering::SeqCst);
        let drawn = calls
            .wrapping_add(u64::from(box_no))
            .wrapping_mul(0x9E37_79B9_7F4A_7C15)
            >> 32;
        for _ in 0..drawn % LONGEST {
            self.calls.load(Ordering::SeqCst);
        }
    }
}

// Works the scripts behind the gate, judges what was printed, and looks at its order and its trains.
fn is_judged_legal<R: Threads + Wait + Sync>(
    rt: &R,
    alloc: Global,
    (ash, beech, legal): Bad,
    gate: &Restless,
) -> Result<bool, ReadError> {
    let (status, output) = output_behind(rt, alloc, RUN_TWO, &[PLAN, ash, beech], SOUND, gate)?;
    let judged = serve_at_desk(alloc, JUDGE, &[PLAN, &output], legal);
    let is_orderly = are_orderly(alloc, PLAN, &output);
    drop(output);
    let is_legal = judged?.fills(legal.len(), Status::Done, legal);
    Ok(status == Status::Done && is_legal && is_orderly?)
}

#[test]
fn bad_signalmen_work_legal_histories(rt: HostRuntime) -> Result<(), Fail> {
    let gate = Restless {
        calls: AtomicU64::new(0),
    };
    for time in 0..TIMES {
        for bad in BAD {
            let is_so = is_judged_legal(&rt, rt.alloc(), bad, &gate)?;
            agrees(&rt, RUN_TWO, time, is_so);
        }
    }
    drop(gate);
    Ok(())
}
