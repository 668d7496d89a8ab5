//! The calls that pass the gate.

use crate::tests::desk::{are_replies, holds};
use line_law::Reply;
use line_working::Gate;
use std::sync::atomic::{AtomicU64, Ordering};
use std::test::Fail;

// A gate that counts the calls of each of two boxes, and notes where one isn't the next of its box.
#[derive(Drop)]
struct Counting {
    ash: AtomicU64,
    beech: AtomicU64,
    out_of_turn: AtomicU64,
}

impl Gate for Counting {
    fn pass(&self, box_no: u32, call_no: u32) {
        let calls = if box_no == 0 { &self.ash } else { &self.beech };
        let before = calls.fetch_add(1, Ordering::SeqCst);
        if box_no > 1 || u64::from(call_no) != before.wrapping_add(1) {
            self.out_of_turn.store(1, Ordering::SeqCst);
        }
    }
}

#[test]
fn each_call_passes_the_gate_once_and_in_order(rt: HostRuntime) -> Result<(), Fail> {
    let gate = Counting {
        ash: AtomicU64::new(0),
        beech: AtomicU64::new(0),
        out_of_turn: AtomicU64::new(0),
    };
    // A call that is refused passes the gate too.
    let ash = "script Ash\n10:00 ring down 1\n10:00 ring down 1\n10:00 ring down 1\nend\n";
    let beech = "script Beech\nend\n";
    let rung = Reply::Rung { k: 1 };
    let busy = Reply::BellBusy { k: 1, code: 1 };
    let replies: &[&[Reply]] = &[&[rung, busy, busy], &[]];
    let told = are_replies(&rt, rt.alloc(), &[ash, beech], &gate, replies);
    let ash_calls = gate.ash.load(Ordering::SeqCst);
    let beech_calls = gate.beech.load(Ordering::SeqCst);
    let in_turn = gate.out_of_turn.load(Ordering::SeqCst) == 0;
    drop(gate);
    holds(
        &rt,
        "the replies, and the calls in turn",
        told? & in_turn & (ash_calls == 3) & (beech_calls == 0),
    );
    Ok(())
}
