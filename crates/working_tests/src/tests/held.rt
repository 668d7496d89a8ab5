//! A man who is held at the gate until another has come.

use crate::tests::desk::{are_replies, holds};
use line_law::Reply;
use line_working::Gate;
use std::sync::atomic::{AtomicU64, Ordering};
use std::test::Fail;

// How often the gate looks for the other man before it gives up.
const MOST_TURNS: u32 = 1_000_000_000;

// A gate that lets Ash's first call go once Beech has come with his second.
#[derive(Drop)]
struct Holding {
    beech_came: AtomicU64,
    gave_up: AtomicU64,
}

impl Holding {
    fn new() -> Holding {
        Holding {
            beech_came: AtomicU64::new(0),
            gave_up: AtomicU64::new(0),
        }
    }

    // Waits until Beech has come, for so many turns at most.
    fn wait(&self) {
        for _ in 0..MOST_TURNS {
            if self.beech_came.load(Ordering::SeqCst) == 1 {
                return;
            }
        }
        self.gave_up.store(1, Ordering::SeqCst);
    }
}

impl Gate for Holding {
    fn pass(&self, box_no: u32, call_no: u32) {
        match (box_no, call_no) {
            (0, 1) => self.wait(),
            (1, 2) => self.beech_came.store(1, Ordering::SeqCst),
            _ => {}
        }
    }
}

#[test]
fn beech_waits_in_vain_while_ash_is_held(rt: HostRuntime) -> Result<(), Fail> {
    let gate = Holding::new();
    let ash = "script Ash\n10:00 ring down 1\nend\n";
    let beech = "script Beech\n10:00 await_bell up 1\n10:00 ring up 1\nend\n";
    let rung = Reply::Rung { k: 1 };
    let in_vain = Reply::BellNotYet { k: 0, shown: None };
    let replies: &[&[Reply]] = &[&[rung], &[in_vain, rung]];
    let told = are_replies(&rt, rt.alloc(), &[ash, beech], &gate, replies);
    let gave_up = gate.gave_up.load(Ordering::SeqCst) == 1;
    drop(gate);
    holds(&rt, "the replies, and nobody gave up", told? & !gave_up);
    Ok(())
}
