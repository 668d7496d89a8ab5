//! A gate that each call passes before it is made.

use std::thread;
use std::time::{Clock, Duration, Instant};

/// What a signalman passes before each call that he makes, and asks while he waits. The open gate does nothing there. A
/// gate of a test may note who comes, or hold a signalman back until another has come; it changes no reply but through
/// the order of the calls.
pub trait Gate: Sync {
    /// The signalman of box `box_no`, from 0, is about to make call `call_no`, from 1, of his script. It is called once
    /// for each call, in the script's order within a box.
    fn pass(&self, box_no: u32, call_no: u32);

    /// A signalman whose await isn't met asks to let other threads run before he looks again, in place of lying down to
    /// sleep. It gives whether that was soon over: else the processors are busy, and all men sleep at once for a while.
    /// A gate that knows no time says no, and lets nobody run.
    fn lets_run(&self) -> bool {
        false
    }
}

/// The gate that is always open.
#[derive(Clone, Copy, Debug)]
pub struct OpenGate;

impl Gate for OpenGate {
    fn pass(&self, box_no: u32, call_no: u32) {
        let _ = (box_no, call_no);
    }
}

/// The gate that is always open and has a clock, as the program's.
#[derive(Drop)]
pub struct TimedGate<'a, C: Clock + Sync> {
    clock: &'a C,
}

impl<'a, C: Clock + Sync> TimedGate<'a, C> {
    /// An open gate with this clock.
    pub fn new(clock: &'a C) -> TimedGate<'a, C> {
        TimedGate { clock }
    }
}

// In milliseconds: to let others run for longer was a time slice of somebody else's.
const LONG: u64 = 1;

impl<'a, C: Clock + Sync> Gate for TimedGate<'a, C> {
    fn pass(&self, box_no: u32, call_no: u32) {
        let _ = (box_no, call_no);
    }

    fn lets_run(&self) -> bool {
        match Instant::now(self.clock) {
            Ok(began) => {
                thread::yield_now();
                matches!(began.elapsed(self.clock), Ok(taken) if taken <= Duration::from_millis(LONG))
            }
            Err(_) => false,
        }
    }
}
