//! The men of a line while they work their scripts, who wait for one another without wasting the machine.

use crate::gate::Gate;
use block_words::Way;
use line_law::{Act, Call, Reply};
use signalman_seats::Pauses;
use std::alloc::{AllocError, Global};
use std::sync::Wait;
use std::sync::atomic::Ordering::SeqCst;
use std::sync::atomic::{AtomicU32, AtomicU64};
use std::thread::Parker;
use std::{hint, thread};

// So many looks of an await are taken one right after another. Between so many more a man lets other threads run, where
// the gate says that this is soon over; before the others he sleeps.
const EAGER_LOOKS: u32 = 20;

const YIELDS: u32 = 60;

// Where it wasn't soon over, so many times a man sleeps before it is tried again.
const SLEEPS: u32 = 4096;

// How a man is. Where he doesn't wait, he is up.
const UP: u32 = 0;

// He lies and takes one more look before he sleeps. Whoever does something for him lets him be up.
const LYING: u32 = 1;

// He sleeps, until he is woken.
const ASLEEP: u32 = 2;

// Where a man sleeps, and how he is.
#[derive(Drop)]
struct Bed {
    rest: AtomicU32,
    parker: Parker,
}

// A bed for each of so many boxes.
fn beds(alloc: Global, boxes: usize) -> Result<Vec<Bed>, AllocError> {
    let mut beds = Vec::with_capacity(alloc, boxes)?;
    for _ in 0..boxes {
        let rest = AtomicU32::new(UP);
        let parker = Parker::new();
        beds.push(Bed { rest, parker })?;
    }
    Ok(beds)
}

/// The men of a line while they work their scripts: how many of them are awake, and who sleeps until a neighbour has
/// done something for him.
///
/// Every man is at work from the first, before his thread has started, until his script is done. A man for whom no
/// thread can be started is put off, and at work again when his turn comes. Of those at work some are awake, and the
/// others sleep. Then:
///
/// - Somebody is awake until all have ended: who sleeps, ends or is put off as the last who was awake wakes one who
///   sleeps. These steps are counted one after another, so the last of them, whoever takes it, finds that nobody is
///   awake.
/// - Nobody is left asleep for good, in whatever order the men are started and put off. Where no thread can be started
///   they work one after another, each alone in his turn.
/// - A man is alone, and takes his looks in vain, only where all others at work sleep: each has looked once more after
///   he lay down, and nobody has done anything for him since.
///
/// A man lies down before his last look and sleeps after it, and his neighbour first changes the word that he looks at
/// and then sees whether he lies: one of the two finds what the other did. Who is woken counts as awake before he is
/// up, and who sleeps counts as awake until he does.
#[derive(Drop)]
pub struct Crew {
    // How often a man has become awake: each once at first, then whenever he is woken or taken on.
    risen: AtomicU64,
    // How often a man who was awake has ceased to be: he sleeps, has ended or is put off. As many are awake as have
    // risen more often.
    rested: AtomicU64,
    // How many sleeps are left before a man lets others run again.
    sleeps_left: AtomicU32,
    // None where memory has run out: then nobody sleeps.
    beds: Vec<Bed>,
}

impl Crew {
    /// The crew of a line of so many men, all at work.
    pub fn new(alloc: Global, men: usize) -> Crew {
        Crew {
            risen: AtomicU64::new(men as u64),
            rested: AtomicU64::new(0),
            sleeps_left: AtomicU32::new(0),
            beds: beds(alloc, men).unwrap_or_else(|_| Vec::new(alloc)),
        }
    }

    /// The man of box `box_no`, who is at work.
    pub fn mate<'a, R: Wait, G: Gate>(
        &'a self,
        rt: &'a R,
        gate: &'a G,
        box_no: u32,
    ) -> Mate<'a, R, G> {
        let place = box_no as usize;
        Mate {
            rt,
            gate,
            crew: self,
            place,
        }
    }

    /// A man for whom no thread could be started isn't at work until he is taken on.
    pub fn put_off<R: Wait>(&self, rt: &R) {
        self.leave(rt);
    }

    /// The turn of a man who was put off has come.
    pub fn take_on(&self) {
        self.risen.fetch_add(1, SeqCst);
    }

    // A man who was awake is no longer at work. Where nobody is awake then, one who sleeps is woken.
    fn leave<R: Wait>(&self, rt: &R) {
        self.rested.fetch_add(1, SeqCst);
        for _ in rt.forever() {
            if self.awake() > 0 {
                return;
            }
            let Some(place) = self.sleeper() else {
                return;
            };
            self.wake(place);
        }
    }

    // As many as are awake, or more: there weren't more of them at any moment between the two looks.
    fn awake(&self) -> u64 {
        let rested = self.rested.load(SeqCst);
        self.risen.load(SeqCst).saturating_sub(rested)
    }

    // The place of one who sleeps.
    fn sleeper(&self) -> Option<usize> {
        (0..self.beds.len()).find(|place| self.is_resting(*place, ASLEEP))
    }

    // Is the man of a box lying, or asleep?
    fn is_resting(&self, place: usize, rest: u32) -> bool {
        match self.beds.get(place) {
            Some(bed) => bed.rest.load(SeqCst) == rest,
            None => false,
        }
    }

    // Lets the man of a box be up, and wakes him where he sleeps. He is counted as awake before.
    fn wake(&self, place: usize) {
        let Some(bed) = self.beds.get(place) else {
            return;
        };
        if bed.rest.load(SeqCst) == UP {
            return;
        }
        self.risen.fetch_add(1, SeqCst);
        if bed.rest.swap(UP, SeqCst) == ASLEEP {
            bed.parker.unpark();
        } else {
            self.rested.fetch_add(1, SeqCst);
        }
    }

    // Lets a man lie down or get up. It gives whether he has a bed.
    fn lie(&self, place: usize, rest: u32) -> bool {
        match self.beds.get(place) {
            Some(bed) => {
                bed.rest.store(rest, SeqCst);
                true
            }
            None => false,
        }
    }

    // The man of a box, who lay at his last look, sleeps until he is woken, unless somebody has done something for him
    // since or nobody else is awake.
    fn sleep<R: Wait>(&self, rt: &R, place: usize) {
        let left = self.sleeps_left.load(SeqCst);
        self.sleeps_left.store(left.saturating_sub(1), SeqCst);
        let Some(bed) = self.beds.get(place) else {
            return;
        };
        if bed
            .rest
            .compare_exchange(LYING, ASLEEP, SeqCst, SeqCst)
            .is_err()
        {
            return;
        }
        self.rested.fetch_add(1, SeqCst);
        if self.awake() == 0 {
            self.wake(place);
        }
        for _ in rt.forever() {
            if bed.rest.load(SeqCst) == UP {
                break;
            }
            bed.parker.park(rt);
        }
    }
}

/// One man of a crew, who is at work.
#[derive(Drop)]
pub struct Mate<'a, R: Wait, G: Gate> {
    rt: &'a R,
    gate: &'a G,
    crew: &'a Crew,
    place: usize,
}

impl<'a, R: Wait, G: Gate> Mate<'a, R, G> {
    /// Wakes the neighbours who may wait for what this call has changed.
    pub fn tell(&self, call: &Call, reply: &Reply) {
        match (call.act, reply) {
            (Act::Ring { side, .. }, Reply::Rung { .. }) => self.wake_neighbour(side),
            // The trains of a line come from the other side.
            (Act::Turn { way, .. }, Reply::Turned { .. }) => self.wake_neighbour(way.opposite()),
            // Neither the call nor the reply names the line that the train has entered.
            (_, Reply::Entered { .. }) => {
                self.wake_neighbour(Way::Up);
                self.wake_neighbour(Way::Down);
            }
            _ => {}
        }
    }

    /// His script is done.
    pub fn end(self) {
        self.crew.leave(self.rt);
    }

    fn wake_neighbour(&self, side: Way) {
        let neighbour = match side {
            Way::Up => self.place.checked_sub(1),
            Way::Down => self.place.checked_add(1),
        };
        if let Some(place) = neighbour {
            self.crew.wake(place);
        }
    }
}

impl<'a, R: Wait, G: Gate> Pauses for Mate<'a, R, G> {
    fn pause(&self, taken: u32) {
        if taken < EAGER_LOOKS {
            hint::spin_loop();
        } else if self.crew.is_resting(self.place, LYING) {
            self.crew.sleep(self.rt, self.place);
        } else if taken < EAGER_LOOKS + YIELDS && self.crew.sleeps_left.load(SeqCst) == 0 {
            if !self.gate.lets_run() {
                self.crew.sleeps_left.store(SLEEPS, SeqCst);
            }
        } else if !self.crew.lie(self.place, LYING) {
            thread::yield_now();
        }
    }

    fn ended(&self, taken: u32) {
        if taken > EAGER_LOOKS && self.crew.is_resting(self.place, LYING) {
            self.crew.lie(self.place, UP);
        }
    }

    fn is_alone(&self, taken: u32) -> bool {
        taken >= EAGER_LOOKS && self.crew.awake() <= 1
    }
}
