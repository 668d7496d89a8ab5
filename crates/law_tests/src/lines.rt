//! The plans of the tests.

use line_plan::Plan;
use plan_text::read_plan;
use rail_text::ReadError;
use std::alloc::{AllocError, Global};

// A plan of this version, with this delay: a frame with its locking and a starter at Ash, a home signal and a berth at
// Beech, a section on the down line with what a line says of it, and six trains.
macro_rules! two_boxes {
    ($version:literal, $delay:literal, $section:literal) => {
        concat!(
            "plan ",
            $version,
            "\nboxes 2\ndelay ",
            $delay,
            "\nlooks 1000000000\n\
box Ash\nplace P\nplace Q\nlever 1 signal\nlever 2 signal\nlever 3 points\nlever 4 points\n\
lever 5 points\nlever 6 points\nlever 7 spare\nlever 8 signal\nstarter down 8 P\ntrack 3 Q\n\
row 2 locks 5 normal\nrow 3 locks 4 both ways\nrow 1 locks 2 normal when 6 reversed\n\
box Beech\nplace B\nplace M\nlever 1 signal\nsignal 1 B M\nberth down B\nclear down M\n",
            $section,
            "train t1 ordinary Ash P\ntrain t2 express Ash P\ntrain t3 light Ash Q\n\
train t4 empty Ash P\ntrain t5 light Ash P\ntrain t6 ordinary Ash P\nend\n"
        )
    };
}

const ABSOLUTE: &str = two_boxes!("1", "2", "");

const PERMISSIVE: &str = two_boxes!("1", "2", "permissive down 2\n");

const IN_SECONDS: &str = two_boxes!("2", "120", "");

const UPWARDS: &str = "plan 1\nboxes 2\ndelay 2\nlooks 1000000000\n\
box Ash\nplace B\nplace M\nlever 1 signal\nsignal 1 B M\nberth up B\nclear up M\n\
box Beech\nplace P\nlever 1 signal\nstarter up 1 P\n\
train t1 ordinary Beech P\ntrain t2 express Beech P\ntrain t3 light Beech P\n\
train t4 empty Beech P\ntrain t5 light Beech P\nend\n";

/// Two boxes with their names alone.
pub const NAMES: &str = "plan 1\nboxes 2\ndelay 2\nlooks 1000000000\nbox Ash\nbox Beech\nend\n";

// Ash has a starter. Beech, in the middle, has berths, starters, signals and two rows.
const BOXES: &str = "class parcels 1-3\nbox Ash\nplace P\nlever 2 signal\nstarter down 2 P\n\
box Beech\nplace DB\nplace DP\nplace UB\nplace UP\n\
lever 1 signal\nlever 2 signal\nlever 3 signal\nlever 4 signal\nlever 7 points\nlever 120 spare\n\
signal 1 DB DP\nsignal 3 UB UP\nstarter down 2 DP\nstarter up 4 UP\nberth up UB\nberth down DB\n\
clear up UP\ntrack 7 DP\nrow 1 locks 7 normal\nrow 3 locks 7 normal\nbox Cedar\nplace P\n\
train t1 ordinary Ash P\ntrain given light Beech DP\ntrain none empty Beech UP\nend\n";

/// Two boxes with an absolute line between them.
pub fn absolute(alloc: Global) -> Result<Plan, ReadError> {
    read_plan(alloc, ABSOLUTE.as_bytes())
}

/// The same with a permissive line of two.
pub fn permissive(alloc: Global) -> Result<Plan, ReadError> {
    read_plan(alloc, PERMISSIVE.as_bytes())
}

/// The same with an absolute line, and with its moments and its delay in seconds.
pub fn in_seconds(alloc: Global) -> Result<Plan, ReadError> {
    read_plan(alloc, IN_SECONDS.as_bytes())
}

/// Two boxes with an absolute line from the second to the first.
pub fn upwards(alloc: Global) -> Result<Plan, ReadError> {
    read_plan(alloc, UPWARDS.as_bytes())
}

// Three boxes, in a version.
fn three_boxes(alloc: Global, version: u8) -> Result<String, AllocError> {
    let mut text = String::new(alloc);
    write!(text, "plan {version}\nboxes 3\ndelay 2\nlooks 9\n")?;
    text.push_str(BOXES)?;
    Ok(text)
}

/// The plan of three boxes, in a version.
pub fn plan_of_three(alloc: Global, version: u8) -> Result<Plan, ReadError> {
    let text = three_boxes(alloc, version)?;
    let plan = read_plan(alloc, text.as_bytes());
    drop(text);
    plan
}
