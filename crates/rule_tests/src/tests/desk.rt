//! The line of the tests, and their one assertion.

use line_plan::Plan;
use plan_text::read_plan;
use std::alloc::Global;
use std::process::Abort;

// A starter on the down line at Ash, where two trains begin, and a berth with its home signal at Beech.
const TWO_BOXES: &str = "plan 1\nboxes 2\ndelay 2\nlooks 1000000000\n\
box Ash\nplace P\nlever 1 signal\nstarter down 1 P\n\
box Beech\nplace B\nlever 1 signal\nsignal 1 B away\nberth down B\n\
train t1 ordinary Ash P\ntrain t2 express Ash P\nend\n";

/// Ends the test with the name of a fact that does not hold.
pub fn hold(rt: &impl Abort, name: &str, holds: bool) {
    assert!(rt; holds, "not so: {name}");
}

/// A line of two boxes.
pub fn two_boxes(rt: &impl Abort, alloc: Global) -> Plan {
    read_plan(alloc, TWO_BOXES.as_bytes()).expect(rt, "a plan")
}
