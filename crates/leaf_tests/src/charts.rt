//! Locking charts: their laws, and a chart that is drawn by other channels than those of the rule. Charts of rows, and
//! which charts hold, are worked rows.

use crate::facts::hold;
use crate::frames::bridle;
use bridle_frame::{Bridle, Notches};
use frame_chart::{Chart, print_chart, rule_leaves_one_layout, shown_chart_has_fewest};
use line_plan::{BoxPlan, Items, Kind, Label, Lever};
use std::alloc::{AllocError, Global};
use std::process::Abort;

// Three bridles in other channels, by another column.
const DRAWN: &str = "chart Ash\n\
channels 3\n\
bridle 1 row 1 channel 1 from 2 to 5\n\
bridle 2 row 2 channel 2 from 3 to 4\n\
bridle 3 row 3 channel 3 from 1 to 6\n\
channel 1 .N--N...\n\
channel 2 ..NB....\n\
channel 3 NN---N..\n\
column 4 crossed 1 2 3\n";

// The bridles of three rows.
fn put_bridles(alloc: Global, bridles: &mut Vec<Bridle>) -> Result<(), AllocError> {
    let normal = Notches::Normal;
    bridles.push(bridle(alloc, 1, &[(2, normal), (5, normal)])?)?;
    bridles.push(bridle(alloc, 2, &[(3, normal), (4, Notches::Both)])?)?;
    bridles.push(bridle(alloc, 3, &[(1, normal), (2, normal), (6, normal)])?)?;
    Ok(())
}

// The three bridles, each in the channel of its number.
fn chart_of(rt: &impl Abort, alloc: Global) -> Chart {
    let channels = [1, 2, 3].to_vec(alloc).expect(rt, "memory");
    let crossing = [1, 2, 3].to_vec(alloc).expect(rt, "memory");
    Chart {
        channels: Items::from_vec(channels),
        count: 3,
        column: 4,
        crossing: Items::from_vec(crossing),
    }
}

// Eight levers of a new box.
fn add_levers(rt: &impl Abort, alloc: Global, plan: &mut BoxPlan) {
    for before in 0..8 {
        assert!(rt; plan.frame_size() <= before);
        let lever = Lever {
            number: before + 1,
            kind: Kind::Points,
        };
        plan.add_lever(alloc, lever).expect(rt, "memory");
    }
}

// Is the chart of these bridles drawn so for a box?
fn is_drawn(rt: &impl Abort, alloc: Global, plan: &BoxPlan, bridles: &[Bridle]) -> bool {
    let made = chart_of(rt, alloc);
    assert!(rt; made.channels.len() == bridles.len());
    let drawn = print_chart(alloc, plan, bridles, &made).expect(rt, "memory");
    drawn.as_slice() == DRAWN.as_bytes()
}

#[test]
fn other_channels_are_drawn(rt: HostRuntime) {
    let mut bridles = Vec::new(rt.alloc());
    put_bridles(rt.alloc(), &mut bridles).expect(&rt, "memory");
    let name = String::from_str(rt.alloc(), "Ash").expect(&rt, "memory");
    let mut plan = BoxPlan::new(rt.alloc(), Label::from_string(name));
    add_levers(&rt, rt.alloc(), &mut plan);
    let holds = is_drawn(&rt, rt.alloc(), &plan, &bridles);
    drop(plan);
    drop(bridles);
    hold(&rt, "other channels", holds);
}

#[test]
fn laws_hold() {
    shown_chart_has_fewest();
    rule_leaves_one_layout();
}
