//! Men who wait for one another, and men who wait in vain.

ghost use Rattle.std.specs.Prelude.{◌≤◌};

use crate::line::worked;
use crate::relay::{relay_plan, relay_scripts};
use crate::tests::desk::{are_replies_on, holds};
use line_law::{Entry, Reply};
use line_working::OpenGate;
use rail_text::ReadError;
use signalman_seats::Signalman;
use std::alloc::Global;
use std::sync::Wait;
use std::test::Fail;
use std::thread::Threads;

const RUNG: Reply = Reply::Rung { k: 1 };

const HEARD: Reply = Reply::Heard { k: 1, code: 1 };

const IN_VAIN: Reply = Reply::BellNotYet { k: 0, shown: None };

// Three boxes with bells alone.
const THREE: &str = "plan 1\nboxes 3\ndelay 2\nlooks 1\nbox Ash\nbox Beech\nbox Cedar\nend\n";

// Are all awaits of three men in vain who wait for one another, so many looks each?
fn are_all_in_vain<R: Threads + Wait + Sync>(
    rt: &R,
    alloc: Global,
    looks: u32,
) -> Result<bool, ReadError>
    requires { 1 ≤ looks }
{
    let ash = "script Ash\n10:00 await_bell down 1\nend\n";
    let beech = "script Beech\n10:00 await_bell up 1\n10:00 await_bell down 1\nend\n";
    let cedar = "script Cedar\n10:00 await_bell up 1\nend\n";
    let replies: &[&[Reply]] = &[&[IN_VAIN], &[IN_VAIN, IN_VAIN], &[IN_VAIN]];
    are_replies_on(
        rt,
        alloc,
        THREE,
        looks,
        &[ash, beech, cedar],
        &OpenGate,
        replies,
    )
}

#[test]
fn those_who_all_wait_in_vain_give_up(rt: HostRuntime) -> Result<(), Fail> {
    let few = are_all_in_vain(&rt, rt.alloc(), 1)?;
    let some = are_all_in_vain(&rt, rt.alloc(), 1_000)?;
    let many = are_all_in_vain(&rt, rt.alloc(), 1_000_000)?;
    holds(&rt, "each await is refused", few & some & many);
    Ok(())
}

// Has each of these calls rung, or heard?
fn has_relayed(entries: &[Entry]) -> bool {
    entries
        .iter()
        .all(|entry| entry.reply == RUNG || entry.reply == HEARD)
}

// The same of each man.
fn have_relayed(men: &[Signalman]) -> bool {
    men.iter().all(|man| has_relayed(man.entries()))
}

#[test]
fn what_the_last_of_64_rings_comes_to_the_first(rt: HostRuntime) -> Result<(), Fail> {
    let plan = relay_plan(rt.alloc())?;
    let scripts = relay_scripts(rt.alloc(), &plan)?;
    let men = worked(&rt, rt.alloc(), &plan, &scripts, 1_000_000_000, &OpenGate);
    drop(scripts);
    drop(plan);
    let men = men?;
    let relayed = have_relayed(&men);
    drop(men);
    holds(&rt, "each has rung on what he heard", relayed);
    Ok(())
}
