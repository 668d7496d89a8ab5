//! The way towards levers that are to be reversed together.

ghost use Rattle.std.specs.Prelude.{◌≡◌, ◌≤◌, All, IfOk, IfSome, IsTrue, length, option_map};
ghost use Rattle.locking_table.specs.Places.{IsLever, most_levers};
ghost use Rattle.locking_table.specs.Sound.{RowFits};
ghost use Rattle.frame_findings.specs.Findings.{AreReversed};
ghost use Rattle.frame_ways.specs.Ways.{IsWayIf};

use crate::walker::Walker;
use locking_table::{Cond, End, Holder, NoMemory, Row, RowKind, Table};
use std::alloc::Global;

// Where another lever has to stand, so that a row lets a lever go: the object as the row asks, where the lever is its
// subject, and else the subject out of the way.
fn wanted_by(row: &Row, lever: u32) -> Cond {
    if row.subject != lever {
        return Cond {
            lever: row.subject,
            end: End::Normal,
        };
    }
    Cond {
        lever: row.object,
        end: match row.kind {
            RowKind::ReleasedBy => End::Reversed,
            RowKind::LocksNormal | RowKind::LocksBoth => End::Normal,
        },
    }
}

// Whether a lever is among those that are to be moved.
fn is_waiting(goals: &[Cond], lever: u32) -> bool {
    for goal in goals {
        if goal.lever == lever {
            return true;
        }
    }
    false
}

// What has to be so first, before a held lever can move: none where that can't be had by moving another one.
fn goal_before(walker: &Walker<'_>, goals: &[Cond], lever: u32, holder: Holder) -> Option<Cond>
    ensures { IfSome result (λ goal. IsLever (length walker.now.ends) goal.lever) }
{
    let row = walker
        .table()
        .rows()
        .get(holder.row.saturating_sub(1) as usize)?;
    let goal = wanted_by(row, lever);
    if is_waiting(goals, goal.lever) || !walker.has_lever(goal.lever) {
        return None;
    }
    Some(goal)
}

// One step towards the last of these goals, or towards what has to be so first. `false` where there is no way on.
fn step(walker: &mut Walker<'_>, goals: &mut Vec<Cond>) -> Result<bool, NoMemory>
    ensures rows { walker.new.rows ≡ walker.old.rows }
    ensures levers { length walker.new.ends ≡ length walker.old.ends }
{
    let Some(goal) = goals.pop() else {
        return Ok(true);
    };
    if !walker.has_lever(goal.lever) {
        return Ok(false);
    }
    if walker.stands(goal) {
        return Ok(true);
    }
    let Some(holder) = walker.try_move(goal.lever)? else {
        return Ok(true);
    };
    let Some(before) = goal_before(walker, goals, goal.lever, holder) else {
        return Ok(false);
    };
    goals.push(goal)?;
    goals.push(before)?;
    Ok(true)
}

// Goes towards the levers, in this order, for so many steps at most. Whether they all stand reversed then.
fn go_towards(
    alloc: Global,
    walker: &mut Walker<'_>,
    levers: &[u32],
    steps: u32,
) -> Result<bool, NoMemory>
    requires { All (IsLever (length walker.old.ends)) levers.now }
    ensures rows { walker.new.rows ≡ walker.old.rows }
    ensures levers { length walker.new.ends ≡ length walker.old.ends }
    ensures reversed { IfOk result (λ there. IsTrue there → AreReversed levers.now walker.new.ends) }
{
    let mut goals = Vec::new(alloc);
    for _ in 0..steps {
        if goals.is_empty() {
            let Some(lever) = walker.first_normal(levers) else {
                return Ok(true);
            };
            goals.push(Cond {
                lever,
                end: End::Reversed,
            })?;
        }
        if !step(walker, &mut goals)? {
            return Ok(false);
        }
    }
    Ok(walker.first_normal(levers).is_none())
}

// The way on which the levers are reversed in this order, if it is found.
fn way_in_order(
    alloc: Global,
    table: &Table,
    levers: u32,
    reversed: &[u32],
) -> Result<Option<Vec<u32>>, NoMemory>
    requires levers { levers ≤ most_levers }
    requires rows { All (RowFits levers) table.now }
    requires reversed { All (IsLever levers) reversed.now }
    ensures { IfOk result (λ way. IsWayIf table.now levers reversed.now (option_map (λ path. path.items) way)) }
{
    let mut walker = Walker::start(alloc, table, levers)?;
    if go_towards(alloc, &mut walker, reversed, 4 * levers)? {
        Ok(Some(walker.into_path()))
    } else {
        drop(walker);
        Ok(None)
    }
}

/// A way from all levers normal on which levers of a frame come to be reversed together, if one is found: levers that
/// are moved in turn as the table allows it. It is sought by moving, before a lever that is held, the one by which it
/// is held; there may be shorter ways, and where none is found, there may be one.
pub fn way_to(
    alloc: Global,
    table: &Table,
    levers: u32,
    reversed: &[u32],
) -> Result<Option<Vec<u32>>, NoMemory>
    requires levers { levers ≤ most_levers }
    requires rows { All (RowFits levers) table.now }
    requires reversed { All (IsLever levers) reversed.now }
    ensures { IfOk result (λ way. IsWayIf table.now levers reversed.now (option_map (λ path. path.items) way)) }
{
    way_in_order(alloc, table, levers, reversed)
}
