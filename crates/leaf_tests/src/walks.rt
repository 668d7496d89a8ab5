//! Walks of small frames, whose states are counted by hand.

use crate::facts::all_hold;
use frame_walk::{Walk, reach_law};
use locking_table::{End, NoMemory, Table, read_spelled};
use std::alloc::Global;
use std::process::Abort;

/// A table of the rows that these texts spell.
pub fn table_of(rt: &impl Abort, alloc: Global, rows: &[&str]) -> Table {
    let mut table = Table::new(alloc);
    for text in rows {
        let row = read_spelled(text.as_bytes()).expect(rt, "a row");
        assert!(rt; table.len() < 100);
        table.push(row).expect(rt, "room for a row");
    }
    table
}

// The path to the last state that was found in a frame of three levers with these rows, all of whose states are found.
fn last_path(
    rt: &impl Abort,
    alloc: Global,
    rows: &[&str],
    count: usize,
) -> Result<Vec<u32>, NoMemory> {
    let table = table_of(rt, alloc, rows);
    assert!(rt; table.fits(3));
    let walk = Walk::new(alloc, &table, 3, 100)?;
    assert!(rt; walk.is_whole());
    assert!(rt; walk.count() == count && 1 <= count);
    walk.path_to(alloc, count - 1)
}

#[test]
fn every_state_is_found(rt: HostRuntime) {
    let alloc = rt.alloc();
    let free = last_path(&rt, alloc, &[], 8).expect(&rt, "a path");
    let released = ["1 released by 2", "2 released by 3"];
    let in_order = last_path(&rt, alloc, &released, 4).expect(&rt, "a path");
    let circle = ["1 released by 2", "2 released by 3", "3 released by 1"];
    let frozen = last_path(&rt, alloc, &circle, 1).expect(&rt, "a path");
    let both_ways = ["1 locks 3 both ways", "1 released by 2"];
    let pulled = last_path(&rt, alloc, &both_ways, 6).expect(&rt, "a path");
    reach_law();
    all_hold(
        &rt,
        &[
            ("three levers move freely", free.len() == 3),
            (
                "each releases the next",
                in_order.as_slice() == [3, 2, 1].as_slice(),
            ),
            ("a circle of rows", frozen.is_empty()),
            (
                "a lever that is held at either end moves first",
                pulled.as_slice() == [2, 3, 1].as_slice()
                    || pulled.as_slice() == [3, 2, 1].as_slice(),
            ),
        ],
    );
}

#[test]
fn a_walk_that_is_cut_short_says_so(rt: HostRuntime) {
    let alloc = rt.alloc();
    let table = table_of(&rt, alloc, &[]);
    assert!(&rt; table.fits(120));
    let walk = Walk::new(alloc, &table, 120, 122).expect(&rt, "a walk");
    assert!(&rt; walk.count() == 122);
    let ends = walk.state(alloc, 120).expect(&rt, "a state");
    let path = walk.path_to(alloc, 121).expect(&rt, "a path");
    all_hold(
        &rt,
        &[
            ("it says so", !walk.is_whole()),
            ("lever 120 is reversed", ends.last() == Some(&End::Reversed)),
            ("a path of two moves", path.len() == 2),
        ],
    );
}
