//! What walks of small frames show, counted by hand.

use crate::facts::all_hold;
use crate::walks::table_of;
use frame_findings::{Finding, Findings, Sequence, reach};
use frame_walk::Walk;

// The moves of a sequence, if there is one.
fn moves(sequence: &Sequence) -> &[u32] {
    match sequence {
        Sequence::Moves(path) => path.as_slice(),
        Sequence::Never => &[],
        Sequence::Open => &[],
    }
}

// Its states in order: none, then 3, then 3 and 2, then all three reversed.
#[test]
fn each_lever_releases_the_next(rt: HostRuntime) {
    let alloc = rt.alloc();
    let table = table_of(&rt, alloc, &["1 released by 2", "2 released by 3"]);
    assert!(&rt; table.fits(3));
    let walk = Walk::new(alloc, &table, 3, 100).expect(&rt, "a walk");
    let findings = Findings::new(alloc, &walk).expect(&rt, "findings");
    let all = reach(alloc, &walk, &[1, 3]).expect(&rt, "a sequence");
    all_hold(
        &rt,
        &[
            (
                "lever 1 is the last",
                findings.lever(1) == Finding::First(3),
            ),
            (
                "2 and 3 come before it",
                findings.pair(2, 3) == Finding::First(2),
            ),
            ("in either order", findings.pair(3, 2) == Finding::First(2)),
            (
                "three moves reverse 1 and 3",
                moves(&all) == [3, 2, 1].as_slice(),
            ),
        ],
    );
}

// Its states in order: none, then 1, then 2, then 3, then 1 and 3, then 2 and 3 reversed.
#[test]
fn two_levers_exclude_one_another(rt: HostRuntime) {
    let alloc = rt.alloc();
    let table = table_of(&rt, alloc, &["1 locks 2 normal"]);
    assert!(&rt; table.fits(3));
    let walk = Walk::new(alloc, &table, 3, 100).expect(&rt, "a walk");
    let findings = Findings::new(alloc, &walk).expect(&rt, "findings");
    let both = reach(alloc, &walk, &[1, 2]).expect(&rt, "a sequence");
    let whole = findings.pair(1, 2);
    let short = Walk::new(alloc, &table, 3, 4).expect(&rt, "a walk");
    let some = Findings::new(alloc, &short).expect(&rt, "findings");
    all_hold(
        &rt,
        &[
            (
                "1 and 3 go together",
                findings.pair(1, 3) == Finding::First(4),
            ),
            ("1 and 2 never do", whole == Finding::Never),
            ("and no sequence does it", both == Sequence::Never),
            ("a short walk finds 3", some.lever(3) == Finding::First(3)),
            ("and leaves 1 and 3 open", some.pair(1, 3) == Finding::Open),
            ("1 and 2 too", some.pair(1, 2) == Finding::Open),
        ],
    );
}
