//! Rows and tables as values. How rows are read and printed, and what holds a lever, are worked rows.

use crate::facts::{all_hold, are_equal, is_debugged, is_shown};
use locking_table::{
    Cond, Conds, End, NoMemory, Row, RowError, RowFault, RowKind, Stand, Table, end_of, read_row,
    read_spelled, stand_of,
};
use std::alloc::{AllocError, Global};
use std::process::Abort;

const CONDS: [Cond; 2] = [
    Cond {
        lever: 6,
        end: End::Reversed,
    },
    Cond {
        lever: 7,
        end: End::Normal,
    },
];

// A row, the same as it is spelled, and the row that is wanted.
fn has_parts(rt: &impl Abort, row: &Row, spelled: &Row, wanted: &Row) {
    all_hold(
        rt,
        &[
            ("the row", *row == *wanted),
            ("its copy", wanted.copied() == *row),
            ("it fits seven levers", row.fits(7)),
            ("it fits no six", !row.fits(6)),
            ("what holds its subject", row.holding_lever(1) == 2),
            (
                "what holds a lever of its conditions",
                row.holding_lever(7) == 1,
            ),
            ("two conditions", row.when.as_slice().len() == 2),
            ("the row as it is spelled", *spelled == *row),
            ("its levers differ", spelled.levers_differ()),
            (
                "its conditions",
                spelled.when.as_slice() == CONDS.as_slice(),
            ),
        ],
    );
}

#[test]
fn a_row_has_its_parts(rt: HostRuntime) {
    let text = b"1 released by 2 when 6 reversed and 7 normal";
    let wanted = Row {
        subject: 1,
        kind: RowKind::ReleasedBy,
        object: 2,
        when: Conds::both(CONDS[0], CONDS[1]),
    };
    let row = read_row(rt.alloc(), text).expect(&rt, "a row");
    let spelled = read_spelled(text).expect(&rt, "a row");
    has_parts(&rt, &row, &spelled, &wanted);
}

#[test]
fn texts_spell_no_row(rt: HostRuntime) {
    all_hold(
        &rt,
        &[
            (
                "a row that ends too early",
                read_spelled(b"2 locks").err() == Some(RowFault::BadRow { word: 3 }),
            ),
            (
                "a lever twice",
                read_spelled(b"2 locks 2 normal").err() == Some(RowFault::SameLever),
            ),
            (
                "a lever twice, of a row to be kept",
                RowError::from(RowFault::SameLever) == RowError::SameLever,
            ),
            (
                "want of memory",
                RowError::from(NoMemory) == RowError::NoMemory,
            ),
        ],
    );
}

fn has_one_row(table: &Table) -> bool {
    match table.rows().first() {
        Some(row) => row.object == 4 && table.len() == 1 && !table.is_empty(),
        None => false,
    }
}

fn push(rt: &impl Abort, alloc: Global, table: &mut Table, text: &str) {
    let row = read_row(alloc, text.as_bytes()).expect(rt, "a row");
    assert!(rt; table.len() < 1000);
    table.push(row).expect(rt, "memory");
}

fn grow(rt: &impl Abort, alloc: Global, table: &mut Table) {
    let was_empty = table.is_empty();
    push(rt, alloc, table, "3 locks 4 both ways");
    let has_one = has_one_row(table);
    push(rt, alloc, table, "2 locks 5 normal");
    push(rt, alloc, table, "1 locks 2 normal when 6 reversed");
    all_hold(
        rt,
        &[
            ("no row at first", was_empty),
            ("one row", has_one),
            ("three rows", table.rows().len() == 3),
            ("they fit six levers", table.fits(6)),
            ("they fit no five", !table.fits(5)),
        ],
    );
}

#[test]
fn tables_grow(rt: HostRuntime) {
    let mut table = Table::new(rt.alloc());
    grow(&rt, rt.alloc(), &mut table);
}

#[test]
fn levers_stand(rt: HostRuntime) {
    let ends = [End::Normal, End::Reversed];
    let mid = Stand::AtMid;
    all_hold(
        &rt,
        &[
            ("its end", end_of(&ends, 2) == End::Reversed),
            (
                "at its end",
                stand_of(&ends, 1, mid, 2) == Stand::AtReversed,
            ),
            ("on its way", stand_of(&ends, 2, mid, 2) == mid),
            ("the other end", End::Normal.other() == End::Reversed),
            (
                "at the other end",
                End::Reversed.other().stand() == Stand::AtNormal,
            ),
        ],
    );
}

fn compare(rt: &impl Abort, alloc: Global, row: &Row) {
    all_hold(
        rt,
        &[
            ("a row is itself", are_equal(row, row)),
            ("conditions are themselves", are_equal(&row.when, &row.when)),
            ("a kind is itself", are_equal(&row.kind, &row.kind)),
            ("want of memory is itself", are_equal(&NoMemory, &NoMemory)),
            (
                "a fault is itself",
                are_equal(&RowError::SameLever, &RowError::SameLever),
            ),
            (
                "want of memory shows",
                is_shown(rt, alloc, &NoMemory, "out of memory"),
            ),
            (
                "a kind shows",
                is_debugged(rt, alloc, &row.kind, "LocksNormal"),
            ),
            (
                "from want of memory",
                NoMemory::from(AllocError) == NoMemory,
            ),
        ],
    );
}

#[test]
fn values_compare_and_show(rt: HostRuntime) {
    let text = b"1 locks 2 normal when 6 reversed";
    let row = read_row(rt.alloc(), text).expect(&rt, "a row");
    compare(&rt, rt.alloc(), &row);
}
