//! Codes and code tables in use. Words that are codes and words that aren't are worked rows.

use crate::facts::{all_hold, are_equal, is_debugged, is_shown};
use bell_codes::{
    AddFault, BadCode, CALL_ATTENTION, CANCELLING, Code, CodeNo, CodeTable, EMPTY, EXPRESS, LIGHT,
    NoMemory, OBSTRUCTION_DANGER, ORDINARY, TESTING, TRAIN_ENTERING_SECTION, TRAIN_OUT_OF_SECTION,
    opening_numbers, printed_is_read, read_code, read_is_spelled, text_is_a_word,
};
use std::collections::HashSet;
use std::process::Abort;

fn code_of(rt: &impl Abort, word: &str) -> Code {
    read_code(word.as_bytes()).expect(rt, "a code")
}

fn number_of(rt: &impl Abort, table: &CodeTable, word: &str) -> Option<CodeNo> {
    table.number_of(code_of(rt, word))
}

fn add(rt: &impl Abort, table: &mut CodeTable, word: &str) -> Result<CodeNo, AddFault> {
    table.add(code_of(rt, word))
}

// The numbers of the opening table's codes, in order.
const OPENING: [CodeNo; 10] = [
    CALL_ATTENTION,
    EXPRESS,
    ORDINARY,
    EMPTY,
    LIGHT,
    TRAIN_ENTERING_SECTION,
    TRAIN_OUT_OF_SECTION,
    CANCELLING,
    OBSTRUCTION_DANGER,
    TESTING,
];

// A copy of the opening table, to which two codes are added.
fn is_added(rt: &impl Abort, table: &mut CodeTable, opening: &CodeTable) {
    let is_copied = *table == *opening;
    let known = add(rt, table, "3-1");
    let is_kept = *table == *opening;
    let added = add(rt, table, "5");
    let last = table.codes().last().copied();
    all_hold(
        rt,
        &[
            ("the numbers", OPENING == [1, 2, 3, 4, 5, 6, 7, 8, 9, 10]),
            ("ten codes", opening.len() == 10 && !opening.is_empty()),
            ("room", !opening.is_full()),
            ("a clone is the same", is_copied),
            ("a known code", known == Err(AddFault::Known { no: 3 })),
            ("a known code adds nothing", is_kept),
            ("a new code", added == Ok(11)),
            ("a new code is added", *table != *opening),
            ("it stands last", last == Some(code_of(rt, "5"))),
        ],
    );
}

fn add_groups(rt: &impl Abort, table: &mut CodeTable, groups: [u8; 3]) -> Result<CodeNo, AddFault> {
    let [first, second, third] = groups;
    let word = [first, b'-', second, b'-', third];
    table.add(read_code(&word).expect(rt, "a code"))
}

// Offers 243 codes of three groups to the opening table, which has one of them. How many found it full.
fn fill(rt: &impl Abort, table: &mut CodeTable) -> u32 {
    let mut full = 0u32;
    for first in b'1'..=b'9' {
        for second in b'1'..=b'9' {
            for third in b'1'..=b'3' {
                if add_groups(rt, table, [first, second, third]) == Err(AddFault::Full) {
                    full = full.saturating_add(1);
                }
            }
        }
    }
    full
}

fn is_filled(rt: &impl Abort, table: &mut CodeTable) {
    let full = fill(rt, table);
    let last = number_of(rt, table, "8-1-2");
    let refused = add(rt, table, "8-1-3");
    let known = add(rt, table, "1-1-1");
    all_hold(
        rt,
        &[
            ("as many as have no room", full == 52),
            ("two hundred codes", table.len() == 200),
            ("no room", table.is_full()),
            ("the last of them", last == Some(200)),
            ("one more", refused == Err(AddFault::Full)),
            ("a known one", known == Err(AddFault::Known { no: 11 })),
        ],
    );
}

#[test]
fn tables_hold_two_hundred_codes(rt: HostRuntime) {
    let mut opening = CodeTable::opening(rt.alloc()).expect(&rt, "memory");
    let mut table = opening.clone().expect(&rt, "memory");
    is_added(&rt, &mut table, &opening);
    drop(table);
    is_filled(&rt, &mut opening);
}

fn is_new(rt: &impl Abort, codes: &mut HashSet<Code>, word: &str) -> bool {
    codes.insert(code_of(rt, word)).expect(rt, "memory")
}

fn compare(rt: &impl Abort, codes: &mut HashSet<Code>) {
    let one = code_of(rt, "3-1");
    all_hold(
        rt,
        &[
            ("codes are equal", are_equal(&one, &code_of(rt, "3-1"))),
            ("codes differ", !are_equal(&one, &code_of(rt, "3-5"))),
            ("new to a set", is_new(rt, codes, "3-1")),
            ("another is new", is_new(rt, codes, "3-5")),
            ("known to it", !is_new(rt, codes, "3-1")),
        ],
    );
}

#[test]
fn codes_compare(rt: HostRuntime) {
    let mut codes: HashSet<Code> = HashSet::new(rt.alloc());
    compare(&rt, &mut codes);
}

#[test]
fn codes_and_faults_show(rt: HostRuntime) {
    let alloc = rt.alloc();
    let known = AddFault::Known { no: 3 };
    let code = code_of(&rt, "3-5");
    let debugged = "Code { groups: 2, beats: [3, 5, 0, 0, 0] }";
    let known_text = "the code table has this code as number 3";
    let full_text = "the code table is full";
    all_hold(
        &rt,
        &[
            ("a code", is_shown(&rt, alloc, &code, "3-5")),
            ("its parts", is_debugged(&rt, alloc, &code, debugged)),
            ("known", is_shown(&rt, alloc, &known, known_text)),
            ("full", is_shown(&rt, alloc, &AddFault::Full, full_text)),
            (
                "no room",
                is_shown(&rt, alloc, &AddFault::NoMemory, "out of memory"),
            ),
            (
                "no memory",
                is_shown(&rt, alloc, &NoMemory, "out of memory"),
            ),
            ("no code", is_shown(&rt, alloc, &BadCode, "bad code")),
        ],
    );
}

#[test]
fn laws_hold() {
    printed_is_read();
    read_is_spelled();
    text_is_a_word();
    opening_numbers();
}
