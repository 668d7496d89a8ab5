//! Texts that can't be fetched, and output that can't be written.

use crate::tests::desk::{
    ASH_IDLE, AUDIT, BEECH_IDLE, IDLE_JOURNAL, JUDGE, Outside, RUN_TWO, SOUND, TOKEN, TOKEN_IDLE,
    TWO_BOXES, WATCH_TWO, agrees, work_behind,
};
use box_top::{OpenGate, Status};
use rail_text::NoMemory;
use std::alloc::Global;
use std::process::Abort;
use std::sync::Wait;
use std::test::Fail;
use std::thread::Threads;

// The output of a run without a call.
const IDLE: &[u8] = b"journal 1\nend\nregister Ash 0\nregister Beech 0\nrefusals 0\n\
    section down Ash Beech most 0\nsection up Beech Ash most 0\n";

// A failed call of the shelf, the words, the texts that are there, and the status.
type Fetch = (
    Option<u64>,
    &'static [&'static str],
    &'static [&'static [u8]],
    Status,
);

const FETCHES: [Fetch; 22] = [
    (
        Some(1),
        RUN_TWO,
        &[TWO_BOXES, ASH_IDLE, BEECH_IDLE],
        Status::ShelfFault,
    ),
    (
        Some(2),
        RUN_TWO,
        &[TWO_BOXES, ASH_IDLE, BEECH_IDLE],
        Status::ShelfFault,
    ),
    (
        Some(3),
        RUN_TWO,
        &[TWO_BOXES, ASH_IDLE, BEECH_IDLE],
        Status::ShelfFault,
    ),
    // There is no fourth call.
    (
        Some(4),
        RUN_TWO,
        &[TWO_BOXES, ASH_IDLE, BEECH_IDLE],
        Status::Done,
    ),
    // A later text is wrong, but isn't reached.
    (Some(1), RUN_TWO, &[b"plan", b"", b""], Status::ShelfFault),
    (
        Some(2),
        RUN_TWO,
        &[TWO_BOXES, b"script", b"script"],
        Status::ShelfFault,
    ),
    (
        Some(3),
        RUN_TWO,
        &[TWO_BOXES, ASH_IDLE, b"script"],
        Status::ShelfFault,
    ),
    (
        Some(1),
        WATCH_TWO,
        &[TWO_BOXES, ASH_IDLE, BEECH_IDLE],
        Status::ShelfFault,
    ),
    (
        Some(2),
        WATCH_TWO,
        &[TWO_BOXES, ASH_IDLE, BEECH_IDLE],
        Status::ShelfFault,
    ),
    (
        Some(3),
        WATCH_TWO,
        &[TWO_BOXES, ASH_IDLE, BEECH_IDLE],
        Status::ShelfFault,
    ),
    // The number of rounds names no text.
    (
        Some(2),
        WATCH_TWO,
        &[b"", ASH_IDLE, BEECH_IDLE],
        Status::Refused,
    ),
    (
        Some(1),
        JUDGE,
        &[TWO_BOXES, IDLE_JOURNAL],
        Status::ShelfFault,
    ),
    (
        Some(2),
        JUDGE,
        &[TWO_BOXES, IDLE_JOURNAL],
        Status::ShelfFault,
    ),
    (
        Some(1),
        AUDIT,
        &[TWO_BOXES, IDLE_JOURNAL],
        Status::ShelfFault,
    ),
    (
        Some(2),
        AUDIT,
        &[TWO_BOXES, IDLE_JOURNAL],
        Status::ShelfFault,
    ),
    (Some(1), TOKEN, &[TOKEN_IDLE], Status::ShelfFault),
    // A plan that is refused is refused before the journal is fetched.
    (Some(2), JUDGE, &[b"", IDLE_JOURNAL], Status::Refused),
    (
        Some(1),
        &["check", "plan"],
        &[TWO_BOXES],
        Status::ShelfFault,
    ),
    (
        Some(1),
        &["tables", "plan", "Ash"],
        &[TWO_BOXES],
        Status::ShelfFault,
    ),
    (
        Some(1),
        &["chart", "plan", "Ash"],
        &[TWO_BOXES],
        Status::ShelfFault,
    ),
    (
        Some(1),
        &["upgrade", "plan"],
        &[TWO_BOXES],
        Status::ShelfFault,
    ),
    // The name of a box names no text.
    (Some(2), &["tables", "plan", "Ash"], &[b""], Status::Refused),
];

// What is printed with a status: the output of a run, the line of a refused plan, or nothing.
fn printed_with(status: Status) -> &'static [u8] {
    match status {
        Status::Done => IDLE,
        Status::Refused => b"refused text 1 line 1: no end\n",
        _ => b"",
    }
}

#[test]
fn failed_fetches_print_nothing(rt: HostRuntime) -> Result<(), Fail> {
    for (row, (bad_fetch, words, texts, status)) in FETCHES.into_iter().enumerate() {
        let outside = Outside { bad_fetch, ..SOUND };
        let printed = printed_with(status);
        let answer = work_behind(&rt, rt.alloc(), words, texts, outside, &OpenGate, printed)?;
        let is_so = answer.fills(printed.len(), status, printed);
        agrees(&rt, words, row as u64, is_so);
    }
    Ok(())
}

// The words, the texts, the status with a sound sink, and what is printed.
type Output = (
    &'static [&'static str],
    &'static [&'static [u8]],
    Status,
    &'static [u8],
);

const OUTPUTS: [Output; 13] = [
    (
        RUN_TWO,
        &[TWO_BOXES, ASH_IDLE, BEECH_IDLE],
        Status::Done,
        IDLE,
    ),
    (
        WATCH_TWO,
        &[TWO_BOXES, ASH_IDLE, BEECH_IDLE],
        Status::Done,
        b"journal 1\n\
            end\n\
            register Ash 0\n\
            register Beech 0\n\
            refusals 0\n\
            section down Ash Beech most 0\n\
            section up Beech Ash most 0\n\
            board 2\n\
            1 down Ash Beech 0 normal unspent\n\
            1 up Beech Ash 0 normal unspent\n\
            2 down Ash Beech 0 normal unspent\n\
            2 up Beech Ash 0 normal unspent\n",
    ),
    (
        &["check", "plan"],
        &[TWO_BOXES],
        Status::Done,
        b"findings 0\n",
    ),
    (
        &["chart", "plan", "Ash"],
        &[TWO_BOXES],
        Status::Done,
        b"chart Ash\nchannels 0\ncolumn none\n",
    ),
    (
        &["upgrade", "plan"],
        &[TWO_BOXES],
        Status::Done,
        b"plan 2\nboxes 2\ndelay 120\nlooks 1000000000\nbox Ash\nbox Beech\nend\n",
    ),
    (
        RUN_TWO,
        &[
            TWO_BOXES,
            b"script Ash\n10:00 ring down 1\nend\n",
            BEECH_IDLE,
        ],
        Status::Done,
        b"journal 1\n\
            1 Ash 10:00 ring down 1 -> rung 1\n\
            end\n\
            register Ash 1\n\
            1 10:00 ring down 1 -> rung 1\n\
            register Beech 0\n\
            refusals 0\n\
            section down Ash Beech most 0\n\
            section up Beech Ash most 0\n",
    ),
    (
        RUN_TWO,
        &[b"plan 1", ASH_IDLE, BEECH_IDLE],
        Status::Refused,
        b"refused text 1 line 1: cut\n",
    ),
    (&["run"], &[], Status::Words, b"words not understood\n"),
    (
        JUDGE,
        &[
            TWO_BOXES,
            b"journal 1\n1 Beech 10:00 hear up -> heard 1 1\nend\n",
        ],
        Status::Done,
        b"wrong at 1\nsaid heard 1 1\nlaw silent 0\n",
    ),
    (
        AUDIT,
        &[
            TWO_BOXES,
            b"journal 1\n1 Ash 10:00 ring down 3-1 -> rung 1\nend\n",
        ],
        Status::Done,
        b"audit 1\n1 rule 1 offer\n",
    ),
    (
        TOKEN,
        &[TOKEN_IDLE],
        Status::Done,
        b"token 1\nend\ntokens 1 0 out 0\n",
    ),
    (
        &["tables", "plan", "Ash"],
        &[b"plan 1\nboxes 2\ndelay 2\nlooks 9\nbox Ash\nlever 1 lock\nbox Beech\nend\n"],
        Status::Done,
        b"frame Ash\nlever 1 lock blue\nrows 0\n",
    ),
    (
        &["stress", "1"],
        &[],
        Status::Done,
        b"stress 1\n\
            boxes 3\n\
            trains 1\n\
            calls 60\n\
            refused 0\n\
            section down Ash Beech most 1\n\
            section up Beech Ash most 0\n\
            section down Beech Cedar most 1\n\
            section up Cedar Beech most 0\n",
    ),
];

// Fails this put, where the sink takes ten bytes at most at a time, and looks for so many bytes in it.
fn fail_put<R: Threads + Wait + Sync + Abort>(
    rt: &R,
    alloc: Global,
    (words, texts, status, printed): Output,
    put: u64,
    kept: usize,
) -> Result<(), NoMemory> {
    let outside = Outside {
        bad_put: Some(put),
        ..SOUND
    };
    let answer = work_behind(rt, alloc, words, texts, outside, &OpenGate, printed)?;
    agrees(rt, words, put, answer.fills(kept, status, printed));
    Ok(())
}

// Fails each put of an output in turn, and at last one that never comes.
fn fail_each_put<R: Threads + Wait + Sync + Abort>(
    rt: &R,
    alloc: Global,
    output: Output,
) -> Result<(), NoMemory> {
    let mut put = 1u64;
    let mut kept = 0usize;
    for ten in output.3.chunks(10) {
        fail_put(rt, alloc, output, put, kept)?;
        put = put.saturating_add(1);
        kept = kept.saturating_add(ten.len());
    }
    fail_put(rt, alloc, output, put, kept)
}

#[test]
fn failed_puts_leave_whole_puts(rt: HostRuntime) -> Result<(), Fail> {
    for output in OUTPUTS {
        fail_each_put(&rt, rt.alloc(), output)?;
    }
    Ok(())
}

// How many bytes of the output of a run are taken before each put; then all of them.
const KEPT: [usize; 13] = [0, 10, 20, 30, 40, 50, 60, 70, 80, 90, 100, 110, 115];

#[test]
fn the_output_of_a_run_is_put_as_one_text(rt: HostRuntime) -> Result<(), Fail> {
    for (place, kept) in KEPT.into_iter().enumerate() {
        fail_put(&rt, rt.alloc(), OUTPUTS[0], place as u64 + 1, kept)?;
    }
    // The third put fails.
    let outside = Outside {
        bad_put: Some(3),
        ..SOUND
    };
    let (words, texts, ..) = OUTPUTS[0];
    let taken = b"journal 1\nend\nregist";
    let answer = work_behind(&rt, rt.alloc(), words, texts, outside, &OpenGate, taken)?;
    let is_so = answer.status == Status::SinkFault && answer.taken == Some(20);
    agrees(&rt, words, 3, is_so);
    Ok(())
}

#[test]
fn small_rooms_are_filled(rt: HostRuntime) -> Result<(), Fail> {
    for (words, texts, status, printed) in OUTPUTS {
        for room in [
            0,
            1,
            10,
            20,
            50,
            printed.len().saturating_sub(1),
            printed.len(),
        ] {
            let outside = Outside { room, ..SOUND };
            let answer = work_behind(&rt, rt.alloc(), words, texts, outside, &OpenGate, printed)?;
            agrees(&rt, words, room as u64, answer.fills(room, status, printed));
        }
    }
    Ok(())
}
