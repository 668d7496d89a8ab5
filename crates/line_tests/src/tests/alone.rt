//! The desk alone: it works no line.

use crate::tests::desk::{
    ASH_IDLE, AUDIT, BEECH_IDLE, IDLE_JOURNAL, JUDGE, RUN_TWO, TOKEN, TOKEN_IDLE, TWO_BOXES,
    WATCH_TWO, agrees, serve_at_desk,
};
use box_top::Status;
use std::test::Fail;

// The words, the texts that they name, the status, and what is printed.
type Row = (
    &'static [&'static str],
    &'static [&'static [u8]],
    Status,
    &'static str,
);

const ROWS: [Row; 12] = [
    (JUDGE, &[TWO_BOXES, IDLE_JOURNAL], Status::Done, "legal 0\n"),
    (AUDIT, &[TWO_BOXES, IDLE_JOURNAL], Status::Done, "audit 0\n"),
    (
        TOKEN,
        &[TOKEN_IDLE],
        Status::Done,
        "token 1\nend\ntokens 1 0 out 0\n",
    ),
    (
        &["check", "plan"],
        &[TWO_BOXES],
        Status::Done,
        "findings 0\n",
    ),
    (
        &["tables", "plan", "Ash"],
        &[TWO_BOXES],
        Status::Done,
        "frame Ash\nrows 0\n",
    ),
    (
        &["tables", "plan", "Elm"],
        &[TWO_BOXES],
        Status::Refused,
        "refused text 1 line 0: unknown name\n",
    ),
    (
        &["chart", "plan", "Ash"],
        &[TWO_BOXES],
        Status::Done,
        "chart Ash\nchannels 0\ncolumn none\n",
    ),
    (
        &["upgrade", "plan"],
        &[TWO_BOXES],
        Status::Done,
        "plan 2\nboxes 2\ndelay 120\nlooks 1000000000\nbox Ash\nbox Beech\nend\n",
    ),
    (
        &["check", "plan"],
        &[b"plan 1"],
        Status::Refused,
        "refused text 1 line 1: cut\n",
    ),
    (
        RUN_TWO,
        &[TWO_BOXES, ASH_IDLE, BEECH_IDLE],
        Status::Words,
        "words not understood\n",
    ),
    (
        WATCH_TWO,
        &[TWO_BOXES, ASH_IDLE, BEECH_IDLE],
        Status::Words,
        "words not understood\n",
    ),
    (
        &["stress", "1"],
        &[TWO_BOXES],
        Status::Words,
        "words not understood\n",
    ),
];

#[test]
fn desk_reports_and_works_no_line(rt: HostRuntime) -> Result<(), Fail> {
    for (row, (words, texts, status, printed)) in ROWS.into_iter().enumerate() {
        let printed = printed.as_bytes();
        let answer = serve_at_desk(rt.alloc(), words, texts, printed)?;
        let is_so = answer.fills(printed.len(), status, printed);
        agrees(&rt, words, row as u64, is_so);
    }
    Ok(())
}
