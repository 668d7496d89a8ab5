//! How the calls of a script are written, and what may be replied to each.

use crate::line_forms::LineForm;

/// The calls.
const CALLS: [LineForm; 16] = [
    LineForm {
        keyword: "ring",
        words: "ring WAY CODE",
        example: "ring down 3-1",
    },
    LineForm {
        keyword: "hear",
        words: "hear WAY",
        example: "hear up",
    },
    LineForm {
        keyword: "await_bell",
        words: "await_bell WAY CODE",
        example: "await_bell up 2-1",
    },
    LineForm {
        keyword: "turn",
        words: "turn WAY POSITION",
        example: "turn down line_clear",
    },
    LineForm {
        keyword: "await_block",
        words: "await_block WAY POSITION",
        example: "await_block down line_clear",
    },
    LineForm {
        keyword: "pull",
        words: "pull L",
        example: "pull 4",
    },
    LineForm {
        keyword: "put",
        words: "put L",
        example: "put 4",
    },
    LineForm {
        keyword: "pass",
        words: "pass L",
        example: "pass 4",
    },
    LineForm {
        keyword: "overrun",
        words: "overrun L",
        example: "overrun 4",
    },
    LineForm {
        keyword: "bring",
        words: "bring TRAIN",
        example: "bring t1",
    },
    LineForm {
        keyword: "await_train",
        words: "await_train WAY",
        example: "await_train down",
    },
    LineForm {
        keyword: "berth",
        words: "berth WAY",
        example: "berth down",
    },
    LineForm {
        keyword: "berth_part",
        words: "berth_part WAY",
        example: "berth_part down",
    },
    LineForm {
        keyword: "clear_portion",
        words: "clear_portion WAY",
        example: "clear_portion down",
    },
    LineForm {
        keyword: "wind",
        words: "wind WAY",
        example: "wind down",
    },
    LineForm {
        keyword: "release",
        words: "release WAY",
        example: "release down",
    },
];

// The replies to each call, the done ones first.
const REPLIES: [(&str, &str); 16] = [
    ("ring", "`rung K` or `bell_busy K CODE`"),
    ("hear", "`heard K CODE` or `silent K`"),
    (
        "await_bell",
        "`heard K CODE`, `not_yet K CODE` or `not_yet K none`",
    ),
    (
        "turn",
        "`turned V`, `already_there`, `not_from_normal`, `home_reversed L`, `track_occupied PLACE TRAIN`, \
`welwyn_holds given`, `welwyn_holds berthed` or `count_full OUT`",
    ),
    ("await_block", "`seen V` or `not_yet V POSITION`"),
    (
        "pull",
        "`pulled`, `pulled_under V`, `already_reversed`, `spare`, `held_by_lever L row R`, \
`held_by_track PLACE TRAIN` or `held_by_instrument WAY V POSITION unspent`, or the same with `spent`",
    ),
    (
        "put",
        "`put`, `already_normal`, `held_by_lever L row R` or `held_by_track PLACE TRAIN`",
    ),
    (
        "bring",
        "`brought`, `already_brought` or `occupied PLACE TRAIN`",
    ),
    (
        "pass",
        "`passed TRAIN`, `entered K TRAIN`, `no_train`, `at_danger`, `occupied PLACE TRAIN` or `section_full K`",
    ),
    (
        "overrun",
        "`passed TRAIN`, `entered K TRAIN`, `no_train`, `arm_off`, `occupied PLACE TRAIN` or `section_full K`",
    ),
    ("await_train", "`approaching J TRAIN` or `not_yet J`"),
    (
        "berth",
        "`berthed J TRAIN`, `portion_ahead TRAIN`, `occupied TRAIN` or `no_train J`",
    ),
    (
        "berth_part",
        "`part_berthed J TRAIN`, `portion_ahead TRAIN`, `occupied TRAIN` or `no_train J`",
    ),
    ("clear_portion", "`cleared J TRAIN` or `no_portion`"),
    (
        "wind",
        "`winding MOMENT`, `already_winding` or `not_at_normal`",
    ),
    ("release", "`released`, `not_winding` or `too_soon MOMENT`"),
];

/// How the call with this word is written.
pub fn call_form(word: &[u8]) -> Option<LineForm> {
    for form in &CALLS {
        if word == form.keyword.as_bytes() {
            return Some(*form);
        }
    }
    None
}

/// The replies that the call with this word may have.
pub fn replies_to(word: &[u8]) -> Option<&'static str> {
    for (call, replies) in &REPLIES {
        if word == call.as_bytes() {
            return Some(*replies);
        }
    }
    None
}

/// The words of the calls.
pub fn call_words() -> [&'static [u8]; 16] {
    [
        b"ring",
        b"hear",
        b"await_bell",
        b"turn",
        b"await_block",
        b"pull",
        b"put",
        b"pass",
        b"overrun",
        b"bring",
        b"await_train",
        b"berth",
        b"berth_part",
        b"clear_portion",
        b"wind",
        b"release",
    ]
}
