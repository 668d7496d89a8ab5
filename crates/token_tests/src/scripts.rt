//! Token scripts: each cause for which a text is refused, with its line, and the texts at the limits.

use crate::facts::none_is_wrong;
use rail_text::{Cause, ReadError};
use std::alloc::{AllocError, Global};
use std::test::Fail;
use token_law::{TokenAct, TokenCall};
use token_text::{TokenScript, read_tokens, token_scripts_law};

/// A text, and the line and the cause of its first fault.
type Refused = (&'static str, u32, Cause);

const FORMS: &[Refused] = &[
    ("token 1", 1, Cause::Cut),
    ("token 1\ntokens 1 0\n0 lo\tok\n", 3, Cause::BadByte),
    ("token 1\ntokens 1  0\n", 2, Cause::Spacing),
    ("token 1\ntokens 1 0\nend\n0 look\n", 4, Cause::AfterEnd),
    ("", 1, Cause::NoEnd),
    ("token 1\ntokens 1 0\n0 look\n", 4, Cause::NoEnd),
];

const OPENINGS: &[Refused] = &[
    ("tokens 1 0\n", 1, Cause::WrongKeyword),
    ("token 1\n0 look\n", 2, Cause::WrongKeyword),
    ("token 1\ntoken 1\n", 2, Cause::WrongKeyword),
    ("token 1\nend\n", 2, Cause::WrongKeyword),
    ("token\n", 1, Cause::WordCount),
    ("token 1 1\n", 1, Cause::WordCount),
    ("token one\n", 1, Cause::BadNumber),
    ("token 2\n", 1, Cause::OutOfRange),
    ("token 1\ntokens x\n", 2, Cause::WordCount),
    ("token 1\ntokens 1 0 0\n", 2, Cause::WordCount),
    ("token 1\ntokens x 51\n", 2, Cause::BadNumber),
    ("token 1\ntokens 1 00\n", 2, Cause::BadNumber),
    ("token 1\ntokens 51 x\n", 2, Cause::OutOfRange),
    ("token 1\ntokens 0 51\n", 2, Cause::OutOfRange),
];

const CALLS: &[Refused] = &[
    ("token 1\ntokens 1 0\n2 give\n", 3, Cause::OutOfRange),
    ("token 1\ntokens 1 0\n2\n", 3, Cause::OutOfRange),
    ("token 1\ntokens 1 0\ntoken 1\n", 3, Cause::BadNumber),
    ("token 1\ntokens 1 0\ntokens 1 0\n", 3, Cause::BadNumber),
    ("token 1\ntokens 1 0\nx wave\n", 3, Cause::BadNumber),
    ("token 1\ntokens 1 0\n0\n", 3, Cause::UnknownWord),
    ("token 1\ntokens 1 0\n0 wave 1 2\n", 3, Cause::UnknownWord),
    ("token 1\ntokens 1 0\n0 look 7\n", 3, Cause::WordCount),
    ("token 1\ntokens 1 0\n0 draw\n", 3, Cause::WordCount),
    ("token 1\ntokens 1 0\n0 draw 0 1\n", 3, Cause::WordCount),
    ("token 1\ntokens 1 0\nend 1\n", 3, Cause::WordCount),
    ("token 1\ntokens 1 0\n0 draw x\n", 3, Cause::BadNumber),
    ("token 1\ntokens 1 0\n0 draw 0\n", 3, Cause::OutOfRange),
    ("token 1\ntokens 1 0\n0 draw 65536\n", 3, Cause::OutOfRange),
    (
        "# one\n\ntoken 1\n#\ntokens 1 0\n2 give\n",
        6,
        Cause::OutOfRange,
    ),
];

// What a text is refused for; nothing where it is read.
fn refusal_of(alloc: Global, text: &str) -> Option<ReadError> {
    match read_tokens(alloc, text.as_bytes()) {
        Ok(script) => {
            drop(script);
            None
        }
        Err(error) => Some(error),
    }
}

// The first of these texts that isn't refused so.
fn first_misread(alloc: Global, texts: &[Refused]) -> Option<&'static str> {
    for (text, line, cause) in texts {
        let due = ReadError::Refused {
            line: *line,
            cause: *cause,
        };
        if refusal_of(alloc, text) != Some(due) {
            return Some(text);
        }
    }
    None
}

#[test]
fn each_cause_with_its_line(rt: HostRuntime) {
    let misread = first_misread(rt.alloc(), FORMS)
        .or(first_misread(rt.alloc(), OPENINGS))
        .or(first_misread(rt.alloc(), CALLS));
    none_is_wrong(&rt, misread);
}

// Puts a script that has a piece so many times for its calls.
fn put_script(text: &mut String, piece: &str, times: usize) -> Result<(), AllocError> {
    text.push_str("token 1\ntokens 50 50\n")?;
    for _ in 0..times {
        text.push_str(piece)?;
    }
    text.push_str("\nend\n")
}

// Whether the script that has a piece so many times is refused so, or read where no refusal is due.
fn is_due(
    alloc: Global,
    piece: &str,
    times: usize,
    due: Option<ReadError>,
) -> Result<bool, AllocError> {
    let mut text = String::new(alloc);
    let put = put_script(&mut text, piece, times);
    let is_due = refusal_of(alloc, text.as_str()) == due;
    drop(text);
    put?;
    Ok(is_due)
}

const LONG_LINE: ReadError = ReadError::Refused {
    line: 3,
    cause: Cause::LongLine,
};

const TOO_MANY: ReadError = ReadError::Refused {
    line: 10_003,
    cause: Cause::TooMany,
};

const TOO_LONG: ReadError = ReadError::Refused {
    line: 0,
    cause: Cause::TooLong,
};

/// What a script is, a piece, how often it has that, and what it is refused for.
type Limit = (&'static str, &'static str, usize, Option<ReadError>);

const LIMITS: &[Limit] = &[
    ("a line of 201 bytes", "x", 201, Some(LONG_LINE)),
    ("10,000 calls are read", "1 draw 65535\n", 10_000, None),
    ("10,001 calls", "0 look\n", 10_001, Some(TOO_MANY)),
    ("1,048,576 bytes are read", "\n", 1_048_550, None),
    ("1,048,577 bytes", "\n", 1_048_551, Some(TOO_LONG)),
];

// The first of these scripts that isn't refused or read so.
fn first_beyond(alloc: Global, limits: &[Limit]) -> Result<Option<&'static str>, AllocError> {
    for (name, piece, times, due) in limits {
        if !is_due(alloc, piece, *times, *due)? {
            return Ok(Some(name));
        }
    }
    Ok(None)
}

#[test]
fn texts_at_the_limits(rt: HostRuntime) -> Result<(), Fail> {
    let beyond = first_beyond(rt.alloc(), LIMITS)?;
    none_is_wrong(&rt, beyond);
    Ok(())
}

const LOOK: TokenCall = TokenCall {
    box_no: 1,
    act: TokenAct::Look,
};

const OFF_THE_LINE: TokenCall = TokenCall {
    box_no: 2,
    act: TokenAct::Look,
};

// The tokens and calls of a script that is made of these calls; nothing where they don't fit.
fn made_of(calls: Vec<TokenCall>) -> Option<(u32, u32, Vec<TokenCall>)> {
    if TokenScript::fits(50, 1, &calls) {
        let script = TokenScript::new(50, 1, calls);
        Some((script.at_0, script.at_1, script.into_calls()))
    } else {
        drop(calls);
        None
    }
}

// Whether a script of this call alone gives it back.
fn gives_back(alloc: Global, call: TokenCall) -> Result<bool, AllocError> {
    let calls = vec![in alloc; call]?;
    Ok(match made_of(calls) {
        Some((at_0, at_1, calls)) => {
            let is_back = at_0 == 50 && at_1 == 1 && calls.as_slice() == [call].as_slice();
            drop(calls);
            is_back
        }
        None => false,
    })
}

#[test]
fn scripts_are_made_of_calls(rt: HostRuntime) -> Result<(), Fail> {
    token_scripts_law();
    let is_back = gives_back(rt.alloc(), LOOK)?;
    let is_off = !gives_back(rt.alloc(), OFF_THE_LINE)?;
    let are_few = !TokenScript::fits(51, 0, &[]) && TokenScript::fits(0, 50, &[]);
    assert!(rt; is_back && is_off && are_few);
    Ok(())
}
