//! Why a text was refused, told to people.

ghost use Rattle.std.specs.Prelude.{IfOk, string_bytes};
ghost use Rattle.fault_sentences.specs.Explained.{Explains};

use crate::explained::{explained, line_with};
use crate::journal_sentences::put_journal_sentence;
use crate::numbered_line::{NumberedLine, Refused, lines_above};
use crate::plan_sentences::put_plan_sentence;
use crate::script_sentences::put_script_sentence;
use crate::sentence::{Done, Sentence};
use crate::text_form::{
    put_after_end, put_bad_byte, put_cut, put_long_line, put_no_end, put_spacing, put_too_long,
};
use crate::token_sentences::put_token_sentence;
use line_plan::{PLAN_LIMIT, Plan};
use rail_text::{Cause, NoMemory};
use std::alloc::Global;

/// What a text was to be.
#[derive(Clone, Copy)]
pub enum TextKind<'a> {
    /// A plan.
    Plan,
    /// The script of the box of a plan with this number, from 0.
    Script { plan: &'a Plan, box_no: u32 },
    /// A journal of a plan.
    Journal { plan: &'a Plan },
    /// A script of a single line with tokens.
    Token,
}

// What a text of the kind is called, and the most bytes that it has.
fn limit_of(kind: TextKind<'_>) -> (&'static str, u64) {
    match kind {
        TextKind::Plan => ("a plan", PLAN_LIMIT as u64),
        TextKind::Script { .. } => ("a script", 1_048_576),
        TextKind::Journal { plan } if plan.version == 1 => ("a journal under `plan 1`", 67_108_864),
        TextKind::Journal { .. } => ("a journal under `plan 2`", 134_217_728),
        TextKind::Token => ("a script with tokens", 1_048_576),
    }
}

// The first line of a text of the kind.
fn first_line(kind: TextKind<'_>) -> &'static str {
    match kind {
        TextKind::Plan => "`plan 1` or `plan 2`",
        TextKind::Script { .. } => "`script NAME`, with the name of its box",
        TextKind::Journal { .. } => "`journal 1` or `journal 2`",
        TextKind::Token => "`token 1`",
    }
}

// What is said of a line whose bytes are right.
fn put_line_sentence(
    sentence: &mut Sentence,
    kind: TextKind<'_>,
    refused: &Refused<'_>,
    cause: Cause,
) -> Done {
    match (cause, kind) {
        (Cause::AfterEnd, _) => put_after_end(sentence, refused),
        (Cause::NoEnd, _) => put_no_end(sentence, refused, first_line(kind)),
        (_, TextKind::Plan) => put_plan_sentence(sentence, refused, cause),
        (_, TextKind::Script { plan, box_no }) => {
            put_script_sentence(sentence, plan, box_no, refused, cause)
        }
        (_, TextKind::Journal { plan }) => put_journal_sentence(sentence, plan, refused, cause),
        (_, TextKind::Token) => put_token_sentence(sentence, refused, cause),
    }
}

// The same, once the lines above are cut. For the text as a whole that are all its lines.
fn put_words_sentence(
    sentence: &mut Sentence,
    bytes: &[u8],
    kind: TextKind<'_>,
    line: NumberedLine<'_>,
    cause: Cause,
) -> Done {
    let number = if line.number == 0 {
        u32::MAX
    } else {
        line.number
    };
    let above = lines_above(sentence.alloc(), bytes, number)?;
    let refused = Refused {
        line,
        above: &above,
    };
    let done = put_line_sentence(sentence, kind, &refused, cause);
    drop(above);
    done
}

// What is said of the refused line of a text, or of line 0, the text as a whole.
fn put_sentence(
    sentence: &mut Sentence,
    name: &str,
    bytes: &[u8],
    kind: TextKind<'_>,
    number: u32,
    cause: Cause,
) -> Done {
    let line = NumberedLine {
        number,
        text: line_with(bytes, number).unwrap_or(b""),
    };
    match cause {
        Cause::TooLong => {
            let (what, most) = limit_of(kind);
            put_too_long(sentence, what, bytes.len(), most)
        }
        Cause::Cut => put_cut(sentence, name),
        Cause::BadByte => put_bad_byte(sentence, name, line),
        Cause::LongLine => put_long_line(sentence, line),
        Cause::Spacing => put_spacing(sentence, name, line),
        _ => put_words_sentence(sentence, bytes, kind, line, cause),
    }
}

/// Why a text was refused, as a compiler would tell it: `NAME:LINE: CAUSE` (line 0, the text as a whole, without its
/// number), the refused line as it stands behind four blanks, where there is one, and behind four blanks a sentence
/// with what is known there. Bytes that may not stand in a line are shown as `?`. The line and the cause are those of
/// the refusal; the name is printed as it is.
pub fn explain(
    alloc: Global,
    name: &str,
    bytes: &[u8],
    kind: TextKind<'_>,
    line: u32,
    cause: Cause,
) -> Result<String, NoMemory>
    ensures { IfOk result (λ text. Explains name.now bytes.now line cause (string_bytes text)) }
{
    let mut sentence = Sentence::new(alloc);
    let text = match put_sentence(&mut sentence, name, bytes, kind, line, cause) {
        Ok(()) => explained(alloc, name, bytes, line, cause, sentence.as_bytes()),
        Err(error) => Err(error),
    };
    drop(sentence);
    text
}
