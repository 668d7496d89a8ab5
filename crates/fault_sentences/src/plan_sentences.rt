//! What is said of a refused plan.

use crate::box_lines::{
    number_at, put_berth_entered, put_first_unknown_place, put_lever_order, put_no_berth,
    put_no_home, put_no_line, put_same_place, put_taken, put_unknown_lever, put_unknown_word,
    put_wrong_kind,
};
use crate::line_forms::put_form;
use crate::numbered_line::Refused;
use crate::plan_forms::form_of;
use crate::plan_limits::{put_out_of_range, put_script_count, put_too_few_boxes, put_too_many};
use crate::plan_names::{
    put_boxes_there_are, put_code_twice, put_name_twice, put_unknown_in_train,
};
use crate::plan_order::put_wrong_place;
use crate::row_lines::{put_bad_row, put_same_lever, put_spare_in_row, put_unknown_in_row};
use crate::sentence::Piece::{Name, Text};
use crate::sentence::{Done, Sentence};
use crate::wrong_words::{put_bad_code, put_bad_name, put_bad_number};
use rail_text::Cause;

// A line with too few or too many words.
fn put_word_count(sentence: &mut Sentence, refused: &Refused<'_>) -> Done {
    let keyword = refused.word(0);
    if keyword == b"end".as_slice() {
        return sentence.text("The line `end` has no further words.");
    }
    sentence.text("The line has too few or too many words. ")?;
    put_form(sentence, form_of(keyword))?;
    let is_name = keyword == b"box".as_slice() || keyword == b"place".as_slice();
    if is_name && !refused.word(2).is_empty() {
        return sentence.say(&[
            Text(" A name is one word: `"),
            Name(refused.word(1)),
            Text("_"),
            Name(refused.word(2)),
            Text("`."),
        ]);
    }
    Ok(())
}

// A `row` line.
fn put_row_sentence(sentence: &mut Sentence, refused: &Refused<'_>, cause: Cause) -> Done {
    match cause {
        Cause::BadRow => put_bad_row(sentence, refused),
        Cause::SameLever => put_same_lever(sentence, refused),
        Cause::UnknownLever => put_unknown_in_row(sentence, refused),
        Cause::WrongKind => put_spare_in_row(sentence, refused),
        _ => put_too_many(sentence, refused),
    }
}

// A line of a box with a lever, a line of railway or a place.
fn put_box_sentence(sentence: &mut Sentence, refused: &Refused<'_>, cause: Cause) -> Done {
    let number = refused.word(number_at(refused.word(0)));
    match cause {
        Cause::UnknownName => put_first_unknown_place(sentence, refused),
        Cause::UnknownWord => put_unknown_word(sentence, refused),
        Cause::LeverOrder => put_lever_order(sentence, refused),
        Cause::UnknownLever => put_unknown_lever(sentence, refused, number),
        Cause::WrongKind => put_wrong_kind(sentence, refused, number),
        Cause::Taken => put_taken(sentence, refused),
        Cause::NoLine => put_no_line(sentence, refused),
        Cause::BerthEntered => put_berth_entered(sentence, refused),
        Cause::NoHome => put_no_home(sentence, refused),
        Cause::NoBerth => put_no_berth(sentence, refused),
        Cause::SamePlace => put_same_place(sentence, refused),
        _ => put_form(sentence, form_of(refused.word(0))),
    }
}

/// What is said of the refused line of a plan, or of line 0, the plan as a whole.
pub fn put_plan_sentence(sentence: &mut Sentence, refused: &Refused<'_>, cause: Cause) -> Done {
    let number = refused.word(number_at(refused.word(0)));
    match cause {
        Cause::ScriptCount => put_script_count(sentence, refused),
        Cause::WrongKeyword => put_wrong_place(sentence, refused),
        Cause::WordCount => put_word_count(sentence, refused),
        Cause::BadNumber => put_bad_number(sentence, number),
        Cause::OutOfRange => put_out_of_range(sentence, refused, number),
        Cause::BadName => put_bad_name(sentence, refused.word(1)),
        Cause::NameTwice => put_name_twice(sentence, refused),
        Cause::BadCode => put_bad_code(sentence, refused.word(2)),
        Cause::CodeTwice => put_code_twice(sentence, refused),
        Cause::TooMany => put_too_many(sentence, refused),
        Cause::TooFewBoxes => put_too_few_boxes(sentence, refused),
        Cause::UnknownName if refused.line.number == 0 => put_boxes_there_are(sentence, refused),
        Cause::UnknownName if refused.line.has_keyword(b"train") => {
            put_unknown_in_train(sentence, refused)
        }
        _ if refused.line.has_keyword(b"row") => put_row_sentence(sentence, refused, cause),
        _ => put_box_sentence(sentence, refused, cause),
    }
}
