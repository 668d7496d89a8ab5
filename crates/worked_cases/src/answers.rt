//! What each call answers.

use crate::case_fault::CaseFault;
use crate::charts::{put_chart, put_judged};
use crate::codes::{put_code, put_opening_code};
use crate::frames::{put_bridles, put_worked};
use crate::moments::{put_day_moment, put_ready};
use crate::plans::put_answer_on_plan;
use crate::putting::Done;
use crate::tables::{put_holder, put_row, table_of};
use crate::texts::{put_form, put_lines, put_name, put_number, put_number_in};
use crate::words::{
    put_behind, put_first_word, put_keyword, put_no_word, put_one_word, put_word, put_word_number,
    put_words,
};
use bridle_frame::Bridle;
use locking_table::Table;
use std::alloc::Global;
use std::rt::Files;
use tappet_compiler::compile;

// The answer of a call on the bridles of a table.
fn put_bridles_answer(
    alloc: Global,
    out: &mut String,
    call: &str,
    bridles: &[Bridle],
    argument: &str,
) -> Done {
    match call {
        "bridles" => put_bridles(out, bridles),
        "chart" => put_chart(alloc, out, bridles),
        _ => put_judged(alloc, out, bridles, argument),
    }
}

// The answer of a call on the bridles that are made of a table.
fn put_answer_on_bridles(
    alloc: Global,
    out: &mut String,
    call: &str,
    table: &Table,
    argument: &str,
) -> Done {
    let bridles = compile(alloc, table)?;
    let done = put_bridles_answer(alloc, out, call, &bridles, argument);
    drop(bridles);
    done
}

// The answer of a call on a table.
fn put_table_answer(
    alloc: Global,
    out: &mut String,
    call: &str,
    table: &Table,
    argument: &str,
) -> Done {
    match call {
        "holder" => put_holder(alloc, out, table, argument),
        "moves" => put_worked(alloc, out, table, argument, false),
        "throws" => put_worked(alloc, out, table, argument, true),
        _ => put_answer_on_bridles(alloc, out, call, table, argument),
    }
}

// The answer of a call on the table of the rows before the first bar.
fn put_answer_on_rows(alloc: Global, out: &mut String, call: &str, argument: &str) -> Done {
    let (rows, argument) = argument.split_once(" | ").unwrap_or((argument, ""));
    let table = table_of(alloc, rows)?;
    let done = put_table_answer(alloc, out, call, &table, argument);
    drop(table);
    done
}

// The calls: those on a table and those on a plan share one kind each.
#[derive(Clone, Copy)]
enum RowCall {
    Code,
    OpeningCode,
    Number,
    NumberFrom2To32,
    Name,
    Lines,
    Form,
    FormUnskipped,
    Word,
    Words,
    Behind,
    WordNumber,
    FirstWord,
    Keyword,
    OneWord,
    NoWord,
    Row,
    Moment,
    Ready,
    OnTable,
    OnPlan,
}

// The words of the calls.
const CALLS: [(&str, RowCall); 29] = [
    ("code", RowCall::Code),
    ("opening_code", RowCall::OpeningCode),
    ("number", RowCall::Number),
    ("number_from_2_to_32", RowCall::NumberFrom2To32),
    ("name", RowCall::Name),
    ("lines", RowCall::Lines),
    ("form", RowCall::Form),
    ("form_unskipped", RowCall::FormUnskipped),
    ("word", RowCall::Word),
    ("words", RowCall::Words),
    ("behind", RowCall::Behind),
    ("word_number", RowCall::WordNumber),
    ("first_word", RowCall::FirstWord),
    ("keyword", RowCall::Keyword),
    ("one_word", RowCall::OneWord),
    ("no_word", RowCall::NoWord),
    ("row", RowCall::Row),
    ("moment", RowCall::Moment),
    ("ready", RowCall::Ready),
    ("holder", RowCall::OnTable),
    ("moves", RowCall::OnTable),
    ("throws", RowCall::OnTable),
    ("bridles", RowCall::OnTable),
    ("chart", RowCall::OnTable),
    ("chart_holds", RowCall::OnTable),
    ("plan", RowCall::OnPlan),
    ("call", RowCall::OnPlan),
    ("reply", RowCall::OnPlan),
    ("script", RowCall::OnPlan),
];

// The call of this word.
fn call_named(word: &str) -> Result<RowCall, CaseFault> {
    for (name, call) in &CALLS {
        if *name == word {
            return Ok(*call);
        }
    }
    Err(CaseFault::UnknownCall)
}

/// Puts the answer of a call of this word behind a text. The plans lie in the folder of this name.
pub fn put_answer<R: Files + AllocGlobal>(
    rt: &R,
    out: &mut String,
    plans: &str,
    call: &str,
    argument: &str,
) -> Done {
    let alloc = rt.alloc();
    match call_named(call)? {
        RowCall::Code => put_code(alloc, out, argument),
        RowCall::OpeningCode => put_opening_code(alloc, out, argument),
        RowCall::Number => put_number(out, argument),
        RowCall::NumberFrom2To32 => put_number_in(out, argument),
        RowCall::Name => put_name(out, argument),
        RowCall::Lines => put_lines(out, argument),
        RowCall::Form => put_form(out, true, argument),
        RowCall::FormUnskipped => put_form(out, false, argument),
        RowCall::Word => put_word(out, argument),
        RowCall::Words => put_words(out, argument),
        RowCall::Behind => put_behind(out, argument),
        RowCall::WordNumber => put_word_number(out, argument),
        RowCall::FirstWord => put_first_word(out, argument),
        RowCall::Keyword => put_keyword(out, argument),
        RowCall::OneWord => put_one_word(out, argument),
        RowCall::NoWord => put_no_word(out, argument),
        RowCall::Row => put_row(alloc, out, argument),
        RowCall::Moment => put_day_moment(out, argument),
        RowCall::Ready => put_ready(out, argument),
        RowCall::OnTable => put_answer_on_rows(alloc, out, call, argument),
        RowCall::OnPlan => put_answer_on_plan(rt, out, plans, call, argument),
    }
}
