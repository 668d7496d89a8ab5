//! What a line asks for.

ghost use Rattle.std.specs.Prelude.{◌≡◌, IfOk, codes, option_map};
ghost use Rattle.serde_json.specs.View.{view};
ghost use Rattle.line_requests.specs.Requests.{all_asked, asked_in, end_asked, flag_at, look_asked, may_asked};
ghost use Rattle.line_requests.specs.Requests.{member_count, number_asked, number_at, one_asked, section_asked, shown};
ghost use Rattle.line_requests.specs.Requests.{script_asked, text_at, three_asked, two_asked, value_in, word_asked};

use crate::request::Request;
use rail_text::NoMemory;
use serde_json::Value;
use std::alloc::Global;

/// The value that a line spells, if it is JSON.
#[tactic(auto, unfolding(crate::specs::Requests::value_in))]
pub fn value_in(alloc: Global, line: &[u8]) -> Result<Option<Value>, NoMemory>
    ensures { IfOk result (λ value. option_map view value ≡ value_in line.now) }
{
    match Value::from_slice(alloc, line) {
        Ok(value) => Ok(Some(value)),
        Err(error) => {
            if error.is_memory() {
                Err(NoMemory)
            } else {
                Ok(None)
            }
        }
    }
}

// The text that stands at a key.
fn text_at<'v>(value: &'v Value, key: &str) -> Option<&'v str>
    ensures { option_map (λ text. text.now) result ≡ text_at key.now (view value.now) }
{
    value.get(key).and_then(Value::as_str)
}

// True or false, where it stands at a key.
fn flag_at(value: &Value, key: &str) -> Option<bool>
    ensures { result ≡ flag_at key.now (view value.now) }
{
    value.get(key).and_then(Value::as_bool)
}

// The number that stands at a key.
fn number_at(value: &Value, key: &str) -> Option<u64>
    ensures { result ≡ number_at key.now (view value.now) }
{
    value.get(key).and_then(Value::as_u64)
}

// How many members a value has.
fn member_count(value: &Value) -> usize
    ensures { result ≡ member_count (view value.now) }
{
    match value.as_object() {
        Some(members) => members.len(),
        None => 0,
    }
}

// What an object with three members asks for.
#[tactic(auto, unfolding(crate::specs::Requests::three_asked))]
fn three_asked(value: &Value) -> Option<Request<'_>>
    ensures { option_map shown result ≡ three_asked (view value.now) }
{
    let box_name = text_at(value, "box")?;
    let at = text_at(value, "at")?;
    let call = text_at(value, "call")?;
    Some(Request::Call { box_name, at, call })
}

// Which levers of a box may be moved, where that is asked for.
fn may_asked(value: &Value) -> Option<Request<'_>>
    ensures { option_map shown result
        ≡ may_asked (text_at (codes "may") (view value.now)) (text_at (codes "at") (view value.now)) }
{
    let box_name = text_at(value, "may")?;
    let at = text_at(value, "at")?;
    Some(Request::May { box_name, at })
}

// What belongs to a section, where that is asked for.
fn section_asked(value: &Value) -> Option<Request<'_>>
    ensures { option_map shown result
        ≡ section_asked (text_at (codes "look") (view value.now)) (text_at (codes "to") (view value.now)) }
{
    let rear = text_at(value, "look")?;
    let advance = text_at(value, "to")?;
    Some(Request::LookTo { rear, advance })
}

// What an object with two members asks for.
#[tactic(auto, unfolding(crate::specs::Requests::two_asked))]
fn two_asked(value: &Value) -> Option<Request<'_>>
    ensures { option_map shown result ≡ two_asked (view value.now) }
{
    match may_asked(value) {
        Some(may) => Some(may),
        None => section_asked(value),
    }
}

// The end, where that is asked for.
fn end_asked(value: &Value) -> Option<Request<'_>>
    ensures { option_map shown result ≡ end_asked (flag_at (codes "end") (view value.now)) }
{
    match flag_at(value, "end") {
        Some(true) => Some(Request::End),
        _ => None,
    }
}

// All that stands, where that is asked for.
fn all_asked(value: &Value) -> Option<Request<'_>>
    ensures { option_map shown result ≡ all_asked (flag_at (codes "look") (view value.now)) }
{
    match flag_at(value, "look") {
        Some(true) => Some(Request::LookAll),
        _ => None,
    }
}

// What an object with one member asks to look at.
#[tactic(auto, unfolding(crate::specs::Requests::look_asked))]
fn look_asked(value: &Value) -> Option<Request<'_>>
    ensures { option_map shown result ≡ look_asked (view value.now) }
{
    match text_at(value, "look") {
        Some(box_name) => Some(Request::Look { box_name }),
        None => all_asked(value),
    }
}

// To work a box by a script, where that is asked for.
fn script_asked(value: &Value) -> Option<Request<'_>>
    ensures { option_map shown result ≡ script_asked (text_at (codes "script") (view value.now)) }
{
    let text = text_at(value, "script")?;
    Some(Request::Script { text })
}

// What an object with one member asks for by a text, or by true.
#[tactic(auto, unfolding(crate::specs::Requests::word_asked))]
fn word_asked(value: &Value) -> Option<Request<'_>>
    ensures { option_map shown result ≡ word_asked (view value.now) }
{
    match script_asked(value) {
        Some(script) => Some(script),
        None => look_asked(value),
    }
}

// What an object with one member asks for by a number.
#[tactic(auto, unfolding(crate::specs::Requests::number_asked))]
fn number_asked(value: &Value) -> Option<Request<'_>>
    ensures { option_map shown result ≡ number_asked (view value.now) }
{
    if let Some(from) = number_at(value, "journal") {
        return Some(Request::Journal { from });
    }
    if let Some(count) = number_at(value, "back") {
        return Some(Request::Back { count });
    }
    let count = number_at(value, "changes")?;
    Some(Request::Changes { count })
}

// What an object with one member asks for.
#[tactic(auto, unfolding(crate::specs::Requests::one_asked))]
fn one_asked(value: &Value) -> Option<Request<'_>>
    ensures { option_map shown result ≡ one_asked (view value.now) }
{
    if let Some(end) = end_asked(value) {
        return Some(end);
    }
    match number_asked(value) {
        Some(asked) => Some(asked),
        None => word_asked(value),
    }
}

/// What a value asks for, if it is an object with exactly the keys of one request.
#[tactic(auto, unfolding(crate::specs::Requests::asked_in))]
pub fn request_in(value: &Value) -> Option<Request<'_>>
    ensures { option_map shown result ≡ asked_in (view value.now) }
{
    match member_count(value) {
        3 => three_asked(value),
        2 => two_asked(value),
        1 => one_asked(value),
        _ => None,
    }
}
