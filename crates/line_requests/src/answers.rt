//! The answers that tell a fault, or a count.

ghost use Rattle.std.specs.Prelude.{◌≡◌, ◌≤◌, ◌+◌, ◌++◌, [], IfOk, OnOk, length, string_bytes};
ghost use Rattle.std.specs.String.{string_capacity};
ghost use Rattle.serde_json.specs.Data.{member, no_members, string};
ghost use Rattle.serde_json.specs.View.{view};
ghost use Rattle.json_objects.specs.Texts.{IsTextOf};
ghost use Rattle.line_requests.specs.Answers.{IsCountText, IsFaultText, count_data, fault_data};

use crate::fault::{Fault, fault_line, fault_sentence, fault_word};
use itoa::Buffer;
use json_objects::{Object, text_of};
use serde_json::Value;
use std::alloc::{AllocError, Global};

/// The most bytes of the text of a count.
pub const COUNT_ROOM: usize = 64;

// The object of an error.
fn error_object(
    alloc: Global,
    word: &str,
    line: Option<u64>,
    said: &str,
) -> Result<Value, AllocError>
    ensures { IfOk result (λ value. view value ≡ fault_data word.now line said.now) }
{
    let mut object = Object::new(alloc);
    object.put_text(alloc, "says", said)?;
    object.put_number_if(alloc, "line", line)?;
    object.put_text(alloc, "error", word)?;
    Ok(object.into_value())
}

// The text of an error.
#[tactic(auto, using(crate::proofs::Plain::fault_plain))]
fn error_text(
    alloc: Global,
    word: &str,
    line: Option<u64>,
    said: &str,
) -> Result<String, AllocError>
    ensures { IfOk result (λ text. IsTextOf (fault_data word.now line said.now) (string_bytes text)) }
{
    let object = error_object(alloc, word, line, said)?;
    text_of(alloc, &object)
}

/// The text of a fault as JSON, in one line without its end. It is read back as exactly the fault's object.
pub fn fault_text(alloc: Global, fault: Fault) -> Result<String, AllocError>
    ensures { IfOk result (λ text. IsFaultText fault (string_bytes text)) }
{
    error_text(
        alloc,
        fault_word(fault),
        fault_line(fault),
        fault_sentence(fault),
    )
}

// The object of a count.
fn count_object(alloc: Global, count: u64) -> Result<Value, AllocError>
    ensures { IfOk result (λ value. view value ≡ count_data count) }
{
    let mut object = Object::new(alloc);
    object.put_number(alloc, "entries", count)?;
    Ok(object.into_value())
}

/// The text of a count of entries as JSON, in one line without its end. It is read back as exactly the count's object.
#[tactic(auto, using(crate::proofs::Plain::count_plain))]
pub fn count_text(alloc: Global, count: u64) -> Result<String, AllocError>
    ensures { IfOk result (λ text. IsCountText count (string_bytes text)) }
{
    let object = count_object(alloc, count)?;
    text_of(alloc, &object)
}

/// A text that has room for any count of entries, and is empty.
pub fn count_room(alloc: Global) -> Result<String, AllocError>
    ensures empty { IfOk result (λ text. string_bytes text ≡ []) }
    ensures room { IfOk result (λ text. COUNT_ROOM ≤ string_capacity text) }
{
    let mut room = String::new(alloc);
    room.reserve(COUNT_ROOM)?;
    Ok(room)
}

// Puts a text where there is room for it.
fn put_there(text: &mut String, more: &str)
    requires { length (string_bytes text.old) + length more.now ≤ string_capacity text.old }
    ensures put { string_bytes text.new ≡ string_bytes text.old ++ more.now }
    ensures room { string_capacity text.old ≤ string_capacity text.new }
{
    let _ = text.push_str(more);
}

/// The same as `count_text`, put where there is room for it: it takes no memory.
pub fn put_count(room: String, count: u64) -> String
    requires empty { string_bytes room ≡ [] }
    requires room { COUNT_ROOM ≤ string_capacity room }
    ensures { IsCountText count (string_bytes result) }
{
    let mut text = room;
    let mut digits = Buffer::new();
    put_there(&mut text, "{\"entries\":");
    put_there(&mut text, digits.format(count));
    put_there(&mut text, "}");
    text
}
