//! The object of an entry.

ghost use Rattle.std.specs.Prelude.{◌≡◌, IfOk, OnOk, string_bytes};
ghost use Rattle.serde_json.specs.Data.{no_members};
ghost use Rattle.serde_json.specs.View.{view};
ghost use Rattle.json_objects.specs.Members.{members_in};
ghost use Rattle.json_objects.specs.Texts.{IsTextOf};
ghost use Rattle.entry_records.specs.Objects.{entry_data, entry_members, lever_members, reply_members};

use crate::words::EntryWords;
use json_objects::{Object, text_of};
use serde_json::Value;
use std::alloc::{AllocError, Global};

// Puts what the reply is, and what it says and names behind that.
#[tactic(auto, using(json_objects::proofs::Putting::before_if))]
fn put_reply_members(
    object: &mut Object,
    alloc: Global,
    words: &EntryWords<'_>,
) -> Result<(), AllocError>
    requires { members_in object.old ≡ no_members }
    ensures { OnOk result (members_in object.new ≡ reply_members words.now) }
{
    object.put_text_if(alloc, "train", words.train)?;
    object.put_text_if(alloc, "says", words.says.as_deref())?;
    object.put_text(alloc, "reply", words.reply.as_str())
}

// Puts the lever, the number and the place before those.
#[tactic(auto, using(json_objects::proofs::Putting::before_if))]
fn put_lever_members(
    object: &mut Object,
    alloc: Global,
    words: &EntryWords<'_>,
) -> Result<(), AllocError>
    requires { members_in object.old ≡ reply_members words.now }
    ensures { OnOk result (members_in object.new ≡ lever_members words.now) }
{
    object.put_text_if(alloc, "place", words.place)?;
    object.put_number(alloc, "n", words.n)?;
    let lever = words.lever.map(u64::from);
    object.put_number_if(alloc, "lever", lever)
}

// Puts the moment, the box, the call and whether it is done before those.
#[tactic(auto, using(json_objects::proofs::Putting::before_if))]
fn put_call_members(
    object: &mut Object,
    alloc: Global,
    words: &EntryWords<'_>,
) -> Result<(), AllocError>
    requires { members_in object.old ≡ lever_members words.now }
    ensures { OnOk result (members_in object.new ≡ entry_members words.now) }
{
    object.put_flag(alloc, "done", words.is_done)?;
    object.put_text(alloc, "call", words.call.as_str())?;
    object.put_text(alloc, "box", words.box_name)?;
    object.put_text(alloc, "at", words.at.as_str())
}

/// The object of an entry.
pub fn entry_object(alloc: Global, words: &EntryWords<'_>) -> Result<Value, AllocError>
    ensures { IfOk result (λ value. view value ≡ entry_data words.now) }
{
    let mut object = Object::new(alloc);
    put_reply_members(&mut object, alloc, words)?;
    put_lever_members(&mut object, alloc, words)?;
    put_call_members(&mut object, alloc, words)?;
    Ok(object.into_value())
}

/// The text of an entry's object, in one line without its end. It is read back as exactly that object.
#[tactic(auto, using(crate::proofs::Plain::entry_plain))]
pub fn object_text(alloc: Global, words: &EntryWords<'_>) -> Result<String, AllocError>
    ensures { IfOk result (λ text. IsTextOf (entry_data words.now) (string_bytes text)) }
{
    let object = entry_object(alloc, words)?;
    text_of(alloc, &object)
}
