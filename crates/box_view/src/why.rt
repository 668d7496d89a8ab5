//! Why a call was refused, at length.

ghost use Rattle.std.specs.Prelude.{◌<◌, IsTrue, IfOk, OnOk, length, string_bytes};
ghost use Rattle.reply_sentences.specs.Sentences.{Says};
ghost use Rattle.script_text.specs.Replies.{is_spelled_reply};
ghost use Rattle.box_view.specs.Answers.{SaysLine, SaysThree};

use crate::rules::rule_of;
use line_law::Entry;
use line_plan::Plan;
use reply_sentences::{Sentence, put_sentence};
use std::alloc::{AllocError, Global};

// These words as a sentence.
fn sentence_of(alloc: Global, words: &str) -> Result<Sentence, AllocError>
    requires { 0 < length words.now }
    ensures { IfOk result (λ sentence. 0 < length sentence) }
{
    let mut sentence = Sentence::new(alloc);
    sentence.say(words)?;
    Ok(sentence)
}

// Puts these words behind a text.
fn put_words(out: &mut String, words: &str) -> Result<(), AllocError>
    requires { 0 < length words.now }
    ensures { OnOk result (Says (string_bytes out.old) (string_bytes out.new)) }
{
    let sentence = sentence_of(*out.allocator(), words)?;
    out.push_str(sentence.as_str())
}

// Puts these words as a line behind a text.
fn put_line(out: &mut String, words: &str) -> Result<(), AllocError>
    requires { 0 < length words.now }
    ensures { OnOk result (SaysLine (string_bytes out.old) (string_bytes out.new)) }
{
    put_words(out, words)?;
    out.push('\n')
}

// Puts the sentence of a refused call as a line behind a text.
fn put_sentence_line(out: &mut String, plan: &Plan, entry: &Entry) -> Result<(), AllocError>
    requires at { entry.now.box_no < length plan.now.boxes }
    requires spelled { IsTrue (is_spelled_reply plan.now entry.now.box_no entry.now.reply) }
    ensures { OnOk result (SaysLine (string_bytes out.old) (string_bytes out.new)) }
{
    put_sentence(out, plan, entry)?;
    out.push('\n')
}

/// Puts why a call was refused behind a text, at length: the line of its sentence, which for a row of the locking table
/// has the row as the table prints it; then two lines of the rule that refused it. The entry is one that the line can
/// spell. Where memory runs out a part may stand behind the text.
pub fn put_why(out: &mut String, plan: &Plan, entry: &Entry) -> Result<(), AllocError>
    requires at { entry.now.box_no < length plan.now.boxes }
    requires spelled { IsTrue (is_spelled_reply plan.now entry.now.box_no entry.now.reply) }
    ensures { OnOk result (SaysThree (string_bytes out.old) (string_bytes out.new)) }
{
    put_sentence_line(out, plan, entry)?;
    let rule = rule_of(&entry.reply);
    put_line(out, rule.first)?;
    put_line(out, rule.second)
}
