//! How a line is written.

use crate::sentence::Piece::{Text, Word};
use crate::sentence::{Done, Sentence};

/// How a line is written that begins with a keyword, and an example.
#[derive(Clone, Copy)]
pub struct LineForm {
    pub keyword: &'static str,
    pub words: &'static str,
    pub example: &'static str,
}

/// How such a line is written, and an example.
pub fn put_form(sentence: &mut Sentence, form: Option<LineForm>) -> Done {
    let Some(form) = form else {
        return sentence.text("No line may be written so.");
    };
    sentence.say(&[
        Text("Such a line is written "),
        Word(form.words.as_bytes()),
        Text(", as in "),
        Word(form.example.as_bytes()),
        Text("."),
    ])
}
