//! A case, and what is answered in it.

use std::alloc::{AllocError, Global};

/// What a program answers: its exit status, what it prints, and what it tells on standard error.
#[derive(PartialEq, Eq, Drop)]
pub struct Answer {
    pub status: u8,
    pub output: Vec<u8>,
    pub told: Vec<u8>,
}

/// Puts a word behind others.
pub fn push_word(alloc: Global, words: &mut Vec<String>, word: &str) -> Result<(), AllocError> {
    let word = String::from_str(alloc, word)?;
    words.push(word)?;
    Ok(())
}

// Puts the words of a text, which this sign parts, behind others.
fn push_words(
    alloc: Global,
    words: &mut Vec<String>,
    text: &str,
    between: char,
) -> Result<(), AllocError> {
    for word in text.split(between) {
        push_word(alloc, words, word)?;
    }
    Ok(())
}

/// The words of a text, which this sign parts, if there is one. A word may be empty.
pub fn words_in(
    alloc: Global,
    text: Option<&str>,
    between: char,
) -> Result<Vec<String>, AllocError> {
    let mut words = Vec::new(alloc);
    let Some(text) = text else {
        return Ok(words);
    };
    match push_words(alloc, &mut words, text, between) {
        Ok(()) => Ok(words),
        Err(error) => {
            drop(words);
            Err(error)
        }
    }
}

/// A worked case: the words of a command line, the texts of the shelf by their names, and the answer that is wanted.
#[derive(Drop)]
pub struct Case {
    /// How the report names it.
    pub name: String,
    pub words: Vec<String>,
    pub texts: Vec<(String, Vec<u8>)>,
    pub wanted: Answer,
}
