//! A sentence that is put together.

ghost use Rattle.std.specs.Prelude.{◌≡◌, ◌+◌, ◌≤◌, ◌<◌, [], IfOk, OnOk, length, string_bytes, true};
ghost use Rattle.reply_sentences.specs.Sentences.{ArePrinting, IsPrinting};

use itoa::Buffer;
use std::alloc::{AllocError, Global};
use std::marker::Model;

/// A sentence that is put together, of bytes that print. Contracts see its bytes.
#[derive(Drop)]
pub struct Sentence {
    text: String,
}

impl Model for Sentence {
    ghost use Rattle.std.specs.Prelude.{ℕ, List, string_bytes};
    ghost use Rattle.reply_sentences.specs.Sentences.{ArePrinting};

    ghost Value = { List ℕ };

    ghost view = { λ sentence. string_bytes sentence.text };

    ghost invariant = { λ sentence. ArePrinting (string_bytes sentence.text) };
}

// Whether a byte prints.
fn is_printing(byte: u8) -> bool
    ensures { result ≡ true → IsPrinting byte }
{
    byte >= b' ' && byte <= b'~'
}

// A byte that prints as it is, and `?` for any other.
fn printing(byte: u8) -> u8
    ensures { IsPrinting result }
{
    if is_printing(byte) { byte } else { b'?' }
}

// Whether all bytes print.
fn are_printing(bytes: &[u8]) -> bool
    ensures { result ≡ true → ArePrinting bytes.now }
{
    for byte in bytes {
        if !is_printing(*byte) {
            return false;
        }
    }
    true
}

impl Sentence {
    /// Nothing is said. It takes no memory.
    pub fn new(alloc: Global) -> Sentence
        ensures { result ≡ [] }
    {
        Sentence {
            text: String::new(alloc),
        }
    }

    /// Nothing is said, and there is room for so many bytes.
    pub fn with_capacity(alloc: Global, bytes: usize) -> Result<Sentence, AllocError>
        ensures { IfOk result (λ sentence. sentence ≡ []) }
    {
        Ok(Sentence {
            text: String::with_capacity(alloc, bytes)?,
        })
    }

    // One byte more.
    fn put(&mut self, byte: u8) -> Result<(), AllocError>
        ensures { OnOk result (length self.new ≡ length self.old + 1) }
    {
        self.text.push(char::from(printing(byte)))
    }

    // Says these words byte by byte.
    fn say_shown(&mut self, words: &str) -> Result<(), AllocError>
        ensures { OnOk result (length self.new ≡ length self.old + length words.now) }
    {
        for byte in words.as_bytes() {
            self.put(*byte)?;
        }
        Ok(())
    }

    /// Says these words, each byte of which that doesn't print as `?`.
    pub fn say(&mut self, words: &str) -> Result<(), AllocError>
        ensures { OnOk result (length self.new ≡ length self.old + length words.now) }
    {
        if are_printing(words.as_bytes()) {
            return self.text.push_str(words);
        }
        self.say_shown(words)
    }

    /// Says a number.
    pub fn say_number(&mut self, number: u64) -> Result<(), AllocError>
        ensures { OnOk result (length self.old ≤ length self.new) }
    {
        let mut buffer = Buffer::new();
        self.say(buffer.format(number))
    }

    /// Says these words and a number.
    pub fn say_count(&mut self, words: &str, number: u64) -> Result<(), AllocError>
        ensures { OnOk result (length self.old + length words.now ≤ length self.new) }
    {
        self.say(words)?;
        self.say_number(number)
    }

    /// Says these words and a lever's number.
    pub fn say_lever(&mut self, words: &str, lever: u32) -> Result<(), AllocError>
        ensures { OnOk result (length self.old + length words.now ≤ length self.new) }
    {
        self.say_count(words, u64::from(lever))
    }

    /// The text of the sentence.
    pub fn into_string(self) -> String
        ensures same { string_bytes result ≡ self }
        ensures printing { ArePrinting (string_bytes result) }
    {
        self.text
    }

    /// The sentence.
    pub fn as_str(&self) -> &str
        ensures same { result.now ≡ self.now }
        ensures printing { ArePrinting self.now }
    {
        self.text.as_str()
    }
}
