//! A sentence that is put together piece by piece.

use itoa::Buffer;
use rail_text::NoMemory;
use std::alloc::Global;

/// Whether memory sufficed.
pub type Done = Result<(), NoMemory>;

/// A piece of a sentence.
#[derive(Clone, Copy)]
pub enum Piece<'a> {
    /// Words of the sentence itself.
    Text(&'a str),
    /// A word of a text, between backquotes.
    Word(&'a [u8]),
    /// A name of a text.
    Name(&'a [u8]),
    /// A number.
    Number(u64),
}

/// A sentence as far as it is put together.
#[derive(Drop)]
pub struct Sentence {
    alloc: Global,
    bytes: Vec<u8>,
}

impl Sentence {
    /// Nothing is said so far. It takes no memory.
    pub fn new(alloc: Global) -> Sentence {
        Sentence {
            alloc,
            bytes: Vec::new(alloc),
        }
    }

    /// The allocator, by which it grows.
    pub fn alloc(&self) -> Global {
        self.alloc
    }

    /// What is said so far.
    pub fn as_bytes(&self) -> &[u8] {
        &self.bytes
    }

    fn put(&mut self, bytes: &[u8]) -> Done {
        self.bytes.extend_from_slice(bytes)?;
        Ok(())
    }

    fn put_quoted(&mut self, word: &[u8]) -> Done {
        self.put(b"`")?;
        self.put(word)?;
        self.put(b"`")
    }

    fn put_piece(&mut self, piece: Piece<'_>) -> Done {
        match piece {
            Piece::Text(text) => self.put(text.as_bytes()),
            Piece::Word(word) => self.put_quoted(word),
            Piece::Name(name) => self.put(name),
            Piece::Number(number) => {
                let mut buffer = Buffer::new();
                self.put(buffer.format(number).as_bytes())
            }
        }
    }

    /// Goes on with these pieces.
    pub fn say(&mut self, pieces: &[Piece<'_>]) -> Done {
        for piece in pieces {
            self.put_piece(*piece)?;
        }
        Ok(())
    }

    /// Goes on with one piece.
    pub fn text(&mut self, text: &str) -> Done {
        self.put(text.as_bytes())
    }
}
