//! Lines that a reader gives, as standard input does.

ghost use Rattle.std.specs.Prelude.{◌≡◌, ◌++◌, ◌∷◌, [], ℕ, List, IfErr, IfOk, map, string_bytes};
ghost use Rattle.std.specs.Option.{option_map};
ghost use Rattle.hand_working.specs.Sources.{given_more};

use crate::source::{LineSource, SourceFault};
use std::alloc::{AllocError, Global};
use std::io::BufRead;
use std::marker::Model;

/// The lines of a reader. It keeps those that it has given; that they are what was typed is trusted. Contracts see them
/// as their bytes.
#[derive(Drop)]
pub struct InputLines<F> {
    from: F,
    given: Vec<String>,
}

impl<F> Model for InputLines<F> {
    ghost use Rattle.std.specs.Prelude.{ℕ, List, map, string_bytes};

    ghost Value = { List (List ℕ) };

    ghost view = { λ lines. map (λ line. string_bytes line) lines.given.items };
}

// A line of these bytes: the end of a line goes, and what isn't ASCII becomes `?`.
fn line_of(alloc: Global, bytes: &[u8]) -> Result<String, AllocError> {
    let mut line = String::new(alloc);
    for byte in bytes {
        match *byte {
            b'\n' | b'\r' => {}
            byte if byte < 128 => line.push(char::from(byte))?,
            _ => line.push('?')?,
        }
    }
    Ok(line)
}

impl<F: BufRead + Drop> InputLines<F> {
    /// The lines that this reader will give, none of them given yet.
    pub fn new(alloc: Global, from: F) -> InputLines<F>
        ensures { result ≡ [] }
    {
        InputLines {
            from,
            given: Vec::new(alloc),
        }
    }

    // Keeps a line as given, and gives it.
    fn give(&mut self, alloc: Global, bytes: &[u8]) -> Result<String, AllocError>
        ensures given { IfOk result (λ line. self.new ≡ self.old ++ string_bytes line ∷ []) }
        ensures not_given { IfErr result (λ _. self.new ≡ self.old) }
    {
        let line = line_of(alloc, bytes)?;
        let kept = String::from_str(alloc, line.as_str())?;
        self.given.push(kept)?;
        Ok(line)
    }
}

impl<F: BufRead + Drop> LineSource for InputLines<F> {
    ghost given = { λ lines. lines };

    fn next_line(&mut self, alloc: Global) -> Result<Option<String>, SourceFault> {
        let mut bytes = Vec::new(alloc);
        match self.from.read_until(b'\n', &mut bytes) {
            Ok(0) => Ok(None),
            Ok(_) => Ok(Some(self.give(alloc, &bytes)?)),
            Err(_) => Err(SourceFault::Failed),
        }
    }
}
