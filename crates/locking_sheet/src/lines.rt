//! Lines that are filled up to their width.

ghost use Rattle.std.specs.Prelude.{◌≡◌, ◌+◌, OnOk, length, nat_le, string_bytes};
ghost use Rattle.locking_sheet.specs.Lines.{begun, line_ended, put, width};

use std::alloc::AllocError;
use std::marker::Model;

// How many bytes a line may have.
const WIDTH: usize = 132;

/// A text, and how many bytes stand in its last line.
#[derive(Debug, Drop)]
pub(crate) struct Lines {
    text: String,
    at: usize,
}

impl Model for Lines {
    ghost use Rattle.std.specs.Prelude.{string_bytes};
    ghost use Rattle.locking_sheet.specs.Lines.{LinesFields};

    ghost Value = { LinesFields };

    ghost view = { λ l. record { text = string_bytes l.text; at = l.at } };
}

// Whether a piece has room in a line.
#[tactic(auto, using(std::proofs::lemmas::Bool::Decides::nat_tests))]
fn fits(at: usize, piece: &str) -> bool
    ensures { result ≡ nat_le (at + length piece.now) width }
{
    at <= WIDTH && piece.len() <= WIDTH - at
}

impl Lines {
    /// A text of whole lines.
    pub fn new(text: String) -> Lines
        ensures { result ≡ record { text = string_bytes text; at = 0 } }
    {
        Lines { text, at: 0 }
    }

    /// The text.
    pub fn into_text(self) -> String
        ensures { string_bytes result ≡ self.text }
    {
        self.text
    }

    /// Ends the line.
    pub fn end_line(&mut self) -> Result<(), AllocError>
        ensures { OnOk result (self.new ≡ line_ended self.old) }
    {
        self.text.push_str("\n")?;
        self.at = 0;
        Ok(())
    }

    /// Begins a line so.
    pub fn begin(&mut self, head: &str) -> Result<(), AllocError>
        ensures { OnOk result (self.new ≡ begun self.old head.now) }
    {
        self.text.push_str(head)?;
        self.at = head.len();
        Ok(())
    }

    /// Puts a piece in the line, or in a new one that begins so.
    #[tactic(auto, unfolding(crate::specs::Lines::put))]
    pub fn put(&mut self, head: &str, piece: &str) -> Result<(), AllocError>
        ensures { OnOk result (self.new ≡ put head.now self.old piece.now) }
    {
        if fits(self.at, piece) {
            self.text.push_str(piece)?;
            self.at += piece.len();
        } else {
            self.text.push_str("\n")?;
            self.text.push_str(head)?;
            self.text.push_str(piece)?;
            self.at = head.len() + piece.len();
        }
        Ok(())
    }
}
