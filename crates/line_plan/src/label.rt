//! The name of a thing in a plan.

ghost use Rattle.std.specs.Prelude.{◌≡◌, string_bytes};

use std::marker::Model;

/// A name. Contracts see it as the list of its bytes.
#[derive(Debug, Drop)]
pub struct Label {
    text: String,
}

impl Model for Label {
    ghost use Rattle.std.specs.Prelude.{List, ℕ, string_bytes};

    ghost Value = { List ℕ };

    ghost view = { λ label. string_bytes label.text };
}

impl Label {
    /// The label of a text. It takes no memory.
    pub fn from_string(text: String) -> Label
        ensures { result ≡ string_bytes text }
    {
        Label { text }
    }

    /// The text, given back. It takes no memory.
    pub fn into_string(self) -> String
        ensures { string_bytes result ≡ self }
    {
        self.text
    }

    /// The text.
    pub fn as_str(&self) -> &str
        ensures { result.now ≡ self.now }
    {
        self.text.as_str()
    }
}
