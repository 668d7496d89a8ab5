//! A bell code, and its text.

ghost use Rattle.std.specs.Prelude.{◌≡◌, ℕ, ◌-◌, ◌≤◌, true, ◌++◌, take, drop, replicate, IsTrue, Some, IfOk, bytes_eq};
ghost use Rattle.std.proofs.Common.{rules};
ghost use Rattle.std.specs.Cmp.{partial_equiv_from_equiv};
ghost use Rattle.std.specs.Cmp.Lexicographic.{nat_list_eq_equiv};
ghost use Rattle.std.specs.Cmp.Rules.{hashing};
ghost use Rattle.std.specs.Hash as fed;
ghost use Rattle.bell_codes.specs.Codes.{is_code, code_text};

use crate::NoMemory;
use std::alloc::Global;
use std::fmt;
use std::hash::{Hash, Hasher};
use std::marker::Model;

/// How many groups a code may have.
pub const MOST_GROUPS: usize = 5;

/// A bell code: one to five groups of one to sixteen beats, as 3-1 for three beats, a pause and one beat.
#[derive(Clone, Copy, Debug)]
pub struct Code {
    groups: u8,
    beats: [u8; MOST_GROUPS],
}

impl Model for Code {
    ghost use Rattle.std.specs.Prelude.{◌≡◌, ℕ, ◌-◌, true, List, ◌++◌, length, take, replicate};
    ghost use Rattle.bell_codes.specs.Codes.{is_code};

    ghost Value = { List ℕ };

    ghost view = { λ c. take c.groups c.beats };

    // A code, and zeros behind it.
    ghost invariant = { λ c. (length (take c.groups c.beats) ≡ c.groups) × (is_code (take c.groups c.beats) ≡ true)
        × (take c.groups c.beats ++ replicate (5 - length (take c.groups c.beats)) 0 ≡ c.beats) };

    ghost inverse = { λ code. record { groups = length code; beats = code ++ replicate (5 - length code) 0 } };

    ghost inverse_ok = { λ c h i. record { groups = h.0 i; beats = h.2 i } };
}

impl Code {
    /// The groups in order, each as the number of its beats.
    pub fn groups(&self) -> &[u8]
        ensures value { result.now ≡ self.now }
        ensures valid { IsTrue (is_code self.now) }
    {
        &self.beats[..self.groups as usize]
    }

    /// The code of the first groups of `beats`, behind which stand zeros.
    pub(crate) fn of(groups: usize, beats: [u8; MOST_GROUPS]) -> Code
        requires few { groups ≤ 5 }
        requires valid { is_code (take groups beats) ≡ true }
        requires zeros { drop groups beats ≡ replicate (5 - groups) 0 }
        ensures { result ≡ take groups beats }
    {
        Code {
            groups: groups as u8,
            beats,
        }
    }
}

impl PartialEq for Code {
    ghost eq = { bytes_eq };

    ghost laws = { partial_equiv_from_equiv nat_list_eq_equiv };

    fn eq(&self, other: &Code) -> bool {
        self.groups() == other.groups()
    }
}

impl Eq for Code {
    ghost laws = { nat_list_eq_equiv };
}

impl Hash for Code {
    ghost hash_input = { λ code. fed.slice fed.u8 code };

    ghost respects_eq = { Prim.search (hashing, rules) };

    fn hash<H: Hasher>(&self, state: &mut H) {
        self.groups().hash(state);
    }
}

impl fmt::Display for Code {
    ghost output = { λ code. Some (code_text code) };

    #[tactic(auto, unfolding(crate::specs::Codes::code_text))]
    fn fmt<W: fmt::Write>(&self, f: &mut fmt::Formatter<W>) -> fmt::Result {
        if let [first, rest @ ..] = self.groups() {
            write!(f, "{first}")?;
            for beats in rest {
                write!(f, "-{beats}")?;
            }
        }
        Ok(())
    }
}

/// The text of a code: its groups in decimal, joined by `-`.
pub fn print_code(alloc: Global, code: Code) -> Result<Vec<u8>, NoMemory>
    ensures { IfOk result (λ text. text.items ≡ code_text code) }
{
    let text = format!(in alloc; "{code}")?;
    Ok(text.into_bytes())
}
