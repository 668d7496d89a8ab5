//! Words read as bell codes.

ghost use Rattle.std.specs.Prelude.{◌≡◌, ◌↔◌, ◌≤◌, ℕ, true, List, length, IsTrue, IsErr, IfOk, Some};
ghost use Rattle.std.specs.List.{list_all};
ghost use Rattle.std.specs.Result.{result_ok};
ghost use Rattle.bell_codes.specs.Codes.{is_code, is_code_byte, code_text, Spells};
ghost use Rattle.bell_codes.specs.Reading.{group_of, code_of};

use crate::code::MOST_GROUPS;
use crate::{BadCode, Code};

/// The beats of a group: 1 to 16, in decimal without leading zeros.
fn read_group(group: &[u8]) -> Option<u8>
    ensures { result ≡ group_of group.now }
{
    match *group {
        [ones @ b'1'..=b'9'] => Some(ones - b'0'),
        [b'1', ones @ b'0'..=b'6'] => Some(10 + (ones - b'0')),
        _ => None,
    }
}

/// The code of a word's parts between hyphens.
fn code_in(word: &[u8]) -> Result<Code, BadCode>
    ensures { result_ok result ≡ code_of word.now }
{
    let mut beats = [0; MOST_GROUPS];
    let mut groups = 0;
    for part in word.split(|byte| *byte == b'-') {
        if groups == MOST_GROUPS {
            return Err(BadCode);
        }
        beats[groups] = read_group(part).ok_or(BadCode)?;
        groups += 1;
    }
    Ok(Code::of(groups, beats))
}

/// The code that a word spells: one to five groups joined by `-`, each a number from 1 to 16 without leading zeros.
/// Any other word is a `BadCode`.
#[tactic(auto, using(crate::proofs::Texts::reading_spelled, crate::proofs::Texts::reading_bad))]
pub fn read_code(word: &[u8]) -> Result<Code, BadCode>
    ensures exact { result_ok result ≡ code_of word.now }
    ensures spelled { IfOk result (λ code. Spells word.now code) }
    ensures bad { IsErr result ↔ ((code : List ℕ) → ¬ Spells word.now code) }
{
    code_in(word)
}

/// A law: what is printed of a code is read as that code.
#[tactic(auto, using(crate::proofs::Texts::read_text))]
pub fn printed_is_read()
    ensures { (code : List ℕ) → IsTrue (is_code code) → code_of (code_text code) ≡ Some code }
{}

/// A law: a word that is read as a code is that code's one spelling, so no two words are read as one code.
#[tactic(auto, using(crate::proofs::Texts::read_spelled))]
pub fn read_is_spelled()
    ensures { (word code : List ℕ) → code_of word ≡ Some code → Spells word code }
{}

/// A law: a code's text is one word of 1 to 14 bytes, digits and hyphens.
#[tactic(auto, using(crate::proofs::Texts::text_rules))]
pub fn text_is_a_word()
    ensures bytes { (code : List ℕ) → IsTrue (is_code code) → list_all is_code_byte (code_text code) ≡ true }
    ensures some { (code : List ℕ) → IsTrue (is_code code) → 1 ≤ length (code_text code) }
    ensures few { (code : List ℕ) → IsTrue (is_code code) → length (code_text code) ≤ 14 }
{}
