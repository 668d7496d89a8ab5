//! Numbers as texts.

ghost use Rattle.std.specs.Prelude.{◌≡◌, ℕ, List, Some};
ghost use Rattle.rail_text.specs.Number.{number_of, IsPrinted};

/// The number that the word spells: one to ten digits, of which the first of several is no 0.
/// `None` exactly where the word is no such number.
pub fn read_number(word: &[u8]) -> Option<u64>
    ensures { result ≡ number_of word.now }
{
    if word.is_empty() || word.len() > 10 || (word[0] == b'0' && word.len() != 1) {
        return None;
    }
    let mut n: u64 = 0;
    for b in word {
        if !b.is_ascii_digit() {
            return None;
        }
        n = 10 * n + u64::from(*b - b'0');
    }
    Some(n)
}

/// A law: a word is read as a number exactly where it is how that number is printed, in at most ten
/// digits.
#[tactic(auto, using(crate::proofs::NumberLemmas::number_laws))]
pub fn printed_numbers_are_read()
    ensures printed { (word : List ℕ) → (n : ℕ) → number_of word ≡ Some n → IsPrinted word n }
    ensures read { (word : List ℕ) → (n : ℕ) → IsPrinted word n → number_of word ≡ Some n }
{}
