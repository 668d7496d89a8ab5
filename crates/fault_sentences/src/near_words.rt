//! Words that are nearly the same.

/// Whether two words are the same but for small and capital letters.
pub fn is_alike(word: &[u8], other: &[u8]) -> bool {
    word.eq_ignore_ascii_case(other)
}

// What stands in a word behind the bytes with which the other begins too.
fn behind_common<'a>(word: &'a [u8], other: &[u8]) -> &'a [u8] {
    for (i, byte) in word.iter().enumerate() {
        if i >= other.len() || other[i] != *byte {
            return &word[i..];
        }
    }
    &[]
}

// Whether one letter more, less or another one makes a word of the other.
fn is_one_off(word: &[u8], other: &[u8]) -> bool {
    match (behind_common(word, other), behind_common(other, word)) {
        ([], rest) | (rest, []) => rest.len() <= 1,
        ([_, left @ ..], [_, right @ ..]) => {
            left == right
                || left == behind_common(other, word)
                || right == behind_common(word, other)
        }
    }
}

// Whether two letters that have changed places make a word of the other.
fn is_swapped(word: &[u8], other: &[u8]) -> bool {
    match (behind_common(word, other), behind_common(other, word)) {
        ([a, b, left @ ..], [c, d, right @ ..]) => *a == *d && *b == *c && left == right,
        _ => false,
    }
}

/// Whether the word may be a slip for the other: small or capital letters aside, or, where the other has four letters
/// or more, a letter more, less or another one, or two that have changed places.
pub fn is_near(word: &[u8], other: &[u8]) -> bool {
    is_alike(word, other)
        || (other.len() >= 4 && (is_one_off(word, other) || is_swapped(word, other)))
}

/// The first of these words that may be meant.
pub fn meant<'a>(word: &[u8], known: &[&'a [u8]]) -> Option<&'a [u8]> {
    for other in known {
        if is_near(word, *other) {
            return Some(*other);
        }
    }
    None
}
