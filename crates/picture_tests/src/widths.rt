//! How wide letters are, in thousandths of their size.

use unicode_width::UnicodeWidthStr;

/// The width of a column of the monospaced families: that of DejaVu Sans Mono, the widest of them.
const COLUMN: u64 = 603;

// The widths of the letters from the blank to the tilde in DejaVu Sans.
const PLAIN: [u64; 95] = [
    318, 401, 460, 838, 637, 951, 780, 275, 391, 391, 500, 838, 318, 361, 318, 337, 637, 637, 637,
    637, 637, 637, 637, 637, 637, 637, 337, 337, 838, 838, 838, 531, 1000, 685, 687, 699, 771, 632,
    576, 775, 752, 295, 295, 656, 558, 863, 749, 788, 604, 788, 695, 635, 611, 732, 685, 989, 686,
    611, 686, 391, 337, 391, 838, 500, 500, 613, 635, 550, 635, 616, 353, 635, 634, 278, 278, 580,
    278, 975, 634, 612, 635, 635, 412, 521, 393, 634, 592, 818, 592, 592, 525, 637, 337, 637, 838,
];

// The same in DejaVu Sans Bold.
const BOLD: [u64; 95] = [
    349, 457, 521, 838, 696, 1002, 873, 307, 458, 458, 523, 838, 380, 416, 380, 366, 696, 696, 696,
    696, 696, 696, 696, 696, 696, 696, 400, 400, 838, 838, 838, 581, 1000, 774, 763, 734, 831, 684,
    684, 821, 837, 373, 373, 775, 638, 996, 837, 851, 733, 851, 771, 721, 683, 813, 774, 1104, 771,
    725, 726, 458, 366, 458, 838, 500, 500, 675, 716, 593, 716, 679, 436, 716, 712, 343, 343, 666,
    343, 1042, 712, 688, 716, 716, 494, 596, 479, 712, 652, 924, 646, 652, 583, 712, 366, 712, 838,
];

// The width of a letter; that of the widest of those that have none.
fn letter_width(letter: u8, is_bold: bool) -> u64 {
    let widths = if is_bold { &BOLD } else { &PLAIN };
    let at = usize::from(letter.saturating_sub(b' '));
    match widths.get(at) {
        Some(width) => *width,
        None => 2000,
    }
}

// The width of words whose letters have widths of their own.
fn letters_width(words: &str, is_bold: bool) -> u64 {
    let mut width: u64 = 0;
    for letter in words.as_bytes() {
        width = width.saturating_add(letter_width(*letter, is_bold));
    }
    width
}

/// The width of words.
pub fn words_width(words: &str, is_mono: bool, is_bold: bool) -> u64 {
    if is_mono {
        COLUMN.saturating_mul(words.width() as u64)
    } else {
        letters_width(words, is_bold)
    }
}

// Whether a letter reaches below its line.
fn goes_below(letter: u8) -> bool {
    matches!(
        letter,
        b'g' | b'j' | b'p' | b'q' | b'y' | b'Q' | b'_' | b',' | b';' | b'(' | b')'
    )
}

/// How far words reach below their line.
pub fn depth(words: &str) -> u64 {
    for letter in words.as_bytes() {
        if goes_below(*letter) {
            return 240;
        }
    }
    15
}
