//! The bytes of a text, sixteen at a time.

ghost use Rattle.std.specs.Prelude.{◌≡◌, ◌≢◌, ◌↔◌, ℕ, false, ◌+◌, ◌<◌, ◌≤◌, get_or, length};
ghost use Rattle.std.specs.Int.{bit_at};
ghost use Rattle.rail_text.specs.Forms.{is_printable};

use std::simd::prelude::*;

/// How many bytes are looked at in one step.
pub(crate) const CHUNK: usize = 16;

// The bytes from a place on.
fn chunk(text: &[u8], from: usize) -> u8x16
    requires { from + 16 ≤ length text.now }
    ensures each { (k : ℕ) → k < 16 → get_or result k 0 ≡ get_or text.now (from + k) 0 }
    ensures len { length result ≡ 16 }
{
    u8x16::from_slice(&text[from..])
}

// Which of the sixteen bytes of a chunk are spaces, one bit each from the lowest.
fn spaces_of(text: &[u8], from: usize) -> u64
    requires { from + 16 ≤ length text.now }
    ensures { (k : ℕ) → (bit_at result k ≡ 1) ↔ ((k < 16) × (get_or text.now (from + k) 0 ≡ 32)) }
{
    chunk(text, from).simd_eq(u8x16::splat(b' ')).to_bitmask()
}

// The bits from one on.
fn shifted_down(bits: u64, by: usize) -> u64
    requires { by < 64 }
    ensures { (k : ℕ) → bit_at result k ≡ bit_at bits (by + k) }
{
    bits >> by
}

/// Which of the sixteen bytes from a place on are spaces, one bit each from the lowest; behind the end of the text none
/// is. The text has sixteen bytes at least: near its end its last chunk is looked at.
pub(crate) fn spaces_in(text: &[u8], from: usize) -> u64
    requires long { 16 ≤ length text.now }
    requires within { from ≤ length text.now }
    ensures { (k : ℕ) → (bit_at result k ≡ 1) ↔ ((k < 16) × (get_or text.now (from + k) 0 ≡ 32)) }
{
    let last = text.len() - CHUNK;
    if from <= last {
        spaces_of(text, from)
    } else {
        shifted_down(spaces_of(text, last), from - last)
    }
}

/// Which of the sixteen bytes from a place on may not stand in a line, one bit each from the lowest.
pub(crate) fn odd_in(text: &[u8], from: usize) -> u64
    requires { from + 16 ≤ length text.now }
    ensures { (k : ℕ) → (bit_at result k ≡ 1)
        ↔ ((k < 16) × (is_printable (get_or text.now (from + k) 0) ≡ false)) }
{
    let bytes = chunk(text, from);
    let low = bytes.simd_lt(u8x16::splat(b' ')).to_bitmask();
    let high = bytes.simd_gt(u8x16::splat(b'~')).to_bitmask();
    low | high
}

/// The lowest bit that is set.
pub(crate) fn lowest(bits: u64) -> usize
    requires { bits ≢ 0 }
    ensures bound { result < 64 }
    ensures set { bit_at bits result ≡ 1 }
    ensures below { (k : ℕ) → k < result → bit_at bits k ≡ 0 }
{
    bits.trailing_zeros() as usize
}

/// The bits but one of them.
pub(crate) fn without(bits: u64, bit: usize) -> u64
    requires bound { bit < 64 }
    requires set { bit_at bits bit ≡ 1 }
    ensures smaller { result < bits }
    ensures kept { (k : ℕ) → k < 64 → k ≢ bit → bit_at result k ≡ bit_at bits k }
    ensures no_more { (k : ℕ) → bit_at result k ≡ 1 → bit_at bits k ≡ 1 }
    ensures gone { bit_at result bit ≡ 0 }
{
    bits & !(1 << bit)
}
