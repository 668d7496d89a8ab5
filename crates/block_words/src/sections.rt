//! The word of a section: the trains on its plain line, in four lanes of 16 bits.
ghost use Rattle.std.specs.Prelude.{◌≡◌, ◌≢◌, ℕ, ◌+◌, ◌*◌, ◌%◌, ◌<◌, ◌≤◌, ◌^◌, bit_and};
ghost use Rattle.block_words.specs.declared.Way.{Way};
ghost use Rattle.block_words.specs.declared.WordOp.TheVariants.{LookSection, Enter, TakeOut};
ghost use Rattle.block_words.specs.Sections.{lane, lane_bits, lane_mask, lane_unit, lanes_word};
ghost use Rattle.block_words.specs.Operations.{word_after};

/// The lowest bit of the lane of the i-th train.
fn lane_unit(i: u64) -> u64
    ensures unit { result ≡ lane_unit i }
    ensures some { 0 < result }
    ensures small { result ≤ 281474976710656 }
{
    match i % 4 {
        0 => 1,
        1 => 65_536,
        2 => 4_294_967_296,
        _ => 281_474_976_710_656,
    }
}

/// The number of the train in the lane of the i-th train, or 0 where that lane is empty.
pub fn lane(w: u64, i: u64) -> u16
    ensures train { result ≡ lane w i }
    ensures packed { bit_and w (lane_mask i) + lane_bits i result ≡ w }
{
    (w / lane_unit(i) % 65_536) as u16
}

/// The bits of a section's word that hold this train as the i-th: its lane filled, all other lanes empty.
///
/// Trains are numbered from 1.
pub fn lane_bits(i: u64, train: u16) -> u64
    requires { 0 < train }
    ensures bits { result ≡ lane_bits i train }
    ensures filled { lane result i ≡ train }
    ensures others { (j : ℕ) → j % 4 ≢ i % 4 → lane result j ≡ 0 }
{
    u64::from(train) * lane_unit(i)
}

/// All bits of a section's word but those of the lane of the i-th train: a train is taken out by `and` with it.
pub fn lane_mask(i: u64) -> u64
    ensures mask { result ≡ lane_mask i }
    ensures emptied { lane result i ≡ 0 }
    ensures others { (j : ℕ) → j % 4 ≢ i % 4 → lane result j ≡ 65535 }
{
    !(65_535 * lane_unit(i))
}

/// A section's word is its four lanes: each is found again in it, together they make it, and a word with a train in
/// one lane more is the sum.
pub fn lanes_law()
    ensures unit { (i : ℕ) → lane_unit i ≡ 65536 ^ (i % 4) }
    ensures word { (w : ℕ) → w < 2 ^ 64 → lanes_word (lane w) ≡ w }
    ensures lanes { (train : ℕ → ℕ) (i : ℕ) → ((j : ℕ) → train j < 65536) →
        lane (lanes_word train) i ≡ train (i % 4) }
    ensures filled { (before after : ℕ → ℕ) (i train : ℕ) →
        before (i % 4) ≡ 0 → after (i % 4) ≡ train → ((j : ℕ) → j ≢ i % 4 → after j ≡ before j) →
        lanes_word after ≡ lanes_word before + lane_bits i train }
{}

/// What a train that enters an empty lane makes of a section's word: its bits are added, its lane holds it, and the
/// other lanes stay.
pub fn entering_law()
    ensures word { (way : Way) (w i train : ℕ) → lane w i ≡ 0 → train < 65536 →
        word_after (Enter way (lane_bits i train)) w ≡ w + lane_bits i train }
    ensures filled { (way : Way) (w i train : ℕ) → lane w i ≡ 0 → train < 65536 →
        lane (word_after (Enter way (lane_bits i train)) w) i ≡ train }
    ensures others { (way : Way) (w i train : ℕ) → lane w i ≡ 0 → train < 65536 →
        (j : ℕ) → j % 4 ≢ i % 4 →
        lane (word_after (Enter way (lane_bits i train)) w) j ≡ lane w j }
{}

/// What taking out a train makes of a section's word: its bits are taken away, its lane is empty, and the other
/// lanes stay. A look changes nothing.
pub fn taking_out_law()
    ensures word { (way : Way) (w i : ℕ) → w < 2 ^ 64 →
        word_after (TakeOut way (lane_mask i)) w + lane_bits i (lane w i) ≡ w }
    ensures emptied { (way : Way) (w i : ℕ) → w < 2 ^ 64 →
        lane (word_after (TakeOut way (lane_mask i)) w) i ≡ 0 }
    ensures others { (way : Way) (w i : ℕ) → w < 2 ^ 64 → (j : ℕ) → j % 4 ≢ i % 4 →
        lane (word_after (TakeOut way (lane_mask i)) w) j ≡ lane w j }
    ensures seen { (way : Way) (w : ℕ) → word_after (LookSection way) w ≡ w }
{}
