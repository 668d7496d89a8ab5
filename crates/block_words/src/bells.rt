//! The word of a bell: how many codes were rung on it, and the code that stands unheard.
ghost use Rattle.std.specs.Prelude.{◌≡◌, ◌≢◌, ℕ, ◌<◌, ◌^◌};
ghost use Rattle.block_words.specs.declared.Way.{Way};
ghost use Rattle.block_words.specs.declared.WordOp.TheVariants.{Ring, Hear, LookBell};
ghost use Rattle.block_words.specs.Bells.{bell_code, bell_count, bell_word};
ghost use Rattle.block_words.specs.Operations.{word_after};

/// All bits of a bell's word but those of its code: a bell is heard by `and` with it.
pub const COUNT_MASK: u64 = 0xffff_ffff_ffff_ff00;

/// The word of a bell on which `k` codes were rung and `code` stands unheard, 0 for none.
pub fn bell_word(k: u64, code: u8) -> u64
    requires { k < 2 ^ 56 }
    ensures word { result ≡ bell_word k code }
    ensures count { bell_count result ≡ k }
    ensures unheard { bell_code result ≡ code }
{
    256 * k + u64::from(code)
}

/// How many codes were rung on the bell of this word.
pub fn bell_count(w: u64) -> u64
    ensures count { result ≡ bell_count w }
    ensures packed { bell_word result (bell_code w) ≡ w }
{
    w / 256
}

/// The code that stands unheard on the bell of this word, or 0 for none.
pub fn bell_code(w: u64) -> u8
    ensures unheard { result ≡ bell_code w }
    ensures packed { bell_word (bell_count w) result ≡ w }
{
    (w % 256) as u8
}

/// Unpacking a bell's word finds its count and its code again. And what the operations make of it: ringing replaces
/// the expected word alone, hearing takes the code off and keeps the count, a look changes nothing.
pub fn bells_law()
    ensures count { (k code : ℕ) → code < 256 → bell_count (bell_word k code) ≡ k }
    ensures unheard { (k code : ℕ) → code < 256 → bell_code (bell_word k code) ≡ code }
    ensures rung { (side : Way) (expect new : ℕ) → word_after (Ring side expect new) expect ≡ new }
    ensures kept { (side : Way) (expect new w : ℕ) → w ≢ expect →
        word_after (Ring side expect new) w ≡ w }
    ensures heard { (side : Way) (w : ℕ) → w < 2 ^ 64 →
        word_after (Hear side) w ≡ bell_word (bell_count w) 0 }
    ensures seen { (side : Way) (w : ℕ) → word_after (LookBell side) w ≡ w }
{}
