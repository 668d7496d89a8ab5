//! Where the output goes.

ghost use Rattle.std.specs.Prelude.{◌≡◌, ℕ, ◌<◌, ◌≤◌, List, take, length, Option, Ok, IfOk, OnOk, OnErr};
ghost use Rattle.rail_text.specs.Causes.{Rose};
ghost use Rattle.rail_text.specs.Bytes.{appended, TakesPart};

use crate::SinkFault;

/// Takes bytes. It counts its faults, and may tell what it took.
pub trait Sink {
    /// All bytes taken so far, where the sink tells them.
    ghost taken: { Self → Option (List ℕ) };

    /// How often a put has failed. It never falls.
    ghost faults: { Self → ℕ };

    /// Takes the first bytes of the piece, and says how many: at least one of a piece that isn't
    /// empty. `Failed` comes only where the count of faults rose in this call, and then nothing was
    /// taken.
    fn put(&mut self, piece: &[u8]) -> Result<usize, SinkFault>
        ensures bound { IfOk result (λ n. n ≤ length piece.now) }
        ensures some { IfOk result (λ n. 0 < length piece.now → 0 < n) }
        ensures took { IfOk result (λ n.
            taken self.new ≡ appended (taken self.old) (take n piece.now)) }
        ensures took_none { OnErr result (taken self.new ≡ taken self.old) }
        ensures later { faults self.old ≤ faults self.new }
        ensures cause { OnErr result (Rose (faults self.old) (faults self.new)) };
}

/// Puts the rest again until all is taken. `Failed` comes only where the count of faults rose in
/// this call, and then a proper prefix of the bytes was taken. Of no bytes it makes no put.
pub fn put_all<K: Sink>(sink: &mut K, bytes: &[u8]) -> Result<(), SinkFault>
    ensures all { OnOk result (K.taken sink.new ≡ appended (K.taken sink.old) bytes.now) }
    ensures part { OnErr result (TakesPart (K.taken sink.old) (K.taken sink.new) bytes.now) }
    ensures later { K.faults sink.old ≤ K.faults sink.new }
    ensures cause { OnErr result (Rose (K.faults sink.old) (K.faults sink.new)) }
    ensures nothing { length bytes.now ≡ 0 → (result ≡ Ok tt) × (sink.new ≡ sink.old) }
{
    let mut at: usize = 0;
    while at < bytes.len() {
        let n = sink.put(&bytes[at..])?;
        at += n;
    }
    Ok(())
}
