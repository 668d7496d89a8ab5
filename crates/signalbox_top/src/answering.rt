//! What is put, and where: results to one sink, everything else to the other.

ghost use Rattle.std.specs.Prelude.{◌≡◌, ◌≢◌, ◌<◌, length};
ghost use Rattle.rail_text.specs.Bytes.{appended};
ghost use Rattle.rail_text.specs.Causes.{Rose};
ghost use Rattle.signalbox_top.specs.Top.{TakesFront};
ghost use Rattle.signalbox_top.specs.Told.{IsTold, TellsTrouble, TellsWhy};

use crate::status::Status;
use explained_texts::Trouble;
use rail_text::{Sink, SinkFault, put_all};

/// Tells why a command could not be done. Where it can't be told, nobody hears of it.
pub(crate) fn tell<L: Sink>(told: &mut L, why: &str) -> Status
    ensures failed { result ≡ Status.Failed }
    ensures why { TellsWhy (L.taken told.old) (L.taken told.new) (L.faults told.old) (L.faults told.new) }
    ensures line { 0 < length why.now
        → IsTold why.now (L.taken told.old) (L.taken told.new) (L.faults told.old) (L.faults told.new) }
{
    let line = if why.is_empty() {
        "signalbox: it could not be done\n"
    } else {
        why
    };
    match put_all(told, line.as_bytes()) {
        Ok(()) | Err(SinkFault::Failed) => Status::Failed,
    }
}

/// Tells of trouble.
pub(crate) fn tell_trouble<L: Sink>(told: &mut L, trouble: &Trouble) -> Status
    ensures failed { result ≡ Status.Failed }
    ensures why { TellsWhy (L.taken told.old) (L.taken told.new) (L.faults told.old) (L.faults told.new) }
    ensures line { TellsTrouble trouble.now (L.taken told.old) (L.taken told.new) (L.faults told.old)
        (L.faults told.new) }
{
    match trouble {
        Trouble::Untaken(line) => tell(told, line.as_str()),
        Trouble::Refused { told: why, .. } => tell(told, why.as_str()),
        Trouble::NoMemory => tell(told, "signalbox: out of memory\n"),
    }
}

/// Puts a result, and answers the status; where the output can't be written, that is told.
pub(crate) fn put_result<K: Sink, L: Sink>(
    out: &mut K,
    told: &mut L,
    text: &[u8],
    status: Status,
) -> Status
    requires { status ≢ Status.Failed }
    ensures all { result ≢ Status.Failed
        → (result ≡ status) × (K.taken out.new ≡ appended (K.taken out.old) text.now) × (told.new ≡ told.old) }
    ensures part { result ≡ Status.Failed → TakesFront (K.taken out.old) (K.taken out.new) }
    ensures cause { result ≡ Status.Failed → Rose (K.faults out.old) (K.faults out.new) }
    ensures why { result ≡ Status.Failed
        → TellsWhy (L.taken told.old) (L.taken told.new) (L.faults told.old) (L.faults told.new) }
{
    match put_all(out, text) {
        Ok(()) => status,
        Err(SinkFault::Failed) => tell(told, "signalbox: the output could not be written\n"),
    }
}
