//! Which entries keep which others back.

ghost use Rattle.std.specs.Prelude.{◌≡◌, ◌<◌, ◌==◌, ◌&&◌, length};
ghost use Rattle.word_laws.specs.Footprint.{way_at};
ghost use Rattle.line_plan.specs.Frames.{same_way};
ghost use Rattle.line_journal.specs.Keepers.{kept_at};
ghost use Rattle.line_journal.specs.Order.{kept_back, keeps_back};
ghost use Rattle.line_journal.specs.Halves.{pair_for};

use crate::lines::word_of;
use block_words::Way;
use line_law::{Entry, Reply};
use line_plan::Plan;

// Whether an entry with the first reply is kept back by one of the other box on its word with the second.
fn is_kept_back(first: Reply, second: Reply) -> bool
    ensures { result ≡ kept_back first second }
{
    match (first, second) {
        (Reply::Rung { k }, Reply::Silent { k: n }) => n < k && k - n == 1,
        (Reply::Rung { k }, Reply::BellNotYet { k: n, shown: _ }) => n < k && k - n == 1,
        (Reply::Heard { k, code: _ }, Reply::BellBusy { k: n, code: _ }) => n == k,
        (Reply::Turned { v }, Reply::PulledUnder { v: n }) => n < v,
        (
            Reply::Turned { v },
            Reply::HeldByInstrument {
                way: _,
                v: n,
                shown: _,
                spent: _,
            },
        ) => n < v,
        (Reply::Turned { v }, Reply::Seen { v: n }) => n < v,
        (Reply::Turned { v }, Reply::BlockNotYet { v: n, shown: _ }) => n < v,
        (Reply::Entered { k, train: _ }, Reply::NoTrainAt { j }) => j == k,
        (Reply::Entered { k, train: _ }, Reply::TrainNotYet { j }) => j == k,
        (Reply::Berthed { j, train: _ }, Reply::SectionFull { k }) => j < k && k - j == 4,
        (Reply::Cleared { j, train: _ }, Reply::SectionFull { k }) => j < k && k - j == 4,
        _ => false,
    }
}

/// Whether an entry with this reply is kept back by one of the kind that may keep it back, where that tells this count.
pub fn is_kept_at(reply: Reply, count: u64) -> bool
    ensures { result ≡ kept_at reply count }
{
    match reply {
        Reply::Rung { k } => count < k && k - count == 1,
        Reply::Heard { k, code: _ } | Reply::Entered { k, train: _ } => count == k,
        Reply::Turned { v } => count < v,
        Reply::Berthed { j, train: _ } | Reply::Cleared { j, train: _ } => {
            j < count && count - j == 4
        }
        _ => false,
    }
}

// Whether two ways are the same.
fn same_way(way: Way, other: Way) -> bool
    ensures { result ≡ same_way way other }
{
    way == other
}

// Whether two entries are on words of one pair and one way.
fn is_on_one_line(plan: &Plan, entry: &Entry, other: &Entry) -> bool
    requires entry { entry.now.box_no < length plan.now.boxes }
    requires other { other.now.box_no < length plan.now.boxes }
    ensures { result ≡ (pair_for plan.now entry.now == pair_for plan.now other.now)
        && same_way (way_at plan.now entry.now.box_no entry.now.call)
        (way_at plan.now other.now.box_no other.now.call) }
{
    let (pair, way) = word_of(plan, entry);
    let (other_pair, other_way) = word_of(plan, other);
    pair == other_pair && same_way(way, other_way)
}

/// Whether an entry is kept back by one of another box that remains. The replies are asked first, which seldom do.
#[tactic(auto, using(crate::proofs::Deciding::keeps_short))]
pub fn keeps_back(plan: &Plan, entry: &Entry, other: &Entry) -> bool
    requires entry { entry.now.box_no < length plan.now.boxes }
    requires other { other.now.box_no < length plan.now.boxes }
    ensures { result ≡ keeps_back plan.now entry.now other.now }
{
    is_kept_back(entry.reply, other.reply) && is_on_one_line(plan, entry, other)
}
