//! For how long instruments show what they were turned to.

ghost use Rattle.std.specs.Prelude.{◌≡◌, ◌++◌, IfOk, OnOk, None, replicate, reverse};
ghost use Rattle.graph_scene.specs.Turns.{bar_between, bar_shown, bars_of, turn_of};
ghost use Rattle.graph_scene.specs.Moments.{AreOf};

use block_words::{Position, Way};
use line_law::{Act, ByWay, Entry, Reply};
use line_plan::Plan;
use rail_text::NoMemory;
use std::alloc::Global;

/// A turn of the instrument of an incoming line.
#[derive(Clone, Copy, Debug, PartialEq, Eq)]
pub struct Turn {
    pub way: Way,
    pub position: Position,
}

/// For how long the instrument of a section shows Line Clear or Train on Line. Entries are numbered from 0.
#[derive(Clone, Copy, Debug, PartialEq, Eq)]
pub struct Bar {
    /// The box in advance, which works the instrument.
    pub box_no: u32,
    pub way: Way,
    pub position: Position,
    /// The entry that turned the instrument to this ..
    pub from: usize,
    /// .. and the one that turned it next.
    pub to: Option<usize>,
}

/// The turn of an instrument by an entry, if there is one.
pub fn turn_of(entry: &Entry) -> Option<Turn>
    ensures { result ≡ turn_of entry.now }
{
    match (entry.call.act, entry.reply) {
        (Act::Turn { way, position }, Reply::Turned { .. }) => { Some(Turn { way, position }) }
        _ => None,
    }
}

// No turn of any instrument of so many boxes.
fn no_turns(alloc: Global, boxes: usize) -> Result<Vec<ByWay<Option<usize>>>, NoMemory>
    ensures { IfOk result (λ turns. turns.items ≡ replicate boxes (record { up = None; down = None })) }
{
    let none = ByWay {
        up: None,
        down: None,
    };
    Ok(vec![in alloc; none; boxes]?)
}

// Adds the bar of a turn by a box, if it begins one.
fn add_bar(
    bars: &mut Vec<Bar>,
    box_no: u32,
    turn: Turn,
    from: usize,
    to: Option<usize>,
) -> Result<(), NoMemory>
    ensures { OnOk result (bars.new.items
        ≡ bars.old.items ++ bar_shown turn.position (bar_between box_no turn from to)) }
{
    if turn.position != Position::Normal {
        bars.push(Bar {
            box_no,
            way: turn.way,
            position: turn.position,
            from,
            to,
        })?;
    }
    Ok(())
}

// The bars of the entries of a journal, the last first.
#[tactic(auto, using(crate::proofs::Turning::bar_rules))]
fn bars_back(alloc: Global, plan: &Plan, entries: &[Entry]) -> Result<Vec<Bar>, NoMemory>
    requires { AreOf plan.now entries.now }
    ensures { IfOk result (λ bars. reverse bars.items ≡ bars_of entries.now) }
{
    let mut bars = Vec::new(alloc);
    let mut next = no_turns(alloc, plan.boxes.len())?;
    let mut number = entries.len();
    while 0 < number {
        number -= 1;
        let entry = &entries[number];
        if let Some(turn) = turn_of(entry) {
            let at = entry.box_no as usize;
            add_bar(
                &mut bars,
                entry.box_no,
                turn,
                number,
                next[at].get(turn.way),
            )?;
            next[at].set(turn.way, Some(number));
        }
    }
    Ok(bars)
}

/// For how long each instrument shows Line Clear or Train on Line by a journal, in the order of the entries that turned
/// it so.
pub fn bars_of(alloc: Global, plan: &Plan, entries: &[Entry]) -> Result<Vec<Bar>, NoMemory>
    requires { AreOf plan.now entries.now }
    ensures { IfOk result (λ bars. bars.items ≡ bars_of entries.now) }
{
    let mut bars = bars_back(alloc, plan, entries)?;
    bars.reverse();
    Ok(bars)
}
