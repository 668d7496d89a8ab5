//! The marks of the audit: what is kept of the journal so far for each box and side, and which rules an entry breaks by
//! them.

ghost use Rattle.std.specs.Prelude.{◌≡◌, IfOk, replicate};
ghost use Rattle.line_law.specs.Ways.{of_way, with_way};
ghost use Rattle.reg_audit.specs.Marks.{bell_marked, breaks_berth, breaks_entering, breaks_turned, breaks_turning};
ghost use Rattle.reg_audit.specs.Marks.{is_broken, marks_after, opening_marks, pass_marked, side_breaks_offer};
ghost use Rattle.reg_audit.specs.Marks.{side_breaks_out, turn_marked};

use crate::bell::{BellEntry, BellKind, bell_on, is_bell, is_of_class, unprompted};
use crate::deed::Deed;
use crate::rule::Rule;
use bell_codes::{CALL_ATTENTION, TRAIN_ENTERING_SECTION, TRAIN_OUT_OF_SECTION};
use block_words::{Position, Way};
use line_law::ByWay;
use line_plan::Plan;
use rail_text::NoMemory;
use std::alloc::Global;

/// What is kept of the journal so far for one side of a box.
#[derive(Clone, Copy)]
pub struct SideMarks {
    /// The last bell entry on this side.
    pub last_bell: Option<BellEntry>,
    /// Whether a train was offered from this side since Line Clear was last given on the line that comes from it.
    pub offered: bool,
    /// Whether Train Entering Section was rung towards this side, no answer, since a train last entered that section.
    pub entering: bool,
    /// Whether a train has left the berth of the line that comes from this side since Train Out of Section was last
    /// rung towards it, no answer.
    pub left: bool,
    /// What the commutator of the line that comes from this side shows.
    pub shown: Position,
}

/// The marks of a side before the first entry.
pub const NO_MARKS: SideMarks = SideMarks {
    last_bell: None,
    offered: false,
    entering: false,
    left: false,
    shown: Position::Normal,
};

impl SideMarks {
    // Marks a code that was rung or heard on this side.
    fn mark_bell(&mut self, plan: &Plan, bell: BellEntry)
        ensures { self.new ≡ bell_marked plan.now bell self.old }
    {
        let new = unprompted(self.last_bell, Some(bell));
        self.last_bell = Some(bell);
        self.offered |= is_of_class(plan, BellKind::Heard, new);
        self.entering |= is_bell(new, BellEntry::rung(TRAIN_ENTERING_SECTION));
        self.left &= !is_bell(new, BellEntry::rung(TRAIN_OUT_OF_SECTION));
    }

    // Marks that the commutator of the line that comes from this side was turned.
    fn mark_turn(&mut self, position: Position)
        ensures { self.new ≡ turn_marked position self.old }
    {
        self.offered &= position != Position::LineClear;
        self.shown = position;
    }

    // Marks that a train went past a signal: into the section towards this side, or out of the berth of the line that
    // comes from it.
    fn mark_pass(&mut self, entered: bool, gone: bool)
        ensures { self.new ≡ pass_marked entered gone self.old }
    {
        self.entering &= !entered;
        self.left |= gone;
    }

    // Whether the first rule is broken by what was done on this side.
    fn breaks_offer(self, plan: &Plan, side: Way, deed: &Deed) -> bool
        ensures { result ≡ side_breaks_offer plan.now side deed.now self }
    {
        is_of_class(
            plan,
            BellKind::Rung,
            unprompted(self.last_bell, bell_on(side, deed)),
        ) && !is_bell(self.last_bell, BellEntry::heard(CALL_ATTENTION))
    }

    // Whether the fifth rule is broken by what was done on this side.
    fn breaks_out(self, side: Way, deed: &Deed) -> bool
        ensures { result ≡ side_breaks_out side deed.now self }
    {
        is_bell(
            unprompted(self.last_bell, bell_on(side, deed)),
            BellEntry::rung(TRAIN_OUT_OF_SECTION),
        ) && !self.left
    }
}

/// So many boxes with the marks that they have before the first entry.
pub fn no_marks(alloc: Global, boxes: usize) -> Result<Vec<ByWay<SideMarks>>, NoMemory>
    ensures { IfOk result (λ marks. marks.items ≡ replicate boxes opening_marks) }
{
    let none = ByWay {
        up: NO_MARKS,
        down: NO_MARKS,
    };
    Ok(vec![in alloc; none; boxes]?)
}

// Marks a code that was rung or heard on a side.
fn mark_bell(plan: &Plan, side: Way, bell: BellEntry, marks: &mut ByWay<SideMarks>)
    ensures { marks.new ≡ with_way marks.old side (bell_marked plan.now bell (of_way marks.old side)) }
{
    match side {
        Way::Up => marks.up.mark_bell(plan, bell),
        Way::Down => marks.down.mark_bell(plan, bell),
    }
}

/// Marks what was done at a box, in place. A bell is of one side alone, and so is the commutator of a line, which comes
/// from there.
pub fn mark(plan: &Plan, deed: &Deed, marks: &mut ByWay<SideMarks>)
    ensures { marks.new ≡ marks_after plan.now deed.now marks.old }
{
    match *deed {
        Deed::Rang { side, code } => mark_bell(plan, side, BellEntry::rung(code), marks),
        Deed::Heard { side, code } => mark_bell(plan, side, BellEntry::heard(code), marks),
        Deed::Turned {
            way: Way::Up,
            position,
        } => marks.down.mark_turn(position),
        Deed::Turned {
            way: Way::Down,
            position,
        } => marks.up.mark_turn(position),
        Deed::WentPast { entered, left, .. } => {
            marks.up.mark_pass(entered == Some(Way::Up), left.down);
            marks.down.mark_pass(entered == Some(Way::Down), left.up);
        }
        Deed::Berthed { .. } | Deed::PartBerthed { .. } | Deed::Released | Deed::Nothing => {}
    }
}

// Whether a rule is broken as the commutator of a line is turned, over a section that then holds so many trains.
fn breaks_turning(marks: &ByWay<SideMarks>, held: u32, rule: Rule, deed: &Deed) -> bool
    ensures { result ≡ breaks_turning marks.now held rule deed.now }
{
    match (rule, *deed) {
        (
            Rule::Clear,
            Deed::Turned {
                way,
                position: Position::LineClear,
            },
        ) => !marks.get(way.opposite()).offered,
        (
            Rule::Normal,
            Deed::Turned {
                position: Position::Normal,
                ..
            },
        ) => held != 0,
        _ => false,
    }
}

// Whether the third rule is broken as a train enters a section, if one does.
fn breaks_entering(marks: &ByWay<SideMarks>, entered: Option<Way>) -> bool
    ensures { result ≡ breaks_entering marks.now entered }
{
    match entered {
        Some(way) => !marks.get(way).entering,
        None => false,
    }
}

// Whether the fourth rule is broken as a train comes to a berth, if one does.
fn breaks_berth(marks: &ByWay<SideMarks>, berthed: Option<Way>) -> bool
    ensures { result ≡ breaks_berth marks.now berthed }
{
    match berthed {
        Some(way) => marks.get(way.opposite()).shown != Position::TrainOnLine,
        None => false,
    }
}

/// Whether a rule is broken by what a box did, by its marks before that, and the trains that the section of a turned
/// line holds after it.
pub fn is_broken(plan: &Plan, marks: &ByWay<SideMarks>, held: u32, deed: &Deed, rule: Rule) -> bool
    ensures { result ≡ is_broken plan.now marks.now held deed.now rule }
{
    match rule {
        Rule::Offer => match deed {
            Deed::Rang { side: Way::Up, .. } => marks.up.breaks_offer(plan, Way::Up, deed),
            Deed::Rang { .. } => marks.down.breaks_offer(plan, Way::Down, deed),
            _ => false,
        },
        Rule::Clear | Rule::Normal => breaks_turning(marks, held, rule, deed),
        Rule::Entering => breaks_entering(marks, deed.entered()),
        Rule::Berth => breaks_berth(marks, deed.berthed()),
        Rule::Out => match deed {
            Deed::Rang { side: Way::Up, .. } => marks.up.breaks_out(Way::Up, deed),
            Deed::Rang { .. } => marks.down.breaks_out(Way::Down, deed),
            _ => false,
        },
        Rule::Danger => deed.passes_danger(),
        Rule::Divided => deed.is_divided(),
        Rule::Release => deed.is_release(),
    }
}
