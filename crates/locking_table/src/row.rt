//! Rows of a locking table, and what they mean.

ghost use Rattle.std.specs.Prelude.{◌≡◌, ◌≤◌, ◌==◌, ◌+◌, ◌↔◌, ◌∷◌, All, IsTrue, length, map, not};
ghost use Rattle.std.specs.List.{list_all, list_any};
ghost use Rattle.locking_table.specs.declared.places.Stand.TheVariants.{AtMid};
ghost use Rattle.locking_table.specs.Places.{IsLever, at_ends, is_normal, stand_at, stand_of};
ghost use Rattle.locking_table.specs.Meaning.{acts, breaks, holding_lever, row_holds, row_allows};
ghost use Rattle.locking_table.specs.Sound.{CondFits, IsRow, RowFits, all_differ, conds_differ, levers_of};

use crate::conds::Conds;
use crate::places::{End, MOST_LEVERS, Stand, end_of, stand_of};

/// What a row asks of its object.
#[derive(Clone, Copy, Debug, PartialEq, Eq, Hash)]
pub enum RowKind {
    /// `A locks B normal`: B stands normal.
    LocksNormal,
    /// `A released by B`: B stands reversed.
    ReleasedBy,
    /// `A locks B both ways`: B stands at an end.
    LocksBoth,
}

/// A condition of a row: it acts where the lever isn't at the other end.
#[derive(Clone, Copy, Debug, PartialEq, Eq, Hash)]
pub struct Cond {
    pub lever: u32,
    pub end: End,
}

/// A row of a locking table, which takes no memory beside its own. A row that some text spells has levers from 1 to 120
/// that all differ.
#[derive(Debug, PartialEq, Eq, Drop)]
pub struct Row {
    pub subject: u32,
    pub kind: RowKind,
    pub object: u32,
    pub when: Conds,
}

/// What holds a lever: a row by its number, and the lever that this row names.
#[derive(Clone, Copy, Debug, PartialEq, Eq, Hash)]
pub struct Holder {
    pub lever: u32,
    pub row: u32,
}

impl Cond {
    /// Whether the condition acts, with one lever brought to a place.
    fn acts(&self, ends: &[End], moved: u32, place: Stand) -> bool
        requires { IsLever (length ends.now) self.now.lever }
        ensures { result ≡ acts (stand_of ends.now moved place) self.now }
    {
        let stand = stand_of(ends, moved, place, self.lever);
        match self.end {
            End::Reversed => stand != Stand::AtNormal,
            End::Normal => stand != Stand::AtReversed,
        }
    }

    // Whether the condition doesn't act with the lever `moved` at mid: that of another lever, which stands elsewhere.
    fn is_idle(&self, ends: &[End], moved: u32) -> bool
        requires { IsLever (length ends.now) self.now.lever }
        ensures { result ≡ not (acts (stand_of ends.now moved AtMid) self.now) }
    {
        (self.lever != moved) & (end_of(ends, self.lever) != self.end)
    }
}

impl RowKind {
    // Whether an object at this end keeps to the kind.
    fn lets(self, end: End) -> bool
        ensures { result ≡ not (breaks self (stand_at end)) }
    {
        ((self != RowKind::LocksNormal) | (end == End::Normal))
            & ((self != RowKind::ReleasedBy) | (end == End::Reversed))
    }

    /// Whether an object that stands so breaks the kind.
    fn is_broken_by(self, stand: Stand) -> bool
        ensures { result ≡ breaks self stand }
    {
        match self {
            RowKind::LocksNormal => stand != Stand::AtNormal,
            RowKind::ReleasedBy => stand != Stand::AtReversed,
            RowKind::LocksBoth => stand == Stand::AtMid,
        }
    }
}

// How many of the conditions don't act with the lever `moved` at mid: each of another lever, which stands elsewhere.
fn idle_count(conds: &[Cond], ends: &[End], moved: u32) -> usize
    requires { All (CondFits (length ends.now)) conds.now }
    ensures few { result ≤ length conds.now }
    ensures none { (result == 0) ≡ list_all (acts (stand_of ends.now moved AtMid)) conds.now }
{
    let mut idle = 0;
    for cond in conds {
        idle += usize::from(cond.is_idle(ends, moved));
    }
    idle
}

// How many of the first and the last condition don't act so: of at most two, these are all. Both are read, be they one
// or two, so that nothing hangs on how many there are.
fn idle_at_ends(conds: &[Cond], ends: &[End], moved: u32) -> usize
    requires { All (CondFits (length ends.now)) conds.now }
    ensures few { result ≤ 2 + length conds.now }
    ensures none { (result == 0) ≡ list_all (acts (stand_of ends.now moved AtMid)) conds.now }
{
    match (conds.first(), conds.last()) {
        (Some(first), Some(last)) if conds.len() <= 2 => {
            usize::from(first.is_idle(ends, moved)) + usize::from(last.is_idle(ends, moved))
        }
        _ => idle_count(conds, ends, moved),
    }
}

fn all_act(conds: &[Cond], ends: &[End], moved: u32, place: Stand) -> bool
    requires { All (CondFits (length ends.now)) conds.now }
    ensures { result ≡ list_all (acts (stand_of ends.now moved place)) conds.now }
{
    conds.iter().all(|cond| cond.acts(ends, moved, place))
}

// Whether a lever is among those of the conditions.
fn names(conds: &[Cond], lever: u32) -> bool
    ensures { result ≡ list_any (λ cond. cond.lever == lever) conds.now }
{
    conds.iter().any(|cond| cond.lever == lever)
}

// Whether the levers of the conditions differ.
fn differ(conds: &[Cond]) -> bool
    ensures { result ≡ conds_differ conds.now }
{
    for (i, cond) in conds.iter().enumerate() {
        if names(&conds[i + 1..], cond.lever) {
            return false;
        }
    }
    true
}

/// Whether a subject, an object and the levers of conditions differ.
#[tactic(auto, using(crate::proofs::RowLemmas::row_rules))]
pub fn levers_differ(subject: u32, object: u32, conds: &[Cond]) -> bool
    ensures { result ≡ all_differ (subject ∷ object ∷ map (λ cond. cond.lever) conds.now) }
{
    object != subject && !names(conds, subject) && !names(conds, object) && differ(conds)
}

// Whether a frame of so many levers has this one.
fn is_lever(levers: u32, lever: u32) -> bool
    ensures { IsTrue result ↔ IsLever levers lever }
{
    1 <= lever && lever <= levers
}

fn conds_fit(conds: &[Cond], levers: u32) -> bool
    ensures { IsTrue result ↔ All (CondFits levers) conds.now }
{
    conds.iter().all(|cond| is_lever(levers, cond.lever))
}

impl Row {
    /// The same row again.
    pub fn copied(&self) -> Row
        ensures { result ≡ self.now }
    {
        Row {
            subject: self.subject,
            kind: self.kind,
            object: self.object,
            when: self.when.copied(),
        }
    }

    /// Whether a frame of levers 1 to `levers` has each lever that the row names.
    pub fn fits(&self, levers: u32) -> bool
        ensures { IsTrue result ↔ RowFits levers self.now }
    {
        is_lever(levers, self.subject)
            && is_lever(levers, self.object)
            && conds_fit(self.when.as_slice(), levers)
    }

    /// Whether some text spells the row: its levers are 1 to 120 and all differ.
    pub fn is_spelled(&self) -> bool
        ensures { IsTrue result ↔ IsRow self.now }
    {
        let conds = self.when.as_slice();
        self.fits(MOST_LEVERS) && levers_differ(self.subject, self.object, conds)
    }

    /// Whether all levers that the row names differ.
    pub fn levers_differ(&self) -> bool
        ensures { result ≡ all_differ (levers_of self.now) }
    {
        levers_differ(self.subject, self.object, self.when.as_slice())
    }

    /// Whether the row holds with the lever `moved` brought to a place and all others at their ends.
    ///
    /// A row holds unless its subject isn't normal, all its conditions act, and its object breaks its kind.
    pub fn holds(&self, ends: &[End], moved: u32, place: Stand) -> bool
        requires { RowFits (length ends.now) self.now }
        ensures { result ≡ row_holds (stand_of ends.now moved place) self.now }
    {
        let subject = stand_of(ends, moved, place, self.subject);
        let object = stand_of(ends, moved, place, self.object);
        let breaks = subject != Stand::AtNormal
            && all_act(self.when.as_slice(), ends, moved, place)
            && self.kind.is_broken_by(object);
        !breaks
    }

    /// Whether the row holds with every lever at its end.
    #[tactic(auto, using(crate::proofs::Indexes::end_rules))]
    pub fn holds_at_ends(&self, ends: &[End]) -> bool
        requires { RowFits (length ends.now) self.now }
        ensures { result ≡ row_holds (at_ends ends.now) self.now }
    {
        self.holds(ends, 0, Stand::AtMid)
    }

    // Whether the subject stands normal with the lever `moved` at mid.
    fn subject_is_normal(&self, ends: &[End], moved: u32) -> bool
        requires { RowFits (length ends.now) self.now }
        ensures { result ≡ is_normal (stand_of ends.now moved AtMid self.now.subject) }
    {
        (self.subject != moved) & (end_of(ends, self.subject) == End::Normal)
    }

    // Whether the object keeps to the kind with the lever `moved` at mid.
    fn object_keeps(&self, ends: &[End], moved: u32) -> bool
        requires { RowFits (length ends.now) self.now }
        ensures { result ≡ not (breaks self.now.kind (stand_of ends.now moved AtMid self.now.object)) }
    {
        (self.object != moved) & self.kind.lets(end_of(ends, self.object))
    }

    /// Whether the row lets a lever move to its other end: it holds with the lever at mid and at its new end.
    ///
    /// With the lever at mid each condition on it acts, and it breaks every kind: what holds there holds at the new
    /// end. What makes the row hold is counted, and not looked for part by part.
    pub fn allows(&self, ends: &[End], lever: u32) -> bool
        requires lever { IsLever (length ends.now) lever }
        requires row { RowFits (length ends.now) self.now }
        ensures { result ≡ row_allows ends.now lever self.now }
    {
        let subject = usize::from(self.subject_is_normal(ends, lever));
        let object = usize::from(self.object_keeps(ends, lever));
        subject + object + idle_at_ends(self.when.as_slice(), ends, lever) != 0
    }

    /// The lever that the row names where it holds the lever `moved`: its object where `moved` is its
    /// subject, else its subject.
    pub fn holding_lever(&self, moved: u32) -> u32
        ensures { result ≡ holding_lever self.now moved }
    {
        if self.subject == moved {
            self.object
        } else {
            self.subject
        }
    }
}
