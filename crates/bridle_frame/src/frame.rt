//! The frame: levers at their ends, held and let go by bridles.

ghost use Rattle.std.specs.Prelude.{◌≡◌, ◌<◌, ◌^◌, ◌↔◌, All, IfOk, IsTrue, length, replicate};
ghost use Rattle.locking_table.specs.declared.places.End.TheVariants.{Normal as NormalEnd};
ghost use Rattle.locking_table.specs.declared.places.Stand.TheVariants.{AtMid};
ghost use Rattle.locking_table.specs.Places.{IsLever, at_ends, end_at, stand_of};
ghost use Rattle.bridle_frame.specs.declared.frame.Shift.TheVariants.{Shifted};
ghost use Rattle.bridle_frame.specs.Seated.{BridleFits, IsSeated};
ghost use Rattle.bridle_frame.specs.Shifts.{ends_after, first_holder, shift_of};
ghost use Rattle.bridle_frame.specs.Frames.{counted, first_lone, index_at, lying_in_each, one_fewer, one_more};

use crate::bridle::Bridle;
use crate::index::{Uses, index_of};
use locking_table::{End, Holder, NoMemory, end_of};
use std::alloc::Global;
use std::marker::Model;

/// What became of a lever that was to be moved.
#[derive(Clone, Copy, Debug, PartialEq, Eq, Hash)]
pub enum Shift {
    /// It stands at its other end.
    Shifted,
    /// It stands where it stood. This bridle, numbered from 1, is the first that isn't seated with it at mid.
    HeldBy { bridle: u32 },
}

/// A frame of levers at their ends, and its bridles, each of them seated.
#[derive(Debug, Drop)]
pub struct Frame {
    ends: Vec<End>,
    bridles: Vec<Bridle>,
    // For each lever the bridles that have a dog lying in a notch of it at normal.
    at_normal: Vec<Uses>,
    // The same at reversed.
    at_reversed: Vec<Uses>,
    // For each bridle how many of its dogs lie in notches.
    lying: Vec<usize>,
}

impl Model for Frame {
    ghost use Rattle.bridle_frame.specs.Frames.{FrameState, IsFrame};

    ghost Value = { FrameState };

    ghost view = { λ f. record { ends = f.ends.items; bridles = f.bridles.items } };

    ghost invariant = { λ f.
        IsFrame f.ends.items f.bridles.items f.at_normal.items f.at_reversed.items f.lying.items };
}

// For each bridle how many of its dogs lie in notches.
fn lying_in_each(alloc: Global, ends: &[End], bridles: &[Bridle]) -> Result<Vec<usize>, NoMemory>
    requires { All (BridleFits (length ends.now)) bridles.now }
    ensures { IfOk result (λ lying. lying.items ≡ lying_in_each (at_ends ends.now) bridles.now) }
{
    let mut lying = Vec::new(alloc);
    for bridle in bridles {
        lying.push(bridle.lying_dogs(ends))?;
    }
    Ok(lying)
}

// Of two indexes, one for each end, that for an end.
fn index_at<'a>(end: End, at_normal: &'a [Uses], at_reversed: &'a [Uses]) -> &'a [Uses]
    ensures { result.now ≡ index_at end at_normal.now at_reversed.now }
{
    match end {
        End::Normal => at_normal,
        End::Reversed => at_reversed,
    }
}

// The first of these bridles, by their numbers from 0, of which one dog alone lies in a notch.
fn first_lone(lying: &[usize], numbers: &[u32]) -> Shift
    requires few { length lying.now < 2 ^ 32 }
    requires within { All (λ number. number < length lying.now) numbers.now }
    ensures { result ≡ first_lone lying.now numbers.now }
{
    for number in numbers {
        if lying[*number as usize] == 1 {
            return Shift::HeldBy {
                bridle: *number + 1,
            };
        }
    }
    Shift::Shifted
}

// A dog fewer lies in a notch in each of these bridles.
fn count_out(lying: &mut [usize], numbers: &[u32])
    requires { All (λ number. number < length lying.old) numbers.now }
    ensures { lying.new ≡ counted one_fewer lying.old numbers.now }
{
    for number in numbers {
        let lies = &mut lying[*number as usize];
        *lies = lies.saturating_sub(1);
    }
}

// A dog more lies in a notch in each of these bridles.
fn count_in(lying: &mut [usize], numbers: &[u32])
    requires { All (λ number. number < length lying.old) numbers.now }
    ensures { lying.new ≡ counted one_more lying.old numbers.now }
{
    for number in numbers {
        let lies = &mut lying[*number as usize];
        *lies = lies.saturating_add(1);
    }
}

fn all_fit(bridles: &[Bridle], levers: u32) -> bool
    ensures { IsTrue result ↔ All (BridleFits levers) bridles.now }
{
    bridles.iter().all(|bridle| bridle.fits(levers))
}

fn all_open_seated(bridles: &[Bridle], levers: u32) -> bool
    requires { All (BridleFits levers) bridles.now }
    ensures { IsTrue result ↔ All (IsSeated (at_ends (replicate levers NormalEnd))) bridles.now }
{
    bridles.iter().all(|bridle| bridle.opens_seated(levers))
}

impl Frame {
    /// Whether a frame of levers 1 to `levers` can have these bridles: each has two to four dogs on different levers
    /// of the frame, and is seated where all levers are normal.
    pub fn accepts(levers: u32, bridles: &[Bridle]) -> bool
        ensures { IsTrue result ↔ (All (BridleFits levers) bridles.now
            × All (IsSeated (at_ends (replicate levers NormalEnd))) bridles.now) }
    {
        all_fit(bridles, levers) && all_open_seated(bridles, levers)
    }

    /// A frame of levers 1 to `levers`, all of them normal.
    pub fn new(alloc: Global, levers: u32, bridles: Vec<Bridle>) -> Result<Self, NoMemory>
        requires few { length bridles.items < 2 ^ 32 }
        requires fits { All (BridleFits levers) bridles.items }
        requires seated { All (IsSeated (at_ends (replicate levers NormalEnd))) bridles.items }
        ensures { IfOk result (λ f. f ≡ record { ends = replicate levers NormalEnd; bridles = bridles.items }) }
    {
        let ends = vec![in alloc; End::Normal; levers as usize]?;
        let at_normal = index_of(alloc, levers, End::Normal, bridles.as_slice())?;
        let at_reversed = index_of(alloc, levers, End::Reversed, bridles.as_slice())?;
        let lying = lying_in_each(alloc, ends.as_slice(), bridles.as_slice())?;
        Ok(Frame {
            ends,
            bridles,
            at_normal,
            at_reversed,
            lying,
        })
    }

    /// What `shift` would answer. Nothing moves.
    pub fn test(&self, lever: u32) -> Shift
        requires { IsLever (length self.now.ends) lever }
        ensures { result ≡ shift_of self.now.ends lever self.now.bridles }
    {
        let end = end_of(&self.ends, lever);
        let uses = index_at(end, &self.at_normal, &self.at_reversed);
        first_lone(&self.lying, uses[lever as usize - 1].as_slice())
    }

    /// Moves a lever to its other end, or tells the first bridle that isn't seated with it at mid. Then nothing
    /// moves.
    pub fn shift(&mut self, lever: u32) -> Shift
        requires { IsLever (length self.old.ends) lever }
        ensures reply { result ≡ shift_of self.old.ends lever self.old.bridles }
        ensures moved { self.new ≡ record self.old { ends = ends_after self.old.ends lever result } }
    {
        let reply = self.test(lever);
        if let Shift::Shifted = reply {
            self.throw(lever);
        }
        reply
    }

    /// Moves a lever that nothing holds to its other end: `test` answers `Shifted`, and isn't asked again.
    pub fn throw(&mut self, lever: u32)
        requires lever { IsLever (length self.old.ends) lever }
        requires free { shift_of self.old.ends lever self.old.bridles ≡ Shifted }
        ensures { self.new ≡ record self.old { ends = ends_after self.old.ends lever Shifted } }
    {
        let at = lever as usize - 1;
        let end = end_of(&self.ends, lever);
        let other = end.other();
        let left = index_at(end, &self.at_normal, &self.at_reversed);
        let reached = index_at(other, &self.at_normal, &self.at_reversed);
        count_out(&mut self.lying, left[at].as_slice());
        count_in(&mut self.lying, reached[at].as_slice());
        self.ends[at] = other;
    }

    /// The row that holds a lever, with the lever that it names, or `None` where the lever may move.
    pub fn holder(&self, lever: u32) -> Option<Holder>
        requires { IsLever (length self.now.ends) lever }
        ensures { result ≡ first_holder (stand_of self.now.ends lever AtMid) lever self.now.bridles }
    {
        match self.test(lever) {
            Shift::Shifted => None,
            Shift::HeldBy { bridle } => {
                let holding = &self.bridles[bridle as usize - 1];
                Some(Holder {
                    lever: holding.holding_lever(lever),
                    row: holding.row,
                })
            }
        }
    }

    /// The end at which a lever stands.
    pub fn end(&self, lever: u32) -> End
        requires { IsLever (length self.now.ends) lever }
        ensures { result ≡ end_at self.now.ends lever }
    {
        end_of(&self.ends, lever)
    }

    /// The ends of the levers, that of lever 1 first.
    pub fn ends(&self) -> &[End]
        ensures { result.now ≡ self.now.ends }
    {
        &self.ends
    }

    /// The bridles in order. Each of them is seated.
    pub fn bridles(&self) -> &[Bridle]
        ensures bridles { result.now ≡ self.now.bridles }
        ensures few { length self.now.bridles < 2 ^ 32 }
        ensures fits { All (BridleFits (length self.now.ends)) self.now.bridles }
        ensures seated { All (IsSeated (at_ends self.now.ends)) self.now.bridles }
    {
        &self.bridles
    }
}
