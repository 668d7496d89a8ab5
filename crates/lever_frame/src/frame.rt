//! The lever frame of a box.

ghost use Rattle.std.specs.Prelude.{◌≡◌, ◌-◌, All, IfOk, None, false, length, replicate, slice_set};
ghost use Rattle.locking_table.specs.declared.places.End.TheVariants.{Normal as NormalEnd, Reversed as ReversedEnd};
ghost use Rattle.locking_table.specs.Meaning.{RowHolds, holder_of};
ghost use Rattle.locking_table.specs.Places.{IsLever, at_ends, end_at};
ghost use Rattle.locking_table.specs.Sound.{RowFits};
ghost use Rattle.tappet_compiler.specs.Compiled.{compiled};
ghost use Rattle.line_plan.specs.Frames.{frame_size};
ghost use Rattle.lever_frame.specs.LeverPlans.{plan_at};
ghost use Rattle.lever_frame.specs.LeverFrames.{HasPlacesOf, IsFrameOf, is_off, lock_reply, moved_by, passed};
ghost use Rattle.lever_frame.specs.LeverFrames.{pull_reply, pulled, put_back, put_reply};

use crate::lever_plan::{LeverPlan, lever_plans};
use crate::reply::{LeverReply, track_reply};
use bridle_frame::{Bridle, Frame};
use line_plan::BoxPlan;
use locking_table::End;
use rail_text::NoMemory;
use std::alloc::Global;
use std::marker::Model;
use tappet_compiler::{frame_of, same_holder, seated_where_row_holds};
use track_circuits::Tracks;

/// The lever frame of a box. Its bridles are those that are compiled of the rows of the box's locking table, and every
/// row holds.
///
/// Contracts see it as the rows, what is kept of the levers' plans, the ends at which the levers stand, and which arms
/// are off.
///
/// The calls that take track circuits need that these have every place that locks the lever.
#[derive(Drop)]
pub struct LeverFrame {
    frame: Frame,
    // What is kept of the plan of each lever: that of lever 1 first.
    levers: Vec<LeverPlan>,
    // Which levers have their arm off, in the same order.
    off: Vec<bool>,
}

impl Model for LeverFrame {
    ghost use Rattle.lever_frame.specs.LeverFrames.{IsLeverFrame, LeverFrameFields};
    ghost use Rattle.lever_frame.specs.Rows.{rows_of};

    ghost Value = { LeverFrameFields };

    ghost view = { λ f. record {
      rows = rows_of f.frame.bridles;
      levers = f.levers.items;
      ends = f.frame.ends;
      off = f.off.items;
    } };

    ghost invariant = { λ f. IsLeverFrame f.frame f.levers.items f.off.items };
}

// The frame of bridles that is compiled of a box's table.
fn compiled_frame(alloc: Global, plan: &BoxPlan) -> Result<Frame, NoMemory>
    requires { All (RowFits (frame_size plan.now.levers)) plan.now.rows }
    ensures { IfOk result (λ f. f ≡ record {
      ends = replicate (frame_size plan.now.levers) NormalEnd;
      bridles = compiled 1 plan.now.rows;
    }) }
{
    match frame_of(alloc, plan.frame_size(), &plan.table) {
        Ok(frame) => Ok(frame),
        Err(_) => Err(NoMemory),
    }
}

// All arms at danger.
fn arms_at_danger(alloc: Global, levers: u32) -> Result<Vec<bool>, NoMemory>
    ensures { IfOk result (λ off. off.items ≡ replicate levers false) }
{
    Ok(vec![in alloc; false; levers as usize]?)
}

impl LeverFrame {
    /// The lever frame of a box as it opens: all levers normal, all arms at danger.
    ///
    /// # Errors
    ///
    /// `NoMemory` where memory runs out.
    pub fn new(alloc: Global, plan: &BoxPlan) -> Result<LeverFrame, NoMemory>
        requires { All (RowFits (frame_size plan.now.levers)) plan.now.rows }
        ensures plan { IfOk result (λ frame. IsFrameOf plan.now frame) }
        ensures normal { IfOk result (λ frame. frame.ends ≡ replicate (frame_size plan.now.levers) NormalEnd) }
        ensures danger { IfOk result (λ frame. frame.off ≡ replicate (frame_size plan.now.levers) false) }
    {
        let off = arms_at_danger(alloc, plan.frame_size())?;
        let levers = lever_plans(alloc, plan)?;
        let frame = compiled_frame(alloc, plan)?;
        Ok(LeverFrame { frame, levers, off })
    }

    // What holds a lever where it stands: a row of the locking table, or a train on a place that locks it.
    fn lock_reply(&self, lever: u32, tracks: &Tracks) -> LeverReply
        requires lever { IsLever (length self.now.ends) lever }
        requires tracks { HasPlacesOf self.now lever tracks.now }
        ensures { result ≡ lock_reply self.now lever tracks.now }
    {
        same_holder();
        if let Some(holder) = self.frame.holder(lever) {
            return LeverReply::HeldByLever {
                lever: holder.lever,
                row: holder.row,
            };
        }
        let lever_plan = &self.levers[lever as usize - 1];
        track_reply(tracks, lever_plan.places.as_slice())
    }

    // What a lever that is to be put back is answered.
    fn put_test(&self, lever: u32, tracks: &Tracks) -> LeverReply
        requires lever { IsLever (length self.now.ends) lever }
        requires tracks { HasPlacesOf self.now lever tracks.now }
        ensures { result ≡ put_reply self.now lever tracks.now }
    {
        if self.frame.end(lever) == End::Normal {
            return LeverReply::AlreadyThere;
        }
        self.lock_reply(lever, tracks)
    }

    /// Reverses a lever that no row holds; its arm, if it has one, goes off. Whether its track circuits are clear is
    /// asked before, by `pull_test`: nothing is tested again.
    pub fn reverse(&mut self, lever: u32)
        requires lever { IsLever (length self.old.ends) lever }
        requires normal { end_at self.old.ends lever ≡ NormalEnd }
        requires used { (plan_at self.old.levers lever).spare ≡ false }
        requires free { holder_of self.old.ends lever self.old.rows ≡ None }
        ensures { self.new ≡ pulled self.old lever }
    {
        same_holder();
        self.frame.throw(lever);
        if self.levers[lever as usize - 1].arm {
            self.off[lever as usize - 1] = true;
        }
    }

    // Puts back a lever that nothing holds, with its arm at danger.
    fn put_back(&mut self, lever: u32)
        requires lever { IsLever (length self.old.ends) lever }
        requires reversed { end_at self.old.ends lever ≡ ReversedEnd }
        requires free { holder_of self.old.ends lever self.old.rows ≡ None }
        ensures { self.new ≡ put_back self.old lever }
    {
        same_holder();
        self.frame.throw(lever);
        self.off[lever as usize - 1] = false;
    }

    /// What `pull_local` would answer. Nothing moves.
    pub fn pull_test(&self, lever: u32, tracks: &Tracks) -> LeverReply
        requires lever { IsLever (length self.now.ends) lever }
        requires tracks { HasPlacesOf self.now lever tracks.now }
        ensures { result ≡ pull_reply self.now lever tracks.now }
    {
        if self.frame.end(lever) == End::Reversed {
            return LeverReply::AlreadyThere;
        }
        if self.levers[lever as usize - 1].spare {
            return LeverReply::Spare;
        }
        self.lock_reply(lever, tracks)
    }

    /// Pulls a lever that nothing holds in its box: it is reversed, and its arm, if it has one, goes off. Where the
    /// answer isn't `Free`, nothing moves.
    pub fn pull_local(&mut self, lever: u32, tracks: &Tracks) -> LeverReply
        requires lever { IsLever (length self.old.ends) lever }
        requires tracks { HasPlacesOf self.old lever tracks.now }
        ensures reply { result ≡ pull_reply self.old lever tracks.now }
        ensures moved { self.new ≡ moved_by result (pulled self.old lever) self.old }
    {
        let reply = self.pull_test(lever, tracks);
        if let LeverReply::Free = reply {
            self.reverse(lever);
        }
        reply
    }

    /// Puts a lever back that nothing holds: it is normal, and its arm at danger. Where the answer isn't `Free`,
    /// nothing moves. A spare lever is always normal.
    pub fn put_local(&mut self, lever: u32, tracks: &Tracks) -> LeverReply
        requires lever { IsLever (length self.old.ends) lever }
        requires tracks { HasPlacesOf self.old lever tracks.now }
        ensures reply { result ≡ put_reply self.old lever tracks.now }
        ensures moved { self.new ≡ moved_by result (put_back self.old lever) self.old }
    {
        let reply = self.put_test(lever, tracks);
        if let LeverReply::Free = reply {
            self.put_back(lever);
        }
        reply
    }

    /// Whether a lever's arm is off.
    pub fn arm_off(&self, lever: u32) -> bool
        requires { IsLever (length self.now.ends) lever }
        ensures { result ≡ is_off self.now.off lever }
    {
        self.off[lever as usize - 1]
    }

    /// Sets a lever's arm to danger, as a train has passed it. The lever stays as it stands.
    pub fn passed(&mut self, lever: u32)
        requires { IsLever (length self.old.ends) lever }
        ensures { self.new ≡ passed self.old lever }
    {
        let arm = &mut self.off[lever as usize - 1];
        *arm = false;
    }

    /// The end at which a lever stands.
    pub fn end(&self, lever: u32) -> End
        requires { IsLever (length self.now.ends) lever }
        ensures { result ≡ end_at self.now.ends lever }
    {
        self.frame.end(lever)
    }

    /// The bridles, those of the rows in order. Every row holds.
    pub fn bridles(&self) -> &[Bridle]
        ensures compiled { result.now ≡ compiled 1 self.now.rows }
        ensures holds { All (RowHolds (at_ends self.now.ends)) self.now.rows }
    {
        seated_where_row_holds();
        self.frame.bridles()
    }
}
