//! The plan of one box.

ghost use Rattle.std.specs.Prelude.{◌≡◌, ◌==◌, option_map};
ghost use Rattle.std.specs.List.{list_any};
ghost use Rattle.block_words.specs.declared.Way.{Way};
ghost use Rattle.line_plan.specs.Frames.{berth_of, frame_size, kind_of, lever_of, signal_of, starter_of, track_of};

use crate::berth::Berth;
use crate::frame::{Kind, Lever};
use crate::items::Items;
use crate::label::Label;
use crate::numbers::Numbers;
use crate::signal::{Signal, To, TrackLock};
use block_words::Way;
use locking_table::Table;
use rail_text::Names;
use std::marker::Model;

/// A signal box. Contracts see its fields as a `BoxFields`, and that it finds a lever by its number.
#[derive(Drop)]
pub struct BoxPlan {
    /// Its name, which no other box of the plan has.
    pub name: Label,
    /// The names of its places, numbered from 0.
    pub places: Names,
    /// Its levers, their numbers rising.
    pub levers: Items<Lever>,
    /// Its signals, then its starters, each in the order of the text.
    pub signals: Items<Signal>,
    /// The berth of the incoming up line.
    pub berth_up: Option<Berth>,
    /// The berth of the incoming down line.
    pub berth_down: Option<Berth>,
    /// The track circuits that lock levers, in the order of the text.
    pub tracks: Items<TrackLock>,
    /// Its locking table.
    pub table: Table,
    /// The numbers of the levers in the same order, to find a lever by its number.
    pub lever_numbers: Numbers,
    /// The levers of the signals in the same order, to find a signal by its lever.
    pub signal_levers: Numbers,
    /// The levers of the track circuits in the same order, to find them by their lever.
    pub track_levers: Numbers,
}

impl Model for BoxPlan {
    ghost use Rattle.std.specs.Prelude.{◌≡◌, IsTrue, map};
    ghost use Rattle.line_plan.specs.Frames.{BoxFields, are_rising};

    ghost Value = { BoxFields };

    ghost view = { λ b. record {
      name = b.name;
      places = b.places;
      levers = b.levers;
      signals = b.signals;
      berth_up = b.berth_up;
      berth_down = b.berth_down;
      tracks = b.tracks;
      rows = b.table;
    } };

    ghost invariant = { λ b. (b.lever_numbers ≡ map (λ lever. lever.number) b.levers)
        × (b.signal_levers ≡ map (λ signal. signal.lever) b.signals)
        × (b.track_levers ≡ map (λ track. track.lever) b.tracks)
        × IsTrue (are_rising 0 b.levers) };
}

impl BoxPlan {
    /// The lever with this number; none where the frame doesn't have it.
    pub fn lever(&self, number: u32) -> Option<&Lever>
        ensures { option_map (λ lever. lever.now) result ≡ lever_of self.now number }
    {
        match self.lever_numbers.place_of(number) {
            Some(at) => Some(&self.levers.as_slice()[at]),
            None => None,
        }
    }

    /// What a lever works; none where the frame doesn't have it.
    pub fn kind(&self, number: u32) -> Option<Kind>
        ensures { result ≡ kind_of self.now number }
    {
        Some(self.lever(number)?.kind)
    }

    /// The number of the last lever, which is the greatest; 0 without levers.
    pub fn frame_size(&self) -> u32
        ensures { result ≡ frame_size self.now.levers }
    {
        match self.levers.as_slice().last() {
            Some(lever) => lever.number,
            None => 0,
        }
    }

    /// The signal or starter that a lever works.
    pub fn signal(&self, lever: u32) -> Option<&Signal>
        ensures { option_map (λ signal. signal.now) result ≡ signal_of self.now lever }
    {
        match self.signal_levers.place_of(lever) {
            Some(at) => Some(&self.signals.as_slice()[at]),
            None => None,
        }
    }

    /// The starter of an outgoing line. Starters stand last, two at most.
    pub fn starter(&self, way: Way) -> Option<&Signal>
        ensures { option_map (λ signal. signal.now) result ≡ starter_of self.now way }
    {
        self.signals
            .as_slice()
            .iter()
            .find(|signal| signal.to == To::Section(way))
    }

    /// The berth of an incoming line.
    pub fn berth(&self, way: Way) -> Option<&Berth>
        ensures { option_map (λ berth. berth.now) result ≡ berth_of self.now way }
    {
        match way {
            Way::Up => self.berth_up.as_ref(),
            Way::Down => self.berth_down.as_ref(),
        }
    }

    /// The places whose occupation locks a lever.
    pub fn track(&self, lever: u32) -> &[u32]
        ensures { result.now ≡ track_of self.now lever }
    {
        match self.track_levers.place_of(lever) {
            Some(at) => self.tracks.as_slice()[at].places.as_slice(),
            None => &[],
        }
    }

    /// Whether track circuits lock a lever.
    #[tactic(auto, using(crate::proofs::Listed::found_rules))]
    pub fn has_track(&self, lever: u32) -> bool
        ensures { result ≡ list_any (λ track. track.lever == lever) self.now.tracks }
    {
        self.track_levers.place_of(lever).is_some()
    }
}
