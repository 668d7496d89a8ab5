//! A box that grows line by line.

ghost use Rattle.std.specs.Prelude.{◌≡◌, ◌<◌, ◌-◌, ◌^◌, [], ◌∷◌, ◌++◌, length, is_some, false, IfOk, OnOk, OnErr, None};
ghost use Rattle.std.specs.Prelude.{Some, bytes_eq};
ghost use Rattle.locking_table.specs.Sound.{IsRow};
ghost use Rattle.std.specs.List.{list_any};
ghost use Rattle.std.specs.Prelude.{◌==◌};
ghost use Rattle.line_plan.specs.Berths.{cleared, permitted, with_berth};
ghost use Rattle.line_plan.specs.Frames.{frame_size, signal_of};
ghost use Rattle.line_plan.specs.Limits.{most_places, most_rows};
ghost use Rattle.line_plan.specs.Plans.{no_box};

use crate::berth::Berth;
use crate::box_plan::BoxPlan;
use crate::frame::Lever;
use crate::items::Items;
use crate::label::Label;
use crate::numbers::Numbers;
use crate::signal::{Signal, TrackLock};
use block_words::Way;
use locking_table::{Row, Table};
use rail_text::{Names, NoMemory};
use std::alloc::Global;
use std::mem;

// An item more, with its number, which is new.
fn grow<T: Drop>(
    list: &mut Vec<T>,
    numbers: &mut Numbers,
    item: T,
    number: u32,
) -> Result<(), NoMemory>
    requires { list_any (λ n. n == number) numbers.old ≡ false }
    ensures ok { OnOk result
        ((list.new.items ≡ list.old.items ++ item ∷ []) × (numbers.new ≡ numbers.old ++ number ∷ [])) }
    ensures err { OnErr result ((list.new.items ≡ list.old.items) × (numbers.new ≡ numbers.old)) }
{
    list.reserve(1)?;
    numbers.add(number)?;
    list.push_reserved(item);
    Ok(())
}

impl BoxPlan {
    /// A box with a name and nothing else. It takes no memory.
    pub fn new(alloc: Global, name: Label) -> BoxPlan
        ensures { result ≡ record no_box { name = name } }
    {
        BoxPlan {
            name,
            places: Names::new(alloc),
            levers: Items::new(alloc),
            signals: Items::new(alloc),
            berth_up: None,
            berth_down: None,
            tracks: Items::new(alloc),
            table: Table::new(alloc),
            lever_numbers: Numbers::new(alloc),
            signal_levers: Numbers::new(alloc),
            track_levers: Numbers::new(alloc),
        }
    }

    /// A place more, whose name is new.
    pub fn add_place(&mut self, name: &str) -> Result<(), NoMemory>
        requires few { length self.old.places < most_places }
        requires new { list_any (bytes_eq name.now) self.old.places ≡ false }
        ensures ok { OnOk result (self.new ≡ record self.old { places = self.old.places ++ name.now ∷ [] }) }
        ensures err { OnErr result (self.new ≡ self.old) }
    {
        self.places.add(name)?;
        Ok(())
    }

    /// A lever more, whose number is above those of the others.
    #[tactic(auto, using(crate::proofs::Listed::lever_rules))]
    pub fn add_lever(&mut self, alloc: Global, lever: Lever) -> Result<(), NoMemory>
        requires { frame_size self.old.levers < lever.number }
        ensures ok { OnOk result (self.new ≡ record self.old { levers = self.old.levers ++ lever ∷ [] }) }
        ensures err { OnErr result (self.new ≡ self.old) }
    {
        let number = lever.number;
        let mut levers = mem::replace(&mut self.levers, Items::new(alloc)).into_vec();
        let grown = grow(&mut levers, &mut self.lever_numbers, lever, number);
        self.levers = Items::from_vec(levers);
        grown
    }

    /// A signal or starter more, whose lever has none so far.
    #[tactic(auto, using(crate::proofs::Listed::signal_rules))]
    pub fn add_signal(&mut self, alloc: Global, signal: Signal) -> Result<(), NoMemory>
        requires { is_some (signal_of self.old signal.lever) ≡ false }
        ensures ok { OnOk result (self.new ≡ record self.old { signals = self.old.signals ++ signal ∷ [] }) }
        ensures err { OnErr result (self.new ≡ self.old) }
    {
        let lever = signal.lever;
        let mut signals = mem::replace(&mut self.signals, Items::new(alloc)).into_vec();
        let grown = grow(&mut signals, &mut self.signal_levers, signal, lever);
        self.signals = Items::from_vec(signals);
        grown
    }

    /// The berth of a line.
    pub fn set_berth(&mut self, way: Way, berth: Berth)
        ensures { self.new ≡ with_berth self.old way berth }
    {
        match way {
            Way::Up => self.berth_up = Some(berth),
            Way::Down => self.berth_down = Some(berth),
        }
    }

    /// The clearing places of the berth of a line.
    pub fn set_clearing(&mut self, way: Way, clearing: Items<u32>)
        ensures { self.new ≡ cleared self.old way clearing }
    {
        match way {
            Way::Up => {
                if let Some(berth) = &mut self.berth_up {
                    berth.clearing = clearing;
                }
            }
            Way::Down => {
                if let Some(berth) = &mut self.berth_down {
                    berth.clearing = clearing;
                }
            }
        }
    }

    /// How many trains the line of a berth is permissive of.
    pub fn set_permissive(&mut self, way: Way, most: u8)
        ensures { self.new ≡ permitted self.old way most }
    {
        match way {
            Way::Up => {
                if let Some(berth) = &mut self.berth_up {
                    berth.permissive = Some(most);
                }
            }
            Way::Down => {
                if let Some(berth) = &mut self.berth_down {
                    berth.permissive = Some(most);
                }
            }
        }
    }

    /// The track circuits of a lever more, which has none so far.
    #[tactic(auto, using(crate::proofs::Listed::signal_rules))]
    pub fn add_track(&mut self, alloc: Global, track: TrackLock) -> Result<(), NoMemory>
        requires { list_any (λ other. other.lever == track.lever) self.old.tracks ≡ false }
        ensures ok { OnOk result (self.new ≡ record self.old { tracks = self.old.tracks ++ track ∷ [] }) }
        ensures err { OnErr result (self.new ≡ self.old) }
    {
        let lever = track.lever;
        let mut tracks = mem::replace(&mut self.tracks, Items::new(alloc)).into_vec();
        let grown = grow(&mut tracks, &mut self.track_levers, track, lever);
        self.tracks = Items::from_vec(tracks);
        grown
    }

    /// A row more.
    pub fn add_row(&mut self, row: Row) -> Result<(), NoMemory>
        requires few { length self.old.rows < most_rows }
        requires row { IsRow row }
        ensures ok { OnOk result (self.new ≡ record self.old { rows = self.old.rows ++ row ∷ [] }) }
        ensures err { OnErr result (self.new ≡ self.old) }
    {
        match self.table.push(row) {
            Ok(()) => Ok(()),
            Err(_) => Err(NoMemory),
        }
    }
}
