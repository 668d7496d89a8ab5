//! The plan of a box once more.

ghost use Rattle.std.specs.Prelude.{◌≡◌, ◌-◌, ◌<◌, ◌^◌, [], ◌∷◌, ◌++◌, bytes_eq, false, length, option_map, IfOk, OnOk};
ghost use Rattle.std.specs.List.{list_any};
ghost use Rattle.locking_table.specs.Sound.{IsRow};
ghost use Rattle.line_plan.specs.Plans.{no_box};

use crate::berth::Berth;
use crate::box_plan::BoxPlan;
use crate::items::Items;
use crate::label::Label;
use crate::signal::{Signal, TrackLock};
use locking_table::{Row, Table};
use rail_text::{Names, NoMemory};
use std::alloc::Global;

fn copied_label(alloc: Global, label: &Label) -> Result<Label, NoMemory>
    ensures { IfOk result (λ copied. copied ≡ label.now) }
{
    Ok(Label::from_string(String::from_str(alloc, label.as_str())?))
}

// A name more, which is new.
fn push_name(names: &mut Names, name: &str) -> Result<(), NoMemory>
    requires few { length names.old < 2 ^ 32 }
    requires new { list_any (bytes_eq name.now) names.old ≡ false }
    ensures { OnOk result (names.new ≡ names.old ++ name.now ∷ []) }
{
    let _number = names.add(name)?;
    Ok(())
}

/// The same names under the same numbers.
///
/// # Errors
///
/// `NoMemory` where memory runs out.
#[tactic(auto, using(crate::proofs::Copied::name_rules))]
pub fn copied_names(alloc: Global, names: &Names) -> Result<Names, NoMemory>
    ensures { IfOk result (λ copied. copied ≡ names.now) }
{
    let mut copied = Names::new(alloc);
    for number in 0..names.len() {
        push_name(&mut copied, names.name_of(number as u32))?;
    }
    Ok(copied)
}

fn copied_items(alloc: Global, items: &Items<u32>) -> Result<Items<u32>, NoMemory>
    ensures { IfOk result (λ copied. copied ≡ items.now) }
{
    Ok(Items::from_vec(Vec::from_slice(alloc, items.as_slice())?))
}

fn copied_signal(alloc: Global, signal: &Signal) -> Result<Signal, NoMemory>
    ensures { IfOk result (λ copied. copied ≡ signal.now) }
{
    Ok(Signal {
        lever: signal.lever,
        from: signal.from,
        over: copied_items(alloc, &signal.over)?,
        to: signal.to,
    })
}

fn copied_signals(alloc: Global, signals: &[Signal]) -> Result<Items<Signal>, NoMemory>
    ensures { IfOk result (λ copied. copied ≡ signals.now) }
{
    let mut copied = Vec::new(alloc);
    for signal in signals {
        copied.push(copied_signal(alloc, signal)?)?;
    }
    Ok(Items::from_vec(copied))
}

fn copied_berth(alloc: Global, berth: Option<&Berth>) -> Result<Option<Berth>, NoMemory>
    ensures { IfOk result (λ copied. copied ≡ option_map (λ berth. berth.now) berth.entry) }
{
    match berth {
        Some(berth) => Ok(Some(Berth {
            place: berth.place,
            homes: copied_items(alloc, &berth.homes)?,
            clearing: copied_items(alloc, &berth.clearing)?,
            permissive: berth.permissive,
        })),
        None => Ok(None),
    }
}

fn copied_track(alloc: Global, track: &TrackLock) -> Result<TrackLock, NoMemory>
    ensures { IfOk result (λ copied. copied ≡ track.now) }
{
    Ok(TrackLock {
        lever: track.lever,
        places: copied_items(alloc, &track.places)?,
    })
}

fn copied_tracks(alloc: Global, tracks: &[TrackLock]) -> Result<Items<TrackLock>, NoMemory>
    ensures { IfOk result (λ copied. copied ≡ tracks.now) }
{
    let mut copied = Vec::new(alloc);
    for track in tracks {
        copied.push(copied_track(alloc, track)?)?;
    }
    Ok(Items::from_vec(copied))
}

// A row more, which some text spells.
fn push_row(table: &mut Table, row: Row) -> Result<(), NoMemory>
    requires few { length table.old < 2 ^ 32 - 1 }
    requires row { IsRow row }
    ensures { OnOk result (table.new ≡ table.old ++ row ∷ []) }
{
    match table.push(row) {
        Ok(()) => Ok(()),
        Err(_) => Err(NoMemory),
    }
}

fn copied_table(alloc: Global, table: &Table) -> Result<Table, NoMemory>
    ensures { IfOk result (λ copied. copied ≡ table.now) }
{
    let mut copied = Table::new(alloc);
    for row in table.rows() {
        push_row(&mut copied, row.copied())?;
    }
    Ok(copied)
}

// The levers of a box into another, in place of its own.
fn copy_levers(copied: &mut BoxPlan, alloc: Global, here: &BoxPlan) -> Result<(), NoMemory>
    ensures { OnOk result (copied.new ≡ record copied.old { levers = here.now.levers }) }
{
    let levers = Vec::from_slice(alloc, here.levers.as_slice())?;
    let numbers = here.lever_numbers.clone()?;
    copied.levers = Items::from_vec(levers);
    copied.lever_numbers = numbers;
    Ok(())
}

// The signals of a box into another, in place of its own.
fn copy_signals(copied: &mut BoxPlan, alloc: Global, here: &BoxPlan) -> Result<(), NoMemory>
    ensures { OnOk result (copied.new ≡ record copied.old { signals = here.now.signals }) }
{
    let signals = copied_signals(alloc, here.signals.as_slice())?;
    let levers = here.signal_levers.clone()?;
    copied.signals = signals;
    copied.signal_levers = levers;
    Ok(())
}

// The track circuits of a box into another, in place of its own.
fn copy_tracks(copied: &mut BoxPlan, alloc: Global, here: &BoxPlan) -> Result<(), NoMemory>
    ensures { OnOk result (copied.new ≡ record copied.old { tracks = here.now.tracks }) }
{
    let tracks = copied_tracks(alloc, here.tracks.as_slice())?;
    let levers = here.track_levers.clone()?;
    copied.tracks = tracks;
    copied.track_levers = levers;
    Ok(())
}

// All that a box has into one that has its name and nothing else.
fn fill(copied: &mut BoxPlan, alloc: Global, here: &BoxPlan) -> Result<(), NoMemory>
    requires { copied.old ≡ record no_box { name = here.now.name } }
    ensures { OnOk result (copied.new ≡ here.now) }
{
    copied.places = copied_names(alloc, &here.places)?;
    copy_levers(copied, alloc, here)?;
    copy_signals(copied, alloc, here)?;
    copied.berth_up = copied_berth(alloc, here.berth_up.as_ref())?;
    copied.berth_down = copied_berth(alloc, here.berth_down.as_ref())?;
    copy_tracks(copied, alloc, here)?;
    copied.table = copied_table(alloc, &here.table)?;
    Ok(())
}

impl BoxPlan {
    /// The plan of the box once more.
    ///
    /// # Errors
    ///
    /// `NoMemory` where memory runs out.
    pub fn copy(&self, alloc: Global) -> Result<BoxPlan, NoMemory>
        ensures { IfOk result (λ copy. copy ≡ self.now) }
    {
        let mut copied = BoxPlan::new(alloc, copied_label(alloc, &self.name)?);
        match fill(&mut copied, alloc, self) {
            Ok(()) => Ok(copied),
            Err(fault) => {
                drop(copied);
                Err(fault)
            }
        }
    }
}
