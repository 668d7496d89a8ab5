//! What a picture of a frame shows.

ghost use Rattle.std.specs.Prelude.{◌≡◌, ◌++◌, ◌<◌, ◌^◌, All, IfOk, OnOk, length, map};
ghost use Rattle.frame_chart.specs.Charts.{IsChartOf};
ghost use Rattle.frame_chart.specs.Laying.{chart_of};
ghost use Rattle.frame_chart.specs.Printing.{bridles_of};
ghost use Rattle.frame_chart.specs.Spans.{spans_of};
ghost use Rattle.frame_picture.specs.Scenes.{bar_of, bars_of, dogs_of, laid_dogs, scene_of, scene_with, widened_bar};

use bridle_frame::{Bridle, Dog, Notches};
use frame_chart::{Chart, bridles_of, chart};
use line_plan::{BoxPlan, Items, Lever};
use rail_text::NoMemory;
use std::alloc::Global;

/// The bar of a bridle, in its channel. Rows, channels and levers are numbered from 1.
#[derive(Clone, Copy, Debug, PartialEq, Eq)]
pub struct Bar {
    /// The row of which the bridle is made.
    pub row: u32,
    pub channel: u32,
    /// It lies from this lever ..
    pub lowest: u32,
    /// .. to this one.
    pub highest: u32,
}

/// A dog on a bar, with its notches in the tappet of its lever.
#[derive(Clone, Copy, Debug, PartialEq, Eq)]
pub struct LaidDog {
    pub row: u32,
    pub channel: u32,
    pub lever: u32,
    pub notches: Notches,
}

/// What a picture of a frame shows: its levers, in order; the bar of each bridle, by rows, with its dogs; and how many
/// channels there are.
#[derive(Debug, Drop)]
pub struct Scene {
    pub levers: Items<Lever>,
    pub bars: Items<Bar>,
    pub dogs: Items<LaidDog>,
    pub channels: u32,
}

// The bar once these dogs are added.
fn widened_bar(bar: Bar, dogs: &[Dog]) -> Bar
    ensures { result ≡ widened_bar bar dogs.now }
{
    let mut wide = bar;
    for dog in dogs {
        wide = Bar {
            row: wide.row,
            channel: wide.channel,
            lowest: wide.lowest.min(dog.lever),
            highest: wide.highest.max(dog.lever),
        };
    }
    wide
}

// The bar of a bridle in a channel.
fn bar_of(bridle: &Bridle, channel: u32) -> Bar
    ensures { result ≡ bar_of bridle.now channel }
{
    let row = bridle.row;
    match bridle.dogs.as_slice() {
        [] => Bar {
            row,
            channel,
            lowest: 0,
            highest: 0,
        },
        [first, others @ ..] => {
            let narrow = Bar {
                row,
                channel,
                lowest: first.lever,
                highest: first.lever,
            };
            widened_bar(narrow, others)
        }
    }
}

// The bars of bridles, each in its channel.
fn bars_of(alloc: Global, bridles: &[Bridle], channels: &[u32]) -> Result<Vec<Bar>, NoMemory>
    requires { length channels.now ≡ length bridles.now }
    ensures bars { IfOk result (λ bars. bars.items ≡ bars_of bridles.now channels.now) }
    ensures each { IfOk result (λ bars. length bars.items ≡ length bridles.now) }
{
    let mut bars = Vec::new(alloc);
    for (i, bridle) in bridles.iter().enumerate() {
        bars.push(bar_of(bridle, channels[i]))?;
    }
    Ok(bars)
}

// Lays the dogs of a row's bridle in a channel.
fn lay_dogs(laid: &mut Vec<LaidDog>, row: u32, channel: u32, dogs: &[Dog]) -> Result<(), NoMemory>
    ensures { OnOk result (laid.new.items ≡ laid.old.items ++ laid_dogs row channel dogs.now) }
{
    for dog in dogs {
        laid.push(LaidDog {
            row,
            channel,
            lever: dog.lever,
            notches: dog.notches,
        })?;
    }
    Ok(())
}

// The dogs of bridles, each in the channel of its bridle.
fn dogs_of(alloc: Global, bridles: &[Bridle], channels: &[u32]) -> Result<Vec<LaidDog>, NoMemory>
    requires { length channels.now ≡ length bridles.now }
    ensures { IfOk result (λ dogs. dogs.items ≡ dogs_of bridles.now channels.now) }
{
    let mut laid = Vec::new(alloc);
    for (i, bridle) in bridles.iter().enumerate() {
        lay_dogs(&mut laid, bridle.row, channels[i], bridle.dogs.as_slice())?;
    }
    Ok(laid)
}

// The scene of levers, and of bridles as a chart lays them.
fn scene_with(
    alloc: Global,
    levers: &[Lever],
    bridles: &[Bridle],
    chart: &Chart,
) -> Result<Scene, NoMemory>
    requires { length chart.now.channels ≡ length bridles.now }
    ensures scene { IfOk result (λ scene. scene ≡ scene_with levers.now bridles.now chart.now) }
    ensures each { IfOk result (λ scene. length scene.bars ≡ length bridles.now) }
{
    let channels = chart.channels.as_slice();
    let mut drawn = Vec::new(alloc);
    drawn.extend_from_slice(levers)?;
    let bars = bars_of(alloc, bridles, channels)?;
    let dogs = dogs_of(alloc, bridles, channels)?;
    Ok(Scene {
        levers: Items::from_vec(drawn),
        bars: Items::from_vec(bars),
        dogs: Items::from_vec(dogs),
        channels: chart.count,
    })
}

/// What a picture of a box's frame shows: each lever once, in order; the bridle of each row once, in its channel of the
/// locking chart, which has the fewest; and on each its dogs.
pub fn scene_of(alloc: Global, plan: &BoxPlan) -> Result<Scene, NoMemory>
    ensures scene { IfOk result (λ scene. scene ≡ scene_of plan.now) }
    ensures each { IfOk result (λ scene. length scene.bars ≡ length plan.now.rows) }
    ensures chart { OnOk result (IsChartOf (spans_of (bridles_of plan.now)) (chart_of (bridles_of plan.now))) }
{
    let bridles = bridles_of(alloc, &plan.table)?;
    let chart = chart(alloc, &bridles)?;
    scene_with(alloc, plan.levers.as_slice(), &bridles, &chart)
}
