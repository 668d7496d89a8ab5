//! A chart as it is printed.

ghost use Rattle.std.specs.Prelude.{◌≡◌, ◌++◌, ◌∷◌, ◌<◌, ◌^◌, All, IfOk, OnOk, decimal, length, string_bytes};
ghost use Rattle.std.specs.List.{flat_map};
ghost use Rattle.line_plan.specs.Frames.{frame_size};
ghost use Rattle.locking_table.specs.Places.{most_levers};
ghost use Rattle.locking_table.specs.Sound.{RowFits};
ghost use Rattle.bridle_frame.specs.Seated.{BridleFits};
ghost use Rattle.tappet_compiler.specs.Compiled.{compiled};
ghost use Rattle.frame_chart.specs.Charts.{IsChartOf};
ghost use Rattle.frame_chart.specs.Laying.{chart_of};
ghost use Rattle.frame_chart.specs.Printing.{box_chart_text, bridle_text, bridles_of, bridles_text};
ghost use Rattle.frame_chart.specs.Printing.{channel_text, channels_text, chart_text, column_text, crossed_text};
ghost use Rattle.frame_chart.specs.Printing.{mark_text, span_text};
ghost use Rattle.frame_chart.specs.Spans.{spans_of};

use crate::charting::chart;
use crate::charts::Chart;
use crate::drawing::{Mark, draw_channel, mark_text};
use crate::span::{Span, span_of};
use bridle_frame::Bridle;
use line_plan::BoxPlan;
use locking_table::Table;
use rail_text::NoMemory;
use std::alloc::{AllocError, Global};
use std::fmt::Write;
use tappet_compiler::compile;

#[tactic(auto, unfolding(crate::specs::Printing::span_text))]
fn put_span(out: &mut String, span: Span) -> Result<(), AllocError>
    ensures { OnOk result (string_bytes out.new ≡ string_bytes out.old ++ span_text span) }
{
    let lowest = span.lowest;
    let highest = span.highest;
    write!(out, " from {lowest} to {highest}")
}

// The line of a bridle.
#[tactic(auto, unfolding(crate::specs::Printing::bridle_text))]
fn put_bridle(
    out: &mut String,
    number: usize,
    bridle: &Bridle,
    channel: u32,
) -> Result<(), AllocError>
    ensures { OnOk result (string_bytes out.new ≡ string_bytes out.old ++ bridle_text number bridle.now channel) }
{
    let row = bridle.row;
    write!(out, "bridle {number} row {row} channel {channel}")?;
    put_span(out, span_of(bridle))?;
    out.push_str("\n")
}

// The lines of the bridles.
fn put_bridles(out: &mut String, bridles: &[Bridle], channels: &[u32]) -> Result<(), AllocError>
    requires { length channels.now ≡ length bridles.now }
    ensures { OnOk result
        (string_bytes out.new ≡ string_bytes out.old ++ bridles_text 1 bridles.now channels.now) }
{
    for (i, bridle) in bridles.iter().enumerate() {
        put_bridle(out, i + 1, bridle, channels[i])?;
    }
    Ok(())
}

fn put_marks(out: &mut String, drawing: &[Mark]) -> Result<(), AllocError>
    ensures { OnOk result (string_bytes out.new ≡ string_bytes out.old ++ flat_map mark_text drawing.now) }
{
    for mark in drawing {
        out.push_str(mark_text(*mark))?;
    }
    Ok(())
}

// The line of a channel.
#[tactic(auto, unfolding(crate::specs::Printing::channel_text))]
fn put_channel(
    out: &mut String,
    alloc: Global,
    levers: u32,
    bridles: &[Bridle],
    channels: &[u32],
    channel: u32,
) -> Result<(), AllocError>
    requires { length channels.now ≡ length bridles.now }
    ensures { OnOk result
        (string_bytes out.new ≡ string_bytes out.old ++ channel_text levers bridles.now channels.now channel) }
{
    let mut drawing = vec![in alloc; Mark::Outside; levers as usize]?;
    draw_channel(&mut drawing, channel, bridles, channels);
    write!(out, "channel {channel} ")?;
    put_marks(out, &drawing)?;
    out.push_str("\n")
}

// The lines of the channels from 1 to `count`.
fn put_channels(
    out: &mut String,
    alloc: Global,
    levers: u32,
    bridles: &[Bridle],
    channels: &[u32],
    count: u32,
) -> Result<(), AllocError>
    requires { length channels.now ≡ length bridles.now }
    ensures { OnOk result
        (string_bytes out.new ≡ string_bytes out.old ++ channels_text levers bridles.now channels.now count) }
{
    for before in 0..count {
        put_channel(out, alloc, levers, bridles, channels, before + 1)?;
    }
    Ok(())
}

// Each number behind a space.
fn put_numbers(out: &mut String, numbers: &[u32]) -> Result<(), AllocError>
    ensures { OnOk result
        (string_bytes out.new ≡ string_bytes out.old ++ flat_map (λ number. 32 ∷ decimal number) numbers.now) }
{
    for number in numbers {
        write!(out, " {number}")?;
    }
    Ok(())
}

// The line of a column, with the numbers of the bridles that it crosses.
#[tactic(auto, unfolding(crate::specs::Printing::crossed_text))]
fn put_crossed(out: &mut String, column: u32, crossing: &[u32]) -> Result<(), AllocError>
    ensures { OnOk result (string_bytes out.new ≡ string_bytes out.old ++ crossed_text column crossing.now) }
{
    write!(out, "column {column} crossed")?;
    put_numbers(out, crossing)?;
    out.push_str("\n")
}

// The line of the column, if there is one.
fn put_column(out: &mut String, column: u32, crossing: &[u32]) -> Result<(), AllocError>
    ensures { OnOk result (string_bytes out.new ≡ string_bytes out.old ++ column_text column crossing.now) }
{
    if column == 0 {
        out.push_str("column none\n")
    } else {
        put_crossed(out, column, crossing)
    }
}

// Puts a chart behind a text.
#[tactic(auto, unfolding(crate::specs::Printing::chart_text))]
fn put_chart(
    out: &mut String,
    alloc: Global,
    plan: &BoxPlan,
    bridles: &[Bridle],
    chart: &Chart,
) -> Result<(), AllocError>
    requires { length chart.now.channels ≡ length bridles.now }
    ensures { OnOk result
        (string_bytes out.new ≡ string_bytes out.old ++ chart_text plan.now bridles.now chart.now) }
{
    let channels = chart.channels.as_slice();
    let count = chart.count;
    out.push_str("chart ")?;
    out.push_str(plan.name.as_str())?;
    out.push_str("\n")?;
    write!(out, "channels {count}\n")?;
    put_bridles(out, bridles, channels)?;
    put_channels(out, alloc, plan.frame_size(), bridles, channels, count)?;
    put_column(out, chart.column, chart.crossing.as_slice())
}

/// The chart of a box's bridles as it is printed: each bridle with its row, channel and span, each channel with what it
/// shows at every lever of the frame, and the column with the bridles that it crosses.
pub fn print_chart(
    alloc: Global,
    plan: &BoxPlan,
    bridles: &[Bridle],
    chart: &Chart,
) -> Result<Vec<u8>, NoMemory>
    requires { length chart.now.channels ≡ length bridles.now }
    ensures { IfOk result (λ text. text.items ≡ chart_text plan.now bridles.now chart.now) }
{
    let mut out = String::new(alloc);
    put_chart(&mut out, alloc, plan, bridles, chart)?;
    Ok(out.into_bytes())
}

// A law: a frame of the most levers has each lever that the rows of a table name.
fn table_fits(table: &Table)
    ensures { All (RowFits most_levers) table.now }
{
    let _rows = table.rows();
}

/// The bridles of a locking table: one for each row, in order, which fit a frame of the most levers.
#[tactic(auto, using(crate::proofs::Lengths::length_compiled))]
pub fn bridles_of(alloc: Global, table: &Table) -> Result<Vec<Bridle>, NoMemory>
    ensures bridles { IfOk result (λ bridles. bridles.items ≡ compiled 1 table.now) }
    ensures each { IfOk result (λ bridles. length bridles.items ≡ length table.now) }
    ensures few { IfOk result (λ bridles. length bridles.items < 2 ^ 32) }
    ensures fits { IfOk result (λ bridles. All (BridleFits most_levers) bridles.items) }
{
    table_fits(table);
    match compile(alloc, table) {
        Ok(bridles) => Ok(bridles),
        Err(_) => Err(NoMemory),
    }
}

/// The chart of a box as it is printed: that of the bridles of its locking table.
#[tactic(auto, unfolding(crate::specs::Printing::box_chart_text))]
pub fn print_box_chart(alloc: Global, plan: &BoxPlan) -> Result<Vec<u8>, NoMemory>
    ensures text { IfOk result (λ text. text.items ≡ box_chart_text plan.now) }
    ensures chart { OnOk result (IsChartOf (spans_of (bridles_of plan.now)) (chart_of (bridles_of plan.now))) }
{
    let bridles = bridles_of(alloc, &plan.table)?;
    let chart = chart(alloc, &bridles)?;
    print_chart(alloc, plan, &bridles, &chart)
}
