//! The hours and minutes of a train graph.

ghost use Rattle.std.specs.Prelude.{◌≡◌, ◌++◌, ◌<◌, ◌≤◌, ◌^◌, IfOk, OnOk, string_bytes};
ghost use Rattle.graph_picture.specs.Places.{AreFew};
ghost use Rattle.graph_picture.specs.Rulings.{clock_text, minute_of, minutes_of, names_at, ruled, ruling_class};
ghost use Rattle.graph_picture.specs.Rulings.{ruling_text, rulings_text, time_text, two_figures};

use crate::box_drawing::put_names;
use crate::layout::moment_at;
use graph_scene::Axis;
use line_plan::BoxPlan;
use mark_up::Page;
use picture_shapes::{Point, put_line, put_words};
use std::alloc::{AllocError, Global};
use std::fmt::Write;

// How many moments a minute has.
fn minute_of(version: u8) -> u32
    ensures value { result ≡ minute_of version }
    ensures most { result ≤ 60 }
{
    if version == 1 { 1 } else { 60 }
}

// How many full minutes so many moments are.
fn minutes_of(version: u8, moments: u32) -> u32
    ensures value { result ≡ minutes_of version moments }
    ensures most { result ≤ moments }
{
    if version == 1 { moments } else { moments / 60 }
}

// Puts a number in two figures.
fn put_figures(out: &mut String, number: u32) -> Result<(), AllocError>
    ensures { OnOk result (string_bytes out.new ≡ string_bytes out.old ++ two_figures number) }
{
    let (tens, ones) = (number / 10, number % 10);
    write!(out, "{tens}{ones}")
}

// The hour and the minute of so many minutes of a day.
#[tactic(auto, unfolding(crate::specs::Rulings::clock_text))]
fn clock_text(alloc: Global, minutes: u32) -> Result<String, AllocError>
    ensures { IfOk result (λ text. string_bytes text ≡ clock_text minutes) }
{
    let mut text = String::new(alloc);
    put_figures(&mut text, minutes / 60)?;
    text.push_str(":")?;
    put_figures(&mut text, minutes % 60)?;
    Ok(text)
}

// The class of a minute's line.
fn ruling_class(minutes: u32) -> &'static str
    ensures { result.now ≡ ruling_class minutes }
{
    if minutes % 60 == 0 {
        "hour"
    } else if minutes % 10 == 0 {
        "tens"
    } else {
        "minute"
    }
}

// Puts the time above and below a line, where it is one of ten minutes.
fn put_time(
    page: &mut Page,
    alloc: Global,
    bottom: u64,
    x: u64,
    minutes: u32,
) -> Result<(), AllocError>
    requires { bottom < 2 ^ 50 }
    ensures text { OnOk result (page.new.text ≡ page.old.text ++ time_text bottom x minutes) }
    ensures tags { OnOk result (page.new.open_tags ≡ page.old.open_tags) }
{
    if minutes % 10 == 0 {
        let time = clock_text(alloc, minutes)?;
        put_words(page, "time", Point::new(x, 92), time.as_str())?;
        put_words(page, "time", Point::new(x, bottom + 44), time.as_str())?;
    }
    Ok(())
}

// Rules a minute.
#[tactic(auto, unfolding(crate::specs::Rulings::ruling_text))]
fn put_ruling(
    page: &mut Page,
    alloc: Global,
    bottom: u64,
    x: u64,
    minutes: u32,
) -> Result<(), AllocError>
    requires { bottom < 2 ^ 50 }
    ensures text { OnOk result (page.new.text ≡ page.old.text ++ ruling_text bottom x minutes) }
    ensures tags { OnOk result (page.new.open_tags ≡ page.old.open_tags) }
{
    put_line(
        page,
        ruling_class(minutes),
        Point::new(x, 100),
        Point::new(x, bottom + 28),
    )?;
    put_time(page, alloc, bottom, x, minutes)
}

// Names the boxes once more at a full ten minutes behind the first line.
fn put_names_at(
    page: &mut Page,
    number: u32,
    x: u64,
    minutes: u32,
    boxes: &[BoxPlan],
) -> Result<(), AllocError>
    requires few { AreFew boxes.now }
    requires narrow { x < 2 ^ 62 }
    ensures text { OnOk result (page.new.text ≡ page.old.text ++ names_at number x minutes boxes.now) }
    ensures tags { OnOk result (page.new.open_tags ≡ page.old.open_tags) }
{
    if number == 0 || minutes % 10 != 0 {
        return Ok(());
    }
    put_names(page, x, boxes)
}

/// Rules the minutes of a graph of boxes.
pub fn put_rulings(
    page: &mut Page,
    alloc: Global,
    version: u8,
    boxes: &[BoxPlan],
    bottom: u64,
    axis: &Axis,
) -> Result<(), AllocError>
    requires few { AreFew boxes.now }
    requires low { bottom < 2 ^ 50 }
    ensures text { OnOk result (page.new.text ≡ page.old.text
        ++ rulings_text version boxes.now bottom axis.now (ruled version axis.now)) }
    ensures tags { OnOk result (page.new.open_tags ≡ page.old.open_tags) }
{
    let minute = minute_of(version);
    let first = minutes_of(version, axis.beginning());
    let count = minutes_of(version, axis.ending().saturating_sub(axis.beginning())) + 1;
    let mut moment = axis.beginning();
    for ruled in 0..count {
        let x = moment_at(axis, moment);
        put_ruling(page, alloc, bottom, x, first + ruled)?;
        put_names_at(page, ruled, x, first + ruled, boxes)?;
        moment += minute;
    }
    Ok(())
}
