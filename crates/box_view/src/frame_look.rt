//! The levers and places of a box, as text.

ghost use Rattle.std.specs.Prelude.{◌≡◌, ◌≤◌, ◌^◌, ◌++◌, All, IfSome, IsTrue, OnOk, length, option_map, string_bytes};
ghost use Rattle.line_plan.specs.Plans.{is_train};
ghost use Rattle.box_view.specs.Look.{arm_text, arm_word, end_word, frame_text, last_text, leading_text, lever_line};
ghost use Rattle.box_view.specs.Look.{lever_lines, place_line, starter_text};
ghost use Rattle.box_view.specs.Look.{place_lines, place_name, signal_text, standing_text, works_text};

use crate::words::{put_four, put_three};
use block_words::Way;
use line_law::{BoxState, is_off, is_pulled};
use line_plan::{BoxPlan, Kind, Lever, Plan, Signal, To, kind_word, way_word};
use rail_text::Names;
use script_text::put_number;
use std::alloc::AllocError;

// The name of a place.
#[tactic(auto, using(crate::proofs::Named::name_rules))]
fn place_name(names: &Names, place: u32) -> &str
    ensures { result.now ≡ place_name names.now place }
{
    if (place as usize) < names.len() {
        names.name_of(place)
    } else {
        ""
    }
}

// ---- levers

// Puts a signal that leads from a place to another behind a text.
fn put_leading(out: &mut String, from: &str, to: &str) -> Result<(), AllocError>
    ensures { OnOk result (string_bytes out.new ≡ string_bytes out.old ++ leading_text from.now to.now) }
{
    put_four(out, "signal from ", from, " to ", to)
}

// Puts a starter behind a text.
fn put_starter(out: &mut String, from: &str, way: Way) -> Result<(), AllocError>
    ensures { OnOk result (string_bytes out.new ≡ string_bytes out.old ++ starter_text from.now way) }
{
    put_four(out, "starter of the ", way_word(way), " line from ", from)
}

// Puts a signal that leads off the line behind a text.
fn put_last(out: &mut String, from: &str) -> Result<(), AllocError>
    ensures { OnOk result (string_bytes out.new ≡ string_bytes out.old ++ last_text from.now) }
{
    put_three(out, "signal from ", from, " off the line")
}

// Puts what a signal or starter is behind a text.
fn put_signal(out: &mut String, names: &Names, from: u32, to: To) -> Result<(), AllocError>
    ensures { OnOk result (string_bytes out.new ≡ string_bytes out.old ++ signal_text names.now from to) }
{
    let from = place_name(names, from);
    match to {
        To::Place(place) => put_leading(out, from, place_name(names, place)),
        To::Section(way) => put_starter(out, from, way),
        To::Away => put_last(out, from),
    }
}

// Puts what a lever works behind a text.
fn put_works(
    out: &mut String,
    names: &Names,
    kind: Kind,
    signal: Option<&Signal>,
) -> Result<(), AllocError>
    ensures { OnOk result (string_bytes out.new ≡ string_bytes out.old
        ++ works_text names.now kind (option_map (λ signal. signal.now) signal.entry)) }
{
    match signal {
        Some(signal) => put_signal(out, names, signal.from, signal.to),
        None => out.push_str(kind_word(kind)),
    }
}

// At which end a lever stands.
fn end_word(is_pulled: bool) -> &'static str
    ensures { result.now ≡ end_word is_pulled }
{
    if is_pulled { ", reversed" } else { ", normal" }
}

// How an arm stands.
fn arm_word(is_off: bool) -> &'static str
    ensures { result.now ≡ arm_word is_off }
{
    if is_off { ", arm off" } else { ", arm on" }
}

// How the arm stands of a lever that works one.
fn arm_text(signal: Option<&Signal>, is_off: bool) -> &'static str
    ensures { result.now ≡ arm_text (option_map (λ signal. signal.now) signal.entry) is_off }
{
    match signal {
        Some(_) => arm_word(is_off),
        None => "",
    }
}

// Puts the line of a lever that works this signal, if any, behind a text.
fn put_lever_line(
    out: &mut String,
    names: &Names,
    here: &BoxState,
    lever: Lever,
    signal: Option<&Signal>,
) -> Result<(), AllocError>
    ensures { OnOk result (string_bytes out.new ≡ string_bytes out.old
        ++ lever_line names.now here.now lever (option_map (λ signal. signal.now) signal.entry)) }
{
    let number = lever.number;
    out.push_str("lever ")?;
    put_number(out, u64::from(number))?;
    out.push_str(": ")?;
    put_works(out, names, lever.kind, signal)?;
    out.push_str(end_word(is_pulled(here.ends.as_slice(), number)))?;
    out.push_str(arm_text(signal, is_off(here.off.as_slice(), number)))?;
    out.push('\n')
}

// Puts the lines of levers behind a text.
#[tactic(auto, using(rail_text::proofs::Texts::texts))]
fn put_lever_lines(
    out: &mut String,
    box_plan: &BoxPlan,
    here: &BoxState,
    levers: &[Lever],
) -> Result<(), AllocError>
    ensures { OnOk result (string_bytes out.new
        ≡ string_bytes out.old ++ lever_lines box_plan.now here.now levers.now) }
{
    for lever in levers {
        let signal = box_plan.signal(lever.number);
        put_lever_line(out, &box_plan.places, here, *lever, signal)?;
    }
    Ok(())
}

// ---- places

// Puts what stands at a place behind a text.
fn put_standing(out: &mut String, plan: &Plan, there: Option<u32>) -> Result<(), AllocError>
    requires { IfSome there (λ train. IsTrue (is_train plan.now.trains train)) }
    ensures { OnOk result (string_bytes out.new ≡ string_bytes out.old ++ standing_text plan.now there) }
{
    match there {
        Some(train) => {
            out.push_str("train ")?;
            out.push_str(plan.train(train).name.as_str())
        }
        None => out.push_str("clear"),
    }
}

// Puts the line of a place behind a text.
fn put_place_line(
    out: &mut String,
    plan: &Plan,
    name: &str,
    there: Option<u32>,
) -> Result<(), AllocError>
    requires { IfSome there (λ train. IsTrue (is_train plan.now.trains train)) }
    ensures { OnOk result (string_bytes out.new ≡ string_bytes out.old ++ place_line plan.now name.now there) }
{
    out.push_str("place ")?;
    out.push_str(name)?;
    out.push_str(": ")?;
    put_standing(out, plan, there)?;
    out.push('\n')
}

// Puts the lines of all places behind a text.
fn put_place_lines(
    out: &mut String,
    plan: &Plan,
    names: &Names,
    places: &[Option<u32>],
) -> Result<(), AllocError>
    requires few { length places.now ≤ 2 ^ 32 }
    requires trains { All (λ there. IfSome there (λ train. IsTrue (is_train plan.now.trains train))) places.now }
    ensures { OnOk result (string_bytes out.new
        ≡ string_bytes out.old ++ place_lines plan.now names.now 0 places.now) }
{
    for (at, there) in places.iter().enumerate() {
        put_place_line(out, plan, place_name(names, at as u32), *there)?;
    }
    Ok(())
}

/// Puts the levers and places of a box behind a text.
pub fn put_frame(
    out: &mut String,
    plan: &Plan,
    box_plan: &BoxPlan,
    here: &BoxState,
) -> Result<(), AllocError>
    requires few { length here.now.places ≤ 2 ^ 32 }
    requires trains { All (λ there. IfSome there (λ train. IsTrue (is_train plan.now.trains train)))
        here.now.places }
    ensures { OnOk result (string_bytes out.new
        ≡ string_bytes out.old ++ frame_text plan.now box_plan.now here.now) }
{
    put_lever_lines(out, box_plan, here, box_plan.levers.as_slice())?;
    put_place_lines(out, plan, &box_plan.places, here.places.as_slice())
}
