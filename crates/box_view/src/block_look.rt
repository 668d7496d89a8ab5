//! The bells and lines of a box, as text.

ghost use Rattle.std.specs.Prelude.{◌≡◌, ◌<◌, ◌++◌, IfSome, IsTrue, OnOk, length, nat_lt, string_bytes};
ghost use Rattle.line_law.specs.Known.{knows_outgoing, knows_side};
ghost use Rattle.line_law.specs.Lines.{IsLineOf};
ghost use Rattle.line_plan.specs.Plans.{is_train};
ghost use Rattle.line_plan.specs.Ways.{comes_in};
ghost use Rattle.script_text.specs.Moments.{hundred_hours};
ghost use Rattle.box_view.specs.Look.{bell_line, block_text, code_text, coming_in, coming_text, coming_word};
ghost use Rattle.box_view.specs.Look.{control_text, first_coming, incoming_line, incoming_lines};
ghost use Rattle.box_view.specs.Look.{incoming_text, outgoing_line, permit_text, release_from, release_text};
ghost use Rattle.box_view.specs.Look.{repeater_text};
ghost use Rattle.box_view.specs.Look.{repeated, unheard_from, unheard_text, welwyn_text, welwyn_word, winding_text};

use crate::meaning::put_meaning;
use crate::sides::neighbour_name;
use crate::words::{put_count, put_time, put_two};
use bell_codes::CodeNo;
use block_words::{Position, Way, WelwynState};
use line_law::{
    Control, Incoming, Link, PairState, Passage, Plain, is_code_no, knows_berth, knows_outgoing,
    knows_side,
};
use line_plan::{Plan, way_word};
use reply_sentences::position_name;
use script_text::put_code;
use std::alloc::AllocError;

// ---- bells

// Puts a code with its meaning behind a text.
fn put_code_text(out: &mut String, plan: &Plan, code: CodeNo) -> Result<(), AllocError>
    ensures { OnOk result (string_bytes out.new ≡ string_bytes out.old ++ code_text plan.now code) }
{
    if !is_code_no(plan, code) {
        return out.push_str("an unknown code");
    }
    put_code(out, plan, code)?;
    out.push_str(", ")?;
    put_meaning(out, plan, code)
}

// Puts the code that stands unheard on a bell, if one does, behind a text.
fn put_unheard(out: &mut String, plan: &Plan, unheard: Option<CodeNo>) -> Result<(), AllocError>
    ensures { OnOk result (string_bytes out.new ≡ string_bytes out.old ++ unheard_text plan.now unheard) }
{
    match unheard {
        Some(code) => put_code_text(out, plan, code),
        None => out.push_str("silent"),
    }
}

/// What stands unheard on the bell from a side.
pub fn unheard_from(plan: &Plan, line: &Plain, box_no: u32, side: Way) -> Option<CodeNo>
    requires line { IsLineOf plan.now line.now }
    requires side { IsTrue (knows_side plan.now box_no side) }
    ensures { result ≡ unheard_from line.now.line box_no side }
{
    plan.meets_conditions();
    let way = side.opposite();
    let pair = &line.pairs()[Link::In(way).pair_no(box_no as usize)];
    pair.bells.get(way).unheard
}

// Puts the line of the bell from a side behind a text, where there is a neighbour.
fn put_bell(
    out: &mut String,
    plan: &Plan,
    line: &Plain,
    box_no: u32,
    side: Way,
) -> Result<(), AllocError>
    requires line { IsLineOf plan.now line.now }
    ensures { OnOk result (string_bytes out.new
        ≡ string_bytes out.old ++ bell_line plan.now line.now.line box_no side) }
{
    if !knows_side(plan, box_no, side) {
        return Ok(());
    }
    out.push_str("bell from ")?;
    out.push_str(neighbour_name(plan, box_no, side))?;
    out.push_str(": ")?;
    put_unheard(out, plan, unheard_from(plan, line, box_no, side))?;
    out.push('\n')
}

// ---- lines that come in

// How far Welwyn control has come.
fn welwyn_word(state: WelwynState) -> &'static str
    ensures { result.now ≡ welwyn_word state }
{
    match state {
        WelwynState::Ready => "ready",
        WelwynState::Given => "given",
        WelwynState::Berthed => "berthed",
    }
}

// Puts how far Welwyn control has come behind a text.
fn put_welwyn(out: &mut String, state: WelwynState) -> Result<(), AllocError>
    ensures { OnOk result (string_bytes out.new ≡ string_bytes out.old ++ welwyn_text state) }
{
    put_two(out, ", Welwyn control ", welwyn_word(state))
}

// Puts how many trains are out on a permissive line behind a text.
fn put_permit(out: &mut String, trains: u8) -> Result<(), AllocError>
    ensures { OnOk result (string_bytes out.new ≡ string_bytes out.old ++ permit_text trains) }
{
    put_count(out, ", trains out: ", u64::from(trains))
}

// Puts what holds the commutator back behind a text.
fn put_control(out: &mut String, control: Control) -> Result<(), AllocError>
    ensures { OnOk result (string_bytes out.new ≡ string_bytes out.old ++ control_text control) }
{
    match control {
        Control::Absolute(state) => put_welwyn(out, state),
        Control::Permissive(trains) => put_permit(out, trains),
    }
}

// Whether a moment has two digits for the hours.
fn is_short(version: u8, moment: u32) -> bool
    ensures { result ≡ nat_lt moment (hundred_hours version) }
{
    moment < if version == 1 { 6000 } else { 360_000 }
}

// Puts this moment of a release behind a text.
fn put_release_from(out: &mut String, version: u8, ready: u32) -> Result<(), AllocError>
    requires { ready < hundred_hours version }
    ensures { OnOk result (string_bytes out.new ≡ string_bytes out.old ++ release_from version ready) }
{
    put_time(out, ", release from ", version, ready)
}

// Puts from when on a winding lets the release come behind a text.
fn put_release(out: &mut String, version: u8, ready: u32) -> Result<(), AllocError>
    ensures { OnOk result (string_bytes out.new ≡ string_bytes out.old ++ release_text version ready) }
{
    if is_short(version, ready) {
        put_release_from(out, version, ready)
    } else {
        out.push_str(", winding")
    }
}

// Puts the same behind a text, where there is a winding.
fn put_winding(out: &mut String, version: u8, ready_at: Option<u32>) -> Result<(), AllocError>
    ensures { OnOk result (string_bytes out.new ≡ string_bytes out.old ++ winding_text version ready_at) }
{
    match ready_at {
        Some(ready) => put_release(out, version, ready),
        None => Ok(()),
    }
}

// Puts what the box has of a line that comes in behind a text.
fn put_incoming(out: &mut String, plan: &Plan, incoming: Incoming) -> Result<(), AllocError>
    ensures { OnOk result (string_bytes out.new ≡ string_bytes out.old ++ incoming_text plan.now incoming) }
{
    out.push_str(position_name(incoming.position))?;
    put_control(out, incoming.control)?;
    put_winding(out, plan.version, incoming.ready_at)
}

// What the first train of a plain line does: it comes, or a portion of it is left.
fn coming_word(portion: Option<u32>) -> &'static str
    ensures { result.now ≡ coming_word portion }
{
    match portion {
        Some(_) => "  left in the section: a portion of train ",
        None => "  approaching: train ",
    }
}

// Puts the line of the first train of a plain line behind a text, if there is one.
fn put_coming(
    out: &mut String,
    plan: &Plan,
    portion: Option<u32>,
    first: Option<Passage>,
) -> Result<(), AllocError>
    requires { IfSome first (λ passage. IsTrue (is_train plan.now.trains passage.train)) }
    ensures { OnOk result (string_bytes out.new ≡ string_bytes out.old ++ coming_text plan.now portion first) }
{
    match first {
        Some(passage) => {
            out.push_str(coming_word(portion))?;
            out.push_str(plan.train(passage.train).name.as_str())?;
            out.push('\n')
        }
        None => Ok(()),
    }
}

/// The first train on the plain line of a line that comes in.
#[tactic(auto, using(crate::proofs::Coming::coming_known))]
pub fn first_coming(plan: &Plan, line: &Plain, box_no: u32, way: Way) -> Option<Passage>
    requires line { IsLineOf plan.now line.now }
    requires comes { IsTrue (comes_in (length plan.now.boxes) box_no way) }
    ensures first { result ≡ first_coming line.now.line box_no way }
    ensures known { IfSome result (λ passage. IsTrue (is_train plan.now.trains passage.train)) }
{
    plan.meets_conditions();
    let pair = &line.pairs()[Link::In(way).pair_no(box_no as usize)];
    pair.plain_line(way).first()
}

// Puts the line of a line that comes in from a box of this name behind a text.
fn put_incoming_line(
    out: &mut String,
    plan: &Plan,
    way: Way,
    name: &str,
    incoming: Incoming,
) -> Result<(), AllocError>
    ensures { OnOk result (string_bytes out.new
        ≡ string_bytes out.old ++ incoming_line plan.now way name.now incoming) }
{
    out.push_str(way_word(way))?;
    out.push_str(" line from ")?;
    out.push_str(name)?;
    out.push_str(": ")?;
    put_incoming(out, plan, incoming)?;
    out.push('\n')
}

// Puts the lines of a line that comes in from a box of this name behind a text.
fn put_coming_in(
    out: &mut String,
    plan: &Plan,
    way: Way,
    name: &str,
    incoming: Incoming,
    first: Option<Passage>,
) -> Result<(), AllocError>
    requires { IfSome first (λ passage. IsTrue (is_train plan.now.trains passage.train)) }
    ensures { OnOk result (string_bytes out.new
        ≡ string_bytes out.old ++ coming_in plan.now way name.now incoming first) }
{
    put_incoming_line(out, plan, way, name, incoming)?;
    put_coming(out, plan, incoming.portion, first)
}

// Puts the lines of a line that comes in, where it has a berth here, behind a text.
fn put_incoming_lines(
    out: &mut String,
    plan: &Plan,
    line: &Plain,
    box_no: u32,
    way: Way,
) -> Result<(), AllocError>
    requires line { IsLineOf plan.now line.now }
    requires at { box_no < length plan.now.boxes }
    ensures { OnOk result (string_bytes out.new
        ≡ string_bytes out.old ++ incoming_lines plan.now line.now.line box_no way) }
{
    if !knows_berth(plan, box_no, way) {
        return Ok(());
    }
    let incoming = line.boxes()[box_no as usize].incoming.get(way);
    let name = neighbour_name(plan, box_no, way.opposite());
    let first = first_coming(plan, line, box_no, way);
    put_coming_in(out, plan, way, name, incoming, first)
}

// ---- lines that leave

// What the repeater shows of a line that leaves.
fn repeated(plan: &Plan, line: &Plain, box_no: u32, way: Way) -> Position
    requires line { IsLineOf plan.now line.now }
    requires leaves { IsTrue (knows_outgoing plan.now box_no way) }
    ensures { result ≡ repeated line.now.line box_no way }
{
    plan.meets_conditions();
    let pair = &line.pairs()[Link::Out(way).pair_no(box_no as usize)];
    pair.blocks.get(way).position
}

// Puts the line of a line that leaves to a box of this name behind a text.
fn put_repeater(
    out: &mut String,
    way: Way,
    name: &str,
    position: Position,
) -> Result<(), AllocError>
    ensures { OnOk result (string_bytes out.new ≡ string_bytes out.old ++ repeater_text way name.now position) }
{
    out.push_str(way_word(way))?;
    out.push_str(" line to ")?;
    out.push_str(name)?;
    out.push_str(": the repeater shows ")?;
    out.push_str(position_name(position))?;
    out.push('\n')
}

// Puts the line of a line that leaves to a neighbour behind a text.
fn put_outgoing(
    out: &mut String,
    plan: &Plan,
    line: &Plain,
    box_no: u32,
    way: Way,
) -> Result<(), AllocError>
    requires line { IsLineOf plan.now line.now }
    ensures { OnOk result (string_bytes out.new
        ≡ string_bytes out.old ++ outgoing_line plan.now line.now.line box_no way) }
{
    if !knows_outgoing(plan, box_no, way) {
        return Ok(());
    }
    let name = neighbour_name(plan, box_no, way);
    put_repeater(out, way, name, repeated(plan, line, box_no, way))
}

/// Puts the bells and lines of a box behind a text.
pub fn put_block(out: &mut String, plan: &Plan, line: &Plain, box_no: u32) -> Result<(), AllocError>
    requires line { IsLineOf plan.now line.now }
    requires at { box_no < length plan.now.boxes }
    ensures { OnOk result (string_bytes out.new ≡ string_bytes out.old ++ block_text plan.now line.now.line box_no) }
{
    put_bell(out, plan, line, box_no, Way::Up)?;
    put_bell(out, plan, line, box_no, Way::Down)?;
    put_incoming_lines(out, plan, line, box_no, Way::Up)?;
    put_incoming_lines(out, plan, line, box_no, Way::Down)?;
    put_outgoing(out, plan, line, box_no, Way::Up)?;
    put_outgoing(out, plan, line, box_no, Way::Down)
}
