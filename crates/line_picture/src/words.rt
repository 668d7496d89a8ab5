//! The words of a picture.

ghost use Rattle.std.specs.Prelude.{◌≡◌, ◌++◌, [], IfOk, OnOk, slice_index_or, string_bytes};
ghost use Rattle.line_plan.specs.Plans.{box_name};
ghost use Rattle.line_plan.specs.Sections.{next_box};
ghost use Rattle.line_picture.specs.Words.{after_words, arm_name, arm_word, arm_words, bell_words, code_text, end_word};
ghost use Rattle.line_picture.specs.Words.{instrument_words, lever_words, on_line_words, picture_name, place_name};
ghost use Rattle.line_picture.specs.Words.{place_words, portion_word, route_text, section_words, shown_word};
ghost use Rattle.line_picture.specs.Words.{standing_text, train_name, train_words};

use bell_codes::CodeNo;
use block_words::{Position, Way};
use line_law::is_code_no;
use line_plan::{Kind, Plan, To, kind_word, way_word};
use rail_text::Names;
use script_text::put_code;
use std::alloc::{AllocError, Global};
use std::fmt::Write;

// ---- names

// The name of a box; nothing of one that the line doesn't have.
#[tactic(auto, using(line_plan::proofs::Named::name_at))]
fn name_of_box(plan: &Plan, box_no: usize) -> &str
    ensures { result.now ≡ box_name plan.now box_no }
{
    if box_no < plan.boxes.len() {
        let box_plan = &plan.boxes.as_slice()[box_no];
        box_plan.name.as_str()
    } else {
        ""
    }
}

// The name of a place of these names; nothing of another.
#[tactic(auto, using(crate::proofs::Named::name_rules))]
fn name_in(names: &Names, place: u32) -> &str
    ensures { result.now ≡ slice_index_or names.now place [] }
{
    if (place as usize) < names.len() {
        names.name_of(place)
    } else {
        ""
    }
}

/// The name of a place of a box; nothing of another.
#[tactic(auto, using(crate::proofs::Named::name_rules, crate::proofs::Named::no_place))]
pub fn place_name(plan: &Plan, box_no: u32, place: u32) -> &str
    ensures { result.now ≡ place_name plan.now box_no place }
{
    match plan.boxes.as_slice().get(box_no as usize) {
        Some(box_plan) => name_in(&box_plan.places, place),
        None => "",
    }
}

/// The name of a train of the plan; nothing of another.
pub fn train_name(plan: &Plan, train: u32) -> &str
    ensures { result.now ≡ train_name plan.now train }
{
    if plan.is_train(train) {
        plan.train(train).name.as_str()
    } else {
        ""
    }
}

// The box to which a line leads.
fn next_box(rear: u32, way: Way) -> usize
    ensures { result ≡ next_box rear way }
{
    match way {
        Way::Up => rear.saturating_sub(1) as usize,
        Way::Down => rear as usize + 1,
    }
}

/// What an instrument shows, in words.
pub fn shown_word(position: Position) -> &'static str
    ensures { result.now ≡ shown_word position }
{
    match position {
        Position::Normal => "Normal",
        Position::LineClear => "Line Clear",
        Position::TrainOnLine => "Train on Line",
    }
}

// ---- what is told of a box

// Puts what stands at a place behind a text.
fn put_standing(out: &mut String, plan: &Plan, train: Option<u32>) -> Result<(), AllocError>
    ensures { OnOk result (string_bytes out.new ≡ string_bytes out.old ++ standing_text plan.now train) }
{
    match train {
        Some(train) => {
            out.push_str("train ")?;
            out.push_str(train_name(plan, train))
        }
        None => out.push_str("clear"),
    }
}

/// A place of a box, with what stands there.
#[tactic(auto, unfolding(crate::specs::Words::place_words))]
pub fn place_words(
    alloc: Global,
    plan: &Plan,
    box_no: u32,
    place: u32,
    train: Option<u32>,
) -> Result<String, AllocError>
    ensures { IfOk result (λ text. string_bytes text ≡ place_words plan.now box_no place train) }
{
    let mut text = String::new(alloc);
    text.push_str(name_of_box(plan, box_no as usize))?;
    text.push_str(", ")?;
    text.push_str(place_name(plan, box_no, place))?;
    text.push_str(": ")?;
    put_standing(&mut text, plan, train)?;
    Ok(text)
}

// Puts where a signal of a box leads behind a text.
fn put_route(out: &mut String, plan: &Plan, box_no: u32, to: To) -> Result<(), AllocError>
    ensures { OnOk result (string_bytes out.new ≡ string_bytes out.old ++ route_text plan.now box_no to) }
{
    match to {
        To::Place(place) => {
            out.push_str(" to ")?;
            out.push_str(place_name(plan, box_no, place))
        }
        To::Section(way) => {
            out.push_str(" starter, ")?;
            out.push_str(way_word(way))
        }
        To::Away => out.push_str(" away"),
    }
}

// How an arm stands.
fn arm_word(is_off: bool) -> &'static str
    ensures { result.now ≡ arm_word is_off }
{
    if is_off { ": off" } else { ": on" }
}

/// A signal of a box by its lever, with where it leads and how its arm stands.
#[tactic(auto, unfolding(crate::specs::Words::arm_words))]
pub fn arm_words(
    alloc: Global,
    plan: &Plan,
    box_no: u32,
    lever: u32,
    to: To,
    is_off: bool,
) -> Result<String, AllocError>
    ensures { IfOk result (λ text. string_bytes text ≡ arm_words plan.now box_no lever to is_off) }
{
    let mut text = String::new(alloc);
    write!(text, "{lever}")?;
    put_route(&mut text, plan, box_no, to)?;
    text.push_str(arm_word(is_off))?;
    Ok(text)
}

/// The same with the name of the box.
#[tactic(auto, unfolding(crate::specs::Words::arm_name))]
pub fn arm_name(alloc: Global, plan: &Plan, box_no: u32, words: &str) -> Result<String, AllocError>
    ensures { IfOk result (λ text. string_bytes text ≡ arm_name plan.now box_no words.now) }
{
    let mut text = String::new(alloc);
    text.push_str(name_of_box(plan, box_no as usize))?;
    text.push_str(", signal ")?;
    text.push_str(words)?;
    Ok(text)
}

// At which end a lever stands.
fn end_word(is_reversed: bool) -> &'static str
    ensures { result.now ≡ end_word is_reversed }
{
    if is_reversed {
        ": reversed"
    } else {
        ": normal"
    }
}

/// A lever of a box, with what it is and at which end it stands.
#[tactic(auto, unfolding(crate::specs::Words::lever_words))]
pub fn lever_words(
    alloc: Global,
    plan: &Plan,
    box_no: u32,
    number: u32,
    kind: Kind,
    is_reversed: bool,
) -> Result<String, AllocError>
    ensures { IfOk result (λ text. string_bytes text ≡ lever_words plan.now box_no number kind is_reversed) }
{
    let mut text = String::new(alloc);
    text.push_str(name_of_box(plan, box_no as usize))?;
    write!(text, ", lever {number}, ")?;
    text.push_str(kind_word(kind))?;
    text.push_str(end_word(is_reversed))?;
    Ok(text)
}

// ---- what is told of a section

/// The section of a line from a box in its rear.
#[tactic(auto, unfolding(crate::specs::Words::section_words))]
pub fn section_words(alloc: Global, plan: &Plan, rear: u32, way: Way) -> Result<String, AllocError>
    ensures { IfOk result (λ text. string_bytes text ≡ section_words plan.now rear way) }
{
    let mut text = String::new(alloc);
    text.push_str(way_word(way))?;
    text.push_str(" line, ")?;
    text.push_str(name_of_box(plan, rear as usize))?;
    text.push_str(" to ")?;
    text.push_str(name_of_box(plan, next_box(rear, way)))?;
    Ok(text)
}

/// The same with what its instrument shows.
#[tactic(auto, unfolding(crate::specs::Words::instrument_words))]
pub fn instrument_words(
    alloc: Global,
    plan: &Plan,
    rear: u32,
    way: Way,
    position: Position,
) -> Result<String, AllocError>
    ensures { IfOk result (λ text. string_bytes text ≡ instrument_words plan.now rear way position) }
{
    let mut text = section_words(alloc, plan, rear, way)?;
    text.push_str(": ")?;
    text.push_str(shown_word(position))?;
    Ok(text)
}

// Puts a code of the plan's code table behind a text.
fn put_code_text(out: &mut String, plan: &Plan, code: CodeNo) -> Result<(), AllocError>
    ensures { OnOk result (string_bytes out.new ≡ string_bytes out.old ++ code_text plan.now code) }
{
    if is_code_no(plan, code) {
        put_code(out, plan, code)
    } else {
        Ok(())
    }
}

/// The bell of a section's box in advance, with the code that stands unheard on it.
#[tactic(auto, unfolding(crate::specs::Words::bell_words))]
pub fn bell_words(
    alloc: Global,
    plan: &Plan,
    rear: u32,
    way: Way,
    code: CodeNo,
) -> Result<String, AllocError>
    ensures { IfOk result (λ text. string_bytes text ≡ bell_words plan.now rear way code) }
{
    let mut text = String::new(alloc);
    text.push_str("bell at ")?;
    text.push_str(name_of_box(plan, next_box(rear, way)))?;
    text.push_str(": ")?;
    put_code_text(&mut text, plan, code)?;
    Ok(text)
}

// What stands before a train's name, where only a portion of it is there.
fn portion_word(is_portion: bool) -> &'static str
    ensures { result.now ≡ portion_word is_portion }
{
    if is_portion { "portion of " } else { "" }
}

/// A train on a plain line, or a portion of it.
pub fn train_words(
    alloc: Global,
    plan: &Plan,
    train: u32,
    is_portion: bool,
) -> Result<String, AllocError>
    ensures { IfOk result (λ text. string_bytes text ≡ train_words plan.now train is_portion) }
{
    let mut text = String::new(alloc);
    text.push_str(portion_word(is_portion))?;
    text.push_str(train_name(plan, train))?;
    Ok(text)
}

/// The same with the section.
#[tactic(auto, unfolding(crate::specs::Words::on_line_words))]
pub fn on_line_words(
    alloc: Global,
    plan: &Plan,
    rear: u32,
    way: Way,
    words: &str,
) -> Result<String, AllocError>
    ensures { IfOk result (λ text. string_bytes text ≡ on_line_words plan.now rear way words.now) }
{
    let mut text = section_words(alloc, plan, rear, way)?;
    text.push_str(": train ")?;
    text.push_str(words)?;
    Ok(text)
}

// ---- the picture

/// The name of a picture of the line, whose last box is this one.
#[tactic(auto, unfolding(crate::specs::Words::picture_name))]
pub fn picture_name(alloc: Global, plan: &Plan, last: u32) -> Result<String, AllocError>
    ensures { IfOk result (λ text. string_bytes text ≡ picture_name plan.now last) }
{
    let mut text = String::new(alloc);
    text.push_str("The line from ")?;
    text.push_str(name_of_box(plan, 0))?;
    text.push_str(" to ")?;
    text.push_str(name_of_box(plan, last as usize))?;
    Ok(text)
}

/// When it is so.
pub fn after_words(alloc: Global, entries: u32) -> Result<String, AllocError>
    ensures { IfOk result (λ text. string_bytes text ≡ after_words entries) }
{
    format!(in alloc; "after entry {entries}")
}
