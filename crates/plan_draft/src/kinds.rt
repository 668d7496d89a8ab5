//! What a line of each kind makes of the plan so far.

ghost use Rattle.std.specs.Prelude.{◌≡◌, OnErr, false, true};
ghost use Rattle.rail_text.specs.Gives.{FaultsFirst, GivesLine, TakesNoMemory};
ghost use Rattle.plan_draft.specs.Drafts.{behind_box, in_box};
ghost use Rattle.line_plan.specs.Plans.{box_at};
ghost use Rattle.plan_draft.specs.Reading.{box_onto, box_with, boxes_onto, brought_in, class_onto, delay_onto};
ghost use Rattle.plan_draft.specs.Reading.{end_onto};
ghost use Rattle.plan_draft.specs.Reading.{here_onto, kind_onto, may_follow, looks_onto, plan_onto, train_in};
ghost use Rattle.plan_draft.specs.Reading.{train_onto};

use crate::box_lines::{
    berth_line, clear_line, is_berth, lever_line, permissive_line, place_line, row_line,
    signal_line, starter_line, track_line,
};
use crate::draft::{PlanDraft, Stage};
use crate::line_words::{code_in, counted, new_name, number_in_names, number_of, word};
use line_plan::{BoxPlan, MOST_LOOKS, most_boxes, most_delay};
use rail_text::{Cause, LineFault, LineWords};
use std::alloc::Global;

// `plan V`: the version, 1 or 2.
#[tactic(auto, unfolding(crate::specs::Reading::plan_onto))]
fn plan_line(draft: &mut PlanDraft, words: &LineWords<'_>) -> Result<(), LineFault>
    requires { in_box draft.old.stage ≡ false }
    ensures gives { GivesLine (λ _. draft.new) result (plan_onto draft.old words.now) }
    ensures memory { TakesNoMemory result }
{
    counted(words, 2, 2)?;
    let version = number_of(word(words, 1), 1, 2)?;
    draft.version = version as u8;
    draft.stage = Stage::Plan;
    Ok(())
}

// `boxes N`: how many boxes follow.
#[tactic(auto, unfolding(crate::specs::Reading::boxes_onto))]
fn boxes_line(draft: &mut PlanDraft, words: &LineWords<'_>) -> Result<(), LineFault>
    requires { in_box draft.old.stage ≡ false }
    ensures gives { GivesLine (λ _. draft.new) result (boxes_onto draft.old words.now) }
    ensures memory { TakesNoMemory result }
{
    counted(words, 2, 2)?;
    draft.count = number_of(word(words, 1), 2, most_boxes(draft.version))?;
    draft.stage = Stage::Boxes;
    Ok(())
}

// `delay D`: how long a winding takes.
#[tactic(auto, unfolding(crate::specs::Reading::delay_onto))]
fn delay_line(draft: &mut PlanDraft, words: &LineWords<'_>) -> Result<(), LineFault>
    requires { in_box draft.old.stage ≡ false }
    ensures gives { GivesLine (λ _. draft.new) result (delay_onto draft.old words.now) }
    ensures memory { TakesNoMemory result }
{
    counted(words, 2, 2)?;
    draft.delay = number_of(word(words, 1), 0, most_delay(draft.version))?;
    draft.stage = Stage::Delay;
    Ok(())
}

// `looks K`: the most looks of an await.
#[tactic(auto, unfolding(crate::specs::Reading::looks_onto))]
fn looks_line(draft: &mut PlanDraft, words: &LineWords<'_>) -> Result<(), LineFault>
    requires { in_box draft.old.stage ≡ false }
    ensures gives { GivesLine (λ _. draft.new) result (looks_onto draft.old words.now) }
    ensures memory { TakesNoMemory result }
{
    counted(words, 2, 2)?;
    draft.looks = number_of(word(words, 1), 1, MOST_LOOKS)?;
    draft.stage = Stage::Looks;
    Ok(())
}

// `class NAME CODE`
#[tactic(auto, unfolding(crate::specs::Reading::class_onto))]
fn class_line(draft: &mut PlanDraft, words: &LineWords<'_>) -> Result<(), LineFault>
    requires { in_box draft.old.stage ≡ false }
    ensures gives { GivesLine (λ _. draft.new) result (class_onto draft.old words.now) }
    ensures memory { FaultsFirst result (class_onto draft.old words.now) }
{
    counted(words, 3, 3)?;
    let name = new_name(&draft.class_names, word(words, 1))?;
    let code = code_in(word(words, 2))?;
    draft.add_class(name, code)
}

// `box NAME`: first whether all announced boxes stand already, then the name.
#[tactic(auto, unfolding(crate::specs::Reading::box_onto))]
fn box_line(draft: &mut PlanDraft, words: &LineWords<'_>) -> Result<(), LineFault>
    ensures gives { GivesLine (λ _. draft.new) result (box_onto draft.old words.now) }
    ensures memory { FaultsFirst result (box_onto draft.old words.now) }
    ensures same { OnErr result (draft.new ≡ draft.old) }
{
    counted(words, 2, 2)?;
    if draft.is_full() {
        return Err(LineFault::Cause(Cause::TooMany));
    }
    let name = new_name(&draft.box_names, word(words, 1))?;
    draft.open_box(name)?;
    Ok(())
}

// A place where a train may be brought: no berth.
#[tactic(auto, unfolding(crate::specs::Reading::brought_in))]
fn brought_in(at: &BoxPlan, word: &[u8]) -> Result<u32, Cause>
    ensures { result ≡ brought_in at.now word.now }
{
    let place = number_in_names(&at.places, word)?;
    if is_berth(at, place) {
        return Err(Cause::BerthEntered);
    }
    Ok(place)
}

// A place of the box with this number where a train may be brought.
#[tactic(auto, using(crate::proofs::Brought::brought_rules))]
fn brought_at(boxes: &[BoxPlan], box_no: u32, word: &[u8]) -> Result<u32, Cause>
    ensures { result ≡ brought_in (box_at boxes.now box_no) word.now }
{
    match boxes.get(box_no as usize) {
        Some(at) => brought_in(at, word),
        None => Err(Cause::UnknownName),
    }
}

// `train NAME CLASS BOX PLACE`, where all boxes are complete.
#[tactic(auto, unfolding(crate::specs::Reading::train_in))]
fn train_in(draft: &mut PlanDraft, words: &LineWords<'_>) -> Result<(), LineFault>
    requires { in_box draft.old.stage ≡ false }
    ensures gives { GivesLine (λ _. draft.new) result (train_in draft.old words.now) }
    ensures memory { FaultsFirst result (train_in draft.old words.now) }
    ensures same { OnErr result (draft.new ≡ draft.old) }
{
    let name = new_name(&draft.train_names, word(words, 1))?;
    let class_no = number_in_names(&draft.class_names, word(words, 2))?;
    let box_no = number_in_names(&draft.box_names, word(words, 3))?;
    let place = brought_at(&draft.boxes, box_no, word(words, 4))?;
    draft.add_train(name, class_no, box_no, place)
}

// `train NAME CLASS BOX PLACE`: first whether all announced boxes stand.
#[tactic(auto, unfolding(crate::specs::Reading::train_onto))]
fn train_line(draft: &mut PlanDraft, words: &LineWords<'_>) -> Result<(), LineFault>
    ensures gives { GivesLine (λ _. draft.new) result (train_onto draft.old words.now) }
    ensures memory { FaultsFirst result (train_onto draft.old words.now) }
{
    counted(words, 5, 5)?;
    if !draft.is_full() {
        return Err(LineFault::Cause(Cause::TooFewBoxes));
    }
    draft.close(Stage::Train);
    train_in(draft, words)
}

// `end`: all announced boxes stand.
#[tactic(auto, unfolding(crate::specs::Reading::end_onto))]
fn end_line(draft: &mut PlanDraft, words: &LineWords<'_>) -> Result<(), LineFault>
    ensures gives { GivesLine (λ _. draft.new) result (end_onto draft.old words.now) }
    ensures memory { TakesNoMemory result }
{
    counted(words, 1, 1)?;
    if !draft.is_full() {
        return Err(LineFault::Cause(Cause::TooFewBoxes));
    }
    draft.close(Stage::Ended);
    Ok(())
}

// What a line of this kind makes of a box, the box with this number of so many.
#[tactic(auto, unfolding(crate::specs::Reading::box_with))]
fn box_with(
    alloc: Global,
    kind: Stage,
    boxes: u32,
    box_no: u32,
    here: &mut BoxPlan,
    words: &LineWords<'_>,
) -> Result<(), LineFault>
    ensures gives { GivesLine (λ _. here.new) result
        (box_with kind boxes box_no here.old words.now) }
    ensures name { here.new.name ≡ here.old.name }
    ensures memory { FaultsFirst result (box_with kind boxes box_no here.old words.now) }
    ensures same { OnErr result (here.new ≡ here.old) }
{
    match kind {
        Stage::Place => place_line(here, words),
        Stage::Lever => lever_line(alloc, here, words),
        Stage::Signal => signal_line(alloc, here, words),
        Stage::Starter => starter_line(alloc, boxes, box_no, here, words),
        Stage::Berth => berth_line(alloc, boxes, box_no, here, words),
        Stage::Clear => clear_line(alloc, here, words),
        Stage::Permissive => permissive_line(here, words),
        Stage::Track => track_line(alloc, here, words),
        Stage::Row => row_line(here, words),
        _ => Err(LineFault::Cause(Cause::WrongKeyword)),
    }
}

// A line of this kind of the box whose lines are being read.
#[tactic(auto, unfolding(crate::specs::Reading::here_onto))]
fn here_line(kind: Stage, draft: &mut PlanDraft, words: &LineWords<'_>) -> Result<(), LineFault>
    requires here { in_box draft.old.stage ≡ true }
    requires kind { in_box kind ≡ true }
    ensures gives { GivesLine (λ _. draft.new) result (here_onto kind draft.old words.now) }
    ensures memory { FaultsFirst result (here_onto kind draft.old words.now) }
{
    let box_no = (draft.box_names.len() - 1) as u32;
    match box_with(
        draft.alloc,
        kind,
        draft.count,
        box_no,
        &mut draft.here,
        words,
    ) {
        Ok(()) => {
            draft.stage = kind;
            Ok(())
        }
        Err(fault) => Err(fault),
    }
}

// The same, where the kind may follow the last line.
#[tactic(auto, using(crate::proofs::Following::behind))]
fn following_line(
    kind: Stage,
    draft: &mut PlanDraft,
    words: &LineWords<'_>,
) -> Result<(), LineFault>
    requires kind { behind_box kind ≡ true }
    requires follows { may_follow kind draft.old.stage ≡ true }
    ensures gives { GivesLine (λ _. draft.new) result (here_onto kind draft.old words.now) }
    ensures memory { FaultsFirst result (here_onto kind draft.old words.now) }
{
    here_line(kind, draft, words)
}

/// What a line of this kind makes of the plan so far.
#[tactic(auto, unfolding(crate::specs::Reading::kind_onto))]
pub fn kind_line(kind: Stage, draft: &mut PlanDraft, words: &LineWords<'_>) -> Result<(), LineFault>
    requires { may_follow kind draft.old.stage ≡ true }
    ensures gives { GivesLine (λ _. draft.new) result (kind_onto kind draft.old words.now) }
    ensures memory { FaultsFirst result (kind_onto kind draft.old words.now) }
{
    match kind {
        Stage::Plan => plan_line(draft, words),
        Stage::Boxes => boxes_line(draft, words),
        Stage::Delay => delay_line(draft, words),
        Stage::Looks => looks_line(draft, words),
        Stage::Class => class_line(draft, words),
        Stage::Box => box_line(draft, words),
        Stage::Train => train_line(draft, words),
        Stage::Ended => end_line(draft, words),
        Stage::Start => Err(LineFault::Cause(Cause::WrongKeyword)),
        Stage::Place
        | Stage::Lever
        | Stage::Signal
        | Stage::Starter
        | Stage::Berth
        | Stage::Clear
        | Stage::Permissive
        | Stage::Track
        | Stage::Row => following_line(kind, draft, words),
    }
}
