//! The lines of a plan's text, read one by one.

ghost use Rattle.std.specs.Prelude.{◌≡◌, map};
ghost use Rattle.plan_draft.specs.Keywords.{row_named};
ghost use Rattle.plan_draft.specs.Reading.{between, line_kind, may_follow};

use crate::draft::{PlanDraft, Stage};
use crate::kinds::kind_line;
use crate::line_words::word;
use rail_text::{Cause, Draft, LineFault, LineWords};

// The kind of line in the first of these rows with this word.
fn row_named(rows: &[(&'static str, Stage)], word: &[u8]) -> Option<Stage>
    ensures { result ≡ row_named (map (λ row. (row.0.now, row.1)) rows.now) word.now }
{
    for row in rows {
        if word == row.0.as_bytes() {
            return Some(row.1);
        }
    }
    None
}

// The kind of line that a keyword begins.
#[tactic(auto, unfolding(crate::specs::Reading::line_kind))]
fn line_kind(word: &[u8]) -> Option<Stage>
    ensures { result ≡ line_kind word.now }
{
    let rows = [
        ("plan", Stage::Plan),
        ("boxes", Stage::Boxes),
        ("delay", Stage::Delay),
        ("looks", Stage::Looks),
        ("class", Stage::Class),
        ("box", Stage::Box),
        ("place", Stage::Place),
        ("lever", Stage::Lever),
        ("signal", Stage::Signal),
        ("starter", Stage::Starter),
        ("berth", Stage::Berth),
        ("clear", Stage::Clear),
        ("permissive", Stage::Permissive),
        ("track", Stage::Track),
        ("row", Stage::Row),
        ("train", Stage::Train),
        ("end", Stage::Ended),
    ];
    row_named(&rows, word)
}

// The last line is of one of the kinds from low to high.
fn between(low: u8, high: u8, last: Stage) -> bool
    ensures { result ≡ between low high last }
{
    let rank = last.rank();
    low <= rank && rank <= high
}

// Whether a line of this kind may follow one of that kind.
#[tactic(auto, unfolding(crate::specs::Reading::may_follow))]
fn may_follow(kind: Stage, last: Stage) -> bool
    ensures { result ≡ may_follow kind last }
{
    match kind {
        Stage::Start => false,
        Stage::Plan => between(0, 0, last),
        Stage::Boxes => between(1, 1, last),
        Stage::Delay => between(2, 2, last),
        Stage::Looks => between(3, 3, last),
        Stage::Class => between(4, 5, last),
        Stage::Box => between(4, 15, last),
        Stage::Place => between(6, 7, last),
        Stage::Lever => between(6, 8, last),
        Stage::Signal => between(6, 9, last),
        Stage::Starter => between(6, 10, last),
        Stage::Berth => between(6, 11, last),
        Stage::Clear => between(6, 12, last),
        Stage::Permissive => between(6, 13, last),
        Stage::Track => between(6, 14, last),
        Stage::Row => between(6, 15, last),
        Stage::Train => between(4, 16, last),
        Stage::Ended => between(4, 16, last),
    }
}

impl PlanDraft {
    ghost use Rattle.rail_text.specs.Gives.{FaultsFirst, GivesLine};
    ghost use Rattle.plan_draft.specs.Reading.{words_onto};

    // The words of a line. Want of memory is told only of a line that has no fault.
    #[tactic(auto, unfolding(crate::specs::Reading::words_onto))]
    fn words_line(&mut self, words: &LineWords<'_>) -> Result<(), LineFault>
        ensures gives { GivesLine (λ _. self.new) result (words_onto self.old words.now) }
        ensures memory { FaultsFirst result (words_onto self.old words.now) }
    {
        if self.stage.is_ended() {
            return Err(LineFault::Cause(Cause::AfterEnd));
        }
        match line_kind(word(words, 0)) {
            Some(kind) if may_follow(kind, self.stage) => kind_line(kind, self, words),
            _ => Err(LineFault::Cause(Cause::WrongKeyword)),
        }
    }
}

impl Draft for PlanDraft {
    ghost use Rattle.plan_draft.specs.Reading.{words_onto, has_ended};

    ghost onto = { words_onto };

    ghost ended = { λ draft. has_ended draft.stage };

    ghost left = { λ _ _. Unit {0} };

    fn read_words(&mut self, words: &LineWords<'_>) -> Result<(), LineFault> {
        self.words_line(words)
    }

    fn has_ended(&self) -> bool {
        self.stage.is_ended()
    }
}
