//! The script as far as its text is read, and which line may come next.

use crate::calls::moment_in;
use crate::reading_acts::read_act;
use crate::script::{MOST_CALLS, Script};
use line_law::Call;
use line_plan::{Items, Plan};
use rail_text::{Cause, Draft, LineFault, LineWords};
use std::alloc::Global;
use std::marker::Model;

/// Which line comes next.
#[derive(Clone, Copy, Debug, PartialEq, Eq)]
pub enum Stage {
    Script,
    Calls,
    Ended,
}

/// What is read so far: the plan and the box for which it is read, the stage, the moment of the last call, and the
/// calls.
#[derive(Drop)]
pub struct ScriptDraft<'a> {
    plan: &'a Plan,
    box_no: u32,
    stage: Stage,
    moment: u32,
    calls: Vec<Call>,
}

impl<'a> Model for ScriptDraft<'a> {
    ghost use Rattle.script_text.specs.Drafts.{DraftFields, IsDraft};

    ghost Value = { DraftFields };

    ghost view = { λ d. record {
      plan = d.plan.now;
      box_no = d.box_no;
      stage = d.stage;
      moment = d.moment;
      calls = d.calls.items;
    } };

    ghost invariant = { λ d. IsDraft
        (record { plan = d.plan.now; box_no = d.box_no; stage = d.stage; moment = d.moment; calls = d.calls.items }) };
}

impl<'a> ScriptDraft<'a> {
    ghost use Rattle.std.specs.Prelude.{◌≡◌, ◌<◌, IsErrOf, length};
    ghost use Rattle.rail_text.specs.Gives.{GivesLine, TakesNoMemory};
    ghost use Rattle.script_text.specs.Drafts.{IsLeft, start};
    ghost use Rattle.script_text.specs.Memory.{RunsOut};
    ghost use Rattle.script_text.specs.Scripts.{script_onto, call_onto, end_onto, stage_onto};

    /// Nothing is read.
    pub fn new(alloc: Global, plan: &'a Plan, box_no: u32) -> ScriptDraft<'a>
        requires { box_no < length plan.now.boxes }
        ensures { result ≡ start plan.now box_no }
    {
        ScriptDraft {
            plan,
            box_no,
            stage: Stage::Script,
            moment: 0,
            calls: Vec::new(alloc),
        }
    }

    /// `script NAME`: the box for which it is read.
    #[tactic(auto, unfolding(crate::specs::Scripts::script_onto))]
    fn script_line(&mut self, words: &LineWords<'_>) -> Result<(), LineFault>
        ensures gives { GivesLine (λ _. self.new) result (script_onto self.old words.now) }
        ensures memory { TakesNoMemory result }
    {
        let name = words.one_word()?;
        let plan = self.plan;
        if name != plan.box_name(self.box_no).as_bytes() {
            return Err(LineFault::Cause(Cause::WrongBox));
        }
        self.stage = Stage::Calls;
        Ok(())
    }

    /// A call more, whose moment isn't below the one before.
    #[tactic(auto, unfolding(crate::specs::Scripts::call_onto))]
    fn call_line(&mut self, words: &LineWords<'_>) -> Result<(), LineFault>
        ensures gives { GivesLine (λ _. self.new) result (call_onto self.old words.now) }
        ensures memory { RunsOut self.old self.new result (call_onto self.old words.now) }
    {
        let plan = self.plan;
        let moment = moment_in(plan.version, words)?;
        if moment < self.moment {
            return Err(LineFault::Cause(Cause::MomentFalls));
        }
        let act = read_act(plan, self.box_no, words)?;
        if self.calls.len() >= MOST_CALLS {
            return Err(LineFault::Cause(Cause::TooMany));
        }
        self.calls.push(Call { moment, act })?;
        self.moment = moment;
        Ok(())
    }

    /// `end`: the script ends.
    #[tactic(auto, unfolding(crate::specs::Scripts::end_onto))]
    fn end_line(&mut self, words: &LineWords<'_>) -> Result<(), LineFault>
        ensures gives { GivesLine (λ _. self.new) result (end_onto self.old words.now) }
        ensures memory { TakesNoMemory result }
    {
        words.no_word()?;
        self.stage = Stage::Ended;
        Ok(())
    }

    /// The words of a line.
    #[tactic(auto, using(crate::proofs::Memory::memory_rules), unfolding(crate::specs::Scripts::stage_onto))]
    fn words_line(&mut self, words: &LineWords<'_>) -> Result<(), LineFault>
        ensures gives { GivesLine (λ _. self.new) result (stage_onto self.old.stage self.old words.now) }
        ensures memory { RunsOut self.old self.new result (stage_onto self.old.stage self.old words.now) }
        ensures left { IsErrOf result LineFault.NoMemory → IsLeft self.old self.new }
    {
        match self.stage {
            Stage::Script if words.keyword() == b"script".as_slice() => self.script_line(words),
            Stage::Script => Err(LineFault::Cause(Cause::WrongKeyword)),
            Stage::Calls if words.keyword() == b"end".as_slice() => self.end_line(words),
            Stage::Calls => self.call_line(words),
            Stage::Ended => Err(LineFault::Cause(Cause::AfterEnd)),
        }
    }

    /// The script.
    pub fn into_script(self) -> Script
        ensures { result ≡ record { box_no = self.entry.box_no; calls = self.entry.calls } }
    {
        Script {
            box_no: self.box_no,
            calls: Items::from_vec(self.calls),
        }
    }
}

impl<'a> Draft for ScriptDraft<'a> {
    ghost use Rattle.script_text.specs.Drafts.{IsLeft};
    ghost use Rattle.script_text.specs.Scripts.{words_onto, has_ended};

    ghost onto = { words_onto };

    ghost ended = { λ draft. has_ended draft.stage };

    ghost left = { IsLeft };

    #[tactic(auto, using(crate::proofs::Memory::faults_first))]
    fn read_words(&mut self, words: &LineWords<'_>) -> Result<(), LineFault> {
        self.words_line(words)
    }

    fn has_ended(&self) -> bool {
        self.stage == Stage::Ended
    }
}
