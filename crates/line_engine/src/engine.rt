//! An engine: a service, and the text that its last call had to tell.

use line_law::Entry;
use line_plan::Plan;
use line_service::Service;
use plan_text::read_plan;
use rail_text::{NoMemory, ReadError};
use std::alloc::Global;
use std::marker::Model;

/// An engine. Contracts see the plan and the calls made so far, as those of a service, and the text that the last call
/// had to tell.
#[derive(Drop)]
pub struct Engine {
    pub(crate) service: Service,
    pub(crate) text: Vec<u8>,
}

impl Model for Engine {
    ghost use Rattle.line_engine.specs.Engines.{EngineFields};

    ghost Value = { EngineFields };

    ghost view = { λ e. record { service = e.service; text = e.text.items } };
}

impl Engine {
    ghost use Rattle.std.specs.Prelude.{◌≡◌, IfErr, IfOk};
    ghost use Rattle.rail_text.specs.Gives.{GivesText};
    ghost use Rattle.plan_draft.specs.Reading.{plan_of};
    ghost use Rattle.line_engine.specs.Engines.{opened};
    ghost use Rattle.line_service.specs.Answers.{IsAnswer, after_line};

    // The engine of a plan whose line opens.
    fn of_plan(alloc: Global, plan: Plan) -> Result<Engine, NoMemory>
        ensures { IfOk result (λ engine. engine ≡ opened plan) }
    {
        let service = Service::new(alloc, plan)?;
        Ok(Engine {
            service,
            text: Vec::new(alloc),
        })
    }

    /// The line of the plan that a text spells, as it opens; or the line and the cause of the text's first fault.
    pub fn open(alloc: Global, text: &[u8]) -> Result<Engine, ReadError>
        ensures exact { GivesText (λ engine. engine.service.plan) result (plan_of text.now) }
        ensures opened { IfOk result (λ engine. engine ≡ opened engine.service.plan) }
    {
        let plan = read_plan(alloc, text)?;
        Ok(Engine::of_plan(alloc, plan)?)
    }

    /// The plan.
    pub fn plan(&self) -> &Plan
        ensures { result.now ≡ self.now.service.plan }
    {
        self.service.plan()
    }

    /// The calls made so far, with their replies.
    pub fn entries(&self) -> &[Entry]
        ensures { result.now ≡ self.now.service.entries }
    {
        self.service.entries()
    }

    /// The text that the last call had to tell.
    pub fn text(&self) -> &[u8]
        ensures { result.now ≡ self.now.text }
    {
        &self.text
    }

    /// Answers a request of a service, a line of JSON without its end. The answer is the text to tell.
    pub fn request(&mut self, alloc: Global, line: &[u8]) -> Result<(), NoMemory>
        ensures after { IfOk result (λ _. self.new.service ≡ after_line self.old.service line.now) }
        ensures text { IfOk result (λ _. IsAnswer self.old.service line.now self.new.text) }
        ensures kept { IfErr result (λ _. self.new ≡ self.old) }
    {
        let answer = self.service.answer(alloc, line)?;
        self.text = answer.text.into_bytes();
        Ok(())
    }
}
