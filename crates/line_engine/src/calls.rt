//! Calls of an engine's boxes.

ghost use Rattle.std.specs.Prelude.{◌≡◌, IfOk};
ghost use Rattle.line_engine.specs.Engines.{entry_asked};
ghost use Rattle.line_service.specs.Calls.{MayFollow};

use crate::call_fault::CallFault;
use crate::engine::Engine;
use line_law::{Call, Entry, Reply, knows};
use line_service::{Service, entry_made};
use rail_text::Cause;
use script_text::read_call;
use std::alloc::AllocError;

// The entry of a call as a box would make it now.
#[tactic(auto, using(line_law::proofs::Sides::known_box), unfolding(crate::specs::Engines::entry_asked))]
fn entry_asked(service: &Service, box_no: u32, call: &Call) -> Result<Entry, CallFault>
    ensures exact { result ≡ entry_asked service.now box_no call.now }
    ensures may { IfOk result (λ entry. MayFollow service.now entry) }
{
    if !knows(service.plan(), box_no, call) {
        return Err(CallFault::NotKnown);
    }
    match entry_made(service, box_no, call) {
        Ok(entry) => Ok(entry),
        Err(fault) => Err(CallFault::Fault(fault)),
    }
}

impl Engine {
    ghost use Rattle.std.specs.Prelude.{◌≡◌, ◌<◌, IfErr, IfOk, length};
    ghost use Rattle.line_law.specs.Known.{KnowsCall};
    ghost use Rattle.line_engine.specs.Engines.{IsMade, entry_asked, reply_asked};
    ghost use Rattle.script_text.specs.Calls.{call_of};
    ghost use Rattle.rail_text.specs.Gives.{GivesCause};

    /// The call of a box that a line of its script spells, or why it spells none.
    pub fn call_of(&self, box_no: u32, line: &[u8]) -> Result<Call, Cause>
        requires { box_no < length self.now.service.plan.boxes }
        ensures exact { GivesCause (λ call. call) result (call_of self.now.service.plan box_no line.now) }
        ensures known { IfOk result (λ call. KnowsCall self.now.service.plan box_no call) }
    {
        read_call(self.plan(), box_no, line)
    }

    /// What a call of a box would be answered if it were made now. Nothing is changed.
    pub fn answer(&self, box_no: u32, call: &Call) -> Result<Reply, CallFault>
        ensures { result ≡ reply_asked (entry_asked self.now.service box_no call.now) }
    {
        let entry = entry_asked(&self.service, box_no, call)?;
        Ok(entry.reply)
    }

    /// Makes a call of a box, as a request for it does. Where it isn't made, nothing is changed.
    pub fn perform(&mut self, box_no: u32, call: &Call) -> Result<Entry, CallFault>
        ensures { IsMade self.old box_no call.now self.new result }
    {
        let entry = entry_asked(&self.service, box_no, call)?;
        match self.service.keep(entry) {
            Ok(()) => Ok(entry),
            Err(AllocError) => Err(CallFault::NoMemory),
        }
    }
}
