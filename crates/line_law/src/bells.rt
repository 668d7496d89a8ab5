//! The calls on bells, each in its box's state and on one bell.

ghost use Rattle.std.specs.Prelude.{◌≡◌, ◌<◌, ◌^◌, ℕ};
ghost use Rattle.block_words.specs.declared.Way.{Way};
ghost use Rattle.line_law.specs.declared.state.BoxState.{BoxState};
ghost use Rattle.line_law.specs.Bells.{ring, hear, await_bell};
ghost use Rattle.line_law.specs.Decisions.{OnBell, on_pair};
ghost use Rattle.line_law.specs.Ways.{of_way};

use crate::call::Reply;
use crate::state::{Bell, BoxState, PairState};
use bell_codes::CodeNo;
use block_words::Way;

impl Bell {
    /// What a ring on this bell is answered.
    pub fn ring_reply(self) -> Reply
        requires { self.count < 2 ^ 32 }
        ensures { (here : BoxState) (side : Way) (code : ℕ) → (ring here side code self).reply ≡ result }
    {
        match self.unheard {
            Some(code) => Reply::BellBusy {
                k: self.count,
                code,
            },
            None => Reply::Rung { k: self.count + 1 },
        }
    }

    /// Takes off the code that stands unheard.
    pub fn hear(&mut self) -> Reply
        ensures { (here : BoxState) → hear here self.old ≡ record { reply = result; here = here; word = self.new } }
    {
        match self.unheard.take() {
            Some(code) => Reply::Heard {
                k: self.count,
                code,
            },
            None => Reply::Silent { k: self.count },
        }
    }

    /// Takes off the code that stands unheard, where it is this one.
    pub fn await_code(&mut self, code: CodeNo) -> Reply
        ensures { (here : BoxState)
            → await_bell here code self.old ≡ record { reply = result; here = here; word = self.new } }
    {
        if self.unheard == Some(code) {
            self.unheard = None;
            return Reply::Heard {
                k: self.count,
                code,
            };
        }
        Reply::BellNotYet {
            k: self.count,
            shown: self.unheard,
        }
    }
}

impl BoxState {
    /// Rings a code towards a side.
    pub fn ring(&mut self, pair: &mut PairState, side: Way, code: CodeNo) -> Reply
        requires { (way : Way) → (of_way pair.old.bells way).count < 2 ^ 32 }
        ensures { on_pair side (OnBell (ring self.old side code)) pair.old
            ≡ record { reply = result; here = self.new; word = pair.new } }
    {
        let reply = pair.bells.get(side).ring_reply();
        if let Reply::Rung { k } = reply {
            let bell = Bell {
                count: k,
                unheard: Some(code),
            };
            pair.bells.set(side, bell);
            self.rung.set(side, k);
        }
        reply
    }
}

impl PairState {
    /// Takes off the code that stands unheard on the bell that is rung that way.
    pub fn hear(&mut self, way: Way) -> Reply
        ensures { (here : BoxState)
            → on_pair way (OnBell (hear here)) self.old ≡ record { reply = result; here = here; word = self.new } }
    {
        let mut bell = self.bells.get(way);
        let reply = bell.hear();
        self.bells.set(way, bell);
        reply
    }

    /// Takes off the code that stands unheard on the bell that is rung that way, where it is this one.
    pub fn await_bell(&mut self, way: Way, code: CodeNo) -> Reply
        ensures { (here : BoxState)
            → on_pair way (OnBell (await_bell here code)) self.old
            ≡ record { reply = result; here = here; word = self.new } }
    {
        let mut bell = self.bells.get(way);
        let reply = bell.await_code(code);
        self.bells.set(way, bell);
        reply
    }
}
