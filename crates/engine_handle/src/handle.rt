//! A handle that C may keep: open with an engine, or closed.
ghost use Rattle.std.specs.Prelude.{◌≡◌, Some, None, is_some, is_ok, if◌then◌else◌, MatchOption};
ghost use Rattle.engine_handle.specs.Slot.{count_of};

use crate::slot::Slot;
use line_engine::Engine;
use std::alloc::{AllocError, Global};
use std::mem;

/// A slot that tells how many engines it holds: 1 where it is open, and 0 where it is closed.
#[repr(C)]
pub struct Handle {
    count: u32,
    alloc: Global,
    pub slot: Slot,
    ghost counted: { count ≡ count_of slot.held },
}

impl Handle {
    /// A closed handle.
    pub fn closed(alloc: Global) -> Handle
        ensures { result.slot.held ≡ None }
    {
        Handle {
            count: 0,
            alloc,
            slot: Slot::empty(alloc),
        }
    }

    /// An open handle with the engine of this box. Nothing is allocated.
    pub fn holding(alloc: Global, engine: Box<Engine>) -> Handle
        ensures { result.slot.held ≡ Some engine.value }
    {
        Handle {
            count: 1,
            alloc,
            slot: Slot::of(engine),
        }
    }

    /// Whether there is an engine.
    pub fn is_open(&self) -> bool
        ensures { result ≡ is_some self.now.slot.held }
    {
        self.count == 1
    }

    /// The box of the engine, if there is one.
    pub fn into_box(self) -> Option<Box<Engine>>
        ensures { MatchOption result (self.slot.held ≡ None) (λ b. self.slot.held ≡ Some b.value) }
    {
        let Handle {
            count,
            alloc: _,
            slot,
        } = self;
        if count == 1 {
            Some(slot.into_box())
        } else {
            slot.let_go();
            None
        }
    }

    /// Takes the box of the engine out, if there is one, and leaves the handle closed. Nothing is allocated.
    pub fn take(&mut self) -> Option<Box<Engine>>
        ensures left { self.new.slot.held ≡ None }
        ensures taken { MatchOption result (self.old.slot.held ≡ None) (λ b. self.old.slot.held ≡ Some b.value) }
    {
        let alloc = self.alloc;
        mem::replace(self, Handle::closed(alloc)).into_box()
    }

    /// Puts the box of an engine back. Nothing is allocated.
    pub fn hold(&mut self, engine: Box<Engine>)
        requires { self.old.slot.held ≡ None }
        ensures { self.new.slot.held ≡ Some engine.value }
    {
        let alloc = self.alloc;
        mem::replace(self, Handle::holding(alloc, engine)).let_go();
    }

    /// Puts an engine into a closed handle, or leaves it closed where memory is out.
    pub fn put(&mut self, engine: Engine) -> Result<(), AllocError>
        requires { self.old.slot.held ≡ None }
        ensures { self.new.slot.held ≡ (if is_ok result then Some engine else None) }
    {
        match Box::new(self.alloc, engine) {
            Ok(engine) => {
                self.hold(engine);
                Ok(())
            }
            Err(_) => Err(AllocError),
        }
    }

    /// Closes the handle, and frees what it held.
    pub fn close(&mut self)
        ensures { self.new.slot.held ≡ None }
    {
        drop(self.take());
    }

    // Lets a closed handle go.
    fn let_go(self)
        requires { self.slot.held ≡ None }
    {
        let Handle {
            count: _,
            alloc: _,
            slot,
        } = self;
        slot.let_go();
    }
}
