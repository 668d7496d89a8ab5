//! A slot that may hold an engine on the heap, and whose fields C may keep.
ghost use Rattle.std.specs.Prelude.{◌≡◌, Some, None, IsSome};
ghost use Rattle.engine_handle.specs.Slot.{Held, held_coded, filled};

use crate::parts::Parts;
use line_engine::Engine;
use std::alloc::Global;
use std::marker::Model;
use std::ptr;

/// The address of an engine on the heap, or of nothing: `held` says which. It is let go only by `into_box` or `let_go`.
#[repr(C)]
pub struct Slot {
    at: *mut u8,
    alloc: Global,
    pub ghost held: { Held } by { held_coded },
}

impl Model for Slot {
    ghost also_owns = { λ s. filled s.alloc s.at s.held };
}

impl Slot {
    /// A slot that holds nothing.
    pub fn empty(alloc: Global) -> Slot
        ensures { result.held ≡ None }
    {
        Slot {
            at: ptr::null_mut(),
            alloc,
        }
    }

    /// A slot that holds what the box holds. Nothing is allocated.
    pub fn of(engine: Box<Engine>) -> Slot
        ensures { result.held ≡ Some engine.value }
    {
        Slot::of_parts(Parts::of(engine))
    }

    /// The box that `of` took. Nothing is allocated.
    pub fn into_box(self) -> Box<Engine>
        requires { IsSome self.held }
        ensures { Some result.value ≡ self.held }
    {
        self.into_parts().into_box()
    }

    /// Lets an empty slot go.
    pub fn let_go(self)
        requires { self.held ≡ None }
    {
        let Slot { at: _, alloc: _ } = self;
    }

    fn of_parts(parts: Parts<Engine, Global>) -> Slot
        ensures { result.held ≡ Some parts.value }
    {
        let Parts { ptr, alloc } = parts;
        Slot {
            at: ptr as *mut u8,
            alloc,
        }
    }

    fn into_parts(self) -> Parts<Engine, Global>
        requires { IsSome self.held }
        ensures { Some result.value ≡ self.held }
    {
        let Slot { at, alloc } = self;
        Parts {
            ptr: at as *mut Engine,
            alloc,
        }
    }
}
