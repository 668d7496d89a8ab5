//! The register of one signalman.

ghost use Rattle.std.specs.Prelude.{◌≡◌, ◌-◌, ◌<◌, [], ◌∷◌, ◌++◌, All, IfOk};

use line_law::Entry;
use rail_text::NoMemory;
use std::alloc::Global;
use std::marker::Model;

/// What one signalman did and was answered, in order. It has room for so many more entries, in memory that was taken
/// when it was made.
#[derive(Debug, Drop)]
pub struct Register {
    box_no: u32,
    entries: Vec<Entry>,
    spare: usize,
}

impl Model for Register {
    ghost use Rattle.std.specs.Prelude.{vec_capacity, vec_len};
    ghost use Rattle.train_register.specs.Registers.{IsRegister, RegisterFields};

    ghost Value = { RegisterFields };

    ghost view = { λ register.
        record { box_no = register.box_no; entries = register.entries.items; spare = register.spare } };

    ghost invariant = { λ register. IsRegister register.box_no register.entries.items register.spare
        (vec_len register.entries) (vec_capacity register.entries) };
}

impl Register {
    /// The register of a box with nothing in it. Its memory is taken here, for as many entries as `room`.
    pub fn new(alloc: Global, box_no: u32, room: usize) -> Result<Register, NoMemory>
        ensures { IfOk result (λ register. register ≡ record { box_no = box_no; entries = []; spare = room }) }
    {
        Ok(Register {
            box_no,
            entries: Vec::with_capacity(alloc, room)?,
            spare: room,
        })
    }

    /// Its box, from 0.
    pub fn box_no(&self) -> u32
        ensures { result ≡ self.now.box_no }
    {
        self.box_no
    }

    /// How many more entries it has room for.
    pub fn spare(&self) -> usize
        ensures { result ≡ self.now.spare }
    {
        self.spare
    }

    /// All entries so far, in the order in which they were pushed. Each is one of its box.
    pub fn entries(&self) -> &[Entry]
        ensures value { result.now ≡ self.now.entries }
        ensures own { All (λ e. e.box_no ≡ self.now.box_no) self.now.entries }
    {
        &self.entries
    }

    /// Adds an entry of its box behind the others, where it has room, and takes no memory.
    pub fn push(&mut self, entry: Entry)
        requires spare { 0 < self.old.spare }
        requires own { entry.box_no ≡ self.old.box_no }
        ensures { self.new ≡ record {
          box_no = self.old.box_no;
          entries = self.old.entries ++ entry ∷ [];
          spare = self.old.spare - 1;
        } }
    {
        self.entries.push(entry).unwrap();
        self.spare -= 1;
    }
}
