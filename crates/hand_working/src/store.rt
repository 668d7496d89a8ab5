//! Where files are written.

ghost use Rattle.std.specs.Prelude.{◌≡◌, ◌++◌, ◌∷◌, [], ℕ, List, Option, OnOk, None};
ghost use Rattle.std.specs.Option.{option_map};

use std::fs;
use std::marker::Model;
use std::rt::Files;

/// Why a file wasn't written.
#[derive(Clone, Copy, Debug, PartialEq, Eq)]
pub enum StoreFault {
    /// It can't be written.
    Failed,
}

/// Writes files. It may tell which bytes it has written under which names, in order.
pub trait Store {
    /// The names, with the bytes that were written under them, where the store tells them.
    ghost written: { Self → Option (List (List ℕ × List ℕ)) };

    /// Writes a file, in the place of one with this name.
    fn write(&mut self, name: &str, bytes: &[u8]) -> Result<(), StoreFault>
        ensures { OnOk result (written self.new
            ≡ option_map (λ files. files ++ (name.now, bytes.now) ∷ []) (written self.old)) };
}

/// The files of a runtime by their paths. That they hold what was written is trusted.
#[derive(Drop)]
pub struct FileStore<'a, R> {
    rt: &'a R,
}

impl<'a, R: Files> FileStore<'a, R> {
    /// The files of this runtime.
    pub fn new(rt: &'a R) -> FileStore<'a, R> {
        FileStore { rt }
    }
}

impl<'a, R: Files> Store for FileStore<'a, R> {
    ghost written = { λ store. None };

    fn write(&mut self, name: &str, bytes: &[u8]) -> Result<(), StoreFault> {
        match fs::write(self.rt, name, bytes) {
            Ok(()) => Ok(()),
            Err(_) => Err(StoreFault::Failed),
        }
    }
}
