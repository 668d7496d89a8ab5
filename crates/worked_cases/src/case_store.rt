//! The files that are written in a case of `signalbox`.

ghost use Rattle.std.specs.Prelude.{None};

use hand_working::{Store, StoreFault};
use std::alloc::{AllocError, Global};

/// The files that were written, one behind another: each under a line with its name.
#[derive(Drop)]
pub struct CaseStore {
    written: Vec<u8>,
}

impl CaseStore {
    /// No file is written yet.
    pub fn new(alloc: Global) -> CaseStore {
        CaseStore {
            written: Vec::new(alloc),
        }
    }

    /// What was written.
    pub fn written(&self) -> &[u8] {
        &self.written
    }

    // Writes a file behind the others.
    fn put(&mut self, name: &str, bytes: &[u8]) -> Result<(), AllocError> {
        self.written.extend_from_slice(b"file ".as_slice())?;
        self.written.extend_from_slice(name.as_bytes())?;
        self.written.extend_from_slice(b"\n".as_slice())?;
        self.written.extend_from_slice(bytes)
    }
}

impl Store for CaseStore {
    ghost written = { λ s. None };

    fn write(&mut self, name: &str, bytes: &[u8]) -> Result<(), StoreFault> {
        match self.put(name, bytes) {
            Ok(()) => Ok(()),
            Err(AllocError) => Err(StoreFault::Failed),
        }
    }
}
