//! The files of the runtime as a shelf. What they hold is not told: that the bytes are the file's
//! is trusted.

ghost use Rattle.std.specs.Prelude.{◌≡◌, ℕ, ◌+◌, ◌^◌, ◌<◌, ◌≤◌, List, length, IfOk, IsErrOf, vec_len, None};
ghost use Rattle.rail_text.specs.Causes.{Rose};
ghost use Rattle.rail_text.specs.Adapters.{after_fetch};

use crate::{FetchFault, Shelf};
use std::alloc::Global;
use std::fs;
use std::io::Read;
use std::marker::Model;
use std::rt::Files;

/// The files of a runtime, by their paths. A file that can't be opened or read is a fault. It gives
/// its one count of faults for every name; contracts see it as that count.
#[derive(Drop)]
pub struct FileShelf<'a, R> {
    rt: &'a R,
    faults: u64,
}

impl<'a, R> Model for FileShelf<'a, R> {
    ghost use Rattle.std.specs.Prelude.{ℕ};

    ghost Value = { ℕ };

    ghost view = { λ s. s.faults };
}

impl<'a, R: Files> FileShelf<'a, R> {
    /// The shelf, with no fault so far.
    pub fn new(rt: &'a R) -> FileShelf<'a, R>
        ensures { result ≡ 0 }
    {
        FileShelf { rt, faults: 0 }
    }
}

// At most `most` bytes, from where the file stands.
fn first_bytes<F: Read>(alloc: Global, file: &mut F, most: usize) -> Result<Vec<u8>, FetchFault>
    ensures { IfOk result (λ v. vec_len v ≤ most) }
{
    let mut bytes = Vec::new(alloc);
    let mut piece = [0u8; 65_536];
    while bytes.len() < most {
        let want = piece.len().min(most - bytes.len());
        match file.read(&mut piece[..want]) {
            Ok(n) => {
                if n == 0 {
                    break;
                }
                bytes.extend_from_slice(&piece[..n])?;
            }
            Err(_) => return Err(FetchFault::Failed),
        }
    }
    Ok(bytes)
}

fn read_file<R: Files>(
    rt: &R,
    alloc: Global,
    name: &str,
    most: usize,
) -> Result<Vec<u8>, FetchFault>
    ensures { IfOk result (λ v. vec_len v ≤ most) }
{
    match fs::open(rt, name) {
        Ok(file) => {
            let mut file = file;
            first_bytes(alloc, &mut file, most)
        }
        Err(_) => Err(FetchFault::Failed),
    }
}

impl<'a, R: Files> Shelf for FileShelf<'a, R> {
    ghost held = { λ s n. None };

    ghost faults = { λ s n. s };

    fn fetch(&mut self, alloc: Global, name: &str, limit: usize) -> Result<Vec<u8>, FetchFault>
        requires { limit < 2 ^ 32 }
        ensures few { IfOk result (λ v. length v.items ≤ limit + 1) }
        ensures counted { self.new ≡ after_fetch result self.old }

        // What every shelf says of its count.
        ensures later { (n : List ℕ) → self.old ≤ self.new }
        ensures cause { IsErrOf result FetchFault.Failed → Rose self.old self.new }
    {
        match read_file(self.rt, alloc, name, limit + 1) {
            Ok(bytes) => Ok(bytes),
            Err(FetchFault::NoMemory) => Err(FetchFault::NoMemory),
            Err(FetchFault::Failed) => {
                self.faults = self.faults.saturating_add(1);
                Err(FetchFault::Failed)
            }
        }
    }
}
