//! The files of the runtime, and its standard input, as a shelf that tells why a text could not be fetched. What they
//! hold is not told: that the bytes are the file's is trusted.

ghost use Rattle.std.specs.Prelude.{◌≡◌, ℕ, ◌+◌, ◌^◌, ◌<◌, ◌≤◌, List, length, IfOk, IsErrOf, vec_len, None};
ghost use Rattle.rail_text.specs.Causes.{Rose, raised};
ghost use Rattle.rail_text.specs.Adapters.{after_fetch};

use explained_texts::ReasonedShelf;
use rail_text::{FetchFault, Shelf};
use std::alloc::Global;
use std::io::{ErrorKind, Input, Read};
use std::marker::Model;
use std::rt::Files;
use std::{fs, io};

// The name of standard input.
const INPUT: &str = "-";

/// The files of a runtime by their paths, and its standard input under the name `-`, which is read once. It gives its
/// one count of faults for every name; contracts see it as that count.
#[derive(Drop)]
pub struct ReasonedFiles<'a, R> {
    rt: &'a R,
    faults: u64,
    has_read_input: bool,
    reason: &'static str,
}

impl<'a, R> Model for ReasonedFiles<'a, R> {
    ghost use Rattle.std.specs.Prelude.{ℕ};

    ghost Value = { ℕ };

    ghost view = { λ s. s.faults };
}

// What is told of a fault of the system.
fn reason_of(kind: ErrorKind) -> &'static str {
    match kind {
        ErrorKind::NotFound => "no such file or directory",
        ErrorKind::PermissionDenied => "permission denied",
        ErrorKind::IsADirectory => "is a directory",
        ErrorKind::InvalidInput => "no name of a file",
        _ => "could not be read",
    }
}

// At most `most` bytes of what can be read.
fn first_bytes<F: Read + Drop>(alloc: Global, from: F, most: usize) -> io::Result<Vec<u8>>
    ensures { IfOk result (λ v. vec_len v ≤ most) }
{
    let mut bytes = Vec::new(alloc);
    let mut front = from.take(most as u64);
    front.read_to_end(&mut bytes)?;
    bytes.truncate(most);
    Ok(bytes)
}

fn read_file<R: Files>(rt: &R, alloc: Global, name: &str, most: usize) -> io::Result<Vec<u8>>
    ensures { IfOk result (λ v. vec_len v ≤ most) }
{
    let file = fs::open(rt, name)?;
    first_bytes(alloc, file, most)
}

impl<'a, R: Files + Input> ReasonedFiles<'a, R> {
    /// The shelf, with no fault so far.
    pub fn new(rt: &'a R) -> ReasonedFiles<'a, R>
        ensures { result ≡ 0 }
    {
        ReasonedFiles {
            rt,
            faults: 0,
            has_read_input: false,
            reason: "",
        }
    }

    // The text under a name, of at most so many bytes, or what is told of it.
    fn read(&mut self, alloc: Global, name: &str, most: usize) -> Result<Vec<u8>, ErrorKind>
        ensures few { IfOk result (λ v. vec_len v ≤ most) }
        ensures faults { self.new ≡ self.old }
    {
        let read = if name == INPUT {
            self.has_read_input = true;
            first_bytes(alloc, self.rt.reader(), most)
        } else {
            read_file(self.rt, alloc, name, most)
        };
        match read {
            Ok(bytes) => Ok(bytes),
            Err(error) => Err(error.kind()),
        }
    }

    // Whether standard input is asked for once more.
    fn is_read(&self, name: &str) -> bool {
        self.has_read_input && name == INPUT
    }

    // A fault is counted, and why it came is kept.
    fn fail(&mut self, reason: &'static str)
        ensures counted { self.new ≡ raised self.old }
        ensures later { self.old ≤ self.new }
        ensures rose { Rose self.old self.new }
    {
        self.faults = self.faults.saturating_add(1);
        self.reason = reason;
    }
}

impl<'a, R: Files + Input> Shelf for ReasonedFiles<'a, R> {
    ghost held = { λ s n. None };

    ghost faults = { λ s n. s };

    fn fetch(&mut self, alloc: Global, name: &str, limit: usize) -> Result<Vec<u8>, FetchFault>
        requires { limit < 2 ^ 32 }
        ensures few { IfOk result (λ v. length v.items ≤ limit + 1) }
        ensures counted { self.new ≡ after_fetch result self.old }

        // What every shelf says of its count.
        ensures later { (n : List ℕ) → self.old ≤ self.new }
        ensures cause { IsErrOf result FetchFault.Failed → Rose self.old self.new }
    {
        if self.is_read(name) {
            self.fail("standard input is read already");
            return Err(FetchFault::Failed);
        }
        match self.read(alloc, name, limit + 1) {
            Ok(bytes) => Ok(bytes),
            Err(ErrorKind::OutOfMemory) => Err(FetchFault::NoMemory),
            Err(kind) => {
                self.fail(reason_of(kind));
                Err(FetchFault::Failed)
            }
        }
    }
}

impl<'a, R: Files + Input> ReasonedShelf for ReasonedFiles<'a, R> {
    fn reason(&self) -> &str {
        self.reason
    }
}
