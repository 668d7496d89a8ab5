//! The program: it does what the words of its command line say, over files and standard output.
#![tactic(auto)]

use box_top::{Status, TimedGate, box_top};
use rail_text::{FileShelf, OutSink};
use std::alloc::AllocError;
use std::process::ExitCode;
use std::{env, io};

// The words behind the program's name. Where one of them is no text they are no command, as no words at all are.
fn words(rt: &HostRuntime) -> Result<Vec<String>, AllocError> {
    let mut words = Vec::new(rt.alloc());
    match env::args(rt) {
        Ok(args) => {
            for word in args.skip(1) {
                words.push(word)?;
            }
        }
        Err(error) if error.kind() == io::ErrorKind::OutOfMemory => return Err(AllocError),
        Err(_) => {}
    }
    Ok(words)
}

fn main(rt: HostRuntime) -> ExitCode {
    let Ok(words) = words(&rt) else {
        return ExitCode::from(Status::NoMemory.code());
    };
    let mut shelf = FileShelf::new(&rt);
    let mut out = OutSink::new(io::writer(&rt));
    let gate = TimedGate::new(&rt);
    let status = box_top(&rt, rt.alloc(), &words, &mut shelf, &mut out, &gate);
    ExitCode::from(status.code())
}
