//! The program: it does what the words of its command line say, over files, standard input, output and error.
#![tactic(auto)]

use hand_working::{FileStore, InputLines, Terminal};
use line_serving::RequestLines;
use rail_text::OutSink;
use signalbox_top::{ReasonedFiles, Status, signalbox_top};
use std::alloc::AllocError;
use std::io::IsTerminal;
use std::process::ExitCode;
use std::{env, io};

// The words behind the program's name. One that is no text can't be read, and is left out.
fn words(rt: &HostRuntime) -> Result<Vec<String>, AllocError> {
    let mut words = Vec::new(rt.alloc());
    match env::args(rt) {
        Ok(args) => {
            for word in args.skip(1) {
                words.push(word)?;
            }
        }
        Err(error) if error.kind() == io::ErrorKind::OutOfMemory => return Err(AllocError),
        Err(_) => {}
    }
    Ok(words)
}

// Where a man sits who works a box: whether standard input is a terminal, at which he types, and whether standard
// output is one that shows colours. Where the environment has NO_COLOR, it doesn't.
fn terminal(rt: &HostRuntime) -> Terminal {
    let no_colour = match env::var(rt, "NO_COLOR") {
        Ok(text) => !text.is_empty(),
        Err(_) => false,
    };
    Terminal {
        is_typed: rt.stdin().is_terminal(),
        has_colours: rt.stdout().is_terminal() && !no_colour,
    }
}

fn main(rt: HostRuntime) -> ExitCode {
    let Ok(words) = words(&rt) else {
        return ExitCode::from(Status::Failed.code());
    };
    let mut shelf = ReasonedFiles::new(&rt);
    let mut out = OutSink::new(io::writer(&rt));
    let mut told = OutSink::new(rt.stderr());
    let mut lines = InputLines::new(rt.alloc(), rt.reader());
    let mut requests = RequestLines::new(rt.reader());
    let mut store = FileStore::new(&rt);
    let status = signalbox_top(
        rt.alloc(),
        &words,
        terminal(&rt),
        &mut shelf,
        &mut lines,
        &mut requests,
        &mut store,
        &mut out,
        &mut told,
    );
    ExitCode::from(status.code())
}
