//! Locking tables that are made into frames.

ghost use Rattle.std.specs.Prelude.{◌↔◌, IsTrue, length};
ghost use Rattle.locking_table.specs.Places.{IsLever};

use crate::case_fault::CaseFault;
use crate::putting::{Done, number_of, put_whether};
use bridle_frame::{Bridle, Dog, Frame, Notches, Shift};
use locking_table::{End, Table};
use std::alloc::Global;
use tappet_compiler::frame_of;

fn notches_text(notches: Notches) -> &'static str {
    match notches {
        Notches::Normal => "normal",
        Notches::Reversed => "reversed",
        Notches::Both => "both",
    }
}

fn put_dogs(out: &mut String, dogs: &[Dog]) -> Done {
    for dog in dogs {
        let lever = dog.lever;
        write!(out, " {lever} ")?;
        out.push_str(notches_text(dog.notches))?;
    }
    Ok(())
}

/// `bridles ROWS`: the bridles of the table, each with its row's number, its dogs' levers and their notches.
pub fn put_bridles(out: &mut String, bridles: &[Bridle]) -> Done {
    for (before, bridle) in bridles.iter().enumerate() {
        put_whether(out, before == 0, "", "; ")?;
        let row = bridle.row;
        write!(out, "{row}")?;
        put_dogs(out, bridle.dogs.as_slice())?;
    }
    Ok(())
}

// Whether a frame has this lever.
fn has_lever(frame: &Frame, lever: u32) -> bool
    ensures { IsTrue result ↔ IsLever (length frame.now.ends) lever }
{
    1 <= lever && lever as usize <= frame.ends().len()
}

// Puts where a lever then stands.
fn put_end(out: &mut String, frame: &Frame, lever: u32) -> Done {
    if !has_lever(frame, lever) {
        return Err(CaseFault::Argument);
    }
    let is_normal = frame.end(lever) == End::Normal;
    put_whether(out, is_normal, " normal; ", " reversed; ")
}

// Moves a lever where nothing holds it, and puts what holds it by each question, and where it then stands.
fn put_moved(out: &mut String, frame: &mut Frame, lever: u32) -> Done {
    if !has_lever(frame, lever) {
        return Err(CaseFault::Argument);
    }
    let held = frame.holder(lever);
    let tested = frame.test(lever);
    match (frame.shift(lever), held) {
        (Shift::HeldBy { bridle }, Some(by)) if tested == (Shift::HeldBy { bridle }) => {
            let (other, row) = (by.lever, by.row);
            write!(
                out,
                "{lever} held by {other} in row {row} by bridle {bridle}"
            )?;
        }
        (Shift::Shifted, None) if tested == Shift::Shifted => write!(out, "{lever} moved")?,
        _ => out.push_str("two answers")?,
    }
    put_end(out, frame, lever)
}

// Throws a lever where the test finds it free, and puts whether it was, and where it then stands.
fn put_thrown(out: &mut String, frame: &mut Frame, lever: u32) -> Done {
    if !has_lever(frame, lever) {
        return Err(CaseFault::Argument);
    }
    match frame.test(lever) {
        Shift::Shifted => {
            frame.throw(lever);
            write!(out, "{lever} thrown")?;
        }
        Shift::HeldBy { .. } => write!(out, "{lever} held")?,
    }
    put_end(out, frame, lever)
}

fn put_all_moved(out: &mut String, frame: &mut Frame, levers: &str) -> Done {
    for lever in levers.split(' ') {
        put_moved(out, frame, number_of(lever)?)?;
    }
    let bridles = frame.bridles().len();
    Ok(write!(out, "{bridles} bridles")?)
}

fn put_all_thrown(out: &mut String, frame: &mut Frame, levers: &str) -> Done {
    for lever in levers.split(' ') {
        put_thrown(out, frame, number_of(lever)?)?;
    }
    let bridles = frame.bridles().len();
    Ok(write!(out, "{bridles} bridles")?)
}

/// `moves ROWS | LEVERS` and `throws ROWS | LEVERS`: what becomes of the levers of a new frame of eight, in turn.
pub fn put_worked(
    alloc: Global,
    out: &mut String,
    table: &Table,
    levers: &str,
    throws: bool,
) -> Done {
    if !table.fits(8) {
        return Err(CaseFault::Argument);
    }
    let mut frame = frame_of(alloc, 8, table)?;
    let done = if throws {
        put_all_thrown(out, &mut frame, levers)
    } else {
        put_all_moved(out, &mut frame, levers)
    };
    drop(frame);
    done
}
