//! His box, drawn anew on a terminal.

ghost use Rattle.std.specs.Prelude.{◌≡◌, ◌≤◌, IfOk};
ghost use Rattle.hand_working.specs.Duties.{doings_of, post_of};
ghost use Rattle.hand_working.specs.Works.{Grows};

use crate::duty::Duty;
use box_view::put_look;
use rail_text::{NoMemory, Sink, put_all};
use script_text::put_number;
use std::alloc::{AllocError, Global};

// How many lines a terminal has.
const ROWS: usize = 24;

// The cursor goes home, and what stands on the terminal goes.
const CLEAR: &str = "\u{1b}[H\u{1b}[2J";

// How many columns it has.
const COLUMNS: usize = 80;

// How many rows of a terminal a line takes.
fn rows_of_line(line: &str) -> usize {
    (line.len() / COLUMNS).saturating_add(1)
}

// How many rows of a terminal these lines take.
fn rows_of(lines: &str) -> usize {
    let mut rows: usize = 0;
    for line in lines.lines() {
        rows = rows.saturating_add(rows_of_line(line));
    }
    rows
}

// Puts these lines behind a text, as many as there is room for; where there are more, the last one tells how many.
fn put_rows(out: &mut String, lines: &str, room: usize) -> Result<(), AllocError> {
    let count = lines.lines().count();
    let shown = if count > room {
        room.saturating_sub(1)
    } else {
        count
    };
    for line in lines.lines().take(shown) {
        out.push_str(line)?;
        out.push('\n')?;
    }
    if shown < count && room > 0 {
        out.push_str("(")?;
        put_number(out, (count - shown) as u64)?;
        out.push_str(" more lines: look)\n")?;
    }
    Ok(())
}

// How his box stands.
fn look_of(alloc: Global, duty: &mut Duty<'_>) -> Result<String, NoMemory>
    ensures post { post_of duty.new ≡ post_of duty.old }
    ensures doings { doings_of duty.new ≡ doings_of duty.old }
{
    duty.work_again(alloc)?;
    let session = duty.session();
    session.meets_conditions();
    let mut look = String::new(alloc);
    put_look(
        &mut look,
        session.plan(),
        session.line(),
        session.box_no(),
        duty.moment(),
    )?;
    Ok(look)
}

// What is drawn above so many lines and a prompt.
fn screen_of(alloc: Global, look: &str, below: usize) -> Result<String, AllocError> {
    let mut screen = String::new(alloc);
    screen.push_str(CLEAR)?;
    put_rows(&mut screen, look, (ROWS - 1).saturating_sub(below))?;
    Ok(screen)
}

/// Draws his box anew, where that is wanted, so that a text and a prompt have room below it on a terminal of 24 lines.
/// Where it can't be put, nobody hears of it.
pub(crate) fn draw<L: Sink>(
    alloc: Global,
    duty: &mut Duty<'_>,
    wanted: bool,
    below: &str,
    told: &mut L,
) -> Result<(), NoMemory>
    ensures post { post_of duty.new ≡ post_of duty.old }
    ensures doings { doings_of duty.new ≡ doings_of duty.old }
    ensures told { Grows (L.taken told.old) (L.taken told.new) }
    ensures later { L.faults told.old ≤ L.faults told.new }
{
    if !wanted {
        return Ok(());
    }
    let look = look_of(alloc, duty)?;
    let screen = screen_of(alloc, look.as_str(), rows_of(below))?;
    drop(look);
    let _ = put_all(told, screen.as_bytes());
    Ok(())
}
