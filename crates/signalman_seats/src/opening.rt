//! A line with a man at each box.

ghost use Rattle.std.specs.Prelude.{◌≡◌, ◌<◌, ◌≤◌, All, IfErr, IfOk, length};
ghost use Rattle.instrument_rule.specs.Posts.{plan_of, view_of};
ghost use Rattle.instrument_rule.specs.Views.{first_view};
ghost use Rattle.signalman_seats.specs.Lines.{AreFresh, WasTaken};
ghost use Rattle.signalman_seats.specs.Men.{IsDrawn, IsFresh};

use crate::fittings::Fittings;
use crate::man::Signalman;
use instrument_rule::{Line, Post, open_words};
use line_plan::Plan;
use rail_text::NoMemory;
use std::alloc::{AllocError, Global};

/// Why no line was opened.
#[derive(Drop)]
pub enum OpenError {
    /// A draw of the post of a box found that so many posts were drawn; with the post that drew, which tells so.
    PostTaken { box_no: u32, found: u64, post: Post },
    /// Memory ran out.
    NoMemory,
}

impl From<NoMemory> for OpenError {
    ghost use Rattle.std.specs.Prelude.{◌≡◌};
    ghost use Rattle.signalman_seats.specs.declared.opening.OpenError.TheVariants as errors;

    ghost from_gives = { λ _ e. e ≡ errors.NoMemory };

    fn from(_: NoMemory) -> OpenError {
        OpenError::NoMemory
    }
}

impl From<AllocError> for OpenError {
    ghost use Rattle.std.specs.Prelude.{◌≡◌};
    ghost use Rattle.signalman_seats.specs.declared.opening.OpenError.TheVariants as errors;

    ghost from_gives = { λ _ e. e ≡ errors.NoMemory };

    fn from(_: AllocError) -> OpenError {
        OpenError::NoMemory
    }
}

// The post of a box of a line that opens, which is drawn next.
fn draw(line: &Line, first: &mut Post, box_no: u32) -> Result<Post, OpenError>
    requires table { first.old.seat.table_id ≡ line.now.table.shared.table_id }
    requires view { view_of first.old ≡ first_view (plan_of line.now) }
    requires known { box_no < length (plan_of line.now).boxes }
    ensures table { first.new.seat.table_id ≡ first.old.seat.table_id }
    ensures view { view_of first.new ≡ view_of first.old }
    ensures post { IfOk result (λ post. post.seat.table_id ≡ line.now.table.shared.table_id) }
    ensures drawn { IfOk result (λ post. IsDrawn (plan_of line.now) box_no (view_of post)) }
    ensures taken { IfErr result (WasTaken (plan_of line.now)) }
{
    let mut post = first.split(line);
    let found = post.take(line, box_no);
    if found != box_no as u64 {
        return Err(OpenError::PostTaken {
            box_no,
            found,
            post,
        });
    }
    Ok(post)
}

// A man for a box of a line that opens, whose post is drawn next.
fn seat_man(
    alloc: Global,
    plan: &Plan,
    line: &Line,
    first: &mut Post,
    box_no: u32,
    room: usize,
) -> Result<Signalman, OpenError>
    requires plan { plan_of line.now ≡ plan.now }
    requires table { first.old.seat.table_id ≡ line.now.table.shared.table_id }
    requires view { view_of first.old ≡ first_view plan.now }
    requires known { box_no < length plan.now.boxes }
    requires room { room ≤ 10000 }
    ensures table { first.new.seat.table_id ≡ first.old.seat.table_id }
    ensures view { view_of first.new ≡ view_of first.old }
    ensures fresh { IfOk result (λ man. IsFresh line.now.table.shared.table_id plan.now box_no room man) }
    ensures taken { IfErr result (WasTaken plan.now) }
{
    let post = draw(line, first, box_no)?;
    match Fittings::open(alloc, plan, box_no, room) {
        Ok(fittings) => Ok(Signalman::at_post(post, box_no, fittings)),
        Err(NoMemory) => {
            drop(post);
            Err(OpenError::NoMemory)
        }
    }
}

// A man for each box of a line that opens, in order.
fn seat_men(
    alloc: Global,
    plan: &Plan,
    line: &Line,
    first: &mut Post,
    lengths: &[usize],
) -> Result<Vec<Signalman>, OpenError>
    requires plan { plan_of line.now ≡ plan.now }
    requires table { first.old.seat.table_id ≡ line.now.table.shared.table_id }
    requires view { view_of first.old ≡ first_view plan.now }
    requires each { length lengths.now ≡ length plan.now.boxes }
    requires boxes { length plan.now.boxes ≤ 64 }
    requires rooms { All (λ n. n ≤ 10000) lengths.now }
    ensures fresh { IfOk result (λ men. AreFresh line.now.table.shared.table_id plan.now lengths.now men.items) }
    ensures taken { IfErr result (WasTaken plan.now) }
{
    let mut men = Vec::with_capacity(alloc, lengths.len())?;
    for i in 0..lengths.len() {
        match seat_man(alloc, plan, line, first, i as u32, lengths[i]) {
            Ok(man) => men.push_reserved(man),
            Err(error) => {
                drop(men);
                return Err(error);
            }
        }
    }
    Ok(men)
}

/// Opens the line of a plan and seats a man at each of its boxes, in their order, with room for so many calls in his
/// register. It takes all memory that the line will need.
///
/// # Errors
///
/// `PostTaken` where a draw of this call found another number of posts drawn than the number of its box; the line is
/// then given up. The post that drew comes with the two numbers: its last draw found the second. They differ, the first
/// is a box of the line, and the second is no greater than the number of boxes. That a line which opens loses no draw
/// is tested alone.
/// `NoMemory` where memory runs out.
pub fn open_line(
    alloc: Global,
    plan: &Plan,
    lengths: &[usize],
) -> Result<(Line, Vec<Signalman>), OpenError>
    requires each { length lengths.now ≡ length plan.now.boxes }
    requires rooms { All (λ n. n ≤ 10000) lengths.now }
    ensures line { IfOk result (λ r. plan_of r.0 ≡ plan.now) }
    ensures men { IfOk result (λ r. AreFresh r.0.table.shared.table_id plan.now lengths.now r.1.items) }
    ensures taken { IfErr result (WasTaken plan.now) }
{
    plan.meets_conditions();
    let (line, mut first) = open_words(alloc, plan)?;
    let seated = seat_men(alloc, plan, &line, &mut first, lengths);
    drop(first);
    match seated {
        Ok(men) => Ok((line, men)),
        Err(error) => {
            drop(line);
            Err(error)
        }
    }
}
