//! What is put for a typed line: the line again, where lines are echoed, and its answer.

ghost use Rattle.std.specs.Prelude.{◌≡◌, ◌<◌, ◌≤◌, ◌++◌, ℕ, IfOk, OnOk, length, string_bytes};
ghost use mathlib.Core.List.{IsPrefix};
ghost use Rattle.line_law.specs.declared.call.Call.{Call};
ghost use Rattle.line_law.specs.Known.{KnowsCall, moments_of};
ghost use Rattle.script_text.specs.Entries.{IsSpelled};
ghost use Rattle.line_plan.specs.Plans.{box_at as box_plan_at};
ghost use Rattle.typed_words.specs.Typed.{TypedLine, line_read, shown};
ghost use Rattle.box_view.specs.Look.{look_text};
ghost use Rattle.box_view.specs.Moves.{TellsMoves};
ghost use Rattle.hand_working.specs.Duties.{after_typed, doings_of, post_of, state_at};
ghost use Rattle.hand_working.specs.Passages.{IsAnswered, IsPassage, IsShown, TellsCall, TellsLine};
ghost use Rattle.hand_working.specs.Passages.{after_line, echo_text, is_end, is_red, opening_text};

use crate::book::{last_refused, put_book};
use crate::due::put_due;
use crate::duty::Duty;
use crate::listening::put_meanwhile;
use crate::manner::Manner;
use crate::misread::put_misread;
use crate::saving::answer_save;
use crate::store::Store;
use crate::tones::{NO_COLOUR, RED, put_tone};
use box_session::MOST_MADE;
use box_view::{put_answer, put_codes, put_look, put_may, put_why};
use line_law::{Call, Entry, is_refused};
use line_plan::Plan;
use rail_text::NoMemory;
use script_text::put_call;
use std::alloc::{AllocError, Global};
use typed_words::{Typed, read_typed};

/// What is put for a line, and whether he goes off duty by it.
#[derive(Drop)]
pub(crate) struct Passage {
    pub(crate) text: String,
    pub(crate) ends: bool,
}

const HELP: &str = "\
A call as in a script, with or without a moment, by whole words or beginnings:
  ring, hear, await_bell, turn, await_block, pull, put, pass, overrun, bring,
  await_train, berth, berth_part, clear_portion, wind, release
  so `tu d li` turns the down line's instrument to Line Clear
at 09:05  sets the clock            look   how the box stands
may       which levers may move     why    the last refusal at length
codes     the bell codes            undo   takes the last call back
book      the register so far       save FILE  your calls as a script
help      this                      end    goes off duty
";

// The line again, where lines are echoed: a call as a script has it, anything else as it was typed.
#[tactic(auto, unfolding(crate::specs::Passages::echo_text))]
fn echo(
    alloc: Global,
    duty: &Duty<'_>,
    echoes: bool,
    line: &str,
    typed: &Typed,
) -> Result<String, AllocError>
    requires { (call : Call) → shown typed.now ≡ TypedLine.Call call
        → KnowsCall duty.now.session.plan duty.now.session.box_no call }
    ensures { IfOk result (λ text. string_bytes text ≡ echo_text echoes (post_of duty.now) line.now (shown typed.now)) }
{
    let mut text = String::new(alloc);
    if !echoes {
        return Ok(text);
    }
    text.push_str("> ")?;
    match typed {
        Typed::Call(call) => {
            let session = duty.session();
            put_call(&mut text, session.plan(), session.box_no(), call)?;
        }
        _ => text.push_str(line)?,
    }
    text.push('\n')?;
    Ok(text)
}

// What a call was answered, in red where it was refused and colours are wanted.
fn put_answered(
    out: &mut String,
    plan: &Plan,
    colours: bool,
    entry: &Entry,
) -> Result<(), AllocError>
    requires { IsSpelled plan.now entry.now }
    ensures { OnOk result (IsShown (is_red colours entry.now.reply) entry.now.reply (string_bytes out.old)
        (string_bytes out.new)) }
{
    let red = colours && is_refused(&entry.reply);
    put_tone(out, red, RED)?;
    put_answer(out, plan, entry)?;
    put_tone(out, red, NO_COLOUR)
}

// A call is made and answered, and what he notices behind it is told.
fn answer_call(
    alloc: Global,
    duty: &mut Duty<'_>,
    colours: bool,
    call: &Call,
    out: &mut String,
) -> Result<(), NoMemory>
    requires known { KnowsCall duty.old.session.plan duty.old.session.box_no call.now }
    requires later { duty.old.moment ≤ call.now.moment }
    requires room { length duty.old.session.calls < MOST_MADE }
    ensures post { post_of duty.new ≡ post_of duty.old }
    ensures doings { IfOk result (λ _. doings_of duty.new
        ≡ after_typed (doings_of duty.old) (TypedLine.Call call.now)) }
    ensures told { IfOk result (λ _. TellsCall colours (post_of duty.old) (doings_of duty.old) call.now
        (string_bytes out.old) (string_bytes out.new)) }
{
    let place = duty.session().journal().len();
    let entry = duty.make(alloc, call)?;
    put_answered(out, duty.session().plan(), colours, &entry)?;
    put_meanwhile(duty, place + 1, colours, out)?;
    Ok(())
}

// How his box stands.
fn answer_look(alloc: Global, duty: &mut Duty<'_>, out: &mut String) -> Result<(), NoMemory>
    ensures post { post_of duty.new ≡ post_of duty.old }
    ensures doings { doings_of duty.new ≡ doings_of duty.old }
    ensures told { IfOk result (λ _. string_bytes out.new ≡ string_bytes out.old
        ++ look_text (post_of duty.old).plan (state_at (post_of duty.old) (doings_of duty.old))
        (post_of duty.old).box_no duty.old.moment) }
{
    duty.work_again(alloc)?;
    let session = duty.session();
    session.meets_conditions();
    put_look(
        out,
        session.plan(),
        session.line(),
        session.box_no(),
        duty.moment(),
    )?;
    Ok(())
}

// Which levers may be moved.
fn answer_may(alloc: Global, duty: &mut Duty<'_>, out: &mut String) -> Result<(), NoMemory>
    ensures post { post_of duty.new ≡ post_of duty.old }
    ensures doings { doings_of duty.new ≡ doings_of duty.old }
    ensures told { IfOk result (λ _. TellsMoves (post_of duty.old).plan (state_at (post_of duty.old)
        (doings_of duty.old)) (post_of duty.old).box_no duty.old.moment
        (box_plan_at (post_of duty.old).plan.boxes (post_of duty.old).box_no).levers (string_bytes out.old)
        (string_bytes out.new)) }
{
    duty.work_again(alloc)?;
    let session = duty.session();
    session.meets_conditions();
    put_may(
        out,
        session.plan(),
        session.line(),
        session.box_no(),
        duty.moment(),
    )?;
    Ok(())
}

// His last refused call at length, if there is one.
fn answer_why(alloc: Global, duty: &Duty<'_>, out: &mut String) -> Result<(), NoMemory>
    ensures { IfOk result (λ _. IsPrefix (string_bytes out.old) (string_bytes out.new)) }
{
    match last_refused(alloc, duty)? {
        Some(entry) => put_why(out, duty.session().plan(), &entry)?,
        None => out.push_str("nothing was refused so far\n")?,
    }
    Ok(())
}

// Names a call that is taken back.
fn put_taken_back(out: &mut String, duty: &Duty<'_>, call: &Call) -> Result<(), AllocError>
    requires { KnowsCall duty.now.session.plan duty.now.session.box_no call.now }
    ensures { OnOk result (IsPrefix (string_bytes out.old) (string_bytes out.new)) }
{
    let session = duty.session();
    out.push_str("taken back: ")?;
    put_call(out, session.plan(), session.box_no(), call)?;
    out.push('\n')
}

// His last call is taken back, and named.
fn answer_undo(duty: &mut Duty<'_>, out: &mut String) -> Result<(), AllocError>
    ensures post { post_of duty.new ≡ post_of duty.old }
    ensures doings { doings_of duty.new ≡ after_typed (doings_of duty.old) TypedLine.Undo }
    ensures told { OnOk result (IsPrefix (string_bytes out.old) (string_bytes out.new)) }
{
    match duty.take_back() {
        Some(call) => put_taken_back(out, duty, &call),
        None => out.push_str("nothing to take back\n"),
    }
}

// What a line that is understood is answered.
fn answer<W: Store>(
    alloc: Global,
    duty: &mut Duty<'_>,
    store: &mut W,
    colours: bool,
    typed: &Typed,
    out: &mut String,
) -> Result<(), NoMemory>
    requires call { (call : Call) → shown typed.now ≡ TypedLine.Call call
        → KnowsCall duty.old.session.plan duty.old.session.box_no call × (duty.old.moment ≤ call.moment) }
    requires clock { (moment : ℕ) → shown typed.now ≡ TypedLine.At moment
        → (duty.old.moment ≤ moment) × (moment < moments_of duty.old.session.plan.version) }
    requires room { length duty.old.session.calls < MOST_MADE }
    ensures post { post_of duty.new ≡ post_of duty.old }
    ensures doings { IfOk result (λ _. doings_of duty.new ≡ after_typed (doings_of duty.old) (shown typed.now)) }
    ensures told { IfOk result (λ _. IsAnswered colours (post_of duty.old) (doings_of duty.old) (shown typed.now)
        (string_bytes out.old) (string_bytes out.new)) }
{
    match typed {
        Typed::Call(call) => answer_call(alloc, duty, colours, call, out)?,
        Typed::At(moment) => duty.set_clock(*moment),
        Typed::Look => answer_look(alloc, duty, out)?,
        Typed::May => answer_may(alloc, duty, out)?,
        Typed::Why => answer_why(alloc, duty, out)?,
        Typed::Codes => put_codes(out, duty.session().plan())?,
        Typed::Undo => answer_undo(duty, out)?,
        Typed::Book => put_book(alloc, duty, out)?,
        Typed::Save(name) => answer_save(alloc, duty, store, name.as_str(), out)?,
        Typed::Help => out.push_str(HELP)?,
        Typed::End | Typed::Nothing => {}
        Typed::NotUnderstood(what) => put_misread(out, what)?,
    }
    Ok(())
}

// Whether he goes off duty by a line.
fn is_end(typed: &Typed) -> bool
    ensures { result ≡ is_end (shown typed.now) }
{
    matches!(typed, Typed::End)
}

/// What is put when he comes on duty.
pub(crate) fn opening(
    alloc: Global,
    duty: &mut Duty<'_>,
    manner: Manner,
) -> Result<String, NoMemory>
    ensures post { post_of duty.new ≡ post_of duty.old }
    ensures doings { doings_of duty.new ≡ doings_of duty.old }
    ensures told { IfOk result
        (λ text. string_bytes text ≡ opening_text manner (post_of duty.old) (doings_of duty.old)) }
{
    duty.work_again(alloc)?;
    let mut text = String::new(alloc);
    put_meanwhile(duty, 0, manner.colours, &mut text)?;
    put_due(alloc, duty, manner.hints, &mut text)?;
    Ok(text)
}

// The line again, where lines are echoed, and its answer, where it comes to this.
fn answer_line<W: Store>(
    alloc: Global,
    duty: &mut Duty<'_>,
    store: &mut W,
    manner: Manner,
    line: &str,
    typed: &Typed,
) -> Result<String, NoMemory>
    requires call { (call : Call) → shown typed.now ≡ TypedLine.Call call
        → KnowsCall duty.old.session.plan duty.old.session.box_no call × (duty.old.moment ≤ call.moment) }
    requires clock { (moment : ℕ) → shown typed.now ≡ TypedLine.At moment
        → (duty.old.moment ≤ moment) × (moment < moments_of duty.old.session.plan.version) }
    requires room { length duty.old.session.calls < MOST_MADE }
    ensures post { post_of duty.new ≡ post_of duty.old }
    ensures doings { IfOk result (λ _. doings_of duty.new ≡ after_typed (doings_of duty.old) (shown typed.now)) }
    ensures told { IfOk result (λ text. TellsLine manner (post_of duty.old) (doings_of duty.old) line.now
        (shown typed.now) (string_bytes text)) }
{
    let mut text = echo(alloc, duty, manner.echoes, line, typed)?;
    answer(alloc, duty, store, manner.colours, typed, &mut text)?;
    put_due(alloc, duty, manner.hints && !is_end(typed), &mut text)?;
    Ok(text)
}

/// What is put for a typed line, and what it makes of his doings.
pub(crate) fn serve_line<W: Store>(
    alloc: Global,
    duty: &mut Duty<'_>,
    store: &mut W,
    manner: Manner,
    line: &str,
) -> Result<Passage, NoMemory>
    requires room { length duty.old.session.calls < MOST_MADE }
    ensures post { post_of duty.new ≡ post_of duty.old }
    ensures doings { IfOk result (λ _. doings_of duty.new
        ≡ after_line (post_of duty.old) (doings_of duty.old) line.now) }
    ensures told { IfOk result (λ passage. IsPassage manner (post_of duty.old) (doings_of duty.old) line.now
        (string_bytes passage.text)) }
    ensures ends { IfOk result (λ passage. passage.ends ≡ is_end (line_read duty.old.session.plan
        duty.old.session.box_no duty.old.moment line.now)) }
{
    let session = duty.session();
    session.meets_conditions();
    let typed = read_typed(alloc, session.plan(), session.box_no(), duty.moment(), line)?;
    let text = answer_line(alloc, duty, store, manner, line, &typed)?;
    let ends = is_end(&typed);
    drop(typed);
    Ok(Passage { text, ends })
}
