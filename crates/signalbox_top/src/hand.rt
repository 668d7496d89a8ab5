//! `work PLAN BOX SCRIPT..`: a box of a line is worked by hand.

ghost use Rattle.std.specs.Prelude.{◌≡◌, ◌≢◌, ◌<◌, ◌≤◌, ℕ, List, IfOk, OnOk, Some, length, option_map};
ghost use Rattle.hand_working.specs.Duties.{doings_of, post_of};
ghost use Rattle.hand_working.specs.Works.{Grows, IsWorked};
ghost use Rattle.serial_working.specs.Rosters.{calls_of_scripts};
ghost use Rattle.signalbox_top.specs.Hand.{IsAtPost, IsHandWorked, and_written, file_of, journal_bytes};
ghost use Rattle.signalbox_top.specs.Hand.{manner_of, script_bytes, working_shown};
ghost use Rattle.signalbox_top.specs.Top.{TakesFront};
ghost use Rattle.signalbox_top.specs.Told.{TellsWhy};
ghost use Rattle.text_fetch.specs.Runs.{AreScriptsOf};

use crate::answering::tell_trouble;
use crate::status::Status;
use box_session::has_empty_script;
use explained_texts::{OthersTexts, ReasonedShelf, Trouble, fetch_others, trouble_with};
use hand_working::{
    Duty, HandFault, LineSource, Manner, Store, Terminal, print_calls, print_line, work_by_hand,
};
use rail_text::Sink;
use std::alloc::Global;

/// What is wanted where a box is worked by hand.
#[derive(Drop)]
pub(crate) struct HandWanted<'a> {
    /// It is told what is due.
    pub(crate) hint: bool,
    /// All is without colour.
    pub(crate) plain: bool,
    /// The box is drawn anew behind each line.
    pub(crate) screen: bool,
    /// The name of the plan.
    pub(crate) plan: &'a str,
    /// The name of the box.
    pub(crate) box_name: &'a str,
    /// The names of the scripts of the other boxes, in their order.
    pub(crate) scripts: &'a [&'a str],
    /// The file to which the journal is written.
    pub(crate) journal: Option<&'a str>,
    /// The file to which his calls are written as a script.
    pub(crate) script: Option<&'a str>,
}

// What is told where he couldn't work on.
fn trouble_of(alloc: Global, fault: HandFault) -> Trouble {
    match fault {
        HandFault::NoLines => trouble_with(alloc, "-", "could not be read"),
        HandFault::NoOutput => trouble_with(alloc, "the output", "could not be written"),
        HandFault::NoMemory => Trouble::NoMemory,
    }
}

// A file is written, where one is named.
fn write_file<W: Store>(
    alloc: Global,
    store: &mut W,
    name: &str,
    bytes: &[u8],
) -> Result<(), Trouble>
    ensures { OnOk result (W.written store.new
        ≡ and_written (W.written store.old) (file_of (Some name.now) bytes.now)) }
{
    match store.write(name, bytes) {
        Ok(()) => Ok(()),
        Err(_) => Err(trouble_with(alloc, name, "could not be written")),
    }
}

// The journal is written, where a file is named for it.
#[tactic(auto, using(crate::proofs::Written::none_written))]
fn write_journal<W: Store>(
    alloc: Global,
    name: Option<&str>,
    duty: &Duty<'_>,
    store: &mut W,
) -> Result<(), Trouble>
    ensures { OnOk result (W.written store.new ≡ and_written (W.written store.old)
        (file_of (option_map (λ name. name.now) name.entry) (journal_bytes (post_of duty.now) (doings_of duty.now)))) }
{
    let Some(name) = name else {
        return Ok(());
    };
    let text = print_line(alloc, duty)?;
    let written = write_file(alloc, store, name, &text);
    drop(text);
    written
}

// His calls are written as a script, where a file is named for them.
#[tactic(auto, using(crate::proofs::Written::none_written))]
fn write_script<W: Store>(
    alloc: Global,
    name: Option<&str>,
    duty: &Duty<'_>,
    store: &mut W,
) -> Result<(), Trouble>
    ensures { OnOk result (W.written store.new ≡ and_written (W.written store.old)
        (file_of (option_map (λ name. name.now) name.entry) (script_bytes (post_of duty.now) (doings_of duty.now)))) }
{
    let Some(name) = name else {
        return Ok(());
    };
    let Some(text) = print_calls(alloc, duty)? else {
        return Err(trouble_with(alloc, name, "not written: a script has at most 10000 calls"));
    };
    let written = write_file(alloc, store, name, &text);
    drop(text);
    written
}

// He works his box.
fn work_there<N: LineSource, W: Store, K: Sink, L: Sink>(
    alloc: Global,
    duty: &mut Duty<'_>,
    manner: Manner,
    source: &mut N,
    store: &mut W,
    out: &mut K,
    told: &mut L,
) -> Result<(), Trouble>
    ensures post { post_of duty.new ≡ post_of duty.old }
    ensures worked { IfOk result (λ _. IsWorked manner (post_of duty.old) (doings_of duty.old) (doings_of duty.new)
        (N.given source.old) (N.given source.new) (K.taken out.old) (K.taken out.new)) }
    ensures grows { Grows (K.taken out.old) (K.taken out.new) }
    ensures told { Grows (L.taken told.old) (L.taken told.new) }
    ensures later { L.faults told.old ≤ L.faults told.new }
{
    match work_by_hand(alloc, duty, manner, source, store, out, told) {
        Ok(()) => Ok(()),
        Err(fault) => Err(trouble_of(alloc, fault)),
    }
}

// The journal and the script are written, where files are named for them.
fn write_files<W: Store>(
    alloc: Global,
    wanted: &HandWanted<'_>,
    duty: &Duty<'_>,
    store: &mut W,
) -> Result<(), Trouble>
    ensures { OnOk result (W.written store.new ≡ and_written
        (and_written (W.written store.old) (file_of (working_shown wanted.now).journal
        (journal_bytes (post_of duty.now) (doings_of duty.now))))
        (file_of (working_shown wanted.now).script (script_bytes (post_of duty.now) (doings_of duty.now)))) }
{
    write_journal(alloc, wanted.journal, duty, store)?;
    write_script(alloc, wanted.script, duty, store)?;
    Ok(())
}

// He works a box of a line, and the files that are named are written.
fn work_line<N: LineSource, W: Store, K: Sink, L: Sink>(
    alloc: Global,
    wanted: &HandWanted<'_>,
    texts: &OthersTexts,
    manner: Manner,
    source: &mut N,
    store: &mut W,
    out: &mut K,
    told: &mut L,
) -> Result<(), Trouble>
    requires own { AreScriptsOf texts.now.plan texts.now.scripts.items }
    requires at { texts.now.box_no < length texts.now.plan.boxes }
    ensures worked { IfOk result (λ _. IsAtPost manner (working_shown wanted.now) (record {
      plan = texts.now.plan;
      box_no = texts.now.box_no;
      scripts = calls_of_scripts texts.now.scripts.items;
    }) (N.given source.old) (N.given source.new) (K.taken out.old) (K.taken out.new) (W.written store.new)) }
    ensures grows { Grows (K.taken out.old) (K.taken out.new) }
    ensures told { Grows (L.taken told.old) (L.taken told.new) }
    ensures later { L.faults told.old ≤ L.faults told.new }
{
    texts.plan.meets_conditions();
    if !has_empty_script(&texts.scripts, texts.box_no as usize) {
        return Err(trouble_with(alloc, wanted.box_name, "has a script"));
    }
    let mut duty = Duty::begin(alloc, &texts.plan, texts.box_no, &texts.scripts)?;
    work_there(alloc, &mut duty, manner, source, store, out, told)?;
    duty.session().meets_conditions();
    write_files(alloc, wanted, &duty, store)?;
    Ok(())
}

// How lines are asked for and answered.
fn manner_of(terminal: Terminal, wanted: &HandWanted<'_>) -> Manner
    ensures { result ≡ manner_of terminal (working_shown wanted.now) }
{
    Manner {
        echoes: !terminal.is_typed,
        hints: wanted.hint,
        colours: terminal.has_colours && !wanted.plain,
        draws: terminal.is_typed && wanted.screen,
    }
}

// What `work` comes to.
fn worked<S: ReasonedShelf, N: LineSource, W: Store, K: Sink, L: Sink>(
    alloc: Global,
    wanted: &HandWanted<'_>,
    terminal: Terminal,
    shelf: &mut S,
    source: &mut N,
    store: &mut W,
    out: &mut K,
    told: &mut L,
) -> Result<(), Trouble>
    ensures worked { IfOk result (λ _. IsHandWorked (S.held shelf.old) (working_shown wanted.now) terminal
        (N.given source.old) (N.given source.new) (K.taken out.old) (K.taken out.new) (W.written store.new)) }
    ensures grows { Grows (K.taken out.old) (K.taken out.new) }
    ensures told { Grows (L.taken told.old) (L.taken told.new) }
    ensures later { L.faults told.old ≤ L.faults told.new }
    ensures same { (n : List ℕ) → S.held shelf.new n ≡ S.held shelf.old n }
{
    let manner = manner_of(terminal, wanted);
    let texts = fetch_others(alloc, shelf, wanted.plan, wanted.box_name, wanted.scripts)?;
    let done = work_line(alloc, wanted, &texts, manner, source, store, out, told);
    drop(texts);
    done
}

/// Lets a man work a box of the line of these names.
pub(crate) fn serve_work<S: ReasonedShelf, N: LineSource, W: Store, K: Sink, L: Sink>(
    alloc: Global,
    wanted: &HandWanted<'_>,
    terminal: Terminal,
    shelf: &mut S,
    source: &mut N,
    store: &mut W,
    out: &mut K,
    told: &mut L,
) -> Status
    ensures worked { result ≢ Status.Failed → IsHandWorked (S.held shelf.old) (working_shown wanted.now) terminal
        (N.given source.old) (N.given source.new) (K.taken out.old) (K.taken out.new) (W.written store.new) }
    ensures done { result ≢ Status.Failed → result ≡ Status.Done }
    ensures part { result ≡ Status.Failed → TakesFront (K.taken out.old) (K.taken out.new) }
    ensures why { result ≡ Status.Failed
        → TellsWhy (L.taken told.old) (L.taken told.new) (L.faults told.old) (L.faults told.new) }
    ensures same { (n : List ℕ) → S.held shelf.new n ≡ S.held shelf.old n }
{
    match worked(alloc, wanted, terminal, shelf, source, store, out, told) {
        Ok(()) => Status::Done,
        Err(trouble) => tell_trouble(told, &trouble),
    }
}
