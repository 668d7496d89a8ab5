//! What the man of a box notices of what others do, as text.

ghost use Rattle.std.specs.Prelude.{◌≡◌, ◌+◌, ◌==◌, ◌<◌, ◌++◌, All, IfSome, IsTrue, OnOk, length, string_bytes};
ghost use Rattle.line_law.specs.Known.{is_code_no, knows_act};
ghost use Rattle.line_law.specs.Law.{box_plan_of};
ghost use Rattle.line_law.specs.Levers.{starter_way};
ghost use Rattle.line_plan.specs.Frames.{signal_of};
ghost use Rattle.line_plan.specs.Plans.{is_train};
ghost use Rattle.script_text.specs.Entries.{IsSpelled};
ghost use Rattle.script_text.specs.Replies.{is_spelled_reply};
ghost use Rattle.box_view.specs.Notices.{entered_by, entered_text, entering_text, is_rung, is_same_code, is_turned};
ghost use Rattle.box_view.specs.Notices.{named_repeater, named_ring, notice_text, noticed, notices_text};
ghost use Rattle.box_view.specs.Notices.{repeater_line, ring_back, ring_front, ring_line, rung_text, train_line};
ghost use Rattle.script_text.specs.Names.{train_text};

use crate::meaning::{put_asked, put_meaning};
use crate::sides::leads;
use crate::sounds::put_sound;
use crate::words::{put_five, put_four, put_three};
use bell_codes::CodeNo;
use block_words::{Position, Way};
use line_law::{Act, ByWay, Entry, Passage, Reply, starter_way};
use line_plan::{Plan, way_word};
use reply_sentences::position_name;
use script_text::put_code;
use std::alloc::AllocError;

/// The man of a box who notices what others do: his box, how many trains he has taken of each line that comes in, and
/// the code that he rang last towards each side, if no code has come back from there since.
#[derive(Clone, Copy)]
pub struct Listener {
    pub box_no: u32,
    pub taken: ByWay<u64>,
    pub rung: ByWay<Option<CodeNo>>,
}

// ---- which entries he notices

/// Whether a code was rung.
pub fn is_rung(reply: &Reply) -> bool
    ensures { result ≡ is_rung reply.now }
{
    matches!(reply, Reply::Rung { k: _ })
}

// Whether a commutator was turned.
fn is_turned(reply: &Reply) -> bool
    ensures { result ≡ is_turned reply.now }
{
    matches!(reply, Reply::Turned { v: _ })
}

// The train that entered a section, with its number, if one did.
#[tactic(auto, unfolding(script_text::specs::Replies::is_spelled_reply))]
fn entered_by(plan: &Plan, from: u32, reply: &Reply) -> Option<Passage>
    requires { IsTrue (is_spelled_reply plan.now from reply.now) }
    ensures train { result ≡ entered_by reply.now }
    ensures known { IfSome result (λ passage. IsTrue (is_train plan.now.trains passage.train)) }
{
    match *reply {
        Reply::Entered { train, k } => Some(Passage { number: k, train }),
        _ => None,
    }
}

// ---- their lines

// Whether the code that he rang last is this one.
fn is_same_code(last: Option<CodeNo>, code: CodeNo) -> bool
    ensures { result ≡ is_same_code last code }
{
    match last {
        Some(rung) => rung == code,
        None => false,
    }
}

// Puts what a code that is rung to him asks or means behind a text.
fn put_rung(
    out: &mut String,
    plan: &Plan,
    last: Option<CodeNo>,
    code: CodeNo,
) -> Result<(), AllocError>
    requires { IsTrue (is_code_no plan.now code) }
    ensures { OnOk result (string_bytes out.new ≡ string_bytes out.old ++ rung_text plan.now last code) }
{
    if !is_same_code(last, code) {
        return put_asked(out, plan, code);
    }
    out.push_str("acknowledged, ")?;
    put_meaning(out, plan, code)
}

// Puts a code as it sounds and as it is written behind a text.
fn put_ring_front(out: &mut String, plan: &Plan, code: CodeNo) -> Result<(), AllocError>
    requires { IsTrue (is_code_no plan.now code) }
    ensures { OnOk result (string_bytes out.new ≡ string_bytes out.old ++ ring_front plan.now code) }
{
    out.push('*')?;
    put_sound(out, plan, code)?;
    out.push_str("*  ")?;
    put_code(out, plan, code)
}

// Puts from which box it comes, and what it asks or means, behind a text.
fn put_ring_back(
    out: &mut String,
    plan: &Plan,
    last: Option<CodeNo>,
    name: &str,
    code: CodeNo,
) -> Result<(), AllocError>
    requires { IsTrue (is_code_no plan.now code) }
    ensures { OnOk result (string_bytes out.new
        ≡ string_bytes out.old ++ ring_back plan.now last name.now code) }
{
    out.push_str(" from ")?;
    out.push_str(name)?;
    out.push_str(": ")?;
    put_rung(out, plan, last, code)?;
    out.push('\n')
}

// Puts the line of a code that a box of this name rings to him behind a text.
fn put_ring_line(
    out: &mut String,
    plan: &Plan,
    last: Option<CodeNo>,
    name: &str,
    code: CodeNo,
) -> Result<(), AllocError>
    requires { IsTrue (is_code_no plan.now code) }
    ensures { OnOk result (string_bytes out.new
        ≡ string_bytes out.old ++ named_ring plan.now last name.now code) }
{
    put_ring_front(out, plan, code)?;
    put_ring_back(out, plan, last, name, code)
}

// Puts the line of a code that a box rings to him behind a text.
fn put_ring(
    out: &mut String,
    plan: &Plan,
    last: Option<CodeNo>,
    from: u32,
    code: CodeNo,
) -> Result<(), AllocError>
    requires from { from < length plan.now.boxes }
    requires code { IsTrue (is_code_no plan.now code) }
    ensures { OnOk result (string_bytes out.new ≡ string_bytes out.old ++ ring_line plan.now last from code) }
{
    put_ring_line(out, plan, last, plan.box_name(from), code)
}

// Puts what the repeater to a box of this name shows behind a text.
fn put_shown(out: &mut String, way: Way, name: &str, position: Position) -> Result<(), AllocError>
    ensures { OnOk result (string_bytes out.new ≡ string_bytes out.old ++ named_repeater way name.now position) }
{
    put_four(
        out,
        "the repeater of the ",
        way_word(way),
        " line to ",
        name,
    )?;
    put_three(out, " shows ", position_name(position), "\n")
}

// Puts the line of a repeater of his that a box turns behind a text.
fn put_repeater(
    out: &mut String,
    plan: &Plan,
    from: u32,
    way: Way,
    position: Position,
) -> Result<(), AllocError>
    requires { from < length plan.now.boxes }
    ensures { OnOk result (string_bytes out.new ≡ string_bytes out.old ++ repeater_line plan.now from way position) }
{
    put_shown(out, way, plan.box_name(from), position)
}

// The name of a train.
fn train_name(plan: &Plan, train: u32) -> &str
    requires { IsTrue (is_train plan.now.trains train) }
    ensures { result.now ≡ train_text plan.now train }
{
    plan.train(train).name.as_str()
}

// Puts the line of a train that comes to his home behind a text.
fn put_train_line(out: &mut String, plan: &Plan, way: Way, train: u32) -> Result<(), AllocError>
    requires { IsTrue (is_train plan.now.trains train) }
    ensures { OnOk result (string_bytes out.new ≡ string_bytes out.old ++ train_line plan.now way train) }
{
    put_five(
        out,
        "a train comes to the home of the ",
        way_word(way),
        " line: ",
        train_name(plan, train),
        "\n",
    )
}

// Whether a number is the next behind so many.
fn is_next(taken: u64, number: u64) -> bool
    ensures { result ≡ (number == taken + 1) }
{
    number > taken && number - taken == 1
}

// Puts what he notices of a train that enters a line to him behind a text.
fn put_entered(
    out: &mut String,
    plan: &Plan,
    way: Way,
    taken: u64,
    entered: Option<Passage>,
) -> Result<(), AllocError>
    requires { IfSome entered (λ passage. IsTrue (is_train plan.now.trains passage.train)) }
    ensures { OnOk result (string_bytes out.new ≡ string_bytes out.old ++ entered_text plan.now way taken entered) }
{
    match entered {
        Some(passage) => {
            if is_next(taken, passage.number) {
                return put_train_line(out, plan, way, passage.train);
            }
            Ok(())
        }
        None => Ok(()),
    }
}

// Puts what he notices of a train that passes the signal of a lever of another box behind a text.
fn put_entering(
    out: &mut String,
    plan: &Plan,
    him: &Listener,
    from: u32,
    reply: &Reply,
    lever: u32,
) -> Result<(), AllocError>
    requires from { from < length plan.now.boxes }
    requires reply { IsTrue (is_spelled_reply plan.now from reply.now) }
    ensures { OnOk result (string_bytes out.new ≡ string_bytes out.old
        ++ entering_text plan.now him.now from reply.now
        (starter_way (signal_of (box_plan_of plan.now from) lever))) }
{
    let there = &plan.boxes.as_slice()[from as usize];
    match starter_way(there.signal(lever)) {
        Some(way) => {
            if !leads(plan, from, way, him.box_no) {
                return Ok(());
            }
            put_entered(
                out,
                plan,
                way,
                him.taken.get(way),
                entered_by(plan, from, reply),
            )
        }
        None => Ok(()),
    }
}

// Puts what he notices of an act of another box behind a text.
fn put_noticed(
    out: &mut String,
    plan: &Plan,
    him: &Listener,
    from: u32,
    reply: &Reply,
    act: Act,
) -> Result<(), AllocError>
    requires from { from < length plan.now.boxes }
    requires reply { IsTrue (is_spelled_reply plan.now from reply.now) }
    requires act { IsTrue (knows_act plan.now from act) }
    ensures { OnOk result (string_bytes out.new
        ≡ string_bytes out.old ++ noticed plan.now him.now from reply.now act) }
{
    match act {
        Act::Ring { side, code } => {
            if is_rung(reply) && leads(plan, from, side, him.box_no) {
                return put_ring(out, plan, him.rung.get(side.opposite()), from, code);
            }
            Ok(())
        }
        Act::Turn { way, position } => {
            if is_turned(reply) && leads(plan, from, way.opposite(), him.box_no) {
                return put_repeater(out, plan, from, way, position);
            }
            Ok(())
        }
        Act::Pass { lever } | Act::Overrun { lever } => {
            put_entering(out, plan, him, from, reply, lever)
        }
        _ => Ok(()),
    }
}

// Puts what he notices of an entry behind a text.
#[tactic(auto, using(crate::proofs::Noticing::act_known))]
fn put_notice(
    out: &mut String,
    plan: &Plan,
    him: &Listener,
    entry: &Entry,
) -> Result<(), AllocError>
    requires { IsSpelled plan.now entry.now }
    ensures { OnOk result (string_bytes out.new
        ≡ string_bytes out.old ++ notice_text plan.now him.now entry.now) }
{
    put_noticed(out, plan, him, entry.box_no, &entry.reply, entry.call.act)
}

/// Puts what a man notices at his box of what others did behind a text, a line each, in the order of the entries: a
/// code that is rung to him, as it sounds, with what it asks or means; a turn of the instrument of a line that leaves
/// him, as his repeater shows it; and a train that comes to his home, where it is the next that he takes. A code that
/// is the one that he rang last towards that side is acknowledged. The entries are ones that the line can spell. Where
/// memory runs out a part may stand behind the text.
#[tactic(auto, using(rail_text::proofs::Texts::texts))]
pub fn put_notices(
    out: &mut String,
    plan: &Plan,
    him: &Listener,
    entries: &[Entry],
) -> Result<(), AllocError>
    requires { All (λ entry. IsSpelled plan.now entry) entries.now }
    ensures { OnOk result (string_bytes out.new
        ≡ string_bytes out.old ++ notices_text plan.now him.now entries.now) }
{
    for entry in entries {
        put_notice(out, plan, him, entry)?;
    }
    Ok(())
}
