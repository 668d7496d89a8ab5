//! A register entry by entry. The printed registers of a run are shown by the worked cases.

ghost use Rattle.std.specs.Prelude.{◌<◌, All, length};
ghost use Rattle.script_text.specs.Entries.{IsSpelled};

use crate::facts::{holds, is_text};
use crate::lines::absolute;
use block_words::Way;
use line_law::{Act, Call, Entry, Reply};
use line_plan::Plan;
use rail_text::NoMemory;
use script_text::is_spelled;
use std::alloc::Global;
use std::test::Fail;
use train_register::{Register, print_register};

// An entry of Beech.
const HEARD: Entry = Entry {
    box_no: 1,
    call: Call {
        moment: 600,
        act: Act::AwaitBell {
            side: Way::Up,
            code: 1,
        },
    },
    reply: Reply::Heard { k: 1, code: 1 },
};

// Is the register of Beech with this entry printed so?
fn is_printed(alloc: Global, plan: &Plan, register: &Register) -> Result<bool, NoMemory>
    requires at { register.now.box_no < length plan.now.boxes }
    requires spelled { All (IsSpelled plan.now) register.now.entries }
{
    let printed = print_register(alloc, plan, register)?;
    let text = "register Beech 1\n1 10:00 await_bell up 1 -> heard 1 1\n";
    Ok(is_text(printed, text))
}

// Is the entry pushed into the register of Beech, and printed there?
fn is_taken(alloc: Global, plan: &Plan) -> Result<bool, NoMemory> {
    if plan.boxes.len() != 2 || !is_spelled(plan, &HEARD) {
        return Ok(false);
    }
    let mut register = Register::new(alloc, 1, 2)?;
    let has_room = register.spare() == 2;
    register.push(HEARD);
    let is_in = register.entries() == [HEARD].as_slice();
    let has_less = (register.box_no() == 1) & (register.spare() == 1);
    let is_printed = is_printed(alloc, plan, &register);
    drop(register);
    Ok(has_room & is_in & has_less & is_printed?)
}

#[test]
fn a_register_takes_an_entry(rt: HostRuntime) -> Result<(), Fail> {
    let plan = absolute(rt.alloc())?;
    let is_taken = is_taken(rt.alloc(), &plan);
    drop(plan);
    holds(&rt, "Beech's entry is taken", is_taken?);
    Ok(())
}
