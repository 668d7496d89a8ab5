//! Journals that are merged from the registers of worked histories: some stay as they were worked, others are told in
//! another order.

ghost use Rattle.std.specs.Prelude.{All};
ghost use Rattle.line_journal.specs.Lists.{HaveEnded};
ghost use Rattle.line_law.specs.History.{IsLegal};
ghost use Rattle.script_text.specs.Entries.{IsSpelled};

use crate::chains::{chain, told_in_turn, worked_from_the_end};
use crate::facts::{holds, none_is_wrong};
use crate::legal::legal_journal;
use crate::lines::{absolute, in_seconds, permissive, upwards};
use line_journal::{
    Merged, Walk, exchange_law, merge, merged, one_order_law, order_law, parts_law, reply_law,
};
use line_law::{Entry, Journal};
use line_maker::make_line;
use line_plan::Plan;
use line_report::read_journal;
use rail_text::{NoMemory, ReadError};
use std::alloc::Global;
use std::test::Fail;
use train_register::Ended;

// Histories on the down line that are merged as they were worked.
const AS_WORKED: [&str; 15] = [
    "journal 1\n\
1 Ash 10:00 ring down 1 -> rung 1\n\
2 Beech 10:00 await_bell up 1 -> heard 1 1\n\
3 Beech 10:00 ring up 1 -> rung 1\n\
4 Ash 10:00 await_bell down 1 -> heard 1 1\n\
end\n",
    // Beech listened before Ash rang, so her entry stands first, though Ash is the lower box.
    "journal 1\n\
1 Beech 10:00 await_bell up 1 -> not_yet 0 none\n\
2 Ash 10:00 ring down 1 -> rung 1\n\
end\n",
    // The arm is at danger behind a train.
    "journal 1\n\
1 Ash 10:00 bring t1 -> brought\n\
2 Beech 10:00 turn down line_clear -> turned 1\n\
3 Ash 10:00 await_block down line_clear -> seen 1\n\
4 Ash 10:00 pull 8 -> pulled_under 1\n\
5 Ash 10:00 pass 8 -> entered 1 t1\n\
6 Ash 10:00 bring t2 -> brought\n\
7 Ash 10:00 pass 8 -> at_danger\n\
end\n",
    // A second train overruns into the section.
    "journal 1\n\
1 Ash 10:00 bring t1 -> brought\n\
2 Beech 10:00 turn down line_clear -> turned 1\n\
3 Ash 10:00 await_block down line_clear -> seen 1\n\
4 Ash 10:00 pull 8 -> pulled_under 1\n\
5 Ash 10:00 pass 8 -> entered 1 t1\n\
6 Ash 10:00 bring t2 -> brought\n\
7 Ash 10:00 pass 8 -> at_danger\n\
8 Ash 10:00 overrun 8 -> entered 2 t2\n\
end\n",
    // Rows of the locking hold a lever whose points are reversed, and points whose lever is.
    "journal 1\n\
1 Ash 10:00 pull 5 -> pulled\n\
2 Ash 10:00 pull 2 -> held_by_lever 5 row 1\n\
3 Ash 10:00 put 5 -> put\n\
4 Ash 10:00 pull 2 -> pulled\n\
5 Ash 10:00 pull 2 -> already_reversed\n\
6 Ash 10:00 pull 5 -> held_by_lever 2 row 1\n\
end\n",
    // Points that are locked both ways.
    "journal 1\n\
1 Ash 10:00 pull 4 -> pulled\n\
2 Ash 10:00 pull 3 -> pulled\n\
3 Ash 10:00 put 4 -> held_by_lever 3 row 2\n\
4 Ash 10:00 put 3 -> put\n\
5 Ash 10:00 put 4 -> put\n\
6 Ash 10:00 put 4 -> already_normal\n\
end\n",
    // Points that would bring a condition about.
    "journal 1\n\
1 Ash 10:00 pull 1 -> pulled\n\
2 Ash 10:00 pull 2 -> pulled\n\
3 Ash 10:00 pull 6 -> held_by_lever 1 row 3\n\
end\n",
    // A spare lever, a signal without a train, and trains that stand at their places.
    "journal 1\n\
1 Ash 10:00 pull 7 -> spare\n\
2 Ash 10:00 put 7 -> already_normal\n\
3 Ash 10:00 pass 8 -> no_train\n\
4 Ash 10:00 bring t3 -> brought\n\
5 Ash 10:00 bring t3 -> already_brought\n\
6 Ash 10:00 pull 3 -> held_by_track Q t3\n\
7 Ash 10:00 bring t1 -> brought\n\
8 Ash 10:00 bring t2 -> occupied P t1\n\
end\n",
    // Nothing comes to Beech.
    "journal 1\n\
1 Beech 10:00 berth down -> no_train 1\n\
2 Beech 10:00 pull 1 -> pulled\n\
3 Beech 10:00 overrun 1 -> no_train\n\
4 Beech 10:00 hear up -> silent 0\n\
end\n",
    // The starter is held until Line Clear is given.
    "journal 1\n\
1 Ash 10:00 pull 8 -> held_by_instrument down 0 normal unspent\n\
2 Ash 10:00 pull 8 -> held_by_instrument down 0 normal spent\n\
3 Ash 10:00 ring down 1 -> rung 1\n\
4 Beech 10:00 await_bell up 1 -> heard 1 1\n\
5 Beech 10:00 turn down line_clear -> turned 1\n\
6 Ash 10:00 await_block down line_clear -> seen 1\n\
7 Ash 10:00 pull 8 -> pulled_under 1\n\
end\n",
    // One Line Clear gives one pull.
    "journal 1\n\
1 Ash 10:00 pull 8 -> held_by_instrument down 0 normal unspent\n\
2 Ash 10:00 pull 8 -> held_by_instrument down 0 normal spent\n\
3 Ash 10:00 ring down 1 -> rung 1\n\
4 Beech 10:00 await_bell up 1 -> heard 1 1\n\
5 Beech 10:00 turn down line_clear -> turned 1\n\
6 Ash 10:00 await_block down line_clear -> seen 1\n\
7 Ash 10:00 pull 8 -> pulled_under 1\n\
8 Ash 10:00 put 8 -> put\n\
9 Ash 10:00 pull 8 -> held_by_instrument down 1 line_clear spent\n\
end\n",
    // Line Clear is refused while a train stands there.
    "journal 1\n\
1 Ash 10:00 bring t1 -> brought\n\
2 Ash 10:00 overrun 8 -> entered 1 t1\n\
3 Beech 10:00 pull 1 -> pulled\n\
4 Beech 10:00 turn down line_clear -> home_reversed 1\n\
5 Beech 10:00 put 1 -> put\n\
6 Beech 10:00 await_train down -> approaching 1 t1\n\
7 Beech 10:00 berth down -> berthed 1 t1\n\
8 Beech 10:00 turn down line_clear -> track_occupied B t1\n\
9 Beech 10:00 pull 1 -> pulled\n\
10 Beech 10:00 pass 1 -> passed t1\n\
11 Beech 10:00 put 1 -> put\n\
12 Beech 10:00 turn down line_clear -> track_occupied M t1\n\
13 Beech 10:00 turn down train_on_line -> turned 1\n\
14 Beech 10:00 turn down line_clear -> not_from_normal\n\
end\n",
    // An arm that is off isn't overrun.
    "journal 1\n\
1 Beech 10:00 turn down line_clear -> turned 1\n\
2 Ash 10:00 await_block down line_clear -> seen 1\n\
3 Ash 10:00 pull 8 -> pulled_under 1\n\
4 Ash 10:00 bring t1 -> brought\n\
5 Ash 10:00 overrun 8 -> arm_off\n\
end\n",
    // The plain line is full of trains.
    "journal 1\n\
1 Ash 10:00 bring t1 -> brought\n\
2 Ash 10:00 overrun 8 -> entered 1 t1\n\
3 Ash 10:00 bring t2 -> brought\n\
4 Ash 10:00 overrun 8 -> entered 2 t2\n\
5 Ash 10:00 bring t4 -> brought\n\
6 Ash 10:00 overrun 8 -> entered 3 t4\n\
7 Ash 10:00 bring t5 -> brought\n\
8 Ash 10:00 overrun 8 -> entered 4 t5\n\
9 Ash 10:00 bring t6 -> brought\n\
10 Ash 10:00 overrun 8 -> section_full 5\n\
11 Ash 10:00 ring down 1 -> rung 1\n\
12 Beech 10:00 await_bell up 1 -> heard 1 1\n\
13 Beech 10:00 berth down -> berthed 1 t1\n\
14 Beech 10:00 ring up 1 -> rung 1\n\
15 Ash 10:00 await_bell down 1 -> heard 1 1\n\
16 Ash 10:00 overrun 8 -> entered 5 t6\n\
end\n",
    // The control is released after the delay.
    "journal 1\n\
1 Beech 10:00 turn down line_clear -> turned 1\n\
2 Beech 10:00 turn down line_clear -> already_there\n\
3 Beech 10:00 wind down -> not_at_normal\n\
4 Beech 10:00 turn down normal -> turned 2\n\
5 Beech 10:00 turn down line_clear -> welwyn_holds given\n\
6 Beech 10:00 wind down -> winding 10:02\n\
7 Beech 10:00 wind down -> already_winding\n\
8 Beech 10:01 release down -> too_soon 10:02\n\
9 Beech 10:02 release down -> released\n\
10 Beech 10:02 release down -> not_winding\n\
11 Beech 10:02 turn down line_clear -> turned 3\n\
end\n",
];

// Others as they were worked, and as they are merged.
const ON_THE_DOWN_LINE: [(&str, &str); 4] = [
    // Neither bell rang: Ash stands first.
    (
        "journal 1\n\
1 Beech 10:00 hear up -> silent 0\n\
2 Ash 10:00 hear down -> silent 0\n\
3 Beech 10:00 hear up -> silent 0\n\
4 Ash 10:00 hear down -> silent 0\n\
end\n",
        "journal 1\n\
1 Ash 10:00 hear down -> silent 0\n\
2 Ash 10:00 hear down -> silent 0\n\
3 Beech 10:00 hear up -> silent 0\n\
4 Beech 10:00 hear up -> silent 0\n\
end\n",
    ),
    // Beech listened before Ash rang; whether he rang before she did isn't told by the bells.
    (
        "journal 1\n\
1 Beech 10:00 await_bell up 1 -> not_yet 0 none\n\
2 Beech 10:00 ring up 1 -> rung 1\n\
3 Ash 10:00 ring down 1 -> rung 1\n\
end\n",
        "journal 1\n\
1 Beech 10:00 await_bell up 1 -> not_yet 0 none\n\
2 Ash 10:00 ring down 1 -> rung 1\n\
3 Beech 10:00 ring up 1 -> rung 1\n\
end\n",
    ),
    // The second train was brought after Beech looked for it, and entered after that.
    (
        "journal 1\n\
1 Ash 10:00 bring t1 -> brought\n\
2 Ash 10:00 overrun 8 -> entered 1 t1\n\
3 Beech 10:00 berth down -> berthed 1 t1\n\
4 Beech 10:00 await_train down -> not_yet 2\n\
5 Ash 10:00 bring t2 -> brought\n\
6 Ash 10:00 overrun 8 -> entered 2 t2\n\
end\n",
        "journal 1\n\
1 Ash 10:00 bring t1 -> brought\n\
2 Ash 10:00 overrun 8 -> entered 1 t1\n\
3 Ash 10:00 bring t2 -> brought\n\
4 Beech 10:00 berth down -> berthed 1 t1\n\
5 Beech 10:00 await_train down -> not_yet 2\n\
6 Ash 10:00 overrun 8 -> entered 2 t2\n\
end\n",
    ),
    // There was no train for the berth before the first entered.
    (
        "journal 1\n\
1 Beech 10:00 berth down -> no_train 1\n\
2 Ash 10:00 bring t1 -> brought\n\
3 Ash 10:00 overrun 8 -> entered 1 t1\n\
end\n",
        "journal 1\n\
1 Ash 10:00 bring t1 -> brought\n\
2 Beech 10:00 berth down -> no_train 1\n\
3 Ash 10:00 overrun 8 -> entered 1 t1\n\
end\n",
    ),
];

// A code that is heard after the next was refused. The box that hears is the lower one.
const A_SECOND_CODE_IS_REFUSED: &str = "journal 1\n\
1 Beech 10:00 ring up 1 -> rung 1\n\
2 Beech 10:00 ring up 4 -> bell_busy 1 1\n\
3 Ash 10:00 hear down -> heard 1 1\n\
end\n";

// On the up line the lower box is the one in advance, and is kept back by what the other did before.
const ON_THE_UP_LINE: [(&str, &str); 2] = [
    // The instrument is turned again after it was seen and the starter pulled under it.
    (
        "journal 1\n\
1 Ash 10:00 turn up line_clear -> turned 1\n\
2 Beech 10:00 await_block up line_clear -> seen 1\n\
3 Beech 10:00 pull 1 -> pulled_under 1\n\
4 Beech 10:00 pull 1 -> already_reversed\n\
5 Ash 10:00 turn up normal -> turned 2\n\
6 Beech 10:00 await_block up normal -> seen 2\n\
end\n",
        "journal 1\n\
1 Ash 10:00 turn up line_clear -> turned 1\n\
2 Beech 10:00 await_block up line_clear -> seen 1\n\
3 Beech 10:00 pull 1 -> pulled_under 1\n\
4 Ash 10:00 turn up normal -> turned 2\n\
5 Beech 10:00 pull 1 -> already_reversed\n\
6 Beech 10:00 await_block up normal -> seen 2\n\
end\n",
    ),
    // The portion of the first train is cleared away after the fifth found the section full.
    (
        "journal 1\n\
1 Beech 10:00 bring t1 -> brought\n\
2 Beech 10:00 overrun 1 -> entered 1 t1\n\
3 Beech 10:00 bring t2 -> brought\n\
4 Beech 10:00 overrun 1 -> entered 2 t2\n\
5 Beech 10:00 bring t3 -> brought\n\
6 Beech 10:00 overrun 1 -> entered 3 t3\n\
7 Beech 10:00 bring t4 -> brought\n\
8 Beech 10:00 overrun 1 -> entered 4 t4\n\
9 Beech 10:00 bring t5 -> brought\n\
10 Beech 10:00 overrun 1 -> section_full 5\n\
11 Ash 10:00 berth_part up -> part_berthed 1 t1\n\
12 Ash 10:00 pull 1 -> pulled\n\
13 Ash 10:00 pass 1 -> passed t1\n\
14 Ash 10:00 clear_portion up -> cleared 1 t1\n\
15 Ash 10:00 berth up -> berthed 2 t2\n\
16 Beech 10:00 overrun 1 -> entered 5 t5\n\
end\n",
        "journal 1\n\
1 Beech 10:00 bring t1 -> brought\n\
2 Beech 10:00 overrun 1 -> entered 1 t1\n\
3 Ash 10:00 berth_part up -> part_berthed 1 t1\n\
4 Ash 10:00 pull 1 -> pulled\n\
5 Ash 10:00 pass 1 -> passed t1\n\
6 Beech 10:00 bring t2 -> brought\n\
7 Beech 10:00 overrun 1 -> entered 2 t2\n\
8 Beech 10:00 bring t3 -> brought\n\
9 Beech 10:00 overrun 1 -> entered 3 t3\n\
10 Beech 10:00 bring t4 -> brought\n\
11 Beech 10:00 overrun 1 -> entered 4 t4\n\
12 Beech 10:00 bring t5 -> brought\n\
13 Beech 10:00 overrun 1 -> section_full 5\n\
14 Ash 10:00 clear_portion up -> cleared 1 t1\n\
15 Ash 10:00 berth up -> berthed 2 t2\n\
16 Beech 10:00 overrun 1 -> entered 5 t5\n\
end\n",
    ),
];

// Two Line Clears are out at once, and no third.
const TWO_LINE_CLEARS_ON_A_PERMISSIVE_LINE: &str = "journal 1\n\
1 Beech 10:00 turn down line_clear -> turned 1\n\
2 Beech 10:00 turn down normal -> turned 2\n\
3 Beech 10:00 turn down line_clear -> turned 3\n\
4 Beech 10:00 turn down normal -> turned 4\n\
5 Beech 10:00 turn down line_clear -> count_full 2\n\
6 Beech 10:00 wind down -> winding 10:02\n\
7 Beech 10:02 release down -> released\n\
8 Beech 10:02 turn down line_clear -> turned 5\n\
end\n";

// The control is released after the delay, and not a second before.
const A_RELEASE_IN_SECONDS: &str = "journal 2\n\
1 Beech 10:00:00 turn down line_clear -> turned 1\n\
2 Beech 10:00:00 turn down normal -> turned 2\n\
3 Beech 10:00:00 wind down -> winding 10:02:00\n\
4 Beech 10:01:59 release down -> too_soon 10:02:00\n\
5 Beech 10:02:00 release down -> released\n\
end\n";

// A code that the higher box rings to the lower one, at the far end of a line of three.
const A_CODE_FROM_THE_LAST_BOX: &str = "journal 1\n\
1 Cedar 10:00 ring up 1 -> rung 1\n\
2 Beech 10:00 await_bell down 1 -> heard 1 1\n\
end\n";

// One train through the three boxes of a made line.
const A_TRAIN_THROUGH_THREE_BOXES: &str = "journal 1\n\
1 Ash 06:00 bring t1 -> brought\n\
2 Ash 06:00 ring down 1 -> rung 1\n\
3 Beech 06:00 await_bell up 1 -> heard 1 1\n\
4 Beech 06:00 ring up 1 -> rung 1\n\
5 Ash 06:00 await_bell down 1 -> heard 1 1\n\
6 Ash 06:00 ring down 3-1 -> rung 2\n\
7 Beech 06:00 await_bell up 3-1 -> heard 2 3-1\n\
8 Beech 06:00 ring up 3-1 -> rung 2\n\
9 Ash 06:00 await_bell down 3-1 -> heard 2 3-1\n\
10 Beech 06:00 turn down line_clear -> turned 1\n\
11 Ash 06:00 await_block down line_clear -> seen 1\n\
12 Ash 06:00 pull 2 -> pulled_under 1\n\
13 Ash 06:00 ring down 2 -> rung 3\n\
14 Beech 06:00 await_bell up 2 -> heard 3 2\n\
15 Beech 06:00 ring up 2 -> rung 3\n\
16 Ash 06:00 await_bell down 2 -> heard 3 2\n\
17 Ash 06:00 pass 2 -> entered 1 t1\n\
18 Ash 06:00 put 2 -> put\n\
19 Beech 06:00 turn down train_on_line -> turned 2\n\
20 Beech 06:00 await_train down -> approaching 1 t1\n\
21 Beech 06:00 berth down -> berthed 1 t1\n\
22 Beech 06:00 pull 1 -> pulled\n\
23 Beech 06:00 pass 1 -> passed t1\n\
24 Beech 06:00 put 1 -> put\n\
25 Beech 06:00 ring up 2-1 -> rung 4\n\
26 Ash 06:00 await_bell down 2-1 -> heard 4 2-1\n\
27 Ash 06:00 ring down 2-1 -> rung 4\n\
28 Beech 06:00 turn down normal -> turned 3\n\
29 Beech 06:00 await_bell up 2-1 -> heard 4 2-1\n\
30 Beech 06:00 ring down 1 -> rung 1\n\
31 Cedar 06:00 await_bell up 1 -> heard 1 1\n\
32 Cedar 06:00 ring up 1 -> rung 1\n\
33 Beech 06:00 await_bell down 1 -> heard 1 1\n\
34 Beech 06:00 ring down 3-1 -> rung 2\n\
35 Cedar 06:00 await_bell up 3-1 -> heard 2 3-1\n\
36 Cedar 06:00 ring up 3-1 -> rung 2\n\
37 Beech 06:00 await_bell down 3-1 -> heard 2 3-1\n\
38 Cedar 06:00 turn down line_clear -> turned 1\n\
39 Beech 06:00 await_block down line_clear -> seen 1\n\
40 Beech 06:00 pull 2 -> pulled_under 1\n\
41 Beech 06:00 ring down 2 -> rung 3\n\
42 Cedar 06:00 await_bell up 2 -> heard 3 2\n\
43 Cedar 06:00 ring up 2 -> rung 3\n\
44 Beech 06:00 await_bell down 2 -> heard 3 2\n\
45 Beech 06:00 pass 2 -> entered 1 t1\n\
46 Beech 06:00 put 2 -> put\n\
47 Cedar 06:00 turn down train_on_line -> turned 2\n\
48 Cedar 06:00 await_train down -> approaching 1 t1\n\
49 Cedar 06:00 berth down -> berthed 1 t1\n\
50 Cedar 06:00 pull 1 -> pulled\n\
51 Cedar 06:00 pass 1 -> passed t1\n\
52 Cedar 06:00 put 1 -> put\n\
53 Cedar 06:00 ring up 2-1 -> rung 4\n\
54 Beech 06:00 await_bell down 2-1 -> heard 4 2-1\n\
55 Beech 06:00 ring down 2-1 -> rung 4\n\
56 Cedar 06:00 turn down normal -> turned 3\n\
57 Cedar 06:00 await_bell up 2-1 -> heard 4 2-1\n\
58 Cedar 06:00 pull 2 -> pulled\n\
59 Cedar 06:00 pass 2 -> passed t1\n\
60 Cedar 06:00 put 2 -> put\n\
end\n";

// Is the next entry of a walk this one?
fn is_next(walk: &mut Walk<'_>, entry: &Entry) -> bool {
    match walk.next() {
        Some(next) => *next == *entry,
        None => false,
    }
}

// Are these the entries that a walk has ahead?
fn are_ahead(walk: &mut Walk<'_>, entries: &[Entry]) -> bool {
    let mut are_so = true;
    for entry in entries {
        are_so = is_next(walk, entry) & are_so;
    }
    are_so & walk.next().is_none()
}

// The same of a walk that ends here.
fn walks(walk: Walk<'_>, entries: &[Entry]) -> bool {
    let mut walk = walk;
    let is_so = are_ahead(&mut walk, entries);
    drop(walk);
    is_so
}

// Are these the entries of a journal, gone along whole and in its front half?
fn tells(alloc: Global, merged: &Merged<'_>, entries: &[Entry]) -> Result<bool, NoMemory> {
    if entries.len() != merged.len() {
        return Ok(false);
    }
    let half = merged.len() / 2;
    let whole = walks(merged.walk(alloc)?, entries);
    let front = walks(merged.walk_front(alloc, half)?, &entries[..half]);
    Ok(whole & front)
}

// The same of a journal that ends here.
fn told(alloc: Global, merged: Merged<'_>, entries: &[Entry]) -> Result<bool, NoMemory> {
    let is_so = tells(alloc, &merged, entries);
    drop(merged);
    is_so
}

// Are the registers of a line that has ended merged into a journal of these entries?
fn merges_to(alloc: Global, plan: &Plan, ended: &Ended, entries: &[Entry]) -> Result<bool, NoMemory>
    requires { HaveEnded plan.now ended.now.registers }
{
    let journal = merge(alloc, plan, ended)?;
    let is_so = journal.entries.as_slice() == entries;
    drop(journal);
    Ok(is_so)
}

// The same, and are its entries told where its boxes are told?
fn ends_as(alloc: Global, plan: &Plan, ended: &Ended, entries: &[Entry]) -> Result<bool, NoMemory>
    requires { HaveEnded plan.now ended.now.registers }
{
    let is_merged = merges_to(alloc, plan, ended, entries)?;
    let are_told = told(alloc, merged(alloc, plan, ended)?, entries)?;
    Ok(is_merged & are_told)
}

/// Are the registers of a legal history merged into this journal, and do they tell the history where its boxes are
/// told?
pub fn merges_as(
    alloc: Global,
    plan: &Plan,
    worked: &Journal,
    wanted: &Journal,
) -> Result<bool, NoMemory>
    requires legal { IsLegal plan.now worked.now.entries }
    requires spelled { All (IsSpelled plan.now) worked.now.entries }
{
    let ended = Ended::of_journal(alloc, plan, worked)?;
    let entries = worked.entries.as_slice();
    let is_told = match Merged::of_parts(alloc, plan, ended.registers.as_slice(), entries) {
        Ok(again) => told(alloc, again, entries),
        Err(error) => Err(error),
    };
    let is_merged = ends_as(alloc, plan, &ended, wanted.entries.as_slice());
    drop(ended);
    Ok(is_told? & is_merged?)
}

// Is the history that a text spells legal, and are its registers merged into this journal?
fn merges_into(
    alloc: Global,
    plan: &Plan,
    worked: &str,
    wanted: &Journal,
) -> Result<bool, ReadError> {
    match legal_journal(alloc, plan, worked)? {
        Some(worked) => {
            let is_so = merges_as(alloc, plan, &worked, wanted);
            drop(worked);
            Ok(is_so?)
        }
        None => Ok(false),
    }
}

// The same with the journal that another text spells.
fn merges(alloc: Global, plan: &Plan, worked: &str, wanted: &str) -> Result<bool, ReadError> {
    let wanted = read_journal(alloc, plan, wanted.as_bytes())?;
    let is_so = merges_into(alloc, plan, worked, &wanted);
    drop(wanted);
    is_so
}

// The first history of a table that isn't merged as it was worked.
fn first_changed(
    alloc: Global,
    plan: &Plan,
    table: &[&'static str],
) -> Result<Option<&'static str>, ReadError> {
    for worked in table {
        if !merges(alloc, plan, worked, worked)? {
            return Ok(Some(worked));
        }
    }
    Ok(None)
}

// The first history of a table that isn't merged into the journal beside it.
fn first_unmerged(
    alloc: Global,
    plan: &Plan,
    table: &[(&'static str, &'static str)],
) -> Result<Option<&'static str>, ReadError> {
    for (worked, wanted) in table {
        if !merges(alloc, plan, worked, wanted)? {
            return Ok(Some(worked));
        }
    }
    Ok(None)
}

#[test]
fn a_down_line_is_merged(rt: HostRuntime) -> Result<(), Fail> {
    let plan = absolute(rt.alloc())?;
    let changed = first_changed(rt.alloc(), &plan, &AS_WORKED);
    let unmerged = first_unmerged(rt.alloc(), &plan, &ON_THE_DOWN_LINE);
    drop(plan);
    none_is_wrong(&rt, changed?.or(unmerged?));
    Ok(())
}

#[test]
fn an_up_line_is_merged(rt: HostRuntime) -> Result<(), Fail> {
    let plan = upwards(rt.alloc())?;
    let changed = first_changed(rt.alloc(), &plan, &[A_SECOND_CODE_IS_REFUSED]);
    let unmerged = first_unmerged(rt.alloc(), &plan, &ON_THE_UP_LINE);
    drop(plan);
    none_is_wrong(&rt, changed?.or(unmerged?));
    Ok(())
}

#[test]
fn a_permissive_line_is_merged(rt: HostRuntime) -> Result<(), Fail> {
    let plan = permissive(rt.alloc())?;
    let table = [TWO_LINE_CLEARS_ON_A_PERMISSIVE_LINE];
    let changed = first_changed(rt.alloc(), &plan, &table);
    drop(plan);
    none_is_wrong(&rt, changed?);
    Ok(())
}

#[test]
fn a_line_in_seconds_is_merged(rt: HostRuntime) -> Result<(), Fail> {
    let plan = in_seconds(rt.alloc())?;
    let changed = first_changed(rt.alloc(), &plan, &[A_RELEASE_IN_SECONDS]);
    drop(plan);
    none_is_wrong(&rt, changed?);
    Ok(())
}

#[test]
fn a_made_line_is_merged(rt: HostRuntime) -> Result<(), Fail> {
    let (plan, scripts) = make_line(rt.alloc(), 1)?;
    drop(scripts);
    let table = [A_TRAIN_THROUGH_THREE_BOXES, A_CODE_FROM_THE_LAST_BOX];
    let changed = first_changed(rt.alloc(), &plan, &table);
    drop(plan);
    none_is_wrong(&rt, changed?);
    Ok(())
}

// Is what was worked on the chain merged in the order of the boxes?
fn is_told_in_turn(alloc: Global, plan: &Plan, worked: &str) -> Result<bool, ReadError> {
    let wanted = told_in_turn(alloc)?;
    let merges = merges(alloc, plan, worked, wanted.as_str());
    drop(wanted);
    merges
}

// So of the chain worked from its end.
fn chain_merges(alloc: Global, plan: &Plan) -> Result<bool, ReadError> {
    let worked = worked_from_the_end(alloc)?;
    let is_so = is_told_in_turn(alloc, plan, worked.as_str());
    drop(worked);
    is_so
}

#[test]
fn a_chain_of_boxes_is_merged(rt: HostRuntime) -> Result<(), Fail> {
    let plan = chain(rt.alloc())?;
    let merges = chain_merges(rt.alloc(), &plan);
    drop(plan);
    holds(&rt, "a chain of 32 boxes", merges?);
    Ok(())
}

#[test]
fn laws_of_the_merge_hold() {
    reply_law();
    parts_law();
    exchange_law();
    order_law();
    one_order_law();
}
