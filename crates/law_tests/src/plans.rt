//! Plans: what is asked of them. As what they are printed are worked rows.

use crate::facts::all_hold;
use crate::lines::{NAMES, plan_of_three};
use block_words::Way;
use line_plan::{
    BoxPlan, Items, Kind, Label, Numbers, Plan, comes_in, has_neighbour, kind_word, leaves,
    most_boxes, most_delay, way_word,
};
use plan_text::{
    into_upgraded, printed_is_read, read_is_a_plan, read_plan, spelled_is_read, upgrade,
};
use rail_text::NoMemory;
use std::alloc::Global;
use std::process::Abort;

// The numbers of a plan: its version, delay and looks, and how many codes and boxes it has.
fn numbers_of(plan: &Plan) -> [usize; 5] {
    let version = usize::from(plan.version);
    let (delay, looks) = (plan.delay as usize, plan.looks as usize);
    [version, delay, looks, plan.codes.len(), plan.boxes.len()]
}

// The numbers of the upgraded plan.
fn upgraded_numbers(alloc: Global, plan: &Plan) -> Result<[usize; 5], NoMemory> {
    let newer = upgrade(alloc, plan)?;
    let numbers = numbers_of(&newer);
    drop(newer);
    Ok(numbers)
}

// The numbers of the upgraded plan, into which the older one goes.
fn numbers_once_upgraded(plan: Plan) -> [usize; 5] {
    let newer = into_upgraded(plan);
    let numbers = numbers_of(&newer);
    drop(newer);
    numbers
}

// Whether its boxes are Ash and Beech alone.
fn has_two_names(plan: &Plan) -> bool {
    plan.boxes.len() == 2
        && plan.box_name(0) == "Ash"
        && plan.box_name(1) == "Beech"
        && plan.box_names.number_of("Beech") == Some(1)
        && plan.box_names.number_of("Cedar").is_none()
}

#[test]
fn plan_of_two_names_is_read(rt: HostRuntime) {
    let plan = read_plan(rt.alloc(), NAMES.as_bytes()).expect(&rt, "a plan");
    let has_names = has_two_names(&plan);
    let numbers = numbers_of(&plan);
    let newer = upgraded_numbers(rt.alloc(), &plan);
    let taken = numbers_once_upgraded(plan);
    all_hold(
        &rt,
        &[
            ("two names", has_names),
            ("numbers", numbers == [1, 2, 1_000_000_000, 10, 2]),
            ("upgraded", newer == Ok([2, 120, 1_000_000_000, 10, 2])),
            ("taken", taken == [2, 120, 1_000_000_000, 10, 2]),
        ],
    );
}

// What the middle box tells of its levers, signals and tracks.
fn box_facts(beech: &BoxPlan) -> [(&'static str, bool); 10] {
    [
        ("lever 7 works points", beech.kind(7) == Some(Kind::Points)),
        ("there is a lever 120", beech.lever(120).is_some()),
        ("there is no lever 5", beech.lever(5).is_none()),
        ("lever 120 is the last", beech.frame_size() == 120),
        ("lever 3 works a signal", beech.signal(3).is_some()),
        ("an up starter", beech.starter(Way::Up).is_some()),
        ("a down berth", beech.berth(Way::Down).is_some()),
        ("place 1 locks lever 7", beech.track(7) == [1].as_slice()),
        ("a track locks lever 7", beech.has_track(7)),
        ("none locks lever 1", !beech.has_track(1)),
    ]
}

// Whether the plan's last train is its third, with this name.
fn ends_with_train(plan: &Plan, name: &str) -> bool {
    plan.is_train(3) && !plan.is_train(4) && plan.train(3).name.as_str() == name
}

// Whether the plan has three boxes, and what the middle one tells.
fn middle_holds(rt: &impl Abort, plan: &Plan) -> bool {
    match plan.boxes.as_slice() {
        [_, beech, _] => {
            all_hold(rt, &box_facts(beech));
            true
        }
        _ => false,
    }
}

#[test]
fn boxes_and_trains_are_told(rt: HostRuntime) {
    let plan = plan_of_three(rt.alloc(), 1).expect(&rt, "a plan");
    let has_three = middle_holds(&rt, &plan);
    let ends_with_none = ends_with_train(&plan, "none");
    drop(plan);
    all_hold(
        &rt,
        &[
            ("three boxes", has_three),
            ("the third train is the last", ends_with_none),
        ],
    );
}

#[test]
fn ways_words_and_limits(rt: HostRuntime) {
    let facts = [
        ("up of the middle box", has_neighbour(3, 1, Way::Up)),
        ("down of the last box", !has_neighbour(3, 2, Way::Down)),
        ("the down line leaves the first", leaves(3, 0, Way::Down)),
        ("the up line doesn't", !leaves(3, 0, Way::Up)),
        ("the up line comes in there", comes_in(3, 0, Way::Up)),
        ("the down line doesn't", !comes_in(3, 0, Way::Down)),
        ("up", way_word(Way::Up) == "up"),
        ("down", way_word(Way::Down) == "down"),
        ("lock", kind_word(Kind::Lock) == "lock"),
        ("32 boxes", most_boxes(1) == 32),
        ("60 minutes", most_delay(1) == 60),
        ("64 boxes", most_boxes(2) == 64),
        ("3600 seconds", most_delay(2) == 3600),
    ];
    all_hold(&rt, &facts);
}

#[test]
fn lists_keep_their_items(rt: HostRuntime) {
    let mut items = Items::from_vec([7, 8].to_vec(rt.alloc()).expect(&rt, "memory"));
    let has_two = items.len() == 2 && !items.is_empty();
    items.set(1, 9);
    let is_set = items.as_slice() == [7, 9].as_slice();
    let given_back = items.into_vec();
    let is_given_back = given_back.as_slice() == [7, 9].as_slice();
    drop(given_back);
    all_hold(
        &rt,
        &[
            ("two items", has_two),
            ("set", is_set),
            ("given back", is_given_back),
        ],
    );
}

#[test]
fn labels_keep_their_text(rt: HostRuntime) {
    let label = Label::from_string(String::from_str(rt.alloc(), "Ash").expect(&rt, "memory"));
    let is_ash = label.as_str() == "Ash";
    let text = label.into_string();
    let is_given_back = text.as_str() == "Ash";
    drop(text);
    all_hold(&rt, &[("the text", is_ash), ("given back", is_given_back)]);
}

#[test]
fn numbers_have_their_places(rt: HostRuntime) {
    let mut numbers = Numbers::new(rt.alloc());
    let is_added = numbers.add(8).is_ok();
    let is_first = numbers.place_of(8) == Some(0);
    let is_nowhere = numbers.place_of(9).is_none();
    drop(numbers);
    all_hold(
        &rt,
        &[
            ("8 is added", is_added),
            ("8 is the first", is_first),
            ("9 is nowhere", is_nowhere),
        ],
    );
}

#[test]
fn laws_hold() {
    printed_is_read();
    read_is_a_plan();
    spelled_is_read();
}
