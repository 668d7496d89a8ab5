//! The parts of the law that need no plan: links, ways, moments, replies, and the laws themselves.

use crate::facts::holds;
use block_words::Way;
use line_law::{
    ByWay, DAY_OF_MINUTES, DAY_OF_SECONDS, Link, Reply, box_law, history_law, is_refused,
    moments_of, outcome_law, refusal_law, replies_law, run_law, serial_law, shape_law,
};
use line_report::{answers_law, held_law, most_trains_law, printed_journal_law, verdict_law};

#[test]
fn ways_moments_and_replies(rt: HostRuntime) {
    let leaves_down = Link::Out(Way::Down).pair_no(1) == 1;
    let comes_down = Link::In(Way::Down).pair_no(2) == 1;
    holds(&rt, "the second box to the third", leaves_down & comes_down);
    let leaves_up = Link::Out(Way::Up).pair_no(2) == 1;
    let comes_up = Link::In(Way::Up).pair_no(1) == 1;
    holds(&rt, "the third box to the second", leaves_up & comes_up);
    holds(&rt, "the way up", Link::In(Way::Up).way() == Way::Up);
    let mut both = ByWay { up: 1, down: 2 };
    both.set(Way::Down, 3);
    holds(
        &rt,
        "one way is set",
        (both.get(Way::Up) == 1) & (both.get(Way::Down) == 3),
    );
    holds(&rt, "a day of minutes", moments_of(1) == DAY_OF_MINUTES);
    holds(&rt, "a day of seconds", moments_of(2) == DAY_OF_SECONDS);
    let is_same = Reply::Put.is_same(&Reply::Put) & !Reply::Put.is_same(&Reply::Pulled);
    holds(&rt, "replies are told apart", is_same);
    let is_not_yet = Reply::TrainNotYet { j: 1 }.is_not_yet() & !Reply::Put.is_not_yet();
    holds(&rt, "awaits are told from others", is_not_yet);
    let is_refused = is_refused(&Reply::Silent { k: 0 }) & !is_refused(&Reply::Released);
    holds(&rt, "refusals are told from others", is_refused);
}

#[test]
fn laws_hold() {
    outcome_law();
    refusal_law();
    history_law();
    run_law();
    box_law();
    shape_law();
    serial_law();
    replies_law();
    answers_law();
    printed_journal_law();
    verdict_law();
    held_law();
    most_trains_law();
}
