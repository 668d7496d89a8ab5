//! The control of an absolute line and of a permissive one, each worked through trains and releases.

use crate::facts::all_hold;
use block_words::WelwynState;
use welwyn_control::{Permit, ReleaseReply, Welwyn};

#[test]
fn a_control_is_worked(rt: HostRuntime) {
    let mut control = Welwyn::default();
    let is_new = control == Welwyn::new();
    let is_ready = control.state() == WelwynState::Ready && control.may_give();
    control.give();
    let is_given = control.state() == WelwynState::Given && !control.may_give();
    control.cleared();
    let stays_given = control.state() == WelwynState::Given;
    control.berthed();
    let is_berthed = control.state() == WelwynState::Berthed && !control.may_give();
    control.cleared();
    all_hold(
        &rt,
        &[
            ("the default control is new", is_new),
            ("a new control may give", is_ready),
            ("it has given", is_given),
            ("no train stood in the berth", stays_given),
            ("a train stands in the berth", is_berthed),
            ("the berth is cleared", control == Welwyn::new()),
        ],
    );
}

#[test]
fn a_control_is_released_once_its_moment_has_come(rt: HostRuntime) {
    let mut control = Welwyn::new();
    control.give();
    let unwound = release(&mut control, 599);
    let ready_at = wind(&mut control, 600);
    let wound = control;
    let again = wind(&mut control, 601);
    let early = release(&mut control, 601);
    let is_kept = control == wound;
    let reply = release(&mut control, 602);
    all_hold(
        &rt,
        &[
            ("nothing to release", unwound == ReleaseReply::NotWinding),
            ("winding begins", ready_at == Some(602) && wound.winding()),
            ("it begins once", again.is_none()),
            ("too soon", early == TOO_SOON && is_kept),
            ("released", reply == ReleaseReply::Released),
            ("new again", control == Welwyn::new() && !control.winding()),
            (
                "released once",
                control.release(602) == ReleaseReply::NotWinding,
            ),
        ],
    );
}

const TOO_SOON: ReleaseReply = ReleaseReply::TooSoon { ready_at: 602 };

fn wind(control: &mut Welwyn, moment: u16) -> Option<u32> {
    control.wind(u32::from(moment), 2)
}

fn release(control: &mut Welwyn, moment: u32) -> ReleaseReply {
    control.release(moment)
}

#[test]
fn a_permit_counts_its_trains(rt: HostRuntime) {
    let mut permit = Permit::new(2);
    permit.cleared();
    let none = permit.out() == 0 && permit.may_give();
    permit.give();
    let one = permit.out() == 1 && permit.may_give();
    permit.give();
    let two = permit.out() == 2 && !permit.may_give();
    permit.berthed();
    permit.cleared();
    all_hold(
        &rt,
        &[
            ("no train is out", none),
            ("one is out", one),
            ("two are out", two),
            ("one has come", permit.out() == 1),
        ],
    );
}

fn wind_permit(permit: &mut Permit, moment: u16) -> Option<u32> {
    permit.wind(u32::from(moment), 2)
}

fn release_permit(permit: &mut Permit, moment: u32) -> ReleaseReply {
    permit.release(moment)
}

#[test]
fn a_permit_is_released_unless_its_train_comes(rt: HostRuntime) {
    let mut permit = Permit::new(2);
    permit.give();
    let mut other = permit;
    let ready_at = wind_permit(&mut permit, 600);
    let again = wind_permit(&mut permit, 600);
    let early = release_permit(&mut permit, 601);
    let is_out = permit.winding() && permit.out() == 1;
    let reply = release_permit(&mut permit, 602);
    let _ = wind_permit(&mut other, 600);
    other.berthed();
    let is_ended = !other.winding() && other.out() == 1;
    all_hold(
        &rt,
        &[
            ("winding begins", ready_at == Some(602)),
            ("it begins once", again.is_none()),
            ("too soon", early == TOO_SOON && is_out),
            ("released", reply == ReleaseReply::Released),
            ("new again", permit == Permit::new(2)),
            ("a train that comes ends the winding", is_ended),
            (
                "nothing to release",
                other.release(602) == ReleaseReply::NotWinding,
            ),
        ],
    );
}

#[test]
fn a_permit_without_delay_is_released_at_its_moment(rt: HostRuntime) {
    let mut permit = Permit::new(2);
    permit.give();
    let ready_at = permit.wind(610, 0);
    let again = permit.wind(610, 0);
    let early = permit.release(609);
    let is_out = permit.out() == 1;
    let reply = permit.release(610);
    let too_soon = ReleaseReply::TooSoon { ready_at: 610 };
    all_hold(
        &rt,
        &[
            ("ready at once", ready_at == Some(610)),
            ("it begins once", again.is_none()),
            ("too soon", early == too_soon && is_out),
            ("released", reply == ReleaseReply::Released),
            ("new again", permit == Permit::new(2)),
        ],
    );
}
