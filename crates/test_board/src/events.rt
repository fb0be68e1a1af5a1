//! Lists of events of the farm core, with their replies.

ghost use Rattle.tp_board.specs.Runs.{AllMembers};

use crate::asserts::{assert_same, unwrap};
use tp_board::{Core, Event, Reply, Shown};

#[test]
fn core_of_two_packets(rt: HostRuntime) {
    let mut core = unwrap(&rt, Core::new(rt.alloc(), 2, 2));
    let events = [
        (0, Event::Claim),
        (1, Event::Claim),
        (0, Event::Claim),
        (0, Event::Finish),
        (0, Event::Finish),
        (0, Event::Claim),
        (1, Event::Abandon),
        (0, Event::Look(Shown::Done)),
        (1, Event::Look(Shown::Lost)),
        (0, Event::Stop),
        (1, Event::Look(Shown::Stop)),
        (0, Event::Look(Shown::Claimed)),
    ];
    let replies = unwrap(&rt, core.play(rt.alloc(), &events));
    let wanted = [
        Reply::Number(0),
        Reply::Number(1),
        Reply::Busy(0),
        Reply::Number(0),
        Reply::Empty,
        Reply::NoMore,
        Reply::Number(1),
        Reply::Value(1),
        Reply::Value(1),
        Reply::Made,
        Reply::Value(1),
        Reply::Value(2),
    ];
    assert_same(&rt, &replies.as_slice(), &wanted.as_slice());
}

#[test]
fn core_of_no_packets(rt: HostRuntime) {
    let mut core = unwrap(&rt, Core::new(rt.alloc(), 0, 1));
    let reply = unwrap(&rt, core.step(rt.alloc(), 0, Event::Claim));
    assert_same(&rt, &reply, &Reply::NoMore);
}

/// 300 claims by member 0.
#[tactic(auto, using(crate::proofs::Claims::are_members))]
fn claims() -> [(u32, Event); 300]
    ensures { AllMembers 1 result }
{
    [(0, Event::Claim); 300]
}

/// A list of 300 events has as many replies, the last of which is made as the second.
#[test]
fn core_plays_long_lists(rt: HostRuntime) {
    let mut core = unwrap(&rt, Core::new(rt.alloc(), 2, 1));
    let replies = unwrap(&rt, core.play(rt.alloc(), &claims()));
    assert_same(&rt, &replies.len(), &300);
    let (first, rest) = unwrap(&rt, replies.split_first().ok_or("no reply"));
    assert_same(&rt, &*first, &Reply::Number(0));
    assert!(rt; rest.iter().all(|reply| *reply == Reply::Busy(0)));
}
