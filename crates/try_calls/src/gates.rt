//! `mr_link`: gates, through their bound, and faults that no scene comes upon.
use mr_lane::Sender;
use mr_link::{Gate, LinkFault, OpenGate, Snag};

/// How many of the first records of a link a gate lets pass, and how many it may close before.
fn counts<G: Gate>(gate: &G, link: Sender) -> (u32, u32) {
    let mut passed = 0;
    let mut may_close = 0;
    for number in 1..6u64 {
        if gate.pass(link, number) {
            passed = saturated(passed);
        }
        if gate.may_close(link, number) {
            may_close = saturated(may_close);
        }
    }
    (passed, may_close)
}

/// One more.
fn saturated(count: u32) -> u32 {
    count.saturating_add(1)
}

#[test]
fn an_open_gate_lets_all_pass(rt: HostRuntime) {
    for link in [Sender::FirstLink, Sender::SecondLink] {
        assert_eq!(rt; counts(&OpenGate, link), (5, 0));
    }
}

#[test]
fn faults_of_links_tell_their_numbers(rt: HostRuntime) {
    assert_eq!(rt; LinkFault::OutOfMemory.number(), 0);
    assert_eq!(rt; LinkFault::LinkDown.number(), 1);
    assert_eq!(rt; Snag::TooLong.number(), 3);
}
