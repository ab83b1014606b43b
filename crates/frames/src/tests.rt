// What the rules do on examples.
mod recent;

use crate::every::Every;
use crate::live::Live;
use crate::rule::FrameRule;
use model::error::{Cause, Fault, TableName};
use recent::Recent;
use std::process::Abort;

// 64 frames may be open, base frame 0 among them.
fn fills<R: FrameRule>(rt: &impl Abort, rule: &mut R) {
    for number in 1..64 {
        assert_eq!(rt; rule.open(), Ok(number));
    }
    assert_eq!(rt; rule.open(), Err(Fault::new(Cause::FrameLimit(64))));
    assert_eq!(rt; rule.height(), 64);
}

#[test]
fn every_fills(rt: HostRuntime) {
    fills(&rt, &mut Every::new());
}

#[test]
fn live_fills(rt: HostRuntime) {
    fills(&rt, &mut Live::new());
}

#[test]
fn closing_answers_the_count(rt: HostRuntime) {
    let mut rule = Live::new();
    assert_eq!(rt; rule.open(), Ok(1));
    assert_eq!(rt; rule.log_given(), Ok(1));
    assert_eq!(rt; rule.log_given(), Ok(1));
    assert_eq!(rt; rule.close(), Ok(2));
    assert_eq!(rt; rule.close(), Err(Fault::new(Cause::OnlyBase)));
    assert_eq!(rt; rule.active_frame(), 0);
}

#[test]
fn a_closed_frame_counts_under_every_alone(rt: HostRuntime) {
    let mut every = Every::new();
    let mut live = Live::new();
    assert_eq!(rt; every.open(), Ok(1));
    assert_eq!(rt; live.open(), Ok(1));
    assert!(rt; every.counts(1) && live.counts(1));
    assert_eq!(rt; every.close(), Ok(0));
    assert_eq!(rt; live.close(), Ok(0));
    assert!(rt; every.counts(1) && !live.counts(1));
}

#[test]
fn a_count_fills(rt: HostRuntime) {
    let mut rule = Every::new();
    for _ in 0..65536 {
        assert_eq!(rt; rule.log_given(), Ok(0));
    }
    assert_eq!(rt;
        rule.log_given(),
        Err(Fault::new(Cause::Full(TableName::FrameCount)))
    );
}

#[test]
fn a_rule_may_go_by_its_last_closing(rt: HostRuntime) {
    let mut rule = Recent::new();
    assert_eq!(rt; rule.open(), Ok(1));
    assert_eq!(rt; rule.close(), Ok(0));
    assert_eq!(rt; rule.open(), Ok(2));
    assert!(rt; rule.counts(1) && rule.counts(2));
    assert_eq!(rt; rule.close(), Ok(0));
    assert!(rt; !rule.counts(1) && rule.counts(2));
}
