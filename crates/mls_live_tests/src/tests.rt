//! The tests, and what they share.
mod commands;
mod few_turns;
mod gates;
mod holding;
mod many_seats;
mod moments;
mod retiring;
mod servers;
mod settling;
mod stages;
mod stories;

use crate::tests::many_seats::MANY;
use crate::tests::servers::SMALL;
use crate::tests::stories::{Story, play};
use std::test::Fail;

#[test]
fn check_off_lock(rt: HostRuntime) -> Result<(), Fail> {
    play(&rt, rt.alloc(), SMALL, Story::PaintHeld)
}

#[test]
fn two_checks_at_once(rt: HostRuntime) -> Result<(), Fail> {
    play(&rt, rt.alloc(), SMALL, Story::TwoChecks)
}

#[test]
fn seats_during_a_retirement(rt: HostRuntime) -> Result<(), Fail> {
    play(&rt, rt.alloc(), MANY, Story::ManySeats)
}

#[test]
fn closed_in_mid_check(rt: HostRuntime) -> Result<(), Fail> {
    play(&rt, rt.alloc(), SMALL, Story::ClosedInMidCheck)
}

#[test]
fn notices_and_channels(rt: HostRuntime) -> Result<(), Fail> {
    play(&rt, rt.alloc(), SMALL, Story::Channels)
}

#[test]
fn worker_of_no_turns(rt: HostRuntime) -> Result<(), Fail> {
    play(&rt, rt.alloc(), SMALL, Story::FewTurns)
}

#[test]
fn all_retired(rt: HostRuntime) -> Result<(), Fail> {
    play(&rt, rt.alloc(), SMALL, Story::Retiring)
}

#[test]
fn world_settled(rt: HostRuntime) -> Result<(), Fail> {
    play(&rt, rt.alloc(), SMALL, Story::Settling)
}
