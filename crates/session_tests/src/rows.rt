//! Worked sessions.

mod breakpoints;
mod going_back;
mod holding;
mod launching;
mod logging;
mod running;
mod sizes;
mod stale;
mod stepping;
mod untimely;

use crate::transcript::assert_session;
use std::alloc::Global;
use std::process::Abort;
use std::sync::Wait;

/// Asserts that each session goes as it is written, with the client's bytes whole and one by one. Nothing stands before the
/// first one.
fn assert_sessions<R: Abort + Wait>(rt: &R, alloc: Global, sessions: &str) {
    let sessions = sessions.strip_prefix("\n# ").expect(rt, "`# NAME`");
    for session in sessions.split("\n# ") {
        for piece in [usize::MAX, 1] {
            assert_session(rt, alloc, session, piece);
        }
    }
}

#[test]
fn launches_are_refused_or_made(rt: HostRuntime) {
    assert_sessions(&rt, rt.alloc(), launching::SESSIONS);
}

#[test]
fn programs_run_to_stops_and_ends(rt: HostRuntime) {
    assert_sessions(&rt, rt.alloc(), running::SESSIONS);
}

#[test]
fn programs_go_on_by_single_steps(rt: HostRuntime) {
    assert_sessions(&rt, rt.alloc(), stepping::SESSIONS);
}

#[test]
fn programs_stop_at_breakpoints(rt: HostRuntime) {
    assert_sessions(&rt, rt.alloc(), breakpoints::SESSIONS);
}

#[test]
fn runs_are_held(rt: HostRuntime) {
    assert_sessions(&rt, rt.alloc(), holding::SESSIONS);
}

#[test]
fn untimely_input_is_refused(rt: HostRuntime) {
    assert_sessions(&rt, rt.alloc(), untimely::SESSIONS);
}

#[test]
fn stale_reports_are_passed_over(rt: HostRuntime) {
    assert_sessions(&rt, rt.alloc(), stale::SESSIONS);
}

#[test]
fn the_largest_sizes_are_served(rt: HostRuntime) {
    assert_sessions(&rt, rt.alloc(), sizes::SESSIONS);
}

#[test]
fn log_points_speak(rt: HostRuntime) {
    assert_sessions(&rt, rt.alloc(), logging::SESSIONS);
}

#[test]
fn programs_go_back(rt: HostRuntime) {
    assert_sessions(&rt, rt.alloc(), going_back::SESSIONS);
}
