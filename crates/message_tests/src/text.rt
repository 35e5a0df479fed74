//! Long texts for tests, with a part that is repeated.
use std::alloc::Global;
use std::process::Abort;

/// Returns `first`, then `middle` `times` times, then `last`.
pub fn repeated(
    rt: &impl Abort,
    alloc: Global,
    first: &str,
    middle: &str,
    times: usize,
    last: &str,
) -> String {
    let mut text = String::from_str(alloc, first).expect(rt, "memory");
    for _ in 0..times {
        text.push_str(middle).expect(rt, "memory");
    }
    text.push_str(last).expect(rt, "memory");
    text
}
