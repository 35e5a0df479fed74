//! Breakpoints asked for by their lines: the answers, and where the plan has them.

ghost use Rattle.dbg_plan.specs.Plans.{IsPlanOf};

use dbg_plan::{Plan, Resolution, resolve};
use pl0_unit::Unit;
use sample_programs::{LOOP, compiled};
use std::alloc::Global;
use std::process::Abort;
use test_kit::{Asked, breakpoints_at};

const TWO_STEPS: &str = "var x;\n\nbegin x := 1;\n! x end.";

fn ask(rt: &impl Abort, alloc: Global, unit: &Unit, asked: &[Asked]) -> (Plan, Vec<Resolution>)
    ensures { IsPlanOf unit.now result.0 }
{
    let asked = breakpoints_at(alloc, asked).expect(rt, "memory");
    assert!(rt; asked.len() <= 256);
    resolve(alloc, unit, &asked).expect(rt, "memory")
}

/// Asserts that these breakpoints in a text are answered so.
fn assert_answers(
    rt: &impl Abort,
    alloc: Global,
    text: &str,
    asked: &[Asked],
    wanted: &[Resolution],
) {
    let unit = compiled(alloc, text).expect(rt, "a lawful text");
    let (_, answers) = ask(rt, alloc, &unit, asked);
    assert_eq!(rt; answers.as_slice(), wanted, "{asked:?}");
}

const LINES: [Asked; 3] = [(2, "", "", ""), (4, "", "", ""), (5, "", "", "")];

const ANSWERS: [Resolution; 3] = [Resolution::At(0), Resolution::At(1), Resolution::NoStep];

#[test]
fn answers_lines(rt: HostRuntime) {
    assert_answers(
        &rt,
        rt.alloc(),
        TWO_STEPS,
        LINES.as_slice(),
        ANSWERS.as_slice(),
    );
}

/// A line of the loop with a condition and a hit condition, and the expected answer.
const TEXTS: [(u32, &str, &str, Resolution); 16] = [
    (3, "x > 2", "%2", Resolution::At(1)),
    (3, "1 / 0 = 1", "3", Resolution::At(1)),
    (3, "", "2147483647", Resolution::At(1)),
    (3, "x >", "", Resolution::BadCondition),
    (3, "y > 2", "", Resolution::BadCondition),
    (3, "x", "03", Resolution::BadCondition),
    (4, "x", "03", Resolution::NoStep),
    (3, "", "03", Resolution::BadHitCondition),
    (3, "", "0", Resolution::BadHitCondition),
    (3, "", "%0", Resolution::BadHitCondition),
    (3, "", "%", Resolution::BadHitCondition),
    (3, "", "% 2", Resolution::BadHitCondition),
    (3, "", "+2", Resolution::BadHitCondition),
    (3, "", "%+2", Resolution::BadHitCondition),
    (3, "", "2147483648", Resolution::BadHitCondition),
    (3, "", "99999999999999999999", Resolution::BadHitCondition),
];

#[test]
fn answers_texts(rt: HostRuntime) {
    for (line, condition, hit, wanted) in TEXTS.as_slice() {
        let asked = [(*line, *condition, *hit, "")];
        assert_answers(
            &rt,
            rt.alloc(),
            LOOP,
            asked.as_slice(),
            [*wanted].as_slice(),
        );
    }
}

/// Asserts that the breakpoints at a step have these numbers.
fn assert_entry(rt: &impl Abort, unit: &Unit, plan: &Plan, step: usize, wanted: &[usize])
    requires { IsPlanOf unit.now plan.now }
{
    assert!(rt; step < unit.steps.len());
    let entry = plan.entry(step);
    assert_eq!(rt; entry.len(), wanted.len(), "step {step}");
    for (breakpoint, number) in entry.iter().zip(wanted) {
        assert_eq!(rt; breakpoint.number, *number, "step {step}");
    }
}

fn assert_entries(rt: &impl Abort, alloc: Global, unit: &Unit) {
    let asked = [(3, "", "", ""), (2, "", "", ""), (3, "", "", "")];
    let (plan, _) = ask(rt, alloc, unit, asked.as_slice());
    assert_entry(rt, unit, &plan, 0, [1usize].as_slice());
    assert_entry(rt, unit, &plan, 1, [0usize, 2].as_slice());
    assert_entry(rt, unit, &plan, 2, [].as_slice());
}

#[test]
fn stands_by_steps(rt: HostRuntime) {
    let unit = compiled(rt.alloc(), LOOP).expect(&rt, "a lawful text");
    assert_entries(&rt, rt.alloc(), &unit);
}

/// As many breakpoints as may be asked for, each with a condition, in a text of the greatest length.
#[test]
fn most_breakpoints_of_the_longest_text(rt: HostRuntime) {
    let steps = "x:=1;".repeat(rt.alloc(), 13_103).expect(&rt, "memory");
    let text = format!(in rt.alloc(); "var x;\nbegin {steps}end.    ").expect(&rt, "memory");
    assert_eq!(rt; text.len(), 65_536);
    let asked = [(2, "x > 1", "%2", ""); 256];
    let wanted = [Resolution::At(0); 256];
    assert_answers(
        &rt,
        rt.alloc(),
        text.as_str(),
        asked.as_slice(),
        wanted.as_slice(),
    );
}
