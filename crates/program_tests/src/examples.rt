//! The example calls at the heads of `pl0_syntax` and `pl0_machine`.

use pl0_machine::{Machine, StepOutcome};
use pl0_syntax::{FaultKind, SyntaxFault, parse, steps};
use sample_programs::compiled;

#[test]
fn reads_a_lawful_text(rt: HostRuntime) {
    let alloc = rt.alloc();
    let tree = parse(alloc, b"var x; begin x := 6; ! x * 7 end.").expect(&rt, "a lawful text");
    let steps = steps(alloc, &tree).expect(&rt, "memory");
    assert_eq!(&rt; steps.len(), 3);
}

#[test]
fn finds_a_name_that_is_not_declared(rt: HostRuntime) {
    let refused = parse(rt.alloc(), b"var x; begin x := 6; ! y * 7 end.");
    let Err(SyntaxFault::InText { kind, place }) = refused else {
        panic!(&rt; "`y` is not declared");
    };
    assert_eq!(&rt;
        (kind, place.line, place.column),
        (FaultKind::Unknown, 1, 24)
    );
}

#[test]
fn runs_a_program(rt: HostRuntime) {
    let alloc = rt.alloc();
    let unit = compiled(alloc, "! 6 * 7.").expect(&rt, "a lawful text");
    let mut machine = Machine::new(alloc, unit).expect(&rt, "memory");
    assert!(&rt; machine.depth() > 0);
    assert_eq!(&rt; machine.step(), StepOutcome::Went(Some(42)));
    assert!(&rt; machine.depth() > 0);
    assert_eq!(&rt; machine.step(), StepOutcome::Done);
}
