//! The example calls at the head of `dbg_plan`.

use crate::steps::goes;
use dbg_plan::{Debuggee, Logs, Mode, Reason, SourceBreakpoint, resolve};
use pl0_machine::Machine;
use sample_programs::compiled;
use std::sync::Arc;

#[test]
fn stops_at_a_breakpoint(rt: HostRuntime) {
    let alloc = rt.alloc();
    let unit = compiled(alloc, "var x;\nwhile x < 6 do\nx := x + 1.").expect(&rt, "a lawful text");
    let asked = SourceBreakpoint {
        line: 3,
        condition: "x = 0",
        hit_condition: "",
        log_message: "",
    };
    let (plan, _) = resolve(alloc, &unit, [asked].as_slice()).expect(&rt, "memory");
    let mut debuggee = Debuggee::new(alloc, Machine::new(alloc, unit).expect(&rt, "memory"));
    debuggee.set_plan(Arc::new(alloc, plan).expect(&rt, "memory"));
    assert!(&rt; debuggee.machine().depth() > 0);
    let mut logs = Logs::new(alloc).expect(&rt, "memory");
    assert_eq!(&rt; debuggee.consider(Mode::Continue, &mut logs), None);
    assert!(&rt; goes(&mut debuggee));
    assert!(&rt; debuggee.machine().depth() > 0);
    assert_eq!(&rt;
        debuggee.consider(Mode::Continue, &mut logs),
        Some(Reason::Breakpoint)
    );
}
