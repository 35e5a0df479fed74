//! What the arguments of a command line ask for.

use adapter::arguments::ArgumentsFault::{Help, NotUnderstood};
use adapter::arguments::Invocation::{Check, Serve};
use adapter::arguments::{ArgumentsFault, Invocation, parse_arguments};

/// Arguments, and what they ask for.
const COMMAND_LINES: [(&[&str], Result<Invocation, ArgumentsFault>); 23] = [
    (&[], Ok(Serve)),
    (&["pl0dap"], Ok(Serve)),
    (&["pl0dap", "--"], Ok(Serve)),
    (&["pl0dap", "--check", "p.pl0"], Ok(Check("p.pl0"))),
    (&["pl0dap", "--check=p.pl0"], Ok(Check("p.pl0"))),
    (&["pl0dap", "--check", ""], Ok(Check(""))),
    (&["pl0dap", "--check="], Ok(Check(""))),
    (&["pl0dap", "--check=--help"], Ok(Check("--help"))),
    (&["pl0dap", "-h"], Err(Help)),
    (&["pl0dap", "--help"], Err(Help)),
    (&["pl0dap", "--help", "--check", "x"], Err(Help)),
    (&["pl0dap", "--check", "x", "--help"], Err(Help)),
    (&["pl0dap", "--check"], Err(NotUnderstood)),
    (&["pl0dap", "--check", "--help"], Err(NotUnderstood)),
    (
        &["pl0dap", "--check", "a", "--check", "b"],
        Err(NotUnderstood),
    ),
    (&["pl0dap", "--chec", "a"], Err(NotUnderstood)),
    (&["pl0dap", "--help=x"], Err(NotUnderstood)),
    (&["pl0dap", "--version"], Err(NotUnderstood)),
    (&["pl0dap", "-V"], Err(NotUnderstood)),
    (&["pl0dap", "-c", "a"], Err(NotUnderstood)),
    (&["pl0dap", "help"], Err(NotUnderstood)),
    (&["pl0dap", "p.pl0"], Err(NotUnderstood)),
    (&["pl0dap", "--", "p.pl0"], Err(NotUnderstood)),
];

#[test]
fn parses_arguments(rt: HostRuntime) {
    for (arguments, asked) in COMMAND_LINES.as_slice() {
        assert_eq!(rt;
            parse_arguments(rt.alloc(), arguments),
            *asked,
            "{arguments:?}"
        );
    }
}
