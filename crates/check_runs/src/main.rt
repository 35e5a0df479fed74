//! `pl0dap` by one command line after another, for the stored run that compares what is printed: a line with the last
//! argument, then what is written to standard output and standard error, and a line with the exit status. The first
//! command line is that of this process.
#![tactic(auto)]

use adapter::{Dialect, Reading, SystemFiles, Writing, run};
use std::alloc::{AllocError, Global};
use std::env::Args;
use std::{env, io};

/// Command lines: an option, and the file that it gets. A file that is checked has a listing, or else a fault, or isn't there.
const LINES: [(&str, Option<&str>); 14] = [
    ("--check", Some("factorial.pl0")),
    ("--check", Some("fault.pl0")),
    ("--check", Some("gcd.pl0")),
    ("--check", Some("nested.pl0")),
    ("--check", Some("odd.pl0")),
    ("--check", Some("overflow.pl0")),
    ("--check", Some("primes.pl0")),
    ("--check", Some("procedures.pl0")),
    ("--check", Some("wirth.pl0")),
    ("--check", Some("mistake.pl0")),
    ("--check", Some("missing.pl0")),
    ("--help", None),
    ("--check", None),
    ("--chec", None),
];

/// Does what each command line asks for, with what is said on standard error printed to standard output.
fn main(rt: HostRuntime) -> Result<(), anyhow::Error> {
    let files = &mut SystemFiles::new(&rt);
    let input = &mut Reading::new(&rt, rt.stdin());
    let output = &mut Writing::new(&rt, rt.stdout());
    let errors = &mut Writing::new(&rt, rt.stdout());
    println!(rt; "two.pl0:")?;
    let given = env::args(&rt);
    let reason = run(
        &rt,
        &rt,
        Dialect::Codes,
        given,
        files,
        input,
        output,
        errors,
    );
    println!(rt; "status {}", reason.status())?;
    for (option, file) in LINES {
        println!(rt; "{}:", file.unwrap_or(option))?;
        let given = match file {
            Some(file) => arguments(rt.alloc(), &[option, file])?,
            None => arguments(rt.alloc(), &[option])?,
        };
        let reason = run(
            &rt,
            &rt,
            Dialect::Codes,
            Ok(given),
            files,
            input,
            output,
            errors,
        );
        println!(rt; "status {}", reason.status())?;
    }
    Ok(())
}

/// Returns the arguments of a process that has these behind its name.
fn arguments(alloc: Global, words: &[&str]) -> Result<Args, AllocError> {
    let mut given = Vec::new(alloc);
    given.push(String::from_str(alloc, "pl0dap")?)?;
    for word in words {
        given.push(String::from_str(alloc, word)?)?;
    }
    Ok(given.into_iter())
}
