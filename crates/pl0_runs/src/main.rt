//! `pl0` by one command line after another, for the stored run that compares what is printed: a line with the arguments,
//! then what is written to standard output and standard error, and a line with the exit status.
#![tactic(auto)]

use byte_streams::{Reading, SystemFiles, Writing};
use pl0_tool::execute;

/// The command lines.
const LINES: [&[&str]; 18] = [
    &["pl0", "run", "multiply.pl0"],
    &["pl0", "run", "-"],
    &["pl0", "run", "fault.pl0"],
    &["pl0", "run", "missing.pl0"],
    &["pl0", "run", "--steps", "9", "procedures.pl0"],
    &[
        "pl0",
        "check",
        "missing.pl0",
        "multiply.pl0",
        "mistake.pl0",
        "empty_loop.pl0",
    ],
    &["pl0", "tokens", "two.pl0"],
    &["pl0", "tokens", "mistake.pl0"],
    &["pl0", "list", "two.pl0"],
    &["pl0", "list", "--names", "two.pl0"],
    &["pl0", "list", "--names", "procedures.pl0"],
    &["pl0", "tree", "two.pl0"],
    &["pl0", "tree", "procedures.pl0"],
    &["pl0", "trace", "procedures.pl0"],
    &[
        "pl0",
        "trace",
        "--machine",
        "--from",
        "9",
        "--steps",
        "3",
        "procedures.pl0",
    ],
    &[
        "pl0",
        "trace",
        "--instructions",
        "--from",
        "9",
        "--steps",
        "3",
        "procedures.pl0",
    ],
    &["pl0", "trace", "two.pl0", "--from", "9"],
    &["pl0", "walk", "two.pl0"],
];

/// Does what each command line asks for, with what is said on standard error printed to standard output.
fn main(rt: HostRuntime) -> Result<(), anyhow::Error> {
    let files = &mut SystemFiles::new(&rt);
    let input = &mut Reading::new(&rt, rt.stdin());
    let output = &mut Writing::new(&rt, rt.stdout());
    let errors = &mut Writing::new(&rt, rt.stdout());
    for words in LINES {
        print!(rt; "$")?;
        for word in words {
            print!(rt; " {word}")?;
        }
        println!(rt; "")?;
        let ending = execute(&rt, words, files, input, output, errors, 0);
        println!(rt; "status {}", ending.status())?;
    }
    Ok(())
}
