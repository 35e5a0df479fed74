//! An editor's conditions and expressions, in the blocks of steps.

use crate::shown::write_fault;
use crate::table::{first_cell, text_of};
use pl0_syntax::{Names, SyntaxFault, Tree, blocks, parse_condition, parse_expression, steps};
use sample_programs::compiled;
use std::alloc::Global;
use std::process::Abort;

/// Step 0 stands in q, 2 in p, 4 in r and 5 in the main block.
const PROGRAM: &str = "const c = 3; var x;
procedure p; var y;
procedure q; var z; ! z;
! y;
procedure r; ;
! x.";

/// A step, a text, and what is found in it as a condition, with tables of names, and as an expression, without them. r
/// stands after step 0 and isn't early.
const TEXTS: &str = "
0 | x = y + z * c | lawful | Expected 1:3
0 | z | Expected 1:2 | lawful
0 | {64 (} | Expected 1:65 | Expected 1:65
0 | w > 0 | Unknown 1:1 | Expected 1:3
0 | w | Expected 1:2 | Unknown 1:1
4 | y | Expected 1:2 | Unknown 1:1
0 | r = 1 | WrongKind 1:1 | Expected 1:3
0 | x = w + r | Unknown 1:5 | Expected 1:3
0 | w = 1 = 1 | Expected 1:7 | Expected 1:3
0 |  | Expected 1:1 | Expected 1:1
0 | {64 (}x{64 )} | Expected 1:130 | lawful
0 | 0 = {64 (}x{64 )} | lawful | Expected 1:3
0 | 1{65535  } | Expected 1:65537 | lawful
0 | ?{65536  } | TooLong 1:1 | TooLong 1:1";

fn condition_fault(
    rt: &impl Abort,
    alloc: Global,
    tree: &Tree,
    step: usize,
    text: &str,
) -> Option<SyntaxFault> {
    let table = steps(alloc, tree).expect(rt, "memory");
    let nestings = blocks(alloc, tree).expect(rt, "memory");
    let names = Names::with_tables(alloc, &tree.program, &nestings).expect(rt, "memory");
    assert!(rt; step < table.len());
    parse_condition(alloc, text.as_bytes(), &names, &table, step).err()
}

fn expression_fault(
    rt: &impl Abort,
    alloc: Global,
    tree: &Tree,
    step: usize,
    text: &str,
) -> Option<SyntaxFault> {
    let table = steps(alloc, tree).expect(rt, "memory");
    let nestings = blocks(alloc, tree).expect(rt, "memory");
    let names = Names::new(&tree.program, &nestings);
    assert!(rt; step < table.len());
    parse_expression(alloc, text.as_bytes(), &names, &table, step).err()
}

/// Asserts that a text has these faults, with the names of a step.
fn assert_found(rt: &impl Abort, alloc: Global, tree: &Tree, step: &str, text: &str, wanted: &str) {
    let step = step.parse::<usize>().expect(rt, "a step");
    let mut found = String::new(alloc);
    write_fault(rt, &mut found, condition_fault(rt, alloc, tree, step, text));
    found.push_str(" | ").expect(rt, "memory");
    write_fault(
        rt,
        &mut found,
        expression_fault(rt, alloc, tree, step, text),
    );
    assert_eq!(rt; found.as_str(), wanted, "{text}");
}

fn assert_row(rt: &impl Abort, alloc: Global, tree: &Tree, row: &str) {
    let (step, cells) = first_cell(row);
    let (cell, wanted) = first_cell(cells);
    let text = text_of(rt, alloc, cell);
    assert_found(rt, alloc, tree, step, text.as_str(), wanted);
}

#[test]
fn editor_texts(rt: HostRuntime) {
    let unit = compiled(rt.alloc(), PROGRAM).expect(&rt, "a lawful text");
    for row in TEXTS.lines().skip(1) {
        assert_row(&rt, rt.alloc(), &unit.tree, row);
    }
}
