//! All mistakes of a text that are told at once: the first, and behind one of a name the others of names.

ghost use Rattle.std.specs.Prelude.{◌≡◌, true, All, IfOk};
ghost use Rattle.pl0_tree.specs.Faults.{IsNameFault, level_limit};
ghost use Rattle.pl0_tree.specs.Plain.{plain_block};
ghost use Rattle.pl0_tree.specs.Reading.{ReadsProgram};
ghost use Rattle.pl0_tree.specs.Tokens.{tokens_of};
ghost use Rattle.pl0_mistakes.specs.Lines.{AreMistakeLines, IsFurther, IsNameFaultIn, is_of_names};

use crate::lines::mistake_line;
use pl0_names::name_faults;
use pl0_parser::{parse_program, tokenize};
use pl0_tree::{Block, FaultKind, Place, SyntaxFault};
use std::alloc::{AllocError, Global};

/// Of how many names a mistake is told.
const MOST: usize = 20;

/// Returns the lines that tell mistakes of a program's text, each as [`mistake_line`] does: the first, of which these are the
/// kind and the place, and where it is one of a name, others of names behind it, in the order of the text. Of a name one
/// is told, and mistakes of 20 names at most.
///
/// # Errors
///
/// `AllocError`, where an allocation failed.
pub fn mistake_lines(
    alloc: Global,
    file: &str,
    text: &[u8],
    kind: FaultKind,
    place: Place,
) -> Result<Vec<u8>, AllocError>
    ensures { IfOk result (λ lines. AreMistakeLines file.now text.now kind place lines.items) }
{
    let first = mistake_line(alloc, file, text, kind, place)?;
    if is_of_names(kind) {
        with_others(alloc, first, file, text, kind, place)
    } else {
        Ok(first)
    }
}

/// Returns the line of the first mistake, which is one of a name, and behind it those of others.
fn with_others(
    alloc: Global,
    first: Vec<u8>,
    file: &str,
    text: &[u8],
    kind: FaultKind,
    place: Place,
) -> Result<Vec<u8>, AllocError>
    requires names { is_of_names kind ≡ true }
    requires first { AreMistakeLines file.now text.now kind place first.items }
    ensures { IfOk result (λ lines. AreMistakeLines file.now text.now kind place lines.items) }
{
    let mut lines = first;
    let mistakes = mistakes_behind(alloc, text, place)?;
    for (other, behind) in mistakes.iter() {
        let line = mistake_line(alloc, file, text, *other, *behind)?;
        lines.extend_from_slice(line.as_slice())?;
    }
    Ok(lines)
}

/// Whether a mistake is one of a name, in a text whose tokens and grammar are right.
fn is_of_names(kind: FaultKind) -> bool
    ensures { result ≡ is_of_names kind }
{
    match kind {
        FaultKind::Twice | FaultKind::Unknown | FaultKind::TooEarly | FaultKind::WrongKind => true,
        _ => false,
    }
}

/// Returns the mistakes of names in a text behind the first, which stands at this place.
fn mistakes_behind(
    alloc: Global,
    text: &[u8],
    first: Place,
) -> Result<Vec<(FaultKind, Place)>, AllocError>
    ensures { IfOk result (λ mistakes. All (IsFurther (IsNameFaultIn text.now)) mistakes.items) }
{
    match program_of(alloc, text) {
        Ok(main) => mistakes_in(alloc, &main, first),
        Err(SyntaxFault::NoMemory) => Err(AllocError),
        Err(SyntaxFault::InText { .. }) => Ok(Vec::new(alloc)),
    }
}

/// Returns the program that a text is read as, whatever its names.
fn program_of(alloc: Global, text: &[u8]) -> Result<Block, SyntaxFault>
    ensures { IfOk result (λ main. ReadsProgram level_limit (tokens_of text.now) (plain_block main)) }
{
    let (tokens, end) = tokenize(alloc, text)?;
    parse_program(alloc, tokens.as_slice(), end)
}

/// Returns the mistakes of names in a program, in the order of its text, but for the one at this place: of each name the
/// first, and of 20 names at most.
fn mistakes_in(
    alloc: Global,
    main: &Block,
    but: Place,
) -> Result<Vec<(FaultKind, Place)>, AllocError>
    ensures { IfOk result (λ mistakes. All (IsFurther (IsNameFault (plain_block main.now))) mistakes.items) }
{
    let faults = name_faults(alloc, main)?;
    let mut mistakes = Vec::new(alloc);
    let mut words = Vec::new(alloc);
    for fault in faults.iter() {
        let word = fault.name.text.as_str();
        if words.len() == MOST || words.contains(&word) || !is_of_names(fault.kind) {
            continue;
        }
        words.push(word)?;
        if fault.name.place != but {
            mistakes.push((fault.kind, fault.name.place))?;
        }
    }
    Ok(mistakes)
}
