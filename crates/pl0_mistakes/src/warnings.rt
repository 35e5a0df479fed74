//! What a program is warned of.

ghost use Rattle.std.specs.Prelude.{◌≡◌, ◌++◌, IfOk, OnOk, if◌then◌else◌, [], map};
ghost use Rattle.pl0_tree.specs.Words.{symbol_of, token_of};
ghost use Rattle.pl0_mistakes.specs.Warnings.{is_behind, empty_line, empty_lines, warning_lines};

use crate::lines::start_line;
use crate::sentences::write;
use pl0_parser::tokenize;
use pl0_tree::{Mark, Symbol, SyntaxFault, Token};
use std::alloc::{AllocError, Global};

/// Returns a line for each `do` and `then` of a program's text behind which the statement is empty,
/// `FILE:LINE:COLUMN: warning: SENTENCE` and a line feed: behind a `do`, such a loop never ends.
///
/// # Errors
///
/// `AllocError`, where an allocation failed.
pub fn warning_lines(alloc: Global, file: &str, text: &[u8]) -> Result<Vec<u8>, AllocError>
    ensures { IfOk result (λ lines. lines.items ≡ warning_lines file.now text.now) }
{
    match tokenize(alloc, text) {
        Ok((tokens, _)) => lines_of(alloc, file, tokens.as_slice()),
        Err(SyntaxFault::NoMemory) => Err(AllocError),
        Err(SyntaxFault::InText { .. }) => Ok(Vec::new(alloc)),
    }
}

/// Returns a line for each of these tokens behind which a statement is empty.
fn lines_of(alloc: Global, file: &str, tokens: &[Token<'_>]) -> Result<Vec<u8>, AllocError>
    ensures { IfOk result (λ lines. lines.items ≡ empty_lines file.now (map token_of tokens.now)) }
{
    let mut lines = Vec::new(alloc);
    let mut rest = tokens;
    while let [first, after @ ..] = rest {
        if let [second, ..] = after {
            warn(&mut lines, file, first, second.symbol)?;
        }
        rest = after;
    }
    Ok(lines)
}

/// Appends the line for a token, where the statement between it and the next one is empty.
fn warn(
    lines: &mut Vec<u8>,
    file: &str,
    token: &Token<'_>,
    next: Symbol<'_>,
) -> Result<(), AllocError>
    ensures { OnOk result (lines.new.items ≡ lines.old.items
        ++ (if is_behind (symbol_of next.entry) then empty_line file.now token.now.place (symbol_of token.now.symbol) else [])) }
{
    if !is_behind(next) {
        return Ok(());
    }
    match token.symbol {
        Symbol::Mark(Mark::Do) => {
            start_line(lines, file, token.place)?;
            write(lines, ": warning: the statement after `do` is empty\n")
        }
        Symbol::Mark(Mark::Then) => {
            start_line(lines, file, token.place)?;
            write(lines, ": warning: the statement after `then` is empty\n")
        }
        _ => Ok(()),
    }
}

/// Whether a token can stand behind a statement.
fn is_behind(symbol: Symbol<'_>) -> bool
    ensures { result ≡ is_behind (symbol_of symbol.entry) }
{
    match symbol {
        Symbol::Mark(Mark::Semicolon | Mark::End | Mark::Period) => true,
        _ => false,
    }
}
