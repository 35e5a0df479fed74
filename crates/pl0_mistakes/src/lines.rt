//! The line in which a mistake or a fault is told.

ghost use Rattle.std.specs.Prelude.{◌≡◌, ◌++◌, IfOk, OnOk, codes, decimal};
ghost use Rattle.pl0_mistakes.specs.Lines.{IsMistakeLine, message_line, fault_line};
ghost use Rattle.pl0_mistakes.specs.Written.{bytes_of};

use crate::found::token_at;
use crate::scene::{begun_line, scene_at};
use crate::sentences::{Sentence, sentence_for, write, write_fault, write_sentence};
use itoa::Buffer;
use pl0_meaning::RunFault;
use pl0_tree::{FaultKind, Place};
use std::alloc::{AllocError, Global};

/// Returns the line that tells the first mistake of a program's text, `FILE:LINE:COLUMN: error: SENTENCE` and a line feed.
/// The kind and the place are those of the fault with which the text was refused; the sentence may quote the token that
/// stands there, and a hint may follow.
///
/// # Errors
///
/// `AllocError`, where an allocation failed.
pub fn mistake_line(
    alloc: Global,
    file: &str,
    text: &[u8],
    kind: FaultKind,
    place: Place,
) -> Result<Vec<u8>, AllocError>
    ensures { IfOk result (λ line. IsMistakeLine file.now text.now kind place line.items) }
{
    let mut digits = Buffer::new();
    let begun = digits.format(begun_line(text, place));
    let sentence = sentence_for(kind, token_at(text, place), scene_at(text, place, begun));
    error_line(alloc, file, place, sentence)
}

/// Returns the line with a sentence of a mistake.
fn error_line(
    alloc: Global,
    file: &str,
    place: Place,
    sentence: Sentence<'_>,
) -> Result<Vec<u8>, AllocError>
    ensures { IfOk result (λ line. line.items
        ≡ message_line file.now place (codes ": error: ") (bytes_of sentence.entry)) }
{
    let mut line = Vec::new(alloc);
    start_line(&mut line, file, place)?;
    write(&mut line, ": error: ")?;
    write_sentence(&mut line, sentence)?;
    write(&mut line, "\n")?;
    Ok(line)
}

/// Returns the line that tells a fault of a run, `FILE:LINE:COLUMN: fault: SENTENCE` and a line feed. The place is that of
/// the step that faults.
///
/// # Errors
///
/// `AllocError`, where an allocation failed.
pub fn fault_line(
    alloc: Global,
    file: &str,
    fault: RunFault,
    place: Place,
) -> Result<Vec<u8>, AllocError>
    ensures { IfOk result (λ line. line.items ≡ fault_line file.now fault place) }
{
    let mut line = Vec::new(alloc);
    start_line(&mut line, file, place)?;
    write(&mut line, ": fault: ")?;
    write_fault(&mut line, fault)?;
    write(&mut line, "\n")?;
    Ok(line)
}

/// Appends the name of a file, and the line and the column of a place, each after a colon.
pub(crate) fn start_line(line: &mut Vec<u8>, file: &str, place: Place) -> Result<(), AllocError>
    ensures { OnOk result (line.new.items ≡ line.old.items ++ (file.now
        ++ (codes ":" ++ (decimal place.line ++ (codes ":" ++ decimal place.column))))) }
{
    let mut digits = Buffer::new();
    write(line, file)?;
    write(line, ":")?;
    write(line, digits.format(place.line))?;
    write(line, ":")?;
    write(line, digits.format(place.column))
}
