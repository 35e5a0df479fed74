//! A sentence for each mistake, and for each fault of a run.

ghost use Rattle.std.specs.Prelude.{◌≡◌, ◌++◌, true, codes, Some, OnOk};
ghost use Rattle.pl0_mistakes.specs.Sentences.{IsMistakeSentence, misuses, one_of, fault_sentence};
ghost use Rattle.pl0_mistakes.specs.Written.{bytes_of, hinted};

use crate::facts::at_opening;
use crate::hint::Hint;
use crate::hints::{ENDS, FOREIGN, UNEXPECTED, UNKNOWN, UNREADABLE};
use crate::names::{Kind, kind_of};
use crate::rows::hint_for;
use crate::scene::Scene;
use pl0_meaning::RunFault;
use pl0_tree::FaultKind;
use std::alloc::AllocError;

/// What is said of a mistake: a quote and a token, where there is one, a text, and a hint.
#[derive(Clone, Copy)]
pub struct Sentence<'a> {
    pub front: &'static str,
    pub token: &'a [u8],
    pub said: &'static str,
    pub hint: Option<Hint<'a>>,
}

/// Returns what is said of a mistake, at a place with this token and this around it.
pub(crate) fn sentence_for<'a>(kind: FaultKind, token: &'a [u8], scene: Scene<'a>) -> Sentence<'a>
    ensures { IsMistakeSentence token.entry.now scene.entry.past.last.bytes.now kind (bytes_of result) }
{
    match kind {
        FaultKind::TooLong => plain("the text has more than 65,536 bytes", None),
        FaultKind::NotAscii => plain(
            "only ASCII characters can stand in a program",
            hint_for(&[FOREIGN], scene),
        ),
        FaultKind::BadCharacter => plain(
            "no word, number or sign begins with this character",
            hint_for(&[UNREADABLE], scene),
        ),
        FaultKind::NumberTooLarge => plain("the number is larger than 9223372036854775807", None),
        FaultKind::NameTooLong => plain("the name has more than 64 characters", None),
        FaultKind::Expected => unexpected(token, scene),
        FaultKind::TooDeep => plain("nested more than 64 deep here", None),
        FaultKind::TooManyNames => plain("the block declares more than 1,024 names", None),
        FaultKind::Twice => quoted(token, "` is declared twice in this block", None),
        FaultKind::Unknown => quoted(token, "` is not declared", hint_for(&[UNKNOWN], scene)),
        FaultKind::TooEarly => quoted(token, "` is used before its declaration", None),
        FaultKind::WrongKind => quoted(token, misuse(scene), None),
    }
}

/// Returns a sentence without a token.
fn plain<'a>(said: &'static str, hint: Option<Hint<'a>>) -> Sentence<'a>
    ensures { bytes_of result ≡ said.entry.now ++ hinted hint.entry }
{
    Sentence {
        front: "",
        token: &[],
        said,
        hint,
    }
}

/// Returns a sentence of a token, with the second quote in what is said.
fn quoted<'a>(token: &'a [u8], said: &'static str, hint: Option<Hint<'a>>) -> Sentence<'a>
    ensures { bytes_of result ≡ codes "`" ++ (token.entry.now ++ (said.entry.now ++ hinted hint.entry)) }
{
    Sentence {
        front: "`",
        token,
        said,
        hint,
    }
}

/// Returns what is said of a token that can't stand where it does; of the end of the text, where there is none.
fn unexpected<'a>(token: &'a [u8], scene: Scene<'a>) -> Sentence<'a>
    ensures { IsMistakeSentence token.entry.now scene.entry.past.last.bytes.now FaultKind.Expected (bytes_of result) }
{
    if token.is_empty() {
        let hint = hint_for(&[ENDS], scene);
        plain("the text ends before the program does", hint)
    } else {
        quoted(token, "` can't stand here", hint_for(&UNEXPECTED, scene))
    }
}

/// Returns what a name is that can't be used as it is.
fn misuse(scene: Scene<'_>) -> &'static str
    ensures { one_of result.now (misuses scene.entry.past.last.bytes.now) ≡ true }
{
    let constant = kind_of(scene.front, scene.found) == Some(Kind::Constant);
    if scene.past.last.is("call") {
        not_called(constant)
    } else if at_opening(scene) {
        not_assigned(constant)
    } else {
        "` is a procedure, which has no value"
    }
}

/// Returns what is said of a constant, or else a variable, that is called.
fn not_called(constant: bool) -> &'static str
    ensures { one_of result.now (misuses (codes "call")) ≡ true }
{
    if constant {
        "` is a constant and can't be called"
    } else {
        "` is a variable and can't be called"
    }
}

/// Returns what is said of a constant, or else a procedure, that is assigned.
fn not_assigned(constant: bool) -> &'static str
    ensures { one_of result.now (misuses (codes ";")) ≡ true }
{
    if constant {
        "` is a constant and can't be assigned"
    } else {
        "` is a procedure and can't be assigned"
    }
}

/// Appends what is said of a mistake.
pub(crate) fn write_sentence(line: &mut Vec<u8>, sentence: Sentence<'_>) -> Result<(), AllocError>
    ensures { OnOk result (line.new.items ≡ line.old.items ++ bytes_of sentence.entry) }
{
    write(line, sentence.front)?;
    line.extend_from_slice(sentence.token)?;
    write(line, sentence.said)?;
    match sentence.hint {
        None => Ok(()),
        Some(hint) => write_hint(line, hint),
    }
}

/// Appends a hint.
fn write_hint(line: &mut Vec<u8>, hint: Hint<'_>) -> Result<(), AllocError>
    ensures { OnOk result (line.new.items ≡ line.old.items ++ hinted (Some hint.entry)) }
{
    write(line, "; ")?;
    write(line, hint.front)?;
    line.extend_from_slice(hint.word)?;
    write(line, hint.back)
}

/// Appends what is said of a fault of a run.
pub(crate) fn write_fault(line: &mut Vec<u8>, fault: RunFault) -> Result<(), AllocError>
    ensures { OnOk result (line.new.items ≡ line.old.items ++ fault_sentence fault) }
{
    match fault {
        RunFault::Overflow => write(line, "a result does not fit into 64 bits"),
        RunFault::DivideByZero => write(line, "division by zero"),
        RunFault::Depth => write(line, "more than 1,024 frames would be alive"),
        RunFault::StepLimit => write(line, "no step can be taken any more"),
    }
}

/// Appends a text.
pub(crate) fn write(line: &mut Vec<u8>, text: &str) -> Result<(), AllocError>
    ensures { OnOk result (line.new.items ≡ line.old.items ++ text.now) }
{
    line.extend_from_slice(text.as_bytes())
}
