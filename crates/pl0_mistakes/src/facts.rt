//! What holds at a place of a text, by the tokens around it.

ghost use Rattle.std.specs.Prelude.{◌≡◌};
ghost use Rattle.pl0_mistakes.specs.Sentences.{opens_statement};

use crate::cases::{BEFORE_BLANKS, keyword_in_front, keyword_in_lower_case, keyword_nearby};
use crate::found::{Token, next_token};
use crate::names::{Kind, is_procedure_in, kind_of};
use crate::scene::{Scene, is_comparison, is_declaring, is_name};
use crate::words::is_of;
use pl0_tree::is_space;

/// Whether what a row names holds at a place.
pub(crate) fn holds(fact: &str, scene: Scene<'_>) -> bool {
    let past = scene.past;
    match fact {
        "begin" => past.begins > 0,
        "parenthesis" => past.parentheses > 0,
        "procedure" => past.procedures > 0,
        "declaring" => is_declaring(past.opener),
        "compared" => past.compared,
        "condition" => in_condition(scene),
        "expression" => past.opener.is_one_of(":= ! if while"),
        "opening" => at_opening(scene),
        "target" => is_target(scene),
        "ended" => ends_statement(scene),
        "complete" => ends_expression(scene),
        "may-end" => may_end(past.last),
        "wanted" => wants_operand(scene),
        "begins" => begins_statement(scene),
        "begins-next" => begins_statement_next(scene),
        "begins-early" => begins_statement(scene) && past.compared && ends_expression(scene),
        "lacks-comma" => lacks_comma(scene),
        "lacks-semicolon" => begins_part(scene) && ends_part(scene),
        "naming" => is_naming(scene),
        "starts-line" => scene.starts_line,
        _ => holds_of_names(fact, scene),
    }
}

/// Whether what a row names holds of the names and the bytes at a place.
fn holds_of_names(fact: &str, scene: Scene<'_>) -> bool {
    let last = scene.past.last;
    match fact {
        "new" => is_new(scene, last),
        "new-here" => is_new(scene, scene.found),
        "called" => is_procedure(scene),
        "procedure-here" => kind_of(scene.front, scene.found) == Some(Kind::Procedure),
        "operand-here" => begins_operand(scene),
        "operand-next" => is_operand_of(scene, scene.next),
        "update" => is_update(scene),
        "no-blank" => lacks_blank(scene),
        "no-blank-behind-begin" => lacks_blank_behind_begin(scene),
        "touching" => scene.front.ends_with(last.bytes),
        "letter-behind" => is_before_letter(scene),
        "digit-behind" => matches!(scene.onward, [_, b'0'..=b'9', ..]),
        "base" => has_base(scene),
        "exponent" => has_exponent(scene),
        "letter" => begins_with(scene, 195, 211),
        "wide" => { scene.onward.starts_with(&[239, 188]) || scene.onward.starts_with(&[239, 189]) }
        "no-break-space" => scene.onward.starts_with("\u{a0}".as_bytes()),
        "sixteen-bits" => begins_with(scene, 254, 255),
        _ => false,
    }
}

/// Whether the byte at the place lies between two.
fn begins_with(scene: Scene<'_>, least: u8, most: u8) -> bool {
    scene
        .onward
        .first()
        .is_some_and(|byte| least <= *byte && *byte <= most)
}

/// Whether a name has to stand at the place, in a declaration or a call.
fn is_naming(scene: Scene<'_>) -> bool {
    let past = scene.past;
    let named = is_declaring(past.opener) || past.opener.is("call");
    named && (past.last.bytes == past.opener.bytes || past.last.is(","))
}

/// Whether a statement begins at the token; a name does where `:=` comes next, or with a line.
fn begins_statement(scene: Scene<'_>) -> bool {
    is_beginning(scene.found)
        || is_name(scene.found) && (scene.next.is(":=") || is_first_in_line(scene))
}

/// Whether a statement begins behind the token.
fn begins_statement_next(scene: Scene<'_>) -> bool {
    is_beginning(scene.next) || is_name(scene.next) && scene.third.is(":=")
}

/// Whether a statement begins with a token that is no name.
fn is_beginning(token: Token<'_>) -> bool {
    token.is_one_of("call ! begin if while")
}

/// Whether a name is the first token of a line, and no word that belongs to the line before.
fn is_first_in_line(scene: Scene<'_>) -> bool {
    let nearly = keyword_nearby(scene.found).or(keyword_in_lower_case(scene.found));
    scene.starts_line
        && !is_of(scene.found, "BETWEEN")
        && !nearly.is_some_and(|keyword| keyword.is_one_of("end then do"))
}

/// Whether the token is the last of its line, and no word that nearly is a keyword.
fn is_last_in_line(scene: Scene<'_>) -> bool {
    let nearly = keyword_nearby(scene.found).or(keyword_in_lower_case(scene.found));
    match next_token(scene.onward) {
        Some((_, after)) if nearly.is_none() => {
            let ahead = after
                .iter()
                .find(|byte| **byte == b'\n' || !is_space(**byte));
            ahead == Some(&b'\n')
        }
        _ => false,
    }
}

/// Whether a `,` is missing before the token: it is a name that is declared as the one before, as what comes next tells.
fn lacks_comma(scene: Scene<'_>) -> bool {
    let opener = scene.past.opener;
    let declared = opener.is("var") && (scene.next.is_one_of(", ;") || is_last_in_line(scene))
        || opener.is("const") && scene.next.is("=");
    declared && is_name(scene.found) && ends_part(scene)
}

/// Whether the token begins a statement or a declaration.
fn begins_part(scene: Scene<'_>) -> bool {
    begins_statement(scene)
        || scene.found.is("procedure") && scene.past.begins == 0
        || scene.found.is("var") && scene.past.opener.is("const")
}

/// Whether the token before may end what a semicolon stands behind.
fn ends_part(scene: Scene<'_>) -> bool {
    let past = scene.past;
    ends_statement(scene) && (past.begins > 0 || past.procedures > 0)
        || past.opener.is("const") && past.last.is_number()
        || past.opener.is_one_of("var procedure") && is_name(past.last)
}

/// Whether a statement that begins with the opener may end with the token before.
fn ends_statement(scene: Scene<'_>) -> bool {
    scene.past.opener.is_one_of(":= ! call end") && ends_expression(scene)
}

/// Whether an expression, a call, or `begin` and `end` may end with the token before.
fn ends_expression(scene: Scene<'_>) -> bool {
    may_end(scene.past.last) && scene.past.parentheses == 0
}

/// Whether a token may end an expression, a call, or `begin` and `end`.
fn may_end(token: Token<'_>) -> bool {
    token.is_one_of(") end") || token.is_number() || is_name(token)
}

/// Whether the token before is a name with which a statement begins.
fn is_target(scene: Scene<'_>) -> bool {
    opens_statement(scene.past.opener) && is_name(scene.past.last)
}

/// Whether a statement may begin at the place.
pub(crate) fn at_opening(scene: Scene<'_>) -> bool
    ensures { result ≡ opens_statement scene.entry.past.last.bytes.now }
{
    opens_statement(scene.past.last)
}

/// Whether a statement may begin behind a token, or where there is none.
fn opens_statement(token: Token<'_>) -> bool
    ensures { result ≡ opens_statement token.entry.bytes.now }
{
    token.bytes.is_empty()
        || token.is(";")
        || token.is("begin")
        || token.is("then")
        || token.is("do")
}

/// Whether the place is in the condition of an `if` or a `while`.
fn in_condition(scene: Scene<'_>) -> bool {
    scene.past.opener.is_one_of("if while")
}

/// Whether an operand has to stand at the place.
fn wants_operand(scene: Scene<'_>) -> bool {
    scene.past.last.is_one_of(":= ! if while odd ( + - * /") || is_comparison(scene.past.last)
}

/// Whether an operand begins at the token; a new name doesn't with which a statement comes next.
fn begins_operand(scene: Scene<'_>) -> bool {
    let found = scene.found;
    found.is_number()
        || found.is("(")
        || is_name(found) && !(is_new(scene, found) && begins_statement_next(scene))
}

/// Whether a token is a number or `(`, or the name of a constant or variable.
fn is_operand_of(scene: Scene<'_>, token: Token<'_>) -> bool {
    token.is_number() || token.is("(") || kind_of(scene.front, token).is_some()
}

/// Whether a name isn't declared before the place.
fn is_new(scene: Scene<'_>, name: Token<'_>) -> bool {
    kind_of(scene.front, name).is_none()
}

/// Whether the token before is the name of a procedure, or of one that is declared later.
fn is_procedure(scene: Scene<'_>) -> bool {
    match kind_of(scene.front, scene.past.last) {
        None => is_procedure_in(scene.onward, scene.past.last),
        kind => kind == Some(Kind::Procedure),
    }
}

/// Whether there is an operator twice, or with `=`, where other languages change a variable so.
fn is_update(scene: Scene<'_>) -> bool {
    let doubled = scene.onward.starts_with(b"++") || scene.onward.starts_with(b"--");
    is_target(scene) && (doubled || is_of(scene.found, "OPERATOR") && scene.next.is("="))
        || at_opening(scene) && doubled && is_operand_of(scene, scene.third)
}

/// Whether the word before the place may be a keyword and a name without a blank between them.
fn lacks_blank(scene: Scene<'_>) -> bool {
    let last = scene.past.last;
    is_target(scene)
        && is_new(scene, last)
        && !is_name(scene.found)
        && keyword_in_front(last, BEFORE_BLANKS).is_some_and(|keyword| {
            !keyword.is_one_of("if while") || is_comparison(scene.found)
        })
}

/// Whether the name that was assigned may be `begin` and a name, and no `begin` is open where one is wanted.
fn lacks_blank_behind_begin(scene: Scene<'_>) -> bool {
    let past = scene.past;
    past.begins == 0
        && past.opener.is(":=")
        && scene.found.is_one_of("; end")
        && is_new(scene, past.before_opener)
        && keyword_in_front(past.before_opener, "begin").is_some()
}

/// Whether a `-` or a `.` stands at the place, right before a letter.
fn is_before_letter(scene: Scene<'_>) -> bool {
    match scene.onward {
        [b'-' | b'.', letter, ..] => letter.is_ascii_alphabetic(),
        _ => false,
    }
}

/// Whether the letter of another base is found, and a digit of it.
fn has_base(scene: Scene<'_>) -> bool {
    match scene.found.bytes {
        [b'x' | b'X' | b'b' | b'o', digit, ..] => digit.is_ascii_hexdigit(),
        _ => false,
    }
}

/// Whether the exponent of a number is found.
fn has_exponent(scene: Scene<'_>) -> bool {
    match scene.found.bytes {
        [b'e' | b'E', digit, ..] => digit.is_ascii_digit(),
        _ => false,
    }
}
