//! Words that rows name: of other languages, and of the text.

use crate::cases::{BEFORE_BLANKS, keyword_in_front, keyword_in_lower_case, keyword_nearby};
use crate::found::Token;
use crate::names::{name_nearby, procedure_with};
use crate::scene::{Scene, is_comparison, is_declaring, is_keyword, is_name};

/// Whether a token is this one, or one of those that a word in capitals stands for.
pub(crate) fn is_of(token: Token<'_>, word: &str) -> bool {
    match word {
        "NOTHING" => token.bytes.is_empty(),
        "NAME" => is_name(token),
        "NUMBER" => token.is_number(),
        "KEYWORD" => is_keyword(token),
        "DECLARING" => is_declaring(token),
        "COMPARISON" => is_comparison(token),
        "OPERATOR" => token.is_one_of("+ - * /"),
        _ => match words_of(word) {
            "" => token.is(word),
            words => token.is_word_of(words),
        },
    }
}

/// Returns the words of other languages for which a word in capitals stands; nothing for another word.
fn words_of(word: &str) -> &'static str {
    match word {
        "BETWEEN" => BETWEEN,
        "BEGINNING" => BEGINNING,
        "REPEATING" => "for foreach repeat until loop goto whilst pour solange wiederhole",
        "CHOOSING" => "case switch select match when unless wenn falls si",
        "IMPORTING" => "program module unit import include using uses package require",
        "CALLING" => "gosub perform invoke run",
        "LITERAL" => "true false none null nil undefined",
        "CLOSING" => "fi od done wend endif endwhile endprocedure next",
        "ELSE" => "else elif elseif elsif otherwise sonst sinon",
        "LOGICAL" => "and or xor not even und oder nicht et ou",
        "REMAINDER" => "mod rem modulo",
        "DIVISION" => "div",
        "WRITING" => WRITING,
        "READING" => "read readln input scanf get gets getline cin scanner prompt lies lire",
        "TYPE" => TYPES,
        "CONSTANT" => "constant constants final readonly define konstante",
        "PROCEDURE" => "def func function fun fn void proc sub method prozedur",
        "CHANGING" => "inc dec",
        _ => "",
    }
}

/// Words of other languages where an operand, a statement or its rest may end.
const BETWEEN: &str =
    "and or xor not mod div rem else elif elseif elsif sonst sinon until to downto step in is fi od done wend endif endwhile endprocedure";

/// Words of other languages with which a statement begins, or an operand. They are read as names.
const BEGINNING: &str =
    "not else elif elseif elsif for foreach repeat until return loop pass global nonlocal try fi od done del new label static public private with";

/// Words by which other languages write.
const WRITING: &str =
    "write writeln print println printf puts cout echo display output out put disp say show console system schreibe afficher ecrire";

/// Words by which other languages declare variables.
const TYPES: &str =
    "int integer long short unsigned float double real char bool boolean string let local dim auto variable variables";

/// Returns the word of a text for which another one stands in a row.
pub(crate) fn word<'a>(name: &str, scene: Scene<'a>) -> Option<Token<'a>> {
    let last = scene.past.last;
    match name {
        "last" => Some(last),
        "next" => Some(scene.next),
        "keyword in last" => keyword_in_front(last, BEFORE_BLANKS),
        "keyword in here" => keyword_in_front(scene.found, "then do"),
        "last in lower case" => keyword_in_lower_case(last),
        "here in lower case" => keyword_in_lower_case(scene.found),
        "keyword like last" => keyword_nearby(last),
        "keyword like here" => keyword_nearby(scene.found),
        "name like here" => name_nearby(scene.front, scene.found),
        "procedure of here" => procedure_with(scene.front, scene.found),
        "line" => Some(scene.begun),
        _ => Some(scene.found),
    }
}
