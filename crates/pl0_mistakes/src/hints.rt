//! What is said beside a mistake: rows, of which the first that fits counts. `rows.rt` says how one is read.

/// What is said beside a token that can't stand where it does.
pub(crate) const UNEXPECTED: [&str; 9] = [
    REMARKS, SIGNS, FORMS, MISSING, WORDS, PLACED, WANTED, CONDITIONS, RESTS,
];

/// Remarks and signs that stand twice, and what stands behind the program.
const REMARKS: &str = "
last: + here: + next: ; . ) end then do COMPARISON when: touching expression say: the new value is written in full, as in `x := x + 1`
last: - here: - next: ; . ) end then do COMPARISON when: touching expression say: the new value is written in full, as in `x := x - 1`
last: / here: / when: operand-next say: a single `/` divides, and drops the fraction
last: * here: * say: a power is written as a product
here: # next: include define import when: opening say: PL/0 has no `{next}`
starts: (* // /* say: PL/0 has no comments
starts: -- when: opening unless: update say: PL/0 has no comments
last: - here: - when: touching unless: operand-next say: PL/0 has no comments
here: # when: opening say: PL/0 has no comments
last: ( here: * say: PL/0 has no comments
last: / here: / * say: PL/0 has no comments
last: rem REM when: target new say: PL/0 has no comments
last: . second: NUMBER here: NUMBER say: the program ends at the `.` before it, and all numbers are whole
last: . say: the program ends at the `.` before it
here: . next: NUMBER last: NUMBER say: all numbers are whole
here: . next: NUMBER when: wanted say: all numbers are whole
last: NUMBER here: . next: OPERATOR ) say: all numbers are whole
";

/// Signs that compare and assign, as they are written in other languages, and signs in a name.
const SIGNS: &str = "
here: ! next: = say: write `#` for not equal
last: < here: > say: write `#` for not equal
last: > here: < say: write `#` for not equal
last: / here: = when: condition say: write `#` for not equal
last: = here: ! when: condition say: write `#` for not equal
last: = starts: /= when: condition say: write `#` for not equal
starts: !< when: condition say: write `>=`
starts: !> when: condition say: write `<=`
last: = here: = say: write a single `=`
last: := here: = say: `:=` alone assigns
starts: => in: if when: compared complete say: `then` has to stand behind the condition of an `if`
last: = here: < when: condition say: write `<=`
last: = here: > when: condition say: write `>=`
last: < > here: = say: `<=` and `>=` are single signs
here: ! last: if while ( when: condition say: `!` writes, and PL/0 has no `not`
when: update say: the new value is written in full, as in `x := x + 1`
when: no-blank say: perhaps a blank is missing behind `{keyword in last}`
when: no-blank-behind-begin say: perhaps a blank is missing behind `begin`
here: = ended: const when: target new say: constants are declared as in `const a = 1, b = 2;`
here: = when: target say: `:=` assigns, and `=` compares
starts: <- when: target say: `:=` assigns, and `=` compares
here: := when: condition may-end say: `:=` assigns, and `=` compares
last: WRITING when: target new letter-behind say: `!` writes a number
last: NAME when: declaring touching letter-behind say: a name has only letters and digits
last: NAME when: target touching letter-behind say: a name has only letters and digits
last: NAME here: . when: expression touching letter-behind say: a name has only letters and digits
here: = := in: var say: a variable is declared without a value
here: ! next: ; . end when: may-end say: `!` writes a number, and stands in front of it
last: NAME here: := in: const say: a constant is declared with `=`
here: COMPARISON odd when: condition parenthesis say: no comparison stands in parentheses
last: NAME here: ( in: procedure call say: procedures have no parameters
say: perhaps `{last in lower case}` is meant: keywords are in lower case
say: perhaps `{here in lower case}` is meant: keywords are in lower case
";

/// Types, numbers, ends and separators, as they are written in other languages.
const FORMS: &str = "
last: TYPE in: var say: variables have no types
here: TYPE in: var say: variables have no types
last: TYPE in: const say: constants have no types
here: TYPE in: const say: constants have no types
last: 0 when: touching base say: a number is written in decimal
second: TYPE last: ) when: operand-here expression say: all numbers are whole
last: NUMBER when: exponent say: all numbers are whole, and written with digits alone
last: end here: if while procedure next: ; . end say: an `end` stands alone, without `{here}`
last: end next: ; . end when: procedure-here unless: begin say: an `end` stands alone, without `{here}`
here: , . LOGICAL when: begin ended begins-next say: perhaps a `;` is meant
here: . next: end . when: begin say: perhaps this `.` is one too many
";

/// What is missing before the token.
const MISSING: &str = "
here: ; , next: NOTHING . when: ended say: a `.` ends the program
here: ; next: DECLARING when: ended say: declarations stand before the statement of a block
last: end here: ; when: ended say: no `begin` is open any more
here: ; when: ended say: several statements stand between `begin` and `end`
here: . when: operand-next unless: begins-next say: a `.` stands only at the end of the program
here: . when: begin ended say: perhaps an `end` is missing before it: the `begin` in line {line} is open
here: . when: begin opening say: perhaps an `end` is missing before it: the `begin` in line {line} is open
here: begin next: . ; when: begin ended say: perhaps `end` is meant
here: begin when: procedure begin ended starts-line say: perhaps an `end` is missing before it: the `begin` in line {line} is open
in: var when: lacks-comma unless: starts-line say: perhaps a `,` is missing before it: a name has no blanks
when: lacks-comma say: perhaps a `,` is missing before it
here: if while in: := ! when: begin ended unless: starts-line say: perhaps a `;` is missing before it: `{here}` stands in front of its statement
when: lacks-semicolon say: perhaps a `;` is missing before it
when: begins ended say: several statements stand between `begin` and `end`
";

/// Words that are no keywords, and calls.
const WORDS: &str = "
last: od when: condition say: perhaps `odd` is meant
last: iff fi when: target new operand-here say: perhaps `if` is meant
in: while here: od when: compared say: perhaps `do` is meant
here: REMAINDER DIVISION in: const say: a constant is a number, and isn't computed
here: REMAINDER say: the remainder of `x` by `y` is `x - x / y * y`
here: DIVISION say: `/` divides, and drops the fraction
here: REPEATING when: new-here unless: opening compared say: PL/0 has no keyword `{here}`: only `while` repeats
here: ELSE say: PL/0 has no keyword `{here}`: write an `if` with the opposite condition
here: LOGICAL unless: declaring say: PL/0 has no keyword `{here}`: a condition has one comparison, or `odd`
here: is next: odd even say: `odd` stands in front, as in `odd x`
here: NAME when: condition new-here complete unless: compared say: write `=`, `#`, `<`, `<=`, `>` or `>=` to compare
here: CLOSING say: PL/0 has no keyword `{here}`: several statements stand between `begin` and `end`
here: BETWEEN unless: target declaring say: PL/0 has no keyword `{here}`
last: REPEATING when: new say: PL/0 has no keyword `{last}`: only `while` repeats
last: ELSE when: new say: PL/0 has no keyword `{last}`: write an `if` with the opposite condition
last: LOGICAL when: new say: PL/0 has no keyword `{last}`: a condition has one comparison, or `odd`
last: CHOOSING when: new say: PL/0 has no keyword `{last}`: only `if` chooses
last: IMPORTING when: new say: PL/0 has no keyword `{last}`: a program begins with its declarations
last: type struct record class enum typedef when: new say: PL/0 has no keyword `{last}`: all values are numbers
last: break continue when: new say: PL/0 has no keyword `{last}`: a loop ends where its condition is false
last: exit stop halt quit when: new say: PL/0 has no keyword `{last}`: a block ends behind its statement
last: forward when: new say: PL/0 has no keyword `{last}`: a procedure is declared before it is used
last: set move store assign when: target new say: a variable gets its value by `:=`
last: let LET Let when: target new unless: new-here say: a variable gets its value by `:=`
last: CALLING when: target new say: a procedure is called by `call`
last: return when: new say: PL/0 has no keyword `{last}`: a procedure ends behind its statement, and has no value
last: CLOSING when: target new say: PL/0 has no keyword `{last}`: several statements stand between `begin` and `end`
last: BEGINNING when: new say: PL/0 has no keyword `{last}`
here: NAME when: begins-early new-here say: perhaps a blank is missing behind `{keyword in here}`
in: if when: begins-early say: perhaps `then` is missing before it
in: while when: begins-early say: perhaps `do` is missing before it
not: := = ( when: target called say: perhaps `call` is missing before `{last}`
last: READING when: new say: a program reads no input
last: WRITING when: target new say: `!` writes a number
last: CHANGING when: target new say: the new value is written in full, as in `x := x + 1`
last: CONSTANT when: target new say: constants are declared by `const`
last: TYPE next: ( when: target new say: a procedure is declared as in `procedure p;`
last: TYPE when: target new say: variables are declared by `var`, without a type
last: PROCEDURE when: target new say: a procedure is declared as in `procedure p;`
here: ( when: target called say: perhaps `call {last}` is meant: procedures have no parameters
here: ( when: target new say: a procedure is called by `call`, without parameters
";

/// Where in PL/0 the token stands, keywords that nearly read so, and declarations.
const PLACED: &str = "
in: const var procedure here: KEYWORD next: , ; = := when: naming say: a keyword is no name
here: const say: constants are declared first in a block
last: = here: + - in: const say: a constant is a number without a sign
last: + - * / here: + - say: a sign stands only where an expression begins, as in `(-1)`
here: # in: := ! say: `#` compares, and PL/0 has no comments
starts: << >> in: := ! say: only `+`, `-`, `*` and `/` compute
here: COMPARISON in: := ! say: only `if` and `while` compare
here: procedure last: ; when: procedure begin say: perhaps an `end` is missing before it: the `begin` in line {line} is open
here: procedure when: procedure begin ended say: perhaps an `end` is missing before it: the `begin` in line {line} is open
here: procedure unless: declaring say: procedures are declared before the statement of a block
here: var when: begin unless: declaring say: variables are declared before the statement of a block
here: var unless: declaring say: variables are declared once in a block, before its procedures
last: = in: const say: a number has to stand here
last: NAME here: NAME next: := when: target new new-here unless: starts-line say: a name has no blanks
last: NAME when: new unless: expression say: perhaps `{keyword like last}` is meant
here: NAME not: LOGICAL when: new-here say: perhaps `{keyword like here}` is meant
here: odd when: condition say: `odd` stands in front, as in `odd x`
here: NAME third: COMPARISON then do when: condition compared new-here complete say: a condition has one comparison, or `odd`
last: NAME here: NAME NUMBER in: procedure var next: ; , say: a name has no blanks
second: NUMBER last: , here: NUMBER in: const when: touching say: all numbers are whole, and written with digits alone
last: NUMBER here: NUMBER in: ! say: a number has no blanks, and each `!` writes one
last: NUMBER here: NUMBER say: a number has no blanks
here: NUMBER when: naming say: a name begins with a letter
when: naming say: a name has to stand here
last: NAME in: const say: `=` has to stand here
here: OPERATOR in: const say: a constant is a number, and isn't computed
in: const var say: `,` or `;` has to stand here
in: procedure say: `;` has to stand here
";

/// What has to stand where a statement begins, behind a name there, and where a value stands; and commas.
const WANTED: &str = "
ended: var second: ; here: , ; when: target new say: variables are declared as in `var a, b;`, and a procedure as in `procedure p;`
last: NAME here: NAME NUMBER when: target new say: PL/0 has no keyword `{last}`
second: NOTHING here: , ; when: target new say: variables are declared as in `var a, b;`
here: COMPARISON when: target say: only `if` and `while` compare
when: target say: after the name `{last}` only `:=` can stand
here: end when: opening unless: begin say: no `begin` is open
here: then last: then say: perhaps this `then` is one too many
here: do last: do say: perhaps this `do` is one too many
here: then do when: opening say: `do` belongs to a `while`, and `then` to an `if`
here: ; when: opening say: perhaps this `;` is one too many
when: opening say: a statement begins with a name, a keyword or `!`
here: call when: wanted say: a call has no value
here: odd when: wanted say: only `if` and `while` compare
here: if while begin ! when: wanted say: a statement has no value
last: if while say: a comparison has to stand here
when: wanted say: a number or a name has to stand here
second: ! here: := say: `!` writes a value, and an assignment has none
here: := when: expression say: an assignment has no value
last: NAME here: ( when: expression unless: new called say: perhaps an operator is missing before it: PL/0 has no functions
last: NAME here: ( when: expression say: PL/0 has no functions
last: NUMBER here: , when: touching digit-behind say: all numbers are whole, and written with digits alone
here: , in: ! say: each `!` writes one number
here: , when: condition say: a condition has one comparison, or `odd`
here: , say: `,` stands only between names that are declared
";

/// What is missing in a condition or between parentheses.
const CONDITIONS: &str = "
here: COMPARISON when: compared say: a condition has one comparison, or `odd`
here: then do when: condition complete unless: compared say: a comparison is missing before it
when: begins condition complete unless: compared say: a comparison is missing before it
here: ; . end then do ! call begin if while when: parenthesis say: a `)` is missing before it
here: ) unless: parenthesis say: no `(` is open
last: NAME here: NUMBER NAME when: expression new say: `{last}` is not declared, and PL/0 has no functions
here: NAME in: := ! not: WRITING when: new-here operand-next may-end say: only `+`, `-`, `*` and `/` compute
last: NUMBER here: NAME when: expression touching say: perhaps an operator is missing before it: a number has only digits
in: ! when: operand-here may-end say: an operator is missing before it: each `!` writes one number
when: operand-here may-end condition unless: compared say: an operator or a comparison is missing before it
when: operand-here may-end expression say: an operator is missing before it
in: if when: compared complete say: `then` has to stand behind the condition of an `if`
in: while when: compared complete say: `do` has to stand behind the condition of a `while`
";

/// What has to stand behind a statement.
const RESTS: &str = "
here: then do say: `do` belongs to a `while`, and `then` to an `if`
last: end here: end unless: begin say: no `begin` is open any more
here: end unless: begin say: no `begin` is open
last: NAME in: call when: operand-here say: procedures have no parameters
when: ended begin say: `;` or `end` has to stand here
here: . next: NOTHING when: ended procedure say: a procedure ends with a `;`, and the program with a statement, as in `call p.`
when: ended procedure say: a procedure ends with a `;`
when: ended say: a `.` ends the program
";

/// What is said where the text ends before the program does.
pub(crate) const ENDS: &str = "
when: begin ended say: perhaps an `end` is missing: the `begin` in line {line} is open
last: ; begin when: begin say: perhaps an `end` is missing: the `begin` in line {line} is open
last: ; unless: begin procedure say: the program ends with a statement and a `.`, as in `call p.`
when: ended procedure unless: begin say: a procedure ends with a `;`
when: ended unless: begin say: a `.` ends the program
";

/// What is said of a name that isn't declared.
pub(crate) const UNKNOWN: &str = "
here: LITERAL say: all values are numbers
here: READING say: a program reads no input
say: it is declared in procedure `{procedure of here}`, and known there alone
say: perhaps `{name like here}` is meant
";

/// What is said beside a byte that isn't ASCII: what to write for a sign, and how to save a file. The mark that some
/// editors write at the beginning of a file stands first; behind the signs of the book stand those that word processors
/// and other keyboards write, and letters with accents and of other alphabets.
pub(crate) const FOREIGN: &str = "
last: NOTHING starts: \u{feff} say: save it as UTF-8 without a BOM
last: NOTHING when: sixteen-bits say: save it as UTF-8 without a BOM
starts: ≠ say: write `#` for not equal
starts: ≤ ⩽ say: write `<=`
starts: ≥ ⩾ say: write `>=`
starts: ← ≔ say: write `:=`
starts: ∧ ∨ ¬ say: a condition has one comparison, or `odd`
starts: × · ∗ say: write `*`
starts: ÷ say: write `/`
starts: − – — say: write `-`
starts: ² ³ say: a power is written as a product
starts: “ ” „ ‘ ’ ´ « say: PL/0 has no strings
when: no-break-space say: this is a no-break space: write a blank
when: wide say: this sign is a wide one: write the same in ASCII
when: letter say: the letters of a name are `a` to `z` and `A` to `Z`
";

/// What is said beside a character with which no token begins.
pub(crate) const UNREADABLE: &str = "
starts: ``` say: begin with the program itself
here: { [ when: wanted say: PL/0 has no arrays, and `(` and `)` enclose an expression
here: ] } when: parenthesis say: a `)` is missing before it
here: [ ] say: PL/0 has no arrays
here: { } when: condition say: several statements stand between `begin` and `end`
here: { in: procedure say: several statements stand between `begin` and `end`
here: } say: several statements stand between `begin` and `end`
here: { say: PL/0 has no comments, and several statements stand between `begin` and `end`
last: NUMBER here: _ ' when: touching say: a number has only digits
last: NAME here: ' ? % & when: touching unless: expression say: a name has only letters and digits
here: ' when: opening say: PL/0 has no comments
here: \" ' ` say: PL/0 has no strings
here: _ $ @ say: a name has only letters and digits
here: : % when: wanted say: a number or a name has to stand here
here: : in: if say: `then` stands behind the condition of an `if`
here: : in: while say: `do` stands behind the condition of a `while`
here: : in: procedure say: `;` has to stand here
here: : in: const say: a constant is declared as in `const a = 1;`
here: : next: = in: var say: a variable is declared without a value
here: : next: begin procedure in: var say: perhaps a `;` is meant
here: : in: var say: variables have no types
here: : last: REPEATING when: new say: PL/0 has no keyword `{last}`: only `while` repeats
here: : last: ELSE when: new say: PL/0 has no keyword `{last}`: write an `if` with the opposite condition
here: : last: BEGINNING when: new say: PL/0 has no keyword `{last}`
here: : last: WRITING when: target new say: `!` writes a number
here: : when: target begins-next say: PL/0 has no labels
here: : next: = when: opening say: `:=` is one sign
here: : when: opening say: perhaps this `:` is one too many
here: : in: := when: may-end operand-next unless: begins-next say: `/` divides, and drops the fraction
here: : in: ! when: may-end operand-next unless: begins-next say: each `!` writes one number
here: : when: ended say: perhaps a `;` is meant
here: : next: : say: `!` writes a number
here: : say: `:=` is one sign
here: ? when: opening say: a program reads no input, and `!` writes a number
here: ? when: wanted say: a program reads no input
here: ? when: may-end operand-next say: `if` is a statement, and has no value
here: % | \\ when: opening say: PL/0 has no comments
here: % in: const say: a constant is a number, and isn't computed
last: end here: % say: PL/0 has no comments
here: % third: NAME say: PL/0 has no comments
here: % next: NAME unless: operand-next say: PL/0 has no comments
here: % when: operand-next say: the remainder of `x` by `y` is `x - x / y * y`
here: & | when: compared say: a condition has one comparison, or `odd`
here: % & | say: only `+`, `-`, `*` and `/` compute
here: ^ unless: target say: a power is written as a product
starts: \\n in: ! say: each `!` writes a line of its own
here: \\ unless: wanted say: `/` divides, and drops the fraction
starts: ~= say: write `#` for not equal
here: ~ say: PL/0 has no `not`
";
