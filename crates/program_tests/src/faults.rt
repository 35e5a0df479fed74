//! The first fault of a text, and the limits of a text.

use crate::shown::View;
use crate::table::assert_rows;

/// One thing is wrong.
const FAULTS: &str = "
no text |  | Expected 1:1
no period | var x; x := 1 | Expected 1:14
the place after a line feed | var x; x := 1~ | Expected 2:1
a second var | var x; var y; . | Expected 1:8
var after a procedure | procedure p; ; var x; . | Expected 1:16
a block without its semicolon | procedure p; . | Expected 1:14
two statements without a semicolon | begin ! 1 ! 2 end. | Expected 1:11
odd and a comparison | if odd 1 = 1 then . | Expected 1:10
two comparisons | if 1 < 2 < 3 then . | Expected 1:10
a sign after a sign | ! 1 + - 1. | Expected 1:7
an assignment with no value | x := . | Expected 1:6
a condition with no comparison | if x then call p. | Expected 1:6
a second end | begin x := 1 end end. | Expected 1:18
a colon alone | x : 1. | BadCharacter 1:3
an assignment to an unknown name | x := 1. | Unknown 1:1
a constant twice | const a = 1, a = 2; . | Twice 1:14
a call of a variable | var x; call x. | WrongKind 1:13";

/// Faults of tokens come before those of names, then the first in the text, and on one token the lower number.
const FIRST: &str = "
a token before an earlier name | x := 99999999999999999999. | NumberTooLarge 1:6
a byte before an earlier name | x := 1. ? | BadCharacter 1:9
a missing end before a name twice | var a, a; begin | Expected 1:16
the first of two tokens | ! ! 99999999999999999999. | Expected 1:3
a number too large where none can stand | 9223372036854775808. | NumberTooLarge 1:1
a byte after the period | . _ | BadCharacter 1:3
the first of two names | begin y := 1; x := 1 end. | Unknown 1:7
an inner block before a later declaration | procedure p; x := 1; procedure p; ; . | Unknown 1:14
a declaration before a later use | var a, a; x := 1. | Twice 1:8
a use before its declaration | procedure p; call q; procedure q; ; call p. | TooEarly 1:19
early although an outer block declares the name before | procedure q; ; procedure p; procedure r; call q; procedure q; ; call r; call p. | TooEarly 1:47
early before the wrong kind | procedure p; q := 1; procedure q; ; . | TooEarly 1:14";

/// What is as long, as deep or as many as may be, and what is more than that.
const LIMITS: &str = "
65,536 bytes | .{65535  } | lawful
too long comes before all others | {65537 ?} | TooLong 1:1
the last column | {65535  }? | BadCharacter 1:65536
the last line | {65535 ~}? | BadCharacter 65536:1
64 levels of ( | ! {64 (}1{64 )}. | lawful
64 levels of begin | {64 begin }{64  end}. | lawful
64 levels of if | {64 if 1=1 then }. | lawful
64 levels of while | {64 while 1=1 do }. | lawful
64 levels of procedure | {64 procedure p; }{64 ;}. | lawful
levels that end again | {63 begin }if 1=1 then ; while 1=1 do ; ! (1) + (1){63  end}. | lawful
one too deep | x := {65 (} | TooDeep 1:70
the end after the last level | x := {64 (} | Expected 1:70
unexpected and too deep on one token | {64 begin }({64  end}. | Expected 1:385
the greatest number | ! {60000 0}9223372036854775807. | lawful
1,024 names | var v0{1023 ~,v%};. | lawful
1,024 names in an inner block | procedure p; var v0{1023 ~,v%};; procedure q;;. | lawful
a name twice as the 1,025th | var v0{1023 ~,v%},v7;. | Twice 1024:8
too many names before an unknown one | var v0{1024 ~,v%}; x := 1. | TooManyNames 1025:2";

#[test]
fn single_faults(rt: HostRuntime) {
    assert_rows(&rt, rt.alloc(), View::Fault, FAULTS);
}

#[test]
fn first_of_several_faults(rt: HostRuntime) {
    assert_rows(&rt, rt.alloc(), View::Fault, FIRST);
}

#[test]
fn limits_of_texts(rt: HostRuntime) {
    assert_rows(&rt, rt.alloc(), View::Fault, LIMITS);
}
