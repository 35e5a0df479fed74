//! Launches that are refused, and another one after them.

pub const SESSIONS: &str = r#"
# an unknown name
| x := 1.
refused syntax 10 1 1
> configurationDone
3: no configurationDone/3 wrongPhase
> launch {"program":"dot.pl0"}
4: ok launch/4
5: initialized
> launch {"program":"dot.pl0"}
6: no launch/5 wrongPhase
started 7/6
ended

# no point at the end
| var x; x := 1
refused syntax 6 1 14
launched again
ended

# no point at the end of a line
| var x; x := 1
| 
refused syntax 6 2 1
launched again
ended

# a use before the declaration
| procedure p; call q; procedure q; ; call p.
refused syntax 11 1 19
launched again
ended

# a call of a variable
| var x; call x.
refused syntax 12 1 13
launched again
ended

# a name that is declared twice
| const a = 1, a = 2; .
> initialize {"linesStartAt1":false,"columnsStartAt1":false}
1: ok initialize/1
> launch {"program":"p.pl0"}
2: no launch/2 syntax 9 1 14
launched again
ended

# an empty text
refused syntax 6 1 1
launched again
ended

# a text too long
| ~65536 ;~.
refused syntax 1 1 1
launched again
ended

# no file
| .
> initialize
1: ok initialize/1
> launch {"program":"none.pl0"}
2: no launch/2 cannotRead
> launch {"program":"p.pl0"}
3: ok launch/3
4: initialized
ended
"#;
