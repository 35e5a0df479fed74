//! Reports that don't go on with a run are passed over, and the next report of the run is accepted; so are files that
//! no launch waits for.

pub const SESSIONS: &str = r#"
# reports before a run and after it
| begin ! 7; ! 1 / 0 end.
R run 1, Continue, from 0, lines -
> initialize
1: ok initialize/1
R run 1, Continue, from 0, lines -
> launch {"program":"p.pl0"}
2: ok launch/2
3: initialized
R run 1, Continue, from 0, lines -
started 4/3
S 1
5: output 7
6: stopped exception divideByZero
R run 1, Continue, from 0, lines -
R run 1, Continue, from 1, lines -
R run 2, Continue, from 1, lines -
> variables {"variablesReference":1}
7: ok variables/4
> continue {"threadId":1}
8: ok continue/5
9: exited 1
10: terminated
R run 1, Continue, from 0, lines -
R run 1, Continue, from 1, lines -
ended

# reports at a stop
| begin ! 7; ! 8 end.
entered
R run 0, Entry, from 0, lines -
R run 0, Continue, from 0, lines -
R run 1, Continue, from 0, lines -
next 1 6/4
R run 1, In, from 0, lines -
S 1
7: output 7
8: stopped step
R run 1, Over, from 0, lines -
R run 1, Over, from 1, lines -
R run 2, Over, from 1, lines -
stepIn 2 9/5
R run 2, Over, from 1, lines -
R run 1, In, from 1, lines -
R run 2, In, from 0, lines -
S 2
10: output 8
11: stopped step
ended

# reports of another run, text, plan, mode and beginning
| begin ! 7; ! 1 / 0 end.
launched
started 4/3
R run 0, Continue, from 0, lines -
R run 2, Continue, from 0, lines -
R run 1, Continue, from 0, lines -, of begin ! 7; ! 2 / 0 end.
R run 1, Continue, from 0, lines 1
R run 1, Entry, from 0, lines -
R run 1, In, from 0, lines -
R run 1, Over, from 0, lines -
R run 1, Out, from 0, lines -
R run 1, Continue, from 1, lines -
S 1
5: output 7
6: stopped exception divideByZero
ended

# a report that is equal to the next one is accepted for it
| begin ! 7; ! 1 / 0 end.
launched
started 4/3
R run 1, Continue, from 0, lines -
5: output 7
6: stopped exception divideByZero
S 1
> continue {"threadId":1}
7: ok continue/4
8: exited 1
9: terminated
ended

# a second time, while the run goes on
| begin ! 7; while 1 = 1 do end.
launched
started 4/3
S 256
5: output 7
R run 1, Continue, from 0, lines -
S 512
R run 1, Continue, from 256, lines -
R run 1, Continue, from 0, lines -
> pause {"threadId":1}
! Hold 1
6: ok pause/4
S 512
7: stopped pause
ended

# a second time, after the end
| ! 7.
launched
started 4/3
S 2
5: output 7
6: exited 0
7: terminated
R run 1, Continue, from 0, lines -
ended

# of the same breakpoints, counted from another position
| var x;
| while x < 6 do
| x := x + 1.
entered
> setBreakpoints {"source":{"path":"p.pl0"},"breakpoints":[{"line":3}]}
6: ok setBreakpoints/4 3
continue 1 7/5
R run 1, Continue, from 0, lines 3
R run 1, Continue, from 0, lines -
S 1
8: stopped breakpoint
ended

# of other breakpoints
| var x;
| while x < 6 do
| x := x + 1.
launched
> setBreakpoints {"source":{"path":"p.pl0"},"breakpoints":[{"line":3}]}
4: ok setBreakpoints/3 3
started 5/4
R run 1, Continue, from 0, lines -
R run 1, Continue, from 0, lines 2
R run 1, Continue, from 0, lines 3 3
R run 1, Continue, from 0, lines 3 2
S 1
6: stopped breakpoint
continue 2 7/5
R run 1, Continue, from 1, lines 3
R run 2, Continue, from 0, lines 3
R run 2, Continue, from 1, lines 3
8: stopped breakpoint
S 3
ended

# of the run before a hold
| while 1 = 1 do.
launched
started 4/3
S 256
> setBreakpoints {"source":{"path":"p.pl0"}}
! Hold 1
5: ok setBreakpoints/4
S 256
! Go 2
R run 1, Continue, from 256, lines -
R run 2, Continue, from 256, lines -
R run 2, Continue, from 0, lines -
S 512
ended

# files that no launch waits for
| ! 7.
F .
> initialize
1: ok initialize/1
F noMemory
F cannotRead
F var x; x := 1.
> launch {"program":"p.pl0"}
2: ok launch/2
3: initialized
F .
F noMemory
started 4/3
F .
S 2
5: output 7
6: exited 0
7: terminated
F cannotRead
ended
"#;
