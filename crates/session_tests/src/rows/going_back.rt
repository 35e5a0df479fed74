//! Going back.

pub const SESSIONS: &str = r#"
# back to breakpoints, to the beginning, and on again
two procedures
launched
> setBreakpoints {"source":{"path":"p.pl0"},"breakpoints":[{"line":5}]}
4: ok setBreakpoints/3 5
started 5/4
S 10
6: stopped breakpoint
continue 2 7/5
S 15
8: output 1
9: stopped breakpoint
reverseContinue 3 10/6
S 10
11: stopped breakpoint
reverseContinue 4 12/7
S 0
13: stopped entry
continue 5 14/8
S 10
15: stopped breakpoint
continue 6 16/9
S 15
17: stopped breakpoint
continue 7 18/10
S 20
19: output 2
20: exited 0
21: terminated
ended

# back by a step
two procedures
launched
> setBreakpoints {"source":{"path":"p.pl0"},"breakpoints":[{"line":5}]}
4: ok setBreakpoints/3 5
started 5/4
S 10
6: stopped breakpoint
stepBack 2 7/5
S 9
8: stopped step
> stackTrace {"threadId":1}
9: ok stackTrace/6 3 frames: p 10:1 id 3, p 9:15 id 2, main 13:15 id 1
> variables {"variablesReference":3}
10: ok variables/7 k 1
> variables {"variablesReference":2}
11: ok variables/8 k 2
ended

# from position 0 a step back stays there
two procedures
entered
stepBack 1 6/4
S 0
7: stopped step
reverseContinue 2 8/5
S 0
9: stopped entry
ended

# back from a fault
| var x; begin x := 1 / x; x := 2 end.
launched
started 4/3
S 0
5: stopped exception divideByZero
stepBack 2 6/4
S 0
7: stopped step
ended

# a pause and breakpoints while a run goes back
two procedures
launched
> setBreakpoints {"source":{"path":"p.pl0"},"breakpoints":[{"line":5}]}
4: ok setBreakpoints/3 5
started 5/4
S 10
6: stopped breakpoint
stepBack 2 7/5
> setBreakpoints {"source":{"path":"p.pl0"},"breakpoints":[{"line":7}]}
8: ok setBreakpoints/6 7
> pause {"threadId":1}
9: ok pause/7
S 9
10: stopped step
continue 3 11/8
S 20
12: output 1
13: output 2
14: exited 0
15: terminated
ended

# log points speak again
| var x;
| while x < 6 do
| x := x + 1.
launched
> setBreakpoints {"source":{"path":"p.pl0"},"breakpoints":[{"line":3,"logMessage":"{x}"},{"line":3,"condition":"x = 1"}]}
4: ok setBreakpoints/3 3 3
started 5/4
S 1
6: console 0
S 3
7: console 1
8: stopped breakpoint
stepBack 2 9/5
S 2
10: stopped step
next 3 11/6
S 3
12: console 1
13: stopped breakpoint
ended

# before the program runs and while it runs
two procedures
> initialize
1: ok initialize/1
> stepBack {"threadId":1}
2: no stepBack/2 wrongPhase
> launch {"program":"p.pl0"}
3: ok launch/3
4: initialized
> reverseContinue {"threadId":1}
5: no reverseContinue/4 wrongPhase
> configurationDone
! Go 1
6: ok configurationDone/5
> stepBack {"threadId":1}
7: no stepBack/6 notStopped
> reverseContinue {}
8: no reverseContinue/7 badArguments
> reverseContinue {"threadId":2}
9: no reverseContinue/8 notStopped
S 20
10: output 1
11: output 2
12: exited 0
13: terminated
> stepBack {"threadId":1}
14: no stepBack/9 wrongPhase
ended

# back from the first step of a procedure, and in again
two procedures
launched
> setBreakpoints {"source":{"path":"p.pl0"},"breakpoints":[{"line":7}]}
4: ok setBreakpoints/3 7
started 5/4
S 2
6: stopped breakpoint
stepBack 2 7/5
S 1
8: stopped step
> stackTrace {"threadId":1}
9: ok stackTrace/6 1 frames: main 13:15 id 1
> variables {"variablesReference":1}
10: ok variables/7 n 2
stepIn 3 11/8
S 2
12: stopped breakpoint
ended

# back from a fault to what was before it, and to the fault again
| var x; begin x := 9223372036854775807; x := x + 1 end.
launched
started 4/3
S 1
5: stopped exception overflow
stepBack 2 6/4
S 0
7: stopped step
> stackTrace {"threadId":1}
8: ok stackTrace/5 1 frames: main 1:14 id 1
> variables {"variablesReference":1}
9: ok variables/6 x 0
next 3 10/7
S 1
11: stopped step
continue 4 12/8
S 1
13: stopped exception overflow
reverseContinue 5 14/9
S 0
15: stopped entry
continue 6 16/10
S 1
17: stopped exception overflow
> continue {"threadId":1}
18: ok continue/11
19: exited 1
20: terminated
ended

# back over log points, which are silent then
| var x;
| while x < 6 do
| x := x + 1.
launched
> setBreakpoints {"source":{"path":"p.pl0"},"breakpoints":[{"line":3,"logMessage":"{x}"},{"line":2,"condition":"x = 1"},{"line":2,"condition":"x = 3"}]}
4: ok setBreakpoints/3 3 2 2
started 5/4
S 1
6: console 0
S 2
7: stopped breakpoint
continue 2 8/5
S 3
9: console 1
S 5
10: console 2
S 6
11: stopped breakpoint
reverseContinue 3 12/6
S 2
13: stopped breakpoint
continue 4 14/7
S 3
15: console 1
S 5
16: console 2
S 6
17: stopped breakpoint
reverseContinue 5 18/8
S 2
19: stopped breakpoint
reverseContinue 6 20/9
S 0
21: stopped entry
ended

# hit conditions count from position 0 on the way back, and anew after it
| var x;
| while x < 6 do
| x := x + 1.
launched
> setBreakpoints {"source":{"path":"p.pl0"},"breakpoints":[{"line":3,"hitCondition":"%2"}]}
4: ok setBreakpoints/3 3
started 5/4
S 3
6: stopped breakpoint
continue 2 7/5
S 7
8: stopped breakpoint
reverseContinue 3 9/6
S 3
10: stopped breakpoint
stepBack 4 11/7
S 2
12: stopped step
continue 5 13/8
S 5
14: stopped breakpoint
reverseContinue 6 15/9
S 3
16: stopped breakpoint
ended

# back to position 0, which is due, and no farther
| var x;
| x := 1.
launched
> setBreakpoints {"source":{"path":"p.pl0"},"breakpoints":[{"line":2}]}
4: ok setBreakpoints/3 2
> configurationDone
5: ok configurationDone/4
6: stopped breakpoint
next 1 7/5
S 1
8: stopped step
reverseContinue 2 9/6
S 0
10: stopped breakpoint
reverseContinue 3 11/7
S 0
12: stopped entry
stepBack 4 13/8
S 0
14: stopped step
continue 5 15/9
S 2
16: exited 0
17: terminated
ended

# a pause and breakpoints while a run goes back to a stop
two procedures
launched
> setBreakpoints {"source":{"path":"p.pl0"},"breakpoints":[{"line":5}]}
4: ok setBreakpoints/3 5
started 5/4
S 10
6: stopped breakpoint
continue 2 7/5
S 15
8: output 1
9: stopped breakpoint
reverseContinue 3 10/6
> pause {"threadId":1}
11: ok pause/7
> setBreakpoints {"source":{"path":"p.pl0"},"breakpoints":[{"line":11,"logMessage":"writes {k}"}]}
12: ok setBreakpoints/8 11
> stackTrace {"threadId":1}
13: no stackTrace/9 notStopped
> stepBack {"threadId":1}
14: no stepBack/10 notStopped
S 10
15: stopped breakpoint
continue 4 16/11
S 12
17: console writes 1
S 17
18: console writes 2
S 20
19: output 2
20: exited 0
21: terminated
ended

# the input ends while a run goes back
two procedures
entered
next 1 6/4
S 1
7: stopped step
stepBack 2 8/5
ended

# back by a step after 400,000 steps, all of which are run again
| var x; while x < 200000 do x := x + 1.
launched
> setBreakpoints {"source":{"path":"p.pl0"},"breakpoints":[{"line":1,"condition":"x = 200000"}]}
4: ok setBreakpoints/3 1
started 5/4
~1562 S
~S 400000
6: stopped breakpoint
stepBack 2 7/5
~1562 S
~S 399999
8: stopped step
> stackTrace {"threadId":1}
9: ok stackTrace/6 1 frames: main 1:28 id 1
> variables {"variablesReference":1}
10: ok variables/7 x 199999
ended
"#;
