//! Pauses, and breakpoints while a program runs.

pub const SESSIONS: &str = r#"
# a stop goes before a pause
| var x;
| while x < 6 do
| x := x + 1.
launched
> setBreakpoints {"source":{"path":"p.pl0"},"breakpoints":[{"line":3}]}
4: ok setBreakpoints/3 3
started 5/4
> pause {"threadId":1}
! Hold 1
6: ok pause/5
S 1
7: stopped breakpoint
continue 2 8/6
S 3
9: stopped breakpoint
ended

# a pause
| while 1 = 1 do.
launched
started 4/3
> pause {"threadId":1}
! Hold 1
5: ok pause/4
> pause {"threadId":1}
6: ok pause/5
> pause {"threadId":2}
7: no pause/6 unknownThread
S 256
S 256
8: stopped pause
> pause {"threadId":1}
9: ok pause/7
> pause {"threadId":2}
10: no pause/8 unknownThread
continue 2 11/9
S 512
> pause {"threadId":1}
! Hold 2
12: ok pause/10
S 512
13: stopped pause
ended

# breakpoints while the program runs
| while 1 = 1 do.
launched
started 4/3
> setBreakpoints {"source":{"path":"p.pl0"},"breakpoints":[{"line":1}]}
! Hold 1
5: ok setBreakpoints/4 1
S 256
S 256
! Go 2
S 257
6: stopped breakpoint
ended

# the later of two plans is put in, and one order is pushed
| while 1 = 1 do.
launched
started 4/3
> setBreakpoints {"source":{"path":"p.pl0"},"breakpoints":[{"line":1}]}
! Hold 1
5: ok setBreakpoints/4 1
> setBreakpoints {"source":{"path":"p.pl0"},"breakpoints":[{"line":1,"hitCondition":"4"}]}
6: ok setBreakpoints/5 1
> setBreakpoints {"source":{"path":"q.pl0"},"breakpoints":[{"line":1}]}
7: ok setBreakpoints/6 otherSource
S 256
S 256
! Go 2
S 260
8: stopped breakpoint
ended

# breakpoints of another source push no order
| while 1 = 1 do.
launched
started 4/3
> setBreakpoints {"source":{"path":"q.pl0"},"breakpoints":[{"line":1}]}
5: ok setBreakpoints/4 otherSource
S 256
S 512
ended

# a plan and a pause
| while 1 = 1 do.
launched
started 4/3
> setBreakpoints {"source":{"path":"p.pl0"},"breakpoints":[{"line":1}]}
! Hold 1
5: ok setBreakpoints/4 1
> pause {"threadId":1}
6: ok pause/5
S 256
S 256
7: stopped pause
continue 2 8/6
S 257
9: stopped breakpoint
ended

# a plan that waits is put in at a stop, and counts from there
| var x;
| while x < 6 do
| x := x + 1.
launched
> setBreakpoints {"source":{"path":"p.pl0"},"breakpoints":[{"line":3}]}
4: ok setBreakpoints/3 3
started 5/4
> setBreakpoints {"source":{"path":"p.pl0"},"breakpoints":[{"line":3,"hitCondition":"2"}]}
! Hold 1
6: ok setBreakpoints/5 3
S 1
7: stopped breakpoint
continue 2 8/6
S 5
9: stopped breakpoint
ended

# a run that is held goes on in its mode
| procedure p; while 1 = 1 do; begin call p; ! 1 end.
entered
next 1 6/4
S 256
> setBreakpoints {"source":{"path":"p.pl0"}}
! Hold 1
7: ok setBreakpoints/5
S 256
! Go 2
S 512
> pause {"threadId":1}
! Hold 2
8: ok pause/6
S 512
9: stopped pause
ended

# the end of the program goes before a plan and a pause
| .
launched
> configurationDone
+ pause {"threadId":1}
+ setBreakpoints {"source":{"path":"p.pl0"},"breakpoints":[{"line":1}]}
! Go 1
! Hold 1
4: ok configurationDone/3
5: ok pause/4
6: ok setBreakpoints/5 1
S 1
7: exited 0
8: terminated
ended

# a fault goes before a pause
| ! 1 / 0.
launched
started 4/3
> pause {"threadId":1}
! Hold 1
5: ok pause/4
S 0
6: stopped exception divideByZero
> pause {"threadId":1}
7: ok pause/5
> setBreakpoints {"source":{"path":"p.pl0"},"breakpoints":[{"line":1}]}
8: ok setBreakpoints/6 1
> stepOut {"threadId":1}
9: ok stepOut/7
10: exited 1
11: terminated
ended

# requests after a launch, in its piece
| .
> initialize
+ launch {"program":"p.pl0"}
+ configurationDone
+ threads
! Go 1
1: ok initialize/1
2: ok launch/2
3: initialized
4: ok configurationDone/3
5: ok threads/4
S 1
6: exited 0
7: terminated
> disconnect
+ disconnect
! Quit
8: ok disconnect/5
= Disconnected
"#;
