//! Single steps.

pub const SESSIONS: &str = r#"
# over calls, and to a breakpoint in one
two procedures
> initialize
1: ok initialize/1
> launch {"program":"p.pl0","stopOnEntry":true}
2: ok launch/2
3: initialized
> setBreakpoints {"source":{"path":"p.pl0"},"breakpoints":[{"line":7}]}
4: ok setBreakpoints/3 7
> configurationDone
5: ok configurationDone/4
6: stopped entry
> stackTrace {"threadId":1}
7: ok stackTrace/5 1 frames: main 13:7 id 1
next 1 8/6
S 1
9: stopped step
> stackTrace {"threadId":1}
10: ok stackTrace/7 1 frames: main 13:15 id 1
next 2 11/8
S 2
12: stopped breakpoint
> stackTrace {"threadId":1}
13: ok stackTrace/9 2 frames: p 7:1 id 2, main 13:15 id 1
ended

# over calls
two procedures
entered
next 1 6/4
S 1
7: stopped step
next 2 8/5
S 19
9: output 1
10: output 2
11: stopped step
> stackTrace {"threadId":1}
12: ok stackTrace/6 1 frames: main 13:25 id 1
stepIn 3 13/7
S 20
14: exited 0
15: terminated
ended

# into a call and out of it
two procedures
entered
stepIn 1 6/4
S 1
7: stopped step
stepIn 2 8/5
S 2
9: stopped step
> stackTrace {"threadId":1}
10: ok stackTrace/6 2 frames: p 7:1 id 2, main 13:15 id 1
stepOut 3 11/7
S 19
12: output 1
13: output 2
14: stopped step
ended

# out of a procedure
two procedures
launched
> setBreakpoints {"source":{"path":"p.pl0"},"breakpoints":[{"line":5}]}
4: ok setBreakpoints/3 5
started 5/4
S 10
6: stopped breakpoint
stepOut 2 7/5
S 12
8: stopped step
> stackTrace {"threadId":1}
9: ok stackTrace/6 3 frames: p 11:1 id 3, p 9:15 id 2, main 13:15 id 1
ended

# out of the main block to the end
| begin ! 1; ! 2 end.
entered
stepOut 1 6/4
> stackTrace {"threadId":1}
7: no stackTrace/5 notStopped
S 3
8: output 1
9: output 2
10: exited 0
11: terminated
ended
"#;
