//! Breakpoints, their conditions and their hit conditions.

pub const SESSIONS: &str = r#"
# lines are answered
| var x;
| 
| begin x := 1;
| ! x end.
launched
> setBreakpoints {"source":{"path":"p.pl0"},"breakpoints":[{"line":2},{"line":4},{"line":5}]}
4: {"body":{"breakpoints":[{"line":3,"verified":true},{"line":4,"verified":true},{"message":"noStep","verified":false}]},"command":"setBreakpoints","request_seq":3,"seq":4,"success":true,"type":"response"}
> setBreakpoints {"source":{"path":"q.pl0"},"breakpoints":[{"line":2},{"line":4},{"line":5}]}
5: ok setBreakpoints/4 otherSource otherSource otherSource
> setBreakpoints {"source":{},"breakpoints":[{"line":2}]}
6: ok setBreakpoints/5 otherSource
> setBreakpoints {"source":{"path":"p.pl0"},"breakpoints":[{"line":0},{"line":2147483647}]}
7: ok setBreakpoints/6 3 noStep
> setBreakpoints {"source":{"path":"p.pl0"}}
8: ok setBreakpoints/7
ended

# lines from 0 are answered
| var x;
| 
| begin x := 1;
| ! x end.
> initialize {"linesStartAt1":false}
1: ok initialize/1
> launch {"program":"p.pl0"}
2: ok launch/2
3: initialized
> setBreakpoints {"source":{"path":"p.pl0"},"breakpoints":[{"line":1},{"line":3},{"line":4},{"line":2147483647}]}
4: ok setBreakpoints/3 2 3 noStep noStep
ended

# a condition and a hit condition
| var x;
| while x < 6 do
| x := x + 1.
launched
> setBreakpoints {"source":{"path":"p.pl0"},"breakpoints":[{"line":3,"condition":"x > 2","hitCondition":"%2"}]}
4: ok setBreakpoints/3 3
started 5/4
S 9
6: stopped breakpoint
> variables {"variablesReference":1}
7: ok variables/5 x 4
continue 2 8/6
S 14
9: exited 0
10: terminated
ended

# a condition that faults is met
| var x;
| while x < 6 do
| x := x + 1.
launched
> setBreakpoints {"source":{"path":"p.pl0"},"breakpoints":[{"line":3,"condition":"1 / 0 = 1","hitCondition":"3"}]}
4: ok setBreakpoints/3 3
started 5/4
S 5
6: stopped breakpoint
> variables {"variablesReference":1}
7: ok variables/5 x 2
continue 2 8/6
S 7
9: stopped breakpoint
continue 3 10/7
S 9
11: stopped breakpoint
continue 4 12/8
S 11
13: stopped breakpoint
> variables {"variablesReference":1}
14: ok variables/9 x 5
continue 5 15/10
S 14
16: exited 0
17: terminated
ended

# conditions that don't read
| var x;
| while x < 6 do
| x := x + 1.
launched
> setBreakpoints {"source":{"path":"p.pl0"},"breakpoints":[{"line":3,"condition":"x >"},{"line":3,"hitCondition":"03"},{"line":4,"condition":"x >","hitCondition":"03"},{"line":3,"condition":"x >","hitCondition":"03"},{"line":3,"condition":"","hitCondition":""},{"line":3,"condition":" "}]}
4: ok setBreakpoints/3 badCondition badHitCondition noStep badCondition 3 badCondition
ended

# a new plan begins its counts anew
| var x;
| while x < 6 do
| x := x + 1.
launched
> setBreakpoints {"source":{"path":"p.pl0"},"breakpoints":[{"line":3,"hitCondition":"2"}]}
4: ok setBreakpoints/3 3
started 5/4
S 3
6: stopped breakpoint
> setBreakpoints {"source":{"path":"p.pl0"},"breakpoints":[{"line":3,"hitCondition":"2"}]}
7: ok setBreakpoints/5 3
> setBreakpoints {"source":{"path":"q.pl0"},"breakpoints":[]}
8: ok setBreakpoints/6
continue 2 9/7
S 7
10: stopped breakpoint
> setBreakpoints {"source":{"path":"p.pl0"}}
11: ok setBreakpoints/8
continue 3 12/9
S 14
13: exited 0
14: terminated
> setBreakpoints {"source":{"path":"p.pl0"},"breakpoints":[{"line":3},{"line":4},{"line":3,"condition":"y = 1"}]}
15: ok setBreakpoints/10 3 noStep badCondition
> setBreakpoints {"source":{"path":"q.pl0"},"breakpoints":[{"line":3}]}
16: ok setBreakpoints/11 otherSource
ended

# 256 breakpoints at one line
| while 1 = 1 do.
launched
> setBreakpoints {"source":{"path":"p.pl0"},"breakpoints":[~255 {"line":1,"hitCondition":"%"},~{"line":1,"hitCondition":"256"}]}
4: ok setBreakpoints/3 ~255 1 ~1
> configurationDone
5: ok configurationDone/4
6: stopped breakpoint
continue 1 7/5
S 1
8: stopped breakpoint
ended

# 257 breakpoints are no arguments, and the plan before them stays
| while 1 = 1 do.
launched
> setBreakpoints {"source":{"path":"p.pl0"},"breakpoints":[{"line":1,"hitCondition":"3"}]}
4: ok setBreakpoints/3 1
> setBreakpoints {"source":{"path":"p.pl0"},"breakpoints":[~256 {"line":1},~{"line":1}]}
5: no setBreakpoints/4 badArguments
started 6/5
S 2
7: stopped breakpoint
ended

# hits that a number divides
| while 1 = 1 do.
launched
> setBreakpoints {"source":{"path":"p.pl0"},"breakpoints":[{"line":1,"hitCondition":"%2"},{"line":1,"hitCondition":"%3"}]}
4: ok setBreakpoints/3 1 1
started 5/4
S 1
6: stopped breakpoint
continue 2 7/5
S 2
8: stopped breakpoint
continue 3 9/6
S 3
10: stopped breakpoint
continue 4 11/7
S 5
12: stopped breakpoint
ended
"#;
