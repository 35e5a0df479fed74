//! Log points.

pub const SESSIONS: &str = r#"
# a log point speaks at each arrival
| var x;
| while x < 6 do
| x := x + 1.
launched
> setBreakpoints {"source":{"path":"p.pl0"},"breakpoints":[{"line":3,"logMessage":"x is {x}, {10 / (x - 2)}"}]}
4: ok setBreakpoints/3 3
started 5/4
S 1
6: {"body":{"category":"console","output":"x is 0, -5\n"},"event":"output","seq":6,"type":"event"}
S 3
7: console x is 1, -10
S 5
8: console x is 2, divideByZero
S 7
9: console x is 3, 10
S 9
10: console x is 4, 5
S 11
11: console x is 5, 3
S 14
12: exited 0
13: terminated
ended

# a log point with a hit condition
| var x;
| while x < 6 do
| x := x + 1.
launched
> setBreakpoints {"source":{"path":"p.pl0"},"breakpoints":[{"line":3,"hitCondition":"%3","logMessage":"x is {x}, {10 / (x - 2)}"}]}
4: ok setBreakpoints/3 3
started 5/4
S 5
6: console x is 2, divideByZero
S 11
7: console x is 5, 3
S 14
8: exited 0
9: terminated
ended

# messages that don't read, and one that does
| var x;
| while x < 6 do
| x := x + 1.
launched
> setBreakpoints {"source":{"path":"p.pl0"},"breakpoints":[{"line":3,"logMessage":"{x"},{"line":3,"logMessage":"{}"},{"line":3,"logMessage":"{ {x} }"},{"line":3,"logMessage":"}","hitCondition":"6"},{"line":3,"condition":"x","hitCondition":"0","logMessage":"{"},{"line":3,"hitCondition":"0","logMessage":"{"},{"line":4,"logMessage":"{"}]}
4: ok setBreakpoints/3 badLogMessage badLogMessage badLogMessage 3 badCondition badHitCondition noStep
started 5/4
S 11
6: console }
S 14
7: exited 0
8: terminated
ended

# position 0 logs after the answer, and before a stop there
| var x;
| x := 1.
launched
> setBreakpoints {"source":{"path":"p.pl0"},"breakpoints":[{"line":2,"logMessage":"first {x}"},{"line":2},{"line":2,"logMessage":"second {x + 1}"}]}
4: ok setBreakpoints/3 2 2 2
> configurationDone
5: ok configurationDone/4
6: console first 0
7: console second 1
8: stopped breakpoint
continue 1 9/5
S 2
10: exited 0
11: terminated
ended

# logs stand after the numbers of earlier steps, and before a stop
| var x;
| begin ! 1; ! 2;
| x := 3 end.
launched
> setBreakpoints {"source":{"path":"p.pl0"},"breakpoints":[{"line":3,"logMessage":"here"},{"line":3}]}
4: ok setBreakpoints/3 3 3
started 5/4
S 2
6: output 1
7: output 2
8: console here
9: stopped breakpoint
continue 2 10/5
S 4
11: exited 0
12: terminated
ended

# a step stops where it would, and logs there
| var x;
| begin x := 1;
| x := 2 end.
launched
> setBreakpoints {"source":{"path":"p.pl0"},"breakpoints":[{"line":2},{"line":3,"logMessage":"{x}"}]}
4: ok setBreakpoints/3 2 3
> configurationDone
5: ok configurationDone/4
6: stopped breakpoint
next 1 7/5
S 1
8: console 1
9: stopped step
ended

# several log points at one position, and a stop there
| var x;
| while x < 6 do
| x := x + 1.
launched
> setBreakpoints {"source":{"path":"p.pl0"},"breakpoints":[{"line":3,"condition":"x > 3","logMessage":"a {x}"},{"line":3,"condition":"x = 4"},{"line":3,"hitCondition":"5","logMessage":"b"},{"line":2,"condition":"x = 5","logMessage":"c"},{"line":3,"condition":"x > 3","logMessage":"d {x} {x * x}"}]}
4: ok setBreakpoints/3 3 3 3 2 3
started 5/4
S 9
6: console a 4
7: console b
8: console d 4 16
9: stopped breakpoint
continue 2 10/5
S 10
11: console c
S 11
12: console a 5
13: console b
14: console d 5 25
S 14
15: exited 0
16: terminated
ended

# log points in procedures that call themselves, beside what they write
two procedures
launched
> setBreakpoints {"source":{"path":"p.pl0"},"breakpoints":[{"line":5,"logMessage":"q {k + n}"},{"line":7,"logMessage":"p {n} {k}"}]}
4: ok setBreakpoints/3 5 7
started 5/4
S 2
6: console p 2 0
S 6
7: console p 1 0
S 10
8: console q 1
S 15
9: output 1
10: console q 2
S 20
11: output 2
12: exited 0
13: terminated
ended

# log points that are put in while the program runs, and taken out again
| while 1 = 1 do.
launched
started 4/3
> setBreakpoints {"source":{"path":"p.pl0"},"breakpoints":[{"line":1,"hitCondition":"%100","logMessage":"{2 * 3} } is six"}]}
! Hold 1
5: ok setBreakpoints/4 1
S 256
S 256
! Go 2
S 356
6: console 6 } is six
S 456
7: console 6 } is six
> setBreakpoints {"source":{"path":"p.pl0"}}
! Hold 2
8: ok setBreakpoints/5
S 456
! Go 3
S 712
> pause {"threadId":1}
! Hold 3
9: ok pause/6
S 712
10: stopped pause
ended

# a log point where the step faults, and one at a position after which the program is paused
| var x;
| begin x := 1;
| x := 1 / 0 end.
launched
> setBreakpoints {"source":{"path":"p.pl0"},"breakpoints":[{"line":3,"logMessage":"{x} {1 / 0} {9223372036854775807 + x}"}]}
4: ok setBreakpoints/3 3
started 5/4
S 1
6: console 1 divideByZero overflow
> pause {"threadId":1}
! Hold 1
7: ok pause/5
S 1
8: stopped pause
continue 2 9/6
S 1
10: stopped exception divideByZero
ended

# an empty message is none
| .
launched
> setBreakpoints {"source":{"path":"p.pl0"},"breakpoints":[{"line":1,"logMessage":""}]}
4: ok setBreakpoints/3 1
> configurationDone
5: ok configurationDone/4
6: stopped breakpoint
ended

# a message may be of any characters, which are escaped
| .
launched
> setBreakpoints {"source":{"path":"p.pl0"},"breakpoints":[{"line":1,"logMessage":"\"é😀\\\u0007 }"}]}
4: ok setBreakpoints/3 1
> configurationDone
! Go 1
5: ok configurationDone/4
6: console \"é😀\\\u0007 }
S 1
7: exited 0
8: terminated
ended
"#;
