//! Programs that run to a stop, a fault or their end.

pub const SESSIONS: &str = r#"
# the smallest program
| .
launched
started 4/3
S 1
5: exited 0
6: terminated
ended

# a sum too large
| var x; begin x := 9223372036854775807; x := x + 1 end.
launched
started 4/3
S 1
5: stopped exception overflow
> stackTrace {"threadId":1}
6: {"body":{"stackFrames":[{"column":40,"id":1,"line":1,"name":"main","source":{"path":"p.pl0"}}],"totalFrames":1},"command":"stackTrace","request_seq":4,"seq":6,"success":true,"type":"response"}
> variables {"variablesReference":1}
7: ok variables/5 x 9223372036854775807
> continue {"threadId":1}
8: ok continue/6
9: exited 1
10: terminated
ended

# lines and columns from 0
| var x; begin x := 9223372036854775807; x := x + 1 end.
> initialize {"linesStartAt1":false,"columnsStartAt1":false}
1: ok initialize/1
> launch {"program":"p.pl0"}
2: ok launch/2
3: initialized
started 4/3
S 1
5: stopped exception overflow
> stackTrace {"threadId":1}
6: ok stackTrace/4 1 frames: main 0:39 id 1
ended

# a quotient too large
| var x; begin x := - 9223372036854775807 - 1; ! x; x := x / (-1) end.
launched
started 4/3
S 2
5: output -9223372036854775808
6: stopped exception overflow
> next {"threadId":2}
7: no next/4 unknownThread
> next {"threadId":1}
8: ok next/5
9: exited 1
10: terminated
> variables {"variablesReference":1}
11: no variables/6 wrongPhase
ended

# two procedures, one in the other
two procedures
launched
> setBreakpoints {"source":{"path":"p.pl0"},"breakpoints":[{"line":5}]}
4: ok setBreakpoints/3 5
started 5/4
S 10
6: {"body":{"allThreadsStopped":true,"reason":"breakpoint","threadId":1},"event":"stopped","seq":6,"type":"event"}
> stackTrace {"threadId":1}
7: ok stackTrace/5 4 frames: q 5:1 id 4, p 10:1 id 3, p 9:15 id 2, main 13:15 id 1
> scopes {"frameId":4}
8: ok scopes/6 q 4, p 3, main 1
> scopes {"frameId":3}
9: ok scopes/7 p 3, main 1
> variables {"variablesReference":3}
10: ok variables/8 k 1
> variables {"variablesReference":2}
11: ok variables/9 k 2
> variables {"variablesReference":1}
12: ok variables/10 n 0
> evaluate {"expression":"k + n","frameId":4}
13: ok evaluate/11 1
> evaluate {"expression":"k + n","frameId":2}
14: ok evaluate/12 2
> evaluate {"expression":"k"}
15: no evaluate/13 badExpression
> evaluate {"expression":"1 / n"}
16: no evaluate/14 divideByZero
continue 2 17/15
S 15
18: output 1
19: stopped breakpoint
> stackTrace {"threadId":1}
20: ok stackTrace/16 3 frames: q 5:1 id 3, p 10:1 id 2, main 13:15 id 1
continue 3 21/17
S 20
22: output 2
23: exited 0
24: terminated
> disconnect
! Quit
25: ok disconnect/18
= Disconnected

# questions at a stop
two procedures
launched
> setBreakpoints {"source":{"path":"p.pl0"},"breakpoints":[{"line":5}]}
4: ok setBreakpoints/3 5
started 5/4
S 10
6: stopped breakpoint
> stackTrace {"threadId":1,"startFrame":1,"levels":2}
7: ok stackTrace/5 4 frames: p 10:1 id 3, p 9:15 id 2
> stackTrace {"threadId":1,"startFrame":9}
8: ok stackTrace/6 4 frames: 
> stackTrace {"threadId":1,"startFrame":9007199254740991,"levels":9007199254740991}
9: ok stackTrace/7 4 frames: 
> stackTrace {"threadId":1,"startFrame":3,"levels":9007199254740991}
10: ok stackTrace/8 4 frames: main 13:15 id 1
> stackTrace {"threadId":2}
11: no stackTrace/9 unknownThread
> scopes {"frameId":0}
12: no scopes/10 unknownFrame
> scopes {"frameId":5}
13: no scopes/11 unknownFrame
> variables {"variablesReference":5}
14: no variables/12 unknownReference
> variables {"variablesReference":0}
15: no variables/13 unknownReference
> evaluate {"expression":"9223372036854775807 + 1"}
16: no evaluate/14 overflow
> evaluate {"expression":"p"}
17: no evaluate/15 badExpression
> evaluate {"expression":"p","frameId":5}
18: no evaluate/16 unknownFrame
> evaluate {"expression":"n","frameId":0}
19: no evaluate/17 unknownFrame
> evaluate {"expression":""}
20: no evaluate/18 badExpression
> variables {"variablesReference":4}
21: ok variables/19
> threads
22: ok threads/20
ended

# calls without end
| procedure p; call p; call p.
launched
started 4/3
S 256
S 512
S 768
S 1023
5: stopped exception depth
> stackTrace {"threadId":1,"startFrame":1023,"levels":1}
6: ok stackTrace/4 1024 frames: main 1:22 id 1
ended

# 1,024 frames
| var n; procedure p; begin n := n + 1; if n < 1023 then call p end; call p.
launched
started 4/3
~15 S
~S 4093
5: exited 0
6: terminated
ended

# 1,025 frames
| var n; procedure p; begin n := n + 1; if n < 1024 then call p end; call p.
launched
started 4/3
~11 S
~S 3069
5: stopped exception depth
> variables {"variablesReference":1}
6: ok variables/4 n 1023
> variables {"variablesReference":1024}
7: ok variables/5
> variables {"variablesReference":1025}
8: no variables/6 unknownReference
ended

# the input ends in a run
| .
launched
started 4/3
ended

# the runner has no memory for its first slice
| ! 7.
launched
started 4/3
S noMemory
! Quit
= NoMemory

# the runner has no memory for a later slice, while a pause and breakpoints wait
| while 1 = 1 do.
launched
started 4/3
S 256
> pause {"threadId":1}
! Hold 1
5: ok pause/4
> setBreakpoints {"source":{"path":"p.pl0"},"breakpoints":[{"line":1}]}
6: ok setBreakpoints/5 1
S noMemory
! Quit
= NoMemory
"#;
