//! Input that is malformed, and requests that come at the wrong time.

pub const SESSIONS: &str = r#"
# unsupported commands, bad arguments and wrong phases
> initialize
1: ok initialize/1
> completions
2: no completions/2 unsupported
> continue
3: no continue/3 badArguments
> continue {"threadId":1}
4: no continue/4 wrongPhase
> initialize
5: no initialize/5 wrongPhase
ended

# line feeds alone end no line
>>> Content-Length: 49\n\n{"seq":1,"type":"request","command":"initialize"}
ended

# line feeds alone end no line, and the line's end comes later
>>> Content-Length: 49\n\n{"seq":1,"type":"request","command":"initialize"}\r\n\r\n
! Quit
= Frame(BadField)

# a field without its length, after a frame
> initialize
1: ok initialize/1
>>> A b: c\r\n
! Quit
= Frame(BadField)

# requests before a fault, in its piece
> initialize
+ threads
+> Content-Length: 049\r\n
! Quit
1: ok initialize/1
2: ok threads/2
= Frame(BadLength)

# 127 levels
>> {"seq":1,"type":"request","command":"initialize","more":~126 [~~126 ]~}
1: ok initialize/1
ended

# 128 levels
>> {"seq":1,"type":"request","command":"initialize","more":~127 [~~127 ]~}
ended

# seqs
>> {"seq":0,"type":"request","command":"initialize"}
>> {"seq":1.0,"type":"request","command":"initialize"}
>> {"seq":9007199254740992,"type":"request","command":"initialize"}
>> {"seq":"1","type":"request","command":"initialize"}
>> {"seq":9007199254740991,"type":"request","command":"initialize"}
1: ok initialize/9007199254740991
ended

# commands of 64 letters, of 65 and of none
>> {"seq":1,"type":"request","command":"~64 a~"}
1: no ~64 a~/1 unsupported
>> {"seq":2,"type":"request","command":"~65 a~"}
>> {"seq":3,"type":"request","command":""}
ended

# contents that are no requests
>> {"seq":1}
>> [
>> 
>> {"seq":1,"type":"request","command":"initialize\f"}
>> {"seq":1,"type":"request","command":"initialize"}\f
>> {"seq":1,"type":"event","command":"initialize"}
> initialize
1: ok initialize/1
> threads
2: {"body":{"threads":[{"id":1,"name":"main"}]},"command":"threads","request_seq":2,"seq":2,"success":true,"type":"response"}
ended

# arguments that are null
> initialize null
1: no initialize/1 badArguments
> disconnect null
! Quit
2: ok disconnect/2
= Disconnected

# threads that are none
| .
> continue {"threadId":2}
1: no continue/1 wrongPhase
> initialize
2: ok initialize/2
> launch {"program":"p.pl0","stopOnEntry":true}
3: ok launch/3
4: initialized
> configurationDone
5: ok configurationDone/4
6: stopped entry
> continue {"threadId":1e0}
7: no continue/5 badArguments
> continue {"threadId":-1}
8: no continue/6 badArguments
> continue {"threadId":2}
9: no continue/7 unknownThread
continue 1 10/8
ended

# launches without a program
> initialize
1: ok initialize/1
> launch {"program":"p.pl0","noDebug":true}
2: no launch/2 badArguments
> launch {"program":"~256 a~"}
3: no launch/3 badArguments
> launch {"program":"~255 a~"}
4: no launch/4 cannotRead
ended

# before a session begins
> launch {"program":"p.pl0"}
1: no launch/1 wrongPhase
> setBreakpoints {"source":{"path":"p.pl0"}}
2: no setBreakpoints/2 wrongPhase
> configurationDone
3: no configurationDone/3 wrongPhase
> threads
4: no threads/4 wrongPhase
> next {"threadId":1}
5: no next/5 wrongPhase
> stepIn {"threadId":1}
6: no stepIn/6 wrongPhase
> stepOut {"threadId":1}
7: no stepOut/7 wrongPhase
> pause {"threadId":1}
8: no pause/8 wrongPhase
> stackTrace {"threadId":1}
9: no stackTrace/9 wrongPhase
> scopes {"frameId":1}
10: no scopes/10 wrongPhase
> variables {"variablesReference":1}
11: no variables/11 wrongPhase
> evaluate {"expression":"1"}
12: no evaluate/12 wrongPhase
> disconnect
! Quit
13: ok disconnect/13
= Disconnected

# before a program is launched
> initialize
1: ok initialize/1
> setBreakpoints {"source":{"path":"p.pl0"}}
2: no setBreakpoints/2 wrongPhase
> configurationDone
3: no configurationDone/3 wrongPhase
> threads
4: ok threads/4
> next {"threadId":1}
5: no next/5 wrongPhase
> pause {"threadId":1}
6: no pause/6 wrongPhase
> stackTrace {"threadId":1}
7: no stackTrace/7 wrongPhase
> evaluate {"expression":"1"}
8: no evaluate/8 wrongPhase
> disconnect
! Quit
9: ok disconnect/9
= Disconnected

# in each phase after a launch
| begin ! 7; ! 1 / 0 end.
launched
> initialize
4: no initialize/3 wrongPhase
> launch {"program":"p.pl0"}
5: no launch/4 wrongPhase
> threads
6: ok threads/5
> continue {"threadId":1}
7: no continue/6 wrongPhase
> pause {"threadId":1}
8: no pause/7 wrongPhase
> variables {"variablesReference":1}
9: no variables/8 wrongPhase
started 10/9
> initialize
11: no initialize/10 wrongPhase
> launch {"program":"p.pl0"}
12: no launch/11 wrongPhase
> configurationDone
13: no configurationDone/12 wrongPhase
> threads
14: ok threads/13
> continue {"threadId":2}
15: no continue/14 notStopped
> next {"threadId":1}
16: no next/15 notStopped
> stepIn {"threadId":1}
17: no stepIn/16 notStopped
> stepOut {"threadId":1}
18: no stepOut/17 notStopped
> stackTrace {"threadId":2}
19: no stackTrace/18 notStopped
> scopes {"frameId":9}
20: no scopes/19 notStopped
> variables {"variablesReference":1}
21: no variables/20 notStopped
> evaluate {"expression":")"}
22: no evaluate/21 notStopped
S 1
23: output 7
24: stopped exception divideByZero
> initialize
25: no initialize/22 wrongPhase
> launch {"program":"p.pl0"}
26: no launch/23 wrongPhase
> configurationDone
27: no configurationDone/24 wrongPhase
> threads
28: ok threads/25
> evaluate {"expression":"1"}
29: ok evaluate/26 1
> stepIn {"threadId":1}
30: ok stepIn/27
31: exited 1
32: terminated
> initialize
33: no initialize/28 wrongPhase
> launch {"program":"p.pl0"}
34: no launch/29 wrongPhase
> configurationDone
35: no configurationDone/30 wrongPhase
> threads
36: ok threads/31
> continue {"threadId":1}
37: no continue/32 wrongPhase
> pause {"threadId":1}
38: no pause/33 wrongPhase
> stackTrace {"threadId":1}
39: no stackTrace/34 wrongPhase
> setBreakpoints {"source":{"path":"p.pl0"},"breakpoints":[{"line":1}]}
40: ok setBreakpoints/35 1
> disconnect
! Quit
41: ok disconnect/36
= Disconnected

# a disconnect in a run
| .
launched
started 4/3
> disconnect
! Quit
5: ok disconnect/4
= Disconnected

# a read that fails in a run
| .
launched
started 4/3
read failed
! Quit
= ReadFailed

# no memory for a piece
> initialize
1: ok initialize/1
no memory
! Quit
= NoMemory
"#;
