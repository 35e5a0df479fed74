//! Worked rows of sessions that debug a program, which is whatever file a launch names.

use crate::rows::HELLO;
use adapter::Served;
use sample_programs::RECURSIVE;

/// A session that debugs a program, with an input that ends after it.
#[derive(Clone, Copy)]
pub struct Debugging {
    pub name: &'static str,
    pub program: &'static str,
    pub transcript: &'static str,
    pub end: Served,
}

/// A first session, without a program.
pub const NOTHING: Debugging = Debugging {
    name: "a first session",
    program: "",
    transcript: HELLO,
    end: Served::Disconnected,
};

/// Two procedures, one in the other, and three runs to a breakpoint and to the end.
pub const PROCEDURES: Debugging = Debugging {
    name: "two procedures, one in the other",
    program: RECURSIVE,
    transcript: r#"
- initialize
- launch
> {"seq":3,"type":"request","command":"setBreakpoints","arguments":{"source":{"path":"p.pl0"},"breakpoints":[{"line":5}]}}
< {"body":{"breakpoints":[{"line":5,"verified":true}]},"command":"setBreakpoints","request_seq":3,"seq":4,"success":true,"type":"response"}
> {"seq":4,"type":"request","command":"configurationDone"}
< {"command":"configurationDone","request_seq":4,"seq":5,"success":true,"type":"response"}
< {"body":{"allThreadsStopped":true,"reason":"breakpoint","threadId":1},"event":"stopped","seq":6,"type":"event"}
- read
> {"seq":5,"type":"request","command":"stackTrace","arguments":{"threadId":1}}
< {"body":{"stackFrames":[{"column":1,"id":4,"line":5,"name":"q","source":{"path":"p.pl0"}},{"column":1,"id":3,"line":10,"name":"p","source":{"path":"p.pl0"}},{"column":15,"id":2,"line":9,"name":"p","source":{"path":"p.pl0"}},{"column":15,"id":1,"line":13,"name":"main","source":{"path":"p.pl0"}}],"totalFrames":4},"command":"stackTrace","request_seq":5,"seq":7,"success":true,"type":"response"}
> {"seq":6,"type":"request","command":"scopes","arguments":{"frameId":4}}
< {"body":{"scopes":[{"expensive":false,"name":"q","variablesReference":4},{"expensive":false,"name":"p","variablesReference":3},{"expensive":false,"name":"main","variablesReference":1}]},"command":"scopes","request_seq":6,"seq":8,"success":true,"type":"response"}
> {"seq":7,"type":"request","command":"scopes","arguments":{"frameId":3}}
< {"body":{"scopes":[{"expensive":false,"name":"p","variablesReference":3},{"expensive":false,"name":"main","variablesReference":1}]},"command":"scopes","request_seq":7,"seq":9,"success":true,"type":"response"}
> {"seq":8,"type":"request","command":"variables","arguments":{"variablesReference":3}}
< {"body":{"variables":[{"name":"k","value":"1","variablesReference":0}]},"command":"variables","request_seq":8,"seq":10,"success":true,"type":"response"}
> {"seq":9,"type":"request","command":"variables","arguments":{"variablesReference":2}}
< {"body":{"variables":[{"name":"k","value":"2","variablesReference":0}]},"command":"variables","request_seq":9,"seq":11,"success":true,"type":"response"}
> {"seq":10,"type":"request","command":"variables","arguments":{"variablesReference":1}}
< {"body":{"variables":[{"name":"n","value":"0","variablesReference":0}]},"command":"variables","request_seq":10,"seq":12,"success":true,"type":"response"}
> {"seq":11,"type":"request","command":"evaluate","arguments":{"expression":"k + n","frameId":4}}
< {"body":{"result":"1","variablesReference":0},"command":"evaluate","request_seq":11,"seq":13,"success":true,"type":"response"}
> {"seq":12,"type":"request","command":"evaluate","arguments":{"expression":"k + n","frameId":2}}
< {"body":{"result":"2","variablesReference":0},"command":"evaluate","request_seq":12,"seq":14,"success":true,"type":"response"}
> {"seq":13,"type":"request","command":"evaluate","arguments":{"expression":"k"}}
< {"body":{},"command":"evaluate","message":"badExpression","request_seq":13,"seq":15,"success":false,"type":"response"}
> {"seq":14,"type":"request","command":"evaluate","arguments":{"expression":"1 / n"}}
< {"body":{},"command":"evaluate","message":"divideByZero","request_seq":14,"seq":16,"success":false,"type":"response"}
> {"seq":15,"type":"request","command":"continue","arguments":{"threadId":1}}
< {"body":{"allThreadsContinued":true},"command":"continue","request_seq":15,"seq":17,"success":true,"type":"response"}
< {"body":{"category":"stdout","output":"1\n"},"event":"output","seq":18,"type":"event"}
< {"body":{"allThreadsStopped":true,"reason":"breakpoint","threadId":1},"event":"stopped","seq":19,"type":"event"}
- read
> {"seq":16,"type":"request","command":"stackTrace","arguments":{"threadId":1}}
< {"body":{"stackFrames":[{"column":1,"id":3,"line":5,"name":"q","source":{"path":"p.pl0"}},{"column":1,"id":2,"line":10,"name":"p","source":{"path":"p.pl0"}},{"column":15,"id":1,"line":13,"name":"main","source":{"path":"p.pl0"}}],"totalFrames":3},"command":"stackTrace","request_seq":16,"seq":20,"success":true,"type":"response"}
> {"seq":17,"type":"request","command":"continue","arguments":{"threadId":1}}
< {"body":{"allThreadsContinued":true},"command":"continue","request_seq":17,"seq":21,"success":true,"type":"response"}
< {"body":{"category":"stdout","output":"2\n"},"event":"output","seq":22,"type":"event"}
< {"body":{"exitCode":0},"event":"exited","seq":23,"type":"event"}
< {"event":"terminated","seq":24,"type":"event"}
- read
> {"seq":18,"type":"request","command":"disconnect"}
< {"command":"disconnect","request_seq":18,"seq":25,"success":true,"type":"response"}
"#,
    end: Served::Disconnected,
};

/// A sum too large, and the end of the program after it.
pub const OVERFLOW: Debugging = Debugging {
    name: "a sum too large",
    program: "var x; begin x := 9223372036854775807; x := x + 1 end.",
    transcript: r#"
- initialize
- launch
- start
< {"body":{"allThreadsStopped":true,"reason":"exception","text":"overflow","threadId":1},"event":"stopped","seq":5,"type":"event"}
- read
> {"seq":4,"type":"request","command":"stackTrace","arguments":{"threadId":1}}
< {"body":{"stackFrames":[{"column":40,"id":1,"line":1,"name":"main","source":{"path":"p.pl0"}}],"totalFrames":1},"command":"stackTrace","request_seq":4,"seq":6,"success":true,"type":"response"}
> {"seq":5,"type":"request","command":"variables","arguments":{"variablesReference":1}}
< {"body":{"variables":[{"name":"x","value":"9223372036854775807","variablesReference":0}]},"command":"variables","request_seq":5,"seq":7,"success":true,"type":"response"}
> {"seq":6,"type":"request","command":"continue","arguments":{"threadId":1}}
< {"body":{"allThreadsContinued":true},"command":"continue","request_seq":6,"seq":8,"success":true,"type":"response"}
< {"body":{"exitCode":1},"event":"exited","seq":9,"type":"event"}
< {"event":"terminated","seq":10,"type":"event"}
"#,
    end: Served::InputEnded,
};

const FOREVER: &str = "while 1 = 1 do.";

/// A run that goes on when the input ends.
pub const CUT_OFF: Debugging = Debugging {
    name: "the input ends while the program runs",
    program: FOREVER,
    transcript: r#"
- initialize
- launch
- start
"#,
    end: Served::InputEnded,
};

/// A run that is paused before its first slice is over.
pub const PAUSED: Debugging = Debugging {
    name: "a pause",
    program: FOREVER,
    transcript: r#"
- initialize
- launch
- start
> {"seq":4,"type":"request","command":"pause","arguments":{"threadId":1}}
< {"command":"pause","request_seq":4,"seq":5,"success":true,"type":"response"}
- slice
< {"body":{"allThreadsStopped":true,"reason":"pause","threadId":1},"event":"stopped","seq":6,"type":"event"}
- read
"#,
    end: Served::InputEnded,
};

/// A run that gets a breakpoint before its first slice is over: another run goes on with it.
pub const BROKEN: Debugging = Debugging {
    name: "a breakpoint while the program runs",
    program: FOREVER,
    transcript: r#"
- initialize
- launch
- start
> {"seq":4,"type":"request","command":"setBreakpoints","arguments":{"source":{"path":"p.pl0"},"breakpoints":[{"line":1}]}}
< {"body":{"breakpoints":[{"line":1,"verified":true}]},"command":"setBreakpoints","request_seq":4,"seq":5,"success":true,"type":"response"}
- slice
< {"body":{"allThreadsStopped":true,"reason":"breakpoint","threadId":1},"event":"stopped","seq":6,"type":"event"}
- read
"#,
    end: Served::InputEnded,
};
