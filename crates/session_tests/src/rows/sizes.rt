//! Sessions at the largest sizes.

pub const SESSIONS: &str = r#"
# 256 breakpoints with conditions
| var x;
| while x < 300 do
| x := x + 1.
launched
> setBreakpoints {"source":{"path":"p.pl0"},"breakpoints":[~255 {"line":3,"condition":"x = 300 + %"},~{"line":3,"condition":"x > 200","hitCondition":"%50"}]}
4: ok setBreakpoints/3 ~255 3 ~3
started 5/4
S 256
S 501
6: stopped breakpoint
> variables {"variablesReference":1}
7: ok variables/5 x 250
continue 2 8/6
S 602
9: exited 0
10: terminated
ended

# 1,024 frames
| procedure p; call p; call p.
launched
started 4/3
S 256
S 512
S 768
S 1023
5: stopped exception depth
> stackTrace {"threadId":1}
6: ok stackTrace/4 1024 frames: p 1:14 id 1024, ~1022 p 1:14 id &, ~main 1:22 id 1
ended

# 1,024 variables
| var ~1023 v%, ~v1024; v1024 := 5.
entered
next 1 6/4
S 1
7: stopped step
> variables {"variablesReference":1}
8: ok variables/5 ~1023 v% 0, ~v1024 5
ended

# an expression of 1,024 bytes
| .
entered
> evaluate {"expression":"~511 1+~12"}
6: ok evaluate/4 523
> evaluate {"expression":"~511 1+~123"}
7: no evaluate/5 badArguments
ended

# 256 log points of 8 expressions
| var x;
| begin x := 7;
| x := 8 end.
launched
> setBreakpoints {"source":{"path":"p.pl0"},"breakpoints":[~6..260 {"line":3,"logMessage":"{%}{x}{x + 1}{x * x}{1 / (x - 7)}{9223372036854775807 + x}{- x}{x / 2}"},~{"line":3,"logMessage":"{261}{x}{x + 1}{x * x}{1 / (x - 7)}{9223372036854775807 + x}{- x}{x / 2}"}]}
4: ok setBreakpoints/3 ~255 3 ~3
started 5/4
S 1
~6..261 %: console %7849divideByZerooverflow-73
~S 3
262: exited 0
263: terminated
ended

# a log message of 1,024 bytes, and one of 1,025
| .
launched
> setBreakpoints {"source":{"path":"p.pl0"},"breakpoints":[{"line":1,"logMessage":"~1025 a~"}]}
4: no setBreakpoints/3 badArguments
> setBreakpoints {"source":{"path":"p.pl0"},"breakpoints":[{"line":1,"logMessage":"~1024 a~"}]}
5: ok setBreakpoints/4 1
> configurationDone
! Go 1
6: ok configurationDone/5
7: console ~1024 a~
S 1
8: exited 0
9: terminated
ended
"#;
