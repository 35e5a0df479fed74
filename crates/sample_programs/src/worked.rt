//! Worked programs.

/// A loop of 14 positions: its assignment, on line 3, is next at 1, 3, 5, 7, 9 and 11.
pub const LOOP: &str = "var x;
while x < 6 do
x := x + 1.";

/// A loop of 400,000 steps and a return.
pub const LONG_LOOP: &str = "var x; while x < 200000 do x := x + 1.";

/// A procedure that calls itself, and one in it that is called from two frames of the outer one.
pub const RECURSIVE: &str = "var n;
procedure p;
var k;
procedure q;
k := k + n;
begin
k := n;
n := n - 1;
if n > 0 then call p;
call q;
! k
end;
begin n := 2; call p end.
";

/// Three procedures in one another, with a constant.
pub const NESTED: &str = "var total;
procedure outer;
const step = 10;
var count;
  procedure inner;
  var bonus;
    procedure innermost;
    begin
      count := count + 1;
      bonus := bonus + count;
      total := total + bonus * step
    end;
  begin
    bonus := 5;
    call innermost;
    call innermost
  end;
begin
  count := 0;
  while count < 4 do call inner
end;
begin
  total := 0;
  call outer;
  ! total
end.
";

/// A loop with tests in it.
pub const POWER: &str = "var base, exponent, power;
procedure raise;
begin
  power := 1;
  while exponent > 0 do
  begin
    if odd exponent then power := power * base;
    exponent := exponent / 2;
    if exponent > 0 then base := base * base
  end
end;
begin
  base := 3;
  exponent := 13;
  call raise;
  ! power
end.
";
