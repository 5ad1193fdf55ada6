//! Rows of links that lose and repeat.

/// The table of the run whose limit is 0.
pub(super) static TABLE: &str = "vertex pick
0 -1
1 -1
2 -1
3 -1
";

/// Behind `$` the lines of a schedule, then behind `=` the status, and what is printed or noted.
pub(super) static ROWS: &str = "$schedule 3 machines 2
go 0
go 1
lose tally 0 1 0
again tally 0 1 0
take tally 0 1 0
go 0
take verdict 1 0 1
=Done
vertex pick
0 -1
1 -1
2 -1
3 -1
$schedule 3 machines 2
go 0
go 1
lose tally 0 1 0
=BadSchedule
symple: schedule: tally 0 1 0 was not taken
$schedule 3 machines 2
go 0
go 1
again tally 0 1 0
take tally 0 1 0
take tally 0 1 0
ack tally 0 1 0
again tally 0 1 0
=BadSchedule
symple: schedule: line 8: tally 0 1 0 cannot be sent again
$schedule 3 machines 65
=BadSchedule
symple: schedule: line 1: bad header
$schedule 4 machines 2
=BadSchedule
symple: schedule: line 1: bad header
$schedule 3 machines 2
go 0
round 1
=BadSchedule
symple: schedule: line 3: bad line
";

/// The same schedule under `--log`: a take has its message's bytes exactly where it accepts.
pub(super) static LOGGED: &str = "schedule 3 machines 2
go 0
go 1
again tally 0 1 0
take tally 0 1 0
take tally 0 1 0
ack tally 0 1 0
drop tally 0 1 0
go 0
lose verdict 1 0 1
again verdict 1 0 1
take verdict 1 0 1
";
