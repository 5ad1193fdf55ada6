//! Rows: behind `$` the words, then a line with the program under `p`, the graph under `g` and the status,
//! then what is printed or, where the status is not `Done`, noted.

/// Runs that end well.
pub(super) static RUNS: &str = "$ run p g --machines 1 --rounds
bfs diamond Done
round 1 dense 1 2 4
round 2 dense 2 2 1
round 3 sparse 1 0 0
vertex dist parent
0 0 -1
1 1 0
2 1 0
3 2 1
$ run p g --rounds --machines=1
bfs spread Done
round 1 dense 1 2 4
round 2 dense 2 2 1
round 3 sparse 1 0 0
vertex dist parent
0 0 -1
1 1 0
2 1 0
3 2 1
$ run --binary p --rounds g --machines 1
bfs units Done
round 1 dense 1 2 4
round 2 dense 2 2 1
round 3 sparse 1 0 0
vertex dist parent
0 0 -1
1 1 0
2 1 0
3 2 1
$ run p g --machines 2
bfs diamond Done
vertex dist parent
0 0 -1
1 1 0
2 1 0
3 2 1
$ run p g --machines 64 --rounds
bfs diamond Done
round 1 dense 1 2 4
round 2 dense 2 2 1
round 3 sparse 1 0 0
vertex dist parent
0 0 -1
1 1 0
2 1 0
3 2 1
$ run p g --machines 1
first three-into-one Done
vertex pick
0 1
1 0
2 -1
3 -1
$ run p g --machines 2 --rounds
first three-into-one Done
round 1 dense 4 4 2
vertex pick
0 1
1 2
2 -1
3 -1
$ run p g --vertices 0 --machines 4 --rounds
bfs empty Done
vertex dist parent
$ run p g --machines 1 --rounds
bfs remark Done
vertex dist parent
$ run p g --vertices 1 --machines 16 --rounds
k empty Done
round 1 dense 1 0 0
round 2 dense 1 0 0
vertex alive
0 false
$ run p g --vertices 1 --machines 64 --rounds
k empty Done
round 1 dense 1 0 0
round 2 dense 1 0 0
vertex alive
0 false
$ run p g --machines 2 --rounds
first0 diamond Done
vertex pick
0 -1
1 -1
2 -1
3 -1
$ run p g --machines 64
first0 diamond Done
vertex pick
0 -1
1 -1
2 -1
3 -1
$ run p g --both --machines 1 --rounds
k triangle-with-tail Done
round 1 dense 4 8 7
round 2 dense 1 1 6
vertex alive
0 true
1 true
2 true
3 false
$ run p g --both --machines 3 --rounds
k triangle-with-tail Done
round 1 dense 4 8 7
round 2 dense 1 1 7
vertex alive
0 true
1 true
2 true
3 false
$ run p g --machines 3 --rounds
sum weighted-cycle Done
round 1 dense 3 4 4
vertex mass
0 -3
1 5
2 11
$ run p g --machines 1
sum weighted-cycle Done
vertex mass
0 -3
1 5
2 11
$ run p g --machines 3 --binary --weighted
sum weighted_units Done
vertex mass
0 -3
1 5
2 11
$ run p g --machines 1
sum diamond Done
vertex mass
0 0
1 1
2 1
3 2
$ run p g --machines 3
wrap two-into-one Done
vertex x
0 9223372036854775807
1 1
2 -9223372036854775808
$ run p g --machines 1
zero one-edge Done
vertex a
0 false
1 true
$ run p g --machines 2
zero one-edge Done
vertex a
0 false
1 true
$ run p g --machines 1
heavy weighted-into-one Done
vertex pick
0 -1
1 9
2 -1
$ run p g --machines 2
heavy weighted-into-one Done
vertex pick
0 -1
1 4
2 -1
$ run p g --vertices 1 --machines 1 --draws 42
dice empty Done
vertex d
0 2707161783
$ run p g --machines 1 --draws 7
sample one-edge Done
vertex pick
0 -1
1 0
$ run p g --machines 2
sample one-edge Done
vertex pick
0 -1
1 0
$ run p g --machines 1
sample three-into-one Done
vertex pick
0 1
1 2
2 -1
3 -1
$ run p g --machines 1 --rounds
halve path Done
round 1 dense 3 2 2
round 2 dense 3 2 2
vertex c
0 0
1 0
2 1
$ run p g --machines 3 --rounds
halve path Done
round 1 dense 3 2 2
round 2 dense 3 2 2
vertex c
0 0
1 0
2 1
";

/// Runs with their reads.
pub(super) static READS: &str = "$ run p g --machines 2 --reads
first three-into-one Done
read 1 0 1
read 1 1 2
vertex pick
0 1
1 2
2 -1
3 -1
$ run p g --machines 1 --reads
bfs diamond Done
read 1 1 0
read 1 2 0
read 1 3 1 2
read 2 3 1
vertex dist parent
0 0 -1
1 1 0
2 1 0
3 2 1
$ run p g --reads --machines 1 --rounds
bfs diamond Done
round 1 dense 1 2 4
read 1 1 0
read 1 2 0
read 1 3 1 2
round 2 dense 2 2 1
read 2 3 1
round 3 sparse 1 0 0
vertex dist parent
0 0 -1
1 1 0
2 1 0
3 2 1
$ run p g --both --machines 3 --rounds --reads
k triangle-with-tail Done
round 1 dense 4 8 7
read 1 0 2 3
read 1 1 2 0
read 1 2 0 1
read 1 3 0
round 2 dense 1 1 7
read 2 0 2 3 1
read 2 1 2 0
read 2 2 0 1
vertex alive
0 true
1 true
2 true
3 false
$ run p g --machines 1
dense_only diamond Done
vertex dist parent
0 0 -1
1 1 0
2 1 0
3 2 1
";

/// Plans that end well.
pub(super) static PLANS: &str = "$ plan g --machines 2
bfs diamond Done
chunk 0 0 2
chunk 1 2 4
step 0 machine 0 chunk 1
step 0 machine 1 chunk 0
step 1 machine 0 chunk 0
step 1 machine 1 chunk 1
$ plan --machines=1 g --vertices 3
bfs empty Done
chunk 0 0 3
step 0 machine 0 chunk 0
";

/// What is refused.
pub(super) static REFUSALS: &str = "$ run p g --machines 1
nothing diamond BadProgram
symple: program: P1 at 1:1
$ run p g --machines 1
half diamond BadProgram
symple: program: P1 at 1:10
$ run p g --machines 1
at diamond BadProgram
symple: program: L1 at 2:6
$ run p g --machines 1
dust diamond BadProgram
symple: program: Y1 at 8:12
$ run p g --machines 1
third diamond BadProgram
symple: program: P1 at 1:8
$ run p g --machines 1
early_total diamond BadProgram
symple: program: Y4 at 1:47
$ run p g --machines 1
no_sparse diamond BadProgram
symple: program: Y6 at 2:6
$ run p g --machines 1
nothing letter BadProgram
symple: program: P1 at 1:1
$ run p g --machines 1
bfs late_letter BadGraph
symple: graph: E1 at line 4
$ run p g --vertices 3 --machines 1
bfs diamond BadGraph
symple: graph: E3 at line 3
$ run p g --binary --machines 1
bfs units_and_more BadGraph
symple: graph: E6 at byte 32
$ plan g --machines 2
bfs four_words BadGraph
symple: graph: E1 at line 1
$ plan g --machines 2 --binary
bfs far_unit BadGraph
symple: graph: E4 at byte 0
$ run p h --machines 1
bfs diamond ReadFault
symple: cannot read h
$ run q g --machines 1
bfs diamond ReadFault
symple: cannot read q
$ run q h --machines 1
bfs diamond ReadFault
symple: cannot read q
$ plan h --machines 1
bfs diamond ReadFault
symple: cannot read h
$ fly
bfs diamond Usage
symple: unknown command
$
bfs diamond Usage
symple: unknown command
$ record p g s
bfs diamond Usage
symple: bad arguments
$ run p g
bfs diamond Usage
symple: bad arguments
$ run p g --machines 65
bfs diamond Usage
symple: bad arguments
$ run p g --machines 0
bfs diamond Usage
symple: bad arguments
$ run p g --machines 1 --image
bfs diamond Usage
symple: bad arguments
$ run p g --machines 1 --weighted
bfs diamond Usage
symple: bad arguments
$ plan g
bfs diamond Usage
symple: bad arguments
$ show q
bfs diamond ReadFault
symple: cannot read q
$ free q
bfs diamond ReadFault
symple: cannot read q
$ show p
dust diamond BadProgram
symple: program: Y1 at 8:12
$ free p
at diamond BadProgram
symple: program: L1 at 2:6
$ free p
no_sparse diamond BadProgram
symple: program: Y6 at 2:6
$ show
bfs diamond Usage
symple: bad arguments
$ show p g
bfs diamond Usage
symple: bad arguments
$ show p --machines 2
bfs diamond Usage
symple: bad arguments
$ free
bfs diamond Usage
symple: bad arguments
$ free p --rounds
bfs diamond Usage
symple: bad arguments
";

/// Loads that fail: behind the status stands the call of the shelf.
pub(super) static FAILURES: &str = "$ run p g --machines 1
bfs diamond ReadFault 2
symple: cannot read p
$ run p g --machines 1
bfs diamond ReadFault 3
symple: cannot read g
$ show p
bfs diamond ReadFault 2
symple: cannot read p
$ free p
bfs diamond ReadFault 2
symple: cannot read p
$ plan g --machines 2
bfs diamond ReadFault 2
symple: cannot read g
$ run p g --machines 1
dust diamond BadProgram 3
symple: program: Y1 at 8:12
";

/// Lines whose puts fail in turn.
pub(super) static FAILING: &str = "run p g --machines 1 --rounds
run p g --machines 1 --reads
plan g --machines 2
show p
free p";

/// Runs with `--log`: behind `$` the words; a line with the program under `p`, the graph under `g`, and how many
/// events of each kind there are; the lines that are among the others, and behind `!` what is in none of them; behind a
/// line `=` what is left without events.
pub(super) static LOGS: &str = "$ run p g --machines 2 --log
bfs diamond 34 30
take dep 1 0 0 0 1 0201000000000000010100000002
take dep 1 0 1 0 1 0201000000000100010100000001
=
vertex dist parent
0 0 -1
1 1 0
2 1 0
3 2 1
$ run p g --both --machines 3 --rounds --log
k triangle-with-tail 54 72
take dep 1 0 0 1 2 02010000000000010209000000010100000000000000
=
round 1 dense 4 8 7
round 2 dense 1 1 7
vertex alive
0 true
1 true
2 true
3 false
$ run p g --machines 3 --log --rounds
sum weighted-cycle 29 26
!take dep
=
round 1 dense 3 4 4
vertex mass
0 -3
1 5
2 11
$ run p g --machines 2 --log
first0 diamond 3 2
take tally 0 1 0 05000000000000010018000000020000000000000001000000000000000000000000000000
take verdict 1 0 1 0601000000000000010100000000
!take dep
=
vertex pick
0 -1
1 -1
2 -1
3 -1
$ run p g --machines 2 --log
halve path 29 18
take tally 0 1 0 050000000000000100200000000100000000000000000000000000000000000000000000000100000000000000
take verdict 1 0 1 06010000000000000109000000010300000000000000
!take dep
=
vertex c
0 0
1 0
2 1
$ run p g --machines 64 --log
first0 diamond 65 126
=
vertex pick
0 -1
1 -1
2 -1
3 -1
";
