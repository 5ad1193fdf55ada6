//! What README and the guide print, as `bench/documents --rows` writes it.

/// The files of examples/, each behind `$`, its name and a line end.
pub(super) static FILES: &str = "$ examples/bfs.vp
// Breadth-first search from vertex 0: how far each vertex is, and by which neighbour it was reached. A loop
// that has found a parent breaks. A vertex that no path reaches keeps -1.
vertex 1;
mode auto;
limit 100;
field dist: int = id == 0 ? 0 : -1;
field parent: int = -1;
slot claim: first;
start id == 0;
dense when dist < 0 {
  for u {
    if u.active { emit claim u.id; break; }
  }
}
sparse when true {
  send from: int = id;
  if dist < 0 { emit claim from; }
}
update {
  if claim.got { dist = round; parent = claim.value; active = true; }
}
$ examples/components.vp
// Connected components: each vertex takes the least label among its own and its neighbours', until none
// changes. Use it with --both, so that an edge joins its two ends.
vertex 1;
mode auto;
limit 10000;
field label: int = id;
slot least: min;
start true;
dense when true {
  for u {
    if u.active { emit least u.label; }
  }
}
sparse when true {
  send from: int = label;
  emit least from;
}
update {
  if least.got && least.value < label { label = least.value; active = true; }
}
$ examples/diamond.txt
# Four vertices: two ways lead from 0 to 3.
# A line is an edge, from the first vertex into the second.
0 1
0 2
1 3
2 3
$ examples/independent-set.vp
// A maximal independent set: in each round an undecided vertex joins where its draw is below those of its
// undecided neighbours, and leaves where a neighbour has joined. Use it with --both.
vertex 1;
mode dense;
limit 1000;
field joined: bool = false;
field decided: bool = false;
field ticket: int = draw(0);
slot lost: max;
slot won: max;
start true;
dense when !decided {
  let least: bool = true;
  for u {
    if u.joined { emit lost 1; break; }
    if !u.decided && (u.ticket < ticket || u.ticket == ticket && u.id < id) { least = false; }
  }
  if least { emit won 1; }
}
update {
  if !decided {
    active = true;
    ticket = draw(0);
    if lost.got { decided = true; } else { if won.got { joined = true; decided = true; } }
  }
}
$ examples/islands.txt
# Two islands and, with vertex 8, a vertex alone.
# With --both each line is an edge in both directions.
1 2
2 3
3 1
0 4
4 5
5 6
6 7
7 0
8 8
$ examples/k.vp
// A k-core, k being 2: a vertex with fewer than two living neighbours dies, until none does. The loop counts
// up to two and breaks. Use it with --both.
vertex 1; mode dense; limit 100;
field alive: bool = true;
slot weak: sum;
start true;
dense when alive {
  let c: int = 0;
  for u { if u.alive { c += 1; if c >= 2 { break; } } }
  if c < 2 { emit weak 1; }
}
update { if weak.got { alive = false; active = true; } }
$ examples/links.txt
# Pages and the pages that they link to.
# Page 4 is linked to by none.
0 1
0 2
1 2
2 0
3 2
3 0
4 3
$ examples/rank.vp
// A rank in fixed point, a million to a vertex at first: 15 of 100 parts stay, the rest flows along the
// edges. The largest change of a round is a total, and the run stops once it is below 1000.
vertex 2;
mode dense;
limit 100;
field rank: int = 1000000;
field change: int = 1000000;
slot inflow: sum;
total largest: max = change;
start true;
dense when true {
  let share: int = 0;
  for u { share += u.rank / u.outdeg; }
  emit inflow share;
}
update {
  change = rank;
  rank = 150000 + inflow.value * 85 / 100;
  change = max(change, rank) - min(change, rank);
  active = true;
}
stop largest < 1000;
$ examples/roads.txt
# Six towns; the third number is the length of the road.
# With --both each road leads both ways.
0 1 7
0 2 9
0 5 14
1 2 10
1 3 15
2 3 11
2 5 2
3 4 6
4 5 9
$ examples/sample.vp
// A sample: each vertex draws a place among its neighbours and counts down to it. The same draws number
// gives the same sample.
vertex 1; mode dense; limit 1;
field pick: int = -1;
slot seen: first;
start true;
dense when true {
  let left: int = draw(0) % indeg;
  for u {
    if left == 0 { emit seen u.id; break; }
    left = left - 1;
  }
}
update { if seen.got { pick = seen.value; } }
$ examples/shortest-paths.vp
// Shortest paths from vertex 0 over edges with lengths, none below 0. A vertex whose distance fell tells
// its neighbours; each takes the least that it is told. A vertex that no path reaches keeps -1.
vertex 1;
mode auto;
limit 10000;
field dist: int = id == 0 ? 0 : -1;
slot near: min;
start id == 0;
dense when true {
  for u {
    if u.active { emit near u.dist + w; }
  }
}
sparse when true {
  send from: int = dist;
  emit near from + w;
}
update {
  if near.got && (dist < 0 || near.value < dist) { dist = near.value; active = true; }
}
$ examples/three-into-one.txt
# Three edges into vertex 1.
# Vertices 2 and 3 have no edge into them.
0 1
2 1
3 1
1 0
$ examples/triangle-with-tail.txt
# Three vertices, each joined to the others, and a fourth that hangs on one of them.
# With --both each line is an edge in both directions.
0 1
1 2
0 2
0 3
";

/// Commands over these files in turn: behind `$` the words, then the status, then what is printed or noted.
pub(super) static COMMANDS: &str = "$ run examples/bfs.vp examples/diamond.txt --machines 2 --rounds
Done
round 1 dense 1 2 4
round 2 dense 2 2 1
round 3 sparse 1 0 0
vertex dist parent
0 0 -1
1 1 0
2 1 0
3 2 1
$ run examples/bfs.vp examples/diamond.txt --machines 2 --rounds
Done
round 1 dense 1 2 4
round 2 dense 2 2 1
round 3 sparse 1 0 0
vertex dist parent
0 0 -1
1 1 0
2 1 0
3 2 1
$ run examples/bfs.vp examples/diamond.txt --machines 2 --reads
Done
read 1 1 0
read 1 2 0
read 1 3 1 2
read 2 3 1
vertex dist parent
0 0 -1
1 1 0
2 1 0
3 2 1
$ free examples/bfs.vp
Done
not free: first slot claim
$ show examples/k.vp
Done
vertex 1 ;
mode dense ;
limit 100 ;
field alive : bool = true ;
slot weak : sum ;
start true ;
dense when alive {
let c : int = 0 ;
for u {
if u . alive {
c += 1 ;
if c >= 2 {
break ;
}
}
}
if c < 2 {
emit weak 1 ;
}
}
update {
if weak . got {
alive = false ;
active = true ;
}
}
local c carried
ring 1
begin {
let c : int = 0 ;
receive c ;
}
segment {
if u . alive {
c += 1 ;
if c >= 2 {
break ;
}
}
}
give {
forward c ;
}
tail {
if c < 2 {
emit weak 1 ;
}
}
$ run examples/k.vp examples/triangle-with-tail.txt --both --machines 1 --rounds
Done
round 1 dense 4 8 7
round 2 dense 1 1 6
vertex alive
0 true
1 true
2 true
3 false
$ free examples/k.vp
Done
free reach-a-count
$ run examples/sample.vp examples/three-into-one.txt --machines 1 --draws 42
Done
vertex pick
0 1
1 2
2 -1
3 -1
$ free examples/sample.vp
Done
not free: first slot seen
$ run examples/sample.vp examples/three-into-one.txt --machines 2 --draws 42
Done
vertex pick
0 1
1 3
2 -1
3 -1
$ run examples/shortest-paths.vp examples/roads.txt --both --machines 3 --rounds
Done
round 1 dense 1 3 18
round 2 dense 3 10 18
round 3 dense 3 8 18
round 4 dense 1 2 18
vertex dist
0 0
1 7
2 9
3 20
4 20
5 11
$ free examples/shortest-paths.vp
Done
free reductions
$ run examples/components.vp examples/islands.txt --both --machines 2 --rounds
Done
round 1 dense 9 18 18
round 2 dense 6 12 18
round 3 dense 2 4 18
vertex label
0 0
1 1
2 1
3 1
4 0
5 0
6 0
7 0
8 8
$ free examples/components.vp
Done
free reductions
$ run examples/rank.vp examples/links.txt --machines 4
Done
vertex rank change
0 1821175 289
1 924122 435
2 1827193 146
3 277500 0
4 150000 0
$ free examples/rank.vp
Done
free reductions
$ run examples/independent-set.vp examples/islands.txt --both --machines 2 --draws 7
Done
vertex joined decided ticket
0 false true 1926335874
1 true true 3903942093
2 false true 1261279006
3 false true 1026266257
4 false true 886739173
5 true true 1901229124
6 false true 2028652741
7 true true 2841747128
8 true true 2352529242
$ free examples/independent-set.vp
Done
not free: loop
$ record examples/bfs.vp examples/diamond.txt bfs.schedule --machines 2 --seed 7
Done
vertex dist parent
0 0 -1
1 1 0
2 1 0
3 2 1
$ replay examples/bfs.vp examples/diamond.txt bfs.schedule --rounds
Done
round 1 dense 1 2 4
round 2 dense 2 2 1
round 3 sparse 1 0 0
vertex dist parent
0 0 -1
1 1 0
2 1 0
3 2 1
$ record examples/bfs.vp examples/diamond.txt lossy.schedule --machines 2 --seed 7 --lossy
Done
vertex dist parent
0 0 -1
1 1 0
2 1 0
3 2 1
$ run examples/bfs.vp examples/diamond.txt --machines 2 --image bfs.image
Done
vertex dist parent
0 0 -1
1 1 0
2 1 0
3 2 1
$ resume examples/bfs.vp examples/diamond.txt bfs.image --machines 2 --rounds
Done
round 3 sparse 1 0 0
vertex dist parent
0 0 -1
1 1 0
2 1 0
3 2 1
$ show examples/diamond.txt
BadProgram
symple: program: L1 at 1:1
";
