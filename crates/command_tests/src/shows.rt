//! Rows of `show` and `free`, in the same form.

/// Programs with how their loops are split.
pub(super) static SHOWS: &str = "$ show p
k empty Done
vertex 1 ;
mode dense ;
limit 100 ;
field alive : bool = true ;
slot weak : sum ;
start true ;
dense when alive {
let c : int = 0 ;
for u {
if u . alive {
c += 1 ;
if c >= 2 {
break ;
}
}
}
if c < 2 {
emit weak 1 ;
}
}
update {
if weak . got {
alive = false ;
active = true ;
}
}
local c carried
ring 1
begin {
let c : int = 0 ;
receive c ;
}
segment {
if u . alive {
c += 1 ;
if c >= 2 {
break ;
}
}
}
give {
forward c ;
}
tail {
if c < 2 {
emit weak 1 ;
}
}
$ show p
bfs empty Done
vertex 1 ;
mode auto ;
limit 100 ;
field dist : int = id == 0 ? 0 : - 1 ;
field parent : int = - 1 ;
slot claim : first ;
start id == 0 ;
dense when dist < 0 {
for u {
if u . active {
emit claim u . id ;
break ;
}
}
}
sparse when true {
send from : int = id ;
if dist < 0 {
emit claim from ;
}
}
update {
if claim . got {
dist = round ;
parent = claim . value ;
active = true ;
}
}
ring 0
begin {
}
segment {
if u . active {
emit claim u . id ;
break ;
}
}
give {
update claim first ;
}
tail {
}
$ show p
dense_only empty Done
vertex 1 ;
mode dense ;
limit 100 ;
field dist : int = id == 0 ? 0 : - 1 ;
field parent : int = - 1 ;
slot claim : first ;
start id == 0 ;
dense when dist < 0 {
for u {
if u . active {
emit claim u . id ;
break ;
}
}
}
update {
if claim . got {
dist = round ;
parent = claim . value ;
active = true ;
}
}
ring 0
begin {
}
segment {
if u . active {
emit claim u . id ;
break ;
}
}
give {
update claim first ;
}
tail {
}
$ show p
dice empty Done
vertex 1 ;
mode dense ;
limit 0 ;
field d : int = draw ( 54 ) ;
start true ;
dense when true {
for u {
}
}
update {
}
ring none
begin {
}
segment {
}
give {
}
tail {
}
$ show p
every-class empty Done
vertex 2 ;
mode auto ;
limit 12 ;
field mass : int = id * 2 - 1 ;
field alive : bool = ! ( id == 3 ) || n > 7 ;
slot near : min ;
slot far : max ;
slot all : sum ;
slot one : first ;
total t : sum = active ? mass : - 1 ;
total most : max = min ( mass , indeg ) ;
start id < n && draw ( 7 ) >= 0 ;
dense when alive && t != 0 {
let own : int = mass + t ;
let flag : bool = active ;
let weights : int = 0 ;
let low : int = 100 ;
let high : int = 0 - 100 ;
let count : int = 0 ;
let mixed : int = 1 ;
let last : int = id ;
for u {
if u . active && ! flag {
weights += w * own ;
low min = u . mass ;
if u . mass > own {
high max = max ( u . mass , u . outdeg ) ;
count += 1 ;
if count >= own {
mixed += 1 ;
emit all count % 3 ;
}
else {
mixed min = 2 ;
emit near last ;
}
}
else {
if flag {
emit one u . id ;
break ;
}
}
}
last = u . id ;
}
emit far weights ;
if low < 100 {
emit all ( low + high ) / 2 ;
}
else {
low = 0 ;
}
}
sparse when alive {
send mine : int = mass ;
send sure : bool = alive ;
if sure {
emit near mine + w ;
}
}
update {
if near . got && all . value <= 5 {
mass min = near . value ;
active = ! active ;
}
else {
mass max = far . value ;
alive = one . got ;
}
}
stop most == t || round > 3 ;
local own constant
local flag constant
local weights reduced sum
local low reduced min
local high reduced max
local count carried
local mixed carried
local last carried
ring 3
begin {
let own : int = mass + t ;
let flag : bool = active ;
let weights : int = 0 ;
let low : int = 100 ;
let high : int = 0 - 100 ;
let count : int = 0 ;
let mixed : int = 1 ;
let last : int = id ;
receive count ;
receive mixed ;
receive last ;
reset weights sum ;
reset low min ;
reset high max ;
}
segment {
if u . active && ! flag {
weights += w * own ;
low min = u . mass ;
if u . mass > own {
high max = max ( u . mass , u . outdeg ) ;
count += 1 ;
if count >= own {
mixed += 1 ;
emit all count % 3 ;
}
else {
mixed min = 2 ;
emit near last ;
}
}
else {
if flag {
emit one u . id ;
break ;
}
}
}
last = u . id ;
}
give {
forward count ;
forward mixed ;
forward last ;
update weights sum ;
update low min ;
update high max ;
update near min ;
update all sum ;
update one first ;
}
tail {
emit far weights ;
if low < 100 {
emit all ( low + high ) / 2 ;
}
else {
low = 0 ;
}
}
$ show p
first empty Done
vertex 1 ;
mode dense ;
limit 1 ;
field pick : int = - 1 ;
slot seen : first ;
start true ;
dense when true {
for u {
emit seen u . id ;
break ;
}
}
update {
if seen . got {
pick = seen . value ;
}
}
ring 0
begin {
}
segment {
emit seen u . id ;
break ;
}
give {
update seen first ;
}
tail {
}
$ show p
first0 empty Done
vertex 1 ;
mode dense ;
limit 0 ;
field pick : int = - 1 ;
slot seen : first ;
start true ;
dense when true {
for u {
emit seen u . id ;
break ;
}
}
update {
if seen . got {
pick = seen . value ;
}
}
ring 0
begin {
}
segment {
emit seen u . id ;
break ;
}
give {
update seen first ;
}
tail {
}
$ show p
halve empty Done
vertex 2 ;
mode dense ;
limit 10 ;
field c : int = 1 ;
slot a : sum ;
total t : sum = c ;
start true ;
dense when true {
for u {
emit a u . c ;
}
}
update {
c = a . value ;
active = true ;
}
stop t < 2 ;
ring none
begin {
}
segment {
emit a u . c ;
}
give {
update a sum ;
}
tail {
}
$ show p
heavy empty Done
vertex 1 ;
mode dense ;
limit 1 ;
field pick : int = - 1 ;
slot seen : first ;
start true ;
dense when true {
for u {
emit seen w ;
}
}
update {
if seen . got {
pick = seen . value ;
}
}
ring none
begin {
}
segment {
emit seen w ;
}
give {
update seen first ;
}
tail {
}
$ show p
sample empty Done
vertex 1 ;
mode dense ;
limit 1 ;
field pick : int = - 1 ;
slot seen : first ;
start true ;
dense when true {
let left : int = draw ( 0 ) % indeg ;
for u {
if left == 0 {
emit seen u . id ;
break ;
}
left = left - 1 ;
}
}
update {
if seen . got {
pick = seen . value ;
}
}
local left carried
ring 1
begin {
let left : int = draw ( 0 ) % indeg ;
receive left ;
}
segment {
if left == 0 {
emit seen u . id ;
break ;
}
left = left - 1 ;
}
give {
forward left ;
update seen first ;
}
tail {
}
$ show p
sparse-only empty Done
vertex 1 ;
mode sparse ;
limit 2 ;
field a : int = id ;
slot s : sum ;
start true ;
sparse when true {
send p : int = a ;
emit s p ;
}
update {
a += s . value ;
}
no dense
$ show p
sum empty Done
vertex 1 ;
mode dense ;
limit 1 ;
field mass : int = 0 ;
slot acc : sum ;
start true ;
dense when true {
let s : int = 0 ;
for u {
s += w ;
}
emit acc s ;
}
update {
mass = acc . value ;
}
local s reduced sum
ring none
begin {
let s : int = 0 ;
reset s sum ;
}
segment {
s += w ;
}
give {
update s sum ;
}
tail {
emit acc s ;
}
$ show p
wrap empty Done
vertex 1 ;
mode dense ;
limit 1 ;
field x : int = id == 0 ? 9223372036854775807 : 1 ;
slot acc : sum ;
start true ;
dense when id == 2 {
for u {
emit acc u . x ;
}
}
update {
if acc . got {
x = acc . value ;
}
}
ring none
begin {
}
segment {
emit acc u . x ;
}
give {
update acc sum ;
}
tail {
}
$ show p
zero empty Done
vertex 1 ;
mode dense ;
limit 1 ;
field a : bool = false ;
slot z : sum ;
start true ;
dense when true {
for u {
emit z u . id ;
}
}
update {
a = z . got ;
}
ring none
begin {
}
segment {
emit z u . id ;
}
give {
update z sum ;
}
tail {
}
$ show p
two-sorts empty Done
vertex 1 ;
mode auto ;
limit 2 ;
field a : int = id ;
slot s : sum ;
slot o : first ;
start true ;
dense when true {
let c : int = 0 ;
for u {
c += w ;
}
emit s c ;
}
sparse when true {
send p : int = a ;
if p > 0 {
emit s p ;
}
else {
emit o p ;
}
}
update {
a += s . value ;
}
local c reduced sum
ring none
begin {
let c : int = 0 ;
reset c sum ;
}
segment {
c += w ;
}
give {
update c sum ;
}
tail {
emit s c ;
}
";

/// Whether rows depend on the order of neighbours.
pub(super) static FREES: &str = "$ free p
k empty Done
free reach-a-count
$ free p
sum empty Done
free reductions
$ free p
bfs empty Done
not free: first slot claim
$ free p
by_weight empty Done
not free: loop
$ free p
dice empty Done
free reductions
$ free p
first empty Done
not free: first slot seen
$ free p
first0 empty Done
not free: first slot seen
$ free p
halve empty Done
free reductions
$ free p
heavy empty Done
not free: first slot seen
$ free p
sample empty Done
not free: first slot seen
$ free p
wrap empty Done
free reductions
$ free p
zero empty Done
free reductions
$ free p
sparse-only empty Done
free no-loop
$ free p
two-sorts empty Done
not free: first slot o
$ free p
every-class empty Done
not free: first slot one
$ free p
dense_only empty Done
not free: first slot claim
";

/// Loop bodies with what `free` tells of them. The first line stands before each, and the second behind
/// it.
pub(super) static BODIES: &str =
    "vertex 2; mode dense; limit 3; field a: int = id; field b: bool = true; slot s: sum; slot o: first; slot h: max; slot f: first; total t: sum = a; start true; dense when b { let c: int = 0; let d: int = 2; let e: bool = true; for u {
} emit f c; } update { }
free reductions | if u.b { }
free reductions | c += w;
free reductions | c += w; emit s u.a;
free reductions | emit h w; emit s d;
not free: loop | c += 1; c max= 3;
not free: loop | c = c + 1;
not free: loop | c += 1; emit s c;
not free: loop | c += d; d min= u.a;
free reductions | if u.b { c += 1; } else { d max= w; }
free found-one | if u.b { break; }
free found-one | if u.b { emit s d; break; }
not free: loop | if u.b { emit s u.a; break; }
not free: loop | if u.b { emit s w; break; }
free found-one | if u.b { c = d; break; }
not free: loop | if u.b { c = c; break; }
not free: loop | if u.b && c == 0 { c = 1; break; }
free found-one | if u.b && d == 2 { c = 1; emit s 3; break; }
not free: loop | if u.b { c += 1; break; }
not free: loop | if u.b { emit s 1; break; } else { }
not free: loop | if u.b { break; emit s 1; }
not free: loop | if u.b { break; break; }
free reductions | if u.b { emit s 1; }
not free: loop | if u.b { if u.a > 0 { break; } }
free reach-a-count | if u.b { c += 1; if c >= d { break; } }
free reach-a-count | if u.b { c += d; if c >= d { emit s c; break; } }
not free: loop | if u.b { c += w; if c >= 2 { break; } }
not free: loop | if u.b { c += 1; if c >= w { break; } }
not free: loop | if u.b { c += 1; if c >= u.a { break; } }
not free: loop | if u.b { c += 1; if c > 2 { break; } }
not free: loop | if u.b { c += 1; if (c >= 2) { break; } }
free reach-a-count | if (u.b) { c += 1; if c >= (2) { break; } }
not free: loop | if u.b { c += 1; if c >= 2 { c = 0; break; } }
free reach-a-count | if u.b { c += 1; if c >= 2 { d = c; break; } }
not free: loop | if u.b { c += 1; if c >= d { d = c; break; } }
not free: loop | if u.b { c += 1; if c >= 2 { break; } else { } }
not free: loop | if u.b { c += 1; if c >= 2 { break; } } emit s 1;
not free: loop | if u.b { c += 1; if d >= 2 { break; } }
not free: loop | if u.b { c max= 1; if c >= 2 { break; } }
not free: loop | if u.b && c < 9 { c += 1; if c >= 2 { break; } }
not free: first slot f | emit f w;
not free: first slot o | emit f 1; emit o 2;
not free: first slot o | if u.b { break; } else { emit o 1; }
not free: first slot f | if u.b { emit f d; break; }
free found-one | if u.b { emit s draw(3) + t + id + n + round + indeg + a; break; }
not free: loop | if e { e = false; break; }
not free: loop | if u.b { e = !e; break; }
not free: loop | break;
";
