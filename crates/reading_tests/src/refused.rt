/// Refused programs: groups with `%%` between them. Of each group the first line stands before each text and the
/// second line behind it, so that the texts stand on line 2. Each of the other lines is a text behind the code and
/// the place that it is refused with. They are of headers, whole programs, fields, totals, start, the dense test,
/// the sparse test, lets, the loop body, the tail, sends, the sparse body, update and stop.
pub(crate) static REFUSED: &str = "
start true; dense when true { for u { } } update { }
L1 at 2:1: @ 9223372036854775808
L1 at 2:9: vertex 1$
L1 at 2:12: mode mode; |
L1 at 2:12: start true & true;
L2 at 2:7: limit 9223372036854775808 @
L2 at 2:29: vertex 1; mode dense; limit 0099999999999999999999;
P1 at 2:1: Vertex 1; mode dense; limit 1;
P1 at 2:8: vertex 0; mode dense; limit 1;
P1 at 2:8: vertex 3; mode dense; limit 1;
P1 at 2:8: vertex one; mode dense; limit 1;
P1 at 2:10: vertex 1 mode dense; limit 1;
P1 at 2:16: vertex 1; mode fast; limit 1;
P1 at 2:29: vertex 1; mode dense; limit -1;
P1 at 2:32: vertex 1; mode dense; limit 1; total t: sum = 0;
P1 at 2:41: vertex 2; mode dense; limit 1; total t: first = 0;
P1 at 2:32: vertex 2; mode dense; limit 1; Total t: sum = 0;
P1 at 3:1: vertex 1; mode dense; limit 1; field a: int = 1
P1 at 3:1: vertex 1; mode dense; limit 1; start true;
Y6 at 2:16: vertex 1; mode sparse; limit 1;
Y6 at 2:16: vertex 1; mode auto; limit 10001;
Y7 at 2:29: vertex 1; mode dense; limit 10001;
Y7 at 2:29: vertex 1; mode dense; limit 9223372036854775807; field a: int = b;
%%


Y5 at 2:16: vertex 1; mode dense; limit 1; start true; update { }
Y5 at 2:16: vertex 2; mode auto; limit 20000; start 1; update { } stop 1;
Y6 at 2:16: vertex 1; mode dense; limit 1; start true; sparse when true { } update { }
Y6 at 2:16: vertex 1; mode auto; limit 1; start true; sparse when true { } update { }
P1 at 3:1: vertex 1; mode dense; limit 1; start true; dense when true { for u { } }
P1 at 2:55: vertex 1; mode dense; limit 1; start true; update { } update { }
P1 at 2:55: vertex 1; mode dense; limit 1; start true; update { } stop true;
P1 at 3:1: vertex 2; mode dense; limit 1; start true; update { } stop true
P1 at 2:65: vertex 1; mode dense; limit 1; start true; sparse when true { } dense when true { for u { } } update { }
%%
vertex 2; mode auto; limit 1;
slot s: sum; total t: sum = 0; start true; dense when true { let x: int = 0; for u { } } sparse when true { send p: int = 0; } update { }
P1 at 2:10: field a: float = 1;
P1 at 2:7: field int: int = 1;
P1 at 2:9: field a int = 1;
P1 at 2:9: slot z: avg;
P1 at 2:14: slot z: sum; field a: int = 1;
P1 at 2:18: field a: int = 1 2;
Y1 at 2:16: field a: int = b;
Y1 at 2:16: field a: int = z.value;
Y1 at 2:17: field a: bool = z.value;
Y1 at 2:23: field a: int = true ? z : true;
Y2 at 2:25: field a: int = 0; field a: int = 1;
Y2 at 3:66: field x: int = 0;
Y2 at 3:6: field s: int = 0;
Y3 at 2:16: field a: int = true;
Y3 at 2:17: field a: bool = w;
Y3 at 2:16: field a: int = active;
Y3 at 2:17: field a: bool = s.value;
Y3 at 2:16: field a: int = s.got;
Y3 at 2:35: field a: int = 0; field b: bool = u.a;
Y3 at 2:17: field a: bool = draw(0);
Y3 at 2:20: field a: int = 1 + true;
Y3 at 2:16: field a: int = true + w;
Y3 at 2:22: field a: bool = 1 == true;
Y3 at 2:18: field a: bool = !1;
Y3 at 2:17: field a: int = -true;
Y3 at 2:16: field a: int = !true;
Y3 at 2:16: field a: int = id == 0;
Y3 at 2:16: field a: int = (id == 0);
Y3 at 2:16: field a: int = 1 ? 2 : 3;
Y3 at 2:27: field a: int = true ? 1 : false;
Y3 at 2:17: field a: bool = true ? 1 : 2;
Y3 at 2:20: field a: int = min(true, 1);
Y3 at 2:17: field a: bool = max(1, 2);
Y3 at 2:25: field a: bool = true && 1;
Y3 at 2:16: field a: int = true || false;
Y4 at 2:16: field a: int = w;
Y4 at 2:17: field a: bool = active;
Y4 at 2:16: field a: int = a;
Y4 at 2:34: field a: int = 0; field b: int = a;
Y4 at 2:16: field a: int = t;
Y4 at 2:16: field a: int = s.value;
Y4 at 2:16: field a: int = u.a;
Y4 at 2:16: field a: int = u.z;
Y4 at 2:16: field a: int = w + true;
Y4 at 2:23: field a: int = true ? w : true;
Y8 at 2:21: field a: int = draw(256);
Y8 at 2:33: field a: int = draw(255) + draw(9223372036854775807);
%%
vertex 2; mode dense; limit 1; field a: int = 0; field f: bool = true; slot s: sum;
start true; dense when true { let x: int = 0; for u { } } update { }
P1 at 2:13: total t: sum;
Y4 at 2:20: total total: sum = total;
Y3 at 2:16: total t: sum = f;
Y3 at 2:16: total t: sum = active;
Y4 at 2:16: total t: sum = t;
Y4 at 2:34: total t: sum = a; total v: max = t;
Y4 at 2:16: total t: sum = s.value;
Y4 at 2:16: total t: sum = w;
Y4 at 2:16: total t: sum = x;
Y4 at 2:16: total t: sum = u.a;
Y1 at 2:16: total t: sum = z;
Y2 at 2:7: total a: sum = 1;
%%
vertex 2; mode dense; limit 1; field a: int = 0; field f: bool = true; slot s: sum; total t: sum = a;
dense when true { let x: int = 0; for u { } } update { }
P1 at 3:1: start true
Y1 at 2:7: start z;
Y3 at 2:7: start a;
Y3 at 2:7: start 1;
Y4 at 2:7: start active;
Y4 at 2:7: start t > 0;
Y4 at 2:7: start w == 0;
Y4 at 2:7: start x == 0;
Y4 at 2:7: start u.f;
Y4 at 2:12: start f && u.active;
Y4 at 2:7: start s;
Y4 at 2:7: start s.got;
Y8 at 2:12: start draw(300) < 1;
%%
vertex 2; mode dense; limit 1; field a: int = 0; field f: bool = true; slot s: sum; total t: sum = a; start true; dense when
{ let x: int = 0; for u { } } update { }
Y1 at 2:1: z
Y3 at 2:1: a
Y3 at 2:1: t
Y3 at 2:6: t == f
Y4 at 2:1: w == 0
Y4 at 2:1: x == 0
Y4 at 2:1: s
Y4 at 2:1: s.got
Y4 at 2:1: u.f
%%
vertex 2; mode sparse; limit 1; field a: int = 0; field f: bool = true; slot s: sum; total t: sum = a; start true; sparse when
{ send p: int = 0; } update { }
Y1 at 2:1: z == 0
Y3 at 2:1: a + 1
Y3 at 2:1: f == f
Y4 at 2:1: p == 0
Y4 at 2:1: w == 0
Y4 at 2:1: u.active
Y4 at 2:1: s.value == 0
%%
vertex 2; mode dense; limit 1; field a: int = 0; field f: bool = true; slot s: sum; total t: sum = a; start true; dense when true {
for u { } } update { }
Y1 at 2:14: let x: int = z;
Y2 at 2:21: let x: int = 0; let x: bool = true;
Y2 at 2:5: let a: int = 0;
Y3 at 2:15: let x: bool = w;
Y3 at 2:15: let x: bool = a;
Y4 at 2:14: let x: int = x;
Y4 at 2:14: let x: int = y; let y: int = 0;
Y4 at 2:14: let x: int = w;
Y4 at 2:14: let x: int = u.a;
Y4 at 2:14: let x: int = s.value;
%%
vertex 2; mode dense; limit 1; field a: int = 0; field f: bool = true; slot s: sum; total t: sum = a; start true; dense when true { let x: int = 0; let y: bool = true; for u {
} } update { }
P1 at 2:1: active = true;
P1 at 2:1: let z: int = 0;
P1 at 2:1: value = 1;
P1 at 3:1: emit s 1; break
P1 at 2:6: stop 1;
P1 at 2:6: emit 1;
P1 at 2:7: emit s;
P1 at 2:3: x == 1;
P1 at 2:3: x sum= 1;
P1 at 2:7: x min 1;
P1 at 2:4: x =+ 1;
P1 at 2:6: x += += 1;
P1 at 2:11: x = 1 < 2 < 3;
P1 at 2:8: x = 1 +;
P1 at 2:7: x = (1;
P1 at 2:6: x = ();
P1 at 2:10: x = min(1);
P1 at 2:13: x = max(1, 2, 3);
P1 at 2:6: x = u;
P1 at 2:7: x = u.w;
P1 at 2:7: x = u.round;
P1 at 2:10: x = s.got.value;
P1 at 2:7: x = s.count;
P1 at 2:10: x = draw(a);
P1 at 2:12: x = draw(1 + 1);
P1 at 2:10: x = 1 ? 2;
P1 at 2:15: x = y ? 1 : 2 : 3;
P1 at 2:4: if { }
P1 at 2:22: if y { x = 1; } else x = 2;
P1 at 2:16: if y { x = 1; };
Y1 at 2:1: z = 1;
Y1 at 2:1: z += true;
Y1 at 2:8: x max= z;
Y1 at 2:6: emit z 1;
Y1 at 2:17: if y { } else { z = 1; }
Y1 at 2:7: x = u.z;
Y1 at 2:5: x = z.got;
Y3 at 2:5: x = true;
Y3 at 2:5: y = 1;
Y3 at 2:1: y += 1;
Y3 at 2:1: y min= true;
Y3 at 2:6: x += true;
Y3 at 2:8: emit s true;
Y3 at 2:8: emit s y;
Y3 at 2:4: if x { }
Y3 at 2:12: if y { x = y; }
Y3 at 2:5: x = u.f;
Y3 at 2:5: x = u.active;
Y3 at 2:13: y = u.id == u.active;
Y3 at 2:5: x = t.got;
Y4 at 2:1: a = true;
Y4 at 2:1: s = 1;
Y4 at 2:1: t = 1;
Y4 at 2:1: a += 1;
Y4 at 2:6: emit x 1;
Y4 at 2:6: emit a true;
Y4 at 2:5: x = s;
Y4 at 2:5: x = s.value;
Y4 at 2:5: y = s.got;
Y4 at 2:5: x = a.value;
Y4 at 2:7: x = u.x;
Y4 at 2:7: y = u.t;
Y8 at 2:10: x = draw(256);
Y8 at 2:14: x = y ? draw(999) : true;
%%
vertex 2; mode dense; limit 1; field a: int = 0; field f: bool = true; slot s: sum; total t: sum = a; start true; dense when true { let x: int = 0; let y: bool = true; for u { }
} update { }
P1 at 2:1: break;
P1 at 2:1: for u { }
P1 at 2:1: active = true;
Y3 at 2:5: y = w;
Y4 at 2:5: x = w;
Y4 at 2:5: x = u.a;
Y4 at 2:1: a = 1;
Y4 at 2:6: emit t 1;
Y4 at 2:8: emit s s.value;
%%
vertex 2; mode sparse; limit 1; field a: int = 0; field f: bool = true; slot s: sum; total t: sum = a; start true; sparse when true {
} update { }
Y1 at 2:15: send p: int = z;
Y2 at 2:6: send f: bool = true;
Y3 at 2:16: send p: bool = a;
Y4 at 2:15: send p: int = w;
Y4 at 2:15: send p: int = p;
Y4 at 2:32: send p: int = 0; send q: int = p;
Y4 at 2:15: send p: int = u.a;
%%
vertex 2; mode sparse; limit 1; field a: int = 0; field f: bool = true; slot s: sum; total t: sum = a; start true; sparse when true { send p: int = 0; send q: bool = true;
} update { }
P1 at 2:1: p = 1;
P1 at 2:1: break;
P1 at 2:11: if true { p = 1; }
Y1 at 2:6: emit z p;
Y3 at 2:8: emit s q;
Y3 at 2:4: if p { }
Y3 at 2:4: if w { }
Y4 at 2:6: emit p 1;
Y4 at 2:8: emit s u.a;
Y4 at 2:8: emit s s.value;
%%
vertex 2; mode dense; limit 1; field a: int = 0; field f: bool = true; slot s: sum; total t: sum = a; start true; dense when true { let x: int = 0; for u { } } update {
}
P1 at 2:1: emit s 1;
P1 at 2:1: break;
P1 at 2:8: active += 1;
P1 at 2:8: active min= true;
P1 at 2:11: if true { emit s 1; }
Y1 at 2:1: z = 1;
Y3 at 2:5: f = s.value;
Y3 at 2:5: a = s.got;
Y3 at 2:5: f = a.value;
Y3 at 2:10: active = a;
Y3 at 2:10: active = active + 1;
Y3 at 2:6: a += f;
Y3 at 2:1: f += 1;
Y3 at 2:4: if s.value { }
Y4 at 2:1: x = 1;
Y4 at 2:1: s = 1;
Y4 at 2:1: t = 1;
Y4 at 2:5: a = x;
Y4 at 2:5: a = w;
Y4 at 2:5: a = u.a;
Y4 at 2:5: a = s;
Y4 at 2:5: a = a.value;
%%
vertex 2; mode dense; limit 1; field a: int = 0; field f: bool = true; slot s: sum; total t: sum = a; start true; dense when true { let x: int = 0; for u { } } update { }

P1 at 2:1: halt true;
P1 at 2:5: stop;
P1 at 2:12: stop true; stop true;
Y1 at 2:6: stop z;
Y3 at 2:6: stop t;
Y3 at 2:11: stop 1 == true;
Y3 at 2:6: stop w;
Y4 at 2:6: stop a < 1;
Y4 at 2:6: stop f;
Y4 at 2:6: stop id == 0;
Y4 at 2:6: stop indeg == n;
Y4 at 2:6: stop draw(256) == 0;
Y4 at 2:6: stop active;
Y4 at 2:6: stop s.got;
Y4 at 2:6: stop u.active;
Y4 at 2:6: stop x == 0;
";
