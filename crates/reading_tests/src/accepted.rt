/// Accepted programs: groups with `%%` between them. Of each group the first line stands before each text and
/// the second line behind it. They are of headers, fields, totals, the loop body, the sparse body, update and
/// of names like keywords.
pub(crate) static ACCEPTED: &str = "
start true; dense when true { for u { } } update { }
accepted: vertex 1; mode dense; limit 0;
accepted: vertex 1; mode dense; limit 10000;
accepted: vertex 1;mode dense;limit 1;
accepted: vertex 0001; mode dense; limit 00000000000000000000000010; // @ & end
accepted: vertex 2; mode dense; limit 1; total t: sum = 0;
accepted: vertex 1; mode dense; limit 1; field total: int = 0; field stop: bool = true;
accepted: vertex 2; mode dense; limit 1; field total: int = 0; slot stop: sum;
accepted: vertex 2; mode dense; limit 1; total total: min = 1; total stop: max = 2;
%%
vertex 1; mode auto; limit 1;
start true; dense when true { for u { } } sparse when true { } update { }
accepted: // none
accepted: field a: int = id + n * round - indeg / outdeg % draw(255);
accepted: field a: int = -9223372036854775807 - 1;
accepted: field a: bool = !(id == 0 || n != 1 && 1 <= 2);
accepted: field a: int = true ? 1 : false ? 2 : 3;
accepted: field a: int = (true ? id < n : false) ? min(1, -2) : max(--3, draw(0));
%%
vertex 2; mode auto; limit 1; field a: int = 0; field f: bool = true; slot s: sum; slot o: first;
start true; dense when true { for u { } } sparse when true { } update { }
accepted: // none
accepted: total t: min = active ? a : 0; total v: max = indeg; total total: sum = f ? 1 : 0;
%%
vertex 2; mode dense; limit 1; field a: int = 0; field f: bool = true; slot s: sum; total t: sum = a; start f && a == 0 && draw(0) < 5 || round == 0; dense when active && f && t > a { let x: int = a + t; let y: bool = active; let z: int = x; for u {
} x = x + a; emit s x; if y { emit s t; } } update { }
accepted: // nothing
accepted: x += w; x min= u.a; x max= u.indeg; y = u.active || u.f;
accepted: if y && x < t { emit s u.id; break; } else { if f { break; } }
accepted: if true { } else { } break; break;
accepted: x = t % u.outdeg; emit s draw(7); z = min(z, x) - id - n - round;
%%
vertex 2; mode sparse; limit 1; field a: int = 0; field f: bool = true; slot s: sum; total t: sum = a; start true; sparse when active && f && t > a { send p: int = id + t; send q: bool = active && f;
} update { }
accepted: // nothing
accepted: if q && w > 0 { emit s p + a; } else { if active { emit s t; } }
%%
vertex 2; mode dense; limit 1; field a: int = 0; field total: bool = true; field stop: int = 2; slot s: first; slot o: max; total t: sum = a; start true; dense when true { let x: int = 0; for u { } } update {
} stop t > 0 && n > round;
accepted: // nothing
accepted: a = s.value; total = s.got && t > 0; stop += 1; active = active || total;
accepted: if o.got { stop max= o.value; } else { active = false; } stop = stop;
accepted: if total { if stop == a { total = stop < draw(255); } }
%%
vertex 1; mode dense; limit 1; field a: int = 0; start true; dense when true { let total: int = 1; let stop: int = total; for u { total = stop; } stop = total; } update {
}
accepted: // nothing
accepted: a = id;
";
