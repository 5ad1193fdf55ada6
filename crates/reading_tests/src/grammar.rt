use crate::controls::with_controls;
use std::alloc::{AllocError, Global};
use std::test::Fail;
use vert_lex::{end_of, lex};
use vert_parse::{ParseFault, parse};
use vert_tree::{BinOp, Expr, Ident, Node, Program, print_program};

/// Texts, and of each the names, the start test and the stop test of its program, or its fault. A name in
/// a test is told by its number and its column.
static TEXTS: &str =
    "vertex 1; mode dense; limit 1; start 1 - 2 * 3 - 4 < 5; update { } => | [[[1-[2*3]]-4]<5]
vertex 1; mode dense; limit 1; start a.got && b.value == c || u.a; update { } => a b c | [[0@38.got&&[1@47.value==2@58]]||u.0@65]
vertex 1; mode dense; limit 1; start x ? !-y : (true) ? id : u.id; update { } => x y | [0@38?[![-1@44]]:[[()true]?word:u.word]]
vertex 2; mode dense; limit 1; start min(1, max(2, draw(7))); update { } => | [1 min [2 max draw@57 7]]
vertex 2; mode auto; limit 3; field stop: int = 1; total x: sum = stop; total total: max = x; start true; update { stop += total; } stop total > x; => stop x total | true | [2@138>1@146]
vertex 1; mode auto; limit 9; field f: int = 0; slot s: min; start f == 1; dense when f > 2 { let l: int = f; for u { if u.f < l { emit s u.f + w; break; } else { l = u.e; } } emit s l; } sparse when f > 3 { send g: int = f; if g > f { emit s g; } } update { f min= s.value; active = s.got; } => f s l e g | [0@68==1]
vertex 01; mode sparse; limit 0; field total: bool = stop; start total; update { } => total stop | 0@66
 => P1 at 1:1
vertex 3;  => P1 at 1:8
vertex 1; mode dense;␊   => P1 at 2:3
vertex 1; mode dense; limit 1; start a == b == c; update { } => P1 at 1:45
vertex 1; mode dense; limit 1; start 1.got; update { } => P1 at 1:39
vertex 1; mode dense; limit 1; total x: sum = 1; start true; update { } => P1 at 1:32
vertex 1; mode dense; limit 1; start true; update { } stop true; => P1 at 1:55
vertex 1; mode auto; limit 1; slot a: min; slot b: min; slot c: min; slot d: min; slot e: min; slot f: min; slot g: min; slot h: min; slot i: min; start true; update { } => P3 at 1:135";

/// Programs, with `$` between them, and behind each what is printed of it.
static PRINTED: &str =
    "vertex 01;mode auto;limit 0100; // breadth first␊field dist:int=id==0?0:-1;field parent: int = -1; slot claim: first; start id == 0; dense when dist < 0 { for u { if u.active { emit claim u.id; break; } } } sparse when true { send from: int = id; if dist < 0 { emit claim from; } } update { if claim.got { dist = round; parent = claim.value; active = true; } }
vertex 1 ;
mode auto ;
limit 100 ;
field dist : int = id == 0 ? 0 : - 1 ;
field parent : int = - 1 ;
slot claim : first ;
start id == 0 ;
dense when dist < 0 {
for u {
if u . active {
emit claim u . id ;
break ;
}
}
}
sparse when true {
send from : int = id ;
if dist < 0 {
emit claim from ;
}
}
update {
if claim . got {
dist = round ;
parent = claim . value ;
active = true ;
}
}
$vertex 1; mode dense; limit 100; field alive: bool = true; slot weak: sum; start true; dense when alive { let c: int = 0; for u { if u.alive { c += 1; if c >= 2 { break; } } } if c < 2 { emit weak 1; } } update { if weak.got { alive = false; active = true; } }
vertex 1 ;
mode dense ;
limit 100 ;
field alive : bool = true ;
slot weak : sum ;
start true ;
dense when alive {
let c : int = 0 ;
for u {
if u . alive {
c += 1 ;
if c >= 2 {
break ;
}
}
}
if c < 2 {
emit weak 1 ;
}
}
update {
if weak . got {
alive = false ;
active = true ;
}
}
$vertex 2; mode dense; limit 10; field c: int = 1; slot a: sum; total t: sum = c; start true; dense when true { for u { emit a u.c; } } update { c = a.value; active = true; } stop t < 2;
vertex 2 ;
mode dense ;
limit 10 ;
field c : int = 1 ;
slot a : sum ;
total t : sum = c ;
start true ;
dense when true {
for u {
emit a u . c ;
}
}
update {
c = a . value ;
active = true ;
}
stop t < 2 ;
$vertex 1; mode sparse; limit 0; field x: int = max(min(draw(3), (n)), 7); start !false; update { if true { x min= 1; } else { x max= 2; } }
vertex 1 ;
mode sparse ;
limit 0 ;
field x : int = max ( min ( draw ( 3 ) , ( n ) ) , 7 ) ;
start ! false ;
update {
if true {
x min = 1 ;
}
else {
x max = 2 ;
}
}
";

/// The answer for a text: none where it has no tokens.
fn read(alloc: Global, text: &[u8]) -> Option<Result<Program, ParseFault>> {
    match lex(alloc, text) {
        Ok(tokens) => {
            let end = end_of(text);
            Some(parse(alloc, &tokens, end))
        }
        Err(_) => None,
    }
}

fn sign(op: BinOp) -> &'static str {
    match op {
        BinOp::Add => "+",
        BinOp::Sub => "-",
        BinOp::Mul => "*",
        BinOp::Div => "/",
        BinOp::Rem => "%",
        BinOp::Eq => "==",
        BinOp::Ne => "!=",
        BinOp::Lt => "<",
        BinOp::Le => "<=",
        BinOp::Gt => ">",
        BinOp::Ge => ">=",
        BinOp::And => "&&",
        BinOp::Or => "||",
    }
}

/// What stands between the two parts of a node.
fn word(node: &Node) -> &'static str {
    match node {
        Node::Binary(op, _, _) => sign(*op),
        Node::Least(_, _) => " min ",
        _ => " max ",
    }
}

/// Writes a name by its number, with its place and what is asked of it.
fn put_name(name: &Ident, asked: &str, out: &mut String) -> Result<(), AllocError> {
    write!(out, "{}@{}{asked}", name.name, name.span.column)
}

/// What stands in front of the only part of a node.
fn opening(node: &Node) -> &'static str {
    match node {
        Node::Neg(_) => "[-",
        Node::Not(_) => "[!",
        _ => "[()",
    }
}

/// Writes an expression with brackets around each node that is made of others.
fn put(expr: &Expr, out: &mut String) -> Result<(), AllocError> {
    match &expr.node {
        Node::Int(value) => write!(out, "{value}"),
        Node::Bool(value) => write!(out, "{value}"),
        Node::Word(_) => out.push_str("word"),
        Node::Name(name) => put_name(name, "", out),
        Node::Got(name) => put_name(name, ".got", out),
        Node::Value(name) => put_name(name, ".value", out),
        Node::OtherField(name) => {
            out.push_str("u.")?;
            put_name(name, "", out)
        }
        Node::OtherWord(_) => out.push_str("u.word"),
        Node::Draw(at, number) => write!(out, "draw@{} {number}", at.column),
        Node::Neg(inner) | Node::Not(inner) | Node::Group(inner) => {
            out.push_str(opening(&expr.node))?;
            put(inner, out)?;
            out.push_str("]")
        }
        Node::Binary(_, left, right) | Node::Least(left, right) | Node::Greatest(left, right) => {
            out.push_str("[")?;
            put(left, out)?;
            out.push_str(word(&expr.node))?;
            put(right, out)?;
            out.push_str("]")
        }
        Node::Cond(test, held, otherwise) => {
            out.push_str("[")?;
            put(test, out)?;
            out.push_str("?")?;
            put(held, out)?;
            out.push_str(":")?;
            put(otherwise, out)?;
            out.push_str("]")
        }
    }
}

/// The names of a program, its start test and its stop test.
fn shown(alloc: Global, program: &Program) -> Result<String, AllocError> {
    let mut out = String::new(alloc);
    for name in &program.names {
        write!(out, "{name} ")?;
    }
    out.push_str("| ")?;
    put(&program.start, &mut out)?;
    if let Some(test) = &program.stop {
        out.push_str(" | ")?;
        put(test, &mut out)?;
    }
    Ok(out)
}

fn told(alloc: Global, text: &[u8]) -> Result<String, AllocError> {
    match read(alloc, text) {
        None => String::from_str(alloc, "no tokens"),
        Some(Ok(program)) => shown(alloc, &program),
        Some(Err(fault)) => format!(in alloc; "{fault}"),
    }
}

#[test]
fn texts(rt: HostRuntime) -> Result<(), Fail> {
    let alloc = rt.alloc();
    for row in TEXTS.lines() {
        let (text, wanted) = row.split_once(" => ").ok_or("no answer")?;
        let text = with_controls(alloc, text)?;
        assert_eq!(rt; told(alloc, text.as_bytes())?.as_str(), wanted, "{row}");
    }
    Ok(())
}

fn printed(alloc: Global, text: &[u8]) -> Result<String, Fail> {
    match read(alloc, text) {
        Some(Ok(program)) => Ok(print_program(alloc, &program)?),
        _ => Err("no program".into()),
    }
}

/// What is printed of a program is printed of its printed text too.
#[test]
fn printing(rt: HostRuntime) -> Result<(), Fail> {
    let alloc = rt.alloc();
    for row in PRINTED.split('$') {
        let (text, wanted) = row.split_once('\n').unwrap_or((row, ""));
        let text = with_controls(alloc, text)?;
        assert_eq!(rt; printed(alloc, text.as_bytes())?.as_str(), wanted);
        assert_eq!(rt; printed(alloc, wanted.as_bytes())?.as_str(), wanted);
    }
    Ok(())
}
