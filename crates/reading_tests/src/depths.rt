use crate::programs::{group_parts, told};
use std::alloc::{AllocError, Global};
use std::process::Abort;
use std::test::Fail;

/// Programs at the greatest depth, in groups with `%%` between them. Of each group the first line stands before the
/// texts and the second line behind them. Each other line has how often something is opened and closed again so
/// that it is refused, with what code and where, and then, with `#` between them, what is opened, what stands
/// inside and what closes it. Once less it is accepted. The groups are of expressions of the type Int, of the type
/// Bool, of three expressions in one another, where the condition is begun at its question mark alone, of
/// statements, and of the start test.
static DEPTHS: &str = "vertex 1; mode dense; limit 1; field a: int =
; start true; dense when true { for u { } } update { }
64 P2 at 2:64: (#1#)
64 P2 at 2:64: -#1#
64 P2 at 2:64: -#draw(0)#
64 P2 at 2:253: min(#1#,1)
64 P2 at 2:379: max(1,#1#)
64 P2 at 2:128: 1+#1#
64 P2 at 2:128: 1-#1#
64 P2 at 2:128: 1*#1#
64 P2 at 2:128: 1/#1#
64 P2 at 2:128: 1%#1#
64 P2 at 2:446: true?1:#1#
64 P2 at 2:320: true?#1#:1
%%
vertex 1; mode dense; limit 1; field a: bool =
; start true; dense when true { for u { } } update { }
64 P2 at 2:64: !#true#
64 P2 at 2:383: true&&#true#
64 P2 at 2:383: true||#true#
%%
vertex 1; mode dense; limit 1; field a: bool =
; start true; dense when true { for u { } } update { }
22 P2 at 2:188: 1==(#true#?1:1)
22 P2 at 2:166: 1<(#true#?1:1)
%%
vertex 1; mode dense; limit 1; start true; dense when true { for u { } } update {
}
64 P2 at 2:505: if true{##}
64 P2 at 2:883: if true{}else{##}
%%
vertex 1; mode dense; limit 1; start
; dense when true { for u { } } update { }
64 P2 at 2:64: (#true#)
";

/// How many fields, slots, totals, lets and sends a program has, and the answer for it.
static COUNTS: &str = "0 0 0 0 0 => accepted
16 8 4 8 8 => accepted
17 0 0 0 0 => P3 at 18:1
0 9 0 0 0 => P3 at 10:1
0 0 5 0 0 => P3 at 6:1
0 0 0 9 0 => P3 at 12:1
16 8 4 8 9 => P3 at 50:1";

/// The program of those counts: each line with a `#` stands so many times over, with numbers in its place.
static COUNTED: &str = "vertex 2; mode auto; limit 1;
field f#: int = 0;
slot s#: sum;
total t#: sum = 0;
start true;
dense when true {
let l#: int = 0;
for u { } }
sparse when true {
send e#: int = 0;
}
update { }";

/// So many bytes of padding before a program of 71 bytes, and the answer for it.
static BYTES: &str = "65465 . => accepted
65466 . => L3 at 1:1
65466 @ => L3 at 1:1";

static SHORT: &str = "vertex 1;mode dense;limit 1;start true;dense when true{for u{}}update{}";

/// A part that is opened so many times, what stands inside, and what closes it as often.
fn nested(alloc: Global, part: &str, count: usize) -> Result<String, Fail> {
    let (open, others) = part.split_once('#').ok_or("no inside")?;
    let (inside, close) = others.split_once('#').ok_or("no close")?;
    let open = open.repeat(alloc, count)?;
    let close = close.repeat(alloc, count)?;
    Ok(format!(in alloc; "{open}{inside}{close}")?)
}

fn check_depth(
    rt: &impl Abort,
    alloc: Global,
    (before, after): (&str, &str),
    row: &str,
) -> Result<(), Fail> {
    let (count, others) = row.split_once(' ').ok_or("no count")?;
    let (wanted, part) = others.split_once(": ").ok_or("no answer")?;
    let count = count.parse::<u32>()? as usize;
    for (count, wanted) in [(count.saturating_sub(1), "accepted"), (count, wanted)] {
        let part = nested(alloc, part, count)?;
        let text = format!(in alloc; "{before}\n{part}{after}")?;
        assert_eq!(rt; told(alloc, &text)?.as_str(), wanted, "{row}");
    }
    Ok(())
}

#[test]
fn depths(rt: HostRuntime) -> Result<(), Fail> {
    for group in DEPTHS.split("%%\n") {
        let (before, after, rows) = group_parts(group)?;
        for row in rows.lines() {
            check_depth(&rt, rt.alloc(), (before, after), row)?;
        }
    }
    Ok(())
}

/// The program that has so many of each.
fn counted(alloc: Global, counts: &str) -> Result<String, Fail> {
    let mut counts = counts.split(' ');
    let mut text = String::new(alloc);
    for line in COUNTED.lines() {
        let Some((open, close)) = line.split_once('#') else {
            write!(text, "{line}\n")?;
            continue;
        };
        for i in 0..counts.next().ok_or("no count")?.parse::<u32>()? {
            write!(text, "{open}{i}{close}\n")?;
        }
    }
    Ok(text)
}

#[test]
fn counts(rt: HostRuntime) -> Result<(), Fail> {
    let alloc = rt.alloc();
    for row in COUNTS.lines() {
        let (counts, wanted) = row.split_once(" => ").ok_or("no answer")?;
        let text = counted(alloc, counts)?;
        assert_eq!(rt; told(alloc, &text)?.as_str(), wanted, "{row}");
    }
    Ok(())
}

#[test]
fn bytes(rt: HostRuntime) -> Result<(), Fail> {
    let alloc = rt.alloc();
    for row in BYTES.lines() {
        let (count, others) = row.split_once(' ').ok_or("no count")?;
        let (padding, wanted) = others.split_once(" => ").ok_or("no answer")?;
        let padding = padding.replace(alloc, '.', " ")?;
        let mut text = padding.repeat(alloc, count.parse::<u32>()? as usize)?;
        text.push_str(SHORT)?;
        assert_eq!(rt; told(alloc, &text)?.as_str(), wanted, "{row}");
    }
    Ok(())
}
