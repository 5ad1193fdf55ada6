use crate::controls::with_controls;
use sample_programs::SUM;
use std::alloc::{AllocError, Global};
use std::test::Fail;
use vert_lex::{LexFault, Token, TokenKind, end_of, lex, marks, words};

/// Texts, and of each the kinds and the places of its tokens, or its fault. Reserved words, marks and
/// numbers are told by `r`, `m` and `n`, a place by its byte, line and column.
static TEXTS: &str = "vertex 2; => r0 n2 m4 | 0/1:1 7/1:8 8/1:9
a␊  b␍␊␉c => a b c | 0/1:1 4/2:3 8/3:2
x// @ ␍ & y␊= // end => x m8 | 0/1:1 12/2:1
a===b<==c>=> => a m9 m8 b m12 m8 c m14 m13 | 0/1:1 1/1:2 3/1:4 4/1:5 5/1:6 7/1:8 8/1:9 9/1:10 11/1:12
&&||!!=+=+-*/% => m20 m21 m22 m10 m24 m15 m16 m17 m18 m19 | 0/1:1 2/1:3 4/1:5 5/1:6 7/1:8 9/1:10 10/1:11 11/1:12 12/1:13 13/1:14
_a9 vertexes Vertex total stop 9z => _a9 vertexes Vertex total stop n9 z | 0/1:1 4/1:5 13/1:14 20/1:21 26/1:27 31/1:32 32/1:33
007 9223372036854775807 => n7 n9223372036854775807 | 0/1:1 4/1:5
00009223372036854775807; => n9223372036854775807 m4 | 0/1:1 23/1:24
& => L1 at 1:1
a &b => L1 at 1:3
a && b & => L1 at 1:8
| => L1 at 1:1
@ => L1 at 1:1
é => L1 at 1:1
a␍@ => L1 at 1:3
vertex 1;␊mode @ => L1 at 2:6
1 9223372036854775808 => L2 at 1:3
0018446744073709551617 => L2 at 1:1
9223372036854775808 @ => L2 at 1:1
@ 9223372036854775808 => L1 at 1:1
a␊␊ // 1␊ 99999999999999999999 => L2 at 4:2";

/// The kinds of the tokens of the program `SUM`.
static SUM_KINDS: &str =
    " r0 n1 m4 r1 r4 m4 r2 n1 m4 r6 mass m5 r20 m8 n0 m4 r7 acc m5 r24 m4 r8 r26 m4 r4 r9 r26 m0 r10 s m5 r20 m8 n0 m4 r11 r12 m0 s m24 r13 m4 m1 r16 acc s m4 m1 r19 m0 mass m8 acc m7 r36 m4 m1";

/// The reserved words in the order of their constants.
static WORDS: &str =
    "vertex mode limit auto dense sparse field slot start when let for u w if else emit break send update int bool min max sum first true false id n round indeg outdeg active draw got value";

static WORD_PLACES: [u8; 37] = [
    words::VERTEX,
    words::MODE,
    words::LIMIT,
    words::AUTO,
    words::DENSE,
    words::SPARSE,
    words::FIELD,
    words::SLOT,
    words::START,
    words::WHEN,
    words::LET,
    words::FOR,
    words::U,
    words::W,
    words::IF,
    words::ELSE,
    words::EMIT,
    words::BREAK,
    words::SEND,
    words::UPDATE,
    words::INT,
    words::BOOL,
    words::MIN,
    words::MAX,
    words::SUM,
    words::FIRST,
    words::TRUE,
    words::FALSE,
    words::ID,
    words::N,
    words::ROUND,
    words::INDEG,
    words::OUTDEG,
    words::ACTIVE,
    words::DRAW,
    words::GOT,
    words::VALUE,
];

/// The marks in the order of their constants.
static MARKS: &str = "{ } ( ) ; : , . = == != < <= > >= + - * / % && || ! ? +=";

static MARK_PLACES: [u8; 25] = [
    marks::LEFT_BRACE,
    marks::RIGHT_BRACE,
    marks::LEFT_PARENTHESIS,
    marks::RIGHT_PARENTHESIS,
    marks::SEMICOLON,
    marks::COLON,
    marks::COMMA,
    marks::DOT,
    marks::ASSIGN,
    marks::EQUAL,
    marks::NOT_EQUAL,
    marks::LESS,
    marks::AT_MOST,
    marks::GREATER,
    marks::AT_LEAST,
    marks::PLUS,
    marks::MINUS,
    marks::STAR,
    marks::SLASH,
    marks::PERCENT,
    marks::AND,
    marks::OR,
    marks::NOT,
    marks::QUESTION,
    marks::PLUS_ASSIGN,
];

fn kinds(alloc: Global, tokens: &[Token]) -> Result<String, AllocError> {
    let mut out = String::new(alloc);
    for token in tokens {
        match &token.kind {
            TokenKind::Reserved(place) => write!(out, " r{place}")?,
            TokenKind::Mark(place) => write!(out, " m{place}")?,
            TokenKind::Number(value) => write!(out, " n{value}")?,
            TokenKind::Name(text) => write!(out, " {text}")?,
        }
    }
    Ok(out)
}

fn places(alloc: Global, tokens: &[Token]) -> Result<String, AllocError> {
    let mut out = String::new(alloc);
    for token in tokens {
        let span = token.span;
        write!(out, " {}/{}:{}", span.at, span.line, span.column)?;
    }
    Ok(out)
}

fn told(alloc: Global, text: &str) -> Result<String, AllocError> {
    match lex(alloc, text.as_bytes()) {
        Ok(tokens) => {
            let kinds = kinds(alloc, &tokens)?;
            let places = places(alloc, &tokens)?;
            format!(in alloc; "{kinds} |{places}")
        }
        Err(fault) => format!(in alloc; " {fault}"),
    }
}

#[test]
fn texts(rt: HostRuntime) -> Result<(), Fail> {
    let alloc = rt.alloc();
    for row in TEXTS.lines() {
        let (text, wanted) = row.split_once(" =>").ok_or("no answer")?;
        let text = with_controls(alloc, text)?;
        assert_eq!(rt; told(alloc, &text)?.as_str(), wanted, "{row}");
    }
    assert_eq!(rt;
        kinds(alloc, &lex(alloc, SUM.as_bytes())?)?.as_str(),
        SUM_KINDS
    );
    assert_eq!(rt; lex(alloc, b"")?.len(), 0);
    assert_eq!(rt; lex(alloc, b"// \xff \xc3")?.len(), 0);
    Ok(())
}

#[test]
fn words_and_marks(rt: HostRuntime) -> Result<(), Fail> {
    let alloc = rt.alloc();
    for (word, place) in WORDS.split(' ').zip(WORD_PLACES.iter()) {
        let wanted = format!(in alloc; " r{place}")?;
        assert_eq!(rt;
            kinds(alloc, &lex(alloc, word.as_bytes())?)?.as_str(),
            wanted.as_str()
        );
    }
    for (mark, place) in MARKS.split(' ').zip(MARK_PLACES.iter()) {
        let wanted = format!(in alloc; " m{place}")?;
        assert_eq!(rt;
            kinds(alloc, &lex(alloc, mark.as_bytes())?)?.as_str(),
            wanted.as_str()
        );
    }
    Ok(())
}

#[test]
fn limits(rt: HostRuntime) -> Result<(), Fail> {
    let alloc = rt.alloc();
    let most = vec![in alloc; b' '; 65_536]?;
    assert_eq!(rt; lex(alloc, &most)?.len(), 0);
    let more = vec![in alloc; b'@'; 65_537]?;
    assert_eq!(rt; lex(alloc, &more).err(), Some(LexFault::TooLong));
    Ok(())
}

#[test]
fn ends(rt: HostRuntime) {
    let end = end_of(b"vertex 2;");
    assert_eq!(rt; (end.at, end.line, end.column), (9, 1, 10));
    let end = end_of(b"a\n");
    assert_eq!(rt; (end.at, end.line, end.column), (2, 2, 1));
}
