//! Texts, and what `lex` and `parse` answer to them. Places and numbers of tokens were counted by hand.

use cc_grammar::ParseError;
use cc_lex::{LexError, lex};
use cc_parse::parse;
use std::alloc::{AllocError, Global};
use std::rt::HostRuntime;
use std::test::*;

/// That this is a text, or its first fault, with the number of the token where it is one of syntax.
pub fn answer(alloc: Global, text: &[u8]) -> Result<String, AllocError> {
    let tokens = match lex(alloc, text) {
        Ok(tokens) => tokens,
        Err(LexError::Fault { place, kind }) => {
            return format!(in alloc; "{}:{} {kind:?}", place.line, place.column);
        }
        Err(LexError::Memory) => return String::from_str(alloc, "out of memory"),
    };
    match parse(alloc, &tokens) {
        Ok(_) => String::from_str(alloc, "a text"),
        Err(ParseError::Syntax { at, place }) => {
            format!(in alloc; "{}:{} Syntax at {at}", place.line, place.column)
        }
        Err(ParseError::TooDeep { place }) => {
            format!(in alloc; "{}:{} TooDeep", place.line, place.column)
        }
        Err(ParseError::Memory) => String::from_str(alloc, "out of memory"),
    }
}

/// Items.
const ITEMS: [(&str, &str); 38] = [
    ("f() { } g() { }", "a text"),
    ("f() { } }", "1:9 Syntax at 5"),
    ("struct s { int a; };", "a text"),
    ("struct s { int a; } ", "1:21 Syntax at 7"),
    ("struct s ;", "1:10 Syntax at 2"),
    ("struct s { };", "1:12 Syntax at 3"),
    ("struct { int a; };", "1:8 Syntax at 1"),
    ("struct s f() { }", "a text"),
    ("struct s f( ", "1:13 Syntax at 4"),
    ("struct s f ;", "1:12 Syntax at 3"),
    ("enum { A };", "a text"),
    ("enum e { A, B = 2, C = -1 };", "a text"),
    ("enum e f() { }", "a text"),
    ("enum e f { A };", "1:10 Syntax at 3"),
    ("enum e ;", "1:8 Syntax at 2"),
    ("enum { };", "1:8 Syntax at 2"),
    ("enum { A, };", "1:11 Syntax at 4"),
    ("enum { A } ", "1:12 Syntax at 4"),
    ("process spec s();", "a text"),
    ("process spec s() { };", "a text"),
    ("process spec s() { } ", "1:22 Syntax at 7"),
    ("process spec s() process", "1:18 Syntax at 5"),
    ("process struct", "1:9 Syntax at 1"),
    ("process body s() { }", "a text"),
    ("process body s(a, b) { }", "a text"),
    ("process body s(a ", "1:18 Syntax at 5"),
    ("process body s(void) { }", "1:16 Syntax at 4"),
    ("process body s(a, ) { }", "1:19 Syntax at 6"),
    ("process s f() { }", "a text"),
    ("process s ;", "1:11 Syntax at 2"),
    ("int f() { }", "a text"),
    ("long f() { }", "a text"),
    ("int {", "1:5 Syntax at 1"),
    ("void f(void) { }", "a text"),
    ("f() ;", "1:5 Syntax at 3"),
    ("f(x) { }", "1:3 Syntax at 2"),
    ("static f() { }", "1:1 Syntax at 0"),
    ("1", "1:1 Syntax at 0"),
];

/// Declarations.
const DECLARATIONS: [(&str, &str); 37] = [
    (
        "struct s { void a; char b; int c; long d; struct t e; enum u g; process p h; };",
        "a text",
    ),
    ("struct s { struct {", "1:19 Syntax at 4"),
    ("struct s { int a, b; };", "a text"),
    ("struct s { int a, b ", "1:21 Syntax at 7"),
    ("struct s { int a }", "1:18 Syntax at 5"),
    ("struct s { int ; };", "1:16 Syntax at 4"),
    ("struct s { int a[3], b; };", "a text"),
    ("struct s { int a[3 ", "1:20 Syntax at 7"),
    ("struct s { int a[]; };", "1:18 Syntax at 6"),
    ("struct s { int a[3] [4]; };", "1:21 Syntax at 8"),
    ("struct s { int a['x'], b[N], c[7]; };", "a text"),
    ("struct s { int a[- 1]; };", "1:18 Syntax at 6"),
    ("enum { A = 1 ", "1:14 Syntax at 5"),
    ("enum { A = };", "1:12 Syntax at 4"),
    ("enum { A = - - 1 };", "1:14 Syntax at 5"),
    ("enum { A = 'x', B = A };", "a text"),
    ("enum { A = (1) };", "1:12 Syntax at 4"),
    (
        "process spec s() { trans int t(int a, char); trans async u(); };",
        "a text",
    ),
    ("process spec s() { trans int t() ", "1:34 Syntax at 11"),
    ("process spec s() { trans t(); };", "1:26 Syntax at 7"),
    ("process spec s() { int t(); };", "1:20 Syntax at 6"),
    (
        "process spec s() { trans async int t(); };",
        "1:32 Syntax at 8",
    ),
    ("process spec s(void);", "a text"),
    ("process spec s(void, int);", "a text"),
    ("process spec s(void x);", "a text"),
    ("process spec s(int, );", "1:21 Syntax at 6"),
    ("process spec s(x);", "1:16 Syntax at 4"),
    ("process spec s(int a b);", "1:22 Syntax at 6"),
    ("process spec s(int a, long ", "1:28 Syntax at 8"),
    ("f(void x, int y) { }", "a text"),
    ("f(void , int x) { }", "1:8 Syntax at 3"),
    ("f(void ", "1:8 Syntax at 3"),
    ("f(int x, char y) { }", "a text"),
    ("f(struct s x) { }", "a text"),
    ("f(int ) { }", "1:7 Syntax at 3"),
    ("f(int x, ) { }", "1:10 Syntax at 5"),
    ("f(int x, void y) { }", "a text"),
];

/// Statements.
const STATEMENTS: [(&str, &str); 65] = [
    ("f() { { } ; }", "a text"),
    ("f() { { } ", "1:11 Syntax at 6"),
    ("f() { int a; a = 1; char b; }", "a text"),
    ("f() { struct s a; s a ; }", "1:21 Syntax at 9"),
    ("f() { else ; }", "1:7 Syntax at 4"),
    ("f() { int a, b = 2, c[3]; }", "a text"),
    ("f() { int a ", "1:13 Syntax at 6"),
    ("f() { int ; }", "1:11 Syntax at 5"),
    ("f() { int a[2] = 1; }", "1:16 Syntax at 9"),
    ("f() { int a = ; }", "1:15 Syntax at 7"),
    ("f() { int a = 1 b; }", "1:17 Syntax at 8"),
    ("f() { 1; }", "a text"),
    ("f() { 1 }", "1:9 Syntax at 5"),
    ("f() { if (a) ; }", "a text"),
    ("f() { if (a) ; else ; }", "a text"),
    ("f() { if (a) ", "1:14 Syntax at 8"),
    ("f() { if a ; }", "1:10 Syntax at 5"),
    ("f() { if (a) ; else }", "1:21 Syntax at 10"),
    ("f() { if (a) if (b) ; else ; else ; }", "a text"),
    (
        "f() { if (a) if (b) ; else ; else ; else ; }",
        "1:37 Syntax at 17",
    ),
    ("f() { if (a) while (b) if (c) ; else ; else ; }", "a text"),
    ("f() { while (a) ; }", "a text"),
    ("f() { while (a) ", "1:17 Syntax at 8"),
    ("f() { while (a ; }", "1:16 Syntax at 7"),
    ("f() { do ; while (a); }", "a text"),
    ("f() { do ; while (a) }", "1:22 Syntax at 10"),
    ("f() { do ; ; }", "1:12 Syntax at 6"),
    ("f() { do if (a) ; else ; while (b); }", "a text"),
    ("f() { for (;;) ; }", "a text"),
    ("f() { for (a; b; c) ; }", "a text"),
    ("f() { for (a; b ) ; }", "1:17 Syntax at 9"),
    ("f() { for (a , b; ;) ; }", "1:14 Syntax at 7"),
    ("f() { for (;; ;) ; }", "1:15 Syntax at 8"),
    ("f() { break; continue; }", "a text"),
    ("f() { break }", "1:13 Syntax at 5"),
    ("f() { continue 1; }", "1:16 Syntax at 5"),
    ("f() { return; return 1; treturn; treturn 2; }", "a text"),
    ("f() { return 1 }", "1:16 Syntax at 6"),
    ("f() { treturn ) ; }", "1:15 Syntax at 5"),
    ("f() { delay 1; }", "a text"),
    ("f() { delay ; }", "1:13 Syntax at 5"),
    ("f() { accept t() { } accept t(a) ; }", "a text"),
    ("f() { accept t(x, y) suchthat (x) by (y) { } }", "a text"),
    ("f() { accept t(x) by (x) suchthat (x) ; }", "a text"),
    ("f() { accept t(x) by (x) by (x) ; }", "1:26 Syntax at 13"),
    (
        "f() { accept t(x) suchthat (x) suchthat (x) ; }",
        "1:32 Syntax at 13",
    ),
    ("f() { accept t(1) ; }", "1:16 Syntax at 7"),
    ("f() { accept ( ) ; }", "1:14 Syntax at 5"),
    ("f() { accept t() suchthat x ; }", "1:27 Syntax at 9"),
    ("f() { accept t() suchthat (x) ", "1:31 Syntax at 12"),
    ("f() { accept t() by (x ; }", "1:24 Syntax at 11"),
    ("f() { accept t() 1; }", "1:18 Syntax at 8"),
    ("f() { select { accept t() ; } }", "a text"),
    (
        "f() { select { (a): accept t() { } b = 1; or delay 5; c; or immediate; or terminate; } }",
        "a text",
    ),
    ("f() { select { } }", "1:16 Syntax at 6"),
    ("f() { select { terminate; or } }", "1:30 Syntax at 9"),
    ("f() { select { terminate; a; } }", "1:27 Syntax at 8"),
    ("f() { select { (a) accept t() ; } }", "1:20 Syntax at 9"),
    ("f() { select { a : terminate; } }", "1:16 Syntax at 6"),
    ("f() { select { delay 1; int a; a = 1; } }", "a text"),
    (
        "f() { select { (a): (b): terminate; } }",
        "1:21 Syntax at 10",
    ),
    ("f() { select { immediate; int a; ", "1:34 Syntax at 11"),
    ("f() { select { immediate ", "1:26 Syntax at 7"),
    ("f() { switch (1) { } }", "1:7 Syntax at 4"),
    ("f() { goto a; }", "1:7 Syntax at 4"),
];

/// Expressions.
const EXPRESSIONS: [(&str, &str); 52] = [
    ("f() { a = b = c; }", "a text"),
    ("f() { a += 1; a -= 1; a *= 1; a /= 1; a %= 1; }", "a text"),
    ("f() { a = ; }", "1:11 Syntax at 6"),
    ("f() { a = = b; }", "1:11 Syntax at 6"),
    ("f() { within 5 ? p.t(1) : 0; }", "a text"),
    (
        "f() { x = within 5 ? p.t() : within 6 ? q.u() : 1; }",
        "a text",
    ),
    ("f() { within 5 ? p.t() ; }", "1:24 Syntax at 12"),
    ("f() { within 5 ? -p : 0; }", "1:18 Syntax at 7"),
    ("f() { within a = 1 ? p : 0; }", "1:16 Syntax at 6"),
    ("f() { 1 + within 5 ? p.t() : 0; }", "1:11 Syntax at 6"),
    ("f() { a ? within 5 ; }", "1:20 Syntax at 8"),
    ("f() { a ? b : c; }", "a text"),
    ("f() { a ? b = c : d ? e : f; }", "a text"),
    ("f() { a ? b ; }", "1:13 Syntax at 7"),
    ("f() { a ? b : ; }", "1:15 Syntax at 8"),
    ("f() { a ? b : c = d; }", "a text"),
    (
        "f() { a || b && c == d != e < f <= g > h >= i + j - k * l / m % n; }",
        "a text",
    ),
    ("f() { a || ; }", "1:12 Syntax at 6"),
    ("f() { a && || b; }", "1:12 Syntax at 6"),
    ("f() { a == == b; }", "1:12 Syntax at 6"),
    ("f() { a < ; }", "1:11 Syntax at 6"),
    ("f() { a + ; }", "1:11 Syntax at 6"),
    ("f() { a * / b; }", "1:11 Syntax at 6"),
    ("f() { a ! b; }", "1:9 Syntax at 5"),
    ("f() { - + ! ++ -- a; }", "a text"),
    ("f() { - ; }", "1:9 Syntax at 5"),
    ("f() { ! ) ; }", "1:9 Syntax at 5"),
    ("f() { a.b.c(1)[2].d ++; }", "a text"),
    ("f() { p.t; p.t(); p.t(1, a = 2); }", "a text"),
    ("f() { a.1; }", "1:9 Syntax at 6"),
    ("f() { a.b 1; }", "1:11 Syntax at 7"),
    ("f() { a ++ ++; }", "1:12 Syntax at 6"),
    ("f() { a[]; }", "1:9 Syntax at 6"),
    ("f() { a[1 ; }", "1:11 Syntax at 7"),
    ("f() { x ++ .m; }", "1:12 Syntax at 6"),
    ("f() { f() (); }", "1:11 Syntax at 7"),
    (
        "f() { 1; 'a'; a; a(); a(1, 2); create p(); create p(1); putchar(1); getchar(); printf(\"x\"); printf(\"x\", 1, 2); (1); }",
        "a text",
    ),
    ("f() { create 1; }", "1:14 Syntax at 5"),
    ("f() { create p ; }", "1:16 Syntax at 6"),
    ("f() { putchar(); }", "1:15 Syntax at 6"),
    ("f() { getchar(1); }", "1:15 Syntax at 6"),
    ("f() { printf(1); }", "1:14 Syntax at 6"),
    ("f() { printf(\"x\" 1); }", "1:18 Syntax at 7"),
    ("f() { printf(\"x\", ); }", "1:19 Syntax at 8"),
    ("f() { (1 ; }", "1:10 Syntax at 6"),
    ("f() { () ; }", "1:8 Syntax at 5"),
    ("f() { \"x\"; }", "1:7 Syntax at 4"),
    ("f() { g(1, ); }", "1:12 Syntax at 8"),
    ("f() { g(1 2); }", "1:11 Syntax at 7"),
    ("f() { g(, 1); }", "1:9 Syntax at 6"),
    ("f() { g( ", "1:10 Syntax at 6"),
    ("f() { sizeof(a); }", "1:7 Syntax at 4"),
];

/// Each kind of fault in two texts or more.
const FAULTS: [(&str, &str); 24] = [
    ("main(", "1:6 Syntax at 2"),
    ("main() { putchar(1) }", "1:21 Syntax at 8"),
    ("main() { putchar(0x48); /* i */ }", "a text"),
    ("", "a text"),
    ("main() {\n  putchar(1)\n}\n", "3:1 Syntax at 8"),
    ("main() {\n  putchar(1);\n", "3:1 Syntax at 9"),
    ("main()\n{ } /* } */ ; main", "2:13 Syntax at 5"),
    ("main() { @", "1:10 NoToken"),
    ("main() ) @", "1:10 NoToken"),
    ("main()\n{ x = 08; }", "2:7 BadNumber"),
    ("main() { 1x", "1:10 BadNumber"),
    ("main() { x = 9223372036854775808; }", "1:14 NumberTooLarge"),
    ("enum { A =\n0x8000000000000000 };", "2:1 NumberTooLarge"),
    ("main() { 'ab'; }", "1:10 BadCharacter"),
    ("main() { putchar('", "1:18 BadCharacter"),
    ("main() { printf(\"\\x\"); }", "1:17 BadString"),
    ("main() { printf(\"abc", "1:17 BadString"),
    ("main() { } /* ", "1:12 OpenComment"),
    ("main() {\n/*/", "2:1 OpenComment"),
    (
        "main() { if (1) if (2) ; else ; else ; else ; }",
        "1:40 Syntax at 17",
    ),
    ("main() { f(1, 2, ); }", "1:18 Syntax at 10"),
    ("main() { do ; while (1) }", "1:25 Syntax at 10"),
    ("main() { a = b = c ? d : e = f; }", "a text"),
    ("main() { - a++ = b; }", "a text"),
];

#[test]
fn texts_of_the_tables(rt: HostRuntime) -> Result<(), Fail> {
    let tables: [&[(&str, &str)]; 5] = [&ITEMS, &DECLARATIONS, &STATEMENTS, &EXPRESSIONS, &FAULTS];
    for table in &tables {
        for (text, want) in *table {
            let found = answer(rt.alloc(), text.as_bytes())?;
            assert_eq!(rt; found.as_str(), *want, "of {text}");
        }
    }
    Ok(())
}
