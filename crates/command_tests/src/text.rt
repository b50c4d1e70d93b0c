use cc_base::Place;
use cc_command::{MOST_TEXT_BYTES, ReadError, TextFault, TextFaultKind, read_program};
use cc_lex::LexKind;
use std::alloc::Global;
use std::process::Abort;
use std::rt::HostRuntime;
use std::test::Fail;

/// Whether the text has this first fault.
fn refused(alloc: Global, text: &[u8], line: u32, column: u32, kind: TextFaultKind) -> bool {
    let wanted = TextFault {
        place: Place { line, column },
        kind,
    };
    match read_program(alloc, text) {
        Err(ReadError::Fault(fault)) => fault == wanted,
        _ => false,
    }
}

fn lexical(rt: &impl Abort, alloc: Global, text: &[u8], column: u32, kind: LexKind) {
    let kind = TextFaultKind::Tokens(kind);
    assert!(rt; refused(alloc, text, 1, column, kind));
}

fn syntax(rt: &impl Abort, alloc: Global, text: &[u8], line: u32, column: u32) {
    assert!(rt; refused(alloc, text, line, column, TextFaultKind::Syntax));
}

fn unbuilt(rt: &impl Abort, alloc: Global, text: &[u8]) {
    assert!(rt; refused(alloc, text, 1, 1, TextFaultKind::Unbuilt));
}

fn meant(rt: &impl Abort, alloc: Global, text: &[u8]) {
    assert!(rt; read_program(alloc, text).is_ok());
}

#[test]
fn programs_are_read(rt: HostRuntime) {
    let alloc = rt.alloc();
    meant(&rt, alloc, b"main() { putchar(72); putchar(105); }");
    meant(&rt, alloc, b"main(){}");
    meant(&rt, alloc, b"main() { putchar(0x48); /* i */ }");
    meant(
        &rt,
        alloc,
        b"main(){putchar(00);putchar(0377);}// to the end",
    );
    meant(
        &rt,
        alloc,
        b"\x0b\nmain\t(\r)\x0c{\n putchar\x0b(\t0\x0c)\r;\nputchar ( 255 ) ;\n}\r\n\x0b",
    );
}

#[test]
fn faults_of_tokens(rt: HostRuntime) {
    let alloc = rt.alloc();
    lexical(&rt, alloc, b"main() { @", 10, LexKind::NoToken);
    lexical(
        &rt,
        alloc,
        b"main() { putchar(08); }",
        18,
        LexKind::BadNumber,
    );
    lexical(
        &rt,
        alloc,
        b"main() { putchar(9223372036854775808); }",
        18,
        LexKind::NumberTooLarge,
    );
    lexical(
        &rt,
        alloc,
        b"main() { putchar(''); }",
        18,
        LexKind::BadCharacter,
    );
    lexical(
        &rt,
        alloc,
        b"main() { printf(\"a); }",
        17,
        LexKind::BadString,
    );
    lexical(&rt, alloc, b"main() { } /* x", 12, LexKind::OpenComment);
}

#[test]
fn faults_of_tokens_come_first(rt: HostRuntime) {
    let alloc = rt.alloc();
    lexical(&rt, alloc, b"} main() { @", 12, LexKind::NoToken);
    lexical(&rt, alloc, b"f() {} #", 8, LexKind::NoToken);
}

#[test]
fn faults_of_syntax(rt: HostRuntime) {
    let alloc = rt.alloc();
    syntax(&rt, alloc, b"main() {", 1, 9);
    syntax(&rt, alloc, b"main(){} x", 1, 11);
    syntax(&rt, alloc, b"main(){}}", 1, 9);
    syntax(&rt, alloc, b"main() { putchar(72)\n}", 2, 1);
    syntax(&rt, alloc, b"main(){ putchar(); }", 1, 17);
    syntax(&rt, alloc, b"main(){ putchar( 7 2 ); }", 1, 20);
    syntax(&rt, alloc, b"main(){\n putchar(7);\n", 3, 1);
}

#[test]
fn what_is_not_built(rt: HostRuntime) {
    let alloc = rt.alloc();
    unbuilt(&rt, alloc, b"");
    unbuilt(&rt, alloc, b"Main(){}");
    unbuilt(&rt, alloc, b"main(){} main(){}");
    unbuilt(&rt, alloc, b"main(){ putchar(256); }");
    unbuilt(&rt, alloc, b"main(){ putchar(-1); }");
    unbuilt(&rt, alloc, b"main(){ putchar('a'); }");
    unbuilt(&rt, alloc, b"main(){ putchar(7L); }");
    unbuilt(&rt, alloc, b"main(){ putchar(7);; }");
}

/// `main` with this many blocks, one in the other. The outermost is no statement, and adds nothing to the nesting.
fn nested(alloc: Global, blocks: usize) -> Result<Vec<u8>, Fail> {
    let mut text = Vec::from_slice(alloc, b"main() ")?;
    for _ in 0..blocks {
        text.push(b'{')?;
    }
    for _ in 0..blocks {
        text.push(b'}')?;
    }
    Ok(text)
}

#[test]
fn too_deep(rt: HostRuntime) -> Result<(), Fail> {
    let alloc = rt.alloc();
    let text = nested(alloc, 201)?;
    unbuilt(&rt, alloc, text.as_slice());
    Ok(())
}

#[test]
fn one_too_deep(rt: HostRuntime) -> Result<(), Fail> {
    let alloc = rt.alloc();
    let text = nested(alloc, 202)?;
    assert!(rt; refused(alloc, text.as_slice(), 1, 209, TextFaultKind::TooDeep));
    Ok(())
}

#[test]
fn the_longest_text_is_read(rt: HostRuntime) -> Result<(), Fail> {
    let alloc = rt.alloc();
    let mut text = Vec::from_slice(alloc, b"main(){}")?;
    text.resize(MOST_TEXT_BYTES, b' ')?;
    meant(&rt, alloc, text.as_slice());
    text.push(b' ')?;
    lexical(&rt, alloc, text.as_slice(), 1, LexKind::TextTooLong);
    Ok(())
}
