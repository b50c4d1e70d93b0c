//! Texts and their tokens, and the first faults of others.

use cc_base::Place;
use cc_lex::{LexError, Mark, Size, Token, Tokens, What, lex};
use std::alloc::{AllocError, Global};
use std::rt::HostRuntime;
use std::test::*;

fn push_what(alloc: Global, out: &mut String, what: &What) -> Result<(), AllocError> {
    match what {
        What::Name(name) => {
            out.push_str("name ")?;
            for b in name.as_slice() {
                out.push(char::from(*b))?;
            }
        }
        What::Number { value, size } => {
            out.push_str(match size {
                Size::Int => "int ",
                Size::Long => "long ",
            })?;
            out.push_str(&format!(in alloc; "{value}")?)?;
        }
        What::Character(b) => out.push_str(&format!(in alloc; "char {b}")?)?,
        What::String(bytes) => {
            out.push_str("string")?;
            for b in bytes.as_slice() {
                out.push_str(&format!(in alloc; " {b}")?)?;
            }
        }
        What::Word(word) => out.push_str(&format!(in alloc; "word {word:?}")?)?,
        What::Mark(mark) => out.push_str(&format!(in alloc; "{mark:?}")?)?,
    }
    Ok(())
}

/// What tokens are, without their places.
fn shown(alloc: Global, tokens: &Tokens) -> Result<String, AllocError> {
    let mut out = String::new(alloc);
    for i in 0..tokens.len() {
        if let Some(token) = tokens.get(i) {
            if i > 0 {
                out.push_str(", ")?;
            }
            push_what(alloc, &mut out, &token.what)?;
        }
    }
    Ok(out)
}

/// The tokens of a text without their places, or its first fault with its place.
fn read(alloc: Global, text: &[u8]) -> Result<String, AllocError> {
    match lex(alloc, text) {
        Ok(tokens) => shown(alloc, &tokens),
        Err(LexError::Fault { place, kind }) => {
            format!(in alloc; "{}:{} {kind:?}", place.line, place.column)
        }
        Err(LexError::Memory) => String::from_str(alloc, "memory"),
    }
}

/// Each mark alone.
const MARKS: [(&str, &str); 33] = [
    ("(", "OpenParenthesis"),
    (")", "CloseParenthesis"),
    ("{", "OpenBrace"),
    ("}", "CloseBrace"),
    ("[", "OpenBracket"),
    ("]", "CloseBracket"),
    (";", "Semicolon"),
    (",", "Comma"),
    (".", "Dot"),
    (":", "Colon"),
    ("?", "Question"),
    ("=", "Assign"),
    ("+", "Plus"),
    ("-", "Minus"),
    ("*", "Star"),
    ("/", "Slash"),
    ("%", "Percent"),
    ("<", "Less"),
    (">", "Greater"),
    ("!", "Not"),
    ("<=", "LessEqual"),
    (">=", "GreaterEqual"),
    ("==", "Equal"),
    ("!=", "NotEqual"),
    ("&&", "And"),
    ("||", "Or"),
    ("++", "Increment"),
    ("--", "Decrement"),
    ("+=", "PlusAssign"),
    ("-=", "MinusAssign"),
    ("*=", "StarAssign"),
    ("/=", "SlashAssign"),
    ("%=", "PercentAssign"),
];

/// Marks beside others, and what is no mark.
const BESIDE: [(&str, &str); 68] = [
    ("< =", "Less, Assign"),
    ("<=", "LessEqual"),
    ("<==", "LessEqual, Assign"),
    ("<<", "Less, Less"),
    ("<<=", "Less, LessEqual"),
    ("=<", "Assign, Less"),
    ("<>", "Less, Greater"),
    ("> =", "Greater, Assign"),
    (">>=", "Greater, GreaterEqual"),
    (">==", "GreaterEqual, Assign"),
    ("= =", "Assign, Assign"),
    ("===", "Equal, Assign"),
    ("====", "Equal, Equal"),
    ("=!", "Assign, Not"),
    ("=!=", "Assign, NotEqual"),
    ("! =", "Not, Assign"),
    ("!!", "Not, Not"),
    ("!==", "NotEqual, Assign"),
    ("!!=", "Not, NotEqual"),
    ("& &", "1:1 NoToken"),
    ("&", "1:1 NoToken"),
    ("&&&", "1:3 NoToken"),
    ("&&&&", "And, And"),
    ("&=", "1:1 NoToken"),
    ("|", "1:1 NoToken"),
    ("| |", "1:1 NoToken"),
    ("|||", "1:3 NoToken"),
    ("||||", "Or, Or"),
    ("|=", "1:1 NoToken"),
    ("&|", "1:1 NoToken"),
    ("+ +", "Plus, Plus"),
    ("+++", "Increment, Plus"),
    ("++ +", "Increment, Plus"),
    ("+ ++", "Plus, Increment"),
    ("++++", "Increment, Increment"),
    ("++=", "Increment, Assign"),
    ("+ =", "Plus, Assign"),
    ("+==", "PlusAssign, Assign"),
    ("+-", "Plus, Minus"),
    ("+-=", "Plus, MinusAssign"),
    ("- -", "Minus, Minus"),
    ("---", "Decrement, Minus"),
    ("--=", "Decrement, Assign"),
    ("-==", "MinusAssign, Assign"),
    ("-+", "Minus, Plus"),
    ("-1", "Minus, int 1"),
    ("- 1", "Minus, int 1"),
    ("--1", "Decrement, int 1"),
    ("-a", "Minus, name a"),
    ("* =", "Star, Assign"),
    ("*==", "StarAssign, Assign"),
    ("**", "Star, Star"),
    ("*/", "Star, Slash"),
    ("/ =", "Slash, Assign"),
    ("/==", "SlashAssign, Assign"),
    ("/ /", "Slash, Slash"),
    ("/ *", "Slash, Star"),
    ("% =", "Percent, Assign"),
    ("%==", "PercentAssign, Assign"),
    ("%%", "Percent, Percent"),
    ("a.b", "name a, Dot, name b"),
    ("..", "Dot, Dot"),
    ("::", "Colon, Colon"),
    ("a?b:c", "name a, Question, name b, Colon, name c"),
    (
        "(){}[];,",
        "OpenParenthesis, CloseParenthesis, OpenBrace, CloseBrace, OpenBracket, CloseBracket, Semicolon, Comma",
    ),
    ("a&&b||!c", "name a, And, name b, Or, Not, name c"),
    (
        "a[i]+=b",
        "name a, OpenBracket, name i, CloseBracket, PlusAssign, name b",
    ),
    ("|&", "1:1 NoToken"),
];

/// Each reserved word.
const WORDS: [(&str, &str); 52] = [
    ("accept", "word Accept"),
    ("async", "word Async"),
    ("body", "word Body"),
    ("break", "word Break"),
    ("by", "word By"),
    ("char", "word Char"),
    ("continue", "word Continue"),
    ("create", "word Create"),
    ("delay", "word Delay"),
    ("do", "word Do"),
    ("else", "word Else"),
    ("enum", "word Enum"),
    ("for", "word For"),
    ("getchar", "word Getchar"),
    ("if", "word If"),
    ("immediate", "word Immediate"),
    ("int", "word Int"),
    ("long", "word Long"),
    ("or", "word Or"),
    ("printf", "word Printf"),
    ("process", "word Process"),
    ("putchar", "word Putchar"),
    ("return", "word Return"),
    ("select", "word Select"),
    ("spec", "word Spec"),
    ("struct", "word Struct"),
    ("suchthat", "word Suchthat"),
    ("terminate", "word Terminate"),
    ("trans", "word Trans"),
    ("treturn", "word Treturn"),
    ("void", "word Void"),
    ("while", "word While"),
    ("within", "word Within"),
    ("abort", "word Abort"),
    ("auto", "word Auto"),
    ("case", "word Case"),
    ("const", "word Const"),
    ("default", "word Default"),
    ("double", "word Double"),
    ("extern", "word Extern"),
    ("float", "word Float"),
    ("goto", "word Goto"),
    ("register", "word Register"),
    ("short", "word Short"),
    ("signed", "word Signed"),
    ("sizeof", "word Sizeof"),
    ("static", "word Static"),
    ("switch", "word Switch"),
    ("typedef", "word Typedef"),
    ("union", "word Union"),
    ("unsigned", "word Unsigned"),
    ("volatile", "word Volatile"),
];

/// Names, and what ends them.
const NAMES: [(&str, &str); 29] = [
    ("a", "name a"),
    ("_", "name _"),
    ("__", "name __"),
    ("A", "name A"),
    ("z9", "name z9"),
    ("Z_9z", "name Z_9z"),
    ("If", "name If"),
    ("IF", "name IF"),
    ("i f", "name i, name f"),
    ("if(", "word If, OpenParenthesis"),
    ("if while", "word If, word While"),
    ("ifwhile", "name ifwhile"),
    ("if1", "name if1"),
    ("in", "name in"),
    ("wit", "name wit"),
    ("lon", "name lon"),
    ("a b", "name a, name b"),
    ("a\tb", "name a, name b"),
    ("a\rb", "name a, name b"),
    ("a\x0bb", "name a, name b"),
    ("a\x0cb", "name a, name b"),
    ("a\nb", "name a, name b"),
    ("a$", "1:2 NoToken"),
    ("a@b", "1:2 NoToken"),
    ("a\"b\"", "name a, string 98"),
    ("a'b'", "name a, char 98"),
    ("xif", "name xif"),
    ("_int", "name _int"),
    ("aé", "1:2 NoToken"),
];

/// Numbers, and what is none.
const NUMBERS: [(&str, &str); 113] = [
    ("0", "int 0"),
    ("00", "int 0"),
    ("0l", "long 0"),
    ("0L", "long 0"),
    ("00L", "long 0"),
    ("7", "int 7"),
    ("9", "int 9"),
    ("10", "int 10"),
    ("1234567890", "int 1234567890"),
    ("07", "int 7"),
    ("010", "int 8"),
    ("0777", "int 511"),
    ("0777L", "long 511"),
    ("08", "1:1 BadNumber"),
    ("09", "1:1 BadNumber"),
    ("018", "1:1 BadNumber"),
    ("079", "1:1 BadNumber"),
    ("1l", "long 1"),
    ("1L", "long 1"),
    ("1ll", "1:1 BadNumber"),
    ("1LL", "1:1 BadNumber"),
    ("1lL", "1:1 BadNumber"),
    ("1u", "1:1 BadNumber"),
    ("1l2", "1:1 BadNumber"),
    ("1x", "1:1 BadNumber"),
    ("1_", "1:1 BadNumber"),
    ("1_000", "1:1 BadNumber"),
    ("1e5", "1:1 BadNumber"),
    ("0b1", "1:1 BadNumber"),
    ("12ab", "1:1 BadNumber"),
    ("0x", "1:1 BadNumber"),
    ("0X", "1:1 BadNumber"),
    ("0xL", "1:1 BadNumber"),
    ("0xl", "1:1 BadNumber"),
    ("0xg", "1:1 BadNumber"),
    ("0x1g", "1:1 BadNumber"),
    ("0x_1", "1:1 BadNumber"),
    ("0x1ll", "1:1 BadNumber"),
    ("0x1x", "1:1 BadNumber"),
    ("00x1", "1:1 BadNumber"),
    ("1x1", "1:1 BadNumber"),
    ("0x0", "int 0"),
    ("0x1F", "int 31"),
    ("0X1f", "int 31"),
    ("0x1FL", "long 31"),
    ("0xffl", "long 255"),
    ("0xaBcDeF", "int 11259375"),
    ("0xDEADbeef", "long 3735928559"),
    ("0x123456789", "long 4886718345"),
    ("2147483647", "int 2147483647"),
    ("2147483648", "long 2147483648"),
    ("2147483647L", "long 2147483647"),
    ("0x7fffffff", "int 2147483647"),
    ("0x80000000", "long 2147483648"),
    ("017777777777", "int 2147483647"),
    ("020000000000", "long 2147483648"),
    ("9223372036854775807", "long 9223372036854775807"),
    ("9223372036854775807L", "long 9223372036854775807"),
    ("9223372036854775808", "1:1 NumberTooLarge"),
    ("9223372036854775808L", "1:1 NumberTooLarge"),
    ("9223372036854775808x", "1:1 BadNumber"),
    ("9223372036854775810", "1:1 NumberTooLarge"),
    ("9999999999999999999", "1:1 NumberTooLarge"),
    ("18446744073709551615", "1:1 NumberTooLarge"),
    ("18446744073709551616", "1:1 NumberTooLarge"),
    ("18446744073709551617", "1:1 NumberTooLarge"),
    ("184467440737095516160", "1:1 NumberTooLarge"),
    ("99999999999999999999999999", "1:1 NumberTooLarge"),
    ("0x7fffffffffffffff", "long 9223372036854775807"),
    ("0x8000000000000000", "1:1 NumberTooLarge"),
    ("0xffffffffffffffff", "1:1 NumberTooLarge"),
    ("0x10000000000000000", "1:1 NumberTooLarge"),
    ("0777777777777777777777", "long 9223372036854775807"),
    ("01000000000000000000000", "1:1 NumberTooLarge"),
    ("02000000000000000000000", "1:1 NumberTooLarge"),
    ("00000000000000000000000000000000001", "int 1"),
    ("0x0000000000000000000000000000001", "int 1"),
    ("1.5", "int 1, Dot, int 5"),
    ("1+1", "int 1, Plus, int 1"),
    ("0 8", "int 0, int 8"),
    ("1-1", "int 1, Minus, int 1"),
    ("x1", "name x1"),
    ("_1", "name _1"),
    ("1;", "int 1, Semicolon"),
    ("0x1+0x2", "int 1, Plus, int 2"),
    ("1'a'", "int 1, char 97"),
    ("1//2", "int 1"),
    ("1/*2*/3", "int 1, int 3"),
    ("0ll", "1:1 BadNumber"),
    ("0lL", "1:1 BadNumber"),
    ("0L0", "1:1 BadNumber"),
    ("0_", "1:1 BadNumber"),
    ("0a", "1:1 BadNumber"),
    ("08L", "1:1 BadNumber"),
    ("0xX1", "1:1 BadNumber"),
    ("0XL", "1:1 BadNumber"),
    ("1Lx", "1:1 BadNumber"),
    ("09223372036854775807", "1:1 BadNumber"),
    ("0if", "1:1 BadNumber"),
    ("0x8000000000000000g", "1:1 BadNumber"),
    ("010000000000000000000008", "1:1 BadNumber"),
    ("9223372036854775808ll", "1:1 BadNumber"),
    ("9223372036854775808_", "1:1 BadNumber"),
    ("01l", "long 1"),
    ("0x1l", "long 1"),
    ("2147483648L", "long 2147483648"),
    ("0x80000000L", "long 2147483648"),
    ("0x7fffffffffffffffL", "long 9223372036854775807"),
    ("0777777777777777777777L", "long 9223372036854775807"),
    ("0x8000000000000000L", "1:1 NumberTooLarge"),
    ("01000000000000000000000L", "1:1 NumberTooLarge"),
    ("9223372036854775808l", "1:1 NumberTooLarge"),
    ("-9223372036854775808", "1:2 NumberTooLarge"),
];

/// Characters and strings, and what is none.
const QUOTED: [(&str, &str); 65] = [
    ("'a'", "char 97"),
    ("' '", "char 32"),
    ("'~'", "char 126"),
    ("'\"'", "char 34"),
    ("'''", "1:1 BadCharacter"),
    ("''", "1:1 BadCharacter"),
    ("'", "1:1 BadCharacter"),
    ("'a", "1:1 BadCharacter"),
    ("'ab'", "1:1 BadCharacter"),
    ("'a '", "1:1 BadCharacter"),
    ("'\\'", "1:1 BadCharacter"),
    ("'\\", "1:1 BadCharacter"),
    ("'\\''", "char 39"),
    ("'\\\\'", "char 92"),
    ("'\\\"'", "char 34"),
    ("'\\n'", "char 10"),
    ("'\\t'", "char 9"),
    ("'\\r'", "char 13"),
    ("'\\0'", "char 0"),
    ("'\\n", "1:1 BadCharacter"),
    ("'\\nn'", "1:1 BadCharacter"),
    ("'\\00'", "1:1 BadCharacter"),
    ("'\\a'", "1:1 BadCharacter"),
    ("'\\N'", "1:1 BadCharacter"),
    ("'\\x41'", "1:1 BadCharacter"),
    ("'\\1'", "1:1 BadCharacter"),
    ("'\n'", "1:1 BadCharacter"),
    ("'\t'", "1:1 BadCharacter"),
    ("'a'b", "char 97, name b"),
    ("'a''b'", "char 97, char 98"),
    ("'a''", "1:4 BadCharacter"),
    ("a'", "1:2 BadCharacter"),
    ("'/*'", "1:1 BadCharacter"),
    ("'/'/**/", "char 47"),
    ("\"\"", "string"),
    ("\"a\"", "string 97"),
    ("\"'\"", "string 39"),
    ("\"\\n\\t\\r\\0\\\\\\'\\\"\"", "string 10 9 13 0 92 39 34"),
    ("\"\\00\"", "string 0 48"),
    ("\"\\nn\"", "string 10 110"),
    ("\"a\\n\"", "string 97 10"),
    ("\"\\a\"", "1:1 BadString"),
    ("\"a\\x\"", "1:1 BadString"),
    ("\"\\1\"", "1:1 BadString"),
    ("\"\\\"", "1:1 BadString"),
    ("\"\\", "1:1 BadString"),
    ("\"\\n", "1:1 BadString"),
    ("\"a", "1:1 BadString"),
    ("\"", "1:1 BadString"),
    ("\"a\n\"", "1:1 BadString"),
    ("\"\t\"", "1:1 BadString"),
    ("\"a\"b\"", "1:5 BadString"),
    ("\"a\"\"b\"", "string 97, string 98"),
    ("x \"", "1:3 BadString"),
    ("\"/* */\"", "string 47 42 32 42 47"),
    ("\"//\"", "string 47 47"),
    ("\"if\"", "string 105 102"),
    ("\"%d\\n\"", "string 37 100 10"),
    ("\"\\\\\"", "string 92"),
    ("\"\\\\\\\"", "1:1 BadString"),
    ("\"\\\\\\\"\"", "string 92 34"),
    ("\"\\\\", "1:1 BadString"),
    ("'\\\\''", "1:5 BadCharacter"),
    ("'\\\\", "1:1 BadCharacter"),
    ("'\\0", "1:1 BadCharacter"),
];

/// Comments, and what is none.
const COMMENTS: [(&str, &str); 46] = [
    ("", ""),
    ("/**/", ""),
    ("/* */a", "name a"),
    ("/*/", "1:1 OpenComment"),
    ("/*/*/", ""),
    ("/***/", ""),
    ("/****/", ""),
    ("/*/ */", ""),
    ("/* * / */", ""),
    ("/* /* */", ""),
    ("/* /* */ */", "Star, Slash"),
    ("/**/*/", "Star, Slash"),
    ("/*", "1:1 OpenComment"),
    ("/**", "1:1 OpenComment"),
    ("/* *", "1:1 OpenComment"),
    ("/* * /", "1:1 OpenComment"),
    ("/*\n", "1:1 OpenComment"),
    ("a/*", "1:2 OpenComment"),
    ("/**//*", "1:5 OpenComment"),
    ("//", ""),
    ("//a", ""),
    ("///", ""),
    ("a//", "name a"),
    ("a//\n", "name a"),
    ("//a\nb", "name b"),
    ("// /*\nb", "name b"),
    ("// */\nb", "name b"),
    ("/* // */ b", "name b"),
    ("// a \r b", ""),
    ("//\r\na", "name a"),
    ("//\x0ba\x0c", ""),
    ("a/", "name a, Slash"),
    ("a/b", "name a, Slash, name b"),
    ("a//b\n/c", "name a, Slash, name c"),
    ("/\n/", "Slash, Slash"),
    ("/ /**/ /", "Slash, Slash"),
    ("/**//", "Slash"),
    ("a/**/b", "name a, name b"),
    ("a/**/=", "name a, Assign"),
    ("=/**/=", "Assign, Assign"),
    ("/* \" */", ""),
    ("/* ' */", ""),
    ("// \" '", ""),
    ("\"a\"//\"", "string 97"),
    ("/*=", "1:1 OpenComment"),
    ("//=", ""),
];

/// The first fault, and its place.
const FAULTS: [(&str, &str); 26] = [
    ("a @", "1:3 NoToken"),
    ("@", "1:1 NoToken"),
    ("\t@", "1:2 NoToken"),
    ("\n@", "2:1 NoToken"),
    ("\r@", "1:2 NoToken"),
    ("\r\n@", "2:1 NoToken"),
    ("\n\r@", "2:2 NoToken"),
    ("\x0b@", "1:2 NoToken"),
    ("\x0c@", "1:2 NoToken"),
    ("a\n\n  @", "3:3 NoToken"),
    ("/*\n\n*/@", "3:3 NoToken"),
    ("a /* \n */ @", "2:5 NoToken"),
    ("// @\n @", "2:2 NoToken"),
    ("\"ab\" @", "1:6 NoToken"),
    ("ab @ #", "1:4 NoToken"),
    ("1x @", "1:1 BadNumber"),
    ("@ 1x", "1:1 NoToken"),
    ("a 1x @", "1:3 BadNumber"),
    ("a 08\n@", "1:3 BadNumber"),
    ("/* */ /*", "1:7 OpenComment"),
    ("/* @", "1:1 OpenComment"),
    ("'a' 'bc'", "1:5 BadCharacter"),
    ("a\n'bc' \"", "2:1 BadCharacter"),
    ("a\n\"bc 'x'", "2:1 BadString"),
    ("1 9223372036854775808 @", "1:3 NumberTooLarge"),
    ("main() { $", "1:10 NoToken"),
];

/// The places of the tokens, and of the end.
const STARTS: [(&str, &str); 19] = [
    ("", "1:1"),
    ("a", "1:1 1:2"),
    ("a b", "1:1 1:3 1:4"),
    ("a\nb", "1:1 2:1 2:2"),
    ("a\n", "1:1 2:1"),
    ("\n\n", "3:1"),
    ("\ta", "1:2 1:3"),
    ("a\tb", "1:1 1:3 1:4"),
    ("/*\n*/x y", "2:3 2:5 2:6"),
    ("\"\\n\"x", "1:1 1:5 1:6"),
    ("// c\n<=\r\n==", "2:1 3:1 3:3"),
    ("\x0b\x0c\r x", "1:5 1:6"),
    ("a+=b--;", "1:1 1:2 1:4 1:5 1:7 1:8"),
    (
        "if (x) {\n  y = 'a';\n}\n",
        "1:1 1:4 1:5 1:6 1:8 2:3 2:5 2:7 2:10 3:1 4:1",
    ),
    ("a //", "1:1 1:5"),
    ("a // \n ", "1:1 2:2"),
    ("//=", "1:4"),
    ("\"é\" x", "1:1 1:6 1:7"),
    ("/*é*/x", "1:7 1:8"),
];

/// The places of tokens, and that of their end.
fn shown_places(alloc: Global, tokens: &Tokens) -> Result<String, AllocError> {
    let mut out = String::new(alloc);
    for i in 0..tokens.len() {
        if let Some(token) = tokens.get(i) {
            out.push_str(&format!(in alloc; "{}:{} ", token.place.line, token.place.column)?)?;
        }
    }
    let end = tokens.end();
    out.push_str(&format!(in alloc; "{}:{}", end.line, end.column)?)?;
    Ok(out)
}

/// The places of the tokens of a text, and that of its end.
fn places(alloc: Global, text: &[u8]) -> Result<String, AllocError> {
    match lex(alloc, text) {
        Ok(tokens) => shown_places(alloc, &tokens),
        Err(error) => format!(in alloc; "{error:?}"),
    }
}

#[test]
fn texts_of_the_tables(rt: HostRuntime) -> Result<(), Fail> {
    let tables: [&[(&str, &str)]; 8] = [
        &MARKS, &BESIDE, &WORDS, &NAMES, &NUMBERS, &QUOTED, &COMMENTS, &FAULTS,
    ];
    for table in &tables {
        for (text, want) in *table {
            let found = read(rt.alloc(), text.as_bytes())?;
            assert_eq!(rt; found.as_str(), *want, "of {text}");
        }
    }
    for (text, want) in &STARTS {
        let found = places(rt.alloc(), text.as_bytes())?;
        assert_eq!(rt; found.as_str(), *want, "of {text}");
    }
    Ok(())
}

#[test]
fn two_marks(rt: HostRuntime) -> Result<(), Fail> {
    for (first, one) in &MARKS {
        for (second, other) in &MARKS {
            let text = format!(in rt.alloc(); "{first} {second}")?;
            let want = format!(in rt.alloc(); "{one}, {other}")?;
            let found = read(rt.alloc(), text.as_bytes())?;
            assert_eq!(rt; found.as_str(), want.as_str());
        }
    }
    Ok(())
}

#[test]
fn a_word_and_more_is_a_name(rt: HostRuntime) -> Result<(), Fail> {
    for (word, _) in &WORDS {
        for more in ["s", "_", "0", "X"] {
            let text = format!(in rt.alloc(); "{word}{more}")?;
            let want = format!(in rt.alloc(); "name {word}{more}")?;
            let found = read(rt.alloc(), text.as_bytes())?;
            assert_eq!(rt; found.as_str(), want.as_str());
        }
    }
    Ok(())
}

/// What a byte alone is.
fn alone(alloc: Global, b: u8) -> Result<String, AllocError> {
    for (text, want) in &MARKS {
        if text.as_bytes() == [b].as_slice() {
            return String::from_str(alloc, want);
        }
    }
    match b {
        9..=13 | 32 => Ok(String::new(alloc)),
        b'A'..=b'Z' | b'a'..=b'z' | b'_' => format!(in alloc; "name {}", char::from(b)),
        b'0'..=b'9' => format!(in alloc; "int {}", b - b'0'),
        b'\'' => String::from_str(alloc, "1:1 BadCharacter"),
        b'"' => String::from_str(alloc, "1:1 BadString"),
        _ => String::from_str(alloc, "1:1 NoToken"),
    }
}

/// What a byte behind a `\` between quotes is.
fn behind_backslash(alloc: Global, good: &str, bad: &str, b: u8) -> Result<String, AllocError> {
    match b {
        b'n' => format!(in alloc; "{good} 10"),
        b't' => format!(in alloc; "{good} 9"),
        b'r' => format!(in alloc; "{good} 13"),
        b'0' => format!(in alloc; "{good} 0"),
        b'"' | b'\'' | b'\\' => format!(in alloc; "{good} {b}"),
        _ => format!(in alloc; "1:1 {bad}"),
    }
}

/// What a byte between double quotes is.
fn in_string(alloc: Global, b: u8) -> Result<String, AllocError> {
    match b {
        b'"' => String::from_str(alloc, "1:3 BadString"),
        b'\\' | 0..=31 | 127 => String::from_str(alloc, "1:1 BadString"),
        _ => format!(in alloc; "string {b}"),
    }
}

/// What a byte between single quotes is.
fn in_character(alloc: Global, b: u8) -> Result<String, AllocError> {
    match b {
        b'\'' | b'\\' | 0..=31 | 127..=255 => String::from_str(alloc, "1:1 BadCharacter"),
        _ => format!(in alloc; "char {b}"),
    }
}

#[test]
fn each_byte(rt: HostRuntime) -> Result<(), Fail> {
    let alloc = rt.alloc();
    for b in 0..=255 {
        let found = read(alloc, &[b])?;
        assert_eq!(rt; found.as_str(), alone(alloc, b)?.as_str(), "at {b}");
        let found = read(alloc, &[b'/', b'*', b, b'*', b'/', b'x'])?;
        assert_eq!(rt; found.as_str(), "name x", "at {b}");
        let found = read(alloc, &[b'/', b'/', b, b'\n', b'x'])?;
        assert_eq!(rt; found.as_str(), "name x", "at {b}");
        let found = read(alloc, &[b'"', b, b'"'])?;
        assert_eq!(rt; found.as_str(), in_string(alloc, b)?.as_str(), "at {b}");
        let found = read(alloc, &[b'\'', b, b'\''])?;
        assert_eq!(rt; found.as_str(), in_character(alloc, b)?.as_str(), "at {b}");
        let found = read(alloc, &[b'"', b'\\', b, b'"'])?;
        let want = behind_backslash(alloc, "string", "BadString", b)?;
        assert_eq!(rt; found.as_str(), want.as_str(), "at {b}");
        let found = read(alloc, &[b'\'', b'\\', b, b'\''])?;
        let want = behind_backslash(alloc, "char", "BadCharacter", b)?;
        assert_eq!(rt; found.as_str(), want.as_str(), "at {b}");
    }
    Ok(())
}

/// So many times one byte.
fn times(alloc: Global, count: usize, b: u8) -> Result<Vec<u8>, AllocError> {
    vec![in alloc; b; count]
}

#[test]
fn long_texts(rt: HostRuntime) -> Result<(), Fail> {
    let alloc = rt.alloc();
    let spaces = times(alloc, 1_048_576, b' ')?;
    assert_eq!(rt; places(alloc, &spaces)?.as_str(), "1:1048577");
    let spaces = times(alloc, 1_048_577, b' ')?;
    assert_eq!(rt; read(alloc, &spaces)?.as_str(), "1:1 TextTooLong");
    let lines = times(alloc, 1_048_576, b'\n')?;
    assert_eq!(rt; places(alloc, &lines)?.as_str(), "1048577:1");
    let faults = times(alloc, 1_048_577, b'@')?;
    assert_eq!(rt; read(alloc, &faults)?.as_str(), "1:1 TextTooLong");
    let zeros = times(alloc, 5000, b'0')?;
    assert_eq!(rt; read(alloc, &zeros)?.as_str(), "int 0");
    for (front, digit) in [("0x", b'f'), ("0X1", b'0'), ("0", b'7'), ("01", b'0')] {
        let mut digits = Vec::from_slice(alloc, front.as_bytes())?;
        digits.extend_from_slice(&times(alloc, 5000, digit)?)?;
        assert_eq!(rt;
            read(alloc, &digits)?.as_str(),
            "1:1 NumberTooLarge",
            "of {front}"
        );
    }
    let mut ones = times(alloc, 1_048_575, b'1')?;
    assert_eq!(rt; read(alloc, &ones)?.as_str(), "1:1 NumberTooLarge");
    assert!(rt; ones.push(b'x').is_ok());
    assert_eq!(rt; read(alloc, &ones)?.as_str(), "1:1 BadNumber");
    Ok(())
}

#[test]
fn names_of_all_lengths(rt: HostRuntime) -> Result<(), Fail> {
    let alloc = rt.alloc();
    for count in [1, 21, 22, 23, 24, 100, 5000] {
        let bytes = times(alloc, count, b'n')?;
        let tokens = lex(alloc, &bytes).ok().ok_or("a name is a token")?;
        assert_eq!(rt; tokens.len(), 1);
        let token = tokens.get(0).ok_or("there is a token")?;
        assert!(rt; matches!(&token.what, What::Name(name) if name.as_slice() == bytes.as_slice()));
        if let What::Name(name) = &token.what {
            let copy = name.copy(alloc).ok().ok_or("there is memory")?;
            assert!(rt; copy.as_slice() == bytes.as_slice());
        }
    }
    Ok(())
}

#[test]
fn a_list_of_tokens(rt: HostRuntime) {
    let mut tokens = Tokens::new(rt.alloc());
    assert_eq!(rt; tokens.len(), 0);
    assert_eq!(rt; tokens.end(), Place { line: 1, column: 1 });
    let token = Token {
        place: Place { line: 1, column: 1 },
        what: What::Mark(Mark::Comma),
    };
    assert!(rt; tokens.push(token).is_ok());
    tokens.set_end(Place { line: 1, column: 2 });
    assert_eq!(rt; tokens.len(), 1);
    assert!(rt;
        matches!(tokens.get(0), Some(token) if matches!(token.what, What::Mark(Mark::Comma)))
    );
    assert!(rt; tokens.get(1).is_none());
    assert_eq!(rt; tokens.end(), Place { line: 1, column: 2 });
}
