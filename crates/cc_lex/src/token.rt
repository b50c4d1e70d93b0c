use crate::name::Name;
use cc_base::{Bytes, Place};

/// A token of a text, and the place of its first byte.
#[derive(Debug, Drop)]
pub struct Token {
    pub place: Place,
    pub what: What,
}

/// What a token is, with what is kept of its spelling.
#[derive(Debug, Drop)]
pub enum What {
    /// The bytes of a name.
    Name(Name),
    /// A number, and whether it is an `int` or a `long`.
    Number { value: i64, size: Size },
    /// The byte that a character in single quotes stands for.
    Character(u8),
    /// The bytes that a string in double quotes stands for.
    String(Bytes),
    /// A reserved word.
    Word(Word),
    /// A mark.
    Mark(Mark),
}

/// The type of a number.
#[derive(Clone, Copy, Debug, Drop, PartialEq, Eq)]
pub enum Size {
    Int,
    Long,
}

/// The reserved words.
#[derive(Clone, Copy, Debug, Drop, PartialEq, Eq)]
pub enum Word {
    Abort,
    Accept,
    Async,
    Auto,
    Body,
    Break,
    By,
    Case,
    Char,
    Const,
    Continue,
    Create,
    Default,
    Delay,
    Do,
    Double,
    Else,
    Enum,
    Extern,
    Float,
    For,
    Getchar,
    Goto,
    If,
    Immediate,
    Int,
    Long,
    Or,
    Printf,
    Process,
    Putchar,
    Register,
    Return,
    Select,
    Short,
    Signed,
    Sizeof,
    Spec,
    Static,
    Struct,
    Suchthat,
    Switch,
    Terminate,
    Trans,
    Treturn,
    Typedef,
    Union,
    Unsigned,
    Void,
    Volatile,
    While,
    Within,
}

/// The marks.
#[derive(Clone, Copy, Debug, Drop, PartialEq, Eq)]
pub enum Mark {
    /// `(`
    OpenParenthesis,
    /// `)`
    CloseParenthesis,
    /// `{`
    OpenBrace,
    /// `}`
    CloseBrace,
    /// `[`
    OpenBracket,
    /// `]`
    CloseBracket,
    /// `;`
    Semicolon,
    /// `,`
    Comma,
    /// `.`
    Dot,
    /// `:`
    Colon,
    /// `?`
    Question,
    /// `=`
    Assign,
    /// `+`
    Plus,
    /// `-`
    Minus,
    /// `*`
    Star,
    /// `/`
    Slash,
    /// `%`
    Percent,
    /// `<`
    Less,
    /// `>`
    Greater,
    /// `!`
    Not,
    /// `<=`
    LessEqual,
    /// `>=`
    GreaterEqual,
    /// `==`
    Equal,
    /// `!=`
    NotEqual,
    /// `&&`
    And,
    /// `||`
    Or,
    /// `++`
    Increment,
    /// `--`
    Decrement,
    /// `+=`
    PlusAssign,
    /// `-=`
    MinusAssign,
    /// `*=`
    StarAssign,
    /// `/=`
    SlashAssign,
    /// `%=`
    PercentAssign,
}
