//! Kinds of bytes, and how many of a kind stand at the front.

ghost use Rattle.std.specs.Prelude.{◌≡◌, ◌≤◌, length};
ghost use Rattle.cc_lex.specs.Bytes as spec;
ghost use Rattle.cc_lex.specs.Reading.{run};

/// Whether a byte is white space: a blank, a tab, a line feed, a carriage return, a vertical tab or a form feed.
pub fn is_space(b: u8) -> bool
    ensures space { result ≡ spec.is_space b }
{
    b == b' ' || b == b'\t' || b == b'\n' || b == b'\r' || b == 11 || b == 12
}

/// Whether a byte is a letter of a name: `a` to `z`, `A` to `Z`, or `_`.
pub fn is_letter(b: u8) -> bool
    ensures letter { result ≡ spec.is_letter b }
{
    b'a' <= b && b <= b'z' || b'A' <= b && b <= b'Z' || b == b'_'
}

/// Whether a byte is a decimal digit.
pub fn is_digit(b: u8) -> bool
    ensures digit { result ≡ spec.is_digit b }
{
    b'0' <= b && b <= b'9'
}

fn is_word_byte(b: u8) -> bool
    ensures { result ≡ spec.is_word_byte b }
{
    is_letter(b) || is_digit(b)
}

/// Whether a byte stands for itself between `'` and `'`.
pub fn is_plain_character(b: u8) -> bool
    ensures plain { result ≡ spec.is_plain_character b }
{
    b' ' <= b && b <= b'~' && b != b'\'' && b != b'\\'
}

/// Whether a byte stands for itself between `"` and `"`.
pub fn is_plain_in_string(b: u8) -> bool
    ensures plain { result ≡ spec.is_plain_in_string b }
{
    (b' ' <= b && b <= b'~' || 128 <= b) && b != b'"' && b != b'\\'
}

/// What a byte is worth as a digit, and 16 where it is none.
pub fn digit_of(b: u8) -> u64
    ensures digit { result ≡ spec.digit_of b }
{
    match b {
        b'0'..=b'9' => u64::from(b - b'0'),
        b'a'..=b'f' => u64::from(b - 87),
        b'A'..=b'F' => u64::from(b - 55),
        _ => 16,
    }
}

/// How many letters, digits and `_` stand at the front.
pub fn word_len(text: &[u8]) -> usize
    ensures value { result ≡ run spec.is_word_byte text.now }
    ensures within { result ≤ length text.now }
{
    let mut n = 0;
    while n < text.len() && is_word_byte(text[n]) {
        n += 1;
    }
    n
}

/// How many bytes stand before the end of the line.
pub fn line_len(text: &[u8]) -> usize
    ensures value { result ≡ run spec.is_in_line text.now }
    ensures within { result ≤ length text.now }
{
    let mut n = 0;
    while n < text.len() && text[n] != b'\n' {
        n += 1;
    }
    n
}

/// How many digits of a base stand at the front.
pub fn digits_len(base: u64, text: &[u8]) -> usize
    ensures value { result ≡ run (spec.is_digit_in base) text.now }
    ensures within { result ≤ length text.now }
{
    let mut n = 0;
    while n < text.len() && digit_of(text[n]) < base {
        n += 1;
    }
    n
}
