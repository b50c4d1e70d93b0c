//! Numbers in a journal's text.

ghost use Rattle.std.specs.Prelude.{◌≡◌, ◌≤◌, IfSome, option_map};
ghost use Rattle.cc_trace.specs.Reading as reading;

/// The number of at most `most` at the front of the text, without leading zeros, and the text after the byte `end` that
/// follows it.
pub fn number_at(most: u64, end: u8, text: &[u8]) -> Option<(u64, &[u8])>
    requires { 9 ≤ most }
    ensures value { option_map (λ found. (found.0, found.1.now)) result ≡ reading.number_at most end text.now }
    ensures bounded { IfSome result (λ found. found.0 ≤ most) }
{
    let [first, rest @ ..] = text else {
        return None;
    };
    if !first.is_ascii_digit() {
        return None;
    }
    digits_after(most, end, u64::from(*first - b'0'), rest)
}

/// The number whose digits go on here after those of `number`, and the text after the byte `end` that follows them.
fn digits_after(most: u64, end: u8, number: u64, text: &[u8]) -> Option<(u64, &[u8])>
    requires wide { 9 ≤ most }
    requires bounded { number ≤ most }
    ensures value { option_map (λ found. (found.0, found.1.now)) result ≡ reading.digits_after most end number text.now }
    ensures bounded { IfSome result (λ found. found.0 ≤ most) }
{
    let mut value = number;
    for (at, byte) in text.iter().enumerate() {
        if *byte == end {
            return Some((value, &text[at + 1..]));
        }
        if value == 0 || !byte.is_ascii_digit() {
            return None;
        }
        let digit = u64::from(*byte - b'0');
        if value > (most - digit) / 10 {
            return None;
        }
        value = value * 10 + digit;
    }
    None
}

/// The number of a process, an alternative or a call.
pub fn small_at(end: u8, text: &[u8]) -> Option<(u32, &[u8])>
    ensures number { option_map (λ found. (found.0, found.1.now)) result ≡ reading.small_at end text.now }
{
    let (number, rest) = number_at(u64::from(u32::MAX), end, text)?;
    Some((number as u32, rest))
}
