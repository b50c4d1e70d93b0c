//! The names in a journal's text.

ghost use Rattle.std.specs.Prelude.{◌≡◌, option_map};
ghost use Rattle.cc_trace.specs.Reading.{row_at, rows};

use cc_rules::Word;

/// What the name at the front of a line says that the line is.
#[derive(Clone, Copy, Debug, Drop, PartialEq, Eq)]
pub enum Name {
    Ask,
    Accept,
    Instant,
    Expire,
    Withdraw,
    Time,
    End,
}

/// The names of lines, each with the byte after it.
pub const NAMES: [(&str, Name); 7] = [
    ("ask ", Name::Ask),
    ("accept ", Name::Accept),
    ("instant ", Name::Instant),
    ("expire ", Name::Expire),
    ("withdraw ", Name::Withdraw),
    ("time ", Name::Time),
    ("end\n", Name::End),
];

/// The names of requests, each with the newline after it.
pub const WORDS: [(&str, Word); 12] = [
    ("pause\n", Word::Pause),
    ("create\n", Word::Create),
    ("call\n", Word::Call),
    ("timedcall\n", Word::TimedCall),
    ("send\n", Word::Send),
    ("select\n", Word::Select),
    ("delay\n", Word::Delay),
    ("reply\n", Word::Reply),
    ("print\n", Word::Print),
    ("get\n", Word::Get),
    ("done\n", Word::Done),
    ("fault\n", Word::Fault),
];

/// The item of the first row whose name stands at the front of the text, and the text after that name.
pub fn row_at<'a, T: Copy>(table: &[(&str, T)], text: &'a [u8]) -> Option<(T, &'a [u8])>
    ensures row { option_map (λ found. (found.0, found.1.now)) result ≡ row_at (rows table.now) text.now }
{
    for (name, item) in table {
        if let Some(rest) = text.strip_prefix(name.as_bytes()) {
            return Some((*item, rest));
        }
    }
    None
}
