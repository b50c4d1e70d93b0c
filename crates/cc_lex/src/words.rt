ghost use Rattle.std.specs.Prelude.{◌≡◌};
ghost use Rattle.cc_lex.specs.Words.{rows, word_in, reserved_word};

use crate::token::Word;

/// The reserved words of the language.
pub const LANGUAGE_WORDS: [(&str, Word); 33] = [
    ("accept", Word::Accept),
    ("async", Word::Async),
    ("body", Word::Body),
    ("break", Word::Break),
    ("by", Word::By),
    ("char", Word::Char),
    ("continue", Word::Continue),
    ("create", Word::Create),
    ("delay", Word::Delay),
    ("do", Word::Do),
    ("else", Word::Else),
    ("enum", Word::Enum),
    ("for", Word::For),
    ("getchar", Word::Getchar),
    ("if", Word::If),
    ("immediate", Word::Immediate),
    ("int", Word::Int),
    ("long", Word::Long),
    ("or", Word::Or),
    ("printf", Word::Printf),
    ("process", Word::Process),
    ("putchar", Word::Putchar),
    ("return", Word::Return),
    ("select", Word::Select),
    ("spec", Word::Spec),
    ("struct", Word::Struct),
    ("suchthat", Word::Suchthat),
    ("terminate", Word::Terminate),
    ("trans", Word::Trans),
    ("treturn", Word::Treturn),
    ("void", Word::Void),
    ("while", Word::While),
    ("within", Word::Within),
];

/// The reserved words that no sentence has.
pub const UNUSED_WORDS: [(&str, Word); 19] = [
    ("abort", Word::Abort),
    ("auto", Word::Auto),
    ("case", Word::Case),
    ("const", Word::Const),
    ("default", Word::Default),
    ("double", Word::Double),
    ("extern", Word::Extern),
    ("float", Word::Float),
    ("goto", Word::Goto),
    ("register", Word::Register),
    ("short", Word::Short),
    ("signed", Word::Signed),
    ("sizeof", Word::Sizeof),
    ("static", Word::Static),
    ("switch", Word::Switch),
    ("typedef", Word::Typedef),
    ("union", Word::Union),
    ("unsigned", Word::Unsigned),
    ("volatile", Word::Volatile),
];

/// How many bytes the shortest reserved word has.
const SHORTEST_WORD: usize = 2;

/// How many bytes the longest reserved word has.
const LONGEST_WORD: usize = 9;

/// The word of these bytes in a table.
fn word_in(table: &[(&str, Word)], bytes: &[u8]) -> Option<Word>
    ensures { result ≡ word_in bytes.now (rows table.now) }
{
    for (spelling, word) in table {
        if spelling.as_bytes() == bytes {
            return Some(*word);
        }
    }
    None
}

/// The reserved word of these bytes. Most names are told from the words by their length.
#[tactic(auto, unfolding(crate::specs::Words::reserved_word))]
pub fn reserved_word(bytes: &[u8]) -> Option<Word>
    ensures word { result ≡ reserved_word bytes.now }
{
    if bytes.len() < SHORTEST_WORD || LONGEST_WORD < bytes.len() {
        return None;
    }
    match word_in(&LANGUAGE_WORDS, bytes) {
        Some(word) => Some(word),
        None => word_in(&UNUSED_WORDS, bytes),
    }
}
