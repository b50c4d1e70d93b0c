ghost use Rattle.std.specs.Prelude.{◌≡◌, [], ◌∷◌, ◌++◌, drop, length, map, string_bytes, IfErr, IfOk, IsErr, OnOk, OnErr, slice_get, option_map};
ghost use Rattle.std.specs.IoError.{error_kind};
ghost use Rattle.std.specs.Vec.Iter.{into_iter_items};
ghost use Rattle.cc_command.specs.Asked.{file_asked, words_in};

use cc_base::Memory;
use std::alloc::Global;
use std::env::Args;
use std::io::{self, ErrorKind};
use std::marker::Model;

/// The words of a command line, those after the program's name. It keeps its allocator.
#[derive(Drop)]
pub struct Words {
    alloc: Global,
    items: Vec<String>,
}

impl Model for Words {
    ghost use Rattle.std.specs.Prelude.{ℕ, List, map, string_bytes};

    ghost Value = { List (List ℕ) };

    ghost view = { λ w. map string_bytes w.items.items };
}

impl Words {
    /// No words.
    pub fn new(alloc: Global) -> Words
        ensures empty { result ≡ [] }
    {
        Words {
            alloc,
            items: Vec::new(alloc),
        }
    }

    pub fn len(&self) -> usize
        ensures len { result ≡ length self.now }
    {
        self.items.len()
    }

    /// The word at this index, from 0; none exactly past the end.
    pub fn get(&self, at: usize) -> Option<&str>
        ensures word { option_map (λ word. word.now) result ≡ slice_get self.now at }
    {
        match self.items.get(at) {
            Some(word) => Some(word.as_str()),
            None => None,
        }
    }

    /// Copies the word to the end. After an error the words are as before.
    pub fn push(&mut self, word: &str) -> Result<(), Memory>
        ensures ok { OnOk result (self.new ≡ self.old ++ word.now ∷ []) }
        ensures err { OnErr result (self.new ≡ self.old) }
    {
        let copied = String::from_str(self.alloc, word)?;
        self.items.push(copied)?;
        Ok(())
    }
}

/// Copies the words behind the first, which names the program.
fn copied_words(alloc: Global, args: Args) -> Result<Words, Memory>
    ensures words { IfOk result (λ words. words ≡ drop 1 (map string_bytes (into_iter_items args))) }
{
    let mut args = args;
    let mut words = Words::new(alloc);
    let _program = args.next();
    for word in args {
        words.push(word.as_str())?;
    }
    Ok(words)
}

/// The words of a command line, in order, from the arguments that the system gave, the first of which names the program. An
/// argument that is no UTF-8 makes the line one without words, which asks for nothing.
pub fn words_given(alloc: Global, given: io::Result<Args>) -> Result<Words, Memory>
    ensures words { IfOk result (λ words. words ≡ words_in given) }
    ensures memory { IfErr given (λ error. error_kind error ≡ ErrorKind.OutOfMemory → IsErr result) }
{
    match given {
        Ok(args) => copied_words(alloc, args),
        Err(error) if error.kind() == ErrorKind::OutOfMemory => Err(Memory),
        Err(_) => Ok(Words::new(alloc)),
    }
}

/// The FILE of the words `run FILE`; none where the words are others.
pub(crate) fn asked_file(words: &Words) -> Option<&str>
    ensures { option_map (λ file. file.now) result ≡ file_asked words.now }
{
    if words.len() != 2 || words.get(0)?.as_bytes() != b"run".as_slice() {
        return None;
    }
    words.get(1)
}
