ghost use Rattle.std.specs.Prelude.{◌≡◌};
ghost use Rattle.audit_frame.specs.Words.{file_in};

use std::marker::Model;

/// A file that a word of the command names: the number of the word, counted from 1, the command
/// being the first, and the name.
#[derive(Debug, Drop)]
pub struct NamedFile<'a> {
    word: u32,
    name: &'a str,
}

impl<'a> Model for NamedFile<'a> {
    ghost use Rattle.audit_frame.specs.Words.{FileWord};

    ghost Value = { FileWord };

    ghost view = { λ f. record { word = f.word; name = f.name.now } };
}

impl<'a> NamedFile<'a> {
    /// The file of a word; `None` exactly where the word is empty, which names none.
    pub fn new(word: u32, name: &'a str) -> Option<Self>
        ensures { result ≡ file_in word name.now }
    {
        if name.is_empty() {
            None
        } else {
            Some(NamedFile { word, name })
        }
    }

    /// The number of the word.
    pub fn word(&self) -> u32
        ensures { result ≡ self.now.word }
    {
        self.word
    }

    /// The name.
    pub fn name(&self) -> &'a str
        ensures { result.now ≡ self.now.name }
    {
        self.name
    }
}
