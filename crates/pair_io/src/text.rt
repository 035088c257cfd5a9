ghost use Rattle.std.specs.Prelude.{◌≡◌, IfOk};

use lists::NoMemory;
use std::alloc::Global;
use std::marker::Model;

/// A text that is kept. A contract sees the list of its bytes, which are UTF-8.
#[derive(Debug, Drop)]
pub struct Text {
    text: String,
}

impl Model for Text {
    ghost use Rattle.std.specs.Prelude.{ℕ, List};
    ghost use Rattle.std.specs.String.{string_bytes};

    ghost Value = { List ℕ };

    ghost view = { λ t. string_bytes t.text };
}

impl Text {
    /// Keeps a copy of a text, in time and memory that grow with its length.
    pub fn new(alloc: Global, text: &str) -> Result<Self, NoMemory>
        ensures { IfOk result (λ kept. kept ≡ text.now) }
    {
        Ok(Text {
            text: String::from_str(alloc, text)?,
        })
    }

    /// The text. Takes no memory.
    pub fn as_str(&self) -> &str
        ensures { result.now ≡ self.now }
    {
        self.text.as_str()
    }
}

/// The words of a command, in order. A contract sees the list of their bytes.
pub type WordList = lists::List<Text>;
