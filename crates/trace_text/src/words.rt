ghost use Rattle.std.specs.Prelude.{◌≡◌, ◌+◌, ◌<◌, ◌≤◌, ◌^◌, ◌∷◌, [], length, MatchOption};
ghost use Rattle.std.specs.Prelude.{MatchResult, OnOk};
ghost use Rattle.trace_text.specs.declared.fault.EventFault.TheVariants.{BadWord};
ghost use Rattle.trace_text.specs.inner.Reading.{BeginsWord, ended};
ghost use Rattle.trace_text.specs.Trace.{asks_nothing, made, where_some};
ghost use Rattle.trace_text.specs.Words.{behind_word, words_of, without_first_spaces};
ghost use Rattle.trace_text.specs.Words.{without_last_spaces};

use crate::fault::EventFault;
use crate::spaces::{without_first_spaces, without_last_spaces, word_len};
use crate::word::Word;

// The words of a line that are left.
#[derive(Drop)]
pub struct Words<'a> {
    // What stands behind the last word that was read.
    text: &'a [u8],
    // The number of the next word.
    number: u32,
    ghost counted: { number + length text.now < 2 ^ 32 },
}

impl<'a> Words<'a> {
    // The words of a text, counted from 1.
    pub fn new(text: &'a [u8]) -> Self
        requires { length text.now ≤ 4096 }
        ensures text { result.text.now ≡ text.now }
        ensures number { result.number ≡ 1 }
    {
        Words { text, number: 1 }
    }

    // The next word; where none is left, the fault that it is missing.
    pub fn next(&mut self) -> Result<Word<'a>, EventFault>
        ensures word { MatchResult result
            (λ word. words_of self.old.text.now ≡ word.text.now ∷ words_of self.new.text.now)
            (λ _. words_of self.old.text.now ≡ []) }
        ensures fault { MatchResult result (λ word. word.number ≡ self.old.number)
            (λ fault. fault ≡ BadWord self.old.number) }
        ensures number { OnOk result (self.new.number ≡ self.old.number + 1) }
        ensures behind { OnOk result (self.new.text.now ≡ behind_word self.old.text.now) }
    {
        let number = self.number;
        let Some(begun) = self.begun() else {
            return Err(EventFault::BadWord { word: number });
        };
        let (text, behind) = begun.split_at(word_len(begun));
        self.text = behind;
        self.number = number + 1;
        Ok(Word { text, number })
    }

    // Nothing where no word is left; else the fault that there is a further one.
    pub fn end(&self) -> Result<(), EventFault>
        ensures { result ≡ ended self.now.number (words_of self.now.text.now) }
    {
        match self.begun() {
            None => Ok(()),
            Some(_) => Err(EventFault::BadWord { word: self.number }),
        }
    }

    // Whether a line that goes on like this asks for nothing.
    pub fn ask_nothing(&self) -> bool
        ensures { result ≡ asks_nothing (words_of self.now.text.now) }
    {
        match self.begun() {
            None => true,
            Some(begun) => begun[0] == b'#',
        }
    }

    // What is left from the next word on, unless no word is.
    fn begun(&self) -> Option<&'a [u8]>
        ensures { MatchOption result (words_of self.now.text.now ≡ [])
            (λ begun. BeginsWord self.now.text.now begun.now) }
    {
        let begun = without_first_spaces(self.text);
        if begun.is_empty() { None } else { Some(begun) }
    }

    // What is left as it stands, without the spaces at its ends; where no word is left, the fault
    // that the next one is missing.
    pub fn rest(&self) -> Result<&'a [u8], EventFault>
        ensures { made (λ rest. rest.now) result
            ≡ where_some self.now.number (words_of self.now.text.now)
            (without_last_spaces (without_first_spaces self.now.text.now)) }
    {
        match self.begun() {
            Some(begun) => Ok(without_last_spaces(begun)),
            None => Err(EventFault::BadWord { word: self.number }),
        }
    }
}
