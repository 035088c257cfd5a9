ghost use Rattle.std.specs.Prelude.{◌≡◌, ◌≤◌};
ghost use Rattle.audit_frame.specs.Words.{count_in};

use audit_frame::read_count;
use std::marker::Model;

// The most bytes that a certificate may be allowed.
const LIMIT: u32 = 1_073_741_824;

// The most bytes of a certificate, from 1 to 1,073,741,824.
#[derive(Debug, Drop)]
pub struct MostBytes {
    number: u32,
}

impl Model for MostBytes {
    ghost use Rattle.std.specs.Prelude.{ℕ, ◌≤◌};

    ghost Value = { ℕ };

    ghost view = { λ m. m.number };

    ghost invariant = { λ m. m.number ≤ 1073741824 };
}

impl MostBytes {
    // The number that a word writes, where it is one of these.
    pub fn of_word(word: &str) -> Option<Self>
        ensures { result ≡ count_in 1073741824 word.now }
    {
        let number = read_count(word, LIMIT)?;
        Some(MostBytes { number })
    }

    // The number.
    pub fn get(&self) -> u64
        ensures value { result ≡ self.now }
        ensures within { result ≤ 1073741824 }
    {
        u64::from(self.number)
    }
}
