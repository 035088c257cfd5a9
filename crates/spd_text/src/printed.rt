ghost use Rattle.std.specs.Prelude.{◌≡◌, ℕ, List, ◌++◌, OnErr, OnOk, length, take};

use lists::NoMemory;

/// What has a printed form.
pub trait Printed {
    ghost printed: { Self → List ℕ };

    /// Appends the printed form, part by part. Where there is no memory, a part of it may stand
    /// behind the text.
    fn append(&self, text: &mut Vec<u8>) -> Result<(), NoMemory>
        ensures ok { OnOk result (text.new.items ≡ text.old.items ++ printed self.now) }
        ensures err { OnErr result (take (length text.old.items) text.new.items ≡ text.old.items) };

    /// Appends the printed form. Takes memory only where the text has to grow; where there is none,
    /// the text is unchanged.
    final fn print(&self, text: &mut Vec<u8>) -> Result<(), NoMemory>
        ensures ok { OnOk result (text.new.items ≡ text.old.items ++ printed self.now) }
        ensures err { OnErr result (text.new.items ≡ text.old.items) }
    {
        let before = text.len();
        let outcome = self.append(text);
        if outcome.is_err() {
            text.truncate(before);
        }
        outcome
    }
}
