ghost use Rattle.std.specs.Prelude.{◌≡◌, ◌++◌, OnErr, OnOk};
ghost use Rattle.spd_views.specs.EntryText.{entry_text};

use lists::NoMemory;
use sel_box::Direction;
use spd_cut::Entry;
use spd_line::{Answer, Name};
use spd_text::{Printed, direction_word};

/// Appends an entry of a direction, without an end of line: the word of the direction; the local
/// and the remote addresses, each as the first and the last with `-` between them; the protocols,
/// the local and the remote fields, each as `any`, one value, or the first and the last; its
/// judgement; and the given name, that of the policy line that it comes from. OPAQUE is `opaque`
/// (RFC 4301 section 4.4.1.1), and fields are plain numbers for every protocol. Takes memory only
/// where the text has to grow; where there is none, the text is unchanged.
pub fn print_entry(
    direction: Direction,
    entry: &Entry,
    name: &Name,
    text: &mut Vec<u8>,
) -> Result<(), NoMemory>
    ensures ok { OnOk result
        (text.new.items ≡ text.old.items ++ entry_text direction entry.now name.now) }
    ensures err { OnErr result (text.new.items ≡ text.old.items) }
{
    NamedEntry {
        direction,
        entry,
        name,
    }
    .print(text)
}

// An entry of a direction, with the name of its policy line.
#[derive(Clone, Copy)]
struct NamedEntry<'a> {
    direction: Direction,
    entry: &'a Entry,
    name: &'a Name,
}

impl Printed for NamedEntry<'_> {
    ghost printed = { λ named. entry_text named.direction named.entry.now named.name.now };

    fn append(&self, text: &mut Vec<u8>) -> Result<(), NoMemory> {
        let answer = Answer {
            name: *self.name,
            judgement: self.entry.judgement,
        };
        text.extend_from_slice(direction_word(self.direction).as_bytes())?;
        text.extend_from_slice(b" ")?;
        self.entry.region.print(text)?;
        text.extend_from_slice(b" ")?;
        answer.print(text)?;
        Ok(())
    }
}
