ghost use Rattle.std.specs.Prelude.{◌≡◌, ◌++◌, codes, OnOk};

use audit_frame::{NoMemory, PrintedLines};
use spd_line::Name;
use spd_text::Printed;

// That nothing of the proposal is acceptable.
pub struct NothingAcceptable;

impl Printed for NothingAcceptable {
    ghost use Rattle.std.specs.Prelude.{codes};

    ghost printed = { λ _. codes "unacceptable 38" };

    fn append(&self, text: &mut Vec<u8>) -> Result<(), NoMemory> {
        text.extend_from_slice(b"unacceptable 38")?;
        Ok(())
    }
}

// The lines of what is accepted: the name of a policy line, both payloads in hexadecimal digits,
// and whether the notice of more comes behind them.
#[derive(Drop)]
pub struct PairLines {
    pub name: Name,
    pub tsi: String,
    pub tsr: String,
    pub additional: bool,
}

impl PrintedLines for PairLines {
    ghost use Rattle.std.specs.String.{string_bytes};
    ghost use Rattle.cmd_narrow.specs.Narrow.{digit_lines};

    ghost lines = { λ pair.
        digit_lines pair.name (string_bytes pair.tsi) (string_bytes pair.tsr) pair.additional };

    fn count(&self) -> usize {
        if self.additional { 4 } else { 3 }
    }

    fn append(&self, index: usize, text: &mut Vec<u8>) -> Result<(), NoMemory> {
        match index {
            0 => append_words(b"narrowed ", self.name.as_bytes(), text),
            1 => append_words(b"tsi ", self.tsi.as_bytes(), text),
            2 => append_words(b"tsr ", self.tsr.as_bytes(), text),
            _ => append_words(b"additional ", b"16386", text),
        }
    }
}

// Puts a line of two words at the end of a text, the first with the space behind it.
fn append_words(first: &[u8], second: &[u8], text: &mut Vec<u8>) -> Result<(), NoMemory>
    ensures { OnOk result
        (text.new.items ≡ text.old.items ++ ((first.now ++ second.now) ++ codes "\n")) }
{
    text.extend_from_slice(first)?;
    text.extend_from_slice(second)?;
    text.extend_from_slice(b"\n")?;
    Ok(())
}
