ghost use Rattle.std.specs.Prelude.{◌≡◌, ◌++◌, OnErr, OnOk};
ghost use Rattle.spd_text.specs.JudgementText.{carriage_text, ipsec_text};
ghost use Rattle.spd_text.specs.JudgementText.{judgement_text, verdict_text};

use crate::Printed;
use lists::NoMemory;
use spd_line::{Answer, Carriage, Ipsec, Judgement};

/// Appends a judgement: `discard`, `bypass`, or `protect` with the protocol and the mode, a tunnel
/// with its gates in the order of travel (RFC 4301 section 5). Takes memory only where the text has
/// to grow; where there is none, the text is unchanged.
pub fn print_judgement(judgement: &Judgement, text: &mut Vec<u8>) -> Result<(), NoMemory>
    ensures ok { OnOk result (text.new.items ≡ text.old.items ++ judgement_text judgement.now) }
    ensures err { OnErr result (text.new.items ≡ text.old.items) }
{
    judgement.print(text)
}

impl Printed for Judgement {
    ghost printed = { judgement_text };

    fn append(&self, text: &mut Vec<u8>) -> Result<(), NoMemory> {
        match self {
            Judgement::Discard => text.extend_from_slice(b"discard")?,
            Judgement::Bypass => text.extend_from_slice(b"bypass")?,
            Judgement::Protect { ipsec, carriage } => {
                text.extend_from_slice(b"protect ")?;
                text.extend_from_slice(ipsec_word(*ipsec).as_bytes())?;
                carriage.print(text)?;
            }
        }
        Ok(())
    }
}

fn ipsec_word(ipsec: Ipsec) -> &'static str
    ensures { result.now ≡ ipsec_text ipsec }
{
    match ipsec {
        Ipsec::Esp => "esp",
        Ipsec::Ah => "ah",
    }
}

impl Printed for Carriage {
    ghost printed = { carriage_text };

    fn append(&self, text: &mut Vec<u8>) -> Result<(), NoMemory> {
        match self {
            Carriage::Transport => text.extend_from_slice(b" transport")?,
            Carriage::Tunnel { first, second } => {
                text.extend_from_slice(b" tunnel ")?;
                sel_text::print_address(first, text)?;
                text.extend_from_slice(b" ")?;
                sel_text::print_address(second, text)?;
            }
        }
        Ok(())
    }
}

/// A verdict: the judgement and the name, with a space between them.
impl Printed for Answer {
    ghost printed = { verdict_text };

    fn append(&self, text: &mut Vec<u8>) -> Result<(), NoMemory> {
        self.judgement.print(text)?;
        text.extend_from_slice(b" ")?;
        text.extend_from_slice(self.name.as_bytes())?;
        Ok(())
    }
}
