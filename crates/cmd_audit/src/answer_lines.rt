ghost use Rattle.std.specs.Prelude.{◌≡◌, ◌++◌, codes, OnOk};
ghost use Rattle.spd_text.specs.JudgementText.{verdict_text};
ghost use Rattle.spd_text.specs.PacketText.{packet_text};

use audit_frame::{NoMemory, PrintedLines};
use sel_box::Packet;
use spd_line::Answer;
use spd_text::Printed;

// That both policies agree.
pub struct Agreement;

impl Printed for Agreement {
    ghost use Rattle.std.specs.Prelude.{codes};

    ghost printed = { λ _. codes "agree" };

    fn append(&self, text: &mut Vec<u8>) -> Result<(), NoMemory> {
        text.extend_from_slice(b"agree")?;
        Ok(())
    }
}

// The lines of a packet that two policies judge differently.
#[derive(Clone, Copy)]
pub struct GapLines {
    pub packet: Packet,
    pub a: Answer,
    pub b: Answer,
}

impl PrintedLines for GapLines {
    ghost use Rattle.cmd_audit.specs.Audit.{gap_lines};

    ghost lines = { λ gap. gap_lines gap.packet gap.a gap.b };

    fn count(&self) -> usize {
        4
    }

    fn append(&self, index: usize, text: &mut Vec<u8>) -> Result<(), NoMemory> {
        match index {
            0 => append_head(text),
            1 => append_packet(&self.packet, text),
            2 => append_verdict(b"a ", &self.a, text),
            _ => append_verdict(b"b ", &self.b, text),
        }
    }
}

// Puts the line that says that they differ at the end of a text.
fn append_head(text: &mut Vec<u8>) -> Result<(), NoMemory>
    ensures { OnOk result (text.new.items ≡ text.old.items ++ (codes "differ" ++ codes "\n")) }
{
    text.extend_from_slice(b"differ")?;
    text.extend_from_slice(b"\n")?;
    Ok(())
}

// Puts the line of a packet at the end of a text.
fn append_packet(packet: &Packet, text: &mut Vec<u8>) -> Result<(), NoMemory>
    ensures { OnOk result (text.new.items
        ≡ text.old.items ++ ((codes "packet " ++ packet_text packet.now) ++ codes "\n")) }
{
    text.extend_from_slice(b"packet ")?;
    packet.print(text)?;
    text.extend_from_slice(b"\n")?;
    Ok(())
}

// Puts the line of a verdict at the end of a text, behind a word.
fn append_verdict(word: &[u8], verdict: &Answer, text: &mut Vec<u8>) -> Result<(), NoMemory>
    ensures { OnOk result (text.new.items
        ≡ text.old.items ++ ((word.now ++ verdict_text verdict.now) ++ codes "\n")) }
{
    text.extend_from_slice(word)?;
    verdict.print(text)?;
    text.extend_from_slice(b"\n")?;
    Ok(())
}
