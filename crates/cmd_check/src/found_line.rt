ghost use Rattle.cmd_check.specs.Check.{found_text};

use audit_frame::NoMemory;
use cert_check::Checked;
use itoa::Buffer;
use spd_text::Printed;

// What a certificate shows, as it is printed: `accepted`, or `rejected` and the number of a node.
#[derive(Clone, Copy)]
pub struct FoundLine {
    pub found: Checked,
}

impl Printed for FoundLine {
    ghost printed = { λ line. found_text line.found };

    fn append(&self, text: &mut Vec<u8>) -> Result<(), NoMemory> {
        match self.found {
            Checked::Accepted => text.extend_from_slice(b"accepted")?,
            Checked::Rejected { node } => {
                text.extend_from_slice(b"rejected ")?;
                text.extend_from_slice(Buffer::new().format(node).as_bytes())?;
            }
        }
        Ok(())
    }
}
