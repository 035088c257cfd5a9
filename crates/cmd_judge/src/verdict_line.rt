ghost use Rattle.cmd_judge.specs.Judge.{numbered};

use audit_frame::NoMemory;
use itoa::Buffer;
use spd_line::Answer;
use spd_text::Printed;

// A verdict, behind the number of the trace line of its packet.
#[derive(Clone, Copy)]
pub struct VerdictLine {
    pub number: u64,
    pub answer: Answer,
}

impl Printed for VerdictLine {
    ghost printed = { λ line. numbered line.number line.answer };

    fn append(&self, text: &mut Vec<u8>) -> Result<(), NoMemory> {
        text.extend_from_slice(Buffer::new().format(self.number).as_bytes())?;
        text.extend_from_slice(b" ")?;
        self.answer.print(text)?;
        Ok(())
    }
}
