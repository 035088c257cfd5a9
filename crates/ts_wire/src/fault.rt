ghost use Rattle.std.specs.Prelude.{◌≡◌, ◌≤◌, [], length};
ghost use Rattle.ts_wire.specs.Fault.{line_text, proposal_fault_text};

use arrayvec::ArrayString;
use itoa::Buffer;
use lists::NoMemory;
use std::error::Error;
use std::fmt;
use ts_payload::TsFault;

/// Why bytes are no proposal: the first of its faults, in the order in which they stand here, but
/// all of line 1 before those of line 2.
#[derive(Clone, Copy, Debug, PartialEq, Eq)]
pub enum ProposalFault {
    /// There are not two lines.
    Lines,
    /// The line isn't an even number of hexadecimal digits.
    Hex { line: u32 },
    /// The bytes of the line are no traffic selector payload.
    Payload { line: u32, fault: TsFault },
    /// There was no memory. This says nothing of the proposal.
    NoMemory,
}

impl ProposalFault {
    /// What is printed of the fault, kept in place. It takes no memory.
    pub fn text(self) -> ArrayString<54>
        ensures { result.bytes ≡ proposal_fault_text self }
    {
        let mut text = ArrayString::new();
        match self {
            ProposalFault::Lines => text.push_str("not two lines"),
            ProposalFault::Hex { line } => push_line(&mut text, line, "not hex"),
            ProposalFault::Payload { line, fault } => {
                push_line(&mut text, line, fault.text().as_str())
            }
            ProposalFault::NoMemory => text.push_str("out of memory"),
        }
        text
    }
}

// Writes into an empty text what is wrong with the line with this number.
fn push_line(text: &mut ArrayString<54>, line: u32, what: &str)
    requires empty { text.old.bytes ≡ [] }
    requires short { length what.now ≤ 37 }
    ensures { text.new.bytes ≡ line_text line what.now }
{
    let mut digits = Buffer::new();
    text.push_str("line ");
    text.push_str(digits.format(line));
    text.push_str(": ");
    text.push_str(what);
}

impl fmt::Display for ProposalFault {
    ghost use Rattle.std.specs.Prelude.{Some};

    ghost output = { λ fault. Some (proposal_fault_text fault) };

    fn fmt<W: fmt::Write>(&self, f: &mut fmt::Formatter<W>) -> fmt::Result {
        f.write_str(self.text().as_str())
    }
}

impl Error for ProposalFault {}

impl From<NoMemory> for ProposalFault {
    ghost use Rattle.std.specs.Prelude.{◌≡◌};
    ghost use Rattle.ts_wire.specs.declared.fault.ProposalFault.{ProposalFault};

    ghost from_gives = { λ _ fault. fault ≡ ProposalFault.NoMemory };

    fn from(_: NoMemory) -> ProposalFault {
        ProposalFault::NoMemory
    }
}
