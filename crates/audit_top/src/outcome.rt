ghost use Rattle.std.specs.Prelude.{◌≡◌};
ghost use Rattle.audit_top.specs.Outcome.{status_of};

use crate::TraceFault;
use audit_frame::Refusal;
use cmd_judge::JudgeEnd;
use pair_io::NoMemory;
use sel_box::Direction;
use spd_file::PolicyFault;
use ts_wire::ProposalFault;

/// How a run ended. Words are counted from 1, the command being the first.
#[derive(Clone, Copy, Debug, PartialEq, Eq)]
pub enum Outcome {
    /// The input was read to its end and the text written.
    Done,
    /// Some packet is judged differently by the two policies, and the least one was written.
    Differ,
    /// Nothing of the proposal is acceptable, and that was written.
    Unacceptable,
    /// A node of the certificate doesn't hold: the first, counted from 1.
    Rejected {
        node: u64,
    },
    /// The words are those of no command.
    Usage,
    /// The policy file that the word names is refused.
    PolicyFault {
        word: u32,
        fault: PolicyFault,
    },
    /// A line of the trace, counted from 1, is refused.
    TraceFault {
        line: u64,
        fault: TraceFault,
    },
    /// The text is no proposal: its first fault.
    ProposalFault {
        fault: ProposalFault,
    },
    /// The text is no certificate: its first line, counted from 1, that is none of one.
    CertFault {
        line: u64,
    },
    /// The file that the word names has more bytes than it may.
    TooLong {
        word: u32,
    },
    /// More entries than LIMIT come up while the policy that the word names is cut in a direction:
    /// at one of its lines, counted from 1, and where a trace line's edit made it so, at that trace
    /// line.
    EntryLimit {
        word: u32,
        direction: Direction,
        line: u32,
        at: Option<u64>,
    },
    /// The file that the word names couldn't be read.
    ReadFault {
        word: u32,
    },
    /// The text couldn't be written.
    WriteFault,
    /// There was no memory.
    NoMemory,
}

impl From<NoMemory> for Outcome {
    ghost use Rattle.std.specs.Prelude.{◌≡◌};
    ghost use Rattle.audit_top.specs.declared.outcome.Outcome.{Outcome};

    ghost from_gives = { λ _ outcome. outcome ≡ Outcome.NoMemory };

    fn from(_: NoMemory) -> Outcome {
        Outcome::NoMemory
    }
}

impl From<Refusal> for Outcome {
    ghost use Rattle.std.specs.Prelude.{◌≡◌};
    ghost use Rattle.audit_top.specs.Outcome.{refused};

    ghost from_gives = { λ refusal outcome. outcome ≡ refused refusal };

    fn from(refusal: Refusal) -> Outcome {
        match refusal {
            Refusal::PolicyFault { word, fault } => Outcome::PolicyFault { word, fault },
            Refusal::TooLong { word } => Outcome::TooLong { word },
            Refusal::EntryLimit {
                word,
                direction,
                line,
                at,
            } => Outcome::EntryLimit {
                word,
                direction,
                line,
                at,
            },
            Refusal::ReadFault { word } => Outcome::ReadFault { word },
            Refusal::WriteFault => Outcome::WriteFault,
            Refusal::NoMemory => Outcome::NoMemory,
        }
    }
}

impl From<JudgeEnd> for Outcome {
    ghost use Rattle.std.specs.Prelude.{◌≡◌};
    ghost use Rattle.audit_top.specs.Outcome.{judged};

    ghost from_gives = { λ end outcome. outcome ≡ judged end };

    fn from(end: JudgeEnd) -> Outcome {
        match end {
            JudgeEnd::Done => Outcome::Done,
            JudgeEnd::TraceFault { line, fault } => Outcome::TraceFault {
                line,
                fault: TraceFault::from(fault),
            },
        }
    }
}

/// The exit status of an outcome.
pub fn status(outcome: &Outcome) -> u8
    ensures { result ≡ status_of outcome.now }
{
    match outcome {
        Outcome::Done => 0,
        Outcome::Differ => 1,
        Outcome::Unacceptable => 1,
        Outcome::Rejected { .. } => 1,
        Outcome::Usage => 2,
        Outcome::PolicyFault { .. } => 3,
        Outcome::TraceFault { .. } => 4,
        Outcome::ProposalFault { .. } => 4,
        Outcome::CertFault { .. } => 4,
        Outcome::TooLong { .. } => 4,
        Outcome::EntryLimit { .. } => 5,
        Outcome::ReadFault { .. } => 6,
        Outcome::WriteFault => 7,
        Outcome::NoMemory => 8,
    }
}
