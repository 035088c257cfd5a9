use pair_io::{Failed, NoMemory};
use sel_box::Direction;
use spd_file::PolicyFault;

/// Why a command came to no answer of its own. Words are counted from 1, the command being the
/// first.
#[derive(Clone, Copy, Debug, PartialEq, Eq)]
pub enum Refusal {
    /// The policy file that the word names is refused; the fault is never a lack of memory.
    PolicyFault {
        word: u32,
        fault: PolicyFault,
    },
    /// The file that the word names has more bytes than it may.
    TooLong {
        word: u32,
    },
    /// More entries than LIMIT come up while the policy that the word names is cut in a direction:
    /// at one of its lines, counted from 1, and where a trace line's edit made it so, at that trace
    /// line.
    EntryLimit {
        word: u32,
        direction: Direction,
        line: u32,
        at: Option<u64>,
    },
    /// The file that the word names couldn't be read.
    ReadFault {
        word: u32,
    },
    /// The text couldn't be written.
    WriteFault,
    /// There was no memory.
    NoMemory,
}

/// Why a text was not written to its end.
#[derive(Clone, Copy, Debug, PartialEq, Eq)]
pub enum WriteRefused {
    /// The sink failed.
    WriteFault,
    /// There was no memory for a line.
    NoMemory,
}

impl From<NoMemory> for WriteRefused {
    ghost use Rattle.std.specs.Prelude.{◌≡◌};
    ghost use Rattle.audit_frame.specs.declared.refusal.WriteRefused.{WriteRefused};

    ghost from_gives = { λ _ refused. refused ≡ WriteRefused.NoMemory };

    fn from(_: NoMemory) -> WriteRefused {
        WriteRefused::NoMemory
    }
}

impl From<Failed> for WriteRefused {
    ghost use Rattle.std.specs.Prelude.{◌≡◌};
    ghost use Rattle.audit_frame.specs.declared.refusal.WriteRefused.{WriteRefused};

    ghost from_gives = { λ _ refused. refused ≡ WriteRefused.WriteFault };

    fn from(_: Failed) -> WriteRefused {
        WriteRefused::WriteFault
    }
}

impl From<NoMemory> for Refusal {
    ghost use Rattle.std.specs.Prelude.{◌≡◌};
    ghost use Rattle.audit_frame.specs.declared.refusal.Refusal.{Refusal};

    ghost from_gives = { λ _ refusal. refusal ≡ Refusal.NoMemory };

    fn from(_: NoMemory) -> Refusal {
        Refusal::NoMemory
    }
}

impl From<WriteRefused> for Refusal {
    ghost use Rattle.std.specs.Prelude.{◌≡◌};
    ghost use Rattle.audit_frame.specs.Ends.{unwritten};

    ghost from_gives = { λ refused refusal. refusal ≡ unwritten refused };

    fn from(refused: WriteRefused) -> Refusal {
        match refused {
            WriteRefused::WriteFault => Refusal::WriteFault,
            WriteRefused::NoMemory => Refusal::NoMemory,
        }
    }
}
