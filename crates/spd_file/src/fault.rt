use crate::{LineKey, NoMemory, TopKey, Why};
use spd_line::LineFault;
use std::alloc::AllocFailed;
use std::error::Error;
use std::fmt;

/// Why a policy, or a line by itself, is refused: the first of its faults in the order in which
/// they stand here, line by line. Lines are counted from 1; a line by itself is line 1.
#[derive(Clone, Copy, Debug, PartialEq, Eq)]
pub enum PolicyFault {
    /// The text isn't TOML in UTF-8.
    Syntax,
    /// A key of the whole policy is refused.
    Top { key: TopKey, why: Why },
    /// There are more than 4,096 lines.
    TooManyLines,
    /// A key of a line is refused: an unknown key before the others, these in their order.
    Line { index: u32, key: LineKey, why: Why },
    /// Each key of a line is right, and together they make no line.
    Rule { index: u32, fault: LineFault },
    /// An earlier line has the name.
    DuplicateName { index: u32 },
    /// There was no memory. This comes at any point, and says nothing of the policy.
    NoMemory,
}

impl fmt::Display for PolicyFault {
    ghost use Rattle.std.specs.Prelude.{Some};
    ghost use Rattle.spd_file.specs.Fault.{policy_fault_text};

    ghost output = { λ fault. Some (policy_fault_text fault) };

    fn fmt<W: fmt::Write>(&self, f: &mut fmt::Formatter<W>) -> fmt::Result {
        f.write_str(self.text().as_str())
    }
}

impl Error for PolicyFault {}

impl From<NoMemory> for PolicyFault {
    ghost use Rattle.std.specs.Prelude.{◌≡◌};
    ghost use Rattle.spd_file.specs.declared.fault.PolicyFault.{PolicyFault};

    ghost from_gives = { λ _ fault. fault ≡ PolicyFault.NoMemory };

    fn from(_: NoMemory) -> PolicyFault {
        PolicyFault::NoMemory
    }
}

impl<T: Drop> From<AllocFailed<T>> for PolicyFault {
    ghost use Rattle.std.specs.Prelude.{◌≡◌};
    ghost use Rattle.spd_file.specs.declared.fault.PolicyFault.{PolicyFault};

    ghost from_gives = { λ _ fault. fault ≡ PolicyFault.NoMemory };

    fn from(_: AllocFailed<T>) -> PolicyFault {
        PolicyFault::NoMemory
    }
}
