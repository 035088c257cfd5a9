use lists::NoMemory;
use std::error::Error;
use std::fmt;

/// Why a policy isn't cut into entries.
#[derive(Clone, Copy, Debug, PartialEq, Eq)]
pub enum CutFault {
    /// There would be more entries and pieces at once than the limit, first while a box of the line
    /// at this place was cut; the count of the lines plus 1 is `final`.
    Limit { line: u32 },
    /// There was no memory.
    NoMemory,
}

impl fmt::Display for CutFault {
    ghost use Rattle.std.specs.Prelude.{Some};
    ghost use Rattle.spd_cut.specs.Fault.{cut_fault_text};

    ghost output = { λ fault. Some (cut_fault_text fault) };

    fn fmt<W: fmt::Write>(&self, f: &mut fmt::Formatter<W>) -> fmt::Result {
        match self {
            CutFault::Limit { line } => write!(f, "entry limit: line {line}"),
            CutFault::NoMemory => f.write_str("out of memory"),
        }
    }
}

impl Error for CutFault {}

impl From<NoMemory> for CutFault {
    ghost use Rattle.std.specs.Prelude.{◌≡◌};
    ghost use Rattle.spd_cut.specs.declared.fault.CutFault.{CutFault};

    ghost from_gives = { λ _ fault. fault ≡ CutFault.NoMemory };

    fn from(_: NoMemory) -> CutFault {
        CutFault::NoMemory
    }
}
