use lists::NoMemory;

/// What a certificate shows.
#[derive(Clone, Copy, Debug, PartialEq, Eq)]
pub enum Checked {
    /// Each of its nodes holds, so the two policies agree.
    Accepted,
    /// A node doesn't hold: the first, counted from 1 over both trees.
    Rejected { node: u64 },
}

/// Why a text is no certificate.
#[derive(Clone, Copy, Debug, PartialEq, Eq)]
pub enum CheckFault {
    /// A line, counted from 1, isn't in the grammar, is missing, or is one too many: the first.
    CertFault { line: u64 },
    /// There was no memory.
    NoMemory,
}

impl From<NoMemory> for CheckFault {
    ghost use Rattle.std.specs.Prelude.{◌≡◌};
    ghost use Rattle.cert_check.specs.declared.answer.CheckFault.{CheckFault};

    ghost from_gives = { λ _ fault. fault ≡ CheckFault.NoMemory };

    fn from(_: NoMemory) -> CheckFault {
        CheckFault::NoMemory
    }
}
