use lists::NoMemory;
use pair_io::Failed;

/// Why the nodes of a certificate weren't written to their end.
#[derive(Clone, Copy, Debug, PartialEq, Eq)]
pub enum MakeFault {
    /// The sink failed.
    WriteFault,
    /// There was no memory.
    NoMemory,
}

impl From<NoMemory> for MakeFault {
    ghost use Rattle.std.specs.Prelude.{◌≡◌};
    ghost use Rattle.cert_make.specs.declared.fault.MakeFault.{MakeFault};

    ghost from_gives = { λ _ fault. fault ≡ MakeFault.NoMemory };

    fn from(_: NoMemory) -> MakeFault {
        MakeFault::NoMemory
    }
}

impl From<Failed> for MakeFault {
    ghost use Rattle.std.specs.Prelude.{◌≡◌};
    ghost use Rattle.cert_make.specs.declared.fault.MakeFault.{MakeFault};

    ghost from_gives = { λ _ fault. fault ≡ MakeFault.WriteFault };

    fn from(_: Failed) -> MakeFault {
        MakeFault::WriteFault
    }
}
