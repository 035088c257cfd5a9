ghost use Rattle.std.specs.Prelude.{◌≡◌, ◌<◌, ◌≤◌, length, OnOk, IfOk, IfSome};
ghost use Rattle.pair_io.specs.Counts.{Rose, NoneFell};
ghost use Rattle.pair_io.specs.Loading.{OnReadFault, OnTooLong};

use crate::{Bytes, Failed, Files};
use std::alloc::Global;
use std::error::Error;
use std::fmt;

/// How many bytes one read asks for.
const PIECE: usize = 65_536;

/// Why a file was not loaded.
#[derive(Clone, Copy, Debug, PartialEq, Eq, PartialOrd, Ord, Hash)]
pub enum LoadFault {
    /// A read failed.
    ReadFault,
    /// There are more bytes than were allowed.
    TooLong,
    /// There was no memory for the bytes.
    NoMemory,
}

impl fmt::Display for LoadFault {
    ghost use Rattle.std.specs.Prelude.{Some};
    ghost use Rattle.pair_io.specs.Loading.{load_fault_text};

    ghost output = { λ fault. Some (load_fault_text fault) };

    fn fmt<W: fmt::Write>(&self, f: &mut fmt::Formatter<W>) -> fmt::Result {
        f.write_str(match self {
            LoadFault::ReadFault => "cannot read",
            LoadFault::TooLong => "too long",
            LoadFault::NoMemory => "out of memory",
        })
    }
}

impl Error for LoadFault {}

impl From<Failed> for LoadFault {
    ghost use Rattle.pair_io.specs.declared.loading.LoadFault.TheVariants.{ReadFault};

    ghost from_gives = { λ _ fault. fault ≡ ReadFault };

    fn from(_: Failed) -> LoadFault {
        LoadFault::ReadFault
    }
}

impl From<lists::NoMemory> for LoadFault {
    ghost use Rattle.pair_io.specs.declared.loading.LoadFault.TheVariants.{NoMemory};

    ghost from_gives = { λ _ fault. fault ≡ NoMemory };

    fn from(_: lists::NoMemory) -> LoadFault {
        LoadFault::NoMemory
    }
}

/// All bytes of a file, of which there may be `most`. It reads to the end, or until more than
/// `most` bytes came, in time and memory that grow with them. Where it refuses, what was read is
/// dropped. Whatever it answers, the files tell what they told before, and no count has fallen.
pub fn load<F: Files>(
    alloc: Global,
    files: &mut F,
    name: &str,
    most: u64,
) -> Result<Bytes, LoadFault>
    requires { most ≤ 1073741824 }

    // The bytes are the whole content, where that is told; in any case the reads came to an end.
    ensures content { IfOk result (λ bytes. IfSome (F.told files.old name.now) (λ content.
        bytes ≡ content)) }
    ensures within { IfOk result (λ bytes. length bytes ≤ most) }
    ensures whole { OnOk result (Rose (F.dry files.old) (F.dry files.new)) }

    // Each refusal has its cause.
    ensures read_fault { OnReadFault result
        (Rose (F.faults files.old name.now) (F.faults files.new name.now)) }
    ensures too_long { OnTooLong result
        (IfSome (F.told files.old name.now) (λ content. most < length content)) }
    ensures too_long_taken { OnTooLong result (Rose (F.taken files.old) (F.taken files.new)) }
    ensures too_long_end { OnTooLong result (most < F.end files.new) }

    // What stays, and what doesn't fall.
    ensures told { F.told files.new ≡ F.told files.old }
    ensures faults { NoneFell (F.faults files.old) (F.faults files.new) }
    ensures taken { F.taken files.old ≤ F.taken files.new }
    ensures dry { F.dry files.old ≤ F.dry files.new }
{
    let mut bytes = Bytes::new(alloc);
    let mut piece = [0u8; PIECE];
    loop {
        let at = bytes.len() as u64;
        let count = files.read(name, at, &mut piece)?;
        if count == 0 {
            return Ok(bytes);
        }
        if most - at < count as u64 {
            return Err(LoadFault::TooLong);
        }
        bytes.extend(&piece[..count])?;
    }
}
