ghost use Rattle.std.specs.Prelude.{◌≡◌, ◌≤◌, length, IfOk, IfErr, IfSome};
ghost use Rattle.pair_io.specs.Counts.{NoneFell};
ghost use Rattle.audit_frame.specs.Causes.{reads};
ghost use Rattle.audit_frame.specs.Loading.{LoadCauses, plain_file};

use crate::{NamedFile, Refusal};
use pair_io::{Bytes, Files, LoadFault, load};
use std::alloc::Global;

/// All bytes of a file that a word names, at most `most` of them, in time and memory that grow with
/// them. Whatever it answers, the files tell what they told before, and no count has fallen.
pub fn load_file<F: Files>(
    alloc: Global,
    files: &mut F,
    file: &NamedFile,
    most: u64,
) -> Result<Bytes, Refusal>
    requires { most ≤ 1073741824 }
    ensures content { IfOk result (λ bytes.
        IfSome (F.told files.old file.now.name) (λ content. bytes ≡ content)) }
    ensures within { IfOk result (λ bytes. length bytes ≤ most) }
    ensures refused { IfErr result (LoadCauses (plain_file file.now most)
        (F.told files.old)
        (reads (F.faults files.old) (F.taken files.old) (F.end files.old))
        (reads (F.faults files.new) (F.taken files.new) (F.end files.new))) }
    ensures told { F.told files.new ≡ F.told files.old }
    ensures faults { NoneFell (F.faults files.old) (F.faults files.new) }
    ensures taken { F.taken files.old ≤ F.taken files.new }
{
    let word = file.word();
    match load(alloc, files, file.name(), most) {
        Ok(bytes) => Ok(bytes),
        Err(LoadFault::ReadFault) => Err(Refusal::ReadFault { word }),
        Err(LoadFault::TooLong) => Err(Refusal::TooLong { word }),
        Err(LoadFault::NoMemory) => Err(Refusal::NoMemory),
    }
}
