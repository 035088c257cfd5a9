ghost use Rattle.std.specs.Prelude.{◌≡◌, ◌≤◌, length, None, Ok, IfOk, IfErr, IfSome, OnOk};
ghost use Rattle.pair_io.specs.Counts.{NoneFell};
ghost use Rattle.audit_frame.specs.Answer.{most_policy};
ghost use Rattle.audit_frame.specs.Causes.{reads};
ghost use Rattle.audit_frame.specs.Loading.{LimitCauses, PolicyCauses, policy_file};
ghost use Rattle.spd_cut.specs.Entries.{entries};
ghost use Rattle.spd_cut.specs.StandsFor.{AreLinked};
ghost use Rattle.spd_cut.specs.Steps.{first_over, steps};
ghost use Rattle.spd_file.specs.Policy.{policy_meaning};
ghost use Rattle.spd_line.specs.Policy.{IsPolicy};

use crate::{NamedFile, Refusal, load_file};
use pair_io::Files;
use sel_box::Direction;
use spd_cut::{CutFault, EntryList};
use spd_file::{PolicyFault, read_policy};
use spd_line::LineList;
use std::alloc::Global;

/// The most bytes of a policy file.
pub const MOST_POLICY: u64 = 1_048_576;

/// The lines of a policy file that a word names, at most 4,096, in time and memory that grow with
/// its bytes. Whatever it answers, the files tell what they told before, and no count has fallen.
pub fn load_policy<F: Files>(
    alloc: Global,
    files: &mut F,
    file: &NamedFile,
) -> Result<LineList, Refusal>
    ensures within { OnOk result
        (IfSome (F.told files.old file.now.name) (λ content. length content ≤ most_policy)) }
    ensures lines { IfOk result (λ lines. IfSome (F.told files.old file.now.name)
        (λ content. policy_meaning content ≡ Ok lines)) }
    ensures few { IfOk result (λ lines. length lines ≤ 4096) }
    ensures policy { IfOk result IsPolicy }
    ensures refused { IfErr result (PolicyCauses (policy_file file.now)
        (F.told files.old)
        (reads (F.faults files.old) (F.taken files.old) (F.end files.old))
        (reads (F.faults files.new) (F.taken files.new) (F.end files.new))) }
    ensures told { F.told files.new ≡ F.told files.old }
    ensures faults { NoneFell (F.faults files.old) (F.faults files.new) }
    ensures taken { F.taken files.old ≤ F.taken files.new }
{
    let bytes = load_file(alloc, files, file, MOST_POLICY)?;
    match read_policy(alloc, bytes.as_slice()) {
        Ok(lines) => Ok(lines),
        Err(PolicyFault::NoMemory) => Err(Refusal::NoMemory),
        Err(fault) => Err(Refusal::PolicyFault {
            word: file.word(),
            fault,
        }),
    }
}

/// The entries of a policy in a direction, of the file that the word names, as
/// `spd_cut::decorrelate` gives them in its time and memory.
pub fn cut(
    alloc: Global,
    word: u32,
    lines: &LineList,
    direction: Direction,
    limit: u32,
) -> Result<EntryList, Refusal>
    requires { length lines.now ≤ 4096 }
    ensures entries { IfOk result (λ list. list ≡ entries direction lines.now) }
    ensures links { IfOk result (AreLinked (length lines.now)) }
    ensures within { OnOk result (first_over limit (steps direction lines.now) ≡ None) }
    ensures refused { IfErr result
        (LimitCauses word direction (first_over limit (steps direction lines.now))) }
{
    match spd_cut::decorrelate(alloc, lines, direction, limit) {
        Ok(entries) => Ok(entries),
        Err(CutFault::Limit { line }) => Err(Refusal::EntryLimit {
            word,
            direction,
            line,
            at: None,
        }),
        Err(CutFault::NoMemory) => Err(Refusal::NoMemory),
    }
}
