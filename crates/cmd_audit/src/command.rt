ghost use Rattle.std.specs.Prelude.{◌≡◌};
ghost use Rattle.audit_frame.specs.Causes.{reads};
ghost use Rattle.audit_frame.specs.Runs.{Runs};
ghost use Rattle.cmd_audit.specs.Audit.{audit_answer, audit_files, audit_in};

use crate::writing::write_answer;
use audit_frame::{Ended, MOST_LIMIT, NamedFile, cut, load_policy, read_count};
use pair_io::{Files, Sink, WordList};
use sel_box::Direction;
use std::alloc::Global;

/// The words of the command: a limit, and the policies of two gateways.
#[derive(Debug, Drop)]
pub struct Audit<'a> {
    limit: u32,
    policy_a: NamedFile<'a>,
    policy_b: NamedFile<'a>,
}

/// How the command ends by itself.
#[derive(Clone, Copy, Debug, PartialEq, Eq)]
pub enum AuditEnd {
    /// B judges each packet that comes in as A does when it goes out.
    Agree,
    /// Some packet is judged differently.
    Differ,
}

impl<'a> Audit<'a> {
    /// The command of some words: `audit`, a limit from 1 to 200,000, and the names of two
    /// policies, neither empty; `None` of all other words. Takes no memory.
    pub fn from_words(words: &'a WordList) -> Option<Self>
        ensures { result ≡ audit_in words.now }
    {
        match words.as_slice() {
            [command, limit, policy_a, policy_b] if command.as_str() == "audit" => Some(Audit {
                limit: read_count(limit.as_str(), MOST_LIMIT)?,
                policy_a: NamedFile::new(3, policy_a.as_str())?,
                policy_b: NamedFile::new(4, policy_b.as_str())?,
            }),
            _ => None,
        }
    }

    /// Writes a certificate where B judges each packet that comes in as A does when it goes out
    /// (RFC 4301 section 5): `agree`, and the nodes of `cert_make::make`. Otherwise writes `differ`
    /// with the least packet that is judged differently, in the order of family, source,
    /// destination, protocol and fields, and both verdicts on it.
    ///
    /// A's policy is loaded and cut outbound before B's is loaded, which is cut inbound alone. Then
    /// it takes what `cert_make::agree` takes; where they agree also what `make` takes, and else
    /// time by the number of A's entries and of the pairs that meet and are judged differently, and
    /// memory for a tree of B's entries.
    pub fn run<F: Files, O: Sink>(
        &self,
        alloc: Global,
        files: &mut F,
        out: &mut O,
    ) -> Ended<AuditEnd>
        ensures { Runs (audit_answer (F.told files.old) self.now) (audit_files self.now)
            (F.told files.old)
            (reads (F.faults files.old) (F.taken files.old) (F.end files.old))
            (reads (F.faults files.new) (F.taken files.new) (F.end files.new))
            (O.faults out.old) (O.faults out.new) (O.told out.old) (O.told out.new) result }
    {
        let limit = self.limit;
        let a = load_policy(alloc, files, &self.policy_a)?;
        let outbound = cut(alloc, self.policy_a.word(), &a, Direction::Outbound, limit)?;
        let b = load_policy(alloc, files, &self.policy_b)?;
        let inbound = cut(alloc, self.policy_b.word(), &b, Direction::Inbound, limit)?;
        let end = write_answer(alloc, &a, &b, outbound.as_slice(), inbound.as_slice(), out)?;
        Ok(end)
    }
}
