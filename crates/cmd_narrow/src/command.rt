ghost use Rattle.std.specs.Prelude.{◌≡◌};
ghost use Rattle.audit_frame.specs.Causes.{reads};
ghost use Rattle.audit_frame.specs.Runs.{Runs};
ghost use Rattle.cmd_narrow.specs.Narrow.{narrow_answer, narrow_files, narrow_in};

use crate::answering::write_answer;
use audit_frame::{Ended, MOST_LIMIT, NamedFile, cut, load_file, load_policy, read_count};
use pair_io::{Files, Sink, WordList};
use sel_box::Direction;
use std::alloc::Global;
use ts_wire::ProposalFault;

// The most bytes of a proposal.
const MOST_PROPOSAL: u64 = 65_536;

/// The words of the command: a limit, a policy and a proposal.
#[derive(Debug, Drop)]
pub struct Narrow<'a> {
    limit: u32,
    policy: NamedFile<'a>,
    proposal: NamedFile<'a>,
}

/// How the command ends by itself.
#[derive(Clone, Copy, Debug, PartialEq, Eq)]
pub enum NarrowEnd {
    /// The part of the proposal that is accepted was written.
    Done,
    /// Nothing of the proposal is acceptable, and that was written.
    Unacceptable,
    /// The text is no proposal: its first fault, which is never a lack of memory.
    ProposalFault { fault: ProposalFault },
}

impl<'a> Narrow<'a> {
    /// The command of some words: `narrow`, a limit from 1 to 200,000, and the names of a policy
    /// and of a proposal, neither empty; `None` of all other words. Takes no memory.
    pub fn from_words(words: &'a WordList) -> Option<Self>
        ensures { result ≡ narrow_in words.now }
    {
        match words.as_slice() {
            [command, limit, policy, proposal] if command.as_str() == "narrow" => Some(Narrow {
                limit: read_count(limit.as_str(), MOST_LIMIT)?,
                policy: NamedFile::new(3, policy.as_str())?,
                proposal: NamedFile::new(4, proposal.as_str())?,
            }),
            _ => None,
        }
    }

    /// Writes what a responder with this policy accepts of the proposal (RFC 7296 section 2.9): the
    /// name of the line that protects it, the payloads TSi and TSr in hexadecimal digits, and the
    /// notice ADDITIONAL_TS_POSSIBLE where something that the policy protects is left out; or the
    /// refusal TS_UNACCEPTABLE. Of a text that is no proposal nothing is written.
    ///
    /// Loads each file whole. The policy is cut in both directions, outbound first, before the
    /// proposal is loaded, of at most 65,536 bytes. Then it takes the time and memory of
    /// `ts_narrow::narrow`.
    pub fn run<F: Files, O: Sink>(
        &self,
        alloc: Global,
        files: &mut F,
        out: &mut O,
    ) -> Ended<NarrowEnd>
        ensures { Runs (narrow_answer (F.told files.old) self.now) (narrow_files self.now)
            (F.told files.old)
            (reads (F.faults files.old) (F.taken files.old) (F.end files.old))
            (reads (F.faults files.new) (F.taken files.new) (F.end files.new))
            (O.faults out.old) (O.faults out.new) (O.told out.old) (O.told out.new) result }
    {
        let lines = load_policy(alloc, files, &self.policy)?;
        let word = self.policy.word();
        let outbound = cut(alloc, word, &lines, Direction::Outbound, self.limit)?;
        let inbound = cut(alloc, word, &lines, Direction::Inbound, self.limit)?;
        let text = load_file(alloc, files, &self.proposal, MOST_PROPOSAL)?;
        let end = write_answer(
            alloc,
            &lines,
            outbound.as_slice(),
            inbound.as_slice(),
            text.as_slice(),
            out,
        )?;
        Ok(end)
    }
}
