ghost use Rattle.std.specs.Prelude.{◌≡◌};
ghost use Rattle.audit_frame.specs.Causes.{reads};
ghost use Rattle.audit_frame.specs.Runs.{Runs};
ghost use Rattle.cmd_decorrelate.specs.Decorrelate.{decorrelate_answer, decorrelate_files};
ghost use Rattle.cmd_decorrelate.specs.Decorrelate.{decorrelate_in};

use crate::view_lines::write_views;
use audit_frame::{Ended, MOST_LIMIT, NamedFile, cut, load_policy, read_count};
use pair_io::{Files, Sink, WordList};
use sel_box::Direction;
use std::alloc::Global;

/// The words of the command: a limit and a policy.
#[derive(Debug, Drop)]
pub struct Decorrelate<'a> {
    limit: u32,
    policy: NamedFile<'a>,
}

impl<'a> Decorrelate<'a> {
    /// The command of some words: `decorrelate`, a limit from 1 to 200,000, and the name of a
    /// policy, which isn't empty; `None` of all other words. Takes no memory.
    pub fn from_words(words: &'a WordList) -> Option<Self>
        ensures { result ≡ decorrelate_in words.now }
    {
        match words.as_slice() {
            [command, limit, policy] if command.as_str() == "decorrelate" => Some(Decorrelate {
                limit: read_count(limit.as_str(), MOST_LIMIT)?,
                policy: NamedFile::new(3, policy.as_str())?,
            }),
            _ => None,
        }
    }

    /// Writes the entries that stand for the policy, of which no two of a direction have a point in
    /// common, as SPD-S, SPD-O and SPD-I. Both directions are cut before anything is written.
    ///
    /// Loads the file whole. Then it takes time by the number of boxes of the policy times the
    /// pieces that each is in when the earlier ones are cut from it, at most the limit, and memory
    /// by the limit.
    pub fn run<F: Files, O: Sink>(&self, alloc: Global, files: &mut F, out: &mut O) -> Ended<()>
        ensures { Runs (decorrelate_answer (F.told files.old) self.now)
            (decorrelate_files self.now) (F.told files.old)
            (reads (F.faults files.old) (F.taken files.old) (F.end files.old))
            (reads (F.faults files.new) (F.taken files.new) (F.end files.new))
            (O.faults out.old) (O.faults out.new) (O.told out.old) (O.told out.new) result }
    {
        let lines = load_policy(alloc, files, &self.policy)?;
        let word = self.policy.word();
        let outbound = cut(alloc, word, &lines, Direction::Outbound, self.limit)?;
        let inbound = cut(alloc, word, &lines, Direction::Inbound, self.limit)?;
        write_views(alloc, &lines, outbound.as_slice(), inbound.as_slice(), out)?;
        Ok(())
    }
}
