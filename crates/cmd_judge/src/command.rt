ghost use Rattle.std.specs.Prelude.{◌≡◌};
ghost use Rattle.audit_frame.specs.Causes.{reads};
ghost use Rattle.audit_frame.specs.Runs.{Runs};
ghost use Rattle.cmd_judge.specs.Judge.{judge_answer, judge_files, judge_in};

use crate::tracing::judge_trace;
use audit_frame::{Ended, NamedFile, load_file, load_policy};
use pair_io::{Files, Sink, WordList};
use std::alloc::Global;
use trace_text::EventFault;

// The most bytes of a trace.
const MOST_TRACE: u64 = 67_108_864;

/// The words of the command: a policy and a trace.
#[derive(Debug, Drop)]
pub struct Judge<'a> {
    policy: NamedFile<'a>,
    trace: NamedFile<'a>,
}

/// Why a trace line is refused.
#[derive(Clone, Copy, Debug, PartialEq, Eq)]
pub enum TraceFault {
    /// Its text is.
    Text(EventFault),
    /// It is another event than a packet, which `judge` doesn't take.
    OnlyPackets,
}

/// How the command ends by itself.
#[derive(Clone, Copy, Debug, PartialEq, Eq)]
pub enum JudgeEnd {
    /// The trace was judged to its end.
    Done,
    /// A line of the trace, counted from 1, is refused.
    TraceFault { line: u64, fault: TraceFault },
}

impl<'a> Judge<'a> {
    /// The command of some words: `judge`, and the names of a policy and of a trace, neither empty;
    /// `None` of all other words. Takes no memory.
    pub fn from_words(words: &'a WordList) -> Option<Self>
        ensures { result ≡ judge_in words.now }
    {
        match words.as_slice() {
            [command, policy, trace] if command.as_str() == "judge" => Some(Judge {
                policy: NamedFile::new(2, policy.as_str())?,
                trace: NamedFile::new(3, trace.as_str())?,
            }),
            _ => None,
        }
    }

    /// Writes for each packet of the trace the number of its line, its verdict and the name of the
    /// first policy line that selects it (RFC 4301 sections 4.4.1 and 5), up to the first line of
    /// the trace that is refused.
    ///
    /// Loads each file whole, in one pass. Then it takes time by the number of packets, and memory
    /// for one output line and for an index of the policy, which finds the first line of a packet
    /// (`spd_index::Index`). A trace of less than 32,768 bytes has none, and each packet takes time
    /// by the number of policy lines up to its first.
    pub fn run<F: Files, O: Sink>(
        &self,
        alloc: Global,
        files: &mut F,
        out: &mut O,
    ) -> Ended<JudgeEnd>
        ensures { Runs (judge_answer (F.told files.old) self.now) (judge_files self.now)
            (F.told files.old)
            (reads (F.faults files.old) (F.taken files.old) (F.end files.old))
            (reads (F.faults files.new) (F.taken files.new) (F.end files.new))
            (O.faults out.old) (O.faults out.new) (O.told out.old) (O.told out.new) result }
    {
        let lines = load_policy(alloc, files, &self.policy)?;
        let trace = load_file(alloc, files, &self.trace, MOST_TRACE)?;
        let end = judge_trace(alloc, &lines, trace.as_slice(), out)?;
        Ok(end)
    }
}
