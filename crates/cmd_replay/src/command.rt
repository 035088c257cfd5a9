use crate::TraceFault;
use crate::compiling::{compile, machine_of};
use crate::tracing::replay_trace;
use audit_frame::{Ended, MOST_LIMIT, NamedFile, load_file, load_policy, read_count};
use pair_io::{Files, Sink, WordList};
use spd_cache::MOST_GROUPS;
use spd_lanes::Shared;
use std::alloc::Global;
use std::marker::Model;

// The most bytes of a trace.
const MOST_TRACE: u64 = 67_108_864;

/// The words of the command: a limit of the entries, a capacity of the cache, a policy and a trace.
#[derive(Debug, Drop)]
pub struct Replay<'a> {
    limit: u32,
    capacity: u32,
    policy: NamedFile<'a>,
    trace: NamedFile<'a>,
}

impl<'a> Model for Replay<'a> {
    ghost use Rattle.std.specs.Prelude.{◌≤◌};
    ghost use Rattle.cmd_replay.specs.Words.{ReplayWords};

    ghost Value = { ReplayWords };

    ghost view = { λ r. record {
      limit = r.limit;
      capacity = r.capacity;
      policy = r.policy;
      trace = r.trace;
    } };

    ghost invariant = { λ r. (1 ≤ r.capacity) × (r.capacity ≤ 4096) };
}

/// How the command ends by itself.
#[derive(Drop)]
pub enum ReplayEnd {
    /// The trace was replayed to its end, and the machine is the one after all events.
    Done(Shared),
    /// A line of the trace, counted from 1, is refused.
    TraceFault { line: u64, fault: TraceFault },
}

impl<'a> Replay<'a> {
    ghost use Rattle.std.specs.Prelude.{◌≡◌};
    ghost use Rattle.audit_frame.specs.Causes.{reads};
    ghost use Rattle.audit_frame.specs.Runs.{Runs};
    ghost use Rattle.cmd_replay.specs.Replay.{replay_answer};
    ghost use Rattle.cmd_replay.specs.Words.{replay_files, replay_in};

    /// The command of some words: `replay`, a limit from 1 to 200,000, a capacity from 1 to 4,096,
    /// and the names of a policy and of a trace, neither empty; `None` of all other words. Takes no
    /// memory.
    pub fn from_words(words: &'a WordList) -> Option<Self>
        ensures { result ≡ replay_in words.now }
    {
        match words.as_slice() {
            [command, limit, capacity, policy, trace] if command.as_str() == "replay" => {
                Some(Replay {
                    limit: read_count(limit.as_str(), MOST_LIMIT)?,
                    capacity: read_count(capacity.as_str(), MOST_GROUPS as u32)?,
                    policy: NamedFile::new(4, policy.as_str())?,
                    trace: NamedFile::new(5, trace.as_str())?,
                })
            }
            _ => None,
        }
    }

    /// Gives each event of the trace to the shared machine of the policy (`spd_lanes::Shared`, RFC
    /// 4301 sections 4.4.1, 4.4.2 and 5), and writes for each the number of its line and the
    /// machine's reply, up to the first line of the trace that is refused. The machine begins with
    /// an empty cache of so many groups, and idle lanes; after the last event it is handed out.
    ///
    /// Where a count of entries passes the limit, the run ends: before the trace is opened, where
    /// the policy is cut first, or at the trace line of the edit that makes it so, with that line's
    /// number. That edit has changed nothing.
    ///
    /// Loads each file whole, in one pass. Then it takes, for each event, the time and the memory
    /// that the machine says (`spd_lanes::Shared`); an edit cuts the whole policy anew. One event
    /// at a time is read and printed, with no memory of its own but for the longest output line.
    pub fn run<F: Files, O: Sink>(
        &self,
        alloc: Global,
        files: &mut F,
        out: &mut O,
    ) -> Ended<ReplayEnd>
        ensures { Runs (replay_answer (F.told files.old) self.now) (replay_files self.now)
            (F.told files.old)
            (reads (F.faults files.old) (F.taken files.old) (F.end files.old))
            (reads (F.faults files.new) (F.taken files.new) (F.end files.new))
            (O.faults out.old) (O.faults out.new) (O.told out.old) (O.told out.new) result }
    {
        let word = self.policy.word();
        let lines = load_policy(alloc, files, &self.policy)?;
        let compiled = compile(alloc, word, lines, self.limit)?;
        let trace = load_file(alloc, files, &self.trace, MOST_TRACE)?;
        let shared = machine_of(alloc, compiled, self.capacity)?;
        replay_trace(alloc, word, shared, trace.as_slice(), out)
    }
}
