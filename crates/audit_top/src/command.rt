ghost use Rattle.std.specs.Prelude.{◌≡◌, ◌≢◌, None, Some};
ghost use Rattle.audit_frame.specs.Causes.{reads};
ghost use Rattle.audit_frame.specs.Runs.{Runs};
ghost use Rattle.audit_top.specs.Command.{IsKept, Means, answer_of, command_in, files_of};
ghost use Rattle.audit_top.specs.Outcome.{ended_by, left_by, replayed};
ghost use Rattle.audit_top.specs.declared.outcome.Outcome.{Outcome};

use crate::{Outcome, TraceFault};
use cmd_audit::{Audit, AuditEnd};
use cmd_check::{Check, CheckEnd};
use cmd_decorrelate::Decorrelate;
use cmd_judge::Judge;
use cmd_narrow::{Narrow, NarrowEnd};
use cmd_replay::{Replay, ReplayEnd};
use pair_io::{Files, Sink, WordList};
use spd_lanes::Shared;
use std::alloc::Global;

// A command with its words.
#[derive(Debug, Drop)]
pub enum Command<'a> {
    Judge(Judge<'a>),
    Decorrelate(Decorrelate<'a>),
    Replay(Replay<'a>),
    Narrow(Narrow<'a>),
    Audit(Audit<'a>),
    Check(Check<'a>),
}

impl<'a> Command<'a> {
    // The command that the words are.
    pub fn from_words(words: &'a WordList) -> Option<Self>
        ensures { result ≡ command_in words.now }
    {
        if let Some(judge) = Judge::from_words(words) {
            return Some(Command::Judge(judge));
        }
        if let Some(decorrelate) = Decorrelate::from_words(words) {
            return Some(Command::Decorrelate(decorrelate));
        }
        if let Some(replay) = Replay::from_words(words) {
            return Some(Command::Replay(replay));
        }
        if let Some(narrow) = Narrow::from_words(words) {
            return Some(Command::Narrow(narrow));
        }
        if let Some(audit) = Audit::from_words(words) {
            return Some(Command::Audit(audit));
        }
        Check::from_words(words).map(Command::Check)
    }

    // Runs the command. A machine that ran to the end of a trace is kept.
    pub fn run<F: Files, O: Sink>(
        &self,
        alloc: Global,
        files: &mut F,
        out: &mut O,
        kept: &mut Option<Shared>,
    ) -> Outcome
        requires { kept.old ≡ None }
        ensures runs { Runs (answer_of (F.told files.old) self.now) (files_of self.now)
            (F.told files.old)
            (reads (F.faults files.old) (F.taken files.old) (F.end files.old))
            (reads (F.faults files.new) (F.taken files.new) (F.end files.new))
            (O.faults out.old) (O.faults out.new) (O.told out.old) (O.told out.new)
            (ended_by result) }
        ensures own { result ≢ Outcome.Usage }
        ensures means { Means (F.told files.old) (O.told out.old) (O.told out.new) result self.now }
        ensures kept { IsKept (F.told files.old) (Some self.now) result kept.new }
    {
        match self {
            Command::Judge(judge) => {
                cmd_judge::laws::each_packet_is_judged();
                match judge.run(alloc, files, out) {
                    Ok(end) => Outcome::from(end),
                    Err(refusal) => Outcome::from(refusal),
                }
            }
            Command::Decorrelate(decorrelate) => {
                cmd_decorrelate::laws::views_stand_for_the_policy();
                match decorrelate.run(alloc, files, out) {
                    Ok(()) => Outcome::Done,
                    Err(refusal) => Outcome::from(refusal),
                }
            }
            Command::Replay(replay) => {
                cmd_replay::laws::each_event_is_answered();
                match replay.run(alloc, files, out) {
                    Ok(end) => keep(end, kept),
                    Err(refusal) => Outcome::from(refusal),
                }
            }
            Command::Narrow(narrow) => {
                cmd_narrow::laws::the_proposal_is_answered();
                match narrow.run(alloc, files, out) {
                    Ok(NarrowEnd::Done) => Outcome::Done,
                    Ok(NarrowEnd::Unacceptable) => Outcome::Unacceptable,
                    Ok(NarrowEnd::ProposalFault { fault }) => Outcome::ProposalFault { fault },
                    Err(refusal) => Outcome::from(refusal),
                }
            }
            Command::Audit(audit) => {
                cmd_audit::laws::the_least_gap_is_written();
                match audit.run(alloc, files, out) {
                    Ok(AuditEnd::Agree) => Outcome::Done,
                    Ok(AuditEnd::Differ) => Outcome::Differ,
                    Err(refusal) => Outcome::from(refusal),
                }
            }
            Command::Check(check) => {
                cmd_check::laws::accepted_policies_agree();
                match check.run(alloc, files, out) {
                    Ok(CheckEnd::Accepted) => Outcome::Done,
                    Ok(CheckEnd::Rejected { node }) => Outcome::Rejected { node },
                    Ok(CheckEnd::CertFault { line }) => Outcome::CertFault { line },
                    Err(refusal) => Outcome::from(refusal),
                }
            }
        }
    }
}

// The outcome of an end of `replay`; where it is done, the machine is kept.
fn keep(end: ReplayEnd, kept: &mut Option<Shared>) -> Outcome
    requires { kept.old ≡ None }
    ensures outcome { result ≡ replayed end }
    ensures kept { kept.new ≡ left_by end }
{
    match end {
        ReplayEnd::Done(machine) => {
            *kept = Some(machine);
            Outcome::Done
        }
        ReplayEnd::TraceFault { line, fault } => Outcome::TraceFault {
            line,
            fault: TraceFault::from(fault),
        },
    }
}
