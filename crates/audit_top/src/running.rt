ghost use Rattle.std.specs.Prelude.{◌≡◌, ◌↔◌, IfSome, None};
ghost use Rattle.audit_frame.specs.Causes.{reads};
ghost use Rattle.audit_frame.specs.Runs.{Runs};
ghost use Rattle.audit_top.specs.Command.{IsKept, Means, answer_of, command_in, files_of};
ghost use Rattle.audit_top.specs.Outcome.{ended_by};
ghost use Rattle.audit_top.specs.Reports.{Reports};
ghost use Rattle.audit_top.specs.declared.outcome.Outcome.{Outcome};

use crate::Outcome;
use crate::command::Command;
use crate::error_line::error_line_of;
use pair_io::{Files, Sink, WordList, write_all};
use spd_lanes::Shared;
use std::alloc::Global;

/// Runs the command of the words, and says how it ended. `judge POLICY TRACE` writes for each
/// packet of the trace its verdict by the policy's first matching line (RFC 4301 sections 4.4.1
/// and 5);
/// `decorrelate LIMIT POLICY` writes the entries that stand for the policy, of which no two of a
/// direction have a point in common, as SPD-S, SPD-O and SPD-I (RFC 4301 section 4.4.1 and
/// Appendix B); `replay LIMIT CACHE POLICY TRACE` gives each event of the trace to the shared
/// machine of the policy, and writes its reply; `narrow LIMIT POLICY PROPOSAL` writes what a
/// responder with the policy accepts of a proposal of traffic selectors (RFC 7296 section 2.9);
/// `audit LIMIT POLICY_A POLICY_B` says whether B judges each packet that comes in as A judges it
/// when it goes out, or shows the least one that it doesn't (RFC 4301 section 5);
/// `check MOST POLICY_A POLICY_B CERTIFICATE` says whether the text is a certificate that they
/// agree; no other words are a command.
///
/// Where the files tell their contents, the outcome and the text on `out` are the command's answer.
/// A run that ends out of memory or at a write leaves a prefix of that text, and one that ends at
/// a read whole lines of it; other refusals come before anything is written, or after the lines
/// before their place. Each line goes to `write_all` once, whole, and `out` is flushed at the end.
/// For an outcome that is a refusal one line is put to `err`, without memory; where that fails, the
/// outcome stays.
///
/// After a replay that is done, `kept` holds the machine that ran, in its state after the last
/// event. After every other outcome and command it holds none, whatever it held before.
///
/// Each command says its cost: `cmd_judge::Judge::run`, `cmd_decorrelate::Decorrelate::run`,
/// `cmd_replay::Replay::run`, `cmd_narrow::Narrow::run`, `cmd_audit::Audit::run`,
/// `cmd_check::Check::run`.
pub fn run<F: Files, O: Sink, E: Sink>(
    alloc: Global,
    words: &WordList,
    files: &mut F,
    out: &mut O,
    err: &mut E,
    kept: &mut Option<Shared>,
) -> Outcome
    // The words are no command's.
    ensures usage { command_in words.now ≡ None ↔ result ≡ Outcome.Usage }

    // The answer of the command where its files tell their contents, and the cause of each refusal.
    ensures runs { IfSome (command_in words.now) (λ command.
        Runs (answer_of (F.told files.old) command) (files_of command) (F.told files.old)
        (reads (F.faults files.old) (F.taken files.old) (F.end files.old))
        (reads (F.faults files.new) (F.taken files.new) (F.end files.new))
        (O.faults out.old) (O.faults out.new) (O.told out.old) (O.told out.new)
        (ended_by result)) }

    // What that answer comes to, said of packets and events.
    ensures means { IfSome (command_in words.now)
        (Means (F.told files.old) (O.told out.old) (O.told out.new) result) }

    // The machine that is left.
    ensures kept { IsKept (F.told files.old) (command_in words.now) result kept.new }

    // What is reported.
    ensures reports { Reports result
        (E.told err.old) (E.told err.new) (E.faults err.old) (E.faults err.new) }
{
    *kept = None;
    let outcome = perform(alloc, words, files, out, kept);
    report(&outcome, err);
    outcome
}

fn perform<F: Files, O: Sink>(
    alloc: Global,
    words: &WordList,
    files: &mut F,
    out: &mut O,
    kept: &mut Option<Shared>,
) -> Outcome
    requires { kept.old ≡ None }
    ensures usage { command_in words.now ≡ None ↔ result ≡ Outcome.Usage }
    ensures runs { IfSome (command_in words.now) (λ command.
        Runs (answer_of (F.told files.old) command) (files_of command) (F.told files.old)
        (reads (F.faults files.old) (F.taken files.old) (F.end files.old))
        (reads (F.faults files.new) (F.taken files.new) (F.end files.new))
        (O.faults out.old) (O.faults out.new) (O.told out.old) (O.told out.new)
        (ended_by result)) }
    ensures means { IfSome (command_in words.now)
        (Means (F.told files.old) (O.told out.old) (O.told out.new) result) }
    ensures kept { IsKept (F.told files.old) (command_in words.now) result kept.new }
{
    match Command::from_words(words) {
        Some(command) => {
            let outcome = command.run(alloc, files, out, kept);
            match out.flush() {
                Ok(()) => outcome,
                Err(_) => {
                    *kept = None;
                    Outcome::WriteFault
                }
            }
        }
        None => Outcome::Usage,
    }
}

/// Puts the line that tells a refusal to a sink, whole and without memory; nothing for an outcome
/// that is none. Where the sink fails, a prefix of the line may have gone out.
pub fn report<E: Sink>(outcome: &Outcome, err: &mut E)
    ensures { Reports outcome.now
        (E.told err.old) (E.told err.new) (E.faults err.old) (E.faults err.new) }
{
    if let Some(line) = error_line_of(outcome) {
        let _ = write_all(err, line.as_bytes());
    }
}
