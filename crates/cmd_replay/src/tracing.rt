ghost use Rattle.std.specs.Prelude.{◌≡◌, ◌<◌, length, option_map};
ghost use Rattle.std.specs.Prelude.{OnOk, IfOk, IfErr, IfSome};
ghost use Rattle.audit_frame.specs.Ends.{EndsBy};
ghost use Rattle.audit_frame.specs.Runs.{Counts};
ghost use Rattle.cmd_replay.specs.Replay.{trace_answer};
ghost use Rattle.cmd_replay.specs.inner.Stages.{IsTraceRefusal};
ghost use Rattle.cmd_replay.specs.inner.Step.{IsReplayed, IsReplayedLine, IsStopped};
ghost use Rattle.cmd_replay.specs.inner.Step.{IsStoppedLine, StopCauses};
ghost use Rattle.trace_text.specs.Event.{HasLane, event_now};
ghost use Rattle.trace_text.specs.Trace.{events_of};

use crate::event::perform;
use crate::reply::ReplyLine;
use crate::stop::Stop;
use crate::{ReplayEnd, TraceFault};
use audit_frame::{Ended, write_line};
use pair_io::Sink;
use spd_lanes::Shared;
use std::alloc::Global;
use trace_text::{Event, next_event};

// Gives each event of the trace to the machine and writes its line, up to the first trace line at
// which it stops. The word names the policy.
pub fn replay_trace<O: Sink>(
    alloc: Global,
    word: u32,
    mut shared: Shared,
    trace: &[u8],
    out: &mut O,
) -> Ended<ReplayEnd>
    ensures ends { EndsBy (trace_answer word 1 (events_of trace.now) shared)
        (O.told out.old) (O.told out.new) result }
    ensures counts { Counts (O.faults out.old) (O.faults out.new) result }
    ensures refused { IfErr result (IsTraceRefusal word) }
{
    let mut text = Vec::new(alloc);
    let mut rest = trace;
    let mut line = 1;
    while !rest.is_empty() {
        match replay_line(alloc, &mut shared, line, rest, &mut text, out) {
            Ok(taken) => rest = &rest[taken..],
            Err(stop) => return stop.at(word, line),
        }
        line += 1;
    }
    Ok(ReplayEnd::Done(shared))
}

// Replays the first line of a trace, and says how many bytes it has, or why the replay stops there.
fn replay_line<O: Sink>(
    alloc: Global,
    shared: &mut Shared,
    number: u64,
    trace: &[u8],
    text: &mut Vec<u8>,
    out: &mut O,
) -> Result<usize, Stop>
    requires { 0 < length trace.now }
    ensures replayed { IfOk result (IsReplayedLine number trace.now shared.old shared.new
        (O.told out.old) (O.told out.new)) }
    ensures stopped { IfErr result (IsStoppedLine number trace.now shared.old
        (O.told out.old) (O.told out.new)) }
    ensures causes { IfErr result (StopCauses (O.faults out.old) (O.faults out.new)) }
    ensures no_fault { OnOk result (O.faults out.new ≡ O.faults out.old) }
{
    match next_event(trace) {
        Ok(found) => {
            replay_event(alloc, shared, number, &found.event, text, out)?;
            Ok(found.taken)
        }
        Err(fault) => Err(Stop::Fault(TraceFault::Text(fault))),
    }
}

// Gives what a trace line asks for to the machine, and writes the line of the reply.
fn replay_event<O: Sink>(
    alloc: Global,
    shared: &mut Shared,
    number: u64,
    event: &Option<Event>,
    text: &mut Vec<u8>,
    out: &mut O,
) -> Result<(), Stop>
    requires { IfSome event.now HasLane }
    ensures replayed { OnOk result (IsReplayed number (option_map event_now event.now)
        shared.old shared.new (O.told out.old) (O.told out.new)) }
    ensures stopped { IfErr result (IsStopped number (option_map event_now event.now) shared.old
        (O.told out.old) (O.told out.new)) }
    ensures causes { IfErr result (StopCauses (O.faults out.old) (O.faults out.new)) }
    ensures no_fault { OnOk result (O.faults out.new ≡ O.faults out.old) }
{
    let Some(event) = event else {
        return Ok(());
    };
    let reply = perform(alloc, shared, event)?;
    write_line(&ReplyLine { number, reply }, text, out)?;
    Ok(())
}
