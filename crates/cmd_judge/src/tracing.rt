ghost use Rattle.std.specs.Prelude.{◌≡◌, ◌<◌, ◌≤◌, ◌++◌, codes, length, option_map};
ghost use Rattle.std.specs.Prelude.{OnErr, OnOk, IfOk, IfErr};
ghost use Rattle.pair_io.specs.Gains.{GainsPrefix};
ghost use Rattle.audit_frame.specs.Answer.{Answer, text_of};
ghost use Rattle.audit_frame.specs.Ends.{WriteCauses, Writes};
ghost use Rattle.cmd_judge.specs.Judge.{by_event, numbered, packet_line, trace_answer, traced};
ghost use Rattle.cmd_judge.specs.inner.Step.{IsEvent, IsLine};
ghost use Rattle.trace_text.specs.Event.{event_now};
ghost use Rattle.trace_text.specs.Trace.{events_of};

use crate::policy::Policy;
use crate::verdict_line::VerdictLine;
use crate::{JudgeEnd, TraceFault};
use audit_frame::{WriteRefused, write_line};
use pair_io::Sink;
use sel_box::{Direction, Packet};
use spd_line::LineList;
use std::alloc::Global;
use trace_text::{Event, next_event};

// Judges each packet of the trace and writes its line, up to the first trace line that is refused.
pub fn judge_trace<O: Sink>(
    alloc: Global,
    lines: &LineList,
    trace: &[u8],
    out: &mut O,
) -> Result<JudgeEnd, WriteRefused>
    requires { length lines.now ≤ 4096 }
    ensures writes { Writes (trace_answer lines.now 1 (events_of trace.now))
        (O.told out.old) (O.told out.new) result }
    ensures causes { IfErr result (WriteCauses (O.faults out.old) (O.faults out.new)) }
    ensures no_fault { OnOk result (O.faults out.new ≡ O.faults out.old) }
{
    let policy = Policy::new(alloc, lines, trace.len())?;
    judge_lines(alloc, &policy, trace, out)
}

// Judges the lines of a trace one after another.
fn judge_lines<O: Sink>(
    alloc: Global,
    policy: &Policy,
    trace: &[u8],
    out: &mut O,
) -> Result<JudgeEnd, WriteRefused>
    ensures writes { Writes (trace_answer policy.now.lines.now 1 (events_of trace.now))
        (O.told out.old) (O.told out.new) result }
    ensures causes { IfErr result (WriteCauses (O.faults out.old) (O.faults out.new)) }
    ensures no_fault { OnOk result (O.faults out.new ≡ O.faults out.old) }
{
    let mut text = Vec::new(alloc);
    let mut rest = trace;
    let mut line = 1;
    while !rest.is_empty() {
        match judge_line(policy, line, rest, &mut text, out)? {
            Ok(taken) => rest = &rest[taken..],
            Err(fault) => return Ok(JudgeEnd::TraceFault { line, fault }),
        }
        line += 1;
    }
    Ok(JudgeEnd::Done)
}

// Judges what the first line of a trace asks for, and says how many bytes that line has, or why it
// is refused.
fn judge_line<O: Sink>(
    policy: &Policy,
    number: u64,
    trace: &[u8],
    text: &mut Vec<u8>,
    out: &mut O,
) -> Result<Result<usize, TraceFault>, WriteRefused>
    requires { 0 < length trace.now }
    ensures judged { IfOk result (IsLine policy.now.lines.now number trace.now
        (O.told out.old) (O.told out.new)) }
    ensures prefix { OnErr result (GainsPrefix (O.told out.old) (O.told out.new)
        (text_of (trace_answer policy.now.lines.now number (events_of trace.now)).lines)) }
    ensures causes { IfErr result (WriteCauses (O.faults out.old) (O.faults out.new)) }
    ensures no_fault { OnOk result (O.faults out.new ≡ O.faults out.old) }
{
    match next_event(trace) {
        Ok(found) => match judge_event(policy, number, &found.event, text, out)? {
            Ok(()) => Ok(Ok(found.taken)),
            Err(fault) => Ok(Err(fault)),
        },
        Err(fault) => Ok(Err(TraceFault::Text(fault))),
    }
}

// Judges a packet and writes its line; a trace line that asks for nothing is passed over, and
// another event is refused.
fn judge_event<O: Sink>(
    policy: &Policy,
    number: u64,
    event: &Option<Event>,
    text: &mut Vec<u8>,
    out: &mut O,
) -> Result<Result<(), TraceFault>, WriteRefused>
    ensures judged { IfOk result (IsEvent policy.now.lines.now number
        (option_map event_now event.now) (O.told out.old) (O.told out.new)) }
    ensures prefix { OnErr result ((others : Answer JudgeEnd) → GainsPrefix
        (O.told out.old) (O.told out.new)
        (text_of (by_event policy.now.lines.now number
        (option_map event_now event.now) others).lines)) }
    ensures causes { IfErr result (WriteCauses (O.faults out.old) (O.faults out.new)) }
    ensures no_fault { OnOk result (O.faults out.new ≡ O.faults out.old) }
{
    match event {
        None => Ok(Ok(())),
        Some(Event::Pkt { direction, packet }) => {
            let line = verdict_line(policy, number, *direction, packet);
            write_line(&line, text, out)?;
            Ok(Ok(()))
        }
        Some(_) => Ok(Err(TraceFault::OnlyPackets)),
    }
}

// The line of a packet: its verdict by the policy's first line that selects its view.
fn verdict_line(policy: &Policy, number: u64, direction: Direction, packet: &Packet) -> VerdictLine
    ensures { numbered result.number result.answer ++ codes "\n"
        ≡ packet_line policy.now.lines.now (traced number direction packet.now) }
{
    let point = sel_box::view(direction, packet);
    let verdict = policy.index.judge(policy.lines, direction, &point);
    let answer = spd_line::Answer {
        name: spd_line::name_of(policy.lines, verdict.line),
        judgement: verdict.judgement,
    };
    VerdictLine { number, answer }
}
