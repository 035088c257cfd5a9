ghost use Rattle.std.specs.Prelude.{◌≡◌, Ok, IfOk, IfErr};
ghost use Rattle.spd_lanes.specs.Run.{Change, step};
ghost use Rattle.trace_text.specs.Event.{HasLane, event_now};
ghost use Rattle.cmd_replay.specs.Replay.{asked_event, replied, stepped};
ghost use Rattle.cmd_replay.specs.inner.Step.{IsStop};

use crate::EventReply;
use crate::stop::Stop;
use sel_box::Direction;
use spd_file::read_line;
use spd_lanes::{Edit, Shared};
use std::alloc::Global;
use trace_text::Event;

// Gives an event of a trace to the machine: its reply, or why the replay stops there.
pub fn perform(alloc: Global, shared: &mut Shared, event: &Event) -> Result<EventReply, Stop>
    requires { HasLane event.now }
    ensures reply { IfOk result (λ reply.
        stepped (asked_event (event_now event.now)) shared.old ≡ Ok (reply, shared.new)) }
    ensures stop { IfErr result
        (IsStop (stepped (asked_event (event_now event.now)) shared.old)) }
{
    match event {
        Event::Pkt { direction, packet } => {
            Ok(EventReply::Asked(shared.packet(*direction, packet)?))
        }
        Event::Take {
            lane,
            direction,
            packet,
        } => Ok(EventReply::Taken(shared.take(*lane, *direction, packet)?)),
        Event::Search { lane } => Ok(EventReply::Searched(shared.search(*lane)?)),
        Event::Fill { lane } => Ok(EventReply::Filling(shared.fill(*lane)?)),
        Event::Insert { place, table } => {
            let (place, line) = (*place, read_line(alloc, table)?);
            edit(shared, Edit::Insert { place, line })
        }
        Event::Delete { name } => edit(shared, Edit::Delete { name: *name }),
        Event::Move { name, place } => {
            let (name, place) = (*name, *place);
            edit(shared, Edit::Move { name, place })
        }
    }
}

// Edits the machine's policy: how many entries it has then, or why the replay stops there.
fn edit(shared: &mut Shared, change: Edit) -> Result<EventReply, Stop>
    ensures reply { IfOk result (λ reply.
        replied (step (Change change) shared.old) ≡ Ok (reply, shared.new)) }
    ensures stop { IfErr result (IsStop (replied (step (Change change) shared.old))) }
{
    shared.edit(change)?;
    let compiled = shared.compiled();
    Ok(EventReply::Edited {
        outbound: compiled.entries(Direction::Outbound).len(),
        inbound: compiled.entries(Direction::Inbound).len(),
    })
}
