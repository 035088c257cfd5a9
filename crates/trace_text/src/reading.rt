ghost use Rattle.std.specs.Prelude.{◌≡◌, ◌≤◌, length, option_map, IfOk, IfSome};
ghost use Rattle.trace_text.specs.Event.{HasLane, event_now};
ghost use Rattle.trace_text.specs.inner.Reading.{table_behind, words_left};
ghost use Rattle.trace_text.specs.Trace as trace;
ghost use Rattle.trace_text.specs.Words.{behind_word};

use crate::event::Event;
use crate::fault::EventFault;
use crate::keyword::Keyword;
use crate::words::Words;
use crate::written::{WrittenField, WrittenPacket};
use sel_box::Packet;

// Reads a line without its end: its event, or nothing where it is blank or a comment.
pub fn read_text(text: &[u8]) -> Result<Option<Event<'_>>, EventFault>
    requires { length text.now ≤ 4096 }
    ensures meaning { trace.made (option_map event_now) result ≡ trace.text_meaning text.now }
    ensures lanes { IfOk result (λ event. IfSome event HasLane) }
{
    let mut words = Words::new(text);
    if words.ask_nothing() {
        return Ok(None);
    }
    match read_event(&mut words) {
        Ok(event) => Ok(Some(event)),
        Err(fault) => Err(fault),
    }
}

// The event of all words.
fn read_event<'a>(words: &mut Words<'a>) -> Result<Event<'a>, EventFault>
    ensures meaning { trace.made event_now result
        ≡ trace.event_in (table_behind (behind_word words.old.text.now))
        (words_left words.old.number words.old.text.now) }
    ensures lanes { IfOk result HasLane }
{
    match words.next()?.keyword()? {
        Keyword::Pkt => read_pkt(words),
        Keyword::Take => read_take(words),
        Keyword::Search => Ok(Event::Search {
            lane: read_lane(words)?,
        }),
        Keyword::Fill => Ok(Event::Fill {
            lane: read_lane(words)?,
        }),
        Keyword::Insert => read_insert(words),
        Keyword::Delete => read_delete(words),
        Keyword::Move => read_move(words),
    }
}

// The words behind `pkt`.
fn read_pkt<'a>(words: &mut Words<'a>) -> Result<Event<'a>, EventFault>
    ensures meaning { trace.made event_now result
        ≡ trace.pkt_in (words_left words.old.number words.old.text.now) }
    ensures lanes { IfOk result HasLane }
{
    let direction = words.next()?.direction()?;
    let packet = read_packet(words)?;
    Ok(Event::Pkt { direction, packet })
}

// The words behind `take`.
fn read_take<'a>(words: &mut Words<'a>) -> Result<Event<'a>, EventFault>
    ensures meaning { trace.made event_now result
        ≡ trace.take_in (words_left words.old.number words.old.text.now) }
    ensures lanes { IfOk result HasLane }
{
    let lane = words.next()?.lane()?;
    let direction = words.next()?.direction()?;
    let packet = read_packet(words)?;
    Ok(Event::Take {
        lane,
        direction,
        packet,
    })
}

// The words behind `search` and `fill`: a lane, which ends the line.
fn read_lane(words: &mut Words<'_>) -> Result<u32, EventFault>
    ensures meaning { result ≡ trace.lane_in (words_left words.old.number words.old.text.now) }
    ensures lanes { IfOk result (λ lane. lane ≤ 15) }
{
    let lane = words.next()?.lane()?;
    words.end()?;
    Ok(lane)
}

// The words behind `insert`.
fn read_insert<'a>(words: &mut Words<'a>) -> Result<Event<'a>, EventFault>
    ensures meaning { trace.made event_now result
        ≡ trace.insert_in (table_behind words.old.text.now)
        (words_left words.old.number words.old.text.now) }
    ensures lanes { IfOk result HasLane }
{
    let place = words.next()?.place()?;
    let table = words.rest()?;
    Ok(Event::Insert { place, table })
}

// The words behind `delete`.
fn read_delete<'a>(words: &mut Words<'a>) -> Result<Event<'a>, EventFault>
    ensures meaning { trace.made event_now result
        ≡ trace.delete_in (words_left words.old.number words.old.text.now) }
    ensures lanes { IfOk result HasLane }
{
    let name = words.next()?.name()?;
    words.end()?;
    Ok(Event::Delete { name })
}

// The words behind `move`.
fn read_move<'a>(words: &mut Words<'a>) -> Result<Event<'a>, EventFault>
    ensures meaning { trace.made event_now result
        ≡ trace.move_in (words_left words.old.number words.old.text.now) }
    ensures lanes { IfOk result HasLane }
{
    let name = words.next()?.name()?;
    let place = words.next()?.place()?;
    words.end()?;
    Ok(Event::Move { name, place })
}

// A packet, which ends the line.
fn read_packet(words: &mut Words<'_>) -> Result<Packet, EventFault>
    ensures { result ≡ trace.packet_in (words_left words.old.number words.old.text.now) }
{
    let source = words.next()?.address()?;
    let destination = words.next()?.address()?;
    let protocol = words.next()?.protocol()?;
    let (source_field, destination_field) = read_fields(words)?;
    let written = WrittenPacket {
        source,
        destination,
        protocol,
        source_field,
        destination_field,
    };
    written.packet().ok_or(EventFault::NotAPacket)
}

// The two fields of a packet, source first, which end the line.
fn read_fields(words: &mut Words<'_>) -> Result<(WrittenField, WrittenField), EventFault>
    ensures { result ≡ trace.fields_in (words_left words.old.number words.old.text.now) }
{
    let source = words.next()?.field()?;
    let destination = words.next()?.field()?;
    words.end()?;
    Ok((source, destination))
}
