ghost use Rattle.std.specs.Prelude.{◌≡◌, ◌+◌, ◌<◌, ◌≤◌, ◌∷◌, length, take, drop, option_map, Ok};
ghost use Rattle.std.specs.Prelude.{Err, IfOk, IfErr, IfSome, MatchOption};
ghost use Rattle.trace_text.specs.Event.{HasLane, event_now};
ghost use Rattle.sel_text.specs.Lines.{lines_of, before_feed, behind_feed};
ghost use Rattle.trace_text.specs.Trace.{bytes_meaning, events_of, made};

use crate::event::{Event, Found};
use crate::fault::EventFault;
use crate::reading::read_text;
use sel_text::place_of;

// The most bytes of a line before its LF.
const LONGEST_LINE: usize = 4096;

/// Reads the first line of a trace that isn't empty: its event, or nothing where it is blank or a
/// comment, and how many bytes it has with its LF. The other lines stand behind those bytes, so a
/// trace is read by one call a line.
///
/// A line ends with LF, the last one perhaps with the trace; one CR before that is set aside. Only
/// spaces part its words. It is refused by the first of its faults, in the order of `EventFault`,
/// and nothing behind it is looked at. Takes no memory, and time in proportion to the line, of
/// which at most 4,097 bytes are read.
pub fn next_event<'a>(bytes: &'a [u8]) -> Result<Found<'a>, EventFault>
    requires { 0 < length bytes.now }
    ensures line { IfOk result (λ found. lines_of bytes.now
        ≡ take found.taken bytes.now ∷ lines_of (drop found.taken bytes.now)) }
    ensures event { IfOk result (λ found. events_of bytes.now
        ≡ Ok (option_map event_now found.event) ∷ events_of (drop found.taken bytes.now)) }
    ensures fault { IfErr result (λ fault. events_of bytes.now
        ≡ Err fault ∷ events_of (behind_feed bytes.now)) }
    ensures taken { IfOk result (λ found. (0 < found.taken) × (found.taken ≤ length bytes.now)) }
    ensures lanes { IfOk result (λ found. IfSome found.event HasLane) }
{
    let Some(line) = first_line(bytes) else {
        return Err(EventFault::LineTooLong);
    };
    let taken = (line.len() + 1).min(bytes.len());
    match read_line(line) {
        Ok(event) => Ok(Found { event, taken }),
        Err(fault) => Err(fault),
    }
}

// The first line without its LF, unless it is too long. No more is looked at than tells that.
fn first_line(bytes: &[u8]) -> Option<&[u8]>
    ensures line { IfSome result (λ line. line.now ≡ before_feed bytes.now) }
    ensures long { MatchOption result (4096 < length (before_feed bytes.now))
        (λ line. length line.now ≤ 4096) }
{
    let reach = bytes.len().min(LONGEST_LINE + 1);
    match place_of(&bytes[..reach], b'\n') {
        Some(end) => Some(&bytes[..end]),
        None if reach > LONGEST_LINE => None,
        None => Some(bytes),
    }
}

// Reads a line that isn't too long, without its LF.
fn read_line(line: &[u8]) -> Result<Option<Event<'_>>, EventFault>
    requires { length line.now ≤ 4096 }
    ensures meaning { made (option_map event_now) result ≡ bytes_meaning line.now }
    ensures lanes { IfOk result (λ event. IfSome event HasLane) }
{
    match line {
        [text @ .., b'\r'] => read_text(text),
        text => read_text(text),
    }
}
