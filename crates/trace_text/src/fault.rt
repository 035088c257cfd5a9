ghost use Rattle.std.specs.Prelude.{◌≡◌};
ghost use Rattle.trace_text.specs.Fault.{event_fault_text};

use arrayvec::ArrayString;
use itoa::Buffer;
use std::error::Error;
use std::fmt;

/// Why a trace line is refused. The first fault in this order is the one that is answered.
#[derive(Clone, Copy, Debug, PartialEq, Eq, PartialOrd, Ord, Hash)]
pub enum EventFault {
    /// More than 4,096 bytes stand before the LF or the end.
    LineTooLong,
    /// The word of that number, counted from 1, is the first that its place doesn't allow. A
    /// missing word counts where it should stand, and a further one at its own place.
    BadWord { word: u32 },
    /// All words are allowed, but the two addresses have different families, a field isn't written
    /// in the form of its protocol, or no packet can show these values.
    NotAPacket,
}

impl EventFault {
    /// What is printed of the fault, kept in place.
    pub fn text(self) -> ArrayString<19>
        ensures { result.bytes ≡ event_fault_text self }
    {
        let mut text = ArrayString::new();
        match self {
            EventFault::LineTooLong => text.push_str("line too long"),
            EventFault::BadWord { word } => {
                text.push_str("bad word ");
                text.push_str(Buffer::new().format(word));
            }
            EventFault::NotAPacket => text.push_str("not a packet"),
        }
        text
    }
}

impl fmt::Display for EventFault {
    ghost use Rattle.std.specs.Prelude.{Some};

    ghost output = { λ fault. Some (event_fault_text fault) };

    fn fmt<W: fmt::Write>(&self, f: &mut fmt::Formatter<W>) -> fmt::Result {
        f.write_str(self.text().as_str())
    }
}

impl Error for EventFault {}
