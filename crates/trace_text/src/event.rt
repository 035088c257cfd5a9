use sel_box::{Direction, Packet};
use sel_text::Name;

/// What a trace line asks for. A lane is a number up to 15. Places of a policy are counted from 1,
/// but any number of 32 bits may stand for one.
#[derive(Clone, Copy, Debug, PartialEq, Eq)]
pub enum Event<'a> {
    /// A packet that passes the gateway, judged at once.
    Pkt {
        direction: Direction,
        packet: Packet,
    },
    /// The first step of a lane: it takes a packet to the cache.
    Take {
        lane: u32,
        direction: Direction,
        packet: Packet,
    },
    /// The second step of a lane: it searches the policy for its packet.
    Search {
        lane: u32,
    },
    /// The third step of a lane: it fills the cache with what it found.
    Fill {
        lane: u32,
    },
    /// A line comes to stand at the place in the policy. The table is its text as the trace line
    /// has it, with no space at either end; what it says isn't judged here.
    Insert {
        place: u32,
        table: &'a [u8],
    },
    /// The line of that name goes.
    Delete {
        name: Name,
    },
    /// The line of that name moves to the place.
    Move {
        name: Name,
        place: u32,
    },
}

/// What the first line of a trace says, and how much of the trace it is.
#[derive(Clone, Copy, Debug, PartialEq, Eq)]
pub struct Found<'a> {
    /// The event; none where the line is blank or a comment.
    pub event: Option<Event<'a>>,
    /// How many bytes the line has, its LF among them.
    pub taken: usize,
}
