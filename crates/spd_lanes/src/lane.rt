ghost use Rattle.std.specs.Prelude.{◌≡◌};
ghost use Rattle.spd_lanes.specs.Lane.{held};

use sel_box::{Direction, Packet};
use spd_cache::Key;
use spd_line::{Answer, Group};

/// A lane: where the lookup of a packet stands.
#[derive(Debug, Drop)]
pub enum LaneState {
    /// No packet is looked up.
    Idle,
    /// The cache had no answer to a packet.
    Missed {
        direction: Direction,
        packet: Packet,
    },
    /// The policy's answer to a packet was found, with the packet's key and the group of that key.
    Found {
        direction: Direction,
        packet: Packet,
        answer: Answer,
        key: Key,
        group: Group,
        /// Whether the policy is as it was when the answer was found.
        fresh: bool,
    },
}

impl LaneState {
    /// The idle lane. Takes no memory.
    pub fn new() -> LaneState
        ensures { result ≡ LaneState.Idle }
    {
        LaneState::Idle
    }

    /// The packet that is looked up, and its direction; `None` where the lane is idle. Takes no
    /// memory.
    pub fn held(&self) -> Option<(Direction, Packet)>
        ensures { result ≡ held self.now }
    {
        match self {
            LaneState::Idle => None,
            LaneState::Missed { direction, packet } => Some((*direction, *packet)),
            LaneState::Found {
                direction,
                packet,
                ..
            } => Some((*direction, *packet)),
        }
    }
}

/// The end of a lookup in steps.
#[derive(Clone, Copy, Debug, PartialEq, Eq)]
pub struct Filled {
    /// What was found.
    pub answer: Answer,
    /// Whether the policy was edited since, so that the group wasn't kept.
    pub stale: bool,
}

/// The answer to a packet at once.
#[derive(Clone, Copy, Debug, PartialEq, Eq)]
pub struct PacketAnswer {
    pub answer: Answer,
    /// Whether the cache had it.
    pub hit: bool,
}
