use lists::NoMemory;
use sel_box::Direction;
use spd_order::OrderFault;
use std::error::Error;
use std::fmt;

/// Why a policy isn't compiled into entries. Outbound is cut before inbound.
#[derive(Clone, Copy, Debug, PartialEq, Eq)]
pub enum CompileFault {
    /// In the direction there would be more entries and pieces at once than the limit, first while
    /// a box of the line at this place was cut; the count of the lines plus 1 is `final`.
    Limit { direction: Direction, line: u32 },
    /// There was no memory.
    NoMemory,
}

impl From<NoMemory> for CompileFault {
    ghost use Rattle.std.specs.Prelude.{◌≡◌};
    ghost use Rattle.spd_lanes.specs.declared.fault.CompileFault.{CompileFault};

    ghost from_gives = { λ _ fault. fault ≡ CompileFault.NoMemory };

    fn from(_: NoMemory) -> CompileFault {
        CompileFault::NoMemory
    }
}

/// Why a compiled policy isn't edited: the edit's own fault first, then the limit.
#[derive(Clone, Copy, Debug, PartialEq, Eq)]
pub enum EditFault {
    /// The edit can't be made. It is never `OrderFault::NoMemory`.
    Order(OrderFault),
    /// The edited policy passes the limit, as in `CompileFault::Limit`.
    Limit { direction: Direction, line: u32 },
    /// There was no memory.
    NoMemory,
}

impl From<NoMemory> for EditFault {
    ghost use Rattle.std.specs.Prelude.{◌≡◌};
    ghost use Rattle.spd_lanes.specs.declared.fault.EditFault.{EditFault};

    ghost from_gives = { λ _ fault. fault ≡ EditFault.NoMemory };

    fn from(_: NoMemory) -> EditFault {
        EditFault::NoMemory
    }
}

impl From<OrderFault> for EditFault {
    ghost use Rattle.std.specs.Prelude.{◌≡◌};
    ghost use Rattle.spd_lanes.specs.declared.fault.EditFault.{EditFault};

    ghost from_gives = { λ order fault. fault ≡ EditFault.Order order };

    fn from(fault: OrderFault) -> EditFault {
        EditFault::Order(fault)
    }
}

impl From<CompileFault> for EditFault {
    ghost use Rattle.std.specs.Prelude.{◌≡◌};
    ghost use Rattle.spd_lanes.specs.Faults.{edit_fault_of};

    ghost from_gives = { λ compile fault. fault ≡ edit_fault_of compile };

    fn from(fault: CompileFault) -> EditFault {
        match fault {
            CompileFault::Limit { direction, line } => EditFault::Limit { direction, line },
            CompileFault::NoMemory => EditFault::NoMemory,
        }
    }
}

/// Why an event of a lane is refused. The lane stays as it is then.
#[derive(Clone, Copy, Debug, PartialEq, Eq)]
pub enum LaneFault {
    /// Only an idle lane takes a packet.
    LaneBusy,
    /// An idle lane has no packet.
    LaneIdle,
    /// The lane has a packet, and has not found its verdict.
    LaneNotFound,
    /// There was no memory.
    NoMemory,
}

impl LaneFault {
    ghost use Rattle.std.specs.Prelude.{◌≡◌, ◌≤◌, length};
    ghost use Rattle.spd_lanes.specs.Faults.{lane_fault_text};

    /// What is printed of it.
    pub fn as_str(self) -> &'static str
        ensures text { result.now ≡ lane_fault_text self }
        ensures short { length result.now ≤ 14 }
    {
        match self {
            LaneFault::LaneBusy => "lane busy",
            LaneFault::LaneIdle => "lane idle",
            LaneFault::LaneNotFound => "lane not found",
            LaneFault::NoMemory => "out of memory",
        }
    }
}

impl fmt::Display for LaneFault {
    ghost use Rattle.std.specs.Prelude.{Some};
    ghost use Rattle.spd_lanes.specs.Faults.{lane_fault_text};

    ghost output = { λ fault. Some (lane_fault_text fault) };

    fn fmt<W: fmt::Write>(&self, f: &mut fmt::Formatter<W>) -> fmt::Result {
        f.write_str(self.as_str())
    }
}

impl Error for LaneFault {}

impl From<NoMemory> for LaneFault {
    ghost use Rattle.std.specs.Prelude.{◌≡◌};
    ghost use Rattle.spd_lanes.specs.declared.fault.LaneFault.{LaneFault};

    ghost from_gives = { λ _ fault. fault ≡ LaneFault.NoMemory };

    fn from(_: NoMemory) -> LaneFault {
        LaneFault::NoMemory
    }
}
