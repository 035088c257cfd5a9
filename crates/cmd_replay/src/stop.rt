ghost use Rattle.std.specs.Prelude.{◌≡◌};
ghost use Rattle.cmd_replay.specs.Stop.{ended_at};

use crate::{ReplayEnd, TraceFault};
use audit_frame::{Ended, NoMemory, Refusal, WriteRefused};
use sel_box::Direction;
use spd_file::PolicyFault;
use spd_lanes::{EditFault, LaneFault};
use spd_order::OrderFault;

// Why the replay stops at a trace line.
#[derive(Clone, Copy)]
pub enum Stop {
    // The line is refused.
    Fault(TraceFault),
    // Its edit passes the limit, in a direction and at a line of the policy.
    Limit { direction: Direction, line: u32 },
    // What it says couldn't be written, or there was no memory for it.
    Unwritten(WriteRefused),
}

impl Stop {
    // How the command ends by it, at the trace line of that number. The word names the policy.
    pub fn at(self, word: u32, number: u64) -> Ended<ReplayEnd>
        ensures { result ≡ ended_at word number self }
    {
        match self {
            Stop::Fault(fault) => Ok(ReplayEnd::TraceFault {
                line: number,
                fault,
            }),
            Stop::Limit { direction, line } => Err(Refusal::EntryLimit {
                word,
                direction,
                line,
                at: Some(number),
            }),
            Stop::Unwritten(refused) => Err(Refusal::from(refused)),
        }
    }
}

impl From<NoMemory> for Stop {
    ghost use Rattle.std.specs.Prelude.{◌≡◌};
    ghost use Rattle.cmd_replay.specs.Stop.{no_memory};

    ghost from_gives = { λ _ stop. stop ≡ no_memory };

    fn from(_: NoMemory) -> Stop {
        Stop::Unwritten(WriteRefused::NoMemory)
    }
}

impl From<WriteRefused> for Stop {
    ghost use Rattle.std.specs.Prelude.{◌≡◌};
    ghost use Rattle.cmd_replay.specs.declared.stop.Stop.{Stop};

    ghost from_gives = { λ refused stop. stop ≡ Stop.Unwritten refused };

    fn from(refused: WriteRefused) -> Stop {
        Stop::Unwritten(refused)
    }
}

impl From<LaneFault> for Stop {
    ghost use Rattle.std.specs.Prelude.{◌≡◌};
    ghost use Rattle.cmd_replay.specs.Stop.{lane_stop};

    ghost from_gives = { λ fault stop. stop ≡ lane_stop fault };

    fn from(fault: LaneFault) -> Stop {
        match fault {
            LaneFault::NoMemory => Stop::Unwritten(WriteRefused::NoMemory),
            fault => Stop::Fault(TraceFault::Lane(fault)),
        }
    }
}

impl From<PolicyFault> for Stop {
    ghost use Rattle.std.specs.Prelude.{◌≡◌};
    ghost use Rattle.cmd_replay.specs.Stop.{table_stop};

    ghost from_gives = { λ fault stop. stop ≡ table_stop fault };

    fn from(fault: PolicyFault) -> Stop {
        match fault {
            PolicyFault::NoMemory => Stop::Unwritten(WriteRefused::NoMemory),
            fault => Stop::Fault(TraceFault::Table(fault)),
        }
    }
}

impl From<EditFault> for Stop {
    ghost use Rattle.std.specs.Prelude.{◌≡◌};
    ghost use Rattle.cmd_replay.specs.Stop.{edit_stop};

    ghost from_gives = { λ fault stop. stop ≡ edit_stop fault };

    fn from(fault: EditFault) -> Stop {
        match fault {
            EditFault::Order(OrderFault::NoMemory) | EditFault::NoMemory => {
                Stop::Unwritten(WriteRefused::NoMemory)
            }
            EditFault::Order(fault) => Stop::Fault(TraceFault::Edit(fault)),
            EditFault::Limit { direction, line } => Stop::Limit { direction, line },
        }
    }
}
