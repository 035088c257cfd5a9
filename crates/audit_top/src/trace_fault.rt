use spd_file::PolicyFault;
use spd_lanes::LaneFault;
use spd_order::OrderFault;
use trace_text::EventFault;

/// Why a line of a trace is refused, by any command that reads one. What it holds is never a lack
/// of memory.
#[derive(Clone, Copy, Debug, PartialEq, Eq)]
pub enum TraceFault {
    /// Its text is.
    Text(EventFault),
    /// It is another event than a packet, which `judge` doesn't take.
    OnlyPackets,
    /// The table of its insertion makes no line.
    Table(PolicyFault),
    /// The lane can't take that step.
    Lane(LaneFault),
    /// The policy can't be edited so.
    Edit(OrderFault),
}

impl From<cmd_judge::TraceFault> for TraceFault {
    ghost use Rattle.std.specs.Prelude.{◌≡◌};
    ghost use Rattle.audit_top.specs.Outcome.{judge_fault};

    ghost from_gives = { λ given fault. fault ≡ judge_fault given };

    fn from(fault: cmd_judge::TraceFault) -> TraceFault {
        match fault {
            cmd_judge::TraceFault::Text(fault) => TraceFault::Text(fault),
            cmd_judge::TraceFault::OnlyPackets => TraceFault::OnlyPackets,
        }
    }
}

impl From<cmd_replay::TraceFault> for TraceFault {
    ghost use Rattle.std.specs.Prelude.{◌≡◌};
    ghost use Rattle.audit_top.specs.Outcome.{replay_fault};

    ghost from_gives = { λ given fault. fault ≡ replay_fault given };

    fn from(fault: cmd_replay::TraceFault) -> TraceFault {
        match fault {
            cmd_replay::TraceFault::Text(fault) => TraceFault::Text(fault),
            cmd_replay::TraceFault::Table(fault) => TraceFault::Table(fault),
            cmd_replay::TraceFault::Lane(fault) => TraceFault::Lane(fault),
            cmd_replay::TraceFault::Edit(fault) => TraceFault::Edit(fault),
        }
    }
}
