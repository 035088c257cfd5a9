use spd_file::PolicyFault;
use spd_lanes::LaneFault;
use spd_order::OrderFault;
use trace_text::EventFault;

/// Why a trace line is refused. What it holds is never a lack of memory.
#[derive(Clone, Copy, Debug, PartialEq, Eq)]
pub enum TraceFault {
    /// Its text is.
    Text(EventFault),
    /// The table of its insertion makes no line.
    Table(PolicyFault),
    /// The lane can't take that step.
    Lane(LaneFault),
    /// The policy can't be edited so.
    Edit(OrderFault),
}
