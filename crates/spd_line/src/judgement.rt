use crate::{Address, Ipsec, Name};

/// What happens to a packet (RFC 4301 section 5).
#[derive(Clone, Copy, Debug, PartialEq, Eq)]
pub enum Judgement {
    Discard,
    Bypass,
    Protect { ipsec: Ipsec, carriage: Carriage },
}

/// How a protected packet is carried. The gates of a tunnel stand in the order of travel: outbound
/// the local one first, inbound the remote one.
#[derive(Clone, Copy, Debug, PartialEq, Eq)]
pub enum Carriage {
    Transport,
    Tunnel { first: Address, second: Address },
}

/// The judgement of a packet and the line that gave it: lines are counted from 1, and the count
/// plus 1 is the line `final` behind them all.
#[derive(Clone, Copy, Debug, PartialEq, Eq)]
pub struct Verdict {
    pub line: u32,
    pub judgement: Judgement,
}

/// A judgement and the name of the line that gave it.
#[derive(Clone, Copy, Debug, PartialEq, Eq)]
pub struct Answer {
    pub name: Name,
    pub judgement: Judgement,
}
