use crate::Address;

/// What a line does with what it selects (RFC 4301 section 4.4.1).
#[derive(Clone, Copy, Debug, PartialEq, Eq)]
pub enum Action {
    Discard,
    Bypass,
    Protect { ipsec: Ipsec, mode: Mode },
}

/// The IPsec protocol of a PROTECT line.
#[derive(Clone, Copy, Debug, PartialEq, Eq)]
pub enum Ipsec {
    Esp,
    Ah,
}

/// The mode of a PROTECT line, a tunnel with the gateways' addresses on both sides.
#[derive(Clone, Copy, Debug, PartialEq, Eq)]
pub enum Mode {
    Transport,
    Tunnel {
        gate_local: Address,
        gate_remote: Address,
    },
}
