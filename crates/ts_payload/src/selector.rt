use crate::fault::TsFault;
use sel_text::Family;

/// A traffic selector of a payload (RFC 7296 section 3.13.1): packets of one family whose address
/// on one side lies from `start` to `end`, and whose protocol and field the other values say.
#[derive(Clone, Copy, Debug, PartialEq, Eq)]
pub struct Ts {
    /// The version of IP of the addresses: TS Type 7 or 8.
    pub family: Family,
    /// The protocol, 0 for every one.
    pub protocol: u8,
    /// The start port. The ports 0 and 65535 are of every field, 65535 and 0 of OPAQUE alone. A
    /// type and code of ICMP are 256 times the type plus the code, and a Mobility Header type is
    /// 256 times the type.
    pub start_port: u16,
    /// The end port.
    pub end_port: u16,
    /// The starting address, as a number.
    pub start: u128,
    /// The ending address, as a number.
    pub end: u128,
}

impl Ts {
    ghost use Rattle.std.specs.Prelude.{◌≡◌, Ok, Err, MatchResult, Some, None};
    ghost use Rattle.ts_payload.specs.Selector.{has_all_ports, has_opaque_ports, rule_fault};

    /// Whether the ports are of every field, OPAQUE among them.
    pub fn has_all_ports(&self) -> bool
        ensures { result ≡ has_all_ports self.now }
    {
        self.start_port == 0 && self.end_port == u16::MAX
    }

    /// Whether the ports are of OPAQUE alone.
    pub fn has_opaque_ports(&self) -> bool
        ensures { result ≡ has_opaque_ports self.now }
    {
        self.start_port == u16::MAX && self.end_port == 0
    }

    // Nothing where the selector with this index keeps the rules; else the fault of the first that
    // it breaks.
    pub(crate) fn keep_rules(&self, index: u32) -> Result<(), TsFault>
        ensures { MatchResult result (λ _. rule_fault index self.now ≡ None)
            (λ fault. rule_fault index self.now ≡ Some fault) }
    {
        if self.start > self.end {
            return Err(TsFault::AddressOrder { index });
        }
        if self.start_port > self.end_port && !self.has_opaque_ports() {
            return Err(TsFault::PortOrder { index });
        }
        if self.protocol == 0 && !self.has_all_ports() && !self.has_opaque_ports() {
            return Err(TsFault::PortNoProtocol { index });
        }
        Ok(())
    }
}
