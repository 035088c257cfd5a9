ghost use Rattle.std.specs.Prelude.{◌≡◌, Some, None, IsTrue, if◌then◌else◌};
ghost use Rattle.sel_box.specs.Packet.{PacketFields, is_packet, protocol_fits};
ghost use Rattle.sel_text.specs.Family.{last_address};

use crate::{class, class_table};
use sel_text::Family;
use std::marker::Model;

/// The way in which a packet passes the gateway: outbound from the protected side, inbound to it
/// (RFC 4301 section 4.4.1).
#[derive(Clone, Copy, Debug, PartialEq, Eq, PartialOrd, Ord, Hash)]
pub enum Direction {
    Outbound,
    Inbound,
}

/// What a packet shows to a policy (RFC 4301 section 4.4.1.1). The protocol is 0 to 255, or 256 for
/// OPAQUE; a field is a port, a type and code, or a Mobility Header type, or 65536 for OPAQUE.
/// Packets are in order of family, source, destination, protocol, source field and destination
/// field.
#[derive(Clone, Copy, Debug, PartialEq, Eq, PartialOrd, Ord)]
pub struct Packet {
    family: Family,
    source: u128,
    destination: u128,
    protocol: u16,
    source_field: u32,
    destination_field: u32,
}

impl Model for Packet {
    ghost use Rattle.std.specs.Prelude.{IsTrue};
    ghost use Rattle.sel_box.specs.Packet.{PacketFields, is_packet};

    ghost Value = { PacketFields };

    ghost view = { λ p. record {
      family = p.family;
      source = p.source;
      destination = p.destination;
      protocol = p.protocol;
      source_field = p.source_field;
      destination_field = p.destination_field;
    } };

    ghost inverse = { λ p. record {
      family = p.family;
      source = p.source;
      destination = p.destination;
      protocol = p.protocol;
      source_field = p.source_field;
      destination_field = p.destination_field;
    } };

    ghost invariant = { λ p. IsTrue (is_packet (record {
      family = p.family;
      source = p.source;
      destination = p.destination;
      protocol = p.protocol;
      source_field = p.source_field;
      destination_field = p.destination_field;
    })) };
}

impl Packet {
    /// The packet of these values; `None` exactly where no packet shows them: an address passes the
    /// family's last, an OPAQUE protocol stands in IPv4, or the protocol's class forbids the
    /// fields. A two-port protocol (6, 17, 33, 132, 136) has two numbers up to 65535 or two OPAQUE
    /// fields. A one-field protocol (1, 58, 135) has an OPAQUE destination field, and as source
    /// field OPAQUE or a number up to 65535, for 135 up to 255. Every other protocol has two OPAQUE
    /// fields.
    pub fn new(
        family: Family,
        source: u128,
        destination: u128,
        protocol: u16,
        source_field: u32,
        destination_field: u32,
    ) -> Option<Packet>
        ensures { let fields : PacketFields = record {
          family = family;
          source = source;
          destination = destination;
          protocol = protocol;
          source_field = source_field;
          destination_field = destination_field;
        } in
            result ≡ (if is_packet fields then Some fields else None) }
    {
        let last = family.last_address();
        if source <= last
            && destination <= last
            && allows_protocol(family, protocol)
            && class_table::allows_fields(protocol, source_field, destination_field)
        {
            Some(Packet {
                family,
                source,
                destination,
                protocol,
                source_field,
                destination_field,
            })
        } else {
            None
        }
    }

    /// The version of IP. All values together are those of a packet.
    #[inline]
    pub fn family(&self) -> Family
        ensures value { result ≡ self.now.family }
        ensures packet { IsTrue (is_packet self.now) }
    {
        self.family
    }

    /// The source address, as a number.
    #[inline]
    pub fn source(&self) -> u128
        ensures { result ≡ self.now.source }
    {
        self.source
    }

    /// The destination address, as a number.
    #[inline]
    pub fn destination(&self) -> u128
        ensures { result ≡ self.now.destination }
    {
        self.destination
    }

    /// The protocol, 256 for OPAQUE.
    #[inline]
    pub fn protocol(&self) -> u16
        ensures { result ≡ self.now.protocol }
    {
        self.protocol
    }

    /// The field on the source's side, 65536 for OPAQUE.
    #[inline]
    pub fn source_field(&self) -> u32
        ensures { result ≡ self.now.source_field }
    {
        self.source_field
    }

    /// The field on the destination's side, 65536 for OPAQUE.
    #[inline]
    pub fn destination_field(&self) -> u32
        ensures { result ≡ self.now.destination_field }
    {
        self.destination_field
    }
}

// Whether a packet of the family can be of the protocol.
pub fn allows_protocol(family: Family, protocol: u16) -> bool
    ensures { result ≡ protocol_fits family protocol }
{
    match family {
        Family::Four => protocol < class::OPAQUE_PROTOCOL,
        Family::Six => protocol <= class::OPAQUE_PROTOCOL,
    }
}
