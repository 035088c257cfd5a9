ghost use Rattle.std.specs.Prelude.{◌≡◌, Some, None, IsTrue, if◌then◌else◌};
ghost use Rattle.sel_box.specs.Point.{IsReal, PointFields, is_point, view_of};

use crate::class;
use crate::packet::{Direction, Packet};
use sel_text::Family;
use std::marker::Model;

/// What a policy sees of a packet in one direction (RFC 4301 section 4.4.1): the local side, the
/// remote side and the protocol, numbered as in `Packet`. It need not be the view of a packet.
#[derive(Clone, Copy, Debug, PartialEq, Eq)]
pub struct Point {
    family: Family,
    local: u128,
    remote: u128,
    protocol: u16,
    local_field: u32,
    remote_field: u32,
}

impl Model for Point {
    ghost use Rattle.std.specs.Prelude.{IsTrue};
    ghost use Rattle.sel_box.specs.Point.{PointFields, is_point};

    ghost Value = { PointFields };

    ghost view = { λ x. record {
      family = x.family;
      local = x.local;
      remote = x.remote;
      protocol = x.protocol;
      local_field = x.local_field;
      remote_field = x.remote_field;
    } };

    ghost inverse = { λ x. record {
      family = x.family;
      local = x.local;
      remote = x.remote;
      protocol = x.protocol;
      local_field = x.local_field;
      remote_field = x.remote_field;
    } };

    ghost invariant = { λ x. IsTrue (is_point (record {
      family = x.family;
      local = x.local;
      remote = x.remote;
      protocol = x.protocol;
      local_field = x.local_field;
      remote_field = x.remote_field;
    })) };
}

impl Point {
    /// The point of these values; `None` exactly where a value passes its axis: an address the
    /// family's last, the protocol 256, a field 65536.
    pub fn new(
        family: Family,
        local: u128,
        remote: u128,
        protocol: u16,
        local_field: u32,
        remote_field: u32,
    ) -> Option<Point>
        ensures { let fields : PointFields = record {
          family = family;
          local = local;
          remote = remote;
          protocol = protocol;
          local_field = local_field;
          remote_field = remote_field;
        } in
            result ≡ (if is_point fields then Some fields else None) }
    {
        let last = family.last_address();
        if local <= last
            && remote <= last
            && protocol <= class::OPAQUE_PROTOCOL
            && local_field <= class::OPAQUE_FIELD
            && remote_field <= class::OPAQUE_FIELD
        {
            Some(Point {
                family,
                local,
                remote,
                protocol,
                local_field,
                remote_field,
            })
        } else {
            None
        }
    }

    /// The version of IP. All values together are those of a point.
    #[inline]
    pub fn family(&self) -> Family
        ensures value { result ≡ self.now.family }
        ensures point { IsTrue (is_point self.now) }
    {
        self.family
    }

    /// The address on the local side, as a number.
    #[inline]
    pub fn local(&self) -> u128
        ensures { result ≡ self.now.local }
    {
        self.local
    }

    /// The address on the remote side, as a number.
    #[inline]
    pub fn remote(&self) -> u128
        ensures { result ≡ self.now.remote }
    {
        self.remote
    }

    /// The protocol, 256 for OPAQUE.
    #[inline]
    pub fn protocol(&self) -> u16
        ensures { result ≡ self.now.protocol }
    {
        self.protocol
    }

    /// The field on the local side, 65536 for OPAQUE.
    #[inline]
    pub fn local_field(&self) -> u32
        ensures { result ≡ self.now.local_field }
    {
        self.local_field
    }

    /// The field on the remote side, 65536 for OPAQUE.
    #[inline]
    pub fn remote_field(&self) -> u32
        ensures { result ≡ self.now.remote_field }
    {
        self.remote_field
    }
}

/// The point at which a policy judges the packet in that direction: outbound the source side is
/// local, inbound the destination side. It is a real point.
#[inline]
pub fn view(direction: Direction, packet: &Packet) -> Point
    ensures value { result ≡ view_of direction packet.now }
    ensures real { IsReal (view_of direction packet.now) }
{
    match direction {
        Direction::Outbound => Point {
            family: packet.family(),
            local: packet.source(),
            remote: packet.destination(),
            protocol: packet.protocol(),
            local_field: packet.source_field(),
            remote_field: packet.destination_field(),
        },
        Direction::Inbound => Point {
            family: packet.family(),
            local: packet.destination(),
            remote: packet.source(),
            protocol: packet.protocol(),
            local_field: packet.destination_field(),
            remote_field: packet.source_field(),
        },
    }
}
