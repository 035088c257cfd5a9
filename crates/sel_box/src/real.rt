ghost use Rattle.std.specs.Prelude.{◌≡◌, ◌↔◌, IsTrue};
ghost use Rattle.sel_box.specs.Packet.{is_packet};
ghost use Rattle.sel_box.specs.Point.{IsReal, PointFields, packet_at, real_point};
ghost use Rattle.sel_box.specs.Boxes.{box_has};
ghost use Rattle.sel_box.specs.SomePoint.{has_real_point};

use crate::any_box::AnyBox;
use crate::packet::{Direction, Packet};
use crate::point::Point;
use crate::shown::PacketRanges;

/// Whether the point is the view of some packet, outbound or inbound (RFC 4301 section 4.4.1). No
/// memory.
pub fn is_real(point: &Point) -> bool
    ensures test { result ≡ real_point point.now }
    ensures real { IsTrue result ↔ IsReal point.now }
{
    is_view(Direction::Outbound, point) || is_view(Direction::Inbound, point)
}

/// Whether the box has a real point: the view of some packet, outbound or inbound. A protocol that
/// shows one field shows it on the sender's side alone, so a box may have views of inbound packets
/// and none of an outbound one.
///
/// It takes time in proportion to the classes of protocols, and no memory.
#[tactic(auto, unfolding(crate::specs::SomePoint::has_real_point))]
pub fn has_real(region: &AnyBox) -> bool
    ensures test { result ≡ has_real_point region.now }
    ensures real { IsTrue result ↔
        ((x : PointFields) × (IsTrue (box_has region.now x)) × IsReal x) }
{
    PacketRanges::outbound(region).show_some() || PacketRanges::inbound(region).show_some()
}

// Whether the point is the view of some packet in that direction.
fn is_view(direction: Direction, point: &Point) -> bool
    ensures { result ≡ is_packet (packet_at direction point.now) }
{
    match direction {
        Direction::Outbound => Packet::new(
            point.family(),
            point.local(),
            point.remote(),
            point.protocol(),
            point.local_field(),
            point.remote_field(),
        )
        .is_some(),
        Direction::Inbound => Packet::new(
            point.family(),
            point.remote(),
            point.local(),
            point.protocol(),
            point.remote_field(),
            point.local_field(),
        )
        .is_some(),
    }
}
