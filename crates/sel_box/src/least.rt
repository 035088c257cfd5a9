ghost use Rattle.std.specs.Prelude.{◌≡◌, IfNone, IfSome, is_some};
ghost use Rattle.sel_box.specs.LeastPacket.{HasNoPacket, IsLeastPacket};
ghost use Rattle.sel_box.specs.SomePoint.{has_packet};

use crate::any_box::AnyBox;
use crate::packet::Packet;
use crate::shown::PacketRanges;

/// The least packet whose outbound view lies in the box: packets are in order of family, source,
/// destination, protocol, source field and destination field. `None` exactly where there is none.
///
/// It takes time in proportion to the classes of protocols, and no memory.
pub fn least_packet(region: &AnyBox) -> Option<Packet>
    ensures found { IfSome result (IsLeastPacket region.now) }
    ensures none { IfNone result (HasNoPacket region.now) }
    ensures test { is_some result ≡ has_packet region.now }
{
    let ranges = PacketRanges::outbound(region);
    let shown = ranges.least()?;
    Packet::new(
        ranges.family,
        ranges.source,
        ranges.destination,
        shown.protocol,
        shown.source_field,
        shown.destination_field,
    )
}
