//! What follows from the definitions of boxes and points.

ghost use Rattle.std.specs.Prelude.{◌≡◌, ◌↔◌, true, IsTrue};
ghost use Rattle.std.specs.Option.{IsSome};
ghost use Rattle.std.specs.Ordering.{is_le};
ghost use Rattle.sel_box.specs.declared.any_box.AnyBox.{AnyBox};
ghost use Rattle.sel_box.specs.Boxes.{box_has};
ghost use Rattle.sel_box.specs.BoxRegion.{box_meet, box_minus};
ghost use Rattle.sel_box.specs.Point.{IsReal, PointFields, is_point};
ghost use Rattle.sel_box.specs.Packet.{PacketFields};
ghost use Rattle.sel_box.specs.LeastPacket.{IsLeastPacket, IsTotalOrder, is_packet_in};
ghost use Rattle.sel_box.specs.LeastPacket.{packet_at_most};
ghost use Rattle.sel_box.specs.SomePoint.{has_packet, has_real_point};
ghost use Rattle.sel_box.specs.ByAxes.{LiesByAxes, pieces_by_axes};

use crate::packet::Packet;

/// A box has a point exactly where they are of one family, and on each axis the point's value lies
/// from the box's low to its high.
pub fn box_by_axes()
    ensures { (b : AnyBox) (x : PointFields) → (box_has b x ≡ true) ↔ LiesByAxes b x }
{}

/// What is left of a box without another that it meets: on each axis in turn the piece below and
/// the piece above the other's range, with what both have in common on the axes before, and the
/// box's own range on the axes after.
pub fn pieces_by_axes()
    ensures { (a b : AnyBox) → IsSome (box_meet a b) → box_minus a b ≡ pieces_by_axes a b }
{}

/// The test of a box for real points passes exactly where some real point lies in it, and that for
/// packets exactly where some packet's outbound view does.
pub fn real_points()
    ensures real { (b : AnyBox) →
        IsTrue (has_real_point b) ↔ ((x : PointFields) × (IsTrue (box_has b x)) × IsReal x) }
    ensures packet { (b : AnyBox) →
        IsTrue (has_packet b) ↔ ((p : PacketFields) × (IsTrue (is_packet_in b p))) }
{}

/// A real point is a point: each of its values lies on its axis.
pub fn real_points_are_points()
    ensures { (x : PointFields) → IsReal x → IsTrue (is_point x) }
{}

/// The order of packets is a total order, the one in which `Packet` compares; so a box has one
/// least packet at most.
pub fn packet_order()
    ensures order { IsTotalOrder packet_at_most }
    ensures compared { (p q : PacketFields) →
        is_le (⟦<Packet as Ord>⟧.cmp p q) ≡ packet_at_most p q }
    ensures one_least { (b : AnyBox) (p q : PacketFields) →
        IsLeastPacket b p → IsLeastPacket b q → p ≡ q }
{}
