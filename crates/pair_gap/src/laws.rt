//! What the definitions of gaps come to, each law the contract of a function that does nothing.

ghost use Rattle.std.specs.Prelude.{◌≡◌, List, not, IsTrue, IfSome, IfNone};
ghost use Rattle.std.specs.List.{list_any};
ghost use Rattle.pair_gap.specs.declared.gap.Gap.{Gap};
ghost use Rattle.pair_gap.specs.Gap.{IsLeastGap, verdict_in, verdict_out};
ghost use Rattle.pair_gap.specs.GapRegions.{gap_regions};
ghost use Rattle.pair_gap.specs.LeastGap.{least_gap_of};
ghost use Rattle.sel_box.specs.Boxes.{box_has};
ghost use Rattle.sel_box.specs.Packet.{PacketFields, is_packet};
ghost use Rattle.sel_box.specs.Point.{view_of};
ghost use Rattle.sel_box.specs.declared.packet.Direction.TheVariants.{Inbound, Outbound};
ghost use Rattle.spd_cut.specs.declared.entry.Entry.{Entry};
ghost use Rattle.spd_cut.specs.StandsFor.{StandsFor};
ghost use Rattle.spd_line.specs.Agree.{Agree, same_judgement};
ghost use Rattle.spd_line.specs.declared.line.LineParts.{LineParts};

/// Where entries stand for two policies, the gap of the entries is a packet that the one judges
/// otherwise when it goes out than the other when it comes in, with the verdicts of the first lines
/// that select it in each, and no lesser packet is judged differently. Where there is none, the
/// policies agree.
pub fn the_least_gap_is_found()
    ensures some { (a b : List LineParts) (outbound inbound : List Entry)
        → StandsFor outbound Outbound a → StandsFor inbound Inbound b
        → IfSome (least_gap_of outbound inbound) (IsLeastGap a b) }
    ensures none { (a b : List LineParts) (outbound inbound : List Entry)
        → StandsFor outbound Outbound a → StandsFor inbound Inbound b
        → IfNone (least_gap_of outbound inbound) (Agree a b) }
{
    sel_box::laws::packet_order();
    spd_line::laws::judgements_are_compared();
}

/// Two policies have one least gap at most, and none where they agree.
pub fn one_least_gap()
    ensures one { (a b : List LineParts) (gap other : Gap)
        → IsLeastGap a b gap → IsLeastGap a b other → gap ≡ other }
    ensures none { (a b : List LineParts) (gap : Gap) → IsLeastGap a b gap → Agree a b → ⊥ }
{
    sel_box::laws::packet_order();
}

/// Where entries stand for two policies, a packet lies in one of the regions in which they differ
/// exactly where the policies judge it differently.
pub fn regions_have_the_gaps()
    ensures { (a b : List LineParts) (outbound inbound : List Entry) (p : PacketFields)
        → StandsFor outbound Outbound a → StandsFor inbound Inbound b → IsTrue (is_packet p)
        → list_any (λ region. box_has region (view_of Outbound p)) (gap_regions outbound inbound)
        ≡ not (same_judgement (verdict_out a p).judgement (verdict_in b p).judgement) }
{
    spd_line::laws::judgements_are_compared();
}
