ghost use Rattle.std.specs.Prelude.{◌≡◌, List, None, IfSome, IfNone};
ghost use Rattle.pair_gap.specs.Gap.{IsLeastGap};
ghost use Rattle.pair_gap.specs.LeastGap.{least_gap_of, least_with};
ghost use Rattle.sel_box.specs.declared.packet.Direction.TheVariants.{Inbound, Outbound};
ghost use Rattle.spd_cut.specs.StandsFor.{StandsFor};
ghost use Rattle.spd_line.specs.Agree.{Agree};
ghost use Rattle.spd_line.specs.declared.line.LineParts.{LineParts};

use crate::laws;
use crate::pairs::{gap_between, has_no_lesser, lesser};
use crate::peer::PeerEntries;
use sel_box::Packet;
use spd_cut::Entry;
use spd_line::Verdict;

/// A packet on which two gateways differ, with the verdicts of both: A's when it goes out, and B's
/// when it comes in.
#[derive(Clone, Copy, Debug, PartialEq, Eq)]
pub struct Gap {
    pub packet: Packet,
    pub a: Verdict,
    pub b: Verdict,
}

/// The least packet on which two gateways differ: that A, whose outbound entries these are, judges
/// otherwise than its peer B (RFC 4301 section 5). Packets are in order of family, source,
/// destination, protocol, source field and destination field; judgements are compared, and neither
/// lines nor their names. `None` exactly where B judges each packet as A does.
///
/// The verdicts are those of the first lines, where the entries stand for two policies. For any
/// entries the answer is that of `least_gap_of`.
///
/// Looks at those pairs of entries that meet and are judged differently, and passes over the
/// entries of A that have no packet before the least that was found. So it takes time by the number
/// of A's entries and of such pairs, and no memory.
pub fn least_gap(a_outbound: &[Entry], b_inbound: &PeerEntries) -> Option<Gap>
    ensures value { result ≡ least_gap_of a_outbound.now b_inbound.now }
    ensures some { (a b : List LineParts) → StandsFor a_outbound.now Outbound a
        → StandsFor b_inbound.now Inbound b → IfSome result (IsLeastGap a b) }
    ensures none { (a b : List LineParts) → StandsFor a_outbound.now Outbound a
        → StandsFor b_inbound.now Inbound b → IfNone result (Agree a b) }
{
    laws::the_least_gap_is_found();
    let mut best = None;
    for entry in a_outbound {
        best = least_with(best, entry, b_inbound);
    }
    best
}

// The least of a gap and of those of an entry of A with the peer's.
fn least_with(best: Option<Gap>, entry: &Entry, peer: &PeerEntries) -> Option<Gap>
    ensures { result ≡ least_with best entry.now peer.now }
{
    if has_no_lesser(&best, entry) {
        best
    } else {
        least_of_met(best, entry, peer)
    }
}

// The same, pair by pair.
fn least_of_met(best: Option<Gap>, entry: &Entry, peer: &PeerEntries) -> Option<Gap>
    ensures { result ≡ least_with best entry.now peer.now }
{
    let mut best = best;
    let mut from = 0;
    while let Some(index) = peer.next(from, entry) {
        best = lesser(best, gap_between(entry, &peer.as_slice()[index]));
        from = index + 1;
    }
    best
}
