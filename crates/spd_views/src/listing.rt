ghost use Rattle.std.specs.Prelude.{◌≡◌, ◌++◌, IfOk, OnOk, map};
ghost use Rattle.spd_views.specs.Listing.{view_has, is_protect, listed, listed_in};
ghost use Rattle.spd_views.specs.Listing.{listing, view_text};

use lists::{List, NoMemory};
use sel_box::Direction;
use spd_cut::Entry;
use spd_line::Judgement;
use std::alloc::Global;

/// The three views of a decorrelated policy (RFC 4301 section 4.4.1).
#[derive(Clone, Copy, Debug, PartialEq, Eq)]
pub enum View {
    /// The entries of both directions that protect.
    SpdS,
    /// The outbound entries that let packets pass or discard them.
    SpdO,
    /// The inbound entries that let packets pass or discard them.
    SpdI,
}

impl View {
    /// The name of the view.
    pub fn name(self) -> &'static str
        ensures { result.now ≡ view_text self }
    {
        match self {
            View::SpdS => "SPD-S",
            View::SpdO => "SPD-O",
            View::SpdI => "SPD-I",
        }
    }
}

/// An entry of a view.
#[derive(Clone, Copy, Debug)]
pub struct Listing<'a> {
    pub direction: Direction,
    pub entry: &'a Entry,
}

/// Entries of a view, in order.
pub type ListingList<'a> = List<Listing<'a>>;

/// The entries of a view: of the outbound entries those that it has, in their order, and then of
/// the inbound ones. They are lent, so memory is taken for a direction and a reference each. Takes
/// one pass over both.
pub fn list<'a>(
    alloc: Global,
    view: View,
    outbound: &'a [Entry],
    inbound: &'a [Entry],
) -> Result<ListingList<'a>, NoMemory>
    ensures { IfOk result (λ list. map listed list ≡ listing view outbound.now inbound.now) }
{
    let mut listings = List::new(alloc);
    append_listings(view, Direction::Outbound, outbound, &mut listings)?;
    append_listings(view, Direction::Inbound, inbound, &mut listings)?;
    Ok(listings)
}

// Puts the entries of a direction that a view has at the end of a list.
fn append_listings<'a>(
    view: View,
    direction: Direction,
    entries: &'a [Entry],
    listings: &mut ListingList<'a>,
) -> Result<(), NoMemory>
    ensures { OnOk result (map listed listings.new
        ≡ map listed listings.old ++ listed_in view direction entries.now) }
{
    for entry in entries {
        if view_has(view, direction, &entry.judgement) {
            listings.push(Listing { direction, entry })?;
        }
    }
    Ok(())
}

fn view_has(view: View, direction: Direction, judgement: &Judgement) -> bool
    ensures { result ≡ view_has view direction judgement.now }
{
    match (view, direction) {
        (View::SpdS, _) => is_protect(judgement),
        (View::SpdO, Direction::Outbound) | (View::SpdI, Direction::Inbound) => {
            !is_protect(judgement)
        }
        (View::SpdO, Direction::Inbound) | (View::SpdI, Direction::Outbound) => false,
    }
}

fn is_protect(judgement: &Judgement) -> bool
    ensures { result ≡ is_protect judgement.now }
{
    matches!(judgement, Judgement::Protect { .. })
}
