ghost use Rattle.std.specs.Prelude.{◌≡◌};
ghost use Rattle.ts_narrow.specs.Allowed.{is_protect};
ghost use Rattle.ts_narrow.specs.Meets as listed;

use sel_box::{AnyBox, Region};
use spd_cut::Entry;
use spd_line::Judgement;

/// What an outbound and an inbound entry of one line have in common, where both protect.
#[derive(Clone, Copy, Debug, PartialEq, Eq)]
pub struct Meet {
    /// The points that both have.
    pub region: AnyBox,
    /// The place of the line.
    pub link: u32,
}

// What both have in common, where they are of one line and both protect.
pub fn meet_of(e: &Entry, f: &Entry) -> Option<Meet>
    ensures { result ≡ listed.meet_of e.now f.now }
{
    if e.link != f.link || !is_protect(e.judgement) || !is_protect(f.judgement) {
        return None;
    }
    let region = e.region.meet(&f.region)?;
    Some(Meet {
        region,
        link: e.link,
    })
}

// Whether packets are protected.
pub fn is_protect(judgement: Judgement) -> bool
    ensures { result ≡ is_protect judgement }
{
    matches!(judgement, Judgement::Protect { .. })
}
