ghost use Rattle.std.specs.Prelude.{◌≡◌, Bool, IfOk, find};
ghost use Rattle.std.specs.Option.{option_to_list};
ghost use Rattle.ts_narrow.specs.declared.meets.Meet.{Meet};
ghost use Rattle.ts_narrow.specs.Meets as listed;

use crate::NoMemory;
use crate::inbound::Inbound;
use crate::meets::{Meet, is_protect, meet_of};
use spd_cut::Entry;

// A test of meets.
pub trait MeetTest {
    ghost passes: { Self → Meet → Bool };

    // Whether the meet passes.
    fn passes(&self, meet: &Meet) -> Result<bool, NoMemory>
        ensures { IfOk result (λ answer. answer ≡ passes self.now meet.now) };
}

// The first meet that passes, by the outbound entries and then the inbound ones.
#[tactic(auto, unfolding(crate::specs::Meets::meets))]
pub fn first_meet<T: MeetTest>(
    outbound: &[Entry],
    inbound: &Inbound,
    test: &T,
) -> Result<Option<Meet>, NoMemory>
    ensures { IfOk result (λ found. found
        ≡ find (T.passes test.now) (listed.meets outbound.now inbound.now)) }
{
    for e in outbound {
        match first_meet_with(e, inbound, test)? {
            Some(found) => return Ok(Some(found)),
            None => {}
        }
    }
    Ok(None)
}

// The first of one outbound entry. Only inbound entries are looked at that meet it, and none where
// it doesn't protect.
fn first_meet_with<T: MeetTest>(
    e: &Entry,
    inbound: &Inbound,
    test: &T,
) -> Result<Option<Meet>, NoMemory>
    ensures { IfOk result (λ found. found
        ≡ find (T.passes test.now) (listed.meets_with e.now inbound.now)) }
{
    if !is_protect(e.judgement) {
        return Ok(None);
    }
    sel_tree::laws::the_first_box_that_meets_is_found();
    let mut from = 0;
    while let Some(index) = inbound.next_met(from, &e.region) {
        match passing_meet_of(e, &inbound.as_slice()[index], test)? {
            Some(found) => return Ok(Some(found)),
            None => from = index + 1,
        }
    }
    Ok(None)
}

// The meet of two entries, where there is one and it passes.
fn passing_meet_of<T: MeetTest>(e: &Entry, f: &Entry, test: &T) -> Result<Option<Meet>, NoMemory>
    ensures { IfOk result (λ found. found
        ≡ find (T.passes test.now) (option_to_list (listed.meet_of e.now f.now))) }
{
    let Some(meet) = meet_of(e, f) else {
        return Ok(None);
    };
    if test.passes(&meet)? {
        Ok(Some(meet))
    } else {
        Ok(None)
    }
}
