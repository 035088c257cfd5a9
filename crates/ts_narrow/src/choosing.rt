ghost use Rattle.std.specs.Prelude.{◌≡◌, ◌∷◌, [], IfOk, Some, find};
ghost use Rattle.ts_cover.specs.RealParts.{says};
ghost use Rattle.ts_narrow.specs.Meets as listed;
ghost use Rattle.ts_narrow.specs.Narrowing as narrowing;

use crate::NoMemory;
use crate::choice::{Choice, Form};
use crate::inbound::Inbound;
use crate::leaving::leaves;
use crate::meets::Meet;
use crate::searching::first_meet;
use crate::trying::{Reaching, Saying, Serving};
use sel_box::AnyBox;
use spd_cut::Entry;
use std::alloc::Global;
use ts_cover::Cover;

// What is chosen, where this meet is the first with a sayable real point in some pair.
pub fn choose(
    alloc: Global,
    outbound: &[Entry],
    inbound: &Inbound,
    cover: &Cover,
    first: Option<AnyBox>,
    said: &Meet,
) -> Result<Choice, NoMemory>
    ensures { IfOk result (λ chosen. chosen ≡ narrowing.choice cover.now first said.now
        (listed.meets outbound.now inbound.now)) }
{
    let Some(first) = first else {
        return Ok(cut_to(cover, said));
    };
    let only = Cover::of_one(alloc, first)?;
    choose_for(alloc, outbound, inbound, cover, &only, &first, said)
}

// The same where there is a first pair.
fn choose_for(
    alloc: Global,
    outbound: &[Entry],
    inbound: &Inbound,
    cover: &Cover,
    only: &Cover,
    first: &AnyBox,
    said: &Meet,
) -> Result<Choice, NoMemory>
    requires { only.now ≡ first.now ∷ [] }
    ensures { IfOk result (λ chosen. chosen ≡ narrowing.choice cover.now (Some first.now) said.now
        (listed.meets outbound.now inbound.now)) }
{
    match kept_link(alloc, outbound, inbound, only, first)? {
        Some(link) => choose_by_serving(outbound, inbound, only, first, link),
        None => choose_by_saying(outbound, inbound, cover, only, first, said),
    }
}

// The line whose meets have all real points of the first pair, where it has one and there is one.
fn kept_link(
    alloc: Global,
    outbound: &[Entry],
    inbound: &Inbound,
    only: &Cover,
    first: &AnyBox,
) -> Result<Option<u32>, NoMemory>
    requires { only.now ≡ first.now ∷ [] }
    ensures { IfOk result (λ link. link ≡ narrowing.kept_link first.now
        (listed.meets outbound.now inbound.now)) }
{
    let Some(meet) = first_meet(outbound, inbound, &Reaching { cover: only })? else {
        return Ok(None);
    };
    if leaves(alloc, outbound, inbound, only, meet.link)? {
        Ok(None)
    } else {
        Ok(Some(meet.link))
    }
}

// Cut to the first meet that serves, or the first two selectors alone.
fn choose_by_serving(
    outbound: &[Entry],
    inbound: &Inbound,
    only: &Cover,
    first: &AnyBox,
    link: u32,
) -> Result<Choice, NoMemory>
    requires { only.now ≡ first.now ∷ [] }
    ensures { IfOk result (λ chosen. chosen ≡ narrowing.by_serving first.now link
        (find (narrowing.serves first.now link) (listed.meets outbound.now inbound.now))) }
{
    match first_meet(outbound, inbound, &Serving { first, link })? {
        Some(meet) => Ok(cut_to(only, &meet)),
        None => Ok(Choice {
            region: *first,
            link,
            form: Form::FirstPair,
        }),
    }
}

// Cut to the first meet with a sayable real point in the first pair, or else in some pair.
fn choose_by_saying(
    outbound: &[Entry],
    inbound: &Inbound,
    cover: &Cover,
    only: &Cover,
    first: &AnyBox,
    said: &Meet,
) -> Result<Choice, NoMemory>
    requires { only.now ≡ first.now ∷ [] }
    ensures { IfOk result (λ chosen. chosen ≡ narrowing.by_saying cover.now first.now said.now
        (find (λ meet. says (first.now ∷ []) meet.region)
        (listed.meets outbound.now inbound.now))) }
{
    match first_meet(outbound, inbound, &Saying { cover: only })? {
        Some(in_first) => Ok(cut_to(only, &in_first)),
        None => Ok(cut_to(cover, said)),
    }
}

// Every selector is cut to the part of the meet that can be written.
fn cut_to(cover: &Cover, meet: &Meet) -> Choice
    ensures { result ≡ narrowing.cut_to cover.now meet.now }
{
    Choice {
        region: cover.written_part(&meet.region),
        link: meet.link,
        form: Form::Cut,
    }
}
