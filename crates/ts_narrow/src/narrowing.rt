ghost use Rattle.std.specs.Prelude.{◌≡◌, ◌≤◌, false, true, length, List, IfOk};
ghost use Rattle.spd_line.specs.declared.line.LineParts.{LineParts};
ghost use Rattle.ts_cover.specs.Pairs.{first_pair};
ghost use Rattle.ts_cover.specs.RealParts.{says};
ghost use Rattle.ts_cover.specs.Writing.{can_write};
ghost use Rattle.ts_payload.specs.Selector.{AreSelectors};
ghost use Rattle.ts_narrow.specs.declared.choice.Form.{Form};
ghost use Rattle.ts_narrow.specs.declared.narrowed.Narrowed.{Narrowed};
ghost use Rattle.ts_narrow.specs.Allowed.{StandForBoth};
ghost use Rattle.ts_narrow.specs.Answered as answered;
ghost use Rattle.ts_narrow.specs.IsNarrowing.{IsNarrowing};
ghost use Rattle.ts_narrow.specs.Meets as listed;
ghost use Rattle.ts_narrow.specs.Narrowing as meaning;

use crate::choice::{Choice, Form};
use crate::choosing::choose;
use crate::inbound::Inbound;
use crate::leaving::leaves;
use crate::meets::Meet;
use crate::searching::first_meet;
use crate::trying::{Missing, Saying};
use crate::{Narrowed, NoMemory, Proposal, Ts, TsList};
use spd_cut::Entry;
use std::alloc::Global;
use ts_cover::{Cover, cut_selectors, first_pair, local_side, remote_side};

/// The answer of a responder to a proposal, by the entries of its policy (RFC 7296 section 2.9).
/// The initiator is the remote side.
///
/// Where the entries stand for a policy: the answer covers only what the proposal covers and one
/// line protects in both directions, and some packet of it; and the first pair of selectors is kept
/// where one line protects all of it.
///
/// Looks, in a few passes, at the pairs of an outbound and an inbound entry that meet, and with each
/// at the pairs of selectors that meet both. Takes memory for trees of the inbound entries, of the
/// pairs of selectors and of the meets of a line (`sel_tree::BoxTree`), and for what is left of the
/// pairs while they are cut. After `NoMemory` there is no answer.
pub fn narrow(
    alloc: Global,
    outbound: &[Entry],
    inbound: &[Entry],
    proposal: &Proposal,
) -> Result<Narrowed, NoMemory>
    requires tsi { AreSelectors proposal.now.tsi }
    requires tsr { AreSelectors proposal.now.tsr }
    requires few_tsi { length proposal.now.tsi ≤ 127 }
    requires few_tsr { length proposal.now.tsr ≤ 127 }
    ensures narrowing { IfOk result (λ answer. answer ≡ meaning.narrowing
        outbound.now inbound.now proposal.now.tsi proposal.now.tsr) }
    ensures unacceptable { IfOk result (λ answer.
        (lines : List LineParts) → StandForBoth lines outbound.now inbound.now
        → answered.RefusesRightly lines proposal.now.tsi proposal.now.tsr answer) }
    ensures whole { IfOk result (λ answer.
        (lines : List LineParts) → StandForBoth lines outbound.now inbound.now
        → answered.GivesWhole lines proposal.now.tsi proposal.now.tsr answer) }
    ensures within { IfOk result (λ answer.
        (lines : List LineParts) → StandForBoth lines outbound.now inbound.now
        → answered.IsWithin lines proposal.now.tsi proposal.now.tsr answer) }
    ensures some { IfOk result (λ answer.
        (lines : List LineParts) → StandForBoth lines outbound.now inbound.now
        → answered.CoversSome answer) }
    ensures first { IfOk result (λ answer.
        (lines : List LineParts) → StandForBoth lines outbound.now inbound.now
        → answered.KeepsFirst lines proposal.now.tsi proposal.now.tsr answer) }
    ensures notice { IfOk result (λ answer.
        (lines : List LineParts) → StandForBoth lines outbound.now inbound.now
        → answered.TellsOfLeft lines proposal.now.tsi proposal.now.tsr answer) }
    ensures is_narrowing { IfOk result (λ answer.
        (lines : List LineParts) → StandForBoth lines outbound.now inbound.now
        → IsNarrowing lines (listed.meets outbound.now inbound.now)
        proposal.now.tsi proposal.now.tsr answer) }
    ensures selectors { IfOk result (answered.HasSelectors proposal.now.tsi proposal.now.tsr) }
{
    answer(
        alloc,
        outbound,
        inbound,
        proposal.tsi.as_slice(),
        proposal.tsr.as_slice(),
    )
}

// The answer, by boxes.
fn answer(
    alloc: Global,
    outbound: &[Entry],
    inbound: &[Entry],
    tsi: &[Ts],
    tsr: &[Ts],
) -> Result<Narrowed, NoMemory>
    requires tsi { AreSelectors tsi.now }
    requires tsr { AreSelectors tsr.now }
    ensures { IfOk result (λ answer. answer
        ≡ meaning.narrowing outbound.now inbound.now tsi.now tsr.now) }
{
    let inbound = Inbound::new(alloc, inbound)?;
    answer_by(alloc, outbound, &inbound, tsi, tsr)
}

// The same, by the inbound entries that each outbound one meets.
#[tactic(auto, unfolding(crate::specs::Narrowing::narrowing))]
fn answer_by(
    alloc: Global,
    outbound: &[Entry],
    inbound: &Inbound,
    tsi: &[Ts],
    tsr: &[Ts],
) -> Result<Narrowed, NoMemory>
    requires tsi { AreSelectors tsi.now }
    requires tsr { AreSelectors tsr.now }
    ensures { IfOk result (λ answer. answer
        ≡ meaning.narrowing outbound.now inbound.now tsi.now tsr.now) }
{
    let cover = Cover::new(alloc, tsi, tsr)?;
    let Some(said) = first_meet(outbound, inbound, &Saying { cover: &cover })? else {
        return Ok(Narrowed::Unacceptable);
    };
    let left = leaves(alloc, outbound, inbound, &cover, said.link)?;
    if left {
        return chosen_answer(alloc, outbound, inbound, &cover, tsi, tsr, &said);
    }
    whole(alloc, tsi, tsr, said.link)
}

// The answer where no line allows all, and this meet is the first with a sayable real point in some
// pair.
fn chosen_answer(
    alloc: Global,
    outbound: &[Entry],
    inbound: &Inbound,
    cover: &Cover,
    tsi: &[Ts],
    tsr: &[Ts],
    said: &Meet,
) -> Result<Narrowed, NoMemory>
    requires tsi { AreSelectors tsi.now }
    requires tsr { AreSelectors tsr.now }
    requires said { says cover.now said.now.region ≡ true }
    ensures { IfOk result (λ answer. answer ≡ meaning.answer_of tsi.now tsr.now cover.now
        (listed.meets outbound.now inbound.now)
        (meaning.choice cover.now (first_pair tsi.now tsr.now) said.now
        (listed.meets outbound.now inbound.now))) }
{
    let first = first_pair(tsi, tsr);
    let chosen = choose(alloc, outbound, inbound, cover, first, said)?;
    answer_of(alloc, outbound, inbound, cover, tsi, tsr, &chosen)
}

// The proposal itself.
fn whole(alloc: Global, tsi: &[Ts], tsr: &[Ts], link: u32) -> Result<Narrowed, NoMemory>
    ensures { IfOk result (λ answer. answer ≡ meaning.pair_of tsi.now tsr.now link false) }
{
    let tsi = copied(alloc, tsi)?;
    let tsr = copied(alloc, tsr)?;
    Ok(Narrowed::Pair {
        tsi,
        tsr,
        link,
        additional: false,
    })
}

// A list of the selectors.
fn copied(alloc: Global, selectors: &[Ts]) -> Result<TsList, NoMemory>
    ensures { IfOk result (λ list. list ≡ selectors.now) }
{
    let mut list = TsList::new(alloc);
    list.extend(selectors)?;
    Ok(list)
}

// The answer by what is chosen.
fn answer_of(
    alloc: Global,
    outbound: &[Entry],
    inbound: &Inbound,
    cover: &Cover,
    tsi: &[Ts],
    tsr: &[Ts],
    chosen: &Choice,
) -> Result<Narrowed, NoMemory>
    requires tsi { AreSelectors tsi.now }
    requires tsr { AreSelectors tsr.now }
    requires writable { chosen.now.form ≡ Form.Cut → can_write chosen.now.region ≡ true }
    ensures { IfOk result (λ answer. answer ≡ meaning.answer_of tsi.now tsr.now cover.now
        (listed.meets outbound.now inbound.now) chosen.now) }
{
    let missing = Missing {
        alloc,
        cover,
        region: chosen.region,
    };
    let additional = first_meet(outbound, inbound, &missing)?.is_some();
    let tsi = tsi_of(alloc, chosen, tsi)?;
    let tsr = tsr_of(alloc, chosen, tsr)?;
    Ok(Narrowed::Pair {
        tsi,
        tsr,
        link: chosen.link,
        additional,
    })
}

// The selectors of the initiator by what is chosen.
fn tsi_of(alloc: Global, chosen: &Choice, tsi: &[Ts]) -> Result<TsList, NoMemory>
    requires tsi { AreSelectors tsi.now }
    requires writable { chosen.now.form ≡ Form.Cut → can_write chosen.now.region ≡ true }
    ensures { IfOk result (λ list. list ≡ meaning.tsi_of chosen.now chosen.now.form tsi.now) }
{
    match chosen.form {
        Form::Cut => cut_selectors(alloc, &remote_side(&chosen.region), tsi),
        Form::FirstPair => copied(alloc, &tsi[..tsi.len().min(1)]),
    }
}

// The selectors of the responder by what is chosen.
fn tsr_of(alloc: Global, chosen: &Choice, tsr: &[Ts]) -> Result<TsList, NoMemory>
    requires tsr { AreSelectors tsr.now }
    requires writable { chosen.now.form ≡ Form.Cut → can_write chosen.now.region ≡ true }
    ensures { IfOk result (λ list. list ≡ meaning.tsr_of chosen.now chosen.now.form tsr.now) }
{
    match chosen.form {
        Form::Cut => cut_selectors(alloc, &local_side(&chosen.region), tsr),
        Form::FirstPair => copied(alloc, &tsr[..tsr.len().min(1)]),
    }
}
