ghost use Rattle.std.specs.Prelude.{◌≡◌, IfOk, OnOk, ◌++◌};
ghost use Rattle.std.specs.Option.{option_to_list};
ghost use Rattle.ts_cover.specs.Pairs.{first_pair, meet_bounds, pair_box, pairs, row_of, span_box};

use crate::{NoMemory, Ts, TsSpan};
use sel_box::{AnyBox, RegionList};
use std::alloc::Global;
use ts_span::span;

// The boxes of all pairs, by the selectors of the initiator and then those of the responder.
#[tactic(auto, unfolding(crate::specs::Pairs::pairs))]
pub fn pairs(alloc: Global, tsi: &[Ts], tsr: &[Ts]) -> Result<RegionList, NoMemory>
    ensures { IfOk result (λ list. list ≡ pairs tsi.now tsr.now) }
{
    let mut list = RegionList::new(alloc);
    for remote in tsi {
        put_row(&mut list, remote, tsr)?;
    }
    Ok(list)
}

/// The box of the first selector of the initiator and the first of the responder; `None` where
/// there is none. Takes no memory.
pub fn first_pair(tsi: &[Ts], tsr: &[Ts]) -> Option<AnyBox>
    ensures { result ≡ first_pair tsi.now tsr.now }
{
    match (tsi, tsr) {
        ([remote, ..], [local, ..]) => pair_box(remote, local),
        _ => None,
    }
}

// Puts the boxes of one selector of the initiator with each of the responder at the end.
fn put_row(list: &mut RegionList, remote: &Ts, tsr: &[Ts]) -> Result<(), NoMemory>
    ensures { OnOk result (list.new ≡ list.old ++ row_of remote.now tsr.now) }
{
    for local in tsr {
        put_pair(list, remote, local)?;
    }
    Ok(())
}

// Puts the box of a pair at the end, where there is one.
fn put_pair(list: &mut RegionList, remote: &Ts, local: &Ts) -> Result<(), NoMemory>
    ensures { OnOk result
        (list.new ≡ list.old ++ option_to_list (pair_box remote.now local.now)) }
{
    match pair_box(remote, local) {
        Some(region) => list.push(region),
        None => Ok(()),
    }
}

// The box of a selector of the initiator, the remote side, and one of the responder.
fn pair_box(remote: &Ts, local: &Ts) -> Option<AnyBox>
    ensures { result ≡ pair_box remote.now local.now }
{
    span_box(&span(remote)?, &span(local)?)
}

// The box of what one span has on the remote side and another on the local side.
fn span_box(remote: &TsSpan, local: &TsSpan) -> Option<AnyBox>
    ensures { result ≡ span_box remote.now local.now }
{
    if remote.family != local.family {
        return None;
    }
    let protocols = meet_bounds(wide_protocols(remote), wide_protocols(local));
    AnyBox::new(
        local.family,
        [
            local.addresses,
            remote.addresses,
            protocols,
            wide_fields(local),
            wide_fields(remote),
        ],
    )
}

// The protocols of a span in the width of a bound.
fn wide_protocols(span: &TsSpan) -> (u128, u128)
    ensures { result ≡ span.now.protocols }
{
    (u128::from(span.protocols.0), u128::from(span.protocols.1))
}

// The fields of a span in the width of a bound.
fn wide_fields(span: &TsSpan) -> (u128, u128)
    ensures { result ≡ span.now.fields }
{
    (u128::from(span.fields.0), u128::from(span.fields.1))
}

// From the greater of two lows to the lesser of two highs.
pub fn meet_bounds(a: (u128, u128), b: (u128, u128)) -> (u128, u128)
    ensures { result ≡ meet_bounds a b }
{
    (a.0.max(b.0), a.1.min(b.1))
}
