ghost use Rattle.std.specs.Prelude.{◌≡◌, ◌*◌, ◌≤◌, ◌++◌, true, length, IfOk, IsTrue, OnOk};
ghost use Rattle.ts_payload.specs.Selector.{AreSelectors, is_selector};
ghost use Rattle.std.specs.Option.{option_and_then};
ghost use Rattle.ts_span.specs.Span.{span_of};
ghost use Rattle.ts_span.specs.Spelling.{is_writable};
ghost use Rattle.ts_cover.specs.Pairs.{meet_bounds};
ghost use Rattle.ts_cover.specs.Writing as writing;

use crate::{NoMemory, Ts, TsList, TsSpan};
use std::alloc::Global;
use ts_span::{span, spell};

/// The selectors, each cut to a side of a box that can be written, in order: what the side has of
/// it is written as none, one or two selectors (`ts_span::spell`).
pub fn cut_selectors(alloc: Global, side: &TsSpan, selectors: &[Ts]) -> Result<TsList, NoMemory>
    requires selectors { AreSelectors selectors.now }
    requires writable { is_writable side.now ≡ true }
    ensures list { IfOk result (λ list. list ≡ writing.cut_selectors side.now selectors.now) }
    ensures selectors { AreSelectors (writing.cut_selectors side.now selectors.now) }
    ensures few { length (writing.cut_selectors side.now selectors.now)
        ≤ 2 * length selectors.now }
{
    let mut list = TsList::new(alloc);
    for selector in selectors {
        put_cut(&mut list, side, selector)?;
    }
    Ok(list)
}

// Puts a selector, cut to a side, at the end.
fn put_cut(list: &mut TsList, side: &TsSpan, selector: &Ts) -> Result<(), NoMemory>
    requires selector { is_selector selector.now ≡ true }
    requires writable { is_writable side.now ≡ true }
    ensures { OnOk result (list.new ≡ list.old ++ writing.cut_selector side.now selector.now) }
{
    match cut_span(side, selector) {
        Some(part) => spell(&part, list),
        None => Ok(()),
    }
}

// What the side has of a selector.
fn cut_span(side: &TsSpan, selector: &Ts) -> Option<TsSpan>
    ensures { result ≡ option_and_then (λ span. writing.span_meet span side.now)
        (span_of selector.now) }
{
    span_meet(&span(selector)?, side)
}

// What two spans have in common.
fn span_meet(a: &TsSpan, b: &TsSpan) -> Option<TsSpan>
    ensures { result ≡ writing.span_meet a.now b.now }
{
    let addresses = (
        a.addresses.0.max(b.addresses.0),
        a.addresses.1.min(b.addresses.1),
    );
    let protocols = (
        a.protocols.0.max(b.protocols.0),
        a.protocols.1.min(b.protocols.1),
    );
    let fields = (a.fields.0.max(b.fields.0), a.fields.1.min(b.fields.1));
    let in_order = addresses.0 <= addresses.1 && protocols.0 <= protocols.1 && fields.0 <= fields.1;
    (a.family == b.family && in_order).then_some(TsSpan {
        family: a.family,
        addresses,
        protocols,
        fields,
    })
}
