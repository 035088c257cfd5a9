ghost use Rattle.std.specs.Prelude.{◌≡◌, ◌≤◌, ℕ, false, IfNone, IfSome, IsTrue};
ghost use Rattle.sel_text.specs.declared.family.Family.{Family};
ghost use Rattle.ts_payload.specs.Selector.{is_selector};
ghost use Rattle.ts_span.specs.Span as meaning;

use sel_box::{OPAQUE_FIELD, OPAQUE_PROTOCOL};
use sel_text::Family;
use ts_payload::Ts;

// The protocol number of the Mobility Header.
const MOBILITY: u8 = 135;

/// What a traffic selector selects on its side: a range each of addresses, protocols and fields, by
/// their first and last value. 256 is the OPAQUE protocol, 65536 the OPAQUE field.
#[derive(Clone, Copy, Debug, PartialEq, Eq)]
pub struct TsSpan {
    /// The version of IP of the addresses.
    pub family: Family,
    /// The first and the last address, as numbers.
    pub addresses: (u128, u128),
    /// The first and the last protocol.
    pub protocols: (u16, u16),
    /// The first and the last field.
    pub fields: (u32, u32),
}

/// What the selector selects on its side (RFC 7296 section 3.13.1). The protocol 0 selects every
/// protocol, OPAQUE among them. The ports 0 and 65535 select every field, OPAQUE among them, and
/// 65535 and 0 OPAQUE alone; others select what lies between them, of the Mobility Header the types
/// whose 256-fold does. `None` exactly where no type does. Takes no memory.
pub fn span(selector: &Ts) -> Option<TsSpan>
    ensures value { result ≡ meaning.span_of selector.now }
    ensures some { IfSome result (λ span. (family : Family) (address protocol field : ℕ) →
        meaning.span_has span family address protocol field
        ≡ meaning.selects selector.now family address protocol field) }
    ensures none { IfNone result ((family : Family) (address protocol field : ℕ) →
        meaning.selects selector.now family address protocol field ≡ false) }
    ensures mobility { IfNone result (selector.now.protocol ≡ 135) }
    ensures in_order { IsTrue (is_selector selector.now)
        → IfSome result (λ span. IsTrue (meaning.is_span span)) }
{
    let fields = fields_of(selector)?;
    Some(TsSpan {
        family: selector.family,
        addresses: (selector.start, selector.end),
        protocols: protocols_of(selector.protocol),
        fields,
    })
}

// The first and the last protocol that a selector of this one selects.
fn protocols_of(protocol: u8) -> (u16, u16)
    ensures { result ≡ meaning.protocols_of protocol }
{
    match protocol {
        0 => (0, OPAQUE_PROTOCOL),
        number => (u16::from(number), u16::from(number)),
    }
}

// The first and the last field that the selector selects, where there is one.
fn fields_of(selector: &Ts) -> Option<(u32, u32)>
    ensures { result ≡ meaning.fields_of selector.now }
{
    let (start, end) = (u32::from(selector.start_port), u32::from(selector.end_port));
    if selector.has_all_ports() {
        Some((0, OPAQUE_FIELD))
    } else if selector.has_opaque_ports() {
        Some((OPAQUE_FIELD, OPAQUE_FIELD))
    } else if selector.protocol == MOBILITY {
        types_between(start, end)
    } else {
        Some((start, end))
    }
}

// The least and the greatest type whose 256-fold lies between the ports, where there is one.
fn types_between(start: u32, end: u32) -> Option<(u32, u32)>
    requires start { start ≤ 65535 }
    ensures { result ≡ meaning.types_between start end }
{
    let first = start.div_ceil(256);
    let last = end / 256;
    (first <= last).then_some((first, last))
}
