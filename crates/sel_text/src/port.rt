ghost use Rattle.std.specs.Prelude.{◌≡◌, ◌+◌, ◌*◌};
ghost use Rattle.sel_text.specs.declared.port.PortItem.TheVariants.{TypeCode};
ghost use Rattle.sel_text.specs.Port.{port_meaning, type_code_meaning};
ghost use Rattle.sel_text.specs.inner.Reading.{in_order, value_meaning, span_meaning};
ghost use Rattle.sel_text.specs.Number.{number_meaning};

use crate::fault::{TextFault, both};
use crate::number::{read_byte, read_number};
use crate::parts::{ANY, split_once};

// The word for OPAQUE alone.
const OPAQUE: &[u8] = b"opaque";

/// Ports of a selector, or its types and codes of ICMP, with the first value not above the last.
#[derive(Clone, Copy, Debug, PartialEq, Eq, Hash)]
pub enum PortItem {
    /// Every value, OPAQUE among them.
    Any,
    /// OPAQUE alone.
    Opaque,
    /// The numbers from the first to the last.
    Number { first: u16, last: u16 },
    /// The values from the first to the last, each 256 times a type plus a code.
    TypeCode { first: u16, last: u16 },
}

/// Reads a port item: `any`, `opaque`, a number `N` of at most 65535, a type and code `T/C` of at
/// most 255 each, `T/any`, `N-M` or `T/C-U/D`.
///
/// It is `OutOfRange` where a text of one of these forms has a larger number or a first value above
/// the last, and `NotInGrammar` at every other text that is refused. Takes no memory, and time in
/// proportion to the text.
pub fn read_port(text: &[u8]) -> Result<PortItem, TextFault>
    ensures { result ≡ port_meaning text.now }
{
    if text == ANY {
        return Ok(PortItem::Any);
    }
    if text == OPAQUE {
        return Ok(PortItem::Opaque);
    }
    match split_once(text, b'-') {
        Some((first, last)) => read_span(first, last),
        None => read_value(text),
    }
}

// One value, or all codes of a type.
#[tactic(auto, using(crate::proofs::Ports::value_lemmas))]
fn read_value(text: &[u8]) -> Result<PortItem, TextFault>
    ensures { result ≡ value_meaning text.now }
{
    let Some((kind, code)) = split_once(text, b'/') else {
        return read_port_number(text).map(|first| PortItem::Number { first, last: first });
    };
    if code == ANY {
        read_byte(kind, u8::MAX).map(all_codes)
    } else {
        read_type_code(kind, code).map(|first| PortItem::TypeCode { first, last: first })
    }
}

// From one value to another of the same form.
#[tactic(auto, using(crate::proofs::Ports::span_lemmas))]
fn read_span(first: &[u8], last: &[u8]) -> Result<PortItem, TextFault>
    ensures { result ≡ span_meaning first.now last.now }
{
    match (split_once(first, b'/'), split_once(last, b'/')) {
        (None, None) => in_order(both(read_port_number(first), read_port_number(last))).map(|(
            first,
            last,
        )| PortItem::Number { first, last }),
        (Some((kind, code)), Some((last_kind, last_code))) => {
            let first = read_type_code(kind, code);
            let last = read_type_code(last_kind, last_code);
            in_order(both(first, last)).map(|(first, last)| PortItem::TypeCode { first, last })
        }
        _ => Err(TextFault::NotInGrammar),
    }
}

// Refuses a first value above the last.
fn in_order(ends: Result<(u16, u16), TextFault>) -> Result<(u16, u16), TextFault>
    ensures { result ≡ in_order ends }
{
    match ends {
        Ok((first, last)) if first > last => Err(TextFault::OutOfRange),
        _ => ends,
    }
}

// Every code of a type.
fn all_codes(kind: u8) -> PortItem
    ensures { result ≡ TypeCode (256 * kind) (256 * kind + 255) }
{
    PortItem::TypeCode {
        first: u16::from_be_bytes([kind, 0]),
        last: u16::from_be_bytes([kind, u8::MAX]),
    }
}

/// Reads a type and a code, each a number of at most 255, as 256 times the type plus the code. It
/// is `NotInGrammar` where either is no number, else `OutOfRange` where either is larger.
#[tactic(auto, using(crate::proofs::Ports::type_code_by_bytes))]
pub fn read_type_code(kind: &[u8], code: &[u8]) -> Result<u16, TextFault>
    ensures { result ≡ type_code_meaning kind.now code.now }
{
    both(read_byte(kind, u8::MAX), read_byte(code, u8::MAX)).map(|(kind, code)| u16::from_be_bytes([
        kind, code,
    ]))
}

fn read_port_number(text: &[u8]) -> Result<u16, TextFault>
    ensures { result ≡ number_meaning 65535 text.now }
{
    let number = read_number(text, u128::from(u16::MAX))?;
    Ok(number as u16)
}
