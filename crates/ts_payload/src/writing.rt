ghost use Rattle.std.specs.Prelude.{◌≡◌, ◌+◌, ◌≤◌, ◌++◌, IfOk, OnOk, IsTrue, length};
ghost use Rattle.std.specs.List.{flat_map};
ghost use Rattle.ts_payload.specs.Payload as payload;
ghost use Rattle.ts_payload.specs.Selector.{AreSelectors, is_selector};

use crate::selector::Ts;
use crate::{Bytes, NoMemory};
use sel_text::Family;
use std::alloc::Global;

/// The payload of these selectors with this Next Payload, of type 7 or 8 each, the critical bit and
/// the reserved parts 0 (RFC 7296 section 3.13). At most 255 selectors can be counted. `decode`
/// gives back at most 127 of them.
pub fn encode(alloc: Global, next: u8, selectors: &[Ts]) -> Result<Bytes, NoMemory>
    requires few { length selectors.now ≤ 255 }
    requires selectors { AreSelectors selectors.now }
    ensures { IfOk result (λ bytes. bytes ≡ payload.payload_bytes next selectors.now) }
{
    let written = bytes_of(alloc, selectors)?;
    let len = 8 + written.len();
    let mut payload = Bytes::new(alloc);
    payload.extend(&[next, 0])?;
    payload.extend(&(len as u16).to_be_bytes())?;
    payload.extend(&[selectors.len() as u8, 0, 0, 0])?;
    payload.extend(written.as_slice())?;
    Ok(payload)
}

// The bytes of selectors, one after another.
fn bytes_of(alloc: Global, selectors: &[Ts]) -> Result<Bytes, NoMemory>
    requires few { length selectors.now ≤ 255 }
    requires selectors { AreSelectors selectors.now }
    ensures bytes { IfOk result (λ bytes. bytes ≡ flat_map payload.selector_bytes selectors.now) }
    ensures len { IfOk result (λ bytes. length bytes ≤ 10200) }
{
    let mut bytes = Bytes::new(alloc);
    for selector in selectors {
        put_selector(&mut bytes, selector)?;
    }
    Ok(bytes)
}

// Puts the bytes of a selector at the end.
fn put_selector(bytes: &mut Bytes, selector: &Ts) -> Result<(), NoMemory>
    requires { IsTrue (is_selector selector.now) }
    ensures bytes { OnOk result (bytes.new ≡ bytes.old ++ payload.selector_bytes selector.now) }
    ensures len { OnOk result (length bytes.new ≤ length bytes.old + 40) }
{
    match selector.family {
        Family::Four => {
            bytes.extend(&[7, selector.protocol, 0, 16])?;
            put_ports(bytes, selector)?;
            bytes.extend(&(selector.start as u32).to_be_bytes())?;
            bytes.extend(&(selector.end as u32).to_be_bytes())
        }
        Family::Six => {
            bytes.extend(&[8, selector.protocol, 0, 40])?;
            put_ports(bytes, selector)?;
            bytes.extend(&selector.start.to_be_bytes())?;
            bytes.extend(&selector.end.to_be_bytes())
        }
    }
}

// Puts the bytes of the two ports at the end.
fn put_ports(bytes: &mut Bytes, selector: &Ts) -> Result<(), NoMemory>
    ensures { OnOk result (bytes.new
        ≡ bytes.old ++ payload.port_bytes selector.now) }
{
    bytes.extend(&selector.start_port.to_be_bytes())?;
    bytes.extend(&selector.end_port.to_be_bytes())
}
