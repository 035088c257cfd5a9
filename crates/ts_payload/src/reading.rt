ghost use Rattle.std.specs.Prelude.{◌≡◌, ◌≢◌, ◌≤◌, ◌+◌, ◌++◌, Ok, Err, Some, None, length};
ghost use Rattle.std.specs.Prelude.{IfOk, IfErr, OnOk};
ghost use Rattle.std.specs.Option.{option_to_list};
ghost use Rattle.ts_payload.specs.declared.fault.TsFault.{TsFault};
ghost use Rattle.ts_payload.specs.Payload.{IsPayload, IsPayloadFault};
ghost use Rattle.ts_payload.specs.Piece.{behind_piece, first_piece, next_fault, selector_in};
ghost use Rattle.ts_payload.specs.Reading as reading;
ghost use Rattle.ts_payload.specs.Selector.{AreSelectors};

use crate::fault::TsFault;
use crate::number::number_at;
use crate::piece::read_piece;
use crate::selector::Ts;
use crate::{NoMemory, TsList};
use std::alloc::Global;

// The bytes of a header.
const HEADER_LEN: usize = 8;

// The most selectors of a payload.
const MOST_SELECTORS: u8 = 127;

/// Reads a whole traffic selector payload (RFC 7296 section 3.13): the selectors of TS Types 7 and
/// 8, in order. Another type of a length that fits is passed over, and counts as a selector. Next
/// Payload and the reserved parts may be anything. A payload without selectors gives an empty list.
///
/// Bytes that are no payload are refused by the first of their faults, in the order of `TsFault`.
/// It goes over the bytes once, and takes memory for the list alone.
pub fn decode(alloc: Global, bytes: &[u8]) -> Result<TsList, TsFault>
    ensures list { IfOk result (λ list. reading.payload_of bytes.now ≡ Ok list) }
    ensures fault { IfErr result (λ fault. fault ≢ TsFault.NoMemory
        → reading.payload_of bytes.now ≡ Err fault) }
    ensures payload { IfOk result (λ list. IsPayload bytes.now list) }
    ensures first_fault { IfErr result (λ fault. fault ≢ TsFault.NoMemory
        → IsPayloadFault bytes.now fault) }
    ensures selectors { IfOk result AreSelectors }
    ensures few { IfOk result (λ list. length list ≤ 127) }
{
    read_payload(alloc, bytes)
}

// What decode gives, by what reading from left to right gives.
#[tactic(auto, unfolding(crate::specs::Reading::payload_of))]
fn read_payload(alloc: Global, bytes: &[u8]) -> Result<TsList, TsFault>
    ensures list { IfOk result (λ list. reading.payload_of bytes.now ≡ Ok list) }
    ensures fault { IfErr result (λ fault. fault ≢ TsFault.NoMemory
        → reading.payload_of bytes.now ≡ Err fault) }
    ensures selectors { IfOk result AreSelectors }
    ensures few { IfOk result (λ list. length list ≤ 127) }
{
    if bytes.len() < HEADER_LEN {
        return Err(TsFault::Short);
    }
    if number_at(bytes, 2, 2) != bytes.len() as u128 {
        return Err(TsFault::LengthMismatch);
    }
    let count = number_at(bytes, 4, 1) as u8;
    if count > MOST_SELECTORS {
        return Err(TsFault::TooMany);
    }
    read_selectors(alloc, count, &bytes[HEADER_LEN..])
}

// So many selectors, which are all bytes.
fn read_selectors(alloc: Global, count: u8, bytes: &[u8]) -> Result<TsList, TsFault>
    ensures list { IfOk result (λ list. reading.selectors_of count 1 bytes.now ≡ Ok list) }
    ensures fault { IfErr result (λ fault. fault ≢ TsFault.NoMemory
        → reading.selectors_of count 1 bytes.now ≡ Err fault) }
    ensures selectors { IfOk result AreSelectors }
    ensures few { IfOk result (λ list. length list ≤ count) }
{
    let mut list = TsList::new(alloc);
    let mut rest = bytes;
    for done in 0..count {
        rest = read_next(&mut list, done, rest)?;
    }
    if !rest.is_empty() {
        return Err(TsFault::CountMismatch);
    }
    Ok(list)
}

// Puts the selector behind so many others at the end, unless it is passed over, and gives the bytes
// behind it.
#[tactic(auto, using(crate::proofs::Loops::more_selectors, crate::proofs::Loops::one_more))]
fn read_next<'a>(list: &mut TsList, done: u8, bytes: &'a [u8]) -> Result<&'a [u8], TsFault>
    requires selectors { AreSelectors list.old }
    requires few { length list.old ≤ done }
    ensures right { IfOk result (λ _. next_fault (done + 1) bytes.now ≡ None) }
    ensures behind { IfOk result (λ behind. behind.now ≡ behind_piece bytes.now) }
    ensures list { OnOk result (list.new
        ≡ list.old ++ option_to_list (selector_in (first_piece bytes.now))) }
    ensures selectors { OnOk result (AreSelectors list.new) }
    ensures few { OnOk result (length list.new ≤ done + 1) }
    ensures fault { IfErr result (λ fault. fault ≢ TsFault.NoMemory
        → next_fault (done + 1) bytes.now ≡ Some fault) }
{
    let (selector, behind) = read_piece(done, bytes)?;
    put(list, selector)?;
    Ok(behind)
}

// Puts a selector at the end, where there is one.
fn put(list: &mut TsList, selector: Option<Ts>) -> Result<(), NoMemory>
    ensures { OnOk result (list.new ≡ list.old ++ option_to_list selector) }
{
    match selector {
        Some(selector) => list.push(selector),
        None => Ok(()),
    }
}
