ghost use Rattle.std.specs.Prelude.{◌≡◌, ◌+◌, ◌<◌, ◌≤◌, ◌^◌, length, true, false, Some, None};
ghost use Rattle.std.specs.Prelude.{IsTrue, IfOk, IfSome, MatchOption, MatchResult};
ghost use Rattle.ts_payload.specs.Piece as piece;
ghost use Rattle.ts_payload.specs.Selector.{fits_bytes, is_selector};

use crate::fault::TsFault;
use crate::number::number_at;
use crate::selector::Ts;
use sel_text::Family;

// The type of selectors with IPv4 addresses, and their length.
const FOUR_TYPE: u128 = 7;

const FOUR_LEN: usize = 16;

// The type of selectors with IPv6 addresses, and their length.
const SIX_TYPE: u128 = 8;

const SIX_LEN: usize = 40;

// The bytes before the content of a selector: type, protocol and length.
const HEAD_LEN: usize = 4;

// The selector behind so many others, with which the bytes begin, and the bytes behind it; none
// where it is passed over.
pub fn read_piece(others: u8, bytes: &[u8]) -> Result<(Option<Ts>, &[u8]), TsFault>
    ensures right { MatchResult result (λ _. piece.next_fault (others + 1) bytes.now ≡ None)
        (λ fault. piece.next_fault (others + 1) bytes.now ≡ Some fault) }
    ensures read { IfOk result
        (λ found. found.0 ≡ piece.selector_in (piece.first_piece bytes.now)) }
    ensures behind { IfOk result (λ found. found.1.now ≡ piece.behind_piece bytes.now) }
    ensures selector { IfOk result
        (λ found. IfSome found.0 (λ selector. IsTrue (is_selector selector))) }
{
    if bytes.is_empty() {
        return Err(TsFault::CountMismatch);
    }
    let index = u32::from(others) + 1;
    let Some(len) = first_len(bytes) else {
        return Err(TsFault::SelectorLength { index });
    };
    let (first, behind) = bytes.split_at(len);
    let selector = selector_in(first);
    if let Some(selector) = &selector {
        selector.keep_rules(index)?;
    }
    Ok((selector, behind))
}

// The length of the selector with which the bytes begin, if it ends within them.
fn first_len(bytes: &[u8]) -> Option<usize>
    ensures whole { MatchOption result (piece.begins_whole bytes.now ≡ false)
        (λ _. piece.begins_whole bytes.now ≡ true) }
    ensures value { IfSome result (λ len. len ≡ piece.length_in bytes.now) }
{
    if bytes.len() < HEAD_LEN {
        return None;
    }
    let len = number_at(bytes, 2, 2) as usize;
    let suits = match number_at(bytes, 0, 1) {
        FOUR_TYPE => len == FOUR_LEN,
        SIX_TYPE => len == SIX_LEN,
        _ => len >= HEAD_LEN,
    };
    (len <= bytes.len() && suits).then_some(len)
}

// The selector that bytes have, of a length that suits its type; none of another type.
fn selector_in(bytes: &[u8]) -> Option<Ts>
    requires head { 4 ≤ length bytes.now }
    requires suits { IsTrue (piece.has_length (piece.type_in bytes.now) (length bytes.now)) }
    ensures value { result ≡ piece.selector_in bytes.now }
    ensures fits { IfSome result (λ selector. IsTrue (fits_bytes selector)) }
{
    match number_at(bytes, 0, 1) {
        FOUR_TYPE => Some(values_in(Family::Four, 4, bytes)),
        SIX_TYPE => Some(values_in(Family::Six, 16, bytes)),
        _ => None,
    }
}

// The values of a selector of the family, whose addresses have so many bytes.
fn values_in(family: Family, address_len: usize, bytes: &[u8]) -> Ts
    requires within { 8 + (address_len + address_len) ≤ length bytes.now }
    requires short { address_len ≤ 16 }
    ensures value { result ≡ piece.values_in family address_len bytes.now }
    ensures start { result.start < 256 ^ address_len }
    ensures end { result.end < 256 ^ address_len }
{
    Ts {
        family,
        protocol: number_at(bytes, 1, 1) as u8,
        start_port: number_at(bytes, 4, 2) as u16,
        end_port: number_at(bytes, 6, 2) as u16,
        start: number_at(bytes, 8, address_len),
        end: number_at(bytes, 8 + address_len, address_len),
    }
}
