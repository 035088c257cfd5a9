ghost use Rattle.std.specs.Prelude.{◌≡◌, ◌+◌, ◌-◌, ◌^◌, ◌<◌, ◌≤◌};
ghost use Rattle.sel_text.specs.Item.{lowest, highest, item_meaning};
ghost use Rattle.sel_text.specs.inner.Reading.{prefix_meaning, range_meaning, four_prefix};
ghost use Rattle.sel_text.specs.inner.Reading.{six_prefix, addresses_in_order};

use crate::address::{Address, has_colon, read_address};
use crate::fault::{TextFault, both};
use crate::four::read_four;
use crate::number::read_byte;
use crate::parts::{ANY, split_once};
use crate::six::read_six;

/// Addresses of a selector, a range being of one family with its first address not above its last.
#[derive(Clone, Copy, Debug, PartialEq, Eq, Hash)]
pub enum AddressItem {
    /// Every address of either family.
    Any,
    /// The addresses from the first to the last.
    Range { first: Address, last: Address },
}

/// Reads an address item: `any`, an address, `ADDRESS/NUMBER` with a prefix length of at most 32 or
/// 128, or `ADDRESS-ADDRESS` of one family. A prefix is the range of all addresses that begin with
/// its bits, whatever its other bits are.
///
/// It is `OutOfRange` where a text of one of these forms has a larger number or prefix length or a
/// first address above the last, and `NotInGrammar` at every other text that is refused. Takes no
/// memory, and time in proportion to the text.
#[tactic(auto, unfolding(crate::specs::inner::Reading::range_meaning))]
pub fn read_addresses(text: &[u8]) -> Result<AddressItem, TextFault>
    ensures { result ≡ item_meaning text.now }
{
    if text == ANY {
        return Ok(AddressItem::Any);
    }
    if let Some((address, length)) = split_once(text, b'/') {
        #[tactic(auto, unfolding(crate::specs::inner::Reading::prefix_meaning))]
        return read_prefix(address, length);
    }
    match split_once(text, b'-') {
        Some((first, last)) => read_range(first, last),
        None => read_address(text).map(|first| AddressItem::Range { first, last: first }),
    }
}

// All addresses that begin as one does.
fn read_prefix(address: &[u8], length: &[u8]) -> Result<AddressItem, TextFault>
    ensures { result ≡ prefix_meaning address.now length.now }
{
    if has_colon(address) {
        both(read_six(address), read_byte(length, 128)).map(|(address, length)| prefix_of_six(
            address, length,
        ))
    } else {
        both(read_four(address), read_byte(length, 32)).map(|(address, length)| prefix_of_four(
            address, length,
        ))
    }
}

fn prefix_of_four(address: u32, length: u8) -> AddressItem
    ensures { result ≡ four_prefix (address, length) }
{
    let host_bits = 32u32.saturating_sub(u32::from(length));
    let (first, last) = ends_of_prefix(u128::from(address), host_bits);
    AddressItem::Range {
        first: Address::Four(first as u32),
        last: Address::Four(last as u32),
    }
}

fn prefix_of_six(address: u128, length: u8) -> AddressItem
    ensures { result ≡ six_prefix (address, length) }
{
    let host_bits = 128u32.saturating_sub(u32::from(length));
    let (first, last) = ends_of_prefix(address, host_bits);
    AddressItem::Range {
        first: Address::Six(first),
        last: Address::Six(last),
    }
}

// The lowest and the highest number that agree with an address in all but its host bits.
fn ends_of_prefix(address: u128, host_bits: u32) -> (u128, u128)
    requires { host_bits ≤ 128 }
    ensures { result ≡ (lowest address host_bits, highest address host_bits) }
{
    let host = greatest_of(host_bits);
    let first = address - (address & host);
    (first, first + host)
}

// The greatest number of so many bits.
fn greatest_of(bits: u32) -> u128
    requires { bits ≤ 128 }
    ensures { result ≡ 2 ^ bits - 1 }
{
    if bits == 128 {
        u128::MAX
    } else {
        (1 << bits) - 1
    }
}

// From one address to another of its family.
fn read_range(first: &[u8], last: &[u8]) -> Result<AddressItem, TextFault>
    ensures { result ≡ range_meaning first.now last.now }
{
    if has_colon(first) == has_colon(last) {
        in_order(both(read_address(first), read_address(last)))
    } else {
        Err(TextFault::NotInGrammar)
    }
}

// The range between two addresses of one family, if the first is not above the last.
fn in_order(ends: Result<(Address, Address), TextFault>) -> Result<AddressItem, TextFault>
    ensures { result ≡ addresses_in_order ends }
{
    match ends {
        Ok((first, last)) if first > last => Err(TextFault::OutOfRange),
        Ok((first, last)) => Ok(AddressItem::Range { first, last }),
        Err(fault) => Err(fault),
    }
}
