ghost use Rattle.std.specs.Prelude.{◌≡◌, ◌≤◌};
ghost use Rattle.sel_text.specs.Address.{has_colon, address_meaning};
ghost use Rattle.sel_text.specs.Family.{address_family, address_from, address_value, last_address};
ghost use Rattle.sel_text.specs.Text.{address_text};

use crate::address_text::{text_of_four, text_of_six};
use crate::family::Family;
use crate::fault::TextFault;
use crate::four::read_four;
use crate::six::read_six;
use arrayvec::ArrayString;
use std::fmt;

/// An address as a number, its first octet the highest.
#[derive(Clone, Copy, Debug, PartialEq, Eq, PartialOrd, Ord, Hash)]
pub enum Address {
    /// Of IPv4.
    Four(u32),
    /// Of IPv6.
    Six(u128),
}

impl Address {
    /// The version of IP.
    #[inline]
    pub fn family(self) -> Family
        ensures { result ≡ address_family self }
    {
        match self {
            Address::Four(_) => Family::Four,
            Address::Six(_) => Family::Six,
        }
    }

    /// The address as a number, at most the last of its family.
    #[inline]
    pub fn value(self) -> u128
        ensures value { result ≡ address_value self }
        ensures within { result ≤ last_address (address_family self) }
    {
        match self {
            Address::Four(address) => u128::from(address),
            Address::Six(address) => address,
        }
    }

    /// The address of a family that a number stands for.
    #[inline]
    pub fn of(family: Family, value: u128) -> Address
        requires { value ≤ last_address family }
        ensures { result ≡ address_from family value }
    {
        match family {
            Family::Four => Address::Four(value as u32),
            Family::Six => Address::Six(value),
        }
    }

    /// The text of the address, kept in place: of IPv4 four decimal numbers with dots between them,
    /// of IPv6 eight groups of four lower-case hexadecimal digits with `:` between them.
    pub fn text(self) -> ArrayString<39>
        ensures { result.bytes ≡ address_text self }
    {
        match self {
            Address::Four(address) => text_of_four(address),
            Address::Six(address) => text_of_six(address),
        }
    }
}

impl fmt::Display for Address {
    ghost use Rattle.std.specs.Prelude.{Some};

    ghost output = { λ address. Some (address_text address) };

    fn fmt<W: fmt::Write>(&self, f: &mut fmt::Formatter<W>) -> fmt::Result {
        f.write_str(self.text().as_str())
    }
}

/// Reads an address: one of IPv4 as four numbers of at most 255 with dots between them, or one of
/// IPv6 as RFC 4291 section 2.2 writes it, without the form that ends in dotted numbers.
///
/// It is `OutOfRange` where one of four such numbers is above 255, and `NotInGrammar` at every
/// other text that is refused. Takes no memory, and time in proportion to the text.
pub fn read_address(text: &[u8]) -> Result<Address, TextFault>
    ensures { result ≡ address_meaning text.now }
{
    if has_colon(text) {
        read_six(text).map(Address::Six)
    } else {
        read_four(text).map(Address::Four)
    }
}

// Whether the text can only be an address of IPv6.
pub fn has_colon(text: &[u8]) -> bool
    ensures { result ≡ has_colon text.now }
{
    text.contains(&b':')
}
