ghost use Rattle.std.specs.Prelude.{◌≡◌, ◌++◌, OnOk, OnErr, decimal};
ghost use Rattle.sel_text.specs.Text.{address_text};

use crate::address::Address;
use itoa::Buffer;
use lists::NoMemory;

/// Appends a number in decimal digits, with no leading zero. Takes memory only where the text
/// has to grow; where there is none, the text is unchanged.
pub fn print_number(value: u128, text: &mut Vec<u8>) -> Result<(), NoMemory>
    ensures ok { OnOk result (text.new.items ≡ text.old.items ++ decimal value) }
    ensures err { OnErr result (text.new.items ≡ text.old.items) }
{
    text.extend_from_slice(Buffer::new().format(value).as_bytes())?;
    Ok(())
}

/// Appends the text of an address. Takes memory only where the text has to grow; where there is
/// none, the text is unchanged.
pub fn print_address(address: &Address, text: &mut Vec<u8>) -> Result<(), NoMemory>
    ensures ok { OnOk result (text.new.items ≡ text.old.items ++ address_text address.now) }
    ensures err { OnErr result (text.new.items ≡ text.old.items) }
{
    text.extend_from_slice(address.text().as_bytes())?;
    Ok(())
}
