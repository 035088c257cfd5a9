ghost use Rattle.std.specs.Prelude.{◌≡◌, ◌≤◌, length};
ghost use Rattle.std.specs.List.{list_all};
ghost use Rattle.sel_text.specs.Name.{is_name_byte, name_meaning, IsName, padded};

use crate::fault::TextFault;
use std::marker::Model;

mod compared;

/// The name of a policy line or a gateway: 1 to 64 letters of ASCII, digits, `_` or `-`, kept in
/// place. A contract sees it as the list of its bytes.
#[derive(Clone, Copy, Debug)]
pub struct Name {
    bytes: [u8; Name::LONGEST],
    len: u8,
}

impl Model for Name {
    ghost use Rattle.std.specs.Prelude.{List, ℕ, length, take};
    ghost use Rattle.sel_text.specs.Name.{padded, HoldsName};

    ghost Value = { List ℕ };

    ghost view = { λ name. take name.len name.bytes };

    ghost invariant = { λ name. HoldsName name.bytes name.len };

    ghost inverse = { λ bytes. record { bytes = padded bytes; len = length bytes } };
}

impl Name {
    /// How many bytes a name has at most.
    pub const LONGEST: usize = 64;

    /// The bytes of the name, in order. Takes no memory.
    pub fn as_bytes(&self) -> &[u8]
        ensures bytes { result.now ≡ self.now }
        ensures named { IsName self.now }
    {
        &self.bytes[..usize::from(self.len)]
    }
}

/// Reads a name. More than 64 bytes that a name may have are `OutOfRange`, every other text that is
/// no name, the empty one among them, `NotInGrammar`. Takes no memory, and time in proportion to
/// the text.
pub fn read_name(text: &[u8]) -> Result<Name, TextFault>
    ensures { result ≡ name_meaning text.now }
{
    if text.is_empty() || !are_name_bytes(text) {
        return Err(TextFault::NotInGrammar);
    }
    if text.len() > Name::LONGEST {
        return Err(TextFault::OutOfRange);
    }
    Ok(Name {
        bytes: padded(text),
        len: text.len() as u8,
    })
}

// The bytes, and then zeros.
fn padded(text: &[u8]) -> [u8; Name::LONGEST]
    requires { length text.now ≤ Name.LONGEST }
    ensures { result ≡ padded text.now }
{
    let mut bytes = [0; Name::LONGEST];
    bytes[..text.len()].copy_from_slice(text);
    bytes
}

// Whether a name may have each of the bytes.
fn are_name_bytes(text: &[u8]) -> bool
    ensures { result ≡ list_all is_name_byte text.now }
{
    text.iter().all(|byte| is_name_byte(*byte))
}

fn is_name_byte(byte: u8) -> bool
    ensures { result ≡ is_name_byte byte }
{
    byte.is_ascii_alphanumeric() || byte == b'_' || byte == b'-'
}
