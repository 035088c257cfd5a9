ghost use Rattle.std.specs.Prelude.{◌≡◌, ◌≤◌, IfSome};
ghost use Rattle.sel_box.specs.Class.{opaque_protocol};
ghost use Rattle.trace_text.specs.Fields as field;

use crate::written::WrittenField;
use sel_box::{Direction, OPAQUE_PROTOCOL};
use sel_text::{read_byte, read_type_code, split_once};

// The word for a value that isn't available.
const OPAQUE: &[u8] = b"opaque";

// The greatest number that a field can be.
const LAST_FIELD: u32 = 65_535;

pub fn read_direction(word: &[u8]) -> Option<Direction>
    ensures { result ≡ field.direction_of word.now }
{
    if word == b"out".as_slice() {
        Some(Direction::Outbound)
    } else if word == b"in".as_slice() {
        Some(Direction::Inbound)
    } else {
        None
    }
}

// A protocol is `opaque` or a number of one byte.
pub fn read_protocol(word: &[u8]) -> Option<u16>
    ensures meaning { result ≡ field.protocol_of word.now }
    ensures within { IfSome result (λ protocol. protocol ≤ opaque_protocol) }
{
    if word == OPAQUE {
        return Some(OPAQUE_PROTOCOL);
    }
    let protocol = read_byte(word, u8::MAX).ok()?;
    Some(u16::from(protocol))
}

// A field is `opaque`, a number, or a type and a code with `/` between them.
pub fn read_field(word: &[u8]) -> Option<WrittenField>
    ensures { result ≡ field.field_of word.now }
{
    if word == OPAQUE {
        return Some(WrittenField::Opaque);
    }
    match split_once(word, b'/') {
        Some((kind, code)) => {
            let value = read_type_code(kind, code).ok()?;
            Some(WrittenField::TypeCode(u32::from(value)))
        }
        None => read_number(word, LAST_FIELD).map(WrittenField::Number),
    }
}

// A number that is at most this.
pub fn read_number(word: &[u8], most: u32) -> Option<u32>
    ensures { result ≡ field.number_word most word.now }
{
    let number = sel_text::read_number(word, u128::from(most)).ok()?;
    Some(number as u32)
}
