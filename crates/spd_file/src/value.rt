ghost use Rattle.std.specs.Prelude.{◌≡◌, Option, Result};
ghost use Rattle.toml.specs.Data.{Data};
ghost use Rattle.toml.specs.View.{view};
ghost use Rattle.spd_file.specs.declared.why.Why.{Why};
ghost use Rattle.spd_file.specs.inner.Borrowed.{data_now, text_now};
ghost use Rattle.spd_file.specs.Values.{required, as_text};
ghost use Rattle.spd_file.specs.Words.{protocol_number_of, protocol_word_of};

use crate::Why;
use sel_text::{Address, Name};
use spd_line::{FINAL, ProtocolItem};
use toml::Value;

// What a key of a line says by a single value.
pub trait KeyValue: Copy {
    // What the value means, and what it means that the key doesn't stand.
    ghost meaning: { Option Data → Result Self Why };

    fn read(value: Option<&Value>) -> Result<Self, Why>
        ensures { result ≡ meaning (data_now value.entry) };
}

pub fn read_text(value: &Value) -> Result<&str, Why>
    ensures { text_now result ≡ as_text (view value.now) }
{
    value.as_str().ok_or(Why::WrongKind)
}

// The text at a key that must stand.
pub fn require_text(value: Option<&Value>) -> Result<&str, Why>
    ensures { text_now result ≡ required as_text (data_now value.entry) }
{
    read_text(value.ok_or(Why::Missing)?)
}

// The name of a line, but not that of the line behind all lines.
impl KeyValue for Name {
    ghost use Rattle.spd_file.specs.Values.{required, of_text};
    ghost use Rattle.spd_file.specs.Words.{line_name_of};

    ghost meaning = { required (of_text line_name_of) };

    fn read(value: Option<&Value>) -> Result<Name, Why> {
        let name = sel_text::read_name(require_text(value)?.as_bytes())?;
        if name.as_bytes() == FINAL {
            return Err(Why::Reserved);
        }
        Ok(name)
    }
}

// The address of a gate.
impl KeyValue for Address {
    ghost use Rattle.sel_text.specs.Address.{address_meaning};
    ghost use Rattle.spd_file.specs.Values.{text_by_grammar, required};

    ghost meaning = { required (text_by_grammar address_meaning) };

    fn read(value: Option<&Value>) -> Result<Address, Why> {
        let gate = sel_text::read_address(require_text(value)?.as_bytes())?;
        Ok(gate)
    }
}

// The protocol of a line, ANY where the key doesn't stand.
impl KeyValue for ProtocolItem {
    ghost use Rattle.spd_line.specs.declared.line.ProtocolItem.TheVariants.{Any};
    ghost use Rattle.spd_file.specs.Values.{optional};
    ghost use Rattle.spd_file.specs.Words.{protocol_item};

    ghost meaning = { optional Any protocol_item };

    fn read(value: Option<&Value>) -> Result<ProtocolItem, Why> {
        match value {
            None => Ok(ProtocolItem::Any),
            Some(Value::Integer(number)) => protocol_of_number(*number),
            Some(Value::String(word)) => protocol_of_word(word.as_str()),
            Some(_) => Err(Why::WrongKind),
        }
    }
}

fn protocol_of_number(number: i64) -> Result<ProtocolItem, Why>
    ensures { result ≡ protocol_number_of number }
{
    match u8::try_from(number) {
        Ok(number) => Ok(ProtocolItem::Number(number)),
        Err(_) => Err(Why::OutOfRange),
    }
}

fn protocol_of_word(word: &str) -> Result<ProtocolItem, Why>
    ensures { result ≡ protocol_word_of word.now }
{
    match word {
        "any" => Ok(ProtocolItem::Any),
        "opaque" => Ok(ProtocolItem::Opaque),
        _ => Err(Why::NotInGrammar),
    }
}
