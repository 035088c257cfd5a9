ghost use Rattle.std.specs.Prelude.{◌≡◌, ℕ, List, Result};
ghost use Rattle.std.specs.List.{list_all};
ghost use Rattle.toml.specs.View.{view};
ghost use Rattle.sel_text.specs.declared.fault.TextFault.{TextFault};
ghost use Rattle.spd_file.specs.Values.{text_by_grammar, is_text};

use crate::Why;
use crate::value::read_text;
use sel_text::{AddressItem, PortItem, TextFault};
use toml::Value;

// An item of a selector's list.
pub trait Item: Copy {
    // What a text means as an item.
    ghost meaning: { List ℕ → Result Self TextFault };

    fn read(text: &[u8]) -> Result<Self, TextFault>
        ensures { result ≡ meaning text.now };
}

impl Item for AddressItem {
    ghost use Rattle.sel_text.specs.Item.{item_meaning};

    ghost meaning = { item_meaning };

    fn read(text: &[u8]) -> Result<AddressItem, TextFault> {
        sel_text::read_addresses(text)
    }
}

impl Item for PortItem {
    ghost use Rattle.sel_text.specs.Port.{port_meaning};

    ghost meaning = { port_meaning };

    fn read(text: &[u8]) -> Result<PortItem, TextFault> {
        sel_text::read_port(text)
    }
}

pub fn read_item<T: Item>(value: &Value) -> Result<T, Why>
    ensures { result ≡ text_by_grammar T.meaning (view value.now) }
{
    let item = T::read(read_text(value)?.as_bytes())?;
    Ok(item)
}

// Whether each of the values is a text.
pub fn are_texts(values: &[Value]) -> bool
    ensures { result ≡ list_all (λ value. is_text (view value)) values.now }
{
    values.iter().all(|value| value.is_str())
}
