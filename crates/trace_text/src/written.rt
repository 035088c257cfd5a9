ghost use Rattle.std.specs.Prelude.{◌≡◌, ◌≤◌};
ghost use Rattle.sel_box.specs.Class.{opaque_protocol, shows_type_code};
ghost use Rattle.trace_text.specs.Written.{field_value, written_packet};

use sel_box::{FieldForm, OPAQUE_FIELD, Packet, form_of};
use sel_text::Address;

// A field as a trace line writes it.
#[derive(Clone, Copy, Debug, PartialEq, Eq)]
pub enum WrittenField {
    Opaque,
    Number(u32),
    // 256 times the type, and the code.
    TypeCode(u32),
}

impl WrittenField {
    // The value of the field, where packets of this form show it so.
    fn value(self, form: FieldForm) -> Option<u32>
        ensures { result ≡ field_value form self }
    {
        match self {
            WrittenField::Opaque => Some(OPAQUE_FIELD),
            WrittenField::Number(number) => (!shows_type_code(form)).then_some(number),
            WrittenField::TypeCode(value) => shows_type_code(form).then_some(value),
        }
    }
}

// Whether fields of this form are written as a type and a code.
fn shows_type_code(form: FieldForm) -> bool
    ensures { result ≡ shows_type_code form }
{
    matches!(form, FieldForm::TypeCode)
}

// The five words of a packet, each of which its place allows.
#[derive(Clone, Copy, Debug, PartialEq, Eq)]
pub struct WrittenPacket {
    pub source: Address,
    pub destination: Address,
    pub protocol: u16,
    pub source_field: WrittenField,
    pub destination_field: WrittenField,
}

impl WrittenPacket {
    // The packet that is written, where there is one.
    pub fn packet(&self) -> Option<Packet>
        requires { self.now.protocol ≤ opaque_protocol }
        ensures { result ≡ written_packet self.now }
    {
        let family = self.source.family();
        if family != self.destination.family() {
            return None;
        }
        let form = form_of(self.protocol);
        let source_field = self.source_field.value(form)?;
        let destination_field = self.destination_field.value(form)?;
        Packet::new(
            family,
            self.source.value(),
            self.destination.value(),
            self.protocol,
            source_field,
            destination_field,
        )
    }
}
