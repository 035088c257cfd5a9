ghost use Rattle.std.specs.Prelude.{◌≤◌};
ghost use Rattle.sel_box.specs.Class.{opaque_protocol};

use crate::range_text::print_or_opaque;
use crate::{Printed, print_value};
use lists::NoMemory;
use sel_box::{AxisName, FieldForm, OPAQUE_FIELD, OPAQUE_PROTOCOL, Packet, form_of};
use sel_text::print_number;

/// A packet is printed as a trace writes it: the source, the destination, the protocol and both
/// fields, with spaces between them. A field of ICMP and ICMPv6 is a type and a code with `/`
/// between them, and OPAQUE is `opaque`.
impl Printed for Packet {
    ghost use Rattle.spd_text.specs.PacketText.{packet_text};

    ghost printed = { packet_text };

    #[tactic(auto, using(crate::proofs::Packets::within))]
    fn append(&self, text: &mut Vec<u8>) -> Result<(), NoMemory> {
        let family = self.family();
        print_value(family, AxisName::Local, self.source(), text)?;
        text.extend_from_slice(b" ")?;
        print_value(family, AxisName::Remote, self.destination(), text)?;
        text.extend_from_slice(b" ")?;
        let shown = Shown {
            protocol: self.protocol(),
            source_field: self.source_field(),
            destination_field: self.destination_field(),
        };
        shown.print(text)?;
        Ok(())
    }
}

// What a packet shows beside its addresses.
#[derive(Clone, Copy)]
struct Shown {
    protocol: u16,
    source_field: u32,
    destination_field: u32,
    ghost on_axis: { protocol ≤ opaque_protocol },
}

impl Printed for Shown {
    ghost use Rattle.spd_text.specs.PacketText.{shown_text};

    ghost printed = { λ shown.
        shown_text shown.protocol shown.source_field shown.destination_field };

    fn append(&self, text: &mut Vec<u8>) -> Result<(), NoMemory> {
        print_or_opaque(u128::from(OPAQUE_PROTOCOL), u128::from(self.protocol), text)?;
        text.extend_from_slice(b" ")?;
        let form = form_of(self.protocol);
        let value = self.source_field;
        PacketField { form, value }.print(text)?;
        text.extend_from_slice(b" ")?;
        let value = self.destination_field;
        PacketField { form, value }.print(text)?;
        Ok(())
    }
}

// A field of the form.
#[derive(Clone, Copy)]
struct PacketField {
    form: FieldForm,
    value: u32,
}

impl Printed for PacketField {
    ghost use Rattle.spd_text.specs.PacketText.{field_text};

    ghost printed = { λ field. field_text field.form field.value };

    fn append(&self, text: &mut Vec<u8>) -> Result<(), NoMemory> {
        if self.value == OPAQUE_FIELD {
            text.extend_from_slice(b"opaque")?;
        } else if matches!(self.form, FieldForm::TypeCode) {
            print_number(u128::from(self.value / 256), text)?;
            text.extend_from_slice(b"/")?;
            print_number(u128::from(self.value % 256), text)?;
        } else {
            print_number(u128::from(self.value), text)?;
        }
        Ok(())
    }
}
