ghost use Rattle.std.specs.Prelude.{◌≡◌, ◌≤◌, ◌++◌, OnErr, OnOk};
ghost use Rattle.sel_box.specs.Bounds.{last_on};
ghost use Rattle.spd_text.specs.RangeText.{axis_text, is_address, is_any, number_text, value_text};

use crate::Printed;
use lists::NoMemory;
use sel_box::{AnyBox, AxisName, Family, OPAQUE_FIELD, OPAQUE_PROTOCOL};
use sel_text::{Address, print_address, print_number};

/// Appends a value on an axis: an address of the family, or the number of a protocol or a field,
/// `opaque` for OPAQUE. Takes memory only where the text has to grow; where there is none, the text
/// is unchanged.
pub fn print_value(
    family: Family,
    axis: AxisName,
    value: u128,
    text: &mut Vec<u8>,
) -> Result<(), NoMemory>
    requires { value ≤ last_on family axis }
    ensures ok { OnOk result (text.new.items ≡ text.old.items ++ value_text family axis value) }
    ensures err { OnErr result (text.new.items ≡ text.old.items) }
{
    match axis {
        AxisName::Local | AxisName::Remote => print_address(&Address::of(family, value), text),
        AxisName::Protocol => print_or_opaque(u128::from(OPAQUE_PROTOCOL), value, text),
        AxisName::LocalField | AxisName::RemoteField => {
            print_or_opaque(u128::from(OPAQUE_FIELD), value, text)
        }
    }
}

// Appends a number, `opaque` for the given one.
pub fn print_or_opaque(opaque: u128, value: u128, text: &mut Vec<u8>) -> Result<(), NoMemory>
    ensures ok { OnOk result (text.new.items ≡ text.old.items ++ number_text opaque value) }
    ensures err { OnErr result (text.new.items ≡ text.old.items) }
{
    if value == opaque {
        text.extend_from_slice(b"opaque")?;
        Ok(())
    } else {
        print_number(value, text)
    }
}

/// Appends the range of a box on an axis: `any` for all protocols or fields, one value, or the
/// first and the last with `-` between them, as always for addresses. Takes memory only where the
/// text has to grow; where there is none, the text is unchanged.
pub fn print_range(region: &AnyBox, axis: AxisName, text: &mut Vec<u8>) -> Result<(), NoMemory>
    ensures ok { OnOk result (text.new.items ≡ text.old.items ++ axis_text axis region.now) }
    ensures err { OnErr result (text.new.items ≡ text.old.items) }
{
    AxisRange { region, axis }.print(text)
}

// The range of a box on an axis.
#[derive(Clone, Copy)]
struct AxisRange<'a> {
    region: &'a AnyBox,
    axis: AxisName,
}

impl Printed for AxisRange<'_> {
    ghost printed = { λ range. axis_text range.axis range.region.now };

    #[tactic(auto, unfolding(crate::specs::RangeText::axis_text))]
    fn append(&self, text: &mut Vec<u8>) -> Result<(), NoMemory> {
        let family = self.region.family();
        let low = self.region.low_of(self.axis);
        let high = self.region.high_of(self.axis);
        if is_any(self.axis, low, high) {
            text.extend_from_slice(b"any")?;
        } else if !is_address(self.axis) && low == high {
            print_value(family, self.axis, low, text)?;
        } else {
            print_value(family, self.axis, low, text)?;
            text.extend_from_slice(b"-")?;
            print_value(family, self.axis, high, text)?;
        }
        Ok(())
    }
}

fn is_address(axis: AxisName) -> bool
    ensures { result ≡ is_address axis }
{
    matches!(axis, AxisName::Local | AxisName::Remote)
}

// Whether the ends are those of all protocols or of all fields.
fn is_any(axis: AxisName, low: u128, high: u128) -> bool
    ensures { result ≡ is_any axis low high }
{
    match axis {
        AxisName::Local | AxisName::Remote => false,
        AxisName::Protocol => low == 0 && high == u128::from(OPAQUE_PROTOCOL),
        AxisName::LocalField | AxisName::RemoteField => {
            low == 0 && high == u128::from(OPAQUE_FIELD)
        }
    }
}

/// A box is printed as its five ranges in the order of `AxisName`, with spaces between them.
impl Printed for AnyBox {
    ghost use Rattle.spd_text.specs.RangeText.{box_text};

    ghost printed = { box_text };

    fn append(&self, text: &mut Vec<u8>) -> Result<(), NoMemory> {
        print_range(self, AxisName::Local, text)?;
        text.extend_from_slice(b" ")?;
        print_range(self, AxisName::Remote, text)?;
        text.extend_from_slice(b" ")?;
        print_range(self, AxisName::Protocol, text)?;
        text.extend_from_slice(b" ")?;
        print_range(self, AxisName::LocalField, text)?;
        text.extend_from_slice(b" ")?;
        print_range(self, AxisName::RemoteField, text)?;
        Ok(())
    }
}
