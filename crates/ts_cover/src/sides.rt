ghost use Rattle.std.specs.Prelude.{◌≡◌};
ghost use Rattle.sel_box.specs.declared.any_box.AxisName.{AxisName};
ghost use Rattle.sel_box.specs.Bounds.{last_on};
ghost use Rattle.sel_box.specs.Boxes.{family_of, range_at};
ghost use Rattle.sel_box.specs.Class.{opaque_field};
ghost use Rattle.ts_span.specs.Spelling.{has_all_protocols, has_number, is_writable};
ghost use Rattle.ts_cover.specs.Writing as writing;

use sel_box::{AnyBox, AxisName, OPAQUE_FIELD, OPAQUE_PROTOCOL};
use ts_span::TsSpan;

/// What a box has on the local side. No memory.
pub fn local_side(region: &AnyBox) -> TsSpan
    ensures { result ≡ writing.local_side region.now }
{
    TsSpan {
        family: region.family(),
        addresses: ends_on(region, AxisName::Local),
        protocols: protocols_of(region),
        fields: fields_on(region, AxisName::LocalField),
    }
}

/// What a box has on the remote side. No memory.
pub fn remote_side(region: &AnyBox) -> TsSpan
    ensures { result ≡ writing.remote_side region.now }
{
    TsSpan {
        family: region.family(),
        addresses: ends_on(region, AxisName::Remote),
        protocols: protocols_of(region),
        fields: fields_on(region, AxisName::RemoteField),
    }
}

/// Whether both sides of a box can be written as selectors: its protocol is one number from 1 to
/// 255, or it has all protocols and on each side all fields or OPAQUE alone. No memory.
pub fn can_write(region: &AnyBox) -> bool
    ensures { result ≡ writing.can_write region.now }
{
    is_writable(&local_side(region)) && is_writable(&remote_side(region))
}

/// Whether the protocol of a box is one number from 1 to 255. No memory.
pub fn has_number(region: &AnyBox) -> bool
    ensures { result ≡ has_number (writing.local_side region.now) }
{
    is_one_number(&local_side(region))
}

// The low and the high on an axis.
fn ends_on(region: &AnyBox, axis: AxisName) -> (u128, u128)
    ensures { result ≡ writing.ends_of (range_at axis region.now) }
{
    (region.low_of(axis), region.high_of(axis))
}

// The first and the last protocol.
fn protocols_of(region: &AnyBox) -> (u16, u16)
    ensures { result ≡ writing.ends_of (range_at AxisName.Protocol region.now) }
{
    let axis = AxisName::Protocol;
    (region.low_of(axis) as u16, region.high_of(axis) as u16)
}

// The first and the last field on an axis of fields.
fn fields_on(region: &AnyBox, axis: AxisName) -> (u32, u32)
    requires { last_on (family_of region.now) axis ≡ opaque_field }
    ensures { result ≡ writing.ends_of (range_at axis region.now) }
{
    (region.low_of(axis) as u32, region.high_of(axis) as u32)
}

// Whether the span can be written as selectors.
fn is_writable(span: &TsSpan) -> bool
    ensures { result ≡ is_writable span.now }
{
    is_one_number(span) || has_all_protocols(span)
}

// Whether its protocol is one number from 1 to 255.
fn is_one_number(span: &TsSpan) -> bool
    ensures { result ≡ has_number span.now }
{
    let (first, last) = span.protocols;
    first == last && 1 <= first && first <= 255
}

// Whether it has all protocols, and all fields or OPAQUE alone.
fn has_all_protocols(span: &TsSpan) -> bool
    ensures { result ≡ has_all_protocols span.now }
{
    let (first, last) = span.fields;
    span.protocols == (0, OPAQUE_PROTOCOL)
        && last == OPAQUE_FIELD
        && (first == 0 || first == OPAQUE_FIELD)
}
