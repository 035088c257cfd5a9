ghost use Rattle.std.specs.Prelude.{◌≡◌, ◌≤◌};
ghost use Rattle.std.specs.List.{list_all, list_any};
ghost use Rattle.spd_line.specs.Ports.{flags_no_field, flags_opaque, is_opaque_port};
ghost use Rattle.spd_line.specs.Ports.{is_opaque_protocol, is_two_port, port_has_form, ports_fit};
ghost use Rattle.spd_line.specs.Ports.{shows_number};

use crate::{LineParts, PortItem, PortList, ProtocolItem};
use sel_box::{FieldForm, form_of};

// Whether each port item has the form of the protocol's fields.
pub fn have_form(parts: &LineParts) -> bool
    ensures { result ≡ ports_fit parts.now }
{
    all_fit(parts.protocol, &parts.local_port) && all_fit(parts.protocol, &parts.remote_port)
}

fn all_fit(protocol: ProtocolItem, items: &PortList) -> bool
    ensures { result ≡ list_all (port_has_form protocol) items.now }
{
    items.iter().all(|item| fits(protocol, item))
}

fn fits(protocol: ProtocolItem, item: &PortItem) -> bool
    ensures { result ≡ port_has_form protocol item.now }
{
    match (protocol, item) {
        (_, PortItem::Any | PortItem::Opaque) => true,
        (ProtocolItem::Number(number), PortItem::Number { last, .. }) => {
            shows_number(form_of(u16::from(number)), *last)
        }
        (ProtocolItem::Number(number), PortItem::TypeCode { .. }) => {
            matches!(form_of(u16::from(number)), FieldForm::TypeCode)
        }
        _ => false,
    }
}

// Whether fields of the form are numbers up to this one.
fn shows_number(form: FieldForm, last: u16) -> bool
    ensures { result ≡ shows_number form last }
{
    match form {
        FieldForm::Ports => true,
        FieldForm::MobilityType => last <= 255,
        _ => false,
    }
}

// Whether a port is flagged, and the protocol isn't one that has two ports.
pub fn flag_no_field(parts: &LineParts) -> bool
    ensures { result ≡ flags_no_field parts.now }
{
    (parts.pfp.local_port || parts.pfp.remote_port) && !is_two_port(parts.protocol)
}

fn is_two_port(protocol: ProtocolItem) -> bool
    ensures { result ≡ is_two_port protocol }
{
    match protocol {
        ProtocolItem::Number(number) => matches!(form_of(u16::from(number)), FieldForm::Ports),
        _ => false,
    }
}

// Whether a flagged selector is or has OPAQUE.
pub fn flag_opaque(parts: &LineParts) -> bool
    ensures { result ≡ flags_opaque parts.now }
{
    parts.pfp.protocol && is_opaque(parts.protocol)
        || parts.pfp.local_port && have_opaque(&parts.local_port)
        || parts.pfp.remote_port && have_opaque(&parts.remote_port)
}

fn is_opaque(protocol: ProtocolItem) -> bool
    ensures { result ≡ is_opaque_protocol protocol }
{
    matches!(protocol, ProtocolItem::Opaque)
}

fn have_opaque(items: &PortList) -> bool
    ensures { result ≡ list_any is_opaque_port items.now }
{
    items.iter().any(is_opaque_item)
}

fn is_opaque_item(item: &PortItem) -> bool
    ensures { result ≡ is_opaque_port item.now }
{
    matches!(item, PortItem::Opaque)
}
