ghost use Rattle.std.specs.Prelude.{◌≡◌, ◌≤◌};
ghost use Rattle.sel_box.specs.Class.{form_of, opaque_protocol};

use crate::class::Shape;
use crate::class_table::classes;

/// What the fields of a protocol's packets are (RFC 4301 section 4.4.1.1). A field that isn't
/// available is OPAQUE.
#[derive(Clone, Copy, Debug, PartialEq, Eq, Hash)]
pub enum FieldForm {
    /// No field: both are OPAQUE.
    NoField,
    /// A port on each side.
    Ports,
    /// On the sender's side a type and a code of ICMP or ICMPv6, 256 times the type plus the code.
    TypeCode,
    /// On the sender's side a Mobility Header type, up to 255 (RFC 6275 section 6.1.1).
    MobilityType,
}

/// The form of the fields of a protocol, 256 being OPAQUE, by its row in the table of classes. It
/// takes time in proportion to the number of rows, and no memory.
pub fn form_of(protocol: u16) -> FieldForm
    requires { protocol ≤ opaque_protocol }
    ensures { result ≡ form_of protocol }
{
    let table = classes();
    let row = table.row(protocol);
    match row.shape {
        Shape::NoField => FieldForm::NoField,
        Shape::OneField if row.top == 255 => FieldForm::MobilityType,
        Shape::OneField => FieldForm::TypeCode,
        Shape::TwoPorts => FieldForm::Ports,
    }
}
