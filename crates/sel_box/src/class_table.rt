ghost use Rattle.std.specs.Prelude.{◌≡◌, ◌≤◌};
ghost use Rattle.sel_box.specs.Class.{fields_fit, opaque_protocol};
ghost use Rattle.sel_box.specs.Classes.{AreClasses, class_rows};

use crate::class::{ClassRow, Classes, Shape};

/// The 17 rows of the protocols that have numbers of their own: ICMP (1), TCP (6), UDP (17), DCCP
/// (33), ICMPv6 (58), SCTP (132), Mobility Header (135) and UDP-Lite (136), those between them, and
/// an OPAQUE protocol (256).
pub fn classes() -> Classes<17>
    ensures rows { result.rows ≡ class_rows }
    ensures classes { AreClasses result.rows }
{
    macro_rules! rows {
        ($($first:literal $last:literal $shape:ident $top:literal,)*) => {
            [$(ClassRow { first: $first, last: $last, shape: Shape::$shape, top: $top }),*]
        };
    }
    Classes {
        rows: rows! {
            0 0 NoField 0,
            1 1 OneField 65535,
            2 5 NoField 0,
            6 6 TwoPorts 65535,
            7 16 NoField 0,
            17 17 TwoPorts 65535,
            18 32 NoField 0,
            33 33 TwoPorts 65535,
            34 57 NoField 0,
            58 58 OneField 65535,
            59 131 NoField 0,
            132 132 TwoPorts 65535,
            133 134 NoField 0,
            135 135 OneField 255,
            136 136 TwoPorts 65535,
            137 255 NoField 0,
            256 256 NoField 0,
        },
    }
}

// Whether a packet of the protocol can show these fields.
pub fn allows_fields(protocol: u16, source: u32, destination: u32) -> bool
    requires { protocol ≤ opaque_protocol }
    ensures { result ≡ fields_fit protocol source destination }
{
    classes().row(protocol).allows(source, destination)
}
