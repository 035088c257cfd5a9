ghost use Rattle.std.specs.Prelude.{◌≡◌};
ghost use Rattle.spd_line.specs.Pinned.{pins_of};

use crate::Line;
use crate::pin::Pins;
use sel_box::Point;

/// The point's values on the flagged selectors of the line, which tell apart the associations that
/// a PROTECT line makes (RFC 4301 section 4.4.1.2). Takes constant time and no memory.
pub fn pins(line: &Line, point: &Point) -> Pins
    ensures { result ≡ pins_of line.now point.now }
{
    let flags = &line.parts().pfp;
    Pins {
        family: (flags.local || flags.remote).then_some(point.family()),
        local: flags.local.then_some(point.local()),
        remote: flags.remote.then_some(point.remote()),
        protocol: flags.protocol.then_some(point.protocol()),
        local_field: flags.local_port.then_some(point.local_field()),
        remote_field: flags.remote_port.then_some(point.remote_field()),
    }
}
