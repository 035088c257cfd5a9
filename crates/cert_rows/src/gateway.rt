ghost use Rattle.std.specs.Prelude.{◌≡◌};
ghost use Rattle.cert_rows.specs.Gathered.{box_seen, direction_of};

use sel_box::{Direction, swap};
use spd_line::LineBox;

/// The two gateways: packets go out from A, and come in at B.
#[derive(Clone, Copy, Debug, PartialEq, Eq)]
pub enum Gateway {
    A,
    B,
}

impl Gateway {
    /// The direction in which its policy judges these packets.
    pub fn direction(self) -> Direction
        ensures { result ≡ direction_of self }
    {
        match self {
            Gateway::A => Direction::Outbound,
            Gateway::B => Direction::Inbound,
        }
    }

    /// A box of its policy, as A sees it: the sides of B's are exchanged.
    pub fn box_seen(self, part: &LineBox) -> LineBox
        ensures { result ≡ box_seen self part.now }
    {
        match self {
            Gateway::A => *part,
            Gateway::B => LineBox {
                region: swap(&part.region),
                judgement: part.judgement,
            },
        }
    }
}
