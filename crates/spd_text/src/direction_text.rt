ghost use Rattle.std.specs.Prelude.{◌≡◌, ◌≤◌, length};
ghost use Rattle.spd_text.specs.DirectionText.{direction_text};

use sel_box::Direction;

/// The word of a direction: `out` for outbound, `in` for inbound.
pub fn direction_word(direction: Direction) -> &'static str
    ensures text { result.now ≡ direction_text direction }
    ensures short { length result.now ≤ 3 }
{
    match direction {
        Direction::Outbound => "out",
        Direction::Inbound => "in",
    }
}
