// What happens to all lanes at once.
ghost use Rattle.std.specs.Prelude.{◌≡◌, map, replicate};
ghost use Rattle.spd_lanes.specs.inner.Kept.{unfresh};

use crate::LaneState;

// Sixteen idle lanes.
pub fn idle_lanes() -> [LaneState; 16]
    ensures { result ≡ replicate 16 LaneState.Idle }
{
    [
        LaneState::Idle,
        LaneState::Idle,
        LaneState::Idle,
        LaneState::Idle,
        LaneState::Idle,
        LaneState::Idle,
        LaneState::Idle,
        LaneState::Idle,
        LaneState::Idle,
        LaneState::Idle,
        LaneState::Idle,
        LaneState::Idle,
        LaneState::Idle,
        LaneState::Idle,
        LaneState::Idle,
        LaneState::Idle,
    ]
}

// After an edit no lane is fresh.
pub fn make_stale(lanes: &mut [LaneState])
    ensures { lanes.new ≡ map unfresh lanes.old }
{
    for lane in lanes.iter_mut() {
        unfresh(lane);
    }
}

// A lane after an edit.
fn unfresh(lane: &mut LaneState)
    ensures { lane.new ≡ unfresh lane.old }
{
    if let LaneState::Found { fresh, .. } = lane {
        *fresh = false;
    }
}
