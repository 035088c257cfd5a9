//! What the definition of the shared machine comes to, as the contract of a function that does
//! nothing.

ghost use Rattle.std.specs.Prelude.{◌≡◌, ℕ, List, Ok, Some};
ghost use Rattle.sel_box.specs.declared.packet.Direction.{Direction};
ghost use Rattle.sel_box.specs.Packet.{PacketFields};
ghost use Rattle.sel_box.specs.Point.{view_of};
ghost use Rattle.spd_line.specs.declared.judgement.Answer.{Answer};
ghost use Rattle.spd_line.specs.declared.line.LineParts.{LineParts};
ghost use Rattle.spd_groups.specs.Groups.{answer_of};
ghost use Rattle.spd_lanes.specs.declared.lane.Filled.{Filled};
ghost use Rattle.spd_lanes.specs.Machine.{Machine, asked, filled, lane_at, machine, taken};
ghost use Rattle.spd_lanes.specs.Run.{AreServed, Event, IsFilledAsSearched, no_notes, run};

/// Over every list of events, from every policy, limit and capacity: what a lane has found is the
/// answer of its packet's first line under the policy in force at the lane's last search, and each
/// key in the list was put there by a fill whose search came after the last edit.
///
/// So a fill answers as the policy did at that search, and is stale exactly where the lane isn't
/// fresh; and a hit, of a take or of a packet at once, answers as the policy does at the hit.
pub fn served()
    ensures runs { (lines : List LineParts) (limit capacity : ℕ) (events : List Event)
        → AreServed (run events (machine lines limit capacity) no_notes).machine
        (run events (machine lines limit capacity) no_notes).notes }
    ensures fill { (lines : List LineParts) (limit capacity : ℕ) (events : List Event)
        → (place : ℕ) (reply : Filled) (after : Machine)
        → filled place (run events (machine lines limit capacity) no_notes).machine
        ≡ Ok (reply, after)
        → IsFilledAsSearched (run events (machine lines limit capacity) no_notes).notes place
        (lane_at place (run events (machine lines limit capacity) no_notes).machine) reply }
    ensures hit { (place : ℕ) (d : Direction) (p : PacketFields) (m after : Machine)
        → (answer : Answer) → taken place d p m ≡ Ok (Some answer, after)
        → answer ≡ answer_of d (view_of d p) m.lines }
    ensures at_once { (d : Direction) (p : PacketFields) (m : Machine)
        → (asked d p m).0.answer ≡ answer_of d (view_of d p) m.lines }
{}
