//! What the answer of `replay` comes to, each law the contract of a function that does nothing.

ghost use Rattle.std.specs.Prelude.{◌≡◌, Ok, Option, Some, List, ℕ};
ghost use Rattle.audit_frame.specs.Ends.{Ends};
ghost use Rattle.cmd_replay.specs.declared.command.ReplayEnd.{ReplayEnd};
ghost use Rattle.cmd_replay.specs.Headline.{HasRun, IsTraceReplayed};
ghost use Rattle.cmd_replay.specs.Replay.{replay_answer};
ghost use Rattle.cmd_replay.specs.Words.{ReplayWords};
ghost use Rattle.spd_lanes.specs.Machine.{Machine};

/// Where both files tell their contents and the run came to its end, one line was written for each
/// event of the trace, in order: its number with the machine's reply behind a run of the events
/// before it. So a hit tells the verdict of the policy in force at the hit, and a fill that of the
/// policy in force at its lane's last search. The machine is the one after all events.
pub fn each_event_is_answered()
    ensures lines { (told : List ℕ → Option (List ℕ)) (command : ReplayWords)
        → (policy trace : List ℕ) (before now : Option (List ℕ)) (end : Machine)
        → told command.policy.name ≡ Some policy → told command.trace.name ≡ Some trace
        → Ends (replay_answer told command) before now (Ok (ReplayEnd.Done end))
        → IsTraceReplayed command policy trace before now }
    ensures machine { (told : List ℕ → Option (List ℕ)) (command : ReplayWords)
        → (policy trace : List ℕ) (before now : Option (List ℕ)) (end : Machine)
        → told command.policy.name ≡ Some policy → told command.trace.name ≡ Some trace
        → Ends (replay_answer told command) before now (Ok (ReplayEnd.Done end))
        → HasRun command policy trace end }
{
    spd_lanes::laws::served();
}
