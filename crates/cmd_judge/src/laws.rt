//! What the answer of `judge` comes to, as the contract of a function that does nothing.

ghost use Rattle.std.specs.Prelude.{◌≡◌, Ok, Option, Some, List, ℕ};
ghost use Rattle.audit_frame.specs.Ends.{Ends};
ghost use Rattle.cmd_judge.specs.declared.command.Judge.{Judge};
ghost use Rattle.cmd_judge.specs.declared.command.JudgeEnd.{JudgeEnd};
ghost use Rattle.cmd_judge.specs.Headline.{IsTraceJudged};
ghost use Rattle.cmd_judge.specs.Judge.{judge_answer};

/// Where both files tell their contents and the run came to its end, one line was written for each
/// packet of the trace, in order: its number with the judgement and the name of the first policy
/// line that selects it.
pub fn each_packet_is_judged()
    ensures { (told : List ℕ → Option (List ℕ)) (command : Judge) (policy trace : List ℕ)
        → (before now : Option (List ℕ)) → told command.policy.name ≡ Some policy
        → told command.trace.name ≡ Some trace
        → Ends (judge_answer told command) before now (Ok JudgeEnd.Done)
        → IsTraceJudged policy trace before now }
{
    spd_line::laws::the_first_line_is_the_least();
}
