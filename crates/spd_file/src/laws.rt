//! What the meaning of a policy file comes to.
ghost use Rattle.std.specs.Prelude.{◌≡◌, ◌≤◌, ℕ, List, Ok, length};
ghost use Rattle.spd_file.specs.Policy.{policy_meaning};
ghost use Rattle.spd_line.specs.Policy.{most_lines};
ghost use Rattle.spd_line.specs.declared.line.LineParts.{LineParts};

/// A policy file never means more lines than a policy may have.
pub fn policies_have_few_lines()
    ensures { (bytes : List ℕ) (lines : List LineParts) → policy_meaning bytes ≡ Ok lines
        → length lines ≤ most_lines }
{}
