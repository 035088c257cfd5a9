//! What the definitions of an ordered policy come to, each law the contract of a function that does
//! nothing.
ghost use Rattle.std.specs.Prelude.{◌≡◌, ◌↔◌, List, None};
ghost use Rattle.spd_line.specs.declared.line.LineParts.{LineParts};
ghost use Rattle.spd_line.specs.Policy.{IsPolicy};
ghost use Rattle.spd_order.specs.Edits.{policy_fault};

/// `Spd::from_lines` takes the lines of a policy, and no others: those that a policy file gives are
/// refused only where there is no memory.
pub fn policies_are_taken()
    ensures { (lines : List LineParts) → IsPolicy lines ↔ (policy_fault lines ≡ None) }
{}
