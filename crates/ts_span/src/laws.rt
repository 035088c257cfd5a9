//! What the table of how ranges of fields are written comes to.
ghost use Rattle.std.specs.Prelude.{◌≡◌, ◌≤◌, ℕ, Bool, count_by};
ghost use Rattle.ts_span.specs.Table.{field_rows, row_has};

/// Each range of fields lies in exactly one row of the table, of the Mobility Header and of every
/// other protocol.
pub fn ranges_have_one_row()
    ensures { (mobility : Bool) (low high : ℕ) → low ≤ high → high ≤ 65536
        → count_by (row_has mobility (low, high)) field_rows ≡ 1 }
{}
