//! What the boxes of both gateways come to, as the contract of a function that does nothing.
ghost use Rattle.std.specs.Prelude.{◌≡◌, List, length, ℕ};
ghost use Rattle.cert_rows.specs.declared.gateway.Gateway.{Gateway};
ghost use Rattle.cert_rows.specs.Gathered.{marks_of, regions_of, rows_at};
ghost use Rattle.cert_text.specs.Rows.{Row, a_rows, b_rows};
ghost use Rattle.spd_line.specs.declared.line.LineParts.{LineParts};

/// The rows of both gateways, as A sees them, are those by which a certificate is judged, and each
/// box of some rows has a mark.
pub fn rows_are_those_of_certificates()
    ensures a { (lines : List LineParts) → rows_at Gateway.A lines ≡ a_rows lines }
    ensures b { (lines : List LineParts) → rows_at Gateway.B lines ≡ b_rows lines }
    ensures marks { (place : ℕ) (rows : List Row)
        → length (marks_of place rows) ≡ length (regions_of rows) }
{}
