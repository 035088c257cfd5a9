ghost use Rattle.std.specs.Prelude.{◌≡◌, ◌≤◌, ℕ, Bool, IsTrue, count_by};
ghost use Rattle.std.specs.List.{list_all};
ghost use Rattle.ts_span.specs.Table as table;

use sel_box::OPAQUE_FIELD;

/// Which protocols a row of the table is of.
#[derive(Clone, Copy, Debug)]
pub enum RowProtocols {
    AnyProtocol,
    NotMobility,
    Mobility,
}

/// What a range of fields is written as.
#[derive(Clone, Copy, Debug)]
pub enum Spelling {
    /// Nothing: no packet shows one of the fields.
    Nothing,
    /// The ports of every field.
    All,
    /// The ports of OPAQUE.
    Opaque,
    /// The numbers in two halves, since both ends together are the ports of every field.
    Halves,
    /// The two ends.
    Numbers,
    /// The low end and the greatest number, then OPAQUE.
    NumbersAndOpaque,
    /// The 256-folds of the two ends, up to the last type.
    Types,
    /// The 256-folds of the low end and of the last type, then OPAQUE.
    TypesAndOpaque,
}

/// Ranges of fields that are written alike: their least and their greatest fields each lie between
/// two.
#[derive(Clone, Copy, Debug)]
pub struct FieldRow {
    pub protocols: RowProtocols,
    pub lows: (u32, u32),
    pub highs: (u32, u32),
    pub spelling: Spelling,
}

impl FieldRow {
    // Whether the row has the range of fields of the Mobility Header, or of another protocol.
    fn has(&self, mobility: bool, fields: (u32, u32)) -> bool
        ensures { result ≡ table.row_has mobility fields self.now }
    {
        let suits = match self.protocols {
            RowProtocols::AnyProtocol => true,
            RowProtocols::NotMobility => !mobility,
            RowProtocols::Mobility => mobility,
        };
        suits
            && self.lows.0 <= fields.0
            && fields.0 <= self.lows.1
            && self.highs.0 <= fields.1
            && fields.1 <= self.highs.1
    }
}

/// How ranges of fields are written, in rows.
#[derive(Clone, Copy, Debug)]
pub struct FieldTable<const N: usize> {
    pub rows: [FieldRow; N],
    pub ghost fitting: { IsTrue (list_all table.row_fits rows) },
}

impl<const N: usize> FieldTable<N> {
    // What the range of fields is written as: by the first row that has it.
    pub fn spelling(&self, mobility: bool, fields: (u32, u32)) -> Spelling
        ensures ports { table.ports_of result fields
            ≡ table.ports_by mobility fields self.now.rows }
        ensures fits { IsTrue (table.fits_ports result fields) }
    {
        for row in &self.rows {
            if row.has(mobility, fields) {
                return row.spelling;
            }
        }
        Spelling::Nothing
    }
}

/// The ten rows of how ranges of fields are written. Each range lies in exactly one.
pub fn field_table() -> FieldTable<10>
    ensures rows { result.rows ≡ table.field_rows }
    ensures parted { (mobility : Bool) (low high : ℕ) → low ≤ high → high ≤ 65536
        → count_by (table.row_has mobility (low, high)) result.rows ≡ 1 }
{
    macro_rules! rows {
        ($($of:ident $low:literal $to:literal $high:literal $top:literal $spelling:ident,)*) => {
            [$(FieldRow {
                protocols: RowProtocols::$of,
                lows: ($low, $to),
                highs: ($high, $top),
                spelling: Spelling::$spelling,
            }),*]
        };
    }
    FieldTable {
        rows: rows! {
            AnyProtocol 0 0 65536 65536 All,
            AnyProtocol 65536 65536 65536 65536 Opaque,
            NotMobility 0 0 65535 65535 Halves,
            NotMobility 0 0 0 65534 Numbers,
            NotMobility 1 65535 1 65535 Numbers,
            NotMobility 1 65535 65536 65536 NumbersAndOpaque,
            Mobility 0 255 0 65535 Types,
            Mobility 1 255 65536 65536 TypesAndOpaque,
            Mobility 256 65535 65536 65536 Opaque,
            Mobility 256 65535 256 65535 Nothing,
        },
    }
}
