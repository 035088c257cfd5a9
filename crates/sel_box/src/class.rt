ghost use Rattle.std.specs.Prelude.{◌≡◌, ◌≤◌, ℕ, IsTrue};
ghost use Rattle.sel_box.specs.Class.{fields_fit, opaque_protocol};
ghost use Rattle.sel_box.specs.Classes.{are_classes, row_has, shape_allows, shape_of, top_of};

/// The number that stands for an OPAQUE protocol.
pub const OPAQUE_PROTOCOL: u16 = 256;

/// The number that stands for an OPAQUE field.
pub const OPAQUE_FIELD: u32 = 65536;

/// Which fields the packets of a protocol show (RFC 4301 section 4.4.1.1). A field that isn't
/// available is OPAQUE.
#[derive(Clone, Copy, Debug, PartialEq, Eq, Hash)]
pub enum Shape {
    /// Both fields are OPAQUE.
    NoField,
    /// The source's field is a number or OPAQUE, the destination's is OPAQUE.
    OneField,
    /// Both fields are numbers, or both are OPAQUE.
    TwoPorts,
}

/// Neighbouring protocols whose packets show the same fields.
#[derive(Clone, Copy, Debug, PartialEq, Eq, Hash)]
pub struct ClassRow {
    /// The first protocol.
    pub first: u16,
    /// The last protocol, 256 for OPAQUE.
    pub last: u16,
    /// The fields that their packets show.
    pub shape: Shape,
    /// The greatest number of a field, 0 where there is none.
    pub top: u32,
}

impl ClassRow {
    /// Whether packets of the row's protocols can show these fields.
    pub fn allows(&self, source: u32, destination: u32) -> bool
        ensures { result ≡ shape_allows self.now.shape self.now.top source destination }
    {
        let opaque = source == OPAQUE_FIELD && destination == OPAQUE_FIELD;
        match self.shape {
            Shape::NoField => opaque,
            Shape::OneField => opaque || source <= self.top && destination == OPAQUE_FIELD,
            Shape::TwoPorts => opaque || source <= self.top && destination <= self.top,
        }
    }
}

/// The classes of protocols: rows that partition the numbers from 0 to 256 in rising order, each
/// with what the packets of its protocols show.
#[derive(Clone, Copy, Debug)]
pub struct Classes<const N: usize> {
    /// The rows, in rising order of protocols.
    pub rows: [ClassRow; N],
    pub ghost parted: { IsTrue (are_classes rows) },
}

impl<const N: usize> Classes<N> {
    /// The row that has the protocol, 0 to 256. It takes time in proportion to the rows.
    pub fn row(&self, protocol: u16) -> &ClassRow
        requires { protocol ≤ opaque_protocol }
        ensures protocol { IsTrue (row_has result.now protocol) }
        ensures shape { result.now.shape ≡ shape_of protocol }
        ensures top { result.now.top ≡ top_of protocol }
        ensures fields { (source destination : ℕ) →
            shape_allows result.now.shape result.now.top source destination
            ≡ fields_fit protocol source destination }
    {
        for row in &self.rows {
            if protocol <= row.last {
                return row;
            }
        }
        unreachable!()
    }
}
