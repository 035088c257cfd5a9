use sel_text::Family;

/// The values of a point that a line's populate-from-packet flags take from it (RFC 4301 section
/// 4.4.1.2), as numbers: each of the last five is there exactly where that selector is flagged, and
/// the family where an address is.
#[derive(Clone, Copy, Debug, PartialEq, Eq, Hash)]
pub struct Pins {
    pub family: Option<Family>,
    pub local: Option<u128>,
    pub remote: Option<u128>,
    pub protocol: Option<u16>,
    pub local_field: Option<u32>,
    pub remote_field: Option<u32>,
}
