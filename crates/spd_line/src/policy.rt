/// The most lines of a policy.
pub const MOST_LINES: u32 = 4096;

/// The name of the line behind all lines of a policy, which none of them has.
pub const FINAL: &[u8] = b"final";
