ghost use Rattle.std.specs.Prelude.{◌≡◌};
ghost use Rattle.sel_text.specs.inner.Reading.{both};

use std::error::Error;
use std::fmt;

/// Why a text is refused.
#[derive(Clone, Copy, Debug, PartialEq, Eq, PartialOrd, Ord, Hash)]
pub enum TextFault {
    /// The text stands for nothing, however large its numbers may be.
    NotInGrammar,
    /// The text is in its grammar with numbers of any size, and one of them, a prefix length, the
    /// length of a name or the order of a range passes its bound.
    OutOfRange,
}

impl fmt::Display for TextFault {
    ghost use Rattle.sel_text.specs.Fault.{fault_text};

    ghost output = { fault_text };

    fn fmt<W: fmt::Write>(&self, f: &mut fmt::Formatter<W>) -> fmt::Result {
        f.write_str(match self {
            TextFault::NotInGrammar => "not in grammar",
            TextFault::OutOfRange => "out of range",
        })
    }
}

impl Error for TextFault {}

// What two texts mean together: `NotInGrammar` where either is not, else `OutOfRange` where
// either is.
pub fn both<A: Copy, B: Copy>(
    first: Result<A, TextFault>,
    second: Result<B, TextFault>,
) -> Result<(A, B), TextFault>
    ensures { result ≡ both first second }
{
    match (first, second) {
        (Err(TextFault::NotInGrammar), _) => Err(TextFault::NotInGrammar),
        (Ok(first), Ok(second)) => Ok((first, second)),
        (Ok(_), Err(fault)) => Err(fault),
        (Err(TextFault::OutOfRange), Ok(_)) => Err(TextFault::OutOfRange),
        (Err(TextFault::OutOfRange), Err(fault)) => Err(fault),
    }
}
