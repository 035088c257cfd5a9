ghost use Rattle.std.specs.Prelude.{◌≡◌};
ghost use Rattle.spd_file.specs.Why.{why_text};

use sel_text::TextFault;
use std::fmt;

/// What is wrong with a key: of several causes, the first in this order.
#[derive(Clone, Copy, Debug, PartialEq, Eq)]
pub enum Why {
    /// The key stands where it mustn't.
    NotHere,
    /// The key doesn't stand where it must.
    Missing,
    /// The value, or an item of the array that it is, is of a kind that the key doesn't take.
    WrongKind,
    /// The array has no item.
    Empty,
    /// A text isn't in the grammar of the key.
    NotInGrammar,
    /// A number, the length of a name or the order of a range passes its bound.
    OutOfRange,
    /// The name is that of the line behind all lines, `final`.
    Reserved,
}

impl From<TextFault> for Why {
    ghost use Rattle.std.specs.Prelude.{◌≡◌};
    ghost use Rattle.spd_file.specs.Why.{why_of};

    ghost from_gives = { λ fault why. why ≡ why_of fault };

    fn from(fault: TextFault) -> Why {
        match fault {
            TextFault::NotInGrammar => Why::NotInGrammar,
            TextFault::OutOfRange => Why::OutOfRange,
        }
    }
}

impl Why {
    /// What is printed of it.
    pub fn as_str(self) -> &'static str
        ensures { result.now ≡ why_text self }
    {
        match self {
            Why::NotHere => "not here",
            Why::Missing => "missing",
            Why::WrongKind => "wrong kind",
            Why::Empty => "empty",
            Why::NotInGrammar => "not in grammar",
            Why::OutOfRange => "out of range",
            Why::Reserved => "reserved",
        }
    }
}

impl fmt::Display for Why {
    ghost use Rattle.std.specs.Prelude.{Some};
    ghost use Rattle.spd_file.specs.Why.{why_text};

    ghost output = { λ why. Some (why_text why) };

    fn fmt<W: fmt::Write>(&self, f: &mut fmt::Formatter<W>) -> fmt::Result {
        f.write_str(self.as_str())
    }
}
