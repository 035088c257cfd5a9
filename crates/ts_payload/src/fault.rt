ghost use Rattle.std.specs.Prelude.{◌≡◌, ◌≤◌, [], length};
ghost use Rattle.ts_payload.specs.Fault.{selector_text, ts_fault_text};

use arrayvec::ArrayString;
use itoa::Buffer;
use lists::NoMemory;
use std::error::Error;
use std::fmt;

/// Why bytes are no traffic selector payload: the first of its faults in the order in which they
/// stand here, those that have an index selector by selector. Selectors are counted from 1, those
/// that are passed over too.
#[derive(Clone, Copy, Debug, PartialEq, Eq)]
pub enum TsFault {
    /// There are fewer bytes than the eight of a header.
    Short,
    /// The Payload Length isn't the number of bytes.
    LengthMismatch,
    /// There are more than 127 selectors.
    TooMany,
    /// No bytes are left for a selector, or some are left behind the last.
    CountMismatch,
    /// The selector's length isn't that of its type, or fewer bytes are left.
    SelectorLength { index: u32 },
    /// The selector's starting address is above its ending address.
    AddressOrder { index: u32 },
    /// The selector's start port is above its end port, and they aren't 65535 and 0.
    PortOrder { index: u32 },
    /// The selector is of every protocol, and its ports are neither those of every field nor those
    /// of OPAQUE.
    PortNoProtocol { index: u32 },
    /// There was no memory. This says nothing of the payload.
    NoMemory,
}

impl TsFault {
    /// What is printed of the fault, kept in place. It takes no memory.
    pub fn text(self) -> ArrayString<37>
        ensures { result.bytes ≡ ts_fault_text self }
    {
        let mut text = ArrayString::new();
        match self {
            TsFault::Short => text.push_str("short"),
            TsFault::LengthMismatch => text.push_str("length mismatch"),
            TsFault::TooMany => text.push_str("too many"),
            TsFault::CountMismatch => text.push_str("count mismatch"),
            TsFault::SelectorLength { index } => push_selector(&mut text, index, "length"),
            TsFault::AddressOrder { index } => push_selector(&mut text, index, "address order"),
            TsFault::PortOrder { index } => push_selector(&mut text, index, "port order"),
            TsFault::PortNoProtocol { index } => {
                push_selector(&mut text, index, "port no protocol")
            }
            TsFault::NoMemory => text.push_str("out of memory"),
        }
        text
    }
}

// Writes into an empty text what is wrong with the selector with this index.
fn push_selector(text: &mut ArrayString<37>, index: u32, what: &str)
    requires empty { text.old.bytes ≡ [] }
    requires short { length what.now ≤ 16 }
    ensures { text.new.bytes ≡ selector_text index what.now }
{
    let mut digits = Buffer::new();
    text.push_str("selector ");
    text.push_str(digits.format(index));
    text.push_str(": ");
    text.push_str(what);
}

impl fmt::Display for TsFault {
    ghost use Rattle.std.specs.Prelude.{Some};

    ghost output = { λ fault. Some (ts_fault_text fault) };

    fn fmt<W: fmt::Write>(&self, f: &mut fmt::Formatter<W>) -> fmt::Result {
        f.write_str(self.text().as_str())
    }
}

impl Error for TsFault {}

impl From<NoMemory> for TsFault {
    ghost use Rattle.std.specs.Prelude.{◌≡◌};
    ghost use Rattle.ts_payload.specs.declared.fault.TsFault.{TsFault};

    ghost from_gives = { λ _ fault. fault ≡ TsFault.NoMemory };

    fn from(_: NoMemory) -> TsFault {
        TsFault::NoMemory
    }
}
