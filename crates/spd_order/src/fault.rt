ghost use Rattle.std.specs.Prelude.{◌≡◌, ◌≤◌, length};
ghost use Rattle.spd_order.specs.Fault.{order_fault_text};

use spd_line::Line;
use std::alloc::AllocError;
use std::error::Error;
use std::fmt;

/// Why a policy can't be made or edited. The first that applies, in this order, is answered.
#[derive(Clone, Copy, Debug, PartialEq, Eq)]
pub enum OrderFault {
    /// There would be more than 4,096 lines.
    TooManyLines,
    /// No line has the name. `final`, the line behind the last, can't be edited.
    NoSuchName,
    /// A line has the name already, or it is `final`.
    NameTaken,
    /// The place is outside 1 to the count, or where a line is inserted to the count plus 1.
    BadPlace,
    /// There was no memory.
    NoMemory,
}

impl OrderFault {
    /// What is printed of it.
    pub fn as_str(self) -> &'static str
        ensures text { result.now ≡ order_fault_text self }
        ensures short { length result.now ≤ 14 }
    {
        match self {
            OrderFault::TooManyLines => "too many lines",
            OrderFault::NoSuchName => "no such name",
            OrderFault::NameTaken => "name taken",
            OrderFault::BadPlace => "bad place",
            OrderFault::NoMemory => "out of memory",
        }
    }
}

impl fmt::Display for OrderFault {
    ghost use Rattle.std.specs.Prelude.{Some};
    ghost use Rattle.spd_order.specs.Fault.{order_fault_text};

    ghost output = { λ fault. Some (order_fault_text fault) };

    fn fmt<W: fmt::Write>(&self, f: &mut fmt::Formatter<W>) -> fmt::Result {
        f.write_str(self.as_str())
    }
}

impl Error for OrderFault {}

impl From<AllocError> for OrderFault {
    ghost use Rattle.std.specs.Prelude.{◌≡◌};
    ghost use Rattle.spd_order.specs.declared.fault.OrderFault.TheVariants.{NoMemory};

    ghost from_gives = { λ _ fault. fault ≡ NoMemory };

    fn from(_: AllocError) -> OrderFault {
        OrderFault::NoMemory
    }
}

/// A line that wasn't inserted, and why.
#[derive(Debug, Drop)]
pub struct InsertRefused {
    pub fault: OrderFault,
    pub line: Line,
}
