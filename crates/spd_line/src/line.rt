ghost use Rattle.std.specs.Prelude.{◌≡◌, ◌≢◌, [], Some, None, IfOk, IfErr, OnOk};
ghost use Rattle.spd_line.specs.AnyLine.{any_line};
ghost use Rattle.spd_line.specs.Fault.{line_fault};
ghost use Rattle.spd_line.specs.IsLine.{IsLine};

use crate::fault::{LineFault, fault_of};
use crate::{Action, AddressItem, AddressList, Name, NoMemory, PortItem, PortList};
use std::alloc::Global;
use std::marker::Model;

/// The directions in which a line is looked at.
#[derive(Clone, Copy, Debug, PartialEq, Eq)]
pub enum Way {
    Outbound,
    Inbound,
    Both,
}

/// A protocol selector (RFC 4301 section 4.4.1.1).
#[derive(Clone, Copy, Debug, PartialEq, Eq)]
pub enum ProtocolItem {
    Any,
    Opaque,
    Number(u8),
}

/// The populate-from-packet flags of a line's selectors (RFC 4301 section 4.4.1.2).
#[derive(Clone, Copy, Debug, PartialEq, Eq)]
pub struct Pfp {
    pub local: bool,
    pub remote: bool,
    pub protocol: bool,
    pub local_port: bool,
    pub remote_port: bool,
}

/// The parts of a line: each of the four lists is the selector that one of its items fits.
#[derive(Debug, Drop)]
pub struct LineParts {
    pub name: Name,
    pub action: Action,
    pub way: Way,
    pub local: AddressList,
    pub remote: AddressList,
    pub protocol: ProtocolItem,
    pub local_port: PortList,
    pub remote_port: PortList,
    pub pfp: Pfp,
}

impl LineParts {
    /// The parts of the line that selects everything: each selector is ANY and none is flagged, and
    /// the line is looked at in both directions. They make a line whatever the action, but for a
    /// tunnel whose gates have different families.
    pub fn any(alloc: Global, name: Name, action: Action) -> Result<LineParts, NoMemory>
        ensures { IfOk result (λ parts. parts ≡ any_line name action) }
    {
        Ok(LineParts {
            name,
            action,
            way: Way::Both,
            local: AddressList::of_one(alloc, AddressItem::Any)?,
            remote: AddressList::of_one(alloc, AddressItem::Any)?,
            protocol: ProtocolItem::Any,
            local_port: PortList::of_one(alloc, PortItem::Any)?,
            remote_port: PortList::of_one(alloc, PortItem::Any)?,
            pfp: Pfp {
                local: false,
                remote: false,
                protocol: false,
                local_port: false,
                remote_port: false,
            },
        })
    }
}

/// One line of a policy: parts that have no fault, with an item in each list.
#[derive(Debug, Drop)]
pub struct Line {
    parts: LineParts,
}

impl Model for Line {
    ghost use Rattle.spd_line.specs.declared.line.LineParts.{LineParts};
    ghost use Rattle.spd_line.specs.IsLine.{IsLine};

    ghost Value = { LineParts };

    ghost view = { λ l. l.parts };

    ghost invariant = { λ l. IsLine l.parts };
}

/// Some parts that make no line, and why.
#[derive(Debug, Drop)]
pub struct LineRefused {
    pub fault: LineFault,
    pub parts: LineParts,
}

impl Line {
    /// The line of these parts; each of the four lists has an item. Where they make none, they are
    /// handed back with their first fault. Takes time by the number of items, and no memory.
    pub fn new(parts: LineParts) -> Result<Line, LineRefused>
        requires local { parts.local ≢ [] }
        requires remote { parts.remote ≢ [] }
        requires local_port { parts.local_port ≢ [] }
        requires remote_port { parts.remote_port ≢ [] }
        ensures ok { IfOk result (λ line. line ≡ parts) }
        ensures made { OnOk result (line_fault parts ≡ None) }
        ensures fault { IfErr result (λ refused. line_fault parts ≡ Some refused.fault) }
        ensures parts { IfErr result (λ refused. refused.parts ≡ parts) }
    {
        match fault_of(&parts) {
            Some(fault) => Err(LineRefused { fault, parts }),
            None => Ok(Line { parts }),
        }
    }

    /// The parts that the line was made from.
    #[inline]
    pub fn parts(&self) -> &LineParts
        ensures value { result.now ≡ self.now }
        ensures line { IsLine result.now }
    {
        &self.parts
    }
}
