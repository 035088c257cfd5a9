ghost use Rattle.std.specs.Prelude.{◌≡◌, ◌≤◌, Some, None, length, option_map};
ghost use Rattle.spd_line.specs.Fault.{line_fault_text, line_fault, mixes_gates, protects_one_way};

use crate::families::has_family;
use crate::ports::{flag_no_field, flag_opaque, have_form};
use crate::width::is_too_wide;
use crate::{Action, LineParts, Mode, Way};
use std::error::Error;
use std::fmt;

/// Why some parts make no line.
#[derive(Clone, Copy, Debug, PartialEq, Eq)]
pub enum LineFault {
    /// A PROTECT line isn't looked at in both directions.
    ProtectOneWay,
    /// The two gates of a tunnel have different families.
    GateFamily,
    /// No family has both a local and a remote range.
    NoFamily,
    /// A range of ports hasn't the form of the protocol's fields: numbers for 6, 17, 33, 132 and
    /// 136, numbers up to 255 for 135, a type and code for 1 and 58.
    PortNoProtocol,
    /// A port is flagged, and the protocol isn't one that has two ports.
    PfpNoField,
    /// A flagged selector is or has OPAQUE.
    PfpOpaque,
    /// There are more than 4,096 boxes.
    TooWide,
}

impl LineFault {
    /// What is printed of it.
    pub fn as_str(self) -> &'static str
        ensures text { result.now ≡ line_fault_text self }
        ensures short { length result.now ≤ 16 }
    {
        match self {
            LineFault::ProtectOneWay => "protect one way",
            LineFault::GateFamily => "gate family",
            LineFault::NoFamily => "no family",
            LineFault::PortNoProtocol => "port no protocol",
            LineFault::PfpNoField => "pfp no field",
            LineFault::PfpOpaque => "pfp opaque",
            LineFault::TooWide => "too wide",
        }
    }
}

impl fmt::Display for LineFault {
    ghost use Rattle.std.specs.Prelude.{Some};
    ghost use Rattle.spd_line.specs.Fault.{line_fault_text};

    ghost output = { λ fault. Some (line_fault_text fault) };

    fn fmt<W: fmt::Write>(&self, f: &mut fmt::Formatter<W>) -> fmt::Result {
        f.write_str(self.as_str())
    }
}

impl Error for LineFault {}

// The first fault of some parts.
#[tactic(auto, unfolding(crate::specs::Fault::line_fault))]
pub fn fault_of(parts: &LineParts) -> Option<LineFault>
    ensures { result ≡ line_fault parts.now }
{
    if is_one_way_protect(parts.action, parts.way) {
        return Some(LineFault::ProtectOneWay);
    }
    if has_mixed_gates(parts.action) {
        return Some(LineFault::GateFamily);
    }
    if !has_family(parts) {
        return Some(LineFault::NoFamily);
    }
    if !have_form(parts) {
        return Some(LineFault::PortNoProtocol);
    }
    if flag_no_field(parts) {
        return Some(LineFault::PfpNoField);
    }
    if flag_opaque(parts) {
        return Some(LineFault::PfpOpaque);
    }
    if is_too_wide(parts) {
        return Some(LineFault::TooWide);
    }
    None
}

fn is_one_way_protect(action: Action, way: Way) -> bool
    ensures { result ≡ protects_one_way action way }
{
    matches!(action, Action::Protect { .. }) && !matches!(way, Way::Both)
}

fn has_mixed_gates(action: Action) -> bool
    ensures { result ≡ mixes_gates action }
{
    match action {
        Action::Protect {
            mode: Mode::Tunnel {
                gate_local,
                gate_remote,
            },
            ..
        } => gate_local.family() != gate_remote.family(),
        _ => false,
    }
}
