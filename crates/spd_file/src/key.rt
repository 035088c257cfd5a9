ghost use Rattle.std.specs.Prelude.{◌≡◌};
ghost use Rattle.spd_file.specs.Key.{line_key_text, top_key_text};

use std::fmt;

/// A key of the whole policy.
#[derive(Clone, Copy, Debug, PartialEq, Eq)]
pub enum TopKey {
    /// `format`, the version of the form.
    Format,
    /// `line`, the array of the lines.
    Line,
    /// A key that a policy doesn't have.
    Unknown,
}

impl TopKey {
    /// The key as it stands in the file, and `unknown key` for one that a policy doesn't have.
    pub fn as_str(self) -> &'static str
        ensures { result.now ≡ top_key_text self }
    {
        match self {
            TopKey::Format => "format",
            TopKey::Line => "line",
            TopKey::Unknown => "unknown key",
        }
    }
}

impl fmt::Display for TopKey {
    ghost use Rattle.std.specs.Prelude.{Some};
    ghost use Rattle.spd_file.specs.Key.{top_key_text};

    ghost output = { λ key. Some (top_key_text key) };

    fn fmt<W: fmt::Write>(&self, f: &mut fmt::Formatter<W>) -> fmt::Result {
        f.write_str(self.as_str())
    }
}

/// A key of a line.
#[derive(Clone, Copy, Debug, PartialEq, Eq)]
pub enum LineKey {
    /// The line as a whole.
    Whole,
    /// A key that a line doesn't have.
    Unknown,
    Name,
    Action,
    Direction,
    Local,
    Remote,
    Protocol,
    LocalPort,
    RemotePort,
    Pfp,
    Ipsec,
    Mode,
    GateLocal,
    GateRemote,
}

impl LineKey {
    /// The key as it stands in the file, `table` for the line as a whole, and `unknown key` for one
    /// that a line doesn't have.
    pub fn as_str(self) -> &'static str
        ensures { result.now ≡ line_key_text self }
    {
        match self {
            LineKey::Whole => "table",
            LineKey::Unknown => "unknown key",
            LineKey::Name => "name",
            LineKey::Action => "action",
            LineKey::Direction => "direction",
            LineKey::Local => "local",
            LineKey::Remote => "remote",
            LineKey::Protocol => "protocol",
            LineKey::LocalPort => "local_port",
            LineKey::RemotePort => "remote_port",
            LineKey::Pfp => "pfp",
            LineKey::Ipsec => "ipsec",
            LineKey::Mode => "mode",
            LineKey::GateLocal => "gate_local",
            LineKey::GateRemote => "gate_remote",
        }
    }
}

impl fmt::Display for LineKey {
    ghost use Rattle.std.specs.Prelude.{Some};
    ghost use Rattle.spd_file.specs.Key.{line_key_text};

    ghost output = { λ key. Some (line_key_text key) };

    fn fmt<W: fmt::Write>(&self, f: &mut fmt::Formatter<W>) -> fmt::Result {
        f.write_str(self.as_str())
    }
}
