ghost use Rattle.std.specs.Prelude.{◌≡◌, ◌+◌, ◌≤◌, length};
ghost use Rattle.spd_line.specs.First.{name_at, verdict_of};
ghost use Rattle.spd_line.specs.Judged.{carriage_of, judged, judgement_of, lacks_flagged};
ghost use Rattle.spd_line.specs.Policy.{final_name, most_lines};

use crate::select::matches;
use crate::{Action, Carriage, FINAL, Judgement, Line, Lines, Mode, Name, Pfp, Verdict};
use sel_box::{Direction, OPAQUE_FIELD, OPAQUE_PROTOCOL, Point};

/// The verdict on a point: the first line that selects it, in order, and that line's judgement;
/// where none does, `final`, the line behind the last, discards it (RFC 4301 sections 4.4.1 and 5).
/// Takes time by the number of lines before and with the first.
pub fn judge<L: Lines>(lines: &L, direction: Direction, point: &Point) -> Verdict
    requires { length (L.lines lines.now) ≤ most_lines }
    ensures verdict { result ≡ verdict_of direction point.now (L.lines lines.now) }
    ensures first { 1 ≤ result.line }
    ensures last { result.line ≤ length (L.lines lines.now) + 1 }
{
    for place in 1..lines.count() + 1 {
        let line = lines.line(place);
        if matches(line, direction, point) {
            return Verdict {
                line: place,
                judgement: judge_by(line, direction, point),
            };
        }
    }
    Verdict {
        line: lines.count() + 1,
        judgement: Judgement::Discard,
    }
}

/// The name of the line at a place, `final` at the count plus 1.
pub fn name_of<L: Lines>(lines: &L, line: u32) -> Name
    requires few { length (L.lines lines.now) ≤ most_lines }
    requires first { 1 ≤ line }
    requires last { line ≤ length (L.lines lines.now) + 1 }
    ensures { result ≡ name_at (L.lines lines.now) line }
{
    match lines.at(line) {
        Some(found) => found.parts().name,
        None => final_name(),
    }
}

// The name of the line behind the last.
fn final_name() -> Name
    ensures { result ≡ final_name }
{
    match sel_text::read_name(FINAL) {
        Ok(name) => name,
        Err(_) => unreachable!(),
    }
}

// The line's judgement of a point that it selects.
pub fn judge_by(line: &Line, direction: Direction, point: &Point) -> Judgement
    ensures { result ≡ judged direction point.now line.now }
{
    let parts = line.parts();
    if is_missing(&parts.pfp, point) {
        Judgement::Discard
    } else {
        judgement_of(direction, parts.action)
    }
}

// Whether a flagged selector's value isn't available in the point.
fn is_missing(flags: &Pfp, point: &Point) -> bool
    ensures { result ≡ lacks_flagged flags.now point.now }
{
    flags.protocol && point.protocol() == OPAQUE_PROTOCOL
        || flags.local_port && point.local_field() == OPAQUE_FIELD
        || flags.remote_port && point.remote_field() == OPAQUE_FIELD
}

// What the action does to a packet of the direction.
fn judgement_of(direction: Direction, action: Action) -> Judgement
    ensures { result ≡ judgement_of direction action }
{
    match action {
        Action::Discard => Judgement::Discard,
        Action::Bypass => Judgement::Bypass,
        Action::Protect { ipsec, mode } => Judgement::Protect {
            ipsec,
            carriage: carriage_of(direction, mode),
        },
    }
}

// A tunnel's gates in the order of travel.
fn carriage_of(direction: Direction, mode: Mode) -> Carriage
    ensures { result ≡ carriage_of direction mode }
{
    match (direction, mode) {
        (_, Mode::Transport) => Carriage::Transport,
        (
            Direction::Outbound,
            Mode::Tunnel {
                gate_local,
                gate_remote,
            },
        ) => Carriage::Tunnel {
            first: gate_local,
            second: gate_remote,
        },
        (
            Direction::Inbound,
            Mode::Tunnel {
                gate_local,
                gate_remote,
            },
        ) => Carriage::Tunnel {
            first: gate_remote,
            second: gate_local,
        },
    }
}
