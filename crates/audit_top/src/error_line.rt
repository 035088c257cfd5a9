ghost use Rattle.std.specs.Prelude.{◌≡◌, ◌≤◌, ◌++◌, codes, decimal, length, map, option_map};
ghost use Rattle.audit_frame.specs.Answer.{text_of};
ghost use Rattle.audit_top.specs.ErrorLine.{certificate_line, error_line, limit_line, policy_line};
ghost use Rattle.audit_top.specs.ErrorLine.{proposal_line, trace_line, word_line};

use crate::{Outcome, TraceFault};
use arrayvec::ArrayString;
use itoa::Buffer;
use sel_box::Direction;
use spd_file::PolicyFault;
use spd_text::direction_word;
use ts_wire::ProposalFault;

// Room for the longest line.
const ROOM: usize = 160;

// A line that is made without memory.
type ErrorLine = ArrayString<ROOM>;

// The line that tells a refusal, with its end. It takes no memory.
pub fn error_line_of(outcome: &Outcome) -> Option<ErrorLine>
    ensures { option_map (λ line. line.bytes) result ≡ error_line outcome.now }
{
    match outcome {
        Outcome::Done | Outcome::Differ | Outcome::Unacceptable | Outcome::Rejected { .. } => None,
        Outcome::Usage => Some(joined(&["error: usage\n"])),
        Outcome::PolicyFault { word, fault } => Some(line_of_policy(*word, fault)),
        Outcome::TraceFault { line, fault } => Some(line_of_trace(*line, fault)),
        Outcome::ProposalFault { fault } => Some(line_of_proposal(fault)),
        Outcome::CertFault { line } => Some(line_of_certificate(*line)),
        Outcome::TooLong { word } => Some(line_of_word(*word, ": too long\n")),
        Outcome::EntryLimit {
            word,
            direction,
            line,
            at,
        } => Some(line_of_limit(*word, *direction, *line, *at)),
        Outcome::ReadFault { word } => Some(line_of_word(*word, ": cannot read\n")),
        Outcome::WriteFault => Some(joined(&["error: cannot write\n"])),
        Outcome::NoMemory => Some(joined(&["error: out of memory\n"])),
    }
}

// The parts one after another.
fn joined(parts: &[&str]) -> ErrorLine
    requires { length (text_of (map (λ part. part.now) parts.now)) ≤ ROOM }
    ensures { result.bytes ≡ text_of (map (λ part. part.now) parts.now) }
{
    let mut line = ArrayString::new();
    for part in parts {
        line.push_str(part);
    }
    line
}

fn line_of_word(word: u32, cause: &str) -> ErrorLine
    requires { length cause.now ≤ 40 }
    ensures { result.bytes ≡ word_line word cause.now }
{
    joined(&["error: word ", Buffer::new().format(word), cause])
}

fn line_of_policy(word: u32, fault: &PolicyFault) -> ErrorLine
    ensures { result.bytes ≡ policy_line word fault.now }
{
    let mut digits = Buffer::new();
    let fault = fault.text();
    joined(&[
        "error: word ",
        digits.format(word),
        ": policy: ",
        fault.as_str(),
        "\n",
    ])
}

fn line_of_trace(line: u64, fault: &TraceFault) -> ErrorLine
    ensures { result.bytes ≡ trace_line line fault.now }
{
    match fault {
        TraceFault::Text(fault) => line_of_cause(line, ": ", fault.text().as_str()),
        TraceFault::OnlyPackets => line_of_cause(line, ": ", "only packets"),
        TraceFault::Table(fault) => line_of_cause(line, ": table: ", fault.text().as_str()),
        TraceFault::Lane(fault) => line_of_cause(line, ": ", fault.as_str()),
        TraceFault::Edit(fault) => line_of_cause(line, ": ", fault.as_str()),
    }
}

fn line_of_cause(line: u64, mark: &str, cause: &str) -> ErrorLine
    requires mark { length mark.now ≤ 9 }
    requires cause { length cause.now ≤ 64 }
    ensures { result.bytes
        ≡ codes "error: trace line " ++ (decimal line ++ (mark.now ++ (cause.now ++ codes "\n"))) }
{
    joined(&[
        "error: trace line ",
        Buffer::new().format(line),
        mark,
        cause,
        "\n",
    ])
}

fn line_of_proposal(fault: &ProposalFault) -> ErrorLine
    ensures { result.bytes ≡ proposal_line fault.now }
{
    let fault = fault.text();
    joined(&["error: proposal: ", fault.as_str(), "\n"])
}

fn line_of_certificate(line: u64) -> ErrorLine
    ensures { result.bytes ≡ certificate_line line }
{
    joined(&["error: certificate line ", Buffer::new().format(line), "\n"])
}

fn line_of_limit(word: u32, direction: Direction, line: u32, at: Option<u64>) -> ErrorLine
    ensures { result.bytes ≡ limit_line word direction line at }
{
    let (mut first, mut second, mut third) = (Buffer::new(), Buffer::new(), Buffer::new());
    let (word, line) = (first.format(word), second.format(line));
    let direction = direction_word(direction);
    match at {
        None => joined(&[
            "error: word ",
            word,
            ": entry limit: ",
            direction,
            " line ",
            line,
            "\n",
        ]),
        Some(at) => joined(&[
            "error: word ",
            word,
            ": entry limit: ",
            direction,
            " line ",
            line,
            " at trace line ",
            third.format(at),
            "\n",
        ]),
    }
}
