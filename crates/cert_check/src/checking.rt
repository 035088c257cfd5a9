ghost use Rattle.std.specs.Prelude.{◌≡◌, ◌<◌, ◌≤◌, ◌∷◌, [], length, option_map, Ok, IfErr};
ghost use Rattle.std.specs.Prelude.{IfOk, IfSome, MatchOption};
ghost use Rattle.sel_text.specs.Lines.{lines_of};
ghost use Rattle.spd_line.specs.Agree.{Agree};
ghost use Rattle.spd_line.specs.Policy.{most_lines};
ghost use Rattle.cert_check.specs.Answer.{IsCheckFault, check_answer, checked};
ghost use Rattle.cert_check.specs.declared.answer.Checked.{Checked};
ghost use Rattle.cert_check.specs.inner.Steps.{answer_behind, behind_agree, broken_by, rule_by};

use crate::rule::holds;
use crate::{CheckFault, Checked, laws};
use cert_rows::{Gateway, Side, Todo};
use cert_text::{Node, read_node};
use sel_box::AnyBox;
use sel_text::place_of;
use spd_line::Lines;
use std::alloc::Global;

/// Whether a certificate shows that two policies agree: that B judges each packet that comes in as
/// A judges it when it goes out (RFC 4301 section 5).
///
/// The first line is `agree`, and behind it stand the nodes of two trees, line by line and each
/// before those under it: a tree over all of IPv4, then one over all of IPv6. The form of the whole
/// text comes first: `CertFault` comes exactly where a line isn't in the grammar, which
/// `cert_text::read_node` has, is missing, or is one too many, with the number of the first such
/// line from 1. Then come the nodes, in order: `Rejected` comes exactly with the number of the
/// first that doesn't hold, from 1. A split holds where it cuts its box in two; a leaf where the
/// line of either policy decides its box and both judge it alike; `void` where its box has no
/// packet.
///
/// Gathers the boxes of both policies once, in n log n time and memory for each box. Then it looks
/// for a leaf at the boxes of two lines that meet its box, found in a tree of all boxes. It takes
/// memory for the boxes whose trees are still to come, and calls nothing by recursion, so trees may
/// be as deep as the text is long.
pub fn check<L: Lines, M: Lines>(
    alloc: Global,
    a: &L,
    b: &M,
    text: &[u8],
) -> Result<Checked, CheckFault>
    requires a_few { length (L.lines a.now) ≤ most_lines }
    requires b_few { length (M.lines b.now) ≤ most_lines }
    ensures ok { IfOk result (λ found.
        check_answer (L.lines a.now) (M.lines b.now) text.now ≡ Ok found) }
    ensures err { IfErr result
        (IsCheckFault (check_answer (L.lines a.now) (M.lines b.now) text.now)) }
    ensures agree { IfOk result (λ found. found ≡ Checked.Accepted
        → Agree (L.lines a.now) (M.lines b.now)) }
{
    laws::accepted_is_valid();
    laws::valid_agrees();
    let Some(nodes) = behind_agree(text) else {
        return Err(CheckFault::CertFault { line: 1 });
    };
    let ours = Side::new(alloc, a, Gateway::A)?;
    let theirs = Side::new(alloc, b, Gateway::B)?;
    check_nodes(alloc, &ours, &theirs, nodes)
}

// What stands behind the first line, where that is `agree`.
fn behind_agree(text: &[u8]) -> Option<&[u8]>
    ensures { option_map (λ nodes. lines_of nodes.now) result ≡ behind_agree (lines_of text.now) }
{
    let (first, nodes) = split_line(text)?;
    if first == b"agree\n".as_slice() {
        Some(nodes)
    } else {
        None
    }
}

// The first line of a text with its end, and what stands behind it; nothing of the empty text.
fn split_line(text: &[u8]) -> Option<(&[u8], &[u8])>
    ensures lines { MatchOption result (lines_of text.now ≡ [])
        (λ parts. lines_of text.now ≡ parts.0.now ∷ lines_of parts.1.now) }
    ensures shorter { IfSome result (λ parts. length parts.1.now < length text.now) }
{
    if text.is_empty() {
        return None;
    }
    match place_of(text, b'\n') {
        Some(end) => Some(text.split_at(end + 1)),
        None => Some(text.split_at(text.len())),
    }
}

// Reads the nodes, and judges them up to the first that is broken.
fn check_nodes(
    alloc: Global,
    ours: &Side,
    theirs: &Side,
    text: &[u8],
) -> Result<Checked, CheckFault>
    ensures ok { IfOk result (λ found.
        answer_behind (rule_by ours.now theirs.now) (lines_of text.now) ≡ Ok found) }
    ensures err { IfErr result
        (IsCheckFault (answer_behind (rule_by ours.now theirs.now) (lines_of text.now))) }
{
    let mut todo = Todo::new(alloc)?;
    let mut rest = text;
    let mut done = 0;
    let mut broken = None;
    while let Some(region) = todo.pop() {
        let Some((line, behind)) = split_line(rest) else {
            return Err(CheckFault::CertFault { line: done + 2 });
        };
        let Some(node) = read_node(region.family(), line) else {
            return Err(CheckFault::CertFault { line: done + 2 });
        };
        broken = broken_behind(ours, theirs, broken, done + 1, &node, &region);
        todo.add_parts(&node, &region)?;
        rest = behind;
        done += 1;
    }
    match split_line(rest) {
        None => Ok(checked(broken)),
        Some(_) => Err(CheckFault::CertFault { line: done + 2 }),
    }
}

// The first broken node behind one more, of this number. Where one is known, no other is judged.
fn broken_behind(
    ours: &Side,
    theirs: &Side,
    broken: Option<u64>,
    number: u64,
    node: &Node,
    region: &AnyBox,
) -> Option<u64>
    ensures { result
        ≡ broken_by broken number (rule_by ours.now theirs.now node.now region.now) }
{
    if broken.is_some() || holds(ours, theirs, node, region) {
        broken
    } else {
        Some(number)
    }
}

// What a certificate shows, by the first broken node.
fn checked(broken: Option<u64>) -> Checked
    ensures { result ≡ checked broken }
{
    match broken {
        None => Checked::Accepted,
        Some(node) => Checked::Rejected { node },
    }
}
