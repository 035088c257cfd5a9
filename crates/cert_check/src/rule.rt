ghost use Rattle.std.specs.Prelude.{◌≡◌, List};
ghost use Rattle.spd_line.specs.Agree.{same_judgement};
ghost use Rattle.spd_line.specs.declared.line.LineParts.{LineParts};
ghost use Rattle.cert_rows.specs.Gathered.{AreGathered, rows_at};
ghost use Rattle.cert_rows.specs.declared.gateway.Gateway.{Gateway};
ghost use Rattle.cert_text.specs.Rows.{a_rows, b_rows};
ghost use Rattle.cert_text.specs.Valid.{both_same, holds};
ghost use Rattle.cert_check.specs.inner.Scan.{scan};
ghost use Rattle.cert_check.specs.inner.Steps.{rule_by};

use cert_rows::Side;
use cert_text::{Node, split};
use sel_box::{AnyBox, Region, least_packet};
use spd_line::Judgement;

/// Whether a node holds of its box, by the boxes of A's and of B's policy: a split cuts the box in
/// two; the lines of a leaf decide it, and judge it alike; a `void` box has no packet. Takes no
/// memory.
pub fn node_holds(ours: &Side, theirs: &Side, node: &Node, region: &AnyBox) -> bool
    ensures { (a b : List LineParts)
        → AreGathered (rows_at Gateway.A a) ours.now.regions ours.now.marks.items
        → AreGathered (rows_at Gateway.B b) theirs.now.regions theirs.now.marks.items
        → result ≡ holds (a_rows a) (b_rows b) node.now region.now }
{
    holds(ours, theirs, node, region)
}

// The same, said by the boxes themselves.
pub fn holds(ours: &Side, theirs: &Side, node: &Node, region: &AnyBox) -> bool
    ensures { result ≡ rule_by ours.now theirs.now node.now region.now }
{
    match node {
        Node::Split { axis, value } => split(region, *axis, *value).is_some(),
        Node::Leaf { a, b } => { both_same(decided(ours, *a, region), decided(theirs, *b, region)) }
        Node::Void => least_packet(region).is_none(),
    }
}

// How the line at a place judges the points of a box: the box lies in one of the line's, and meets
// none of an earlier line. `None` where the line doesn't decide it.
//
// Looks at boxes of the line that meet the box alone, up to the first in which it lies.
fn decided(side: &Side, line: u32, region: &AnyBox) -> Option<Judgement>
    ensures { result ≡ scan line region.now side.now.regions side.now.marks.items }
{
    sel_tree::laws::the_first_box_that_meets_is_found();
    let mut from = 0;
    while let Some(index) = side.regions.first_met(from, region) {
        let mark = &side.marks[index];
        if mark.line != line {
            return None;
        }
        if region.within(&side.regions.as_slice()[index]) {
            return Some(mark.judgement);
        }
        from = index + 1;
    }
    None
}

// Whether there are two judgements, and they are the same.
fn both_same(ours: Option<Judgement>, theirs: Option<Judgement>) -> bool
    ensures { result ≡ both_same ours theirs }
{
    match (ours, theirs) {
        (Some(ours), Some(theirs)) => same(ours, theirs),
        _ => false,
    }
}

// Whether two judgements are the same.
fn same(a: Judgement, b: Judgement) -> bool
    ensures { result ≡ same_judgement a b }
{
    a == b
}
