ghost use Rattle.std.specs.Prelude.{◌≡◌, ◌≤◌, length, IfErr, OnErr, OnOk};
ghost use Rattle.pair_io.specs.Gains.{Gains, GainsPrefix};
ghost use Rattle.spd_line.specs.Policy.{most_lines};
ghost use Rattle.cert_text.specs.NodeText.{node_text};
ghost use Rattle.cert_text.specs.Valid.{whole_boxes};
ghost use Rattle.cert_make.specs.Fault.{MakeCauses};
ghost use Rattle.cert_make.specs.Text.{nodes_text};
ghost use Rattle.cert_make.specs.Trees.{made_nodes};
ghost use Rattle.cert_make.specs.inner.Sides.{node_by, trees_text};

use crate::MakeFault;
use crate::rule::node_for;
use crate::starts::Starts;
use cert_rows::{Gateway, Side, Todo};
use cert_text::{Node, print_node};
use pair_io::{Sink, write_all};
use sel_box::Family;
use spd_line::Lines;
use std::alloc::Global;

/// Writes the nodes of a certificate that two policies agree: that B judges each packet that comes
/// in as A judges it when it goes out (RFC 4301 section 5). They are the lines behind `agree`, a
/// tree over all of IPv4 and then one over all of IPv6, each node before those under it.
///
/// Where a box has no packet the node is `void`. Otherwise there is a first box of A's lines in
/// order, `final` last, that has a point of it, and a first one of B's. Where the box lies in both
/// the node is the leaf of their lines. Else the box is split on the first axis on which it doesn't
/// lie in A's, or where it lies in A's in B's: behind the last number before that one where the box
/// begins before, and else behind its last.
///
/// The call ends, and writes the nodes of that rule, whether or not the policies agree; where they
/// do the certificate is valid. The nodes are handed to `write_all` line by line. Where the call
/// fails, the lines before one, and maybe the first bytes of that one, have been written.
///
/// Gathers the boxes of both policies in n log n time and memory for each box. It finds the first
/// boxes for each node in a tree of all boxes, and not before those of the box that it is a part
/// of. It takes memory for the boxes whose trees are still to come, and calls nothing by recursion.
pub fn make<L: Lines, M: Lines, O: Sink>(
    alloc: Global,
    a: &L,
    b: &M,
    out: &mut O,
) -> Result<(), MakeFault>
    requires a_few { length (L.lines a.now) ≤ most_lines }
    requires b_few { length (M.lines b.now) ≤ most_lines }
    ensures written { OnOk result (Gains (O.told out.old) (O.told out.new)
        (nodes_text (made_nodes (L.lines a.now) (M.lines b.now)))) }
    ensures prefix { OnErr result (GainsPrefix (O.told out.old) (O.told out.new)
        (nodes_text (made_nodes (L.lines a.now) (M.lines b.now)))) }
    ensures causes { IfErr result (MakeCauses (O.faults out.old) (O.faults out.new)) }
    ensures no_fault { OnOk result (O.faults out.new ≡ O.faults out.old) }
{
    let ours = Side::new(alloc, a, Gateway::A)?;
    let theirs = Side::new(alloc, b, Gateway::B)?;
    write_trees(alloc, &ours, &theirs, out)
}

// Writes the trees over all boxes.
#[tactic(auto, using(pair_io::proofs::Gains::gains))]
fn write_trees<O: Sink>(
    alloc: Global,
    ours: &Side,
    theirs: &Side,
    out: &mut O,
) -> Result<(), MakeFault>
    ensures written { OnOk result (Gains (O.told out.old) (O.told out.new)
        (trees_text (node_by ours.now theirs.now) whole_boxes)) }
    ensures prefix { OnErr result (GainsPrefix (O.told out.old) (O.told out.new)
        (trees_text (node_by ours.now theirs.now) whole_boxes)) }
    ensures causes { IfErr result (MakeCauses (O.faults out.old) (O.faults out.new)) }
    ensures no_fault { OnOk result (O.faults out.new ≡ O.faults out.old) }
{
    let mut todo = Todo::new(alloc)?;
    let mut starts = Starts::new(alloc);
    let mut text = Vec::new(alloc);
    while let Some(region) = todo.pop() {
        let mut start = starts.pop();
        let node = node_for(ours, theirs, &region, &mut start);
        write_node(region.family(), &node, &mut text, out)?;
        todo.add_parts(&node, &region)?;
        starts.add_behind(&node, start)?;
    }
    Ok(())
}

// Writes the line of a node, made in a text that is used again.
#[tactic(auto, using(pair_io::proofs::Gains::gains))]
fn write_node<O: Sink>(
    family: Family,
    node: &Node,
    text: &mut Vec<u8>,
    out: &mut O,
) -> Result<(), MakeFault>
    ensures written { OnOk result (Gains (O.told out.old) (O.told out.new)
        (node_text family node.now)) }
    ensures prefix { OnErr result (GainsPrefix (O.told out.old) (O.told out.new)
        (node_text family node.now)) }
    ensures causes { IfErr result (MakeCauses (O.faults out.old) (O.faults out.new)) }
    ensures no_fault { OnOk result (O.faults out.new ≡ O.faults out.old) }
{
    text.clear();
    print_node(family, node, text)?;
    write_all(out, text.as_slice())?;
    Ok(())
}
