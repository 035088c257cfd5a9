//! What the definitions of certificates come to, each law the contract of a function that does
//! nothing.
ghost use Rattle.std.specs.Prelude.{◌≡◌, ◌&&◌, ◌++◌, ◌∷◌, List, Some, ℕ};
ghost use Rattle.cert_text.specs.declared.node.Node.{Node};
ghost use Rattle.cert_text.specs.Grammar.{node_of};
ghost use Rattle.cert_text.specs.NodeText.{IsWritable, node_text};
ghost use Rattle.cert_text.specs.Rows.{Row};
ghost use Rattle.cert_text.specs.Tree.{Tree, keeps, preorder};
ghost use Rattle.cert_text.specs.Valid.{holds, valid, whole_boxes};
ghost use Rattle.sel_box.specs.Bounds.{whole_box};
ghost use Rattle.sel_text.specs.Lines.{lines_of};
ghost use Rattle.sel_text.specs.declared.family.Family.{Family};
ghost use Rattle.sel_text.specs.declared.family.Family.TheVariants.{Four, Six};

/// A printed node whose numbers a line may have is read as that node.
pub fn nodes_read_back()
    ensures { (family : Family) (node : Node) → IsWritable family node
        → node_of family (node_text family node) ≡ Some node }
{}

/// What is printed of a node whose numbers a line may have is one line: the first of any text that
/// begins with it.
pub fn a_node_is_one_line()
    ensures { (family : Family) (node : Node) (rest : List ℕ) → IsWritable family node
        → lines_of (node_text family node ++ rest) ≡ node_text family node ∷ lines_of rest }
{}

/// The nodes of two trees, one after another, are valid over all of IPv4 and all of IPv6 exactly
/// where the first tree is over IPv4 and the second over IPv6.
pub fn lists_are_trees()
    ensures { (a b : List Row) (four six : Tree)
        → valid (holds a b) (preorder four ++ preorder six) whole_boxes
        ≡ (keeps a b four (whole_box Four) && keeps a b six (whole_box Six)) }
{}
