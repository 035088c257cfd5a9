ghost use Rattle.std.specs.Prelude.{◌≡◌, []};

use sel_box::{Box4, Box6, OfFamily};
use std::alloc::Global;

/// A node of a tree of boxes of one family. The nodes of a tree stand in a list, each before all
/// that are below it, and those below it next to one another.
///
/// Each has a box of the list that the tree is made for, and names it by its index there.
#[derive(Clone, Copy, Debug)]
pub struct Node<R> {
    /// A box that has in it the node's own, and those of all nodes below.
    pub hull: R,
    /// The index of the node's own box.
    pub entry: u32,
    /// The least index of the node's own box and those below.
    pub least: u32,
    /// The greatest of them.
    pub greatest: u32,
    /// The place behind the last node below.
    pub skip: u32,
}

/// A tree for the boxes of each family.
#[derive(Debug, Drop)]
pub struct Trees {
    pub four: Vec<Node<Box4>>,
    pub six: Vec<Node<Box6>>,
    /// So many boxes of the list, the first ones, stand in the trees.
    pub placed: usize,
}

impl<R: OfFamily> Node<R> {
    /// A node with nothing below it.
    pub fn alone(hull: R, entry: u32) -> Self {
        Node {
            hull,
            entry,
            least: entry,
            greatest: entry,
            skip: 0,
        }
    }

    /// Takes the boxes of another node below it.
    pub fn take_below(&mut self, other: &Node<R>) {
        self.hull = self.hull.hull(&other.hull);
        self.least = self.least.min(other.least);
        self.greatest = self.greatest.max(other.greatest);
    }
}

impl Trees {
    /// The trees without a box.
    pub fn none(alloc: Global) -> Self
        ensures four { result.four.items ≡ [] }
        ensures six { result.six.items ≡ [] }
        ensures placed { result.placed ≡ 0 }
    {
        Trees {
            four: Vec::new(alloc),
            six: Vec::new(alloc),
            placed: 0,
        }
    }
}
