ghost use Rattle.std.specs.Prelude.{◌≡◌, ◌++◌, [], OnOk};
ghost use Rattle.cert_make.specs.inner.Starts.{first_start, starts_behind, without_first};

use crate::NoMemory;
use cert_text::Node;
use std::alloc::Global;
use std::marker::Model;

// Where the searches in a box begin: no box of A before the one index, and none of B before the
// other, has a point of it.
#[derive(Clone, Copy)]
pub struct Start {
    pub ours: usize,
    pub theirs: usize,
}

// Where the searches begin in each box whose tree is still to come. A contract sees the list, the
// next box first; in the boxes behind its end they begin with the first boxes.
//
// A part of a box meets no box that the box itself doesn't, so the searches in it go on where those
// in the box ended.
#[derive(Drop)]
pub struct Starts {
    // The next one is at the end.
    items: Vec<Start>,
}

impl Model for Starts {
    ghost use Rattle.std.specs.Prelude.{List, reverse};
    ghost use Rattle.cert_make.specs.declared.starts.Start.{Start};

    ghost Value = { List Start };

    ghost view = { λ s. reverse s.items.items };
}

impl Starts {
    // Those of boxes of which nothing is known. Takes no memory.
    pub fn new(alloc: Global) -> Starts
        ensures { result ≡ [] }
    {
        Starts {
            items: Vec::new(alloc),
        }
    }

    // Takes that of the next box away. Takes no memory.
    pub fn pop(&mut self) -> Start
        ensures first { result ≡ first_start self.old }
        ensures rest { self.new ≡ without_first self.old }
    {
        match self.items.pop() {
            Some(start) => start,
            None => Start { ours: 0, theirs: 0 },
        }
    }

    // Puts those of the boxes behind a node first.
    pub fn add_behind(&mut self, node: &Node, start: Start) -> Result<(), NoMemory>
        ensures { OnOk result (self.new ≡ starts_behind node.now start ++ self.old) }
    {
        if let Node::Split { .. } = node {
            self.items.push(start)?;
            self.items.push(start)?;
        }
        Ok(())
    }
}
