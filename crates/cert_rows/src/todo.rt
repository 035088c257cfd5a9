ghost use Rattle.std.specs.Prelude.{◌≡◌, ◌∷◌, ◌++◌, [], IfOk, MatchOption, OnOk};
ghost use Rattle.cert_text.specs.Valid.{parts, whole_boxes};

use crate::NoMemory;
use cert_text::{Node, split};
use sel_box::{AnyBox, Family};
use std::alloc::Global;
use std::marker::Model;

/// The boxes whose trees are still to come, in the order of their trees: of a certificate that is
/// read or written from its first node on, so that nothing recurses. A contract sees the list, the
/// next box first.
#[derive(Drop)]
pub struct Todo {
    // The next one is at the end.
    boxes: Vec<AnyBox>,
}

impl Model for Todo {
    ghost use Rattle.std.specs.Prelude.{List, reverse};
    ghost use Rattle.sel_box.specs.declared.any_box.AnyBox.{AnyBox};

    ghost Value = { List AnyBox };

    ghost view = { λ t. reverse t.boxes.items };
}

impl Todo {
    /// The boxes of a certificate: all of IPv4, and then all of IPv6.
    #[tactic(auto, unfolding(cert_text::specs::Valid::whole_boxes))]
    pub fn new(alloc: Global) -> Result<Todo, NoMemory>
        ensures { IfOk result (λ todo. todo ≡ whole_boxes) }
    {
        let mut boxes = Vec::new(alloc);
        boxes.push(AnyBox::whole(Family::Six))?;
        boxes.push(AnyBox::whole(Family::Four))?;
        Ok(Todo { boxes })
    }

    /// Takes the next box away; `None` exactly where none is left. Takes no memory.
    pub fn pop(&mut self) -> Option<AnyBox>
        ensures { MatchOption result (self.old ≡ []) (λ region. self.old ≡ region ∷ self.new) }
    {
        self.boxes.pop()
    }

    /// Puts the boxes of the trees behind a node first: of a split the two parts of its box, or the
    /// box itself twice where it can't be split there.
    pub fn add_parts(&mut self, node: &Node, region: &AnyBox) -> Result<(), NoMemory>
        ensures { OnOk result (self.new ≡ parts node.now region.now ++ self.old) }
    {
        let Node::Split { axis, value } = node else {
            return Ok(());
        };
        let (low, high) = split(region, *axis, *value).unwrap_or((*region, *region));
        self.boxes.push(high)?;
        self.boxes.push(low)?;
        Ok(())
    }
}
