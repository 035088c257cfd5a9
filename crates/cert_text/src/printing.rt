ghost use Rattle.std.specs.Prelude.{◌≡◌, ◌++◌, OnErr, OnOk};
ghost use Rattle.cert_text.specs.NodeText.{axis_text, node_text, node_words, value_text};

use crate::Node;
use lists::NoMemory;
use sel_box::{AxisName, Family};
use sel_text::{Address, print_address, print_number};
use spd_text::Printed;

/// Appends the line of a node in a tree of the family, with its LF. A number past the family's last
/// address is written as that address. Takes memory only where the text has to grow; where there is
/// none, the text is unchanged.
pub fn print_node(family: Family, node: &Node, text: &mut Vec<u8>) -> Result<(), NoMemory>
    ensures ok { OnOk result (text.new.items ≡ text.old.items ++ node_text family node.now) }
    ensures err { OnErr result (text.new.items ≡ text.old.items) }
{
    let words = NodeWords { family, node };
    NodeLine { words }.print(text)
}

// A node in a tree of a family, printed as its line.
#[derive(Clone, Copy)]
struct NodeLine<'a> {
    words: NodeWords<'a>,
}

impl Printed for NodeLine<'_> {
    ghost printed = { λ line. node_text line.words.family line.words.node.now };

    fn append(&self, text: &mut Vec<u8>) -> Result<(), NoMemory> {
        self.words.print(text)?;
        text.extend_from_slice(b"\n")?;
        Ok(())
    }
}

// The same, printed as the words of its line.
#[derive(Clone, Copy)]
struct NodeWords<'a> {
    family: Family,
    node: &'a Node,
}

impl Printed for NodeWords<'_> {
    ghost printed = { λ words. node_words words.family words.node.now };

    fn append(&self, text: &mut Vec<u8>) -> Result<(), NoMemory> {
        match self.node {
            Node::Split { axis, value } => {
                text.extend_from_slice(b"split ")?;
                text.extend_from_slice(axis_word(*axis).as_bytes())?;
                text.extend_from_slice(b" ")?;
                print_value(self.family, *axis, *value, text)?;
            }
            Node::Leaf { a, b } => {
                text.extend_from_slice(b"leaf ")?;
                print_number(u128::from(*a), text)?;
                text.extend_from_slice(b" ")?;
                print_number(u128::from(*b), text)?;
            }
            Node::Void => text.extend_from_slice(b"void")?,
        }
        Ok(())
    }
}

// The word of an axis.
fn axis_word(axis: AxisName) -> &'static str
    ensures { result.now ≡ axis_text axis }
{
    match axis {
        AxisName::Local => "src",
        AxisName::Remote => "dst",
        AxisName::Protocol => "proto",
        AxisName::LocalField => "sport",
        AxisName::RemoteField => "dport",
    }
}

// Appends a number on an axis: an address of the family, or the number itself.
fn print_value(
    family: Family,
    axis: AxisName,
    value: u128,
    text: &mut Vec<u8>,
) -> Result<(), NoMemory>
    ensures ok { OnOk result (text.new.items ≡ text.old.items ++ value_text family axis value) }
    ensures err { OnErr result (text.new.items ≡ text.old.items) }
{
    match axis {
        AxisName::Local | AxisName::Remote => {
            let address = Address::of(family, value.min(family.last_address()));
            print_address(&address, text)
        }
        _ => print_number(value, text),
    }
}
