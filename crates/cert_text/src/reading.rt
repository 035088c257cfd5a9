ghost use Rattle.std.specs.Prelude.{◌≡◌, ◌≤◌, IfSome, option_map};
ghost use Rattle.cert_text.specs.Grammar as grammar;

use crate::Node;
use sel_box::{AxisName, Family};
use sel_text::{read_address, read_number, split_once};

// The place of `final` behind the most lines that a policy may have.
const LAST_PLACE: u32 = 4_097;

// The greatest number of a protocol, and of a field.
const LAST_PROTOCOL: u128 = 255;

const LAST_FIELD: u128 = 65_535;

/// The node that a line of a certificate writes, with its LF, in a tree of the family; `None`
/// exactly where the line isn't in the grammar: `split AXIS VALUE`, `leaf I J` or `void`, with
/// single spaces between the words and one LF behind the last.
///
/// AXIS is `src`, `dst`, `proto`, `sport` or `dport`. VALUE is an address of the family, spelled as
/// it is printed (RFC 4291 section 2.2 for IPv6), a protocol up to 255, or a port up to 65535. I
/// and J are numbers from 1 to 4,097. Takes no memory, and time in proportion to the line.
pub fn read_node(family: Family, line: &[u8]) -> Option<Node>
    ensures { result ≡ grammar.node_of family line.now }
{
    read_text(family, text_of(line)?)
}

// What a line has before its LF, where that ends it.
fn text_of(line: &[u8]) -> Option<&[u8]>
    ensures { option_map (λ text. text.now) result ≡ grammar.text_of line.now }
{
    let (text, rest) = split_once(line, b'\n')?;
    if rest.is_empty() { Some(text) } else { None }
}

// The node of a line without its LF.
fn read_text(family: Family, text: &[u8]) -> Option<Node>
    ensures { result ≡ grammar.node_in family text.now }
{
    if text == b"void".as_slice() {
        return Some(Node::Void);
    }
    let (kind, rest) = split_once(text, b' ')?;
    let (first, second) = split_once(rest, b' ')?;
    if kind == b"split".as_slice() {
        read_split(family, first, second)
    } else if kind == b"leaf".as_slice() {
        read_leaf(first, second)
    } else {
        None
    }
}

// The words behind `split`.
fn read_split(family: Family, axis: &[u8], value: &[u8]) -> Option<Node>
    ensures { result ≡ grammar.split_of family axis.now value.now }
{
    let axis = read_axis(axis)?;
    let value = read_value(family, axis, value)?;
    Some(Node::Split { axis, value })
}

// The words behind `leaf`.
fn read_leaf(a: &[u8], b: &[u8]) -> Option<Node>
    ensures { result ≡ grammar.leaf_of a.now b.now }
{
    let a = read_place(a)?;
    let b = read_place(b)?;
    Some(Node::Leaf { a, b })
}

// The axis of a word.
fn read_axis(word: &[u8]) -> Option<AxisName>
    ensures { result ≡ grammar.axis_of word.now }
{
    if word == b"src".as_slice() {
        Some(AxisName::Local)
    } else if word == b"dst".as_slice() {
        Some(AxisName::Remote)
    } else if word == b"proto".as_slice() {
        Some(AxisName::Protocol)
    } else if word == b"sport".as_slice() {
        Some(AxisName::LocalField)
    } else if word == b"dport".as_slice() {
        Some(AxisName::RemoteField)
    } else {
        None
    }
}

// The number that a word writes on an axis.
fn read_value(family: Family, axis: AxisName, word: &[u8]) -> Option<u128>
    ensures { result ≡ grammar.value_of family axis word.now }
{
    match axis {
        AxisName::Local | AxisName::Remote => read_printed(family, word),
        AxisName::Protocol => read_number(word, LAST_PROTOCOL).ok(),
        AxisName::LocalField | AxisName::RemoteField => read_number(word, LAST_FIELD).ok(),
    }
}

// The number of an address of the family, where the word is what is printed of it.
fn read_printed(family: Family, word: &[u8]) -> Option<u128>
    ensures { result ≡ grammar.address_of family word.now }
{
    let address = read_address(word).ok()?;
    if address.family() == family && address.text().as_bytes() == word {
        Some(address.value())
    } else {
        None
    }
}

// The place of a line.
fn read_place(word: &[u8]) -> Option<u32>
    ensures { result ≡ grammar.place_of word.now }
{
    match read_number(word, u128::from(LAST_PLACE)).ok()? {
        0 => None,
        place => Some(place as u32),
    }
}
