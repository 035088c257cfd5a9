//! Lines of a Security Policy Database: what a line selects, how it judges, and which is first.
#![tactic(auto)]

pub use action::{Action, Ipsec, Mode};
pub use fault::LineFault;
pub use judgement::{Answer, Carriage, Judgement, Verdict};
pub use line::{Line, LineParts, LineRefused, Pfp, ProtocolItem, Way};
pub use line_boxes::{BoxList, Group, LineBox, boxes, final_boxes};
pub use lines::{LineList, Lines};
pub use lists::NoMemory;
pub use pin::Pins;
pub use pinning::pins;
pub use policy::{FINAL, MOST_LINES};
pub use sel_text::{Address, AddressItem, Name, PortItem};
pub use select::matches;
pub use verdict::{judge, name_of};

/// A list of address items.
pub type AddressList = lists::List<AddressItem>;

/// A list of port items.
pub type PortList = lists::List<PortItem>;

mod action;
mod families;
mod fault;
mod judgement;
pub mod laws;
mod line;
mod line_boxes;
mod lines;
mod pin;
mod pinning;
mod policy;
mod ports;
mod product_list;
mod ranges;
mod select;
mod verdict;
mod width;
