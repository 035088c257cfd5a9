//! Packets, the points that a policy sees of them, boxes of such points, and the classes of
//! protocols.
#![tactic(auto)]

pub use any_box::{AnyBox, AxisName, Box4, Box6, Ranges};
pub use class::{ClassRow, Classes, OPAQUE_FIELD, OPAQUE_PROTOCOL, Shape};
pub use class_table::classes;
pub use form::{FieldForm, form_of};
pub use least::least_packet;
pub use lists::NoMemory;
pub use of_family::OfFamily;
pub use packet::{Direction, Packet};
pub use point::{Point, view};
pub use real::{has_real, is_real};
pub use sel_region::Region;
pub use sel_text::Family;
pub use swapped::swap;

mod any_box;
mod box_region;
mod class;
mod class_table;
mod form;
pub mod laws;
mod least;
mod of_family;
mod packet;
mod point;
mod real;
mod shown;
mod swapped;
#[cfg(test)]
mod tests;

/// Boxes in an order.
pub type RegionList = lists::List<AnyBox>;
