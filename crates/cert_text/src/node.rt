use sel_box::AxisName;

/// A node of a certificate's tree over a box, which says why two policies judge the packets of the
/// box alike. The box is as the gateway sees it from which the packets go out.
#[derive(Clone, Copy, Debug, PartialEq, Eq)]
pub enum Node {
    /// The box is cut on an axis: a tree over the part up to the value comes next, and then one
    /// over the rest.
    Split { axis: AxisName, value: u128 },
    /// One line of each policy decides the whole box, and both judge it alike. Lines are counted
    /// from 1, and the count plus 1 is `final`.
    Leaf { a: u32, b: u32 },
    /// No packet lies in the box.
    Void,
}
