use sel_box::AnyBox;

// A box of a policy, and the place of its line, counted from 1.
#[derive(Clone, Copy)]
pub struct PlacedBox {
    pub region: AnyBox,
    pub line: u32,
}
