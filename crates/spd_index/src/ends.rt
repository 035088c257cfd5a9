ghost use Rattle.std.specs.Prelude.{◌≡◌};
ghost use Rattle.spd_index.specs.inner.Ends.{ends_of, items_of};

use sel_box::Family;
use spd_line::{AddressItem, LineParts};

// A side of a line.
#[derive(Clone, Copy, Debug)]
pub enum Side {
    Local,
    Remote,
}

// The address selector of a side.
pub fn items_of(side: Side, parts: &LineParts) -> &[AddressItem]
    ensures { result.now ≡ items_of side parts.now }
{
    match side {
        Side::Local => parts.local.as_slice(),
        Side::Remote => parts.remote.as_slice(),
    }
}

// The first and the last address of a range of the family; `None` of ANY and of another family.
pub fn ends_of(family: Family, item: &AddressItem) -> Option<(u128, u128)>
    ensures { result ≡ ends_of family item.now }
{
    match item {
        AddressItem::Any => None,
        AddressItem::Range { first, last } => {
            if family == first.family() && family == last.family() {
                Some((first.value(), last.value()))
            } else {
                None
            }
        }
    }
}
