ghost use Rattle.std.specs.Prelude.{◌≡◌};
ghost use Rattle.sel_box.specs.declared.any_box.AnyBox.{AnyBox};

use crate::any_box::{AnyBox, Box4, Box6};
use sel_region::Hull;

/// A box whose type has its family.
pub trait OfFamily: Hull {
    ghost region: { Self → AnyBox };

    /// The box with its family.
    fn region(&self) -> AnyBox
        ensures { result ≡ region self.now };
}

impl OfFamily for Box4 {
    ghost region = { AnyBox.Four };

    #[inline]
    fn region(&self) -> AnyBox {
        AnyBox::Four(*self)
    }
}

impl OfFamily for Box6 {
    ghost region = { AnyBox.Six };

    #[inline]
    fn region(&self) -> AnyBox {
        AnyBox::Six(*self)
    }
}
