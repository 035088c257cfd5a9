use std::fmt::Debug;
use std::hash::Hash;

/// The numbers from 0 to a greatest one: the values that one selector takes.
///
/// Each axis is a type of its own, which keeps a number in no more bytes than the axis needs and
/// tells the intervals of one selector from those of another. Numbers whose values are compared are
/// compared in those bytes.
pub trait Axis: Copy + Debug + Eq + Hash {
    ghost use Rattle.std.specs.Prelude.{◌≡◌, ◌≤◌, ℕ};

    ghost LAST: { ℕ };

    ghost value: { Self → ℕ };

    ghost from_value: { ℕ → Self };

    // A number is known by its value.
    ghost number_is: { (n : Self) → from_value (value n) ≡ n };

    /// The greatest number on the axis.
    const LAST: u128;

    /// The value of a number.
    fn value(self) -> u128
        ensures { result ≡ value self };

    /// The number of a value up to the greatest.
    fn from_value(number: u128) -> Self
        requires { number ≤ LAST }
        ensures { result ≡ from_value number };

    // The number of a value has it.
    ghost value_is: { (v : ℕ) → value (from_value v) ≡ v };
}

/// IPv4 addresses.
#[derive(Clone, Copy, Debug, PartialEq, Eq, Hash)]
pub struct V4(u32);

impl Axis for V4 {
    ghost use Rattle.std.specs.Prelude.{refl};

    ghost LAST = { 4294967295 };

    ghost value = { λ n. n.0 };

    ghost from_value = { λ v. record { 0 = v } };

    ghost number_is = { λ n. refl };

    const LAST: u128 = 4294967295;

    #[inline]
    fn value(self) -> u128 {
        u128::from(self.0)
    }

    #[inline]
    fn from_value(number: u128) -> Self {
        V4(number as u32)
    }

    ghost value_is = { λ v. refl };
}

/// IPv6 addresses.
#[derive(Clone, Copy, Debug, PartialEq, Eq, Hash)]
pub struct V6(u128);

impl Axis for V6 {
    ghost use Rattle.std.specs.Prelude.{refl};

    ghost LAST = { 340282366920938463463374607431768211455 };

    ghost value = { λ n. n.0 };

    ghost from_value = { λ v. record { 0 = v } };

    ghost number_is = { λ n. refl };

    const LAST: u128 = u128::MAX;

    #[inline]
    fn value(self) -> u128 {
        self.0
    }

    #[inline]
    fn from_value(number: u128) -> Self {
        V6(number)
    }

    ghost value_is = { λ v. refl };
}

/// Protocols: 0 to 255, and 256 for OPAQUE, where the protocol isn't available (RFC 4301 section
/// 4.4.1.1).
#[derive(Clone, Copy, Debug, PartialEq, Eq, Hash)]
pub struct Proto(u16);

impl Axis for Proto {
    ghost use Rattle.std.specs.Prelude.{refl};

    ghost LAST = { 256 };

    ghost value = { λ n. n.0 };

    ghost from_value = { λ v. record { 0 = v } };

    ghost number_is = { λ n. refl };

    const LAST: u128 = 256;

    #[inline]
    fn value(self) -> u128 {
        u128::from(self.0)
    }

    #[inline]
    fn from_value(number: u128) -> Self {
        Proto(number as u16)
    }

    ghost value_is = { λ v. refl };
}

/// Ports, ICMP types with codes, and Mobility Header types: 0 to 65535, and 65536 for OPAQUE, where
/// the field isn't available (RFC 4301 section 4.4.1.1).
#[derive(Clone, Copy, Debug, PartialEq, Eq, Hash)]
pub struct Field(u32);

impl Axis for Field {
    ghost use Rattle.std.specs.Prelude.{refl};

    ghost LAST = { 65536 };

    ghost value = { λ n. n.0 };

    ghost from_value = { λ v. record { 0 = v } };

    ghost number_is = { λ n. refl };

    const LAST: u128 = 65536;

    #[inline]
    fn value(self) -> u128 {
        u128::from(self.0)
    }

    #[inline]
    fn from_value(number: u128) -> Self {
        Field(number as u32)
    }

    ghost value_is = { λ v. refl };
}
