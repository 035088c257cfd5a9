ghost use Rattle.std.specs.Prelude.{◌≡◌};
ghost use Rattle.sel_text.specs.Family.{last_address};

/// The two versions of IP.
#[derive(Clone, Copy, Debug, PartialEq, Eq, PartialOrd, Ord, Hash)]
pub enum Family {
    Four,
    Six,
}

impl Family {
    /// The last address of the family, as a number.
    #[inline]
    pub fn last_address(self) -> u128
        ensures { result ≡ last_address self }
    {
        match self {
            Family::Four => u128::from(u32::MAX),
            Family::Six => u128::MAX,
        }
    }
}
