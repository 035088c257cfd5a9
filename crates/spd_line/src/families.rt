ghost use Rattle.std.specs.Prelude.{◌≡◌, count_by};
ghost use Rattle.std.specs.List.{list_any};
ghost use Rattle.spd_line.specs.Families.{is_of_family, both_sides_have, shares_family};

use crate::{AddressItem, AddressList, LineParts};
use sel_text::Family;

// Whether some family has both a local and a remote range.
pub fn has_family(parts: &LineParts) -> bool
    ensures { result ≡ shares_family parts.now }
{
    have_family(parts, Family::Four) || have_family(parts, Family::Six)
}

// Whether both sides have a range of the family.
fn have_family(parts: &LineParts, family: Family) -> bool
    ensures { result ≡ both_sides_have parts.now family }
{
    some_of(family, &parts.local) && some_of(family, &parts.remote)
}

fn some_of(family: Family, items: &AddressList) -> bool
    ensures { result ≡ list_any (is_of_family family) items.now }
{
    items.iter().any(|item| is_of_family(family, item))
}

// How many ranges of the family there are, `any` being one.
pub fn count_of(family: Family, items: &AddressList) -> usize
    ensures { result ≡ count_by (is_of_family family) items.now }
{
    items
        .iter()
        .filter(|item| is_of_family(family, *item))
        .count()
}

fn is_of_family(family: Family, item: &AddressItem) -> bool
    ensures { result ≡ is_of_family family item.now }
{
    match item {
        AddressItem::Any => true,
        AddressItem::Range { first, .. } => family == first.family(),
    }
}
