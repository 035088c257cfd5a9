ghost use Rattle.std.specs.Prelude.{◌≡◌, ◌+◌, ◌≤◌, length, option_map, IfSome};
ghost use Rattle.sel_text.specs.Six.{group_in, double_place, cut_double};
ghost use Rattle.sel_text.specs.inner.Reading.{six_meaning};
ghost use Rattle.sel_text.specs.inner.Reading.{with_group, all_groups, joined_groups};
ghost use Rattle.sel_text.specs.inner.Reading.{counted_groups, counted_side, address_by};
ghost use Rattle.sel_text.specs.Parts.{halves_now};

use crate::fault::TextFault;
use crate::parts::split_once;
use std::marker::Model;

// Some groups of an address as one number, and how many they are. A contract sees the pair.
#[derive(Clone, Copy)]
struct Groups {
    value: u128,
    count: u32,
}

impl Model for Groups {
    ghost use Rattle.std.specs.Prelude.{ℕ, ◌^◌, ◌<◌, ◌≤◌};

    ghost Value = { ℕ × ℕ };

    ghost view = { λ groups. (groups.value, groups.count) };

    ghost invariant = { λ groups. (groups.count ≤ 8) × (groups.value < 65536 ^ groups.count) };

    ghost inverse = { λ pair. record { value = pair.0; count = pair.1 } };
}

impl Groups {
    fn new() -> Self
        ensures { result ≡ (0, 0) }
    {
        Groups { value: 0, count: 0 }
    }

    // The address, if these are all its groups.
    fn all(self) -> Option<u128>
        ensures { result ≡ all_groups self }
    {
        (self.count == 8).then_some(self.value)
    }

    // The address with these groups before `::` and others after it, if that leaves a group to it.
    fn joined(self, after: Groups) -> Option<u128>
        ensures { result ≡ joined_groups self after }
    {
        if self.count + after.count > 7 {
            return None;
        }
        // In two steps, since without a group before `::` it would be a shift by all 128 bits.
        let before = self.value << (16 * (7 - self.count)) << 16;
        Some(before + after.value)
    }

    // These groups and one more, if it is a group and there is room.
    fn with_group(self, text: &[u8]) -> Option<Groups>
        ensures { result ≡ with_group self (group_in text.now) }
    {
        if self.count == 8 {
            return None;
        }
        let group = read_group(text)?;
        Some(Groups {
            value: self.value * 65536 + u128::from(group),
            count: self.count + 1,
        })
    }
}

// Reads an IPv6 address: eight groups of one to four hexadecimal digits with `:` between them, or
// at most seven and one `::` that stands for zero groups (RFC 4291 section 2.2). No text of it is
// `OutOfRange`.
#[tactic(auto, using(crate::proofs::Sides::six_meaning_by_sides))]
pub fn read_six(text: &[u8]) -> Result<u128, TextFault>
    ensures { result ≡ six_meaning text.now }
{
    address_of(text).ok_or(TextFault::NotInGrammar)
}

// The address that a text writes, if it writes one.
fn address_of(text: &[u8]) -> Option<u128>
    ensures { result ≡ address_by text.now (cut_double text.now) }
{
    match split_at_double(text) {
        None => read_groups(text)?.all(),
        Some((before, after)) => read_side(before)?.joined(read_side(after)?),
    }
}

// The groups on one side of `::`, where there may be none.
fn read_side(text: &[u8]) -> Option<Groups>
    ensures { result ≡ counted_side text.now }
{
    if text.is_empty() {
        Some(Groups::new())
    } else {
        read_groups(text)
    }
}

// What stands before the first `::` and after it, if there is one.
fn split_at_double(text: &[u8]) -> Option<(&[u8], &[u8])>
    ensures { option_map halves_now result ≡ cut_double text.now }
{
    let at = place_of_double(text)?;
    Some((&text[..at], &text[at + 2..]))
}

// The index of the first `::`.
fn place_of_double(text: &[u8]) -> Option<usize>
    ensures place { result ≡ double_place text.now }
    ensures within { IfSome result (λ at. at + 2 ≤ length text.now) }
{
    text.iter()
        .zip(text.iter().skip(1))
        .position(|(byte, next)| *byte == b':' && *next == b':')
}

// Groups with `:` between them, at most eight.
fn read_groups(text: &[u8]) -> Option<Groups>
    ensures { result ≡ counted_groups text.now }
{
    let mut groups = Groups::new();
    let mut rest = text;
    while let Some((group, more)) = split_once(rest, b':') {
        groups = groups.with_group(group)?;
        rest = more;
    }
    groups.with_group(rest)
}

// One to four hexadecimal digits.
fn read_group(text: &[u8]) -> Option<u16>
    ensures { result ≡ group_in text.now }
{
    if text.is_empty() || text.len() > 4 {
        return None;
    }
    let mut value = 0u32;
    for byte in text {
        value = value * 16 + char::from(*byte).to_digit(16)?;
    }
    Some(value as u16)
}
