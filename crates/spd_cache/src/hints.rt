use crate::{Key, NoMemory};
use sel_box::{Direction, Point};
use sel_text::Family;
use std::alloc::Global;

// How many bits the number of a slot has.
const SLOT_BITS: u32 = 14;

// Under which key each point was answered last, and the points of each pair of networks. Marks may
// share a slot, and a key may be gone or have another group by now, so a hint is a guess that is
// looked at before it is followed: no clause says anything of it.
#[derive(Debug, Drop)]
pub struct Hints {
    slots: Vec<Option<Hint>>,
}

// A key, and the mark of what was answered under it.
#[derive(Clone, Copy, Debug)]
struct Hint {
    mark: u64,
    key: Key,
}

impl Hints {
    // No hint, and room for some where that is wanted.
    pub fn new(alloc: Global, is_wanted: bool) -> Result<Hints, NoMemory> {
        let count = if is_wanted { 1 << SLOT_BITS } else { 0 };
        Ok(Hints {
            slots: vec![in alloc; None; count]?,
        })
    }

    // The key that was noted for the point, and where there is none, for its networks.
    #[inline]
    pub fn of(&self, direction: Direction, point: &Point) -> Option<Key> {
        match self.at(mark_of_point(direction, point)) {
            Some(key) => Some(key),
            None => self.at(mark_of_networks(direction, point)),
        }
    }

    // Notes the key under which the point was answered, for it and for its networks.
    pub fn note(&mut self, direction: Direction, point: &Point, key: &Key) {
        self.put(mark_of_point(direction, point), key);
        self.put(mark_of_networks(direction, point), key);
    }

    #[inline]
    fn at(&self, mark: u64) -> Option<Key> {
        match self.slots.get(slot_of(mark)) {
            Some(Some(hint)) if hint.mark == mark => Some(hint.key),
            _ => None,
        }
    }

    fn put(&mut self, mark: u64, key: &Key) {
        if let Some(slot) = self.slots.get_mut(slot_of(mark)) {
            *slot = Some(Hint { mark, key: *key });
        }
    }
}

// The slot of a mark: its high bits, which are mixed best.
#[inline]
fn slot_of(mark: u64) -> usize {
    usize::try_from(mark >> (64 - SLOT_BITS)).unwrap_or(0)
}

// The mark of a point: all its numbers. Those of IPv4 stand beside one another.
#[inline]
fn mark_of_point(direction: Direction, point: &Point) -> u64 {
    let local = point.local()
        ^ u128::from(point.local_field()) << 32
        ^ u128::from(point.protocol()) << 49;
    let remote = point.remote() ^ u128::from(point.remote_field()) << 32;
    mixed(direction, local, remote)
}

// The mark of the networks of a point's addresses: /24 of IPv4, /64 of IPv6. A bit that no point of
// IPv4 has sets it apart.
#[inline]
fn mark_of_networks(direction: Direction, point: &Point) -> u64 {
    let host_bits = match point.family() {
        Family::Four => 8,
        Family::Six => 64,
    };
    mixed(
        direction,
        point.local() >> host_bits ^ 1 << 62,
        point.remote() >> host_bits,
    )
}

// Numbers of both sides, mixed by a multiplication by 2^128 over the golden ratio.
#[inline]
fn mixed(direction: Direction, local: u128, remote: u128) -> u64 {
    let both = local ^ u128::from(direction == Direction::Inbound) << 63 ^ remote.rotate_left(64);
    let product = both.wrapping_mul(0x9e37_79b9_7f4a_7c15_f39c_c060_5ced_c835);
    u64::try_from(product >> 64).unwrap_or(0)
}
