ghost use Rattle.std.specs.Prelude.{◌≡◌, IfNone, IfSome, option_map, true};
ghost use Rattle.spd_cache.specs.Cached.{first_hit, hit};
ghost use Rattle.spd_cache.specs.Key.{same_key};
ghost use Rattle.spd_cache.specs.inner.Under.{LacksUnder, hit_under};

use crate::Key;
use crate::hulled::HulledGroup;
use lru::LruCache;
use sel_box::{Direction, Point};
use spd_line::Answer;

// The answer of the first group of the direction that has the point, and the key of that group. One
// of which that is known to have no answer may be passed over.
pub fn first_hit(
    groups: &LruCache<Key, HulledGroup>,
    passed: Option<Key>,
    direction: Direction,
    point: &Point,
) -> Option<(Key, Answer)>
    requires { IfSome passed (LacksUnder direction point.now groups.now.entries) }
    ensures { result ≡ first_hit direction point.now groups.now.entries }
{
    for (key, group) in groups {
        if let Some(answer) = answer_but(&passed, key, group, direction, point) {
            return Some((*key, answer));
        }
    }
    None
}

// The answer of a group, without a look at the one that is passed over.
#[inline]
fn answer_but(
    passed: &Option<Key>,
    key: &Key,
    group: &HulledGroup,
    direction: Direction,
    point: &Point,
) -> Option<Answer>
    requires { IfSome passed.now (λ passed. same_key passed key.now ≡ true
        → hit direction point.now (key.now, group.now) ≡ None) }
    ensures { option_map (λ answer. (key.now, answer)) result
        ≡ hit direction point.now (key.now, group.now) }
{
    match passed {
        Some(passed) if passed == key => None,
        _ => answer_of(key, group, direction, point),
    }
}

// The answer of the group under a key. Where it has none, no group under that key has one.
pub fn answer_under(
    groups: &LruCache<Key, HulledGroup>,
    key: &Key,
    direction: Direction,
    point: &Point,
) -> Option<Answer>
    ensures answer { option_map (λ answer. (key.now, answer)) result
        ≡ hit_under direction point.now key.now groups.now.entries }
    ensures lacks { IfNone result (LacksUnder direction point.now groups.now.entries key.now) }
{
    let _ = groups.len();
    match groups.peek(key) {
        Some(group) => answer_of(key, group, direction, point),
        None => None,
    }
}

// The answer of a group, where it is one of the direction and has the point.
#[inline]
fn answer_of(key: &Key, group: &HulledGroup, direction: Direction, point: &Point) -> Option<Answer>
    ensures { option_map (λ answer. (key.now, answer)) result
        ≡ hit direction point.now (key.now, group.now) }
{
    if key.direction != direction {
        return None;
    }
    let found = group.first_box(point)?;
    Some(Answer {
        name: key.name,
        judgement: found.judgement,
    })
}
