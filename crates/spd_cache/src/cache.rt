ghost use Rattle.std.specs.Prelude.{◌≡◌, ◌≤◌, ◌==◌, [], IfOk, IfErr, IfSome, IsOk, IsSome, OnErr, OnOk};
ghost use Rattle.std.specs.Prelude.{length, option_map};
ghost use Rattle.std.specs.Map.{lookup};
ghost use Rattle.spd_cache.specs.Cached.{IsAnsweredAlike, IsCache, cached, first_hit, fronted, kept};
ghost use Rattle.spd_cache.specs.Key.{same_key};
ghost use Rattle.spd_cache.specs.inner.Under.{LacksUnder};

use crate::hints::Hints;
use crate::hulled::HulledGroup;
use crate::look::{answer_under, first_hit};
use crate::{Key, NoMemory};
use lru::LruCache;
use sel_box::{Direction, Point};
use spd_line::{Answer, Group};
use std::alloc::Global;
use std::marker::Model;
use std::num::NonZeroUsize;

/// The most groups that a cache may hold.
pub const MOST_GROUPS: usize = 4096;

// So many groups are looked at in no more time than a hint takes.
const FEW_GROUPS: usize = 64;

/// A cache of a policy (RFC 4301 section 4.4.2): groups of boxes under keys. A contract sees the
/// list of its keys and groups, the most recently used first, and how many it holds at most.
#[derive(Drop)]
pub struct Cache {
    groups: LruCache<Key, HulledGroup>,
    hints: Hints,
}

impl Model for Cache {
    ghost use Rattle.spd_cache.specs.Cached.{Cached};

    ghost Value = { Cached };

    ghost view = { λ c. record { entries = c.groups.entries; capacity = c.groups.cap } };
}

impl Cache {
    /// The empty cache of so many groups, 1 to 4,096. Where they are more than 64, it takes memory
    /// for 16,384 keys, with which `recall` finds groups.
    pub fn new(alloc: Global, capacity: usize) -> Result<Cache, NoMemory>
        requires some { 1 ≤ capacity }
        requires most { capacity ≤ MOST_GROUPS }
        ensures { IfOk result (λ cache. cache ≡ cached [] capacity) }
    {
        match NonZeroUsize::new(capacity) {
            Some(capacity) => Ok(Cache {
                groups: LruCache::new(alloc, capacity)?,
                hints: Hints::new(alloc, capacity.get() > FEW_GROUPS)?,
            }),
            None => unreachable!(),
        }
    }

    /// The answer of the first group of the direction that has the point: the name in its key, and
    /// the judgement of its first box that has it. That group is then the most recently used.
    /// `None` exactly where no group of the direction has the point, and nothing changes then.
    ///
    /// It looks at each group of the direction once at most, and takes no memory: one test passes
    /// over a group where the point lies in no hull of its boxes.
    pub fn probe(&mut self, direction: Direction, point: &Point) -> Option<Answer>
        ensures answer { result
            ≡ option_map (λ found. found.1) (first_hit direction point.now self.old.entries) }
        ensures front { self.new ≡ cached
            (fronted (first_hit direction point.now self.old.entries) self.old.entries)
            self.old.capacity }
    {
        self.look(None, direction, point)
    }

    /// The same, where all groups that have the point answer it alike, as those of one policy do.
    /// Among more than 64 groups, the one under whose key the point was answered last is asked
    /// before the others, or where that isn't known, the one that answered a point of the same
    /// networks (/24 of IPv4, /64 of IPv6) last.
    ///
    /// It looks at each group of the direction once at most, and takes no memory.
    pub fn recall(&mut self, direction: Direction, point: &Point) -> Option<Answer>
        requires alike { IsAnsweredAlike direction point.now self.now.entries }
        ensures answer { result
            ≡ option_map (λ found. found.1) (first_hit direction point.now self.old.entries) }
        ensures front { self.new ≡ cached
            (fronted (first_hit direction point.now self.old.entries) self.old.entries)
            self.old.capacity }
    {
        let hint = if self.groups.len() > FEW_GROUPS {
            self.hints.of(direction, point)
        } else {
            None
        };
        match hint {
            Some(noted) => match answer_under(&self.groups, &noted, direction, point) {
                Some(answer) => {
                    self.groups.promote(&noted);
                    Some(answer)
                }
                None => self.look(Some(noted), direction, point),
            },
            None => self.look(None, direction, point),
        }
    }

    // The same as `probe`, without a look at the group that is passed over. The key under which the
    // point was answered is noted.
    fn look(&mut self, passed: Option<Key>, direction: Direction, point: &Point) -> Option<Answer>
        requires { IfSome passed (LacksUnder direction point.now self.now.entries) }
        ensures answer { result
            ≡ option_map (λ found. found.1) (first_hit direction point.now self.old.entries) }
        ensures front { self.new ≡ cached
            (fronted (first_hit direction point.now self.old.entries) self.old.entries)
            self.old.capacity }
    {
        let (key, answer) = first_hit(&self.groups, passed, direction, point)?;
        self.groups.promote(&key);
        self.hints.note(direction, point, &key);
        Some(answer)
    }

    /// Puts a group under a key, in place of one that is there. It is the most recently used then,
    /// and where there are more groups than the capacity, the least recently used is dropped.
    ///
    /// It is refused for want of memory alone, and never where the key is there. Key and group come
    /// back then, and nothing has changed.
    #[tactic(auto, using(crate::proofs::Kept::put_kept))]
    pub fn keep(&mut self, key: Key, group: Group) -> Result<(), KeepRefused>
        ensures ok { OnOk result (self.new ≡ cached
            (kept self.old.capacity key group self.old.entries) self.old.capacity) }
        ensures err { OnErr result (self.new ≡ self.old) }
        ensures back { IfErr result (λ refused. refused ≡ record { key = key; group = group }) }
        ensures there { IsSome (lookup (same_key key) self.old.entries) → IsOk result }
    {
        let _ = self.groups.len();
        match self.groups.put(key, HulledGroup::new(group)) {
            Ok(_) => Ok(()),
            Err(failed) => {
                let (key, hulled) = failed.value;
                let group = hulled.into_group();
                Err(KeepRefused { key, group })
            }
        }
    }

    /// How many groups there are: no two of one key, and at most the capacity.
    pub fn len(&self) -> usize
        ensures len { result ≡ length self.now.entries }
        ensures cache { IsCache self.now }
    {
        self.groups.len()
    }

    /// Whether there is no group.
    pub fn is_empty(&self) -> bool
        ensures { result ≡ (length self.now.entries == 0) }
    {
        self.groups.is_empty()
    }

    /// Drops all groups. Takes no memory.
    pub fn flush(&mut self)
        ensures { self.new ≡ cached [] self.old.capacity }
    {
        self.groups.clear();
    }
}

/// A group that wasn't kept, and its key: there was no memory.
#[derive(Debug, Drop)]
pub struct KeepRefused {
    pub key: Key,
    pub group: Group,
}
