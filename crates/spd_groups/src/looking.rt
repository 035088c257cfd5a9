ghost use Rattle.std.specs.Prelude.{◌≡◌, ◌≤◌, ◌==◌, Contains, IfOk, IsTrue, length, map, true};
ghost use Rattle.std.specs.List.{filter, list_any};
ghost use Rattle.std.specs.List.Sorted.{IsNonDecreasingBy};
ghost use Rattle.sel_box.specs.Point.{IsReal};
ghost use Rattle.spd_line.specs.First.{first_place, line_at};
ghost use Rattle.spd_line.specs.Policy.{IsPolicy, most_lines};
ghost use Rattle.spd_cache.specs.KeyOf.{key_of, pins_at};
ghost use Rattle.spd_cut.specs.Entries.{entries, entry_has};
ghost use Rattle.spd_groups.specs.Groups.{looked};

use lists::NoMemory;
use sel_box::{Direction, Point};
use spd_cache::Key;
use spd_cut::Entry;
use spd_find::{Finder, find_uncounted};
use spd_line::{Answer, Group, Lines, Pins};
use std::alloc::Global;

/// What a policy says of a point, and what a cache may keep of it.
#[derive(Debug, Drop)]
pub struct Looked {
    pub answer: Answer,
    /// The key of the point.
    pub key: Key,
    /// The group of that key.
    pub group: Group,
}

/// What a policy says of a real point in a direction: the name and the judgement of its first line,
/// found among the policy's entries, with the point's key and the group of that key (RFC 4301
/// sections 4.4.2 and 5.1).
///
/// The entries are those of the policy in the direction, and the finder's boxes are theirs, in
/// their order. Takes the time of the finder and of the group's own entries, and memory for the
/// group.
pub fn look<L: Lines, F: Finder>(
    alloc: Global,
    lines: &L,
    list: &[Entry],
    finder: &F,
    direction: Direction,
    point: &Point,
) -> Result<Looked, NoMemory>
    requires policy { IsPolicy (L.lines lines.now) }
    requires entries { list.now ≡ entries direction (L.lines lines.now) }
    requires boxes { F.boxes finder.now ≡ map (λ entry. entry.region) list.now }
    requires real { IsReal point.now }
    ensures { IfOk result (λ found. found ≡ looked direction point.now (L.lines lines.now)) }
{
    spd_cut::laws::entries_stand_for();
    spd_cut::laws::entries_come_in_the_order_of_lines();
    spd_cache::laws::names_tell_their_lines();
    spd_line::laws::the_first_line_is_the_least();
    let entry = entry_of(list, finder, point);
    let key = key_at(lines, entry.link, direction, point);
    let own = linked_to(list, entry.link);
    let group = spd_cut::group(alloc, own, entry.link, &key.pins)?;
    let answer = Answer {
        name: key.name,
        judgement: entry.judgement,
    };
    Ok(Looked { answer, key, group })
}

// An entry that has the point, where some entry has it.
fn entry_of<'a, F: Finder>(list: &'a [Entry], finder: &F, point: &Point) -> &'a Entry
    requires boxes { F.boxes finder.now ≡ map (λ entry. entry.region) list.now }
    requires some { list_any (λ entry. entry_has entry point.now) list.now ≡ true }
    ensures has { IsTrue (entry_has result.now point.now) }
    ensures among { Contains list.now result.now }
{
    spd_find::laws::the_box_that_has_the_point_is_found();
    match find_uncounted(finder, point) {
        Some(index) => &list[index],
        None => unreachable!(),
    }
}

// The entries that are linked to a line, among some that come in the order of their lines. They are
// found by halving.
fn linked_to(list: &[Entry], link: u32) -> &[Entry]
    requires { IsNonDecreasingBy (λ entry. entry.link) list.now }
    ensures { result.now ≡ filter (λ entry. entry.link == link) list.now }
{
    let first = list.partition_point(|entry| entry.link < link);
    let rest = &list[first..];
    let count = rest.partition_point(|entry| entry.link <= link);
    &rest[..count]
}

// The key of a point whose first line stands at the place.
fn key_at<L: Lines>(lines: &L, place: u32, direction: Direction, point: &Point) -> Key
    requires few { length (L.lines lines.now) ≤ most_lines }
    requires first { place ≡ first_place direction point.now (L.lines lines.now) }
    ensures { result ≡ key_of direction point.now (L.lines lines.now) }
{
    spd_line::laws::the_first_line_is_the_least();
    Key {
        direction,
        name: spd_line::name_of(lines, place),
        pins: pins_at(lines, place, point),
    }
}

// The values that the flags of the line at a place take from a point; `final` has no flags.
fn pins_at<L: Lines>(lines: &L, place: u32, point: &Point) -> Pins
    ensures { result ≡ pins_at (line_at (L.lines lines.now) place) point.now }
{
    match lines.at(place) {
        Some(line) => spd_line::pins(line, point),
        None => Pins {
            family: None,
            local: None,
            remote: None,
            protocol: None,
            local_field: None,
            remote_field: None,
        },
    }
}
