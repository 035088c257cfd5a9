ghost use Rattle.std.specs.Prelude.{◌≡◌, ◌+◌, ◌*◌, ◌≤◌, ◌<◌, ◌∷◌, [], length};
ghost use Rattle.std.specs.Prelude.{IfSome, IfNone, option_and_then};
ghost use Rattle.spd_line.specs.First.{line_at, verdict_of};
ghost use Rattle.spd_line.specs.Policy.{most_lines};
ghost use Rattle.spd_index.specs.inner.Missed.{AreInWord, IsMissed, judged_where_selected};

use sel_box::{Direction, Point};
use spd_line::{Judgement, Line, Lines, Verdict, judge};

// The policy of one line.
#[derive(Drop)]
struct OneLine<'a> {
    line: &'a Line,
}

impl Lines for OneLine<'_> {
    ghost lines = { λ one. one.line.now ∷ [] };

    fn count(&self) -> u32 {
        1
    }

    fn at(&self, place: u32) -> Option<&Line> {
        (place == 1).then_some(self.line)
    }
}

// The judgement of the point by the line at a place, where there is one that selects it.
#[inline]
fn judged_at<L: Lines>(
    lines: &L,
    place: u32,
    direction: Direction,
    point: &Point,
) -> Option<Judgement>
    ensures { result ≡ option_and_then (judged_where_selected direction point.now)
        (line_at (L.lines lines.now) place) }
{
    let line = lines.at(place)?;
    judged_by(line, direction, point)
}

// The line's judgement of the point, where it selects it.
#[inline]
fn judged_by(line: &Line, direction: Direction, point: &Point) -> Option<Judgement>
    ensures { result ≡ judged_where_selected direction point.now line.now }
{
    let verdict = judge(&OneLine { line }, direction, point);
    (verdict.line == 1).then_some(verdict.judgement)
}

// Tries the 64 lines of a word in order, of which only those with a bit can select the point, and
// none of the lines before them does. Gives the verdict of the first that selects it.
pub fn first_of_word<L: Lines>(
    lines: &L,
    direction: Direction,
    point: &Point,
    word: u32,
    bits: u64,
) -> Option<Verdict>
    requires few { length (L.lines lines.now) ≤ most_lines }
    requires word { word < 64 }
    requires missed { IsMissed direction point.now (L.lines lines.now) (64 * word) }
    requires bits { AreInWord direction point.now (L.lines lines.now) word bits }
    ensures found { IfSome result (λ verdict.
        verdict ≡ verdict_of direction point.now (L.lines lines.now)) }
    ensures none { IfNone result
        (IsMissed direction point.now (L.lines lines.now) (64 * word + 64)) }
{
    let mut left = bits;
    while left != 0 {
        let bit = left.trailing_zeros();
        let place = 64 * word + bit + 1;
        if let Some(judgement) = judged_at(lines, place, direction, point) {
            return Some(Verdict {
                line: place,
                judgement,
            });
        }
        left &= !(1 << bit);
    }
    None
}
