ghost use Rattle.std.specs.Prelude.{◌≡◌, ◌++◌, List, Bool, Option, IsSome, OnOk, OnErr};
ghost use Rattle.std.specs.Prelude.{length, map, take};
ghost use Rattle.std.specs.Option.{is_some};
ghost use Rattle.sel_region.specs.Region.{IsRegion};

use lists::NoMemory;

/// What stands round a part of a region: it makes a piece of the whole from each piece of the part.
///
/// With it the pieces of a part go into the list of the whole's pieces at once, and no list of the
/// part's own is made.
pub trait Frame<Part>: Copy {
    /// The region that the part is of.
    type Whole: Copy;

    ghost around: { Self → Part → Self.Whole };

    /// The piece of the whole in which this piece of the part stands.
    fn around(&self, part: Part) -> Self::Whole
        ensures { result ≡ around self.now part };
}

/// Round a region that is no part of another stands nothing.
#[derive(Clone, Copy)]
struct NoFrame;

impl<R: Copy> Frame<R> for NoFrame {
    type Whole = R;

    ghost around = { λ _ region. region };

    #[inline]
    fn around(&self, part: R) -> R {
        part
    }
}

/// A set of points, never empty, that is kept by its bounds on each axis.
///
/// Each kind of region proves the laws of `IsRegion` (`specs/Region.antt`), which say by points
/// what the calls answer. Code that is generic over regions needs nothing else. All calls but
/// `minus` and `minus_in` take no memory, and each takes time in proportion to the number of axes.
pub trait Region: Copy {
    /// A point: one number for each axis.
    type Point;

    ghost has: { Self → Self.Point → Bool };

    ghost at_most: { Self.Point → Self.Point → Bool };

    ghost low: { Self → Self.Point };

    ghost meet: { Self → Self → Option Self };

    ghost within: { Self → Self → Bool };

    ghost minus: { Self → Self → List Self };

    /// Whether the point is in the region.
    fn has(&self, point: &Self::Point) -> bool
        ensures { result ≡ has self.now point.now };

    /// Whether some point is in both.
    fn meets(&self, other: &Self) -> bool
        ensures { result ≡ is_some (meet self.now other.now) };

    /// The region of the points that are in both; `None` exactly where there are none.
    fn meet(&self, other: &Self) -> Option<Self>
        ensures { result ≡ meet self.now other.now };

    /// Whether each point of the region is in the other too.
    fn within(&self, other: &Self) -> bool
        ensures { result ≡ within self.now other.now };

    /// The point of the region that is least on each axis.
    fn low(&self) -> Self::Point
        ensures { result ≡ low self.now };

    /// Appends the pieces of `minus`, each put into the frame, for a region that meets the other.
    /// Where there is no memory, what stood in the list still stands first, and some of the pieces
    /// may stand after it.
    ///
    /// This is for kinds of regions that are made of others; `minus` is for everyone else.
    fn minus_in<F: Frame<Self>>(
        &self,
        other: &Self,
        frame: F,
        pieces: &mut Vec<F::Whole>,
    ) -> Result<(), NoMemory>
        requires { IsSome (meet self.now other.now) }
        ensures ok { OnOk result
            (pieces.new.items
            ≡ pieces.old.items ++ map (F.around frame) (minus self.now other.now)) }
        ensures err { OnErr result
            (take (length pieces.old.items) pieces.new.items ≡ pieces.old.items) };

    /// Appends what is left of the region without the other: regions that have no point in common
    /// and together have the points that the other hasn't. They come axis by axis, and on an axis
    /// the piece below the other comes before the piece above it. Such a piece has the intervals of
    /// the meet on the axes before, and the region's own on the axes after. A region that doesn't
    /// meet the other is appended as it is.
    ///
    /// At most two pieces are appended for each axis, and nothing else takes memory. Where there is
    /// none, the list is unchanged.
    final fn minus(&self, other: &Self, pieces: &mut Vec<Self>) -> Result<(), NoMemory>
        ensures ok { OnOk result
            (pieces.new.items ≡ pieces.old.items ++ minus self.now other.now) }
        ensures err { OnErr result (pieces.new.items ≡ pieces.old.items) }
    {
        if !self.meets(other) {
            pieces.push(*self)?;
            return Ok(());
        }
        let before = pieces.len();
        let outcome = self.minus_in(other, NoFrame, pieces);
        if outcome.is_err() {
            pieces.truncate(before);
        }
        outcome
    }

    // What the calls say of points.
    ghost laws: { IsRegion has at_most low meet within minus };
}
