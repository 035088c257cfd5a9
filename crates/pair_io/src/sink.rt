ghost use Rattle.std.specs.Prelude.{◌≡◌, ℕ, ◌<◌, ◌≤◌, List, Option, length, take};
ghost use Rattle.std.specs.Prelude.{OnErr, OnOk, IfOk};
ghost use Rattle.pair_io.specs.Counts.{Rose};
ghost use Rattle.pair_io.specs.Gains.{Gains};

use crate::Failed;

/// Where text goes, piece by piece. What a sink took may wait in it until `flush` or a later call
/// of `put`, so whoever puts a text calls `flush` at its end. A count may end at 2^64 - 1, its last
/// value, and a clause that says that a count rose is met there too.
pub trait Sink {
    /// What was taken, also what still waits in the sink, or `None` where that is not told.
    ghost told: { Self → Option (List ℕ) };

    /// How often a call failed.
    ghost faults: { Self → ℕ };

    /// Takes the first bytes of a piece, as many as it likes but one at least unless the piece is
    /// empty, and says how many. They may wait in the sink until `flush` or a later `put`. Where it
    /// fails, nothing of the piece was taken; the fault may be that of bytes which an earlier call
    /// took.
    fn put(&mut self, piece: &[u8]) -> Result<usize, Failed>
        ensures bound { IfOk result (λ n. n ≤ length piece.now) }
        ensures progress { IfOk result (λ n. 0 < length piece.now → 0 < n) }
        ensures written { IfOk result (λ n.
            Gains (told self.old) (told self.new) (take n piece.now)) }
        ensures unchanged { OnErr result (told self.new ≡ told self.old) }
        ensures cause { OnErr result (Rose (faults self.old) (faults self.new)) }
        ensures no_fault { OnOk result (faults self.new ≡ faults self.old) }
        ensures faults { faults self.old ≤ faults self.new };

    /// Hands on what earlier calls of `put` took and the sink still holds. Where it fails, some of
    /// that was not handed on, and may never be.
    fn flush(&mut self) -> Result<(), Failed>
        ensures told { told self.new ≡ told self.old }
        ensures cause { OnErr result (Rose (faults self.old) (faults self.new)) }
        ensures no_fault { OnOk result (faults self.new ≡ faults self.old) }
        ensures faults { faults self.old ≤ faults self.new };
}
