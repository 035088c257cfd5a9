ghost use Rattle.std.specs.Prelude.{◌≡◌, ℕ, ◌+◌, ◌^◌, ◌<◌, ◌≤◌, List, Option, length};
ghost use Rattle.std.specs.Prelude.{OnErr, IfOk, IfSome};
ghost use Rattle.pair_io.specs.Counts.{Rose, NoneFell};
ghost use Rattle.pair_io.specs.Reading.{Gives, TookBy, EndedBy, RanDryBy};

use crate::Failed;

/// Files by their names, read piece by piece. A count may end at 2^64 - 1, its last value, and a
/// clause that says that a count rose is met there too.
pub trait Files {
    /// The bytes that a name holds, by the bytes of the name, or `None` where that is not told.
    ghost told: { Self → List ℕ → Option (List ℕ) };

    /// How often a read of a name failed.
    ghost faults: { Self → List ℕ → ℕ };

    /// How many bytes were handed out.
    ghost taken: { Self → ℕ };

    /// The place just behind the last bytes that were handed out.
    ghost end: { Self → ℕ };

    /// How many reads had room and gave nothing. It counts no fault.
    ghost dry: { Self → ℕ };

    /// Reads the bytes of a name from a place on, as many as it likes up to the slice's length,
    /// into the start of the slice. `Ok` says how many; it is 0 only at or past the end, or for an
    /// empty slice. A name that is missing is a fault of that name. What the files hold never
    /// changes.
    fn read(&mut self, name: &str, at: u64, into: &mut [u8]) -> Result<usize, Failed>
        requires { at + length into.old < 2 ^ 64 }
        ensures told { told self.new ≡ told self.old }
        ensures bound { IfOk result (λ n. n ≤ length into.old) }
        ensures content { IfOk result (λ n. IfSome (told self.old name.now) (Gives at n into.new)) }
        ensures cause { OnErr result (Rose (faults self.old name.now) (faults self.new name.now)) }
        ensures faults { NoneFell (faults self.old) (faults self.new) }
        ensures taken { TookBy result (taken self.old) (taken self.new) }
        ensures end { EndedBy at result (end self.old) (end self.new) }
        ensures dry { RanDryBy (length into.old) result (dry self.old) (dry self.new) };
}
