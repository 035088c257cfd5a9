ghost use Rattle.std.specs.Prelude.{◌≡◌, ◌≤◌, length, IfOk};

use crate::counts::{Handed, one_more};
use crate::opened_files::OpenedFiles;
use crate::{Failed, Files};
use std::alloc::Global;
use std::marker::Model;
use std::rt;

/// The files of the machine, by their paths. They tell no content, and one count of faults serves
/// all names.
///
/// A name stands for one file for as long as this value is there: its first read opens the file,
/// and all others read that one, be the name given to another file meanwhile. A file that is opened
/// already isn't opened anew under a second name. Where a read came to the end of a file, nothing
/// past that end is given later. What is written into an open file in place is seen or not, as the
/// machine has it.
///
/// What can't be sought in, as a pipe, is read in order, and waits for its writer. What was read of
/// it is kept, up to 67,108,864 bytes or until there is no memory for it, so that a second name of
/// it, or the same one again, has the same bytes. A place that was passed and isn't kept is a
/// fault.
#[derive(Drop)]
pub struct RealFiles<R: rt::Files> {
    system: R,
    opened: OpenedFiles<R::File>,
    faults: u64,
    handed: Handed,
}

impl<R: rt::Files> Model for RealFiles<R> {
    ghost use Rattle.pair_io.specs.Real.{RealCounts};

    ghost Value = { RealCounts };

    ghost view = { λ f. record {
      faults = f.faults;
      taken = f.handed.taken;
      end = f.handed.end;
      dry = f.handed.dry;
    } };
}

impl<R: rt::Files> RealFiles<R> {
    ghost use Rattle.pair_io.specs.Real.{RealCounts};

    /// The files that a runtime opens; all counts are 0. Opens nothing and takes no memory.
    pub fn new(alloc: Global, system: R) -> Self
        ensures { result ≡ record { faults = 0; taken = 0; end = 0; dry = 0 } }
    {
        RealFiles {
            system,
            opened: OpenedFiles::new(alloc),
            faults: 0,
            handed: Handed::new(),
        }
    }
}

impl<R: rt::Files> Files for RealFiles<R> {
    ghost use Rattle.std.specs.Prelude.{◌+◌, ◌^◌, ◌<◌, None, cond, is_err};
    ghost use Rattle.pair_io.specs.Counts.{one_more};
    ghost use Rattle.pair_io.specs.Reading.{TookBy, EndedBy, RanDryBy};

    ghost told = { λ _ _. None };

    ghost faults = { λ f _. f.faults };

    ghost taken = { λ f. f.taken };

    ghost end = { λ f. f.end };

    ghost dry = { λ f. f.dry };

    /// Opens the name where it wasn't asked for before, which takes memory for it. A lack of that
    /// memory is a fault of the name, as the machine's own is. The count of faults rises at each
    /// `Err`, and then alone.
    fn read(&mut self, name: &str, at: u64, into: &mut [u8]) -> Result<usize, Failed>
        requires { at + length into.old < 2 ^ 64 }
        ensures bound { IfOk result (λ n. n ≤ length into.old) }
        ensures count { self.new.faults
            ≡ cond (is_err result) (one_more self.old.faults) self.old.faults }
        ensures taken { TookBy result self.old.taken self.new.taken }
        ensures end { EndedBy at result self.old.end self.new.end }
        ensures dry { RanDryBy (length into.old) result self.old.dry self.new.dry }
    {
        match self.opened.read(&self.system, name, at, into) {
            Ok(count) => {
                self.handed.note(at, into.len(), count);
                Ok(count)
            }
            Err(_) => {
                self.faults = one_more(self.faults);
                Err(Failed)
            }
        }
    }
}
