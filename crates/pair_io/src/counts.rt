ghost use Rattle.std.specs.Prelude.{◌≡◌, ◌+◌, ◌^◌, ◌<◌, ◌≤◌};
ghost use Rattle.pair_io.specs.Counts.{Rose, one_more};
ghost use Rattle.pair_io.specs.Reading.{Took, Ended, RanDry};

// A count after one more, which stays at its last value.
pub fn one_more(count: u64) -> u64
    ensures value { result ≡ one_more count }
    ensures rises { Rose count result }
    ensures grows { count ≤ result }
{
    count.saturating_add(1)
}

// What files have handed out: how many bytes, the place behind the last of them, and how many reads
// had room and gave nothing.
#[derive(Clone, Copy, Debug)]
pub struct Handed {
    pub taken: u64,
    pub end: u64,
    pub dry: u64,
}

impl Handed {
    pub fn new() -> Self
        ensures { result ≡ record { taken = 0; end = 0; dry = 0 } }
    {
        Handed {
            taken: 0,
            end: 0,
            dry: 0,
        }
    }

    // Notes that a read at a place, with this much room, gave so many bytes.
    pub fn note(&mut self, at: u64, room: usize, count: usize)
        requires fits { at + room < 2 ^ 64 }
        requires within { count ≤ room }
        ensures taken { Took count self.old.taken self.new.taken }
        ensures end { Ended at count self.old.end self.new.end }
        ensures dry { RanDry room count self.old.dry self.new.dry }
    {
        if count > 0 {
            self.taken = self.taken.saturating_add(count as u64);
            self.end = at + count as u64;
        } else if room > 0 {
            self.dry = one_more(self.dry);
        }
    }
}
