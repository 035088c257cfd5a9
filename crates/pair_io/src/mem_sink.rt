ghost use Rattle.std.specs.Prelude.{◌≡◌, IfOk, [], Some};

use crate::counts::one_more;
use crate::{Failed, NumberList, Sink};
use lists::NoMemory;
use std::alloc::Global;
use std::marker::Model;

/// A sink in memory, which tells its text. The calls with listed numbers fail.
#[derive(Debug, Drop)]
pub struct MemSink {
    written: Vec<u8>,
    room: usize,
    failing: NumberList,
    calls: u64,
    faults: u64,
}

impl Model for MemSink {
    ghost use Rattle.std.specs.Prelude.{◌≤◌, vec_len, vec_capacity};
    ghost use Rattle.pair_io.specs.MemSink.{HeldText};

    ghost Value = { HeldText };

    ghost view = { λ s. record {
      written = s.written.items;
      room = s.room;
      failing = s.failing;
      calls = s.calls;
      faults = s.faults;
    } };

    ghost invariant = { λ s. (vec_len s.written ≤ s.room) × (s.room ≤ vec_capacity s.written) };
}

impl MemSink {
    ghost use Rattle.pair_io.specs.MemSink.{HeldText};
    ghost use Rattle.pair_io.specs.Counts.{one_more, is_listed};

    /// An empty sink with room for so many bytes, whose memory it takes here. A call of `put` or
    /// `flush` fails where its number, from 1, is in `failing`, and one of `put` also where the
    /// piece is longer than the room left.
    pub fn new(alloc: Global, room: usize, failing: NumberList) -> Result<Self, NoMemory>
        ensures { IfOk result (λ sink. sink ≡ record {
          written = [];
          room = room;
          failing = failing;
          calls = 0;
          faults = 0;
        }) }
    {
        Ok(MemSink {
            written: Vec::with_capacity(alloc, room)?,
            room,
            failing,
            calls: 0,
            faults: 0,
        })
    }

    /// What was written. Takes no memory.
    pub fn as_slice(&self) -> &[u8]
        ensures written { result.now ≡ self.now.written }
        ensures told { ⟦<MemSink as Sink>⟧.told self.now ≡ Some result.now }
    {
        self.written.as_slice()
    }

    // Counts a call, and says whether it is one that is to fail.
    fn begin_call(&mut self) -> bool
        ensures listed { result ≡ is_listed (one_more self.old.calls) self.old.failing }
        ensures counted { self.new ≡ record self.old { calls = one_more self.old.calls } }
    {
        self.calls = one_more(self.calls);
        self.failing.as_slice().contains(&self.calls)
    }

    // Counts a fault.
    fn fail(&mut self) -> Failed
        ensures { self.new ≡ record self.old { faults = one_more self.old.faults } }
    {
        self.faults = one_more(self.faults);
        Failed
    }
}

impl Sink for MemSink {
    ghost use Rattle.std.specs.Prelude.{◌+◌, ◌++◌, ◌||◌, nat_lt, length, is_err, OnOk, OnErr};
    ghost use Rattle.pair_io.specs.Counts.{one_more, is_listed};

    ghost told = { λ s. Some s.written };

    ghost faults = { λ s. s.faults };

    /// Takes the whole piece and no memory, or fails, where the call is listed or the piece is
    /// longer than the room left.
    fn put(&mut self, piece: &[u8]) -> Result<usize, Failed>
        ensures fails { is_err result ≡ (is_listed (one_more self.old.calls) self.old.failing
            || nat_lt self.old.room (length self.old.written + length piece.now)) }
        ensures whole { IfOk result (λ n. n ≡ length piece.now) }
        ensures ok { OnOk result (self.new ≡ record self.old {
          written = self.old.written ++ piece.now;
          calls = one_more self.old.calls;
        }) }
        ensures err { OnErr result (self.new ≡ record self.old {
          calls = one_more self.old.calls;
          faults = one_more self.old.faults;
        }) }
    {
        if self.begin_call() || piece.len() > self.room - self.written.len() {
            return Err(self.fail());
        }
        self.written.extend_from_slice(piece).unwrap();
        Ok(piece.len())
    }

    /// Holds nothing back, so there is nothing to hand on. Fails where the call is listed.
    fn flush(&mut self) -> Result<(), Failed>
        ensures fails { is_err result ≡ is_listed (one_more self.old.calls) self.old.failing }
        ensures ok { OnOk result (self.new ≡ record self.old {
          calls = one_more self.old.calls;
        }) }
        ensures err { OnErr result (self.new ≡ record self.old {
          calls = one_more self.old.calls;
          faults = one_more self.old.faults;
        }) }
    {
        if self.begin_call() {
            return Err(self.fail());
        }
        Ok(())
    }
}
