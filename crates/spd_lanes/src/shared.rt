ghost use Rattle.std.specs.Prelude.{◌≡◌, ◌≤◌, [], Ok, Err, IfOk, IfErr, OnErr, OnOk};
ghost use Rattle.spd_lanes.specs.Faults.{IsEditFault, IsLaneFault};
ghost use Rattle.spd_lanes.specs.Machine.{asked, edited, filled, machine, searched, taken};

use crate::steps::{ask, fill, search, take};
use crate::{Compiled, Edit, EditFault, Filled, LaneFault, LaneState, PacketAnswer};
use lists::NoMemory;
use sel_box::{Direction, Packet};
use spd_cache::Cache;
use spd_line::Answer;
use std::marker::Model;

mod stale;

/// The shared machine: a compiled policy, its cache, and sixteen lanes in which lookups go on while
/// the policy is edited (RFC 4301 sections 4.4.1, 4.4.2 and 5). A contract sees the lines and the
/// limit, the keys of the cache with its capacity, and the lanes without their groups.
///
/// The type keeps that each cached group is the one that its key has under the policy as it is.
#[derive(Drop)]
pub struct Shared {
    compiled: Compiled,
    cache: Cache,
    lanes: [LaneState; 16],
}

impl Model for Shared {
    ghost use Rattle.spd_lanes.specs.Machine.{Machine};
    ghost use Rattle.spd_lanes.specs.inner.Kept.{Keeps, shown};

    ghost Value = { Machine };

    ghost view = { λ s. shown s.compiled.lines s.compiled.limit s.cache s.lanes };

    ghost invariant = { λ s. Keeps s.compiled.lines s.cache.entries s.lanes };
}

impl Shared {
    /// The machine of a policy and an empty cache. All lanes are idle.
    pub fn new(compiled: Compiled, cache: Cache) -> Shared
        requires { cache.entries ≡ [] }
        ensures { result ≡ machine compiled.lines compiled.limit cache.capacity }
    {
        let _ = compiled.lines();
        Shared {
            compiled,
            cache,
            lanes: stale::idle_lanes(),
        }
    }

    /// The policy with its entries.
    pub fn compiled(&self) -> &Compiled
        ensures lines { result.now.lines ≡ self.now.lines }
        ensures limit { result.now.limit ≡ self.now.limit }
    {
        &self.compiled
    }

    /// Begins the lookup of a packet in a lane, which is 0 to 15: where the packet's key is in the
    /// list, the answer of its first line, and the key goes first. Otherwise it is `None`, and the
    /// lane has missed the packet.
    ///
    /// `LaneBusy` exactly where the lane isn't idle; nothing has changed then. It looks at each
    /// group of the direction once at most, and takes no memory.
    pub fn take(
        &mut self,
        lane: u32,
        direction: Direction,
        packet: &Packet,
    ) -> Result<Option<Answer>, LaneFault>
        requires { lane ≤ 15 }
        ensures ok { IfOk result (λ answer.
            taken lane direction packet.now self.old ≡ Ok (answer, self.new)) }
        ensures fault { IfErr result (λ fault.
            taken lane direction packet.now self.old ≡ Err fault) }
        ensures err { OnErr result (self.new ≡ self.old) }
    {
        spd_groups::laws::groups_answer_by_the_key_of_a_point();
        let _ = packet.family();
        let state = &mut self.lanes[lane as usize];
        take(&mut self.cache, state, direction, packet)
    }

    /// Looks the packet of a lane up in the policy as it is: the lane, 0 to 15, has then found the
    /// answer of the packet's first line, fresh, whatever it had found before.
    ///
    /// `LaneIdle` exactly where the lane is idle. After a refusal nothing has changed. Takes the
    /// time and the memory of `Compiled::look`.
    pub fn search(&mut self, lane: u32) -> Result<Answer, LaneFault>
        requires { lane ≤ 15 }
        ensures ok { IfOk result (λ answer. searched lane self.old ≡ Ok (answer, self.new)) }
        ensures fault { IfErr result (IsLaneFault (searched lane self.old)) }
        ensures err { OnErr result (self.new ≡ self.old) }
    {
        let state = &mut self.lanes[lane as usize];
        search(&self.compiled, state)
    }

    /// Ends the lookup of a lane, 0 to 15, with the answer that it found; the lane is idle then.
    /// Where it is fresh, its key goes first, and past the capacity the last is dropped. Where the
    /// policy was edited since the search, nothing is kept.
    ///
    /// `LaneIdle`, `LaneNotFound` exactly where the lane is idle, or has only missed its packet.
    /// After a refusal nothing has changed. Takes memory for the group's place in the cache.
    pub fn fill(&mut self, lane: u32) -> Result<Filled, LaneFault>
        requires { lane ≤ 15 }
        ensures ok { IfOk result (λ reply. filled lane self.old ≡ Ok (reply, self.new)) }
        ensures fault { IfErr result (IsLaneFault (filled lane self.old)) }
        ensures err { OnErr result (self.new ≡ self.old) }
    {
        spd_groups::laws::groups_have_the_points_of_their_keys();
        let state = &mut self.lanes[lane as usize];
        fill(&mut self.cache, state)
    }

    /// Answers a packet at once, on no lane: a hit exactly where its key is in the list, and in
    /// either case the answer of its first line. The key goes first, and past the capacity the last
    /// is dropped.
    ///
    /// After a refusal nothing has changed. A hit takes no memory, and one look at each group of
    /// the direction at most; what is no hit takes the time and the memory of `search` and `fill`.
    pub fn packet(
        &mut self,
        direction: Direction,
        packet: &Packet,
    ) -> Result<PacketAnswer, NoMemory>
        ensures ok { IfOk result (λ reply.
            asked direction packet.now self.old ≡ (reply, self.new)) }
        ensures err { OnErr result (self.new ≡ self.old) }
    {
        spd_groups::laws::groups_answer_alike();
        spd_groups::laws::groups_answer_by_the_key_of_a_point();
        spd_groups::laws::groups_have_the_points_of_their_keys();
        let _ = packet.family();
        ask(&self.compiled, &mut self.cache, direction, packet)
    }

    /// Edits the policy. The cache is emptied, and no lane is fresh: what was found before the edit
    /// is answered by the lane that found it, and never kept.
    ///
    /// `Order` comes exactly where the edit has a fault, then `Limit` exactly where the edited
    /// policy passes the limit, outbound before inbound. After each refusal nothing has changed.
    /// Takes the time and the memory of `Compiled::edit`.
    pub fn edit(&mut self, change: Edit) -> Result<(), EditFault>
        ensures ok { OnOk result (edited change self.old ≡ Ok self.new) }
        ensures fault { IfErr result (IsEditFault (edited change self.old)) }
        ensures err { OnErr result (self.new ≡ self.old) }
    {
        self.compiled.edit(change)?;
        self.cache.flush();
        stale::make_stale(&mut self.lanes);
        Ok(())
    }
}
