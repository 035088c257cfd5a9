ghost use Rattle.std.specs.Prelude.{◌≡◌, Ok, Err, IfOk, IfErr, OnErr};
ghost use Rattle.sel_box.specs.Point.{view_of};
ghost use Rattle.spd_cache.specs.Cached.{IsAnsweredAlike};
ghost use Rattle.spd_lanes.specs.Faults.{IsLaneFault};
ghost use Rattle.spd_lanes.specs.Lane.{ask_step, fill_step, miss_step, search_step, take_step};

use crate::{Compiled, Filled, LaneFault, LaneState, PacketAnswer};
use lists::NoMemory;
use sel_box::{Direction, Packet, view};
use spd_cache::Cache;
use spd_groups::Looked;
use spd_line::Answer;
use std::mem;

/// Begins the lookup of a packet in an idle lane. It sees the cache alone: where some group of the
/// direction has the packet's values, that is the answer, the group is the most recently used then,
/// and the lane stays idle. Otherwise it is `None`, and the lane has missed the packet.
///
/// `LaneBusy` exactly where the lane isn't idle; nothing has changed then. It looks at each group
/// of the direction once at most, and takes no memory.
pub fn take(
    cache: &mut Cache,
    lane: &mut LaneState,
    direction: Direction,
    packet: &Packet,
) -> Result<Option<Answer>, LaneFault>
    ensures ok { IfOk result (λ answer. take_step direction packet.now cache.old lane.old
        ≡ Ok (answer, cache.new, lane.new)) }
    ensures fault { IfErr result (λ fault. take_step direction packet.now cache.old lane.old
        ≡ Err fault) }
    ensures cache { OnErr result (cache.new ≡ cache.old) }
    ensures lane { OnErr result (lane.new ≡ lane.old) }
{
    if lane.held().is_some() {
        return Err(LaneFault::LaneBusy);
    }
    let point = view(direction, packet);
    match cache.probe(direction, &point) {
        Some(answer) => Ok(Some(answer)),
        None => {
            *lane = LaneState::Missed {
                direction,
                packet: *packet,
            };
            Ok(None)
        }
    }
}

/// Looks the packet of a lane up. It sees the policy alone: the lane has then found the answer of
/// the packet's first line, fresh, whatever it had found before.
///
/// `LaneIdle` exactly where the lane is idle. After a refusal nothing has changed. Takes the time
/// and the memory of `Compiled::look`.
pub fn search(compiled: &Compiled, lane: &mut LaneState) -> Result<Answer, LaneFault>
    ensures ok { IfOk result (λ answer. search_step compiled.now.lines lane.old
        ≡ Ok (answer, lane.new)) }
    ensures fault { IfErr result (IsLaneFault (search_step compiled.now.lines lane.old)) }
    ensures err { OnErr result (lane.new ≡ lane.old) }
{
    let Some((direction, packet)) = lane.held() else {
        return Err(LaneFault::LaneIdle);
    };
    let point = view(direction, &packet);
    let Looked { answer, key, group } = compiled.look(direction, &point)?;
    let reply = again(&answer);
    *lane = LaneState::Found {
        direction,
        packet,
        answer,
        key,
        group,
        fresh: true,
    };
    Ok(reply)
}

// The same answer.
fn again(answer: &Answer) -> Answer
    ensures { result ≡ answer.now }
{
    *answer
}

/// Ends the lookup of a lane, which is idle then, with the answer that was found. It sees the cache
/// alone: where the lane is fresh, its group is kept under its key; where the policy was edited
/// since the search, it is dropped.
///
/// `LaneIdle`, `LaneNotFound` exactly where the lane is idle, or has only missed its packet. After
/// a refusal nothing has changed. Takes memory for the group's place in the cache.
pub fn fill(cache: &mut Cache, lane: &mut LaneState) -> Result<Filled, LaneFault>
    ensures ok { IfOk result (λ filled. fill_step cache.old lane.old
        ≡ Ok (filled, cache.new, lane.new)) }
    ensures fault { IfErr result (IsLaneFault (fill_step cache.old lane.old)) }
    ensures cache { OnErr result (cache.new ≡ cache.old) }
    ensures lane { OnErr result (lane.new ≡ lane.old) }
{
    match mem::replace(lane, LaneState::Idle) {
        LaneState::Idle => Err(LaneFault::LaneIdle),
        LaneState::Missed { direction, packet } => {
            *lane = LaneState::Missed { direction, packet };
            Err(LaneFault::LaneNotFound)
        }
        LaneState::Found {
            direction,
            packet,
            answer,
            key,
            group,
            fresh,
        } => {
            if !fresh {
                return Ok(Filled {
                    answer,
                    stale: true,
                });
            }
            match cache.keep(key, group) {
                Ok(()) => Ok(Filled {
                    answer,
                    stale: false,
                }),
                Err(refused) => {
                    *lane = LaneState::Found {
                        direction,
                        packet,
                        answer,
                        key: refused.key,
                        group: refused.group,
                        fresh,
                    };
                    Err(LaneFault::NoMemory)
                }
            }
        }
    }
}

/// Answers a packet at once: from the cache, or else from the policy, and then its group is kept.
/// All groups that have the packet's values answer it alike, as those of one policy do.
///
/// After a refusal nothing has changed. A hit takes the time of `Cache::recall`, and no memory;
/// what is no hit takes the time and the memory of `search` and `fill` besides.
pub fn ask(
    compiled: &Compiled,
    cache: &mut Cache,
    direction: Direction,
    packet: &Packet,
) -> Result<PacketAnswer, NoMemory>
    requires alike { IsAnsweredAlike direction (view_of direction packet.now) cache.now.entries }
    ensures ok { IfOk result (λ reply. ask_step direction packet.now compiled.now.lines cache.old
        ≡ (reply, cache.new)) }
    ensures err { OnErr result (cache.new ≡ cache.old) }
{
    let point = view(direction, packet);
    match cache.recall(direction, &point) {
        Some(answer) => Ok(PacketAnswer { answer, hit: true }),
        None => ask_policy(compiled, cache, direction, packet),
    }
}

// The same where the cache has no answer.
fn ask_policy(
    compiled: &Compiled,
    cache: &mut Cache,
    direction: Direction,
    packet: &Packet,
) -> Result<PacketAnswer, NoMemory>
    ensures ok { IfOk result (λ reply.
        miss_step direction packet.now compiled.now.lines cache.old ≡ (reply, cache.new)) }
    ensures err { OnErr result (cache.new ≡ cache.old) }
{
    let point = view(direction, packet);
    let Looked { answer, key, group } = compiled.look(direction, &point)?;
    match cache.keep(key, group) {
        Ok(()) => Ok(PacketAnswer { answer, hit: false }),
        Err(_) => Err(NoMemory),
    }
}
