ghost use Rattle.std.specs.Prelude.{◌≡◌, ◌≤◌, IfOk, IfErr, OnOk, None};
ghost use Rattle.spd_lanes.specs.Machine.{machine};
ghost use Rattle.spd_lanes.specs.Policy.{over, policy};
ghost use Rattle.spd_line.specs.Policy.{IsPolicy};
ghost use Rattle.cmd_replay.specs.inner.Stages.{OverCauses};

use audit_frame::Refusal;
use lists::NoMemory;
use spd_cache::Cache;
use spd_lanes::{CompileFault, Compiled, Shared};
use spd_line::LineList;
use spd_order::{OrderFault, Spd};
use std::alloc::Global;

// Compiles the lines of the policy that the word names.
pub fn compile(alloc: Global, word: u32, lines: LineList, limit: u32) -> Result<Compiled, Refusal>
    requires { IsPolicy lines }
    ensures compiled { IfOk result (λ compiled. compiled ≡ policy lines limit) }
    ensures within { OnOk result (over limit lines ≡ None) }
    ensures refused { IfErr result (OverCauses word (over limit lines)) }
{
    spd_order::laws::policies_are_taken();
    match Spd::from_lines(alloc, lines) {
        Ok(spd) => compile_spd(alloc, word, spd, limit),
        Err(OrderFault::NoMemory) => Err(Refusal::NoMemory),
        Err(_) => unreachable!(),
    }
}

// Compiles the policy that the word names.
fn compile_spd(alloc: Global, word: u32, spd: Spd, limit: u32) -> Result<Compiled, Refusal>
    ensures compiled { IfOk result (λ compiled. compiled ≡ policy spd limit) }
    ensures within { OnOk result (over limit spd ≡ None) }
    ensures refused { IfErr result (OverCauses word (over limit spd)) }
{
    match Compiled::new(alloc, spd, limit) {
        Ok(compiled) => Ok(compiled),
        Err(CompileFault::Limit { direction, line }) => Err(Refusal::EntryLimit {
            word,
            direction,
            line,
            at: None,
        }),
        Err(CompileFault::NoMemory) => Err(Refusal::NoMemory),
    }
}

// The machine of a compiled policy, whose cache has no group, and room for so many.
pub fn machine_of(alloc: Global, compiled: Compiled, capacity: u32) -> Result<Shared, NoMemory>
    requires some { 1 ≤ capacity }
    requires most { capacity ≤ 4096 }
    ensures { IfOk result (λ shared.
        shared ≡ machine compiled.lines compiled.limit capacity) }
{
    let cache = Cache::new(alloc, capacity as usize)?;
    Ok(Shared::new(compiled, cache))
}
