ghost use Rattle.std.specs.Prelude.{◌≡◌, ◌≤◌, length, IfOk};
ghost use Rattle.spd_index.specs.IsIndexOf.{IsIndexOf};

use audit_frame::NoMemory;
use spd_index::Index;
use spd_line::LineList;
use std::alloc::Global;

// So many bytes of a trace have some 600 packets, for which rows cost about what they save.
const LONG_TRACE: usize = 32_768;

// The lines of a policy, and their index.
#[derive(Debug, Drop)]
pub struct Policy<'a> {
    pub lines: &'a LineList,
    pub index: Index,
    ghost few: { length lines.now ≤ 4096 },
    ghost index_is: { IsIndexOf index lines.now },
}

impl<'a> Policy<'a> {
    // The policy of some lines, for a trace of so many bytes.
    pub fn new(alloc: Global, lines: &'a LineList, trace_len: usize) -> Result<Policy<'a>, NoMemory>
        requires { length lines.now ≤ 4096 }
        ensures { IfOk result (λ policy. policy.lines.now ≡ lines.now) }
    {
        let index = index_for(alloc, lines, trace_len)?;
        Ok(Policy { lines, index })
    }
}

// The index of the lines, without rows for a trace that is too short to need them.
fn index_for(alloc: Global, lines: &LineList, trace_len: usize) -> Result<Index, NoMemory>
    requires { length lines.now ≤ 4096 }
    ensures { IfOk result (λ index. IsIndexOf index lines.now) }
{
    if trace_len < LONG_TRACE {
        Ok(Index::without_rows())
    } else {
        Index::new(alloc, lines)
    }
}
