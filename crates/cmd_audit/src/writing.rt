ghost use Rattle.std.specs.Prelude.{◌≡◌, ◌+◌, ◌≤◌, length, IfErr, IfOk, IfSome, OnErr, OnOk};
ghost use Rattle.audit_frame.specs.Ends.{WriteCauses, Writes};
ghost use Rattle.cert_make.specs.Text.{nodes_text};
ghost use Rattle.cert_make.specs.Trees.{made_nodes};
ghost use Rattle.cmd_audit.specs.Audit.{agreement, by_gap, gap_answer, gap_lines, pair_answer};
ghost use Rattle.cmd_audit.specs.Audit.{told_by};
ghost use Rattle.cmd_audit.specs.inner.Places.{HasPlaces};
ghost use Rattle.pair_gap.specs.LeastGap.{least_gap_of};
ghost use Rattle.pair_io.specs.Gains.{Gains, GainsPrefix};
ghost use Rattle.sel_box.specs.declared.packet.Direction.TheVariants.{Inbound, Outbound};
ghost use Rattle.spd_cut.specs.Entries.{entries};

use crate::AuditEnd;
use crate::answer_lines::{Agreement, GapLines};
use audit_frame::{NoMemory, WriteRefused, write_line, write_lines};
use cert_make::{MakeFault, agree, make};
use pair_gap::{Gap, PeerEntries, least_gap};
use pair_io::Sink;
use spd_cut::Entry;
use spd_line::{Answer, LineList, Verdict, name_of};
use std::alloc::Global;

// Writes the certificate that the policies agree, or their least gap.
pub fn write_answer<O: Sink>(
    alloc: Global,
    a: &LineList,
    b: &LineList,
    outbound: &[Entry],
    inbound: &[Entry],
    out: &mut O,
) -> Result<AuditEnd, WriteRefused>
    requires few_a { length a.now ≤ 4096 }
    requires few_b { length b.now ≤ 4096 }
    requires outbound { outbound.now ≡ entries Outbound a.now }
    requires inbound { inbound.now ≡ entries Inbound b.now }
    ensures writes { Writes (pair_answer a.now b.now) (O.told out.old) (O.told out.new) result }
    ensures causes { IfErr result (WriteCauses (O.faults out.old) (O.faults out.new)) }
    ensures no_fault { OnOk result (O.faults out.new ≡ O.faults out.old) }
{
    let gap = find_gap(alloc, a, b, outbound, inbound)?;
    write_found(alloc, a, b, &gap, out)
}

// The least gap of two policies. It is looked for only where they don't agree, which a walk through
// their certificate finds out sooner.
fn find_gap(
    alloc: Global,
    a: &LineList,
    b: &LineList,
    outbound: &[Entry],
    inbound: &[Entry],
) -> Result<Option<Gap>, NoMemory>
    requires few_a { length a.now ≤ 4096 }
    requires few_b { length b.now ≤ 4096 }
    requires outbound { outbound.now ≡ entries Outbound a.now }
    requires inbound { inbound.now ≡ entries Inbound b.now }
    ensures gap { IfOk result (λ gap.
        gap ≡ least_gap_of (entries Outbound a.now) (entries Inbound b.now)) }
    ensures places { IfOk result (λ gap. IfSome gap (HasPlaces a.now b.now)) }
{
    spd_cut::laws::entries_stand_for();
    spd_line::laws::the_first_line_is_the_least();
    pair_gap::laws::the_least_gap_is_found();
    pair_gap::laws::one_least_gap();
    let alike = agree(alloc, a, b)?;
    if alike {
        return Ok(None);
    }
    let peer = PeerEntries::new(alloc, inbound)?;
    Ok(least_gap(outbound, &peer))
}

// Writes what was found.
fn write_found<O: Sink>(
    alloc: Global,
    a: &LineList,
    b: &LineList,
    gap: &Option<Gap>,
    out: &mut O,
) -> Result<AuditEnd, WriteRefused>
    requires few_a { length a.now ≤ 4096 }
    requires few_b { length b.now ≤ 4096 }
    requires places { IfSome gap.now (HasPlaces a.now b.now) }
    ensures writes { Writes (by_gap a.now b.now gap.now) (O.told out.old) (O.told out.new) result }
    ensures causes { IfErr result (WriteCauses (O.faults out.old) (O.faults out.new)) }
    ensures no_fault { OnOk result (O.faults out.new ≡ O.faults out.old) }
{
    match gap {
        Some(gap) => write_gap(alloc, a, b, gap, out),
        None => write_agreement(alloc, a, b, out),
    }
}

// Writes that they agree, and the nodes of the certificate that shows it.
fn write_agreement<O: Sink>(
    alloc: Global,
    a: &LineList,
    b: &LineList,
    out: &mut O,
) -> Result<AuditEnd, WriteRefused>
    requires few_a { length a.now ≤ 4096 }
    requires few_b { length b.now ≤ 4096 }
    ensures writes { Writes (agreement a.now b.now) (O.told out.old) (O.told out.new) result }
    ensures causes { IfErr result (WriteCauses (O.faults out.old) (O.faults out.new)) }
    ensures no_fault { OnOk result (O.faults out.new ≡ O.faults out.old) }
{
    write_line(&Agreement, &mut Vec::new(alloc), out)?;
    write_nodes(alloc, a, b, out)?;
    Ok(AuditEnd::Agree)
}

// Writes the nodes of the certificate.
fn write_nodes<O: Sink>(
    alloc: Global,
    a: &LineList,
    b: &LineList,
    out: &mut O,
) -> Result<(), WriteRefused>
    requires few_a { length a.now ≤ 4096 }
    requires few_b { length b.now ≤ 4096 }
    ensures written { OnOk result (Gains (O.told out.old) (O.told out.new)
        (nodes_text (made_nodes a.now b.now))) }
    ensures prefix { OnErr result (GainsPrefix (O.told out.old) (O.told out.new)
        (nodes_text (made_nodes a.now b.now))) }
    ensures causes { IfErr result (WriteCauses (O.faults out.old) (O.faults out.new)) }
    ensures no_fault { OnOk result (O.faults out.new ≡ O.faults out.old) }
{
    match make(alloc, a, b, out) {
        Ok(()) => Ok(()),
        Err(MakeFault::WriteFault) => Err(WriteRefused::WriteFault),
        Err(MakeFault::NoMemory) => Err(WriteRefused::NoMemory),
    }
}

// Writes the packet of a gap and both verdicts.
fn write_gap<O: Sink>(
    alloc: Global,
    a: &LineList,
    b: &LineList,
    gap: &Gap,
    out: &mut O,
) -> Result<AuditEnd, WriteRefused>
    requires few_a { length a.now ≤ 4096 }
    requires few_b { length b.now ≤ 4096 }
    requires places { HasPlaces a.now b.now gap.now }
    ensures writes { Writes (gap_answer a.now b.now gap.now)
        (O.told out.old) (O.told out.new) result }
    ensures causes { IfErr result (WriteCauses (O.faults out.old) (O.faults out.new)) }
    ensures no_fault { OnOk result (O.faults out.new ≡ O.faults out.old) }
{
    let lines = lines_of(a, b, gap);
    write_lines(&lines, &mut Vec::new(alloc), out)?;
    Ok(AuditEnd::Differ)
}

// The lines of a gap, where each verdict has the name of its line.
fn lines_of(a: &LineList, b: &LineList, gap: &Gap) -> GapLines
    requires few_a { length a.now ≤ 4096 }
    requires few_b { length b.now ≤ 4096 }
    requires places { HasPlaces a.now b.now gap.now }
    ensures { gap_lines result.packet result.a result.b
        ≡ gap_lines gap.now.packet (told_by a.now gap.now.a) (told_by b.now gap.now.b) }
{
    GapLines {
        packet: gap.packet,
        a: answer_of(a, &gap.a),
        b: answer_of(b, &gap.b),
    }
}

// A verdict with the name of its line.
fn answer_of(lines: &LineList, verdict: &Verdict) -> Answer
    requires few { length lines.now ≤ 4096 }
    requires first { 1 ≤ verdict.now.line }
    requires last { verdict.now.line ≤ length lines.now + 1 }
    ensures { result ≡ told_by lines.now verdict.now }
{
    Answer {
        name: name_of(lines, verdict.line),
        judgement: verdict.judgement,
    }
}
