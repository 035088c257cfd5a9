ghost use Rattle.std.specs.Prelude.{◌≡◌, ◌+◌, ◌≤◌, length, IfErr, IfOk, OnOk};
ghost use Rattle.std.specs.String.{string_bytes};
ghost use Rattle.audit_frame.specs.Ends.{WriteCauses, Writes};
ghost use Rattle.cmd_narrow.specs.Narrow.{accepted, by_narrowed, digit_lines, nothing_acceptable};
ghost use Rattle.cmd_narrow.specs.Narrow.{pair_lines, payload_digits, proposal_answer};
ghost use Rattle.cmd_narrow.specs.Narrow.{narrowed_answer};
ghost use Rattle.cmd_narrow.specs.inner.Printable.{CanPrint, IsPrintable};
ghost use Rattle.sel_box.specs.declared.packet.Direction.TheVariants.{Inbound, Outbound};
ghost use Rattle.spd_cut.specs.Entries.{entries};
ghost use Rattle.spd_line.specs.First.{name_at};
ghost use Rattle.ts_narrow.specs.Narrowing.{narrowing};
ghost use Rattle.ts_payload.specs.Selector.{AreSelectors};

use crate::NarrowEnd;
use crate::answer_lines::{NothingAcceptable, PairLines};
use audit_frame::{NoMemory, WriteRefused, write_line, write_lines};
use pair_io::Sink;
use spd_cut::Entry;
use spd_line::{LineList, name_of};
use std::alloc::Global;
use ts_narrow::{Narrowed, narrow};
use ts_wire::{Proposal, ProposalFault, Ts, TsList, encode, read_proposal};

// The number of the payload TSr, which comes behind TSi (RFC 7296 section 3.2).
const TSR_NEXT: u8 = 45;

// No payload comes behind.
const NONE_NEXT: u8 = 0;

// Writes what is accepted of the proposal that a text is, by a policy and its entries.
pub fn write_answer<O: Sink>(
    alloc: Global,
    lines: &LineList,
    outbound: &[Entry],
    inbound: &[Entry],
    text: &[u8],
    out: &mut O,
) -> Result<NarrowEnd, WriteRefused>
    requires few { length lines.now ≤ 4096 }
    requires outbound { outbound.now ≡ entries Outbound lines.now }
    requires inbound { inbound.now ≡ entries Inbound lines.now }
    ensures writes { Writes (proposal_answer lines.now text.now)
        (O.told out.old) (O.told out.new) result }
    ensures causes { IfErr result (WriteCauses (O.faults out.old) (O.faults out.new)) }
    ensures no_fault { OnOk result (O.faults out.new ≡ O.faults out.old) }
{
    match read_proposal(alloc, text) {
        Ok(proposal) => write_narrowed(alloc, lines, outbound, inbound, &proposal, out),
        Err(ProposalFault::NoMemory) => Err(WriteRefused::NoMemory),
        Err(fault) => Ok(NarrowEnd::ProposalFault { fault }),
    }
}

// Writes what is accepted of a proposal.
fn write_narrowed<O: Sink>(
    alloc: Global,
    lines: &LineList,
    outbound: &[Entry],
    inbound: &[Entry],
    proposal: &Proposal,
    out: &mut O,
) -> Result<NarrowEnd, WriteRefused>
    requires few { length lines.now ≤ 4096 }
    requires outbound { outbound.now ≡ entries Outbound lines.now }
    requires inbound { inbound.now ≡ entries Inbound lines.now }
    requires tsi { AreSelectors proposal.now.tsi }
    requires tsr { AreSelectors proposal.now.tsr }
    requires few_tsi { length proposal.now.tsi ≤ 127 }
    requires few_tsr { length proposal.now.tsr ≤ 127 }
    ensures writes { Writes (narrowed_answer lines.now proposal.now)
        (O.told out.old) (O.told out.new) result }
    ensures causes { IfErr result (WriteCauses (O.faults out.old) (O.faults out.new)) }
    ensures no_fault { OnOk result (O.faults out.new ≡ O.faults out.old) }
{
    let answer = find_answer(alloc, lines, outbound, inbound, proposal)?;
    write_found(alloc, lines, &answer, out)
}

// What is accepted of a proposal.
fn find_answer(
    alloc: Global,
    lines: &LineList,
    outbound: &[Entry],
    inbound: &[Entry],
    proposal: &Proposal,
) -> Result<Narrowed, NoMemory>
    requires outbound { outbound.now ≡ entries Outbound lines.now }
    requires inbound { inbound.now ≡ entries Inbound lines.now }
    requires tsi { AreSelectors proposal.now.tsi }
    requires tsr { AreSelectors proposal.now.tsr }
    requires few_tsi { length proposal.now.tsi ≤ 127 }
    requires few_tsr { length proposal.now.tsr ≤ 127 }
    ensures answer { IfOk result (λ answer. answer ≡ narrowing (entries Outbound lines.now)
        (entries Inbound lines.now) proposal.now.tsi proposal.now.tsr) }
    ensures printable { IfOk result (CanPrint (length lines.now)) }
{
    spd_cut::laws::entries_stand_for();
    spd_line::laws::the_first_line_is_the_least();
    narrow(alloc, outbound, inbound, proposal)
}

// Writes what was found.
fn write_found<O: Sink>(
    alloc: Global,
    lines: &LineList,
    answer: &Narrowed,
    out: &mut O,
) -> Result<NarrowEnd, WriteRefused>
    requires few { length lines.now ≤ 4096 }
    requires printable { CanPrint (length lines.now) answer.now }
    ensures writes { Writes (by_narrowed lines.now answer.now)
        (O.told out.old) (O.told out.new) result }
    ensures causes { IfErr result (WriteCauses (O.faults out.old) (O.faults out.new)) }
    ensures no_fault { OnOk result (O.faults out.new ≡ O.faults out.old) }
{
    match answer {
        Narrowed::Unacceptable => write_refusal(alloc, out),
        Narrowed::Pair {
            tsi,
            tsr,
            link,
            additional,
        } => write_pair(alloc, lines, tsi, tsr, *link, *additional, out),
    }
}

// Writes that nothing is acceptable.
fn write_refusal<O: Sink>(alloc: Global, out: &mut O) -> Result<NarrowEnd, WriteRefused>
    ensures writes { Writes nothing_acceptable (O.told out.old) (O.told out.new) result }
    ensures causes { IfErr result (WriteCauses (O.faults out.old) (O.faults out.new)) }
    ensures no_fault { OnOk result (O.faults out.new ≡ O.faults out.old) }
{
    write_line(&NothingAcceptable, &mut Vec::new(alloc), out)?;
    Ok(NarrowEnd::Unacceptable)
}

// Writes the two lists of selectors that are accepted, by the line at a place.
fn write_pair<O: Sink>(
    alloc: Global,
    lines: &LineList,
    tsi: &TsList,
    tsr: &TsList,
    link: u32,
    additional: bool,
    out: &mut O,
) -> Result<NarrowEnd, WriteRefused>
    requires few { length lines.now ≤ 4096 }
    requires printable { IsPrintable (length lines.now) tsi.now tsr.now link }
    ensures writes { Writes (accepted (name_at lines.now link) tsi.now tsr.now additional)
        (O.told out.old) (O.told out.new) result }
    ensures causes { IfErr result (WriteCauses (O.faults out.old) (O.faults out.new)) }
    ensures no_fault { OnOk result (O.faults out.new ≡ O.faults out.old) }
{
    let pair = lines_of(alloc, lines, tsi, tsr, link, additional)?;
    write_lines(&pair, &mut Vec::new(alloc), out)?;
    Ok(NarrowEnd::Done)
}

// The lines of what is accepted.
fn lines_of(
    alloc: Global,
    lines: &LineList,
    tsi: &TsList,
    tsr: &TsList,
    link: u32,
    additional: bool,
) -> Result<PairLines, NoMemory>
    requires few { length lines.now ≤ 4096 }
    requires printable { IsPrintable (length lines.now) tsi.now tsr.now link }
    ensures { IfOk result (λ pair.
        digit_lines pair.name (string_bytes pair.tsi) (string_bytes pair.tsr) pair.additional
        ≡ pair_lines (name_at lines.now link) tsi.now tsr.now additional) }
{
    let name = name_of(lines, link);
    let tsi = digits_of(alloc, TSR_NEXT, tsi.as_slice())?;
    let tsr = digits_of(alloc, NONE_NEXT, tsr.as_slice())?;
    Ok(PairLines {
        name,
        tsi,
        tsr,
        additional,
    })
}

// The digits of the payload of selectors, with the number of the payload behind it.
fn digits_of(alloc: Global, next: u8, selectors: &[Ts]) -> Result<String, NoMemory>
    requires few { length selectors.now ≤ 255 }
    requires selectors { AreSelectors selectors.now }
    ensures { IfOk result (λ digits. string_bytes digits ≡ payload_digits next selectors.now) }
{
    let payload = encode(alloc, next, selectors)?;
    let digits = hex::encode(alloc, payload.as_slice())?;
    Ok(digits)
}
