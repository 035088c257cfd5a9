ghost use Rattle.std.specs.Prelude.{◌≡◌, ◌≢◌, ◌≤◌, Ok, Err, IfOk, IfErr, IsTrue, length};
ghost use Rattle.hex.specs.Hex.{decode_of};
ghost use Rattle.ts_payload.specs.Selector.{AreSelectors};
ghost use Rattle.ts_wire.specs.declared.fault.ProposalFault.{ProposalFault};
ghost use Rattle.ts_wire.specs.Proposal as proposal;

use crate::fault::ProposalFault;
use crate::lines::two_lines;
use hex::FromHexError;
use std::alloc::Global;
use ts_payload::{TsFault, TsList, decode};

/// The two traffic selector payloads of a proposal (RFC 7296 section 2.9).
#[derive(Debug, Drop)]
pub struct Proposal {
    /// The selectors of the initiator.
    pub tsi: TsList,
    /// The selectors of the responder.
    pub tsr: TsList,
}

/// Reads a proposal: exactly two lines, TSi and then TSr, each an even number of hexadecimal digits
/// of either case, two a byte, of a whole payload as `decode` takes it. LF ends the first line; the
/// LF of the second may be absent where that line isn't empty.
///
/// Other bytes are refused by the first of their faults, in the order of `ProposalFault`. It goes
/// over the bytes once, and takes memory for the bytes of a payload and for the lists.
pub fn read_proposal(alloc: Global, bytes: &[u8]) -> Result<Proposal, ProposalFault>
    ensures proposal { IfOk result (λ read. proposal.proposal_of bytes.now ≡ Ok read) }
    ensures fault { IfErr result (λ fault. fault ≢ ProposalFault.NoMemory
        → proposal.proposal_of bytes.now ≡ Err fault) }
    ensures named { IfErr result (λ fault. IsTrue (proposal.names_a_fault fault)) }
    ensures tsi { IfOk result (λ read. AreSelectors read.tsi) }
    ensures tsr { IfOk result (λ read. AreSelectors read.tsr) }
    ensures few_tsi { IfOk result (λ read. length read.tsi ≤ 127) }
    ensures few_tsr { IfOk result (λ read. length read.tsr ≤ 127) }
{
    let Some((tsi, tsr)) = two_lines(bytes) else {
        return Err(ProposalFault::Lines);
    };
    let tsi = read_line(alloc, 1, tsi)?;
    let tsr = read_line(alloc, 2, tsr)?;
    Ok(Proposal { tsi, tsr })
}

// The selectors of the payload that the line with this number writes.
fn read_line(alloc: Global, line: u32, text: &[u8]) -> Result<TsList, ProposalFault>
    ensures list { IfOk result (λ list. proposal.line_payload line text.now ≡ Ok list) }
    ensures fault { IfErr result (λ fault. fault ≢ ProposalFault.NoMemory
        → proposal.line_payload line text.now ≡ Err fault) }
    ensures named { IfErr result (λ fault. IsTrue (proposal.names_a_fault fault)) }
    ensures selectors { IfOk result AreSelectors }
    ensures few { IfOk result (λ list. length list ≤ 127) }
{
    let bytes = read_digits(alloc, line, text)?;
    match decode(alloc, bytes.as_slice()) {
        Ok(list) => Ok(list),
        Err(TsFault::NoMemory) => Err(ProposalFault::NoMemory),
        Err(fault) => Err(ProposalFault::Payload { line, fault }),
    }
}

// The bytes that the line with this number writes.
fn read_digits(alloc: Global, line: u32, text: &[u8]) -> Result<Vec<u8>, ProposalFault>
    ensures bytes { IfOk result (λ bytes. decode_of text.now ≡ Ok bytes.items) }
    ensures fault { IfErr result (λ fault. fault ≢ ProposalFault.NoMemory
        → proposal.line_payload line text.now ≡ Err fault) }
    ensures named { IfErr result (λ fault. IsTrue (proposal.names_a_fault fault)) }
{
    match hex::decode(alloc, text) {
        Ok(bytes) => Ok(bytes),
        Err(FromHexError::OutOfMemory) => Err(ProposalFault::NoMemory),
        Err(_) => Err(ProposalFault::Hex { line }),
    }
}
