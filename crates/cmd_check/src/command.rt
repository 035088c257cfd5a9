ghost use Rattle.std.specs.Prelude.{◌≡◌, ◌≤◌, length, IfErr, OnErr, OnOk};
ghost use Rattle.audit_frame.specs.Causes.{reads};
ghost use Rattle.audit_frame.specs.Ends.{WriteCauses, Writes};
ghost use Rattle.audit_frame.specs.Runs.{Runs};
ghost use Rattle.spd_line.specs.Policy.{most_lines};
ghost use Rattle.cmd_check.specs.Check.{certificate_answer, check_answer, check_files, check_in};
ghost use Rattle.cmd_check.specs.Check.{end_of};

use crate::found_line::FoundLine;
use crate::most_bytes::MostBytes;
use audit_frame::{Ended, NamedFile, WriteRefused, load_file, load_policy, write_line};
use cert_check::{CheckFault, Checked, check};
use pair_io::{Files, Sink, WordList};
use spd_line::LineList;
use std::alloc::Global;

/// The words of the command: the most bytes of the certificate, the policies of the gateways A and
/// B, and the certificate.
#[derive(Debug, Drop)]
pub struct Check<'a> {
    most: MostBytes,
    policy_a: NamedFile<'a>,
    policy_b: NamedFile<'a>,
    certificate: NamedFile<'a>,
}

/// How the command ends by itself.
#[derive(Clone, Copy, Debug, PartialEq, Eq)]
pub enum CheckEnd {
    /// Each node of the certificate holds, so the policies agree.
    Accepted,
    /// A node doesn't hold: the first, counted from 1 over both trees.
    Rejected { node: u64 },
    /// The text is no certificate: its first line, counted from 1, that isn't in the grammar, is
    /// missing, or is one too many.
    CertFault { line: u64 },
}

impl<'a> Check<'a> {
    /// The command of some words: `check`, a number of bytes from 1 to 1,073,741,824, and the names
    /// of two policies and of a certificate, none of them empty; `None` of all other words. Takes
    /// no memory.
    pub fn from_words(words: &'a WordList) -> Option<Self>
        ensures { result ≡ check_in words.now }
    {
        match words.as_slice() {
            [command, most, policy_a, policy_b, certificate] if command.as_str() == "check" => {
                Some(Check {
                    most: MostBytes::of_word(most.as_str())?,
                    policy_a: NamedFile::new(3, policy_a.as_str())?,
                    policy_b: NamedFile::new(4, policy_b.as_str())?,
                    certificate: NamedFile::new(5, certificate.as_str())?,
                })
            }
            _ => None,
        }
    }

    /// Writes `accepted` where the certificate shows that B judges each packet that comes in as A
    /// judges it when it goes out (RFC 4301 section 5), and else `rejected` and the number of the
    /// first node that doesn't hold. Of a text that is no certificate nothing is written.
    ///
    /// Loads each file whole, A's policy first and the certificate last. Then it takes the time and
    /// memory of `cert_check::check`.
    pub fn run<F: Files, O: Sink>(
        &self,
        alloc: Global,
        files: &mut F,
        out: &mut O,
    ) -> Ended<CheckEnd>
        ensures { Runs (check_answer (F.told files.old) self.now) (check_files self.now)
            (F.told files.old)
            (reads (F.faults files.old) (F.taken files.old) (F.end files.old))
            (reads (F.faults files.new) (F.taken files.new) (F.end files.new))
            (O.faults out.old) (O.faults out.new) (O.told out.old) (O.told out.new) result }
    {
        let a = load_policy(alloc, files, &self.policy_a)?;
        let b = load_policy(alloc, files, &self.policy_b)?;
        let certificate = load_file(alloc, files, &self.certificate, self.most.get())?;
        let end = check_certificate(alloc, &a, &b, certificate.as_slice(), out)?;
        Ok(end)
    }
}

// Checks a certificate, and writes what was found.
fn check_certificate<O: Sink>(
    alloc: Global,
    a: &LineList,
    b: &LineList,
    certificate: &[u8],
    out: &mut O,
) -> Result<CheckEnd, WriteRefused>
    requires a_few { length a.now ≤ most_lines }
    requires b_few { length b.now ≤ most_lines }
    ensures writes { Writes (certificate_answer a.now b.now certificate.now)
        (O.told out.old) (O.told out.new) result }
    ensures causes { IfErr result (WriteCauses (O.faults out.old) (O.faults out.new)) }
    ensures no_fault { OnOk result (O.faults out.new ≡ O.faults out.old) }
{
    match check(alloc, a, b, certificate) {
        Ok(found) => {
            let mut text = Vec::new(alloc);
            write_line(&FoundLine { found }, &mut text, out)?;
            Ok(end_of(found))
        }
        Err(CheckFault::CertFault { line }) => Ok(CheckEnd::CertFault { line }),
        Err(CheckFault::NoMemory) => Err(WriteRefused::NoMemory),
    }
}

// How the command ends by what was found.
fn end_of(found: Checked) -> CheckEnd
    ensures { result ≡ end_of found }
{
    match found {
        Checked::Accepted => CheckEnd::Accepted,
        Checked::Rejected { node } => CheckEnd::Rejected { node },
    }
}
