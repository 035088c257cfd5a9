ghost use Rattle.std.specs.Prelude.{◌≡◌, ◌<◌, ℕ, List, ◌++◌, codes, length, slice_get};
ghost use Rattle.std.specs.Prelude.{IfErr, IfSome, OnErr, OnOk};
ghost use Rattle.pair_io.specs.Gains.{Gains, GainsPrefix};
ghost use Rattle.audit_frame.specs.Answer.{text_of};
ghost use Rattle.audit_frame.specs.Ends.{WriteCauses};

use crate::{NoMemory, WriteRefused};
use pair_io::{Sink, write_all};
use spd_text::Printed;

/// Writes one line: the printed form and a line feed, made in the given buffer and handed to
/// `write_all` once, whole. The buffer's text is dropped first; it takes memory only where the line
/// is longer than any before.
pub fn write_line<L: Printed, O: Sink>(
    line: &L,
    text: &mut Vec<u8>,
    out: &mut O,
) -> Result<(), WriteRefused>
    ensures written { OnOk result (Gains (O.told out.old) (O.told out.new)
        (L.printed line.now ++ codes "\n")) }
    ensures prefix { OnErr result (GainsPrefix (O.told out.old) (O.told out.new)
        (L.printed line.now ++ codes "\n")) }
    ensures causes { IfErr result (WriteCauses (O.faults out.old) (O.faults out.new)) }
    ensures no_fault { OnOk result (O.faults out.new ≡ O.faults out.old) }
{
    text.clear();
    append_line(line, text)?;
    write_all(out, text.as_slice())?;
    Ok(())
}

// Puts the printed form and a line feed at the end of the text.
fn append_line<L: Printed>(line: &L, text: &mut Vec<u8>) -> Result<(), NoMemory>
    ensures { OnOk result (text.new.items ≡ text.old.items ++ (L.printed line.now ++ codes "\n")) }
{
    line.print(text)?;
    text.extend_from_slice(b"\n")?;
    Ok(())
}

/// Lines that are written one after another.
pub trait PrintedLines {
    /// The lines, each with its end.
    ghost lines: { Self → List (List ℕ) };

    /// How many there are.
    fn count(&self) -> usize
        ensures { result ≡ length (lines self.now) };

    /// Appends the line at an index, which begins at 0, with its end.
    fn append(&self, index: usize, text: &mut Vec<u8>) -> Result<(), NoMemory>
        requires { index < length (lines self.now) }
        ensures { OnOk result (IfSome (slice_get (lines self.now) index) (λ line.
            text.new.items ≡ text.old.items ++ line)) };
}

/// Writes some lines, each as `write_line` does. Where it fails, the lines before one, and maybe
/// the first bytes of that one, have been written.
#[tactic(auto, using(pair_io::proofs::Gains::gains))]
pub fn write_lines<L: PrintedLines, O: Sink>(
    lines: &L,
    text: &mut Vec<u8>,
    out: &mut O,
) -> Result<(), WriteRefused>
    ensures written { OnOk result (Gains (O.told out.old) (O.told out.new)
        (text_of (L.lines lines.now))) }
    ensures prefix { OnErr result (GainsPrefix (O.told out.old) (O.told out.new)
        (text_of (L.lines lines.now))) }
    ensures causes { IfErr result (WriteCauses (O.faults out.old) (O.faults out.new)) }
    ensures no_fault { OnOk result (O.faults out.new ≡ O.faults out.old) }
{
    for index in 0..lines.count() {
        write_at(lines, index, text, out)?;
    }
    Ok(())
}

// Writes the line at an index.
#[tactic(auto, using(pair_io::proofs::Gains::gains))]
fn write_at<L: PrintedLines, O: Sink>(
    lines: &L,
    index: usize,
    text: &mut Vec<u8>,
    out: &mut O,
) -> Result<(), WriteRefused>
    requires { index < length (L.lines lines.now) }
    ensures written { OnOk result (IfSome (slice_get (L.lines lines.now) index)
        (Gains (O.told out.old) (O.told out.new))) }
    ensures prefix { OnErr result (IfSome (slice_get (L.lines lines.now) index)
        (GainsPrefix (O.told out.old) (O.told out.new))) }
    ensures causes { IfErr result (WriteCauses (O.faults out.old) (O.faults out.new)) }
    ensures no_fault { OnOk result (O.faults out.new ≡ O.faults out.old) }
{
    text.clear();
    lines.append(index, text)?;
    write_all(out, text.as_slice())?;
    Ok(())
}
