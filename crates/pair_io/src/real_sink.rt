ghost use Rattle.std.specs.Prelude.{◌≡◌, ◌≤◌, ◌<◌, [], length, take, Ok, OnOk, OnErr, IfOk};
ghost use Rattle.std.specs.Prelude.{cond, is_err};
ghost use Rattle.std.specs.Io.KnownBytes.{Appends, WriteAppends, append_known};
ghost use Rattle.pair_io.specs.Counts.{one_more};

use crate::counts::one_more;
use crate::{Failed, Sink};
use arrayvec::ArrayVec;
use std::io;
use std::io::{ErrorKind, IsTerminal, Write};
use std::marker::Model;

// The most bytes that wait.
const BLOCK: usize = 65_536;

// Bytes that were taken and not yet written, in order.
type Block = ArrayVec<u8, BLOCK>;

// When a piece is written.
#[derive(Debug, Drop)]
enum Pace {
    AtOnce,
    InBlocks(Block),
}

/// A writer of the machine. It tells no text. A contract sees its count of faults.
///
/// Where a write fails, what waited is dropped, so that no byte is written twice or late. What
/// still waits when the sink itself is dropped is lost: call `flush` first. A sink is a value of a
/// block's size, 65,536 bytes, and takes no other memory.
#[derive(Debug, Drop)]
pub struct RealSink<W> {
    writer: W,
    pace: Pace,
    faults: u64,
}

impl<W> Model for RealSink<W> {
    ghost use Rattle.std.specs.Prelude.{ℕ};

    ghost Value = { ℕ };

    ghost view = { λ s. s.faults };
}

impl<W: Write> RealSink<W> {
    /// A sink that writes and flushes each piece at once; its count of faults is 0.
    pub fn new(writer: W) -> Self
        ensures { result ≡ 0 }
    {
        RealSink::at_pace(writer, Pace::AtOnce)
    }

    /// A sink that gathers pieces in a block, and writes the block at `flush` and where the next
    /// piece doesn't fit behind the others. A piece longer than a block is written by itself,
    /// without a copy. Into a terminal it writes as one of `new` does. Its count of faults is 0.
    pub fn in_blocks(writer: W) -> Self
    where
        W: IsTerminal,
        ensures { result ≡ 0 }
    {
        let pace = if writer.is_terminal() {
            Pace::AtOnce
        } else {
            Pace::InBlocks(ArrayVec::new())
        };
        RealSink::at_pace(writer, pace)
    }

    fn at_pace(writer: W, pace: Pace) -> Self
        ensures { result ≡ 0 }
    {
        RealSink {
            writer,
            pace,
            faults: 0,
        }
    }
}

// Writes the first bytes of a piece and flushes them, so that what was taken has left this program.
fn write_some<W: Write>(writer: &mut W, piece: &[u8]) -> io::Result<usize>
    ensures bound { IfOk result (λ n. n ≤ length piece.now) }
    ensures progress { IfOk result (λ n. 0 < length piece.now → 0 < n) }
    ensures written { IfOk result (λ n.
        Appends (W.contents writer.old) (W.contents writer.new) (take n piece.now)) }
{
    let count = write_once(writer, piece)?;
    if count == 0 && !piece.is_empty() {
        return Err(io::Error::from(ErrorKind::WriteZero));
    }
    writer.flush()?;
    Ok(count)
}

// Writes the first bytes of a piece, and tries again where a signal interrupted it.
fn write_once<W: Write>(writer: &mut W, piece: &[u8]) -> io::Result<usize>
    ensures bound { IfOk result (λ n. n ≤ length piece.now) }
    ensures bytes { WriteAppends (W.contents writer.old) (W.contents writer.new) result piece.now }
{
    for _ in 0..u32::MAX {
        match writer.write(piece) {
            Err(error) if error.kind() == ErrorKind::Interrupted => {}
            answer => return answer,
        }
    }
    Err(io::Error::from(ErrorKind::Interrupted))
}

// Writes all that waits and flushes it. Nothing waits afterwards, also where the writer failed.
fn write_out<W: Write>(writer: &mut W, waiting: &mut Block) -> io::Result<()>
    ensures empty { waiting.new.items ≡ [] }
    ensures written { OnOk result
        (Appends (W.contents writer.old) (W.contents writer.new) waiting.old.items) }
{
    let written = writer.write_all(waiting.as_slice());
    waiting.clear();
    written?;
    writer.flush()
}

// Takes a piece behind what waits, which is written first where the piece doesn't fit behind it.
// The first bytes of a piece longer than a block are written by themselves. Where a write fails,
// nothing waits.
fn gather<W: Write>(writer: &mut W, waiting: &mut Block, piece: &[u8]) -> io::Result<usize>
    ensures bound { IfOk result (λ n. n ≤ length piece.now) }
    ensures progress { IfOk result (λ n. 0 < length piece.now → 0 < n) }
    ensures order { IfOk result (λ n. Appends
        (append_known (W.contents writer.old) waiting.old.items)
        (append_known (W.contents writer.new) waiting.new.items)
        (take n piece.now)) }
    ensures dropped { OnErr result (waiting.new.items ≡ []) }
{
    if piece.len() > waiting.remaining_capacity() {
        write_out(writer, waiting)?;
        if piece.len() > BLOCK {
            return write_some(writer, piece);
        }
    }
    waiting.try_extend_from_slice(piece).unwrap();
    Ok(piece.len())
}

// An answer of the machine, of which a failure counts a fault.
fn counted<T>(answer: io::Result<T>, faults: &mut u64) -> Result<T, Failed>
    ensures fails { is_err result ≡ is_err answer }
    ensures value { IfOk result (λ value. answer ≡ Ok value) }
    ensures count { faults.new ≡ cond (is_err result) (one_more faults.old) faults.old }
{
    match answer {
        Ok(value) => Ok(value),
        Err(_) => {
            *faults = one_more(*faults);
            Err(Failed)
        }
    }
}

impl<W: Write> Sink for RealSink<W> {
    ghost use Rattle.std.specs.Prelude.{None};

    ghost told = { λ _. None };

    ghost faults = { λ s. s };

    /// Takes time in proportion to the piece and, where it writes them, to the bytes that wait. The
    /// count of faults rises at each `Err`, and then alone.
    fn put(&mut self, piece: &[u8]) -> Result<usize, Failed>
        ensures bound { IfOk result (λ n. n ≤ length piece.now) }
        ensures progress { IfOk result (λ n. 0 < length piece.now → 0 < n) }
        ensures count { self.new ≡ cond (is_err result) (one_more self.old) self.old }
    {
        let taken = match &mut self.pace {
            Pace::AtOnce => write_some(&mut self.writer, piece),
            Pace::InBlocks(waiting) => gather(&mut self.writer, waiting, piece),
        };
        counted(taken, &mut self.faults)
    }

    /// Writes the bytes that wait and flushes the writer, in time in proportion to them. The count
    /// of faults rises at each `Err`, and then alone.
    fn flush(&mut self) -> Result<(), Failed>
        ensures count { self.new ≡ cond (is_err result) (one_more self.old) self.old }
    {
        let written = match &mut self.pace {
            Pace::AtOnce => Ok(()),
            Pace::InBlocks(waiting) => write_out(&mut self.writer, waiting),
        };
        counted(written, &mut self.faults)
    }
}
