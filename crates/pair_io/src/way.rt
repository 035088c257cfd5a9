ghost use Rattle.std.specs.Prelude.{◌≡◌, ◌+◌, ◌-◌, ◌<◌, ◌≤◌, ◌^◌, drop, length, min, take, IfOk};
ghost use Rattle.std.specs.Io.{StartsWith};
ghost use Rattle.std.specs.Io.KnownBytes.{ReadConsumes};

use std::io;
use std::io::{ErrorKind, Read, Seek, SeekFrom};

// How the places of an open file are reached.
#[derive(Drop)]
pub enum Way {
    // By seeking; the file's next byte is at a place.
    Sought { next: u64 },
    // In order; all that was read is kept.
    Kept(Vec<u8>),
    // In order; the file's next byte is at a place, and what was read is gone.
    Passed { next: u64 },
}

impl Way {
    // Reads from a place on. What comes in order is kept as long as there is memory for it.
    pub fn read<F: Read + Seek>(
        &mut self,
        file: &mut F,
        at: u64,
        into: &mut [u8],
    ) -> io::Result<usize>
        requires { at + length into.old < 2 ^ 64 }
        ensures { IfOk result (λ n. n ≤ length into.old) }
    {
        if let Way::Kept(kept) = self {
            match keep_until(file, kept, at + into.len() as u64) {
                Ok(()) => return Ok(copy_from(kept, at, into)),
                Err(error) if error.kind() == ErrorKind::OutOfMemory => {
                    let next = kept.len() as u64;
                    *self = Way::Passed { next };
                }
                Err(error) => return Err(error),
            }
        }
        self.read_file(file, at, into)
    }

    // Reads the file itself, from a place on.
    fn read_file<F: Read + Seek>(
        &mut self,
        file: &mut F,
        at: u64,
        into: &mut [u8],
    ) -> io::Result<usize>
        requires { at + length into.old < 2 ^ 64 }
        ensures { IfOk result (λ n. n ≤ length into.old) }
    {
        let next = match self {
            Way::Sought { next } => {
                if *next != at {
                    file.seek(SeekFrom::Start(at))?;
                }
                next
            }
            Way::Passed { next } if *next == at => next,
            _ => return Err(io::Error::from(ErrorKind::NotSeekable)),
        };
        let count = read_some(file, into)?;
        *next = at + count as u64;
        Ok(count)
    }
}

// Reads on until so many bytes are kept, or the file ends.
fn keep_until<F: Read>(file: &mut F, kept: &mut Vec<u8>, most: u64) -> io::Result<()>
    ensures { StartsWith kept.new.items kept.old.items }
{
    let missing = most.saturating_sub(kept.len() as u64);
    file.by_ref().take(missing).read_to_end(kept)?;
    Ok(())
}

// Copies the bytes from a place on, as many as there are and as fit.
fn copy_from(kept: &[u8], at: u64, into: &mut [u8]) -> usize
    ensures count { result ≡ min (length kept.now - at) (length into.old) }
    ensures bytes { take result into.new ≡ take result (drop at kept.now) }
{
    let rest = kept.get(at as usize..).unwrap_or(&[]);
    let count = rest.len().min(into.len());
    into[..count].copy_from_slice(&rest[..count]);
    count
}

// Reads some bytes, and tries again where a signal interrupted it.
pub fn read_some<F: Read>(file: &mut F, into: &mut [u8]) -> io::Result<usize>
    ensures bound { IfOk result (λ n. n ≤ length into.old) }
    ensures bytes { ReadConsumes (F.remaining file.old) (F.remaining file.new) result into.new }
{
    for _ in 0..u32::MAX {
        match file.read(into) {
            Err(error) if error.kind() == ErrorKind::Interrupted => {}
            answer => return answer,
        }
    }
    Err(io::Error::from(ErrorKind::Interrupted))
}
