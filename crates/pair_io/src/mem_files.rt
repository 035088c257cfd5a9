ghost use Rattle.std.specs.Prelude.{◌≡◌, ◌+◌, ◌-◌, ◌^◌, ◌<◌, ◌≤◌, ◌==◌, [], ◌∷◌, ◌++◌, min};
ghost use Rattle.std.specs.Prelude.{length, slice_get, position, is_none, OnOk, OnErr, IfSome};
ghost use Rattle.std.specs.Option.{option_copied};
ghost use Rattle.pair_io.specs.Reading.{Gives};
ghost use Rattle.pair_io.specs.Counts.{Rose, NoneFell};
ghost use Rattle.pair_io.specs.MemFiles.{has_name, file_of, content_of, faults_of};
ghost use Rattle.pair_io.specs.MemFiles.{with_fault, with_missing};

use crate::counts::{Handed, one_more};
use crate::{Bytes, Failed, Files, NumberList};
use lists::NoMemory;
use std::alloc::Global;
use std::marker::Model;

/// A file in memory: its name, as the bytes of a text, its bytes, and how often a read of it
/// failed.
#[derive(Debug, Drop)]
pub struct MemFile {
    name: Bytes,
    bytes: Bytes,
    faults: u64,
}

impl MemFile {
    ghost use Rattle.pair_io.specs.MemFiles.{file_name, file_bytes, file_faults};

    /// A file of which no read has failed. Takes no memory.
    pub fn new(name: Bytes, bytes: Bytes) -> Self
        ensures name { file_name result ≡ name }
        ensures bytes { file_bytes result ≡ bytes }
        ensures faults { file_faults result ≡ 0 }
    {
        MemFile {
            name,
            bytes,
            faults: 0,
        }
    }
}

/// Files in memory, in order. A contract sees the list of the files.
#[derive(Debug, Drop)]
pub struct FileList {
    files: Vec<MemFile>,
}

impl Model for FileList {
    ghost use Rattle.std.specs.Prelude.{List};
    ghost use Rattle.pair_io.specs.declared.mem_files.MemFile.{MemFile};

    ghost Value = { List MemFile };

    ghost view = { λ l. l.files.items };
}

impl FileList {
    /// The empty list. Takes no memory.
    pub fn new(alloc: Global) -> Self
        ensures { result ≡ [] }
    {
        FileList {
            files: Vec::new(alloc),
        }
    }

    /// Puts a file at the end, in constant time over many calls. Where there is no memory, the list
    /// is unchanged and the file is dropped.
    pub fn push(&mut self, item: MemFile) -> Result<(), NoMemory>
        ensures ok { OnOk result (self.new ≡ self.old ++ item ∷ []) }
        ensures err { OnErr result (self.new ≡ self.old) }
    {
        self.files.push(item)?;
        Ok(())
    }

    /// How many files there are.
    pub fn len(&self) -> usize
        ensures { result ≡ length self.now }
    {
        self.files.len()
    }

    /// Whether there is no file.
    pub fn is_empty(&self) -> bool
        ensures { result ≡ (length self.now == 0) }
    {
        self.files.is_empty()
    }

    /// The file at an index, which begins at 0; `None` past the end.
    pub fn get(&self, index: usize) -> Option<&MemFile>
        ensures { option_copied result ≡ slice_get self.now index }
    {
        self.files.get(index)
    }

    /// All files, in order.
    pub fn as_slice(&self) -> &[MemFile]
        ensures { result.now ≡ self.now }
    {
        self.files.as_slice()
    }
}

/// Files in memory, which tell their contents. The reads with listed numbers fail.
#[derive(Debug, Drop)]
pub struct MemFiles {
    files: Vec<MemFile>,
    failing: NumberList,
    calls: u64,
    missing: u64,
    handed: Handed,
}

impl Model for MemFiles {
    ghost use Rattle.pair_io.specs.MemFiles.{HeldFiles};

    ghost Value = { HeldFiles };

    ghost view = { λ m. record {
      files = m.files.items;
      failing = m.failing;
      calls = m.calls;
      missing = m.missing;
      taken = m.handed.taken;
      end = m.handed.end;
      dry = m.handed.dry;
    } };
}

impl MemFiles {
    ghost use Rattle.pair_io.specs.MemFiles.{HeldFiles};

    /// These files. A read fails where its number, from 1, is in `failing`, or where no file has
    /// the name; of two files with one name the first is read. Takes no memory.
    pub fn new(files: FileList, failing: NumberList) -> Self
        ensures told { ⟦<MemFiles as Files>⟧.told result ≡ content_of files }
        ensures new { result ≡ record {
          files = files;
          failing = failing;
          calls = 0;
          missing = 0;
          taken = 0;
          end = 0;
          dry = 0;
        } }
    {
        let FileList { files } = files;
        MemFiles {
            files,
            failing,
            calls: 0,
            missing: 0,
            handed: Handed::new(),
        }
    }

    // Counts a fault of a name: of the first file that has it, or of the names that no file has.
    fn count_fault(&mut self, name: &[u8])
        ensures { self.new ≡ record self.old {
          files = with_fault name.now self.old.files;
          missing = with_missing name.now self.old.files self.old.missing;
        } }
    {
        match first_index(&self.files, name) {
            Some(place) => {
                let file = &mut self.files[place];
                file.faults = one_more(file.faults);
            }
            None => self.missing = one_more(self.missing),
        }
    }
}

// The first file of a name.
fn first_named<'a>(files: &'a [MemFile], name: &[u8]) -> Option<&'a MemFile>
    ensures { option_copied result ≡ file_of files.now name.now }
{
    files.iter().find(|file| file.name.as_slice() == name)
}

// Copies what stands at a place into the slice, as much as there is and as fits.
fn copy_from(bytes: &[u8], at: u64, into: &mut [u8]) -> usize
    ensures count { result ≡ min (length into.old) (length bytes.now - at) }
    ensures gives { Gives at result into.new bytes.now }
{
    if at >= bytes.len() as u64 {
        return 0;
    }
    let rest = &bytes[at as usize..];
    let count = rest.len().min(into.len());
    into[..count].copy_from_slice(&rest[..count]);
    count
}

// The same of the first file of a name.
fn copy_named(files: &[MemFile], name: &[u8], at: u64, into: &mut [u8]) -> Option<usize>
    ensures found { is_none result ≡ is_none (file_of files.now name.now) }
    ensures count { IfSome result (λ n. IfSome (content_of files.now name.now) (λ content.
        n ≡ min (length into.old) (length content - at))) }
    ensures bound { IfSome result (λ n. n ≤ length into.old) }
    ensures gives { IfSome result (λ n.
        IfSome (content_of files.now name.now) (Gives at n into.new)) }
{
    let file = first_named(files, name)?;
    Some(copy_from(file.bytes.as_slice(), at, into))
}

// The index of the first file of a name.
fn first_index(files: &[MemFile], name: &[u8]) -> Option<usize>
    ensures { result ≡ position (has_name name.now) files.now }
{
    files.iter().position(|file| file.name.as_slice() == name)
}

impl Files for MemFiles {
    ghost use Rattle.std.specs.Prelude.{◌||◌, IfOk, is_err};
    ghost use Rattle.pair_io.specs.Counts.{one_more, is_listed};
    ghost use Rattle.pair_io.specs.Reading.{TookBy, EndedBy, RanDryBy};

    ghost told = { λ m. content_of m.files };

    ghost faults = { λ m. faults_of m.files m.missing };

    ghost taken = { λ m. m.taken };

    ghost end = { λ m. m.end };

    ghost dry = { λ m. m.dry };

    /// Gives as much as there is and as fits, or fails, where the call is listed or no file has the
    /// name. Takes no memory.
    #[tactic(auto, using(crate::proofs::Faults::fault_laws))]
    fn read(&mut self, name: &str, at: u64, into: &mut [u8]) -> Result<usize, Failed>
        requires { at + length into.old < 2 ^ 64 }
        ensures fails { is_err result ≡ (is_listed (one_more self.old.calls) self.old.failing
            || is_none (file_of self.old.files name.now)) }
        ensures whole { IfOk result (λ n. IfSome (content_of self.old.files name.now) (λ content.
            n ≡ min (length into.old) (length content - at))) }
        ensures content { IfOk result (λ n. IfSome (content_of self.old.files name.now)
            (Gives at n into.new)) }
        ensures ok { OnOk result (self.new ≡ record self.old {
          calls = one_more self.old.calls;
          taken = self.new.taken;
          end = self.new.end;
          dry = self.new.dry;
        }) }
        ensures err { OnErr result (self.new ≡ record self.old {
          calls = one_more self.old.calls;
          files = with_fault name.now self.old.files;
          missing = with_missing name.now self.old.files self.old.missing;
        }) }

        // What follows of contents and counts.
        ensures told { content_of self.new.files ≡ content_of self.old.files }
        ensures bound { IfOk result (λ n. n ≤ length into.old) }
        ensures cause { OnErr result (Rose
            (faults_of self.old.files self.old.missing name.now)
            (faults_of self.new.files self.new.missing name.now)) }
        ensures faults { NoneFell
            (faults_of self.old.files self.old.missing)
            (faults_of self.new.files self.new.missing) }
        ensures taken { TookBy result self.old.taken self.new.taken }
        ensures end { EndedBy at result self.old.end self.new.end }
        ensures dry { RanDryBy (length into.old) result self.old.dry self.new.dry }
    {
        self.calls = one_more(self.calls);
        if self.failing.as_slice().contains(&self.calls) {
            self.count_fault(name.as_bytes());
            return Err(Failed);
        }
        match copy_named(&self.files, name.as_bytes(), at, into) {
            Some(count) => {
                self.handed.note(at, into.len(), count);
                Ok(count)
            }
            None => {
                self.count_fault(name.as_bytes());
                Err(Failed)
            }
        }
    }
}
