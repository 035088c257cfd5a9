ghost use Rattle.std.specs.Prelude.{◌≤◌, ◌<◌, ◌+◌, ◌^◌, length, vec_len, IfOk};

use crate::opened_file::{Node, OpenedFile};
use std::alloc::Global;
use std::fs::{File, OpenFile};
use std::io::{Read, Seek};
use std::{fs, io, rt};

// The files that were opened so far, each with the names that were asked for.
#[derive(Drop)]
pub struct OpenedFiles<F> {
    alloc: Global,
    files: Vec<OpenedFile<F>>,
}

impl<F: Read + Seek + OpenFile + Drop> OpenedFiles<F> {
    pub fn new(alloc: Global) -> Self {
        OpenedFiles {
            alloc,
            files: Vec::new(alloc),
        }
    }

    // Reads the file that the name stands for since it was first asked for.
    pub fn read<R: rt::Files<File = F>>(
        &mut self,
        system: &R,
        name: &str,
        at: u64,
        into: &mut [u8],
    ) -> io::Result<usize>
        requires { at + length into.old < 2 ^ 64 }
        ensures { IfOk result (λ n. n ≤ length into.old) }
    {
        let place = match self.files.iter().position(|file| file.has_name(name)) {
            Some(place) => place,
            None => self.add_name(system, name)?,
        };
        self.files[place].read_at(at, into)
    }

    // Gives a new name to the file that it stands for now, and opens that where it isn't opened
    // yet. Says where the file is.
    fn add_name<R: rt::Files<File = F>>(&mut self, system: &R, name: &str) -> io::Result<usize>
        ensures { IfOk result (λ place. place < vec_len self.new.files) }
    {
        // A pipe without a writer would wait to be opened a second time.
        let node = Node::of(&fs::metadata(system, name)?);
        if let Some(place) = self.files.iter().position(|file| file.has_node(node)) {
            self.files[place].add_name(self.alloc, name)?;
            return Ok(place);
        }
        let mut file = OpenedFile::new(self.alloc, File::open(system, name)?)?;
        file.add_name(self.alloc, name)?;
        self.files.push(file)?;
        Ok(self.files.len() - 1)
    }
}
