ghost use Rattle.std.specs.Prelude.{◌+◌, ◌<◌, ◌≤◌, ◌^◌, length, IfOk};

use crate::way::Way;
use std::alloc::Global;
use std::fs::{Metadata, OpenFile};
use std::io;
use std::io::{Read, Seek, SeekFrom};
use std::os::unix::fs::MetadataExt;

// What the machine knows a file by, whatever its names.
#[derive(Clone, Copy, PartialEq, Eq)]
pub struct Node {
    device: u64,
    number: u64,
}

impl Node {
    pub fn of(metadata: &Metadata) -> Node {
        Node {
            device: metadata.dev(),
            number: metadata.ino(),
        }
    }
}

// A file that was opened once, with the names that it was asked for by.
#[derive(Drop)]
pub struct OpenedFile<F> {
    names: Vec<String>,
    node: Node,
    file: F,
    way: Way,
    // Where a read with room gave nothing.
    end: Option<u64>,
}

impl<F: Read + Seek + OpenFile + Drop> OpenedFile<F> {
    // A file of which nothing was read yet, without a name.
    pub fn new(alloc: Global, file: F) -> io::Result<Self> {
        let node = Node::of(&file.metadata()?);
        let mut file = file;
        let way = match file.seek(SeekFrom::Start(0)) {
            Ok(_) => Way::Sought { next: 0 },
            Err(_) => Way::Kept(Vec::new(alloc)),
        };
        Ok(OpenedFile {
            names: Vec::new(alloc),
            node,
            file,
            way,
            end: None,
        })
    }

    pub fn add_name(&mut self, alloc: Global, name: &str) -> io::Result<()> {
        self.names.push(String::from_str(alloc, name)?)?;
        Ok(())
    }

    pub fn has_name(&self, name: &str) -> bool {
        self.names.iter().any(|known| known.as_str() == name)
    }

    pub fn has_node(&self, node: Node) -> bool {
        self.node == node
    }

    // Reads from a place on, up to the end that was found.
    pub fn read_at(&mut self, at: u64, into: &mut [u8]) -> io::Result<usize>
        requires { at + length into.old < 2 ^ 64 }
        ensures { IfOk result (λ n. n ≤ length into.old) }
    {
        let room = room_before(self.end, at, into.len());
        if room == 0 {
            return Ok(0);
        }
        let count = self.way.read(&mut self.file, at, &mut into[..room])?;
        if count == 0 {
            self.end = Some(at);
        }
        Ok(count)
    }
}

// How much of the room from a place on lies before the end.
fn room_before(end: Option<u64>, at: u64, room: usize) -> usize
    ensures { result ≤ room }
{
    match end {
        Some(end) => room.min(end.saturating_sub(at) as usize),
        None => room,
    }
}
