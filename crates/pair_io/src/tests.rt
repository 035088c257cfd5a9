//! What no clause says: what files hold and writers get, and that a sink may fail.
use crate::way::read_some;
use crate::{Bytes, Failed, Files, LoadFault, RealFiles, RealSink, Sink, load, write_all};
use std::io::{ErrorKind, IsTerminal, Read, Write};
use std::os::fd::AsRawFd;
use std::test::Fail;
use std::{fs, io};

#[test]
fn reads_and_writes_the_machine(rt: HostRuntime) -> Result<(), Fail> {
    let mut sink = RealSink::new(fs::create(&rt, "trace")?);
    let mut written = Ok(());
    for _ in 0..3000u32 {
        written = written.and(write_all(&mut sink, b"pkt out 10.0.0.1 192.0.2.1 6 40000 443\n"));
    }
    let mut only_read = RealSink::new(fs::open(&rt, "trace")?);
    let refused = write_all(&mut only_read, b"pkt");
    let mut files = RealFiles::new(rt.alloc(), &rt);
    let loaded = load(rt.alloc(), &mut files, "trace", 117_000);
    let too_long = load(rt.alloc(), &mut files, "trace", 116_999);
    let content = fs::read(&rt, "trace");

    // The file is removed before anything is asserted, since a failed assertion ends the process.
    fs::remove_file(&rt, "trace")?;
    assert_eq!(rt; written, Ok(()));
    assert_eq!(rt; refused, Err(Failed));
    assert_eq!(rt; too_long.err(), Some(LoadFault::TooLong));
    let content = content?;
    assert_eq!(rt; content.len(), 117_000);
    assert_eq!(rt; loaded?.as_slice(), content.as_slice());
    let mut files = RealFiles::new(rt.alloc(), &rt);
    for name in ["trace", "."] {
        let unread = load(rt.alloc(), &mut files, name, 10).err();
        assert_eq!(rt; unread, Some(LoadFault::ReadFault), "{name}");
    }
    Ok(())
}

// Makes a file of so many bytes, all the same.
fn fill(rt: &HostRuntime, name: &str, byte: u8, count: usize) -> Result<(), Fail> {
    let text = vec![in rt.alloc(); byte; count]?;
    fs::write(rt, name, text.as_slice())?;
    Ok(())
}

// Whether a file was loaded as so many bytes, all the same.
fn is_filled(loaded: Result<Bytes, LoadFault>, byte: u8, count: usize) -> bool {
    match loaded {
        Ok(bytes) => bytes.len() == count && bytes.iter().all(|found| *found == byte),
        Err(_) => false,
    }
}

#[test]
fn a_name_stands_for_one_file(rt: HostRuntime) -> Result<(), Fail> {
    fill(&rt, "live", b'o', 200_000)?;
    fill(&rt, "next", b'n', 300_000)?;
    fs::hard_link(&rt, "live", "link")?;
    let mut files = RealFiles::new(rt.alloc(), &rt);
    let mut piece = [0u8; 65_536];
    let first = files.read("live", 0, &mut piece);
    fs::rename(&rt, "next", "live")?;

    // The file that was opened is read to its end, by each of its names. The other one is read by
    // who asks for the name from now on.
    let rest = files.read("live", 65_536, &mut piece);
    let loaded = load(rt.alloc(), &mut files, "live", 1_000_000);
    let linked = load(rt.alloc(), &mut files, "link", 1_000_000);
    let anew = load(
        rt.alloc(),
        &mut RealFiles::new(rt.alloc(), &rt),
        "live",
        1_000_000,
    );

    // What is written behind an end that was found isn't seen.
    fill(&rt, "link", b'o', 200_001)?;
    let longer = load(rt.alloc(), &mut files, "live", 1_000_000);
    fs::remove_file(&rt, "live")?;
    fs::remove_file(&rt, "link")?;
    assert_eq!(rt; first, Ok(65_536));
    assert_eq!(rt; rest, Ok(65_536));
    assert_eq!(rt; piece[65_535], b'o');
    assert!(rt; is_filled(loaded, b'o', 200_000));
    assert!(rt; is_filled(linked, b'o', 200_000));
    assert!(rt; is_filled(anew, b'n', 300_000));
    assert!(rt; is_filled(longer, b'o', 200_000));
    Ok(())
}

#[test]
fn a_pipe_is_read_in_order_and_kept(rt: HostRuntime) -> Result<(), Fail> {
    let (reader, mut writer) = io::pipe(&rt)?;
    writer.write_all(b"pkt out 10.0.0.1 192.0.2.1 6 40000 443\n")?;
    drop(writer);
    let number = reader.as_raw_fd();
    let name = format!(in rt.alloc(); "/proc/self/fd/{number}")?;
    let other_name = format!(in rt.alloc(); "/dev/fd/{number}")?;
    let mut files = RealFiles::new(rt.alloc(), &rt);

    // A place ahead first, then one that was passed, then one behind the end.
    let mut piece = [0u8; 8];
    assert_eq!(rt; files.read(name.as_str(), 8, &mut piece), Ok(8));
    assert_eq!(rt; &piece, b"10.0.0.1");
    assert_eq!(rt; files.read(name.as_str(), 0, &mut piece), Ok(8));
    assert_eq!(rt; &piece, b"pkt out ");
    assert_eq!(rt; files.read(name.as_str(), 36, &mut piece), Ok(3));
    assert_eq!(rt; files.read(name.as_str(), 40, &mut piece), Ok(0));
    for name in [name.as_str(), other_name.as_str()] {
        let loaded = load(rt.alloc(), &mut files, name, 39)?;
        assert!(rt; loaded.as_slice().ends_with(b" 40000 443\n"));
        let too_long = load(rt.alloc(), &mut files, name, 38);
        assert_eq!(rt; too_long.err(), Some(LoadFault::TooLong));
    }
    Ok(())
}

// A reader and writer that a signal interrupts twice before it does anything.
#[derive(Drop)]
struct Interrupted {
    left: u32,
}

impl Interrupted {
    fn interrupt(&mut self) -> io::Result<usize> {
        if self.left == 0 {
            return Ok(1);
        }
        self.left -= 1;
        Err(io::Error::from(ErrorKind::Interrupted))
    }
}

impl Read for Interrupted {
    fn read(&mut self, into: &mut [u8]) -> io::Result<usize> {
        Ok(self.interrupt()?.min(into.len()))
    }
}

impl Write for Interrupted {
    fn write(&mut self, bytes: &[u8]) -> io::Result<usize> {
        Ok(self.interrupt()?.min(bytes.len()))
    }

    fn flush(&mut self) -> io::Result<()> {
        Ok(())
    }
}

#[test]
fn tries_again_what_a_signal_interrupts(rt: HostRuntime) -> Result<(), Fail> {
    assert_eq!(rt; read_some(&mut Interrupted { left: 2 }, &mut [0u8; 4])?, 1);
    assert_eq!(rt; RealSink::new(Interrupted { left: 2 }).put(b"pkt"), Ok(1));
    Ok(())
}

// A writer that takes at most seven bytes at a time, and fails where it has no more room.
#[derive(Drop)]
struct SlowWriter<'a> {
    held: &'a mut Vec<u8>,
    room: usize,
    is_terminal: bool,
}

impl Write for SlowWriter<'_> {
    fn write(&mut self, bytes: &[u8]) -> io::Result<usize> {
        let room = self.room.saturating_sub(self.held.len());
        if room == 0 {
            return Err(io::Error::from(ErrorKind::StorageFull));
        }
        let count = bytes.len().min(room).min(7);
        self.held.extend_from_slice(&bytes[..count])?;
        Ok(count)
    }

    fn flush(&mut self) -> io::Result<()> {
        Ok(())
    }
}

impl IsTerminal for SlowWriter<'_> {
    fn is_terminal(&self) -> bool {
        self.is_terminal
    }
}

// Writes a text in short pieces, then in one that is longer than a block, then in short ones again.
fn write_thrice(sink: &mut RealSink<SlowWriter<'_>>, text: &[u8]) -> Result<(), Failed> {
    for piece in text.chunks(39) {
        write_all(sink, piece)?;
    }
    write_all(sink, text)?;
    for piece in text.chunks(41) {
        write_all(sink, piece)?;
    }
    Ok(())
}

#[test]
fn writes_in_blocks(rt: HostRuntime) -> Result<(), Fail> {
    let mut text = Vec::new(rt.alloc());
    for number in 0..20_000u32 {
        text.extend_from_slice(format!(in rt.alloc(); "pkt {number}\n")?.as_bytes())?;
    }
    let mut whole = Vec::new(rt.alloc());
    for _ in 0..3u32 {
        whole.extend_from_slice(text.as_slice())?;
    }

    assert_eq!(rt; whole.len(), 566_670);

    // The room that there is, and what writing and flushing then answer.
    for (room, written, flushed) in [
        (566_670, Ok(()), Ok(())),
        (566_669, Ok(()), Err(Failed)),
        (400_000, Err(Failed), Ok(())),
    ] {
        let mut held = Vec::new(rt.alloc());
        let mut sink = RealSink::in_blocks(SlowWriter {
            held: &mut held,
            room,
            is_terminal: false,
        });
        assert_eq!(rt; write_thrice(&mut sink, text.as_slice()), written, "{room}");
        assert_eq!(rt; sink.flush(), flushed, "{room}");
        assert_eq!(rt; sink.flush(), Ok(()), "{room}");
        drop(sink);
        assert_eq!(rt; held.len(), room);
        assert!(rt; whole.as_slice().starts_with(held.as_slice()), "{room}");
    }

    // A terminal has each piece at once.
    let mut held = Vec::new(rt.alloc());
    let mut sink = RealSink::in_blocks(SlowWriter {
        held: &mut held,
        room: 4,
        is_terminal: true,
    });
    assert_eq!(rt; write_all(&mut sink, b"pkt\n"), Ok(()));
    drop(sink);
    assert_eq!(rt; held.as_slice(), b"pkt\n".as_slice());
    Ok(())
}
