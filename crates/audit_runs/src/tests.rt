use audit_top::{run, status};
use pair_io::{Bytes, FileList, MemFile, MemFiles, MemSink, NoMemory, NumberList, Text, WordList};
use sel_box::{Direction, Family, Packet};
use spd_lanes::Shared;
use std::alloc::Global;
use std::test::Fail;

// The files, each behind a line with its name.
const FILES: &str = "@ none
format = 1
@ lan
format = 1
line = [{ name = 'lan', action = 'bypass', direction = 'out', local = '10.0.0.0/8' }]
@ subnet
format = 1
[[line]]
name = 'sub'
action = 'protect'
ipsec = 'esp'
mode = 'transport'
local = '10.0.0.0/24'
pfp = ['local']
@ tcp
format = 1
line = [{ name = 'all', action = 'protect', ipsec = 'esp', mode = 'transport', protocol = 6 }]
@ west
format = 1
[[line]]
name = 'vpn'
action = 'protect'
ipsec = 'esp'
mode = 'tunnel'
local = '10.1.0.0/16'
remote = '10.2.0.0/16'
gate_local = '192.0.2.1'
gate_remote = '192.0.2.2'
@ east
format = 1
[[line]]
name = 'peer'
action = 'protect'
ipsec = 'esp'
mode = 'tunnel'
local = '10.2.0.0/16'
remote = '10.1.0.0/16'
gate_local = '192.0.2.2'
gate_remote = '192.0.2.1'
@ both
pkt out 10.0.0.1 192.0.2.1 6 40000 443
pkt in 192.0.2.1 10.0.0.1 6 443 40000
@ sources
pkt out 10.0.0.1 192.0.2.1 6 40000 443
pkt out 10.0.0.1 192.0.2.1 6 40000 443
pkt out 10.0.0.2 192.0.2.1 6 40000 443
pkt out 10.0.0.1 192.0.2.1 6 40000 443
@ offer
2d00001801000000070600100000ffff0a0000010a000001
0000001801000000070600100000ffffc0000201c0000201
@ leaves
agree
leaf 1 1
leaf 1 1
@ cut
pkt out 10.0.0.1 192.0.2.1 6 40000 443
pkt out 10.0.";

// The runs: behind `$` the words, and behind `!` the call that fails, by its number among those of
// its kind; then what has been written, what was reported, and the status. A file is read whole at
// once, and once more to find its end.
const RUNS: &str = "$ judge lan both ! read 1
error: word 2: cannot read
= 6
$ judge lan both ! read 2
error: word 2: cannot read
= 6
$ judge lan both ! read 4
error: word 3: cannot read
= 6
$ judge lan both ! write 1
error: cannot write
= 7
$ judge lan both ! write 2
1 bypass lan
error: cannot write
= 7
$ judge lan both ! write 3
1 bypass lan
2 discard final
error: cannot write
= 7
$ judge lan cut ! write 2
1 bypass lan
error: cannot write
= 7
$ judge lan cut ! report 1
1 bypass lan
= 4
$ judge lan ! report 1
= 2
$ decorrelate 10 lan ! write 2
SPD-S
error: cannot write
= 7
$ replay 100 4 subnet sources ! read 2
error: word 4: cannot read
= 6
$ replay 100 4 subnet sources ! read 4
error: word 5: cannot read
= 6
$ replay 100 4 subnet sources ! write 3
1 miss protect esp transport sub
2 hit protect esp transport sub
error: cannot write
= 7
$ narrow 100 tcp offer ! write 3
narrowed all
tsi 2d00001801000000070600100000ffff0a0000010a000001
error: cannot write
= 7
$ audit 100 west east ! write 3
agree
split src 10.0.255.255
error: cannot write
= 7
$ audit 100 west none ! write 2
differ
error: cannot write
= 7
$ audit 100 none none ! read 2
error: word 3: cannot read
= 6
$ audit 100 none none ! read 3
error: word 4: cannot read
= 6
$ check 1000 none none leaves ! read 6
error: word 5: cannot read
= 6
$ check 1000 none none leaves ! write 1
error: cannot write
= 7
";

fn bytes_of(alloc: Global, text: &str) -> Result<Bytes, NoMemory> {
    let mut bytes = Bytes::new(alloc);
    bytes.extend(text.as_bytes())?;
    Ok(bytes)
}

fn file_of(alloc: Global, name: &str, text: &str) -> Result<MemFile, NoMemory> {
    Ok(MemFile::new(bytes_of(alloc, name)?, bytes_of(alloc, text)?))
}

fn files(alloc: Global) -> Result<FileList, NoMemory> {
    let mut files = FileList::new(alloc);
    for file in FILES.split("@ ") {
        if let Some((name, content)) = file.split_once('\n') {
            files.push(file_of(alloc, name, content)?)?;
        }
    }
    Ok(files)
}

// The words of a text, between single spaces.
fn words_of(alloc: Global, text: &str) -> Result<WordList, NoMemory> {
    let mut list = WordList::new(alloc);
    for word in text.split(' ') {
        list.push(Text::new(alloc, word)?)?;
    }
    Ok(list)
}

// The number of the call that fails, where a failure is of this kind.
fn failing(alloc: Global, failure: &str, kind: &str) -> Result<NumberList, Fail> {
    let mut numbers = NumberList::new(alloc);
    if let Some(number) = failure.strip_prefix(kind) {
        numbers.push(number.parse()?)?;
    }
    Ok(numbers)
}

// Makes a run: what is written, what is reported, and the status.
fn ran(alloc: Global, call: &str, kept: &mut Option<Shared>) -> Result<String, Fail> {
    let (words, failure) = call.split_once(" ! ").unwrap_or((call, ""));
    let mut files = MemFiles::new(files(alloc)?, failing(alloc, failure, "read ")?);
    let mut out = MemSink::new(alloc, 1000, failing(alloc, failure, "write ")?)?;
    let mut err = MemSink::new(alloc, 100, failing(alloc, failure, "report ")?)?;
    let words = words_of(alloc, words)?;
    let ended = run(alloc, &words, &mut files, &mut out, &mut err, kept);
    let written = std::str::from_utf8(out.as_slice())?;
    let reported = std::str::from_utf8(err.as_slice())?;
    Ok(format!(in alloc; "{written}{reported}= {}\n", status(&ended))?)
}

#[test]
fn each_failure_ends_a_run_as_stated(rt: HostRuntime) -> Result<(), Fail> {
    for stated in RUNS.split("$ ") {
        if let Some((call, told)) = stated.split_once('\n') {
            let found = ran(rt.alloc(), call, &mut None)?;
            assert_eq!(rt; found.as_str(), told, "{call}");
        }
    }
    Ok(())
}

// Whether the machine answers a packet of this source from its cache.
fn is_hit(machine: &mut Shared, source: u128) -> Result<bool, Fail> {
    let packet = Packet::new(Family::Four, source, 0xc000_0201, 6, 40000, 443);
    let reply = machine.packet(Direction::Outbound, &packet.ok_or("no packet")?)?;
    Ok(reply.hit)
}

#[test]
fn the_kept_machine_answers_from_its_cache(rt: HostRuntime) -> Result<(), Fail> {
    let mut kept = None;
    ran(rt.alloc(), "replay 100 4 subnet sources", &mut kept)?;
    let mut machine = kept.ok_or("no machine is kept")?;
    // The trace has the first source, and not the second.
    assert!(rt; is_hit(&mut machine, 0x0a00_0002)?);
    assert!(rt; !is_hit(&mut machine, 0x0a00_0003)?);
    assert!(rt; is_hit(&mut machine, 0x0a00_0003)?);
    Ok(())
}
