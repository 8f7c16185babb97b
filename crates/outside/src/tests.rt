//! A desk and a sink in memory that fail where they are told to, and those over the machine.

use crate::host::read_whole;
use crate::{
    Desk, Fetch, HostDesk, HostSink, LONGEST_FILE, MemoryDesk, MemorySink, Sink, machine_words,
};
use std::alloc::{AllocError, Global};
use std::env::{Env, FillError};
use std::io::{ErrorKind, Read};
use std::test::Fail;
use std::{fs, io};

fn blank_file(alloc: Global, len: usize) -> Result<Vec<u8>, AllocError> {
    vec![in alloc; b' '; len]
}

// Two files, one of them added twice.
fn add_files(desk: &mut MemoryDesk) -> Result<(), AllocError> {
    desk.add("file", b"older")?;
    desk.add("other", b"")?;
    desk.add("file", b"new")
}

fn add_long_files(desk: &mut MemoryDesk, alloc: Global) -> Result<(), AllocError> {
    desk.add("longest", &blank_file(alloc, LONGEST_FILE)?)?;
    desk.add("longer", &blank_file(alloc, LONGEST_FILE + 1)?)
}

// A desk with four files, whose second, fourth and ninth fetches fail.
fn some_desk(alloc: Global) -> Result<MemoryDesk, AllocError> {
    let mut desk = MemoryDesk::new(alloc);
    add_files(&mut desk)?;
    add_long_files(&mut desk, alloc)?;
    for call in [4, 2, 9, 4] {
        desk.fail_at(call)?;
    }
    Ok(desk)
}

// Whether the next fetch hands over so many bytes, or fails so, and how many have failed then.
fn fetches(
    desk: &mut MemoryDesk,
    alloc: Global,
    name: &str,
    want: Result<usize, Fetch>,
    faults: u64,
) -> bool {
    desk.faults() < 9
        && desk.fetch(alloc, name).map(|bytes| bytes.len()) == want
        && desk.faults() == faults
}

#[test]
fn memory_desks_fail_where_they_are_told_to(rt: HostRuntime) -> Result<(), Fail> {
    let alloc = rt.alloc();
    let mut desk = some_desk(alloc)?;
    for (name, want, faults) in [
        ("file", Ok(3), 0),
        ("file", Err(Fetch::Failed), 1),
        ("missing", Err(Fetch::Failed), 2),
        ("missing", Err(Fetch::Failed), 3),
        ("other", Ok(0), 3),
        ("longest", Ok(1_048_576), 3),
        ("longer", Err(Fetch::Long(1_048_577)), 3),
        ("file", Ok(3), 3),
        ("longer", Err(Fetch::Failed), 4),
    ] {
        assert!(rt; fetches(&mut desk, alloc, name, want, faults), "{name}");
    }
    Ok(())
}

fn some_sink(alloc: Global) -> Result<MemorySink, AllocError> {
    let mut sink = MemorySink::new(alloc, 12)?;
    for (call, taken) in [(5, 1), (2, 1), (3, 99), (3, 0), (7, 3)] {
        sink.fail_at(call, taken)?;
    }
    Ok(sink)
}

// Whether the next put is taken or not, and what the sink holds then.
fn takes(sink: &mut MemorySink, piece: &str, taken: bool, bytes: &str) -> bool {
    sink.puts() < 9
        && sink.put(piece.as_bytes()).is_ok() == taken
        && sink.bytes() == bytes.as_bytes()
}

#[test]
fn memory_sinks_fail_where_they_are_told_to(rt: HostRuntime) -> Result<(), Fail> {
    let mut sink = some_sink(rt.alloc())?;
    for (piece, taken, bytes) in [
        ("abc", true, "abc"),
        ("def", false, "abcd"),
        ("ef", false, "abcdef"),
        ("", true, "abcdef"),
        ("", false, "abcdef"),
        ("ghij", true, "abcdefghij"),
        ("klmn", false, "abcdefghijkl"),
        ("m", false, "abcdefghijkl"),
        ("", true, "abcdefghijkl"),
    ] {
        assert!(rt; takes(&mut sink, piece, taken, bytes), "{piece}");
    }
    assert!(rt; sink.puts() == 9);
    assert!(rt; sink.faults() == 5);
    Ok(())
}

fn write_files(rt: &HostRuntime) -> Result<(), Fail> {
    let alloc = rt.alloc();
    fs::write(rt, "empty", "")?;
    fs::write(rt, "longest", &blank_file(alloc, LONGEST_FILE)?)?;
    fs::write(rt, "longer", &blank_file(alloc, LONGEST_FILE + 1)?)?;
    Ok(())
}

fn remove_files(rt: &HostRuntime) -> Result<(), Fail> {
    for name in ["empty", "longest", "longer"] {
        fs::remove_file(rt, name)?;
    }
    Ok(())
}

// How many bytes of a file of the machine are handed over.
fn fetched(rt: &HostRuntime, name: &str) -> Result<usize, Fetch> {
    HostDesk::new(rt)
        .fetch(rt.alloc(), name)
        .map(|bytes| bytes.len())
}

#[test]
fn files_of_the_machine_are_handed_over_whole(rt: HostRuntime) -> Result<(), Fail> {
    write_files(&rt)?;
    for (name, want) in [
        ("empty", Ok(0)),
        ("longest", Ok(1_048_576)),
        ("longer", Err(Fetch::Long(1_048_577))),
        ("missing", Err(Fetch::Failed)),
        (".", Err(Fetch::Failed)),
    ] {
        assert_eq!(rt; fetched(&rt, name), want, "{name}");
    }
    remove_files(&rt)
}

#[test]
fn standard_output_takes_pieces(rt: HostRuntime) {
    let mut sink = HostSink::new(&rt);
    assert_eq!(rt; sink.put(b"written\n"), Ok(()));
    assert_eq!(rt; sink.put(b""), Ok(()));
}

// A file whose reads end so.
#[derive(Drop)]
struct Broken(ErrorKind);

impl Read for Broken {
    fn read(&mut self, _buf: &mut [u8]) -> io::Result<usize> {
        Err(io::Error::from(self.0))
    }
}

#[test]
fn broken_reads_are_told_apart(rt: HostRuntime) -> Result<(), Fail> {
    for (kind, want) in [
        (ErrorKind::OutOfMemory, Fetch::Memory),
        (ErrorKind::InvalidData, Fetch::Failed),
        (ErrorKind::UnexpectedEof, Fetch::Failed),
    ] {
        assert!(rt; read_whole(rt.alloc(), Broken(kind)).err() == Some(want));
    }
    Ok(())
}

// A machine with the words between the spaces of a text.
#[derive(Drop)]
struct Words<'a>(&'a [u8]);

impl Env for Words<'_> {
    fn arg(&self, i: usize, buf: &mut [u8]) -> Result<usize, FillError> {
        let Some(word) = self.0.split(|b| *b == b' ').nth(i) else {
            return Err(FillError::NotPresent);
        };
        let Some(room) = buf.get_mut(..word.len()) else {
            return Err(FillError::TooLong);
        };
        room.copy_from_slice(word);
        Ok(word.len())
    }

    fn var(&self, _name: &str, _buf: &mut [u8]) -> Result<usize, FillError> {
        Err(FillError::NotPresent)
    }

    fn var_at(&self, _i: usize, _buf: &mut [u8]) -> Result<usize, FillError> {
        Err(FillError::NotPresent)
    }
}

// The words that a machine hands over, each behind a bar.
fn handed_over(alloc: Global, words: &[u8]) -> Result<String, AllocError> {
    let mut text = String::new(alloc);
    for word in &machine_words(alloc, &Words(words))? {
        text.push('|')?;
        text.push_str(word)?;
    }
    Ok(text)
}

#[test]
fn words_are_those_behind_the_name(rt: HostRuntime) -> Result<(), Fail> {
    for (words, want) in [
        (b"planner".as_slice(), ""),
        (b"planner validate  tank", "|validate||tank"),
        (b"\xff validate", "|validate"),
        (b"planner validate \xff", ""),
    ] {
        assert!(rt; handed_over(rt.alloc(), words)?.as_str() == want, "{want}");
    }
    Ok(())
}

#[test]
fn a_long_word_is_handed_over_whole(rt: HostRuntime) -> Result<(), Fail> {
    let alloc = rt.alloc();
    let mut words = Vec::from_slice(alloc, b"planner ")?;
    words.extend_from_slice(&vec![in alloc; b'w'; 1000]?)?;
    assert_eq!(rt; handed_over(alloc, &words)?.len(), 1001);
    Ok(())
}
