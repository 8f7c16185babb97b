//! The desk and the sink over the files and the standard output of the machine.

ghost use Rattle.std.specs.Prelude.{◌≡◌, ◌≤◌, [], None, IfOk};
ghost use Rattle.outside.specs.Host.{IsWithinLimit, GivesWhole, HoldsMore};

use crate::desk::{Desk, Fetch, LONGEST_FILE};
use crate::sink::{Failed, Sink};
use std::alloc::Global;
use std::io::{ErrorKind, Read, Write};
use std::marker::Model;
use std::rt::Files;
use std::{fs, io};

/// The files of the machine. What they hold is not told.
#[derive(Drop)]
pub struct HostDesk<'a, R: Files> {
    rt: &'a R,
    faults: u64,
    fault_name: Option<String>,
}

impl<'a, R: Files> Model for HostDesk<'a, R> {
    ghost use Rattle.outside.specs.Host.{HostDeskView, name_kept};

    ghost Value = { HostDeskView };

    ghost view = { λ d. record { faults = d.faults; fault_name = name_kept d.fault_name } };
}

impl<'a, R: Files> HostDesk<'a, R> {
    /// A desk that opens files by their paths.
    pub fn new(rt: &'a R) -> HostDesk<'a, R>
        ensures { result ≡ record { faults = 0; fault_name = [] } }
    {
        HostDesk {
            rt,
            faults: 0,
            fault_name: None,
        }
    }
}

// All that a reader has left, where that is at most the longest file. std's loop tries a read
// that was interrupted again.
pub(crate) fn read_whole<F: Read + Drop>(alloc: Global, file: F) -> Result<Vec<u8>, Fetch>
    ensures limit { IsWithinLimit result }
    ensures bytes { GivesWhole (F.remaining file) result }
{
    let mut bytes = Vec::new(alloc);
    match file.take(LONGEST_FILE as u64 + 1).read_to_end(&mut bytes) {
        Ok(_) if bytes.len() > LONGEST_FILE => Err(Fetch::Long(bytes.len() as u64)),
        Ok(_) => Ok(bytes),
        Err(error) if error.kind() == ErrorKind::OutOfMemory => Err(Fetch::Memory),
        Err(_) => Err(Fetch::Failed),
    }
}

// The bytes of the file at a path.
fn read_file<R: Files>(rt: &R, alloc: Global, path: &str) -> Result<Vec<u8>, Fetch>
    ensures { IsWithinLimit result }
{
    match fs::open(rt, path) {
        Ok(file) => read_whole(alloc, file),
        Err(_) => Err(Fetch::Failed),
    }
}

impl<R: Files> Desk for HostDesk<'_, R> {
    ghost told = { λ d. record { files = None; faults = d.faults; fault_name = d.fault_name } };

    fn fetch(&mut self, alloc: Global, name: &str) -> Result<Vec<u8>, Fetch> {
        let asked = String::from_str(alloc, name)?;
        let result = read_file(self.rt, alloc, name);
        if let Err(Fetch::Failed) = result {
            self.faults += 1;
            self.fault_name = Some(asked);
        }
        result
    }
}

/// Standard output. What it holds is not told.
#[derive(Drop)]
pub struct HostSink<'a, R: Print> {
    rt: &'a R,
    puts: u64,
    faults: u64,
}

impl<'a, R: Print> Model for HostSink<'a, R> {
    ghost use Rattle.std.specs.Prelude.{◌≤◌};
    ghost use Rattle.outside.specs.Host.{HostSinkView};

    ghost Value = { HostSinkView };

    ghost view = { λ s. record { puts = s.puts; faults = s.faults } };

    ghost invariant = { λ s. s.faults ≤ s.puts };
}

impl<'a, R: Print> HostSink<'a, R> {
    /// A sink that writes to standard output.
    pub fn new(rt: &'a R) -> HostSink<'a, R>
        ensures { result ≡ record { puts = 0; faults = 0 } }
    {
        HostSink {
            rt,
            puts: 0,
            faults: 0,
        }
    }
}

// Writes all the bytes, or fails after a prefix of them. A write that takes nothing is a failure,
// and one that was interrupted is tried again.
fn write_whole<W: Write>(writer: &mut W, bytes: &[u8]) -> Result<(), Failed>
    ensures { HoldsMore (W.contents writer.old) (W.contents writer.new) bytes.now result }
{
    let mut done = 0;
    for _ in 0..u64::MAX {
        if done == bytes.len() {
            return Ok(());
        }
        match writer.write(&bytes[done..]) {
            Ok(0) => return Err(Failed),
            Ok(count) => done += count,
            Err(error) if error.kind() == ErrorKind::Interrupted => {}
            Err(_) => return Err(Failed),
        }
    }
    Err(Failed)
}

impl<R: Print> Sink for HostSink<'_, R> {
    ghost told = { λ s. record { held = None; puts = s.puts; faults = s.faults } };

    fn put(&mut self, bytes: &[u8]) -> Result<(), Failed> {
        self.puts += 1;
        let result = write_whole(&mut io::writer(self.rt), bytes);
        if result.is_err() {
            self.faults += 1;
        }
        result
    }
}

#[cfg(test)]
mod tests {
    use super::*;

    // Takes one byte in a turn, or meets this error. Behind the last turn it takes nothing.
    #[derive(Drop)]
    struct Turns<'a> {
        left: &'a [Option<ErrorKind>],
    }

    impl Turns<'_> {
        fn take_one(&mut self) -> io::Result<usize>
            ensures { IfOk result (λ count. count ≤ 1) }
        {
            let Some((turn, rest)) = self.left.split_first() else {
                return Ok(0);
            };
            self.left = rest;
            match turn {
                Some(kind) => Err(io::Error::from(*kind)),
                None => Ok(1),
            }
        }
    }

    impl Read for Turns<'_> {
        fn read(&mut self, buf: &mut [u8]) -> io::Result<usize> {
            if buf.is_empty() {
                Ok(0)
            } else {
                self.take_one()
            }
        }
    }

    impl Write for Turns<'_> {
        fn write(&mut self, buf: &[u8]) -> io::Result<usize> {
            if buf.is_empty() {
                Ok(0)
            } else {
                self.take_one()
            }
        }

        fn flush(&mut self) -> io::Result<()> {
            Ok(())
        }
    }

    fn read_len(rt: &HostRuntime, left: &[Option<ErrorKind>]) -> Result<usize, Fetch> {
        read_whole(rt.alloc(), Turns { left }).map(|bytes| bytes.len())
    }

    #[test]
    fn an_interruption_is_tried_again(rt: HostRuntime) {
        let again = Some(ErrorKind::Interrupted);
        let broken = Some(ErrorKind::Other);
        let cases: [(
            &[Option<ErrorKind>],
            Result<usize, Fetch>,
            Result<(), Failed>,
        ); 4] = [
            (&[again, None, again, again, None], Ok(2), Ok(())),
            (&[None, broken, None], Err(Fetch::Failed), Err(Failed)),
            (&[again, broken], Err(Fetch::Failed), Err(Failed)),
            (&[None], Ok(1), Err(Failed)),
        ];
        for (left, read, written) in cases {
            assert_eq!(rt; read_len(&rt, left), read);
            assert_eq!(rt; write_whole(&mut Turns { left }, b"ab"), written);
        }
    }
}
