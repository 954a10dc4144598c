//! For tests: a trace and its reports, and readers and writers that transfer one byte at a time and fail.

use std::alloc::Global;
use std::io;
use std::io::{ErrorKind, Read, Write};

/// One packet, polled by a softirq.
pub const ONE_PACKET: &str = "moment,device,event,value\n0,1,open,4\n1,1,rx,100\n2,0,softirq,0\n";

/// The report of that packet by one thread, with and without shared instances.
pub const ONE_PACKET_REPORT: &str = "softirq 3 polls 1 work 1 squeezed 0
device 1 on arrived 1 dropped 0 polled 1 bytes 100 left 0 polls 1
napi 1 granted 1 missed 0 disabled 0 again 0 released 1 word 0
list
total devices 1 runs 1 polls 1 work 1 squeezed 0
";

/// The report of that packet with threads.
pub const ONE_PACKET_THREADS: &str = "device 1 arrived 1 bytes 100\ntotal devices 1\n";

/// Returns whether this is the beginning of a text, and as many bytes.
pub fn begins(text: &str, written: &[u8], count: usize) -> bool {
    written.len() == count && text.as_bytes().starts_with(written)
}

/// A reader that returns one byte at a time, and fails at one of its reads.
#[derive(Drop)]
pub struct FailingReader {
    bytes: &'static [u8],
    before: usize,
}

impl FailingReader {
    /// Returns a reader of this text that fails after this many reads.
    pub fn new(text: &'static str, before: usize) -> FailingReader {
        FailingReader {
            bytes: text.as_bytes(),
            before,
        }
    }
}

impl Read for FailingReader {
    fn read(&mut self, buf: &mut [u8]) -> io::Result<usize> {
        if self.before == 0 {
            return Err(ErrorKind::Other.into());
        }
        self.before -= 1;
        if self.bytes.is_empty() || buf.is_empty() {
            return Ok(0);
        }
        buf[0] = self.bytes[0];
        self.bytes = &self.bytes[1..];
        Ok(1)
    }
}

/// A writer that takes one byte at a time, and fails at one of its writes.
#[derive(Drop)]
pub struct FailingWriter {
    /// The bytes that were written.
    pub taken: Vec<u8>,
    before: usize,
}

impl FailingWriter {
    /// Returns a writer that fails after this many writes.
    pub fn new(alloc: Global, before: usize) -> FailingWriter {
        FailingWriter {
            taken: Vec::new(alloc),
            before,
        }
    }
}

impl Write for FailingWriter {
    fn write(&mut self, buf: &[u8]) -> io::Result<usize> {
        if self.before == 0 {
            return Err(ErrorKind::Other.into());
        }
        self.before -= 1;
        if buf.is_empty() {
            return Ok(0);
        }
        self.taken.push(buf[0])?;
        Ok(1)
    }

    fn flush(&mut self) -> io::Result<()> {
        Ok(())
    }
}

/// A reader that returns a first part, and then the same bytes again and again, up to this many bytes in all.
#[derive(Drop)]
pub struct LongReader<'a> {
    /// The first part.
    pub front: &'static [u8],
    /// The bytes that are repeated after it.
    pub again: &'static [u8],
    /// How many bytes are left.
    pub left: u64,
    /// How many bytes were read.
    pub given: &'a mut u64,
}

impl Read for LongReader<'_> {
    fn read(&mut self, buf: &mut [u8]) -> io::Result<usize> {
        if self.front.is_empty() {
            self.front = self.again;
        }
        let left = self.left.min(buf.len() as u64) as usize;
        let count = self.front.len().min(left);
        buf[..count].copy_from_slice(&self.front[..count]);
        self.front = &self.front[count..];
        self.left -= count as u64;
        *self.given = self.given.saturating_add(count as u64);
        Ok(count)
    }
}
