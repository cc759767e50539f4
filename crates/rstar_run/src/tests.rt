//! Rows of lines, of packing, of commands and of stored bytes, and what they share: readers and writers that fail.

mod commands;
mod format;
mod lines;
mod packing;

use memchr::memchr;
use std::alloc::Global;
use std::cell::Cell;
use std::io;
use std::io::{Cursor, Error, ErrorKind, Read, Write};
use std::process::Abort;

fn expect_written(rt: &impl Abort, taken: &Cursor<[u8; 256]>, want: &str, input: &[u8]) {
    let length = usize::try_from(taken.position()).unwrap_or(0);
    let written = taken.get_ref().get(..length).unwrap_or(&[]);
    assert_eq!(rt; written, want.as_bytes(), "at {input:?}");
}

/// Asks for a list of a size that nothing else asks for: `scripts/refuse_memory.sh` counts the allocations after one such, up
/// to the next.
fn mark(alloc: Global) {
    let _list = Vec::<u8>::with_capacity(alloc, 10007).is_ok();
}

/// Gives at most so many of its bytes at a read, and none beyond the end of a line; then it is at its end, or fails. It
/// counts the bytes that it gave.
#[derive(Drop)]
struct Feed<'a> {
    bytes: &'a [u8],
    most: usize,
    fails: Option<ErrorKind>,
    given: &'a Cell<usize>,
}

impl Read for Feed<'_> {
    fn read(&mut self, buf: &mut [u8]) -> io::Result<usize> {
        if self.bytes.is_empty() {
            return match self.fails {
                Some(kind) => Err(Error::from(kind)),
                None => Ok(0),
            };
        }
        let end = match memchr(b'\n', self.bytes) {
            Some(at) => at + 1,
            None => self.bytes.len(),
        };
        let mut piece = &self.bytes[..end.min(self.most)];
        let count = piece.read(buf)?;
        self.given.set(self.given.get().saturating_add(count));
        self.bytes = self.bytes.get(count..).unwrap_or(&[]);
        Ok(count)
    }
}

/// Takes this many writes and then fails. It counts the calls, and what was written at the last flush.
#[derive(Drop)]
struct Terminal<'a> {
    good: usize,
    calls: &'a Cell<usize>,
    shown: &'a Cell<u64>,
    taken: Cursor<[u8; 256]>,
}

impl Write for Terminal<'_> {
    fn write(&mut self, buf: &[u8]) -> io::Result<usize> {
        let calls = self.calls.get();
        self.calls.set(calls.saturating_add(1));
        if calls >= self.good {
            return Err(Error::from(ErrorKind::PermissionDenied));
        }
        self.taken.write(buf)
    }

    fn flush(&mut self) -> io::Result<()> {
        self.shown.set(self.taken.position());
        Ok(())
    }
}
