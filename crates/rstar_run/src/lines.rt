//! The lines of an input.

ghost use Rattle.std.specs.Prelude.{◌≡◌, ◌+◌, ◌⊎◌, Ok, true, false, IfOk, IfErr, OnOk};
ghost use Rattle.std.specs.Io.Buffered.{reader_buffer};
ghost use Rattle.std.specs.Io.KnownBytes.{IsAtEnd};
ghost use Rattle.memchr.specs.Find.{IsFirstByte, is_byte};
ghost use Rattle.rstar_run.specs.Lines.{bytes_left, TakesLine};
ghost use Rattle.rstar_run.specs.Words.{without_end};

use super::source::{Source, input_stop};
use super::stops::Stop;
use super::words::without_end;
use memchr::memchr;
use std::alloc::Global;
use std::io::{BufRead, BufReader, Read};

/// The size of the read buffer: large enough that a long input takes few reads.
const MOST_READ: usize = 65536;

/// A reader of lines with one buffer, which counts them.
#[derive(Drop)]
pub struct Lines<R> {
    reader: BufReader<Source<R>>,
    line: Vec<u8>,
    number: u64,
}

impl<R: Read + Drop> Lines<R> {
    /// A reader at the start of an input.
    pub fn new(alloc: Global, input: R) -> Result<Lines<R>, Stop>
        ensures left { IfOk result (λ lines. bytes_left R.remaining lines ≡ R.remaining input) }
        ensures number { IfOk result (λ lines. lines.number ≡ 0) }
        ensures stop { IfErr result (λ stop. stop ≡ Stop.Memory) }
    {
        match BufReader::with_capacity(alloc, MOST_READ, Source(input)) {
            Ok(reader) => Ok(Lines {
                reader,
                line: Vec::new(alloc),
                number: 0,
            }),
            Err(_) => Err(Stop::Memory),
        }
    }

    /// The end of the next line in the buffer, where it is there without a read.
    pub fn next_end(&self) -> Option<usize>
        ensures { IsFirstByte (is_byte 10) (reader_buffer self.now.reader) result }
    {
        memchr(b'\n', self.reader.buffer())
    }

    /// Reads the next line, with the answer of `next_end`. False at the end of the input.
    pub fn advance(&mut self, end: Option<usize>) -> Result<bool, Stop>
        requires { IsFirstByte (is_byte 10) (reader_buffer self.old.reader) end }
        ensures line { result ≡ Ok true → TakesLine (bytes_left R.remaining self.old)
            (bytes_left R.remaining self.new) self.new.line.items }
        ensures number { IfOk result (λ _. self.new.number ≡ self.old.number + 1) }
        ensures end { result ≡ Ok false → IsAtEnd (bytes_left R.remaining self.old) }
        ensures stop { IfErr result (λ stop. (stop ≡ Stop.Memory) ⊎ (stop ≡ Stop.Input)) }
    {
        let Some(number) = self.number.checked_add(1) else {
            // More lines than can be numbered.
            return Err(Stop::Input);
        };
        self.number = number;
        match end {
            Some(end) => self.take_held(end),
            None => self.take_read(),
        }
    }

    /// Takes the next line from the buffer.
    fn take_held(&mut self, end: usize) -> Result<bool, Stop>
        requires { IsFirstByte (is_byte 10) (reader_buffer self.old.reader) (Some end) }
        ensures line { OnOk result (TakesLine (bytes_left R.remaining self.old)
            (bytes_left R.remaining self.new) self.new.line.items) }
        ensures more { IfOk result (λ more. more ≡ true) }
        ensures number { self.new.number ≡ self.old.number }
        ensures stop { IfErr result (λ stop. stop ≡ Stop.Memory) }
    {
        self.line.clear();
        let line = &self.reader.buffer()[..end + 1];
        self.line.extend_from_slice(line)?;
        self.reader.consume(end + 1);
        Ok(true)
    }

    /// Reads the next line to its end. False at the end of the input.
    fn take_read(&mut self) -> Result<bool, Stop>
        ensures line { result ≡ Ok true → TakesLine (bytes_left R.remaining self.old)
            (bytes_left R.remaining self.new) self.new.line.items }
        ensures end { result ≡ Ok false → IsAtEnd (bytes_left R.remaining self.old) }
        ensures number { self.new.number ≡ self.old.number }
        ensures stop { IfErr result (λ stop. (stop ≡ Stop.Memory) ⊎ (stop ≡ Stop.Input)) }
    {
        self.line.clear();
        match self.reader.read_until(b'\n', &mut self.line) {
            Ok(count) => Ok(count != 0),
            Err(e) => Err(input_stop(e)),
        }
    }

    /// The last line read, without its end.
    pub fn text(&self) -> &[u8]
        ensures { result.now ≡ without_end self.now.line.items }
    {
        without_end(&self.line)
    }

    /// The number of the last line asked for, from 1 on. Blank lines count.
    pub fn number(&self) -> u64
        ensures { result ≡ self.now.number }
    {
        self.number
    }
}
