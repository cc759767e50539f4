//! The bytes of an input.

ghost use Rattle.std.specs.Prelude.{◌≡◌, ◌≢◌, ◌⊎◌, ◌↔◌, IfOk, IfErr, IfSome};
ghost use Rattle.std.specs.Io.{ReadsAtMost};
ghost use Rattle.std.specs.Io.KnownBytes.{ReadConsumes};
ghost use Rattle.std.specs.IoError.{error_kind};

use super::stops::Stop;
use std::alloc::Global;
use std::io;
use std::io::{Error, ErrorKind, Read};

/// A reader that never reports a failed read as a refusal of memory.
#[derive(Drop)]
pub struct Source<R>(pub R);

impl<R: Read> Read for Source<R> {
    ghost remaining = { λ source. R.remaining source.0 };

    fn read(&mut self, buf: &mut [u8]) -> io::Result<usize>
        ensures bound { ReadsAtMost result buf.new }
        ensures bytes { ReadConsumes (R.remaining self.old.0) (R.remaining self.new.0) result buf.new }
        ensures kind { IfErr result (λ e. error_kind e ≢ ErrorKind.OutOfMemory) }
    {
        match self.0.read(buf) {
            Ok(count) => Ok(count),
            Err(e) => match e.kind() {
                ErrorKind::OutOfMemory => Err(Error::from(ErrorKind::Other)),
                _ => Err(e),
            },
        }
    }
}

/// Why an input could not be read. `OutOfMemory` comes only from the buffer.
pub fn input_stop(e: Error) -> Stop
    ensures either { (result ≡ Stop.Memory) ⊎ (result ≡ Stop.Input) }
    ensures memory { (result ≡ Stop.Memory) ↔ (error_kind e ≡ ErrorKind.OutOfMemory) }
{
    match e.kind() {
        ErrorKind::OutOfMemory => Stop::Memory,
        _ => Stop::Input,
    }
}

/// All bytes of an input.
pub fn read_all<R: Read + Drop>(alloc: Global, input: R) -> Result<Vec<u8>, Stop>
    ensures all { IfOk result (λ read. IfSome (R.remaining input) (λ bytes. read.items ≡ bytes)) }
    ensures stop { IfErr result (λ stop. (stop ≡ Stop.Memory) ⊎ (stop ≡ Stop.Input)) }
{
    let mut source = Source(input);
    let mut read = Vec::new(alloc);
    match source.read_to_end(&mut read) {
        Ok(_) => Ok(read),
        Err(e) => Err(input_stop(e)),
    }
}
