//! A buffer in front of the output.

ghost use Rattle.std.specs.Prelude.{◌≡◌, ◌++◌, [], decimal, OnOk, IfErr};
ghost use Rattle.std.specs.Fmt.{signed_decimal};
ghost use Rattle.std.specs.Io.KnownBytes.{Appends};
ghost use Rattle.rstar_run.specs.Prints.{AppendsFront, Prints};

use super::stops::Stop;
use arrayvec::ArrayVec;
use itoa::Buffer;
use std::io::{ErrorKind, Write};

/// The size of the buffer.
pub const MOST_HELD: usize = 8192;

/// A buffer of what is printed and not yet written. Each call borrows the output, so that a contract can say
/// what is written to it. After a failed write nothing more may be printed.
#[derive(Drop)]
pub struct Printer {
    pub held: ArrayVec<u8, MOST_HELD>,
}

impl Printer {
    /// An empty buffer.
    pub fn new() -> Printer
        ensures { result.held.items ≡ [] }
    {
        Printer {
            held: ArrayVec::new(),
        }
    }

    /// Prints a text. It takes no memory.
    pub fn put<W: Write>(&mut self, output: &mut W, text: &[u8]) -> Result<(), Stop>
        ensures all { OnOk result (Prints (W.contents output.old) (W.contents output.new)
            self.old.held.items text.now self.new.held.items) }
        ensures front { AppendsFront (W.contents output.old) (W.contents output.new)
            (self.old.held.items ++ text.now) }
        ensures stop { IfErr result (λ stop. stop ≡ Stop.Output) }
    {
        match self.held.try_extend_from_slice(text) {
            Ok(()) => Ok(()),
            Err(_) => self.put_behind(output, text),
        }
    }

    /// Prints a number in decimal digits.
    #[inline(always)]
    pub fn put_number<W: Write>(&mut self, output: &mut W, number: u64) -> Result<(), Stop>
        ensures all { OnOk result (Prints (W.contents output.old) (W.contents output.new)
            self.old.held.items (decimal number) self.new.held.items) }
        ensures front { AppendsFront (W.contents output.old) (W.contents output.new)
            (self.old.held.items ++ decimal number) }
        ensures stop { IfErr result (λ stop. stop ≡ Stop.Output) }
    {
        self.put(output, Buffer::new().format(number).as_bytes())
    }

    /// Prints a number in decimal digits, with a `-` in front where it is negative.
    pub fn put_signed<W: Write>(&mut self, output: &mut W, value: i64) -> Result<(), Stop>
        ensures all { OnOk result (Prints (W.contents output.old) (W.contents output.new)
            self.old.held.items (signed_decimal value) self.new.held.items) }
        ensures front { AppendsFront (W.contents output.old) (W.contents output.new)
            (self.old.held.items ++ signed_decimal value) }
        ensures stop { IfErr result (λ stop. stop ≡ Stop.Output) }
    {
        self.put(output, Buffer::new().format(value).as_bytes())
    }

    /// Writes the buffer and flushes the output.
    pub fn flush<W: Write>(&mut self, output: &mut W) -> Result<(), Stop>
        ensures all { OnOk result (Appends (W.contents output.old) (W.contents output.new) self.old.held.items) }
        ensures none { OnOk result (self.new.held.items ≡ []) }
        ensures front { AppendsFront (W.contents output.old) (W.contents output.new) self.old.held.items }
        ensures stop { IfErr result (λ stop. stop ≡ Stop.Output) }
    {
        self.write_held(output)?;
        match output.flush() {
            Ok(()) => Ok(()),
            Err(_) => Err(Stop::Output),
        }
    }

    /// Writes the buffer.
    fn write_held<W: Write>(&mut self, output: &mut W) -> Result<(), Stop>
        ensures all { OnOk result (Appends (W.contents output.old) (W.contents output.new) self.old.held.items) }
        ensures none { OnOk result (self.new.held.items ≡ []) }
        ensures front { AppendsFront (W.contents output.old) (W.contents output.new) self.old.held.items }
        ensures stop { IfErr result (λ stop. stop ≡ Stop.Output) }
    {
        write_out(output, self.held.as_slice())?;
        self.held.clear();
        Ok(())
    }

    /// Prints a text for which the buffer has no room left.
    #[cold]
    #[inline(never)]
    fn put_behind<W: Write>(&mut self, output: &mut W, text: &[u8]) -> Result<(), Stop>
        ensures all { OnOk result (Prints (W.contents output.old) (W.contents output.new)
            self.old.held.items text.now self.new.held.items) }
        ensures front { AppendsFront (W.contents output.old) (W.contents output.new)
            (self.old.held.items ++ text.now) }
        ensures stop { IfErr result (λ stop. stop ≡ Stop.Output) }
    {
        self.write_held(output)?;
        match self.held.try_extend_from_slice(text) {
            Ok(()) => Ok(()),
            // More than can be held at all.
            Err(_) => write_out(output, text),
        }
    }
}

/// Writes a whole text. After a failed write, a prefix of the text is written.
fn write_out<W: Write>(output: &mut W, text: &[u8]) -> Result<(), Stop>
    ensures all { OnOk result (Appends (W.contents output.old) (W.contents output.new) text.now) }
    ensures front { AppendsFront (W.contents output.old) (W.contents output.new) text.now }
    ensures stop { IfErr result (λ stop. stop ≡ Stop.Output) }
{
    let mut rest = text;
    for _ in 0..u64::MAX {
        if rest.is_empty() {
            return Ok(());
        }
        match output.write(rest) {
            Ok(0) => return Err(Stop::Output),
            Ok(count) => rest = &rest[count..],
            Err(e) => {
                if e.kind() != ErrorKind::Interrupted {
                    return Err(Stop::Output);
                }
            }
        }
    }
    Err(Stop::Output)
}
