//! `pack` and `unpack`: stored trees from lines of points, and back.

ghost use Rattle.std.specs.Prelude.{◌≡◌, ◌++◌, IsErr, OnOk, IfOk, IfErr};
ghost use Rattle.std.specs.Io.KnownBytes.{Keeps};
ghost use Rattle.std.specs.List.Sorted.{IsPermutation};
ghost use Rattle.rstar.specs.Stored.{boxes, places};
ghost use Rattle.rstar.specs.Trees.{elements_in, IsWholeTree};
ghost use Rattle.rstar_run.specs.Prints.{AppendsFront, Prints, Tells};
ghost use Rattle.rstar_run.specs.declared.stops.Stop.TheVariants as stop;
ghost use Rattle.rstar_run.specs.declared.stored.Fault.TheVariants as fault;
ghost use Rattle.rstar_run.specs.Stored.{fault_text, fault_status, stored_text, Packs, Packed, Unpacks, Unpacked};

use super::answers::print_stop;
use super::points::{print_points, read_points};
use super::print::Printer;
use super::source::read_all;
use super::stops::{Stop, status};
use rstar::stored::{StoredError, read_stored, write_stored};
use rstar::{DefaultParams, RTree, RTreeParams};
use std::alloc::{AllocError, Global};
use std::io::{Read, Write};

/// Why a call ends with an error.
#[derive(Clone, Copy, Debug, PartialEq, Eq)]
pub enum Fault {
    /// The words after the program's name are no mode.
    Usage,
    /// A line is bad, memory was refused, or a read failed.
    Stop(Stop),
    /// A tree could not be read or written.
    Stored(StoredError),
}

impl From<Stop> for Fault {
    ghost from_gives = { λ why f. f ≡ fault.Stop why };

    fn from(stop: Stop) -> Fault {
        Fault::Stop(stop)
    }
}

impl From<StoredError> for Fault {
    ghost from_gives = { λ error f. f ≡ fault.Stored error };

    fn from(error: StoredError) -> Fault {
        Fault::Stored(error)
    }
}

impl From<AllocError> for Fault {
    ghost from_gives = { λ _ f. f ≡ fault.Stop stop.Memory };

    fn from(_e: AllocError) -> Fault {
        Fault::Stop(Stop::Memory)
    }
}

/// The error line of a tree that could not be read or written.
fn stored_text(error: StoredError) -> &'static [u8]
    ensures { result.now ≡ stored_text error }
{
    match error {
        StoredError::Truncated => b"error: Truncated\n",
        StoredError::BadMagic => b"error: BadMagic\n",
        StoredError::BadLevel => b"error: BadLevel\n",
        StoredError::BadBox => b"error: BadBox\n",
        StoredError::BadCount => b"error: BadCount\n",
        StoredError::Trailing => b"error: Trailing\n",
        StoredError::NoMemory => b"error: memory\n",
        StoredError::TooHigh => b"error: TooHigh\n",
    }
}

/// Prints the error line of a fault. After a failed write nothing more is written.
fn print_fault<W: Write>(printer: &mut Printer, output: &mut W, fault: Fault) -> Result<(), Stop>
    ensures all { OnOk result (Prints (W.contents output.old) (W.contents output.new)
        printer.old.held.items (fault_text fault) printer.new.held.items) }
    ensures front { AppendsFront (W.contents output.old) (W.contents output.new)
        (printer.old.held.items ++ fault_text fault) }
    ensures silent { fault ≡ Fault.Stop Stop.Output →
        IsErr result × Keeps (W.contents output.old) (W.contents output.new) }
    ensures failed { IfErr result (λ why. why ≡ Stop.Output) }
{
    match fault {
        Fault::Usage => printer.put(output, b"error: usage\n"),
        Fault::Stop(stop) => print_stop(printer, output, stop),
        Fault::Stored(error) => printer.put(output, stored_text(error)),
    }
}

/// The exit status of a fault.
fn fault_status(fault: Fault) -> u8
    ensures { result ≡ fault_status fault }
{
    match fault {
        Fault::Usage => 2,
        Fault::Stop(stop) => status(Err(stop)),
        Fault::Stored(StoredError::NoMemory) => 3,
        Fault::Stored(_) => 2,
    }
}

/// Writes all that is printed, and returns this status, or 4 where a write failed.
fn finish<W: Write>(
    printer: &mut Printer,
    output: &mut W,
    printed: Result<(), Stop>,
    status: u8,
) -> u8
    ensures all { OnOk printed (Tells (W.contents output.old) (W.contents output.new) printer.old.held.items
        status result) }
    ensures failed { IfErr printed (λ _. (result ≡ 4) × Keeps (W.contents output.old) (W.contents output.new)) }
{
    match printed {
        Ok(()) => match printer.flush(output) {
            Ok(()) => status,
            Err(_) => 4,
        },
        Err(_) => 4,
    }
}

/// Prints the error line of a fault, and returns its status, or 4 where a write failed.
pub fn refuse<W: Write>(fault: Fault, output: &mut W) -> u8
    ensures { Tells (W.contents output.old) (W.contents output.new) (fault_text fault) (fault_status fault) result }
{
    let mut printer = Printer::new();
    let printed = print_fault(&mut printer, output, fault);
    finish(&mut printer, output, printed, fault_status(fault))
}

/// The stored form of a bulk load of the points in the lines of an input.
fn packed<R: Read + Drop>(alloc: Global, input: R) -> Result<Vec<u8>, Fault>
    ensures { Packs (R.remaining input) result }
{
    let points = read_points(alloc, input)?;
    let tree = RTree::<[i64; 2]>::bulk_load(points)?;
    Ok(write_stored(&tree)?)
}

/// Writes the stored form of a bulk load of the points in the input's lines, and returns the exit status.
///
/// The status is 0, 2 after a bad line or where the tree is too high, 3 where memory was refused, and 4
/// where a read or a write failed. An error line is `error: line N`, `error: TooHigh`, `error: memory` or
/// `error: input`. After a failed write the output has a prefix of what it should have.
pub fn pack<R: Read + Drop, W: Write>(alloc: Global, input: R, output: &mut W) -> u8
    ensures { Packed (R.remaining input) (W.contents output.old) (W.contents output.new) result }
{
    match packed(alloc, input) {
        Ok(bytes) => {
            let mut printer = Printer::new();
            let printed = printer.put(output, &bytes);
            finish(&mut printer, output, printed, 0)
        }
        Err(fault) => refuse(fault, output),
    }
}

/// The points of a tree.
pub fn points_of(alloc: Global, tree: RTree<[i64; 2]>) -> Result<Vec<[i64; 2]>, AllocError>
    requires { IsWholeTree boxes places ⟦<DefaultParams as RTreeParams>⟧.MAX_SIZE tree }
    ensures { IfOk result (λ points. IsPermutation (elements_in tree) points.items) }
{
    match tree.into_iter() {
        Ok(all) => all.collect(alloc),
        Err(_) => Err(AllocError),
    }
}

/// The points of the stored tree in an input, ascending.
fn unpacked<R: Read + Drop>(alloc: Global, input: R) -> Result<Vec<[i64; 2]>, Fault>
    ensures { Unpacks (R.remaining input) result }
{
    let bytes = read_all(alloc, input)?;
    let tree = read_stored::<DefaultParams>(alloc, &bytes)?;
    let mut points = points_of(alloc, tree)?;
    points.sort_unstable();
    Ok(points)
}

/// Prints the points of the stored tree in an input, a line each, by x and then y, and returns the exit
/// status.
///
/// The status is 0, 2 where the input spells no tree, 3 where memory was refused, and 4 where a read or a
/// write failed. An error line is `error: ` and the fault of the bytes, `error: memory` or `error: input`.
/// After a failed write the output has a prefix of what it should have.
pub fn unpack<R: Read + Drop, W: Write>(alloc: Global, input: R, output: &mut W) -> u8
    ensures { Unpacked (R.remaining input) (W.contents output.old) (W.contents output.new) result }
{
    match unpacked(alloc, input) {
        Ok(points) => {
            let mut printer = Printer::new();
            let printed = print_points(&mut printer, output, &points);
            finish(&mut printer, output, printed, 0)
        }
        Err(fault) => refuse(fault, output),
    }
}
