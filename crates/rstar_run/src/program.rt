//! What `main` calls: the mode, and the run.

ghost use Rattle.std.specs.Prelude.{◌≡◌, ◌+◌, ◌++◌, ℕ, List, [], Ok, Err, true, false, IsErr, OnOk, IfOk, IfErr, map, string_bytes};
ghost use Rattle.std.specs.Io.KnownBytes.{Appends, IsAtEnd, Keeps};
ghost use Rattle.rstar.specs.Lists.{NoneEmpty};
ghost use Rattle.rstar.specs.Steps.{IsFit};
ghost use Rattle.rstar_run.specs.Items.{Reply, StoreStep, questions};
ghost use Rattle.rstar_run.specs.Lines.{bytes_left, TakesLine};
ghost use Rattle.rstar_run.specs.Modes.{mode_of};
ghost use Rattle.rstar_run.specs.Prints.{AppendsFront, Prints, Printed, PrintsSome};
ghost use Rattle.rstar_run.specs.Runs.{IsNoLine, ReadsLoad, StepSays, Turn, RunSays, Ran};
ghost use Rattle.rstar_run.specs.Texts.{HasNoText, end_text};

use super::answers::{print_number, print_reply, print_stop};
use super::command::{Entry, Line, parse_entry, parse_line};
use super::items::Item;
use super::lines::Lines;
pub use super::modes::Mode;
use super::modes::mode_named;
use super::print::Printer;
use super::stops::{Stop, status};
use super::store::Store;
pub use super::stored::{pack, unpack};
use rstar::replay::Command;
use std::alloc::Global;
use std::io::{Read, Write};
use std::mem::forget;

/// The mode that the words after the program's name ask for: no word for a run, `pack` or `unpack` alone.
#[tactic(auto, using(crate::proofs::Arguments::mode_none))]
pub fn mode(words: &[String]) -> Option<Mode>
    ensures { result ≡ mode_of (map string_bytes words.now) }
{
    match words {
        [] => Some(Mode::Run),
        [word] => mode_named(word),
        _ => None,
    }
}

/// Writes what is printed, where the next line may have to be waited for.
fn show_before_reading<W: Write>(
    next_end: Option<usize>,
    printer: &mut Printer,
    output: &mut W,
) -> Result<(), Stop>
    ensures all { OnOk result (Prints (W.contents output.old) (W.contents output.new)
        printer.old.held.items [] printer.new.held.items) }
    ensures front { AppendsFront (W.contents output.old) (W.contents output.new) printer.old.held.items }
    ensures stop { IfErr result (λ stop. stop ≡ Stop.Output) }
{
    match next_end {
        Some(_) => Ok(()),
        None => printer.flush(output),
    }
}

/// Reads the next line, after `show_before_reading`. False at the end of the input.
fn next_line<R: Read + Drop, W: Write>(
    lines: &mut Lines<R>,
    printer: &mut Printer,
    output: &mut W,
) -> Result<bool, Stop>
    ensures line { result ≡ Ok true → TakesLine (bytes_left R.remaining lines.old)
        (bytes_left R.remaining lines.new) lines.new.line.items }
    ensures number { IfOk result (λ _. lines.new.number ≡ lines.old.number + 1) }
    ensures end { result ≡ Ok false → IsAtEnd (bytes_left R.remaining lines.old) }
    ensures stop { IfErr result IsNoLine }
    ensures shown { Printed result (W.contents output.old) (W.contents output.new)
        printer.old.held.items [] printer.new.held.items }
{
    let next_end = lines.next_end();
    show_before_reading(next_end, printer, output)?;
    lines.advance(next_end)
}

/// Reads the lines of a load of this many rectangles. The list grows with the lines read.
fn read_load<R: Read + Drop, W: Write>(
    alloc: Global,
    count: usize,
    lines: &mut Lines<R>,
    printer: &mut Printer,
    output: &mut W,
) -> Result<Vec<Item>, Stop>
    ensures load { ReadsLoad count (bytes_left R.remaining lines.old) (bytes_left R.remaining lines.new)
        lines.old.number lines.new.number result }
    ensures filled { IfOk result (λ items. NoneEmpty questions.is_empty questions.box_of items.items) }
    ensures shown { Printed result (W.contents output.old) (W.contents output.new)
        printer.old.held.items [] printer.new.held.items }
{
    let mut items = Vec::new(alloc);
    for _ in 0..u64::MAX {
        if items.len() == count {
            return Ok(items);
        }
        if !next_line(lines, printer, output)? {
            return Err(Stop::Line(lines.number()));
        }
        match parse_entry(lines.text()) {
            Entry::Blank => {}
            Entry::Item(item) => items.push(item)?,
            Entry::Bad => return Err(Stop::Line(lines.number())),
        }
    }
    // More lines than can be numbered.
    Err(Stop::Input)
}

/// Runs a command and prints its reply.
fn run_command<W: Write>(
    store: &mut Store,
    command: Command<Item>,
    printer: &mut Printer,
    output: &mut W,
) -> Result<(), Stop>
    requires { IsFit questions 2 command }
    ensures printed { PrintsSome (λ text. StepSays command store.old text store.new) (W.contents output.old)
        (W.contents output.new) printer.old.held.items printer.new.held.items result }
    ensures silent { result ≡ Err Stop.Memory → (reply : Reply) × StoreStep store.old command reply store.new
        × HasNoText reply }
{
    let reply = store.step(command);
    print_reply(printer, output, reply)
}

/// Reads the next line and answers it. False at the end of the input.
fn answer_next<R: Read + Drop, W: Write>(
    alloc: Global,
    lines: &mut Lines<R>,
    store: &mut Store,
    printer: &mut Printer,
    output: &mut W,
) -> Result<bool, Stop>
    ensures { Turn (bytes_left R.remaining lines.old) (bytes_left R.remaining lines.new) lines.old.number
        lines.new.number store.old store.new (W.contents output.old) (W.contents output.new)
        printer.old.held.items printer.new.held.items result }
{
    if !next_line(lines, printer, output)? {
        return Ok(false);
    }
    match parse_line(lines.text()) {
        Line::Blank => Ok(true),
        Line::Bad => Err(Stop::Line(lines.number())),
        Line::Size => {
            print_number(printer, output, store.size() as u64)?;
            Ok(true)
        }
        Line::Load(count) => {
            let list = read_load(alloc, count, lines, printer, output)?;
            run_command(store, Command::Load(list), printer, output)?;
            Ok(true)
        }
        Line::Command(command) => {
            run_command(store, command, printer, output)?;
            Ok(true)
        }
    }
}

/// Answers each line of the input, over an empty store.
fn answer_all<R: Read + Drop, W: Write>(
    alloc: Global,
    input: R,
    store: &mut Store,
    printer: &mut Printer,
    output: &mut W,
) -> Result<(), Stop>
    requires { store.old ≡ [] }
    ensures { (said : List ℕ) × RunSays (R.remaining input) result said × Printed result (W.contents output.old)
        (W.contents output.new) printer.old.held.items said printer.new.held.items }
{
    let mut lines = Lines::new(alloc, input)?;
    for _ in 0..u64::MAX {
        if !answer_next(alloc, &mut lines, store, printer, output)? {
            return Ok(());
        }
    }
    // More lines than can be numbered.
    Err(Stop::Input)
}

/// Prints why a run stopped, and writes all that is printed.
fn close<W: Write>(
    printer: &mut Printer,
    output: &mut W,
    ended: Result<(), Stop>,
) -> Result<(), Stop>
    ensures all { OnOk result (Appends (W.contents output.old) (W.contents output.new)
        (printer.old.held.items ++ end_text ended)) }
    ensures front { AppendsFront (W.contents output.old) (W.contents output.new)
        (printer.old.held.items ++ end_text ended) }
    ensures silent { ended ≡ Err Stop.Output →
        IsErr result × Keeps (W.contents output.old) (W.contents output.new) }
    ensures failed { IfErr result (λ why. why ≡ Stop.Output) }
{
    match ended {
        Ok(()) => printer.flush(output),
        Err(stop) => {
            print_stop(printer, output, stop)?;
            printer.flush(output)
        }
    }
}

/// Answers each line of the input on the output, and returns the exit status.
///
/// The status is 0 at the end of the input, 2 after a bad line, 3 where memory was refused, and 4 where a
/// read or a write failed. The output has the answers to the lines before, and then `error: line N`, `error:
/// memory` or `error: input`. After a failed write it has a prefix of that.
pub fn run<R: Read + Drop, W: Write>(alloc: Global, input: R, output: &mut W) -> u8
    ensures { Ran (R.remaining input) (W.contents output.old) (W.contents output.new) result }
{
    let mut printer = Printer::new();
    let mut store = Store::new(alloc);
    let ended = answer_all(alloc, input, &mut store, &mut printer, output);
    // The program ends here, and its memory with it: a drop would only go to each node once more.
    forget(store);
    match close(&mut printer, output, ended) {
        Ok(()) => status(ended),
        Err(_) => 4,
    }
}
