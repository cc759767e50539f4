//! Replies and ends as text.

ghost use Rattle.std.specs.Prelude.{◌≡◌, ◌++◌, ℕ, List, codes, decimal, Err, IsErr, IfErr, OnOk};
ghost use Rattle.std.specs.Io.KnownBytes.{Keeps};
ghost use Rattle.rstar_run.specs.Prints.{AppendsFront, Prints, PrintsSome};
ghost use Rattle.rstar_run.specs.Texts.{list_text, id_text, neighbour_text, stop_text, HasNoText, SpellsReply};

use super::items::Item;
use super::print::Printer;
use super::stops::Stop;
use rstar::replay::Reply;
use std::io::Write;

/// An item of a printed list.
trait Listed {
    // Its text.
    ghost text_of: { Self → List ℕ };

    /// Prints the item. It takes no memory.
    fn print<W: Write>(&self, printer: &mut Printer, output: &mut W) -> Result<(), Stop>
        ensures all { OnOk result (Prints (W.contents output.old) (W.contents output.new)
            printer.old.held.items (text_of self.now) printer.new.held.items) }
        ensures front { AppendsFront (W.contents output.old) (W.contents output.new)
            (printer.old.held.items ++ text_of self.now) }
        ensures stop { IfErr result (λ stop. stop ≡ Stop.Output) };
}

/// A rectangle is printed as its ID.
impl Listed for Item {
    ghost text_of = { id_text };

    fn print<W: Write>(&self, printer: &mut Printer, output: &mut W) -> Result<(), Stop> {
        printer.put_number(output, self.data)
    }
}

/// A neighbour is printed as `ID:D`, with its squared distance.
impl Listed for (Item, i64) {
    ghost text_of = { neighbour_text };

    fn print<W: Write>(&self, printer: &mut Printer, output: &mut W) -> Result<(), Stop> {
        self.0.print(printer, output)?;
        printer.put(output, b":")?;
        printer.put_number(output, self.1.unsigned_abs())
    }
}

/// Prints the line of a reply. A refused reply prints nothing and returns `Stop::Memory`. It takes no
/// memory.
pub fn print_reply<W: Write>(
    printer: &mut Printer,
    output: &mut W,
    reply: Reply<Item>,
) -> Result<(), Stop>
    ensures printed { PrintsSome (SpellsReply reply) (W.contents output.old) (W.contents output.new)
        printer.old.held.items printer.new.held.items result }
    ensures silent { result ≡ Err Stop.Memory → HasNoText reply }
{
    match reply {
        Reply::Done => printer.put(output, b"ok\n"),
        Reply::Taken(Some(item)) => print_list(printer, output, &[item]),
        Reply::Taken(None) => printer.put(output, b"-\n"),
        Reply::Elements(items) => {
            let mut items = items;
            items.sort_unstable_by_key(
                |item: &Item| -> u64
                    ensures { result ≡ item.now.1 }
                { item.data },
            );
            print_list(printer, output, items.as_slice())
        }
        Reply::Neighbours(found) => print_list(printer, output, found.as_slice()),
        // Refusals: no line asks for what has another reply.
        _other => Err(Stop::Memory),
    }
}

/// Prints the line of a number.
pub fn print_number<W: Write>(
    printer: &mut Printer,
    output: &mut W,
    number: u64,
) -> Result<(), Stop>
    ensures printed { PrintsSome (λ text. text ≡ decimal number ++ codes "\n") (W.contents output.old)
        (W.contents output.new) printer.old.held.items printer.new.held.items result }
    ensures stop { IfErr result (λ stop. stop ≡ Stop.Output) }
{
    printer.put_number(output, number)?;
    printer.put(output, b"\n")
}

/// Prints a line of items with single spaces between them; `-` where there is none.
fn print_list<T: Listed, W: Write>(
    printer: &mut Printer,
    output: &mut W,
    items: &[T],
) -> Result<(), Stop>
    ensures all { OnOk result (Prints (W.contents output.old) (W.contents output.new)
        printer.old.held.items (list_text T.text_of items.now ++ codes "\n") printer.new.held.items) }
    ensures front { AppendsFront (W.contents output.old) (W.contents output.new)
        (printer.old.held.items ++ (list_text T.text_of items.now ++ codes "\n")) }
    ensures stop { IfErr result (λ stop. stop ≡ Stop.Output) }
{
    match items {
        [] => printer.put(output, b"-\n"),
        [first, rest @ ..] => {
            first.print(printer, output)?;
            for item in rest {
                printer.put(output, b" ")?;
                item.print(printer, output)?;
            }
            printer.put(output, b"\n")
        }
    }
}

/// Prints why a run stopped. After a failed write nothing more is written.
pub fn print_stop<W: Write>(printer: &mut Printer, output: &mut W, stop: Stop) -> Result<(), Stop>
    ensures all { OnOk result (Prints (W.contents output.old) (W.contents output.new)
        printer.old.held.items (stop_text stop) printer.new.held.items) }
    ensures front { AppendsFront (W.contents output.old) (W.contents output.new)
        (printer.old.held.items ++ stop_text stop) }
    ensures silent { stop ≡ Stop.Output → IsErr result × Keeps (W.contents output.old) (W.contents output.new) }
    ensures failed { IfErr result (λ why. why ≡ Stop.Output) }
{
    match stop {
        Stop::Line(line) => {
            printer.put(output, b"error: line ")?;
            printer.put_number(output, line)?;
            printer.put(output, b"\n")
        }
        Stop::Memory => printer.put(output, b"error: memory\n"),
        Stop::Input => printer.put(output, b"error: input\n"),
        Stop::Output => Err(Stop::Output),
    }
}
