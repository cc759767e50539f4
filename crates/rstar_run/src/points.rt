//! Points, a line each.

ghost use Rattle.std.specs.Prelude.{◌≡◌, ◌++◌, map, OnOk, IfErr};
ghost use Rattle.rstar_run.specs.Points.{ReadsPoints, point_line_of, point_text, points_text, spot_of};
ghost use Rattle.rstar_run.specs.Prints.{AppendsFront, Prints};
ghost use Rattle.rstar_run.specs.Words.{words_of};

use super::lines::Lines;
use super::number::signed;
use super::print::Printer;
use super::stops::Stop;
use super::words::words;
use rstar::Point;
use std::alloc::Global;
use std::io::{Read, Write};

/// A parsed line of a list of points.
#[derive(Clone, Copy, Debug, PartialEq, Eq)]
pub enum PointLine {
    Blank,
    Point([i64; 2]),
    Bad,
}

/// The point of two words.
fn parse_spot(x: &[u8], y: &[u8]) -> Option<PointLine>
    ensures { result ≡ spot_of x.now y.now }
{
    Some(PointLine::Point([signed(x)?, signed(y)?]))
}

/// The parsed line of these words.
#[tactic(auto, using(crate::proofs::PointLines::lent_bad))]
fn parse_point_words(words: &[&[u8]]) -> PointLine
    ensures { result ≡ point_line_of (map (λ word. word.now) words.now) }
{
    match words {
        [] => PointLine::Blank,
        [x, y] => match parse_spot(x, y) {
            Some(line) => line,
            None => PointLine::Bad,
        },
        _ => PointLine::Bad,
    }
}

/// Parses a line of a list of points, without its end.
#[tactic(auto, using(crate::proofs::PointLines::long_bad))]
pub fn parse_point_line(text: &[u8]) -> PointLine
    ensures { result ≡ point_line_of (words_of text.now) }
{
    match words(text) {
        Some(words) => parse_point_words(words.as_slice()),
        None => PointLine::Bad,
    }
}

/// The points in the lines of an input.
pub fn read_points<R: Read + Drop>(alloc: Global, input: R) -> Result<Vec<[i64; 2]>, Stop>
    ensures { ReadsPoints (R.remaining input) result }
{
    let mut lines = Lines::new(alloc, input)?;
    let mut points = Vec::new(alloc);
    for _ in 0..u64::MAX {
        let next_end = lines.next_end();
        if !lines.advance(next_end)? {
            return Ok(points);
        }
        match parse_point_line(lines.text()) {
            PointLine::Blank => {}
            PointLine::Point(point) => points.push(point)?,
            PointLine::Bad => return Err(Stop::Line(lines.number())),
        }
    }
    // More lines than can be numbered.
    Err(Stop::Input)
}

/// Prints the line of a point.
fn print_point<W: Write>(
    printer: &mut Printer,
    output: &mut W,
    point: &[i64; 2],
) -> Result<(), Stop>
    ensures all { OnOk result (Prints (W.contents output.old) (W.contents output.new)
        printer.old.held.items (point_text point.now) printer.new.held.items) }
    ensures front { AppendsFront (W.contents output.old) (W.contents output.new)
        (printer.old.held.items ++ point_text point.now) }
    ensures stop { IfErr result (λ stop. stop ≡ Stop.Output) }
{
    let x = point.nth(0);
    let y = point.nth(1);
    printer.put_signed(output, x)?;
    printer.put(output, b" ")?;
    printer.put_signed(output, y)?;
    printer.put(output, b"\n")
}

/// Prints points, a line each.
pub fn print_points<W: Write>(
    printer: &mut Printer,
    output: &mut W,
    points: &[[i64; 2]],
) -> Result<(), Stop>
    ensures all { OnOk result (Prints (W.contents output.old) (W.contents output.new)
        printer.old.held.items (points_text points.now) printer.new.held.items) }
    ensures front { AppendsFront (W.contents output.old) (W.contents output.new)
        (printer.old.held.items ++ points_text points.now) }
    ensures stop { IfErr result (λ stop. stop ≡ Stop.Output) }
{
    for point in points {
        print_point(printer, output, point)?;
    }
    Ok(())
}
