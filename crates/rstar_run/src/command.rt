//! The parser of lines.

ghost use Rattle.std.specs.Prelude.{◌≡◌, ◌≢◌, ◌<◌, [], length, map, drop, IfSome, IfNone};
ghost use Rattle.std.specs.Option.{option_map};
ghost use Rattle.rstar_run.specs.Fronts.{word_at};
ghost use Rattle.rstar_run.specs.Grammar.{point_of, corners_of, verb_of, drain_of, command_of, line_of, entry_of, CanRun, IsFilled};
ghost use Rattle.rstar_run.specs.Words.{words_of};

use super::items::{Corners, Item, box_between, item_of};
use super::number::{signed, take_signed, take_unsigned, unsigned};
use super::words::{MOST_WORDS, is_blank, words};
use arrayvec::ArrayVec;
use rstar::replay::{Command, Query};

/// The first word of a line.
#[derive(Clone, Copy, Debug, PartialEq, Eq)]
pub enum Verb {
    Insert,
    Remove,
    RemoveAt,
    Pop,
    Drain,
    In,
    Hit,
    At,
    Within,
    Near,
    Size,
    Load,
}

/// A parsed line.
#[derive(Drop)]
pub enum Line {
    Blank,
    /// A command over the tree.
    Command(Command<Item>),
    /// Prints the number of rectangles.
    Size,
    /// Replaces all rectangles by a bulk load of this many, which the next lines list.
    Load(usize),
    Bad,
}

/// A parsed line inside a load.
#[derive(Drop)]
pub enum Entry {
    Blank,
    Item(Item),
    Bad,
}

fn parse_point(x: &[u8], y: &[u8]) -> Option<[i64; 2]>
    ensures { result ≡ point_of x.now y.now }
{
    Some([signed(x)?, signed(y)?])
}

fn parse_corners(x1: &[u8], y1: &[u8], x2: &[u8], y2: &[u8]) -> Option<Corners>
    ensures { result ≡ corners_of x1.now y1.now x2.now y2.now }
{
    Some(Corners {
        one: parse_point(x1, y1)?,
        other: parse_point(x2, y2)?,
    })
}

#[tactic(auto, using(crate::proofs::Commands::verb_none))]
fn parse_verb(word: &[u8]) -> Option<Verb>
    ensures { result ≡ verb_of word.now }
{
    match str::from_utf8(word).ok()? {
        "insert" => Some(Verb::Insert),
        "remove" => Some(Verb::Remove),
        "removeat" => Some(Verb::RemoveAt),
        "pop" => Some(Verb::Pop),
        "drain" => Some(Verb::Drain),
        "in" => Some(Verb::In),
        "hit" => Some(Verb::Hit),
        "at" => Some(Verb::At),
        "within" => Some(Verb::Within),
        "near" => Some(Verb::Near),
        "size" => Some(Verb::Size),
        "load" => Some(Verb::Load),
        _ => None,
    }
}

/// The drain of an area, `in` or `hit`, between two corners.
fn drain_of(area: &[u8], corners: Corners, most: usize) -> Option<Line>
    ensures is { result ≡ drain_of area.now corners most }
    ensures fit { IfSome result CanRun }
{
    let outline = box_between(corners);
    match str::from_utf8(area).ok()? {
        "in" => Some(Line::Command(Command::Drain(Query::In(outline), most))),
        "hit" => Some(Line::Command(Command::Drain(Query::Hit(outline), most))),
        _ => None,
    }
}

fn parse_command(verb: Verb, args: &[&[u8]]) -> Option<Line>
    ensures is { result ≡ command_of verb (map (λ word. word.now) args.now) }
    ensures fit { IfSome result CanRun }
{
    match (verb, args) {
        (Verb::Insert, [id, x1, y1, x2, y2]) => {
            let id = unsigned(id)?;
            Some(Line::Command(Command::Insert(item_of(id, parse_corners(x1, y1, x2, y2)?))))
        }
        (Verb::Remove, [id, x1, y1, x2, y2]) => {
            let id = unsigned(id)?;
            Some(Line::Command(Command::Remove(item_of(id, parse_corners(x1, y1, x2, y2)?))))
        }
        (Verb::RemoveAt, [x, y]) => {
            Some(Line::Command(Command::RemoveAtPoint(parse_point(x, y)?)))
        }
        (Verb::Pop, [x, y]) => Some(Line::Command(Command::PopNearest(parse_point(x, y)?))),
        (Verb::Drain, [area, x1, y1, x2, y2, most]) => {
            drain_of(
                area,
                parse_corners(x1, y1, x2, y2)?,
                unsigned(most)? as usize,
            )
        }
        (Verb::In, [x1, y1, x2, y2]) => {
            let area = box_between(parse_corners(x1, y1, x2, y2)?);
            Some(Line::Command(Command::Ask(Query::In(area))))
        }
        (Verb::Hit, [x1, y1, x2, y2]) => {
            let area = box_between(parse_corners(x1, y1, x2, y2)?);
            Some(Line::Command(Command::Ask(Query::Hit(area))))
        }
        (Verb::At, [x, y]) => Some(Line::Command(Command::Ask(Query::At(parse_point(x, y)?)))),
        (Verb::Within, [x, y, limit]) => {
            let query = Query::Within(parse_point(x, y)?, signed(limit)?);
            Some(Line::Command(Command::Ask(query)))
        }
        (Verb::Near, [x, y, most]) => {
            let command = Command::Neighbours(parse_point(x, y)?, unsigned(most)? as usize);
            Some(Line::Command(command))
        }
        (Verb::Size, []) => Some(Line::Size),
        (Verb::Load, [count]) => Some(Line::Load(unsigned(count)? as usize)),
        _ => None,
    }
}

/// The point in the first two words of a text, and the text after them.
#[inline(always)]
fn take_point(text: &[u8]) -> Option<([i64; 2], &[u8])>
    ensures point { option_map (λ taken. taken.0) result ≡ point_of (word_at text.now 0) (word_at text.now 1) }
    ensures rest { IfSome result (λ taken. words_of taken.1.now ≡ drop 2 (words_of text.now)) }
{
    let (x, text) = take_signed(text)?;
    let (y, text) = take_signed(text)?;
    Some(([x, y], text))
}

/// The corners in the first four words of a text, and the text after them.
fn take_corners(text: &[u8]) -> Option<(Corners, &[u8])>
    ensures corners { option_map (λ taken. taken.0) result ≡
        corners_of (word_at text.now 0) (word_at text.now 1) (word_at text.now 2) (word_at text.now 3) }
    ensures rest { IfSome result (λ taken. words_of taken.1.now ≡ drop 4 (words_of text.now)) }
{
    let (one, text) = take_point(text)?;
    let (other, text) = take_point(text)?;
    Some((Corners { one, other }, text))
}

/// The rectangle in a line of a load; `None` where the line is blank or bad.
fn parse_rectangle(text: &[u8]) -> Option<Entry>
    ensures found { IfSome result (λ entry. entry ≡ entry_of (words_of text.now)) }
    ensures filled { IfSome result IsFilled }
    ensures none { IfNone result (words_of text.now ≢ [] → Entry.Bad ≡ entry_of (words_of text.now)) }
{
    let (id, text) = take_unsigned(text)?;
    let (corners, text) = take_corners(text)?;
    if !is_blank(text) {
        return None;
    }
    Some(Entry::Item(item_of(id, corners)))
}

/// A parser of the words of a line.
#[derive(Drop)]
pub struct Parser<'a> {
    words: ArrayVec<&'a [u8], MOST_WORDS>,
}

impl<'a> Parser<'a> {
    /// The parser of a line; `None` where it has more words than any command.
    pub fn new(text: &'a [u8]) -> Option<Parser<'a>>
        ensures found { IfSome result (λ parser. map (λ word. word.now) parser.words.items ≡ words_of text.now) }
        ensures none { IfNone result (MOST_WORDS < length (words_of text.now)) }
    {
        let words = words(text)?;
        Some(Parser { words })
    }

    /// The parsed line.
    pub fn line(&self) -> Line
        ensures is { result ≡ line_of (map (λ word. word.now) self.now.words.items) }
        ensures fit { CanRun result }
    {
        match self.words.as_slice() {
            [] => Line::Blank,
            [word, args @ ..] => match parse_verb(word).and_then(|verb| parse_command(verb, args)) {
                Some(line) => line,
                None => Line::Bad,
            },
        }
    }
}

/// Parses a line without its end.
#[tactic(auto, using(crate::proofs::Commands::line_bad))]
pub fn parse_line(text: &[u8]) -> Line
    ensures is { result ≡ line_of (words_of text.now) }
    ensures fit { CanRun result }
{
    match Parser::new(text) {
        Some(parser) => parser.line(),
        None => Line::Bad,
    }
}

/// Parses a line of a load without its end.
#[inline(always)]
pub fn parse_entry(text: &[u8]) -> Entry
    ensures is { result ≡ entry_of (words_of text.now) }
    ensures filled { IsFilled result }
{
    match parse_rectangle(text) {
        Some(entry) => entry,
        None if is_blank(text) => Entry::Blank,
        None => Entry::Bad,
    }
}
