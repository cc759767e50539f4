//! The words of a line.

ghost use Rattle.std.specs.Prelude.{◌≡◌, ◌<◌, ◌↔◌, [], length, map, IsTrue, IfSome, IfNone};
ghost use Rattle.rstar_run.specs.Fronts.{after_spaces};
ghost use Rattle.rstar_run.specs.Words.{words_of, without_end};

use arrayvec::ArrayVec;

/// The most words of a command.
pub const MOST_WORDS: usize = 8;

/// A line without its LF, and without a CR right before that.
pub fn without_end(line: &[u8]) -> &[u8]
    ensures { result.now ≡ without_end line.now }
{
    match line {
        [text @ .., b'\r', b'\n'] | [text @ .., b'\n'] => text,
        text => text,
    }
}

/// A text without its leading spaces.
pub fn after_spaces(text: &[u8]) -> &[u8]
    ensures { result.now ≡ after_spaces text.now }
{
    let mut rest = text;
    while let [b' ', tail @ ..] = rest {
        rest = tail;
    }
    rest
}

/// Whether a text has no word.
#[tactic(auto, using(crate::proofs::Fronts::blank))]
pub fn is_blank(text: &[u8]) -> bool
    ensures { IsTrue result ↔ (words_of text.now ≡ []) }
{
    after_spaces(text).is_empty()
}

/// The words of a line; `None` where there are more than any command has.
pub fn words(text: &[u8]) -> Option<ArrayVec<&[u8], MOST_WORDS>>
    ensures found { IfSome result (λ words. map (λ word. word.now) words.items ≡ words_of text.now) }
    ensures none { IfNone result (MOST_WORDS < length (words_of text.now)) }
{
    let mut words = ArrayVec::new();
    for word in text.split(|byte| *byte == b' ') {
        if !word.is_empty() {
            if words.is_full() {
                return None;
            }
            words.push(word);
        }
    }
    Some(words)
}
