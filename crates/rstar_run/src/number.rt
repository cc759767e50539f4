//! The parser of numbers.

ghost use Rattle.std.specs.Prelude.{◌≡◌, ◌≤◌, ◌↔◌, ◌++◌, [], length, drop, IsTrue, IfSome, if◌then◌else◌};
ghost use Rattle.std.specs.Option.{option_map};
ghost use Rattle.std.specs.Str.Parse.{digits_value};
ghost use Rattle.rstar_run.specs.Fronts.{first_word, after_word, leading_digits, word_at};
ghost use Rattle.rstar_run.specs.Numerals.{unsigned_of, signed_of, has_minus, plain, negated};
ghost use Rattle.rstar_run.specs.Words.{words_of};

use super::words::after_spaces;

/// Up to this many digits fit a `u64`.
const SAFE_DIGITS: usize = 19;

/// The number that decimal digits spell, where it fits a `u64`.
pub fn unsigned(word: &[u8]) -> Option<u64>
    ensures { result ≡ unsigned_of word.now }
{
    if word.is_empty() {
        return None;
    }
    let mut value = 0u64;
    for byte in word {
        if !byte.is_ascii_digit() {
            return None;
        }
        let digit = *byte - b'0';
        value = value.checked_mul(10)?.checked_add(u64::from(digit))?;
    }
    Some(value)
}

/// The number that decimal digits spell, with an optional `-` in front, where it fits an `i64`.
pub fn signed(word: &[u8]) -> Option<i64>
    ensures { result ≡ signed_of word.now }
{
    let (is_negative, digits) = take_minus(word);
    with_sign(is_negative, unsigned(digits)?)
}

/// The number of the leading digits of a text, where they are at most `SAFE_DIGITS`, and the text after
/// them.
fn take_digits(text: &[u8]) -> (u64, &[u8])
    ensures value { length (leading_digits text.now) ≤ SAFE_DIGITS → result.0 ≡ digits_value 10 (leading_digits text.now) }
    ensures rest { text.now ≡ leading_digits text.now ++ result.1.now }
{
    let mut value = 0u64;
    let mut rest = text;
    while let [byte, tail @ ..] = rest {
        let digit = u64::from(*byte).wrapping_sub(u64::from(b'0'));
        if digit > 9 {
            return (value, rest);
        }
        // Few digits wrap nothing, and a test of each would take longer.
        value = value.wrapping_mul(10).wrapping_add(digit);
        rest = tail;
    }
    (value, rest)
}

/// Whether a text begins with a space or is empty.
fn is_word_end(text: &[u8]) -> bool
    ensures { IsTrue result ↔ (first_word text.now ≡ []) }
{
    matches!(text, [] | [b' ', ..])
}

/// The number up to the first space, where it fits a `u64`, and the text after it.
fn front_unsigned(text: &[u8]) -> Option<(u64, &[u8])>
    ensures number { option_map (λ taken. taken.0) result ≡ unsigned_of (first_word text.now) }
    ensures rest { IfSome result (λ taken. taken.1.now ≡ after_word text.now) }
{
    let (value, rest) = take_digits(text);
    if !is_word_end(rest) {
        return None;
    }
    match text.len() - rest.len() {
        0 => None,
        1..=SAFE_DIGITS => Some((value, rest)),
        count => Some((unsigned(&text[..count])?, rest)),
    }
}

/// Whether a text begins with a `-`, and the text without it.
fn take_minus(text: &[u8]) -> (bool, &[u8])
    ensures minus { result.0 ≡ has_minus text.now }
    ensures rest { result.1.now ≡ (if has_minus text.now then drop 1 text.now else text.now) }
{
    let is_negative = matches!(text, [b'-', ..]);
    // Signs come at random, so the text behind one is found without a branch.
    (is_negative, &text[usize::from(is_negative)..])
}

/// The number of a magnitude and a sign, where it fits an `i64`.
fn with_sign(is_negative: bool, size: u64) -> Option<i64>
    ensures { result ≡ (if is_negative then negated size else plain size) }
{
    match i64::try_from(size) {
        Ok(value) => Some(if is_negative { -value } else { value }),
        Err(_) if is_negative => 0i64.checked_sub_unsigned(size),
        Err(_) => None,
    }
}

/// The number up to the first space, with an optional `-` in front, where it fits an `i64`, and the text
/// after it.
fn front_signed(text: &[u8]) -> Option<(i64, &[u8])>
    ensures number { option_map (λ taken. taken.0) result ≡ signed_of (first_word text.now) }
    ensures rest { IfSome result (λ taken. taken.1.now ≡ after_word text.now) }
{
    let (is_negative, digits) = take_minus(text);
    let (size, rest) = front_unsigned(digits)?;
    Some((with_sign(is_negative, size)?, rest))
}

/// The number in the first word of a text, where it fits a `u64`, and the text after it.
#[tactic(auto, using(crate::proofs::Fronts::first_words))]
pub fn take_unsigned(text: &[u8]) -> Option<(u64, &[u8])>
    ensures number { option_map (λ taken. taken.0) result ≡ unsigned_of (word_at text.now 0) }
    ensures rest { IfSome result (λ taken. words_of taken.1.now ≡ drop 1 (words_of text.now)) }
{
    front_unsigned(after_spaces(text))
}

/// The number in the first word of a text, with an optional `-` in front, where it fits an `i64`, and the
/// text after it.
#[tactic(auto, using(crate::proofs::Fronts::first_words))]
pub fn take_signed(text: &[u8]) -> Option<(i64, &[u8])>
    ensures number { option_map (λ taken. taken.0) result ≡ signed_of (word_at text.now 0) }
    ensures rest { IfSome result (λ taken. words_of taken.1.now ≡ drop 1 (words_of text.now)) }
{
    front_signed(after_spaces(text))
}
