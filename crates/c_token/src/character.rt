//! Character constants.

ghost use Rattle.std.specs.Prelude.{◌≡◌, ◌≤◌, ◌<◌, length, IfSome};
ghost use Rattle.c_token_spec.specs.Characters.{escape_of, digits_of, escaped, element_of};
ghost use Rattle.c_token_spec.specs.Characters.{character_of};

use crate::number::{count_digits, digits_value};

/// The value of a simple escape.
fn escape_of(letter: u8) -> Option<u8>
    ensures { result ≡ escape_of letter }
{
    match letter {
        b'\'' | b'"' | b'?' | b'\\' => Some(letter),
        b'a' => Some(7),
        b'b' => Some(8),
        b'f' => Some(12),
        b'n' => Some(10),
        b'r' => Some(13),
        b't' => Some(9),
        b'v' => Some(11),
        _ => None,
    }
}

/// The value of at most so many digits, if it is below 256, and how many there are.
fn digits_of(base: u8, most: usize, text: &[u8]) -> Option<(u8, usize)>
    requires low { 0 < base }
    requires high { base ≤ 16 }
    ensures value { result ≡ digits_of base most text.now }
    ensures within { IfSome result (λ digits. digits.1 ≤ length text.now) }
{
    let count = most.min(count_digits(base, text));
    if count == 0 {
        return None;
    }
    let (digits, _) = text.split_at(count);
    let value = digits_value(base, digits)?;
    if value > 255 {
        return None;
    }
    Some((value as u8, count))
}

/// The value of what follows a backslash, and how many bytes it has.
fn escaped(text: &[u8]) -> Option<(u8, usize)>
    ensures value { result ≡ escaped text.now }
    ensures within { IfSome result (λ found. found.1 ≤ length text.now) }
{
    let (first, rest) = text.split_first()?;
    match *first {
        b'x' => {
            let (value, count) = digits_of(16, 2, rest)?;
            Some((value, count + 1))
        }
        b'0'..=b'7' => digits_of(8, 3, text),
        letter => {
            let value = escape_of(letter)?;
            Some((value, 1))
        }
    }
}

/// The value of what is between the quotes, and how many bytes it has.
fn element_of(text: &[u8]) -> Option<(u8, usize)>
    ensures value { result ≡ element_of text.now }
    ensures within { IfSome result (λ found. found.1 ≤ length text.now) }
{
    let (first, rest) = text.split_first()?;
    match *first {
        b'\\' => {
            let (value, count) = escaped(rest)?;
            Some((value, count + 1))
        }
        b'\'' => None,
        b' '..=b'~' => Some((*first, 1)),
        _ => None,
    }
}

/// Behind a quote: the value, and how many bytes there are with the quote that closes.
#[tactic(auto, unfolding(c_token_spec::specs::Characters::character_of))]
pub fn character_of(text: &[u8]) -> Option<(u8, usize)>
    ensures value { result ≡ character_of text.now }
    ensures within { IfSome result (λ found. found.1 ≤ length text.now) }
{
    let (value, count) = element_of(text)?;
    let (_, rest) = text.split_at(count);
    match rest {
        [b'\'', ..] => Some((value, count + 1)),
        _ => None,
    }
}
