//! Decimals without leading zeros.

ghost use Rattle.std.specs.Prelude.{◌≡◌, suc};
ghost use Rattle.cert_text_laws.specs.Readers as readers;
ghost use Rattle.cert_text_parse.specs.Outcomes.{Parses, next_digit, longer};

use crate::cursor::Cursor;
use crate::stopped::TextFault;
use attempt::Refusal;

// The value of the digit that comes next.
fn digit_of(text: &[u8]) -> Option<u64>
    ensures { result ≡ next_digit text.now }
{
    match text {
        [first, ..] if first.is_ascii_digit() => Some(u64::from(*first - b'0')),
        _ => None,
    }
}

// The number with one digit more, if it has no leading zero and is not above the maximum.
fn with_digit(value: u64, digit: u64, most: u64) -> Option<u64>
    ensures { result ≡ longer value digit most }
{
    if value == 0 {
        return None;
    }
    let tens = value.checked_mul(10)?;
    let number = tens.checked_add(digit)?;
    if number <= most { Some(number) } else { None }
}

impl<'t> Cursor<'t> {
    // Further digits of a number.
    fn digits(&mut self, first: u64, most: u64) -> Result<u64, Refusal<TextFault>>
        ensures { Parses (readers.read_digits (suc most) first) self.old self.new result }
    {
        let mut value = first;
        while let Some(digit) = digit_of(self.rest) {
            let Some(next) = with_digit(value, digit, most) else {
                return Err(Refusal::Fault(TextFault::Wrong));
            };
            value = next;
            self.rest = &self.rest[1..];
        }
        Ok(value)
    }

    /// A number from `low`, which is 0 or 1, to a maximum.
    pub fn decimal(&mut self, low: u64, most: u64) -> Result<u64, Refusal<TextFault>>
        ensures { Parses (readers.read_decimal low (suc most)) self.old self.new result }
    {
        match digit_of(self.rest) {
            Some(first) if first >= low => {
                self.rest = &self.rest[1..];
                self.digits(first, most)
            }
            _ => Err(Refusal::Fault(TextFault::Wrong)),
        }
    }
}
