//! Addresses of eight digits.

ghost use Rattle.std.specs.Prelude.{◌≡◌};
ghost use Rattle.cert_text_laws.specs.Readers as readers;
ghost use Rattle.cert_text_parse.specs.Outcomes.{Parses, next_hexadecimal, Takes};

use crate::cursor::Cursor;
use crate::stopped::TextFault;
use attempt::Refusal;

// The value of the hexadecimal digit that comes next.
fn digit_of(text: &[u8]) -> Option<u32>
    ensures { result ≡ next_hexadecimal text.now }
{
    match text {
        [] => None,
        [first, ..] => {
            if first.is_ascii_digit() {
                return Some(u32::from(*first - b'0'));
            }
            if *first >= b'a' && *first <= b'f' {
                return Some(u32::from(*first - b'a') + 10);
            }
            None
        }
    }
}

impl<'t> Cursor<'t> {
    // One digit.
    fn hexadecimal(&mut self) -> Result<u32, Refusal<TextFault>>
        ensures { Takes 1 16 self.old self.new result }
    {
        match digit_of(self.rest) {
            Some(value) => {
                self.rest = &self.rest[1..];
                Ok(value)
            }
            None => Err(Refusal::Fault(TextFault::Wrong)),
        }
    }

    // Two digits.
    fn byte(&mut self) -> Result<u32, Refusal<TextFault>>
        ensures { Takes 2 256 self.old self.new result }
    {
        let high = match self.hexadecimal() {
            Ok(high) => high,
            Err(stopped) => return Err(stopped),
        };
        let low = match self.hexadecimal() {
            Ok(low) => low,
            Err(stopped) => return Err(stopped),
        };
        Ok(high * 16 + low)
    }

    // Four digits.
    fn half(&mut self) -> Result<u32, Refusal<TextFault>>
        ensures { Takes 4 65536 self.old self.new result }
    {
        let high = match self.byte() {
            Ok(high) => high,
            Err(stopped) => return Err(stopped),
        };
        let low = match self.byte() {
            Ok(low) => low,
            Err(stopped) => return Err(stopped),
        };
        Ok(high * 256 + low)
    }

    /// An address.
    pub fn address(&mut self) -> Result<u32, Refusal<TextFault>>
        ensures { Parses readers.read_address self.old self.new result }
    {
        let high = match self.half() {
            Ok(high) => high,
            Err(stopped) => return Err(stopped),
        };
        let low = match self.half() {
            Ok(low) => low,
            Err(stopped) => return Err(stopped),
        };
        Ok(high * 65536 + low)
    }
}
