//! Names.

ghost use Rattle.std.specs.Prelude.{◌≡◌, ◌<◌, true, length, get_or};
ghost use Rattle.cert_text_spec.specs.Lines.{is_letter, is_of_name};
ghost use Rattle.cert_text_laws.specs.Readers as readers;
ghost use Rattle.cert_text_parse.specs.Outcomes.{IsNameLength, ParsesName};

use crate::cursor::Cursor;
use crate::stopped::TextFault;
use attempt::Refusal;

// A letter or `_`.
fn begins_name(byte: u8) -> bool
    ensures { result ≡ is_letter byte }
{
    byte.is_ascii_alphabetic() || byte == b'_'
}

// A letter, a digit or `_`.
fn continues_name(byte: u8) -> bool
    ensures { result ≡ is_of_name byte }
{
    begins_name(byte) || byte.is_ascii_digit()
}

// How many bytes the name has with which the text begins.
fn name_length(text: &[u8]) -> usize
    requires some { 0 < length text.now }
    requires begins { is_letter (get_or text.now 0 0) ≡ true }
    ensures { IsNameLength text.now result }
{
    let mut n = 1;
    while n < text.len() {
        if !continues_name(text[n]) {
            return n;
        }
        n += 1;
    }
    n
}

impl<'t> Cursor<'t> {
    /// A name.
    pub fn name(&mut self) -> Result<&'t [u8], Refusal<TextFault>>
        ensures { ParsesName self.old self.new result }
    {
        let text = self.rest;
        if text.is_empty() {
            return Err(Refusal::Fault(TextFault::Wrong));
        }
        if !begins_name(text[0]) {
            return Err(Refusal::Fault(TextFault::Wrong));
        }
        let n = name_length(text);
        self.rest = &text[n..];
        Ok(&text[..n])
    }
}
