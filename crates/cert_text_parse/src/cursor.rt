//! The bytes that are left.

ghost use Rattle.std.specs.Prelude.{map};
ghost use Rattle.cert_text_laws.specs.Readers as readers;
ghost use Rattle.cert_text_parse.specs.Outcomes.{entry_of, Parses};

use crate::stopped::TextFault;
use crate::words::{found, furthest};
use attempt::Refusal;

/// The bytes that are left.
#[derive(Drop)]
pub struct Cursor<'t> {
    /// In order.
    pub rest: &'t [u8],
}

impl<'t> Cursor<'t> {
    /// One of the words of a table, of which none begins another: its value.
    pub fn one_of<T: Copy>(&mut self, table: &[(&[u8], T)]) -> Result<T, Refusal<TextFault>>
        ensures { Parses (readers.read_word (map entry_of table.now)) self.old self.new result }
    {
        match found(table, self.rest) {
            Some((length, value)) => {
                self.rest = &self.rest[length..];
                Ok(value)
            }
            None => {
                self.rest = &self.rest[furthest(table, self.rest)..];
                Err(Refusal::Fault(TextFault::Wrong))
            }
        }
    }
}
