//! What a row writes.

use std::alloc::{AllocError, Global};
use std::fmt::{Debug, Display};

/// A text that grows until memory runs out. It says so at its end alone, so that what writes it has
/// no errors of its own.
#[derive(Drop)]
pub struct Out {
    text: String,
    failed: bool,
}

impl Out {
    /// No text.
    pub fn new(alloc: Global) -> Out {
        Out {
            text: String::new(alloc),
            failed: false,
        }
    }

    /// Memory ran out.
    pub fn fail(&mut self) {
        self.failed = true;
    }

    /// A text.
    pub fn put(&mut self, text: &str) {
        if self.text.push_str(text).is_err() {
            self.failed = true;
        }
    }

    /// The name of a variant, or a number in decimal.
    pub fn show<T: Debug>(&mut self, value: &T) {
        if write!(self.text, "{value:?}").is_err() {
            self.failed = true;
        }
    }

    /// A word and its offset.
    pub fn put_at(&mut self, word: &str, offset: usize) {
        if write!(self.text, "{word}@{offset}").is_err() {
            self.failed = true;
        }
    }

    /// What [`Out::show`] writes, and an offset.
    pub fn show_at<T: Debug>(&mut self, value: &T, offset: usize) {
        self.show(value);
        self.put_at("", offset);
    }

    /// A value as a user reads it.
    pub fn display<T: Display>(&mut self, value: &T) {
        if write!(self.text, "{value}").is_err() {
            self.failed = true;
        }
    }

    /// A number in hexadecimal.
    pub fn hexadecimal(&mut self, number: u64) {
        if write!(self.text, "{number:x}").is_err() {
            self.failed = true;
        }
    }

    /// Eight hexadecimal digits.
    pub fn word(&mut self, word: u32) {
        if write!(self.text, "{word:08x}").is_err() {
            self.failed = true;
        }
    }

    /// These bytes, a `|` for each line feed.
    pub fn bytes(&mut self, bytes: &[u8]) {
        for byte in bytes {
            let shown = if *byte == b'\n' { b'|' } else { *byte };
            if self.text.push(char::from(shown)).is_err() {
                self.failed = true;
            }
        }
    }

    /// A row's name before each line of its outcome.
    pub fn row(&mut self, name: &str, outcome: &Out) {
        self.failed |= outcome.failed;
        for line in outcome.text.as_str().lines() {
            self.put(name);
            self.put(": ");
            self.put(line.trim());
            self.put("\n");
        }
    }

    /// All that was written.
    pub fn text(&self) -> Result<&str, AllocError> {
        if self.failed {
            return Err(AllocError);
        }
        Ok(self.text.as_str())
    }
}
