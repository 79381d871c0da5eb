//! The sizes of the lists of a certificate, from one look at its bytes: so they are made once, and
//! never moved or larger than they need to be.

ghost use Rattle.std.specs.Prelude.{IfOk};
ghost use Rattle.cert_text.specs.Certificates.{IsEmpty};

use crate::certificates::Cert;
use attempt::attempt;
use cert_text_parse::Logs;
use std::alloc::{AllocError, Global};

/// Where in a line a byte is.
#[derive(Clone, Copy)]
enum Field {
    /// at its start
    Start,
    /// after an `s` at its start
    Keyword,
    /// among the literals of a step
    Literals,
    /// among the hints of a step
    Hints,
    /// elsewhere
    Other,
}

/// How many lines, literals and hints were seen.
#[derive(Clone, Copy)]
struct Sizes {
    lines: usize,
    literals: usize,
    hints: usize,
}

impl Sizes {
    // After a space, or after the zero before it.
    fn after_space(self, field: Field, is_zero: bool) -> Sizes {
        let mut sizes = self;
        match field {
            Field::Literals if !is_zero => sizes.literals = sizes.literals.saturating_add(1),
            Field::Hints => sizes.hints = sizes.hints.saturating_add(1),
            _ => {}
        }
        sizes
    }

    // After a byte.
    fn after(self, field: Field, is_zero: bool, byte: u8) -> Sizes {
        match byte {
            b' ' => self.after_space(field, is_zero),
            b'\n' => Sizes {
                lines: self.lines.saturating_add(1),
                literals: self.literals,
                hints: self.hints,
            },
            _ => self,
        }
    }
}

impl Field {
    // After a byte that is not a line feed.
    fn after_byte(self, is_zero: bool, byte: u8) -> Field {
        match self {
            Field::Start if byte == b's' => Field::Keyword,
            Field::Keyword if byte == b' ' => Field::Literals,
            Field::Literals if byte == b' ' && is_zero => Field::Hints,
            Field::Start | Field::Keyword => Field::Other,
            field => field,
        }
    }

    // After a byte.
    fn after(self, is_zero: bool, byte: u8) -> Field {
        if byte == b'\n' {
            return Field::Start;
        }
        self.after_byte(is_zero, byte)
    }
}

// The sizes of the lists of a certificate, which no text without faults exceeds.
fn measured(bytes: &[u8]) -> Sizes {
    let mut sizes = Sizes {
        lines: 0,
        literals: 0,
        hints: 0,
    };
    let mut field = Field::Start;
    let mut last = b' ';
    let mut is_zero = false;
    for byte in bytes {
        sizes = sizes.after(field, is_zero, *byte);
        field = field.after(is_zero, *byte);
        is_zero = last == b' ' && *byte == b'0';
        last = *byte;
    }
    sizes
}

/// A certificate without lines, with room for those of a text: for not more than its bytes can
/// spell, whatever they are.
pub(crate) fn empty(alloc: Global, bytes: &[u8]) -> Result<Cert, AllocError>
    ensures { IfOk result (λ cert. IsEmpty cert) }
{
    let sizes = measured(bytes);
    let length = bytes.len();
    let lines = attempt!(Vec::with_capacity(alloc, sizes.lines.min(length / 6 + 1)));
    let literals = attempt!(Vec::with_capacity(alloc, sizes.literals.min(length / 2)));
    let hints = attempt!(Vec::with_capacity(alloc, sizes.hints.min(length / 2)));
    Ok(Cert {
        lines,
        logs: Logs { literals, hints },
    })
}
