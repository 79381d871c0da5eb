//! Terms.

ghost use Rattle.std.specs.Prelude.{◌≡◌, ◌≤◌, []};
ghost use Rattle.tv_limits.specs.declared.TheConstants.{NESTING_LIMIT};
ghost use Rattle.cert_text_laws.specs.Heads.{read_term};
ghost use Rattle.cert_text_parse.specs.PartOutcomes.{ParsesAs};
ghost use Rattle.cert_text_parse.specs.Terms.{IsTop, next};

use crate::symbols::{Expected, symbol};
use crate::{Cursor, TextFault};
use attempt::Refusal;
use cert_text_spec::Symbol;
use std::alloc::Global;
use tv_limits::NESTING_LIMIT;

/// With what a term goes on.
#[derive(Clone, Copy)]
pub(crate) enum Lead {
    /// the term itself
    Term,
    /// the variable after a call's number
    Variable,
    /// an argument of the innermost open operator, or its closing bracket; the end if none is open
    Argument,
}

/// What is expected in a term.
#[derive(Clone, Copy)]
pub(crate) struct Going {
    /// With what it goes on.
    pub lead: Lead,
    /// How many operators are open.
    pub depth: usize,
}

impl Going {
    // What is expected next; nothing at the end of the term.
    fn expected(self) -> Option<Expected>
        ensures { IsTop self result }
    {
        match self.lead {
            Lead::Term => Some(Expected::Term),
            Lead::Variable => Some(Expected::Variable),
            Lead::Argument if self.depth == 0 => None,
            Lead::Argument => Some(Expected::Arguments(NESTING_LIMIT.saturating_sub(self.depth))),
        }
    }

    // What is expected after a symbol.
    fn after(self, symbol: Symbol) -> Going
        requires { self.depth ≤ NESTING_LIMIT }
        ensures { result ≡ next self symbol }
    {
        match symbol {
            Symbol::Inlined(_) => Going {
                lead: Lead::Variable,
                depth: self.depth,
            },
            Symbol::Open(_) => Going {
                lead: Lead::Argument,
                depth: self.depth + 1,
            },
            Symbol::Close => Going {
                lead: Lead::Argument,
                depth: self.depth.saturating_sub(1),
            },
            _ => Going {
                lead: Lead::Argument,
                depth: self.depth,
            },
        }
    }
}

// The symbols of a term are added to a list.
fn symbols_into(
    cursor: &mut Cursor<'_>,
    symbols: &mut Vec<Symbol>,
) -> Result<(), Refusal<TextFault>>
    requires { symbols.old.items ≡ [] }
    ensures { ParsesAs (λ _. symbols.new.items) read_term cursor.old cursor.new result }
{
    let mut going = Going {
        lead: Lead::Term,
        depth: 0,
    };
    while let Some(expected) = going.expected() {
        let symbol = match symbol(cursor, expected) {
            Ok(symbol) => symbol,
            Err(stopped) => return Err(stopped),
        };
        symbols.push(symbol)?;
        going = going.after(symbol);
    }
    Ok(())
}

/// A term: its symbols in the order of the text.
pub fn term_symbols(
    alloc: Global,
    cursor: &mut Cursor<'_>,
) -> Result<Vec<Symbol>, Refusal<TextFault>>
    ensures { ParsesAs (λ symbols. symbols.items) read_term cursor.old cursor.new result }
{
    let mut symbols = Vec::new(alloc);
    match symbols_into(cursor, &mut symbols) {
        Ok(()) => Ok(symbols),
        Err(stopped) => Err(stopped),
    }
}
