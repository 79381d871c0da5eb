//! Terms as text.

ghost use Rattle.std.specs.Prelude.{◌≡◌, ◌++◌, ◌-◌, ◌<◌, ◌^◌, OnOk};
ghost use Rattle.cert_text_spec.specs.Terms as terms;
ghost use Rattle.cert_text.specs.Texts.{is_close, is_done, next_going, text_going};

use crate::symbols::push_symbol;
use attempt::attempt;
use cert_text_spec::Symbol;
use std::alloc::AllocError;

/// Where in a term a symbol is.
#[derive(Clone, Copy)]
pub(crate) struct Going {
    /// Whether it begins the term, or is the variable after a call's number.
    pub begins: bool,
    /// How many operators are open.
    pub depth: usize,
}

// The bracket after the last argument.
fn is_bracket(symbol: Symbol) -> bool
    ensures { result ≡ is_close symbol }
{
    matches!(symbol, Symbol::Close)
}

impl Going {
    // The term is over.
    fn is_over(self) -> bool
        ensures { result ≡ is_done self }
    {
        !self.begins && self.depth == 0
    }

    // After a symbol.
    fn after(self, symbol: Symbol) -> Going
        requires { self.depth < 2 ^ 64 - 1 }
        ensures { result ≡ next_going self symbol }
    {
        let depth = self.depth;
        match symbol {
            Symbol::Inlined(_) => Going {
                begins: true,
                depth,
            },
            Symbol::Open(_) => Going {
                begins: false,
                depth: depth + 1,
            },
            Symbol::Close if !self.begins => Going {
                begins: false,
                depth: depth.saturating_sub(1),
            },
            _ => Going {
                begins: false,
                depth,
            },
        }
    }
}

// Adds a symbol, with a space before an argument.
fn push_at(out: &mut Vec<u8>, going: Going, symbol: Symbol) -> Result<(), AllocError>
    ensures { OnOk result (out.new.items ≡ out.old.items ++ text_going going symbol) }
{
    if going.begins {
        return push_symbol(out, symbol);
    }
    if is_bracket(symbol) {
        return push_symbol(out, symbol);
    }
    attempt!(out.extend_from_slice(b" "));
    push_symbol(out, symbol)
}

/// Adds a term: its symbols up to its end.
pub(crate) fn push_term(out: &mut Vec<u8>, symbols: &[Symbol]) -> Result<(), AllocError>
    ensures { OnOk result (out.new.items ≡ out.old.items ++ terms.term_text symbols.now) }
{
    let mut going = Going {
        begins: true,
        depth: 0,
    };
    for symbol in symbols {
        if going.is_over() {
            return Ok(());
        }
        match push_at(out, going, *symbol) {
            Ok(()) => {}
            Err(error) => return Err(error),
        }
        going = going.after(*symbol);
    }
    Ok(())
}
