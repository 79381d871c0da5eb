//! The syntax of C: what unit tokens are, or their first fault (ISO C11, 6.5 to 6.9). The parsers of
//! statements are here (`statement`), those of what statements are made of in the crates below.
//!
//! [`parse`] has the crate's contract: it gives the tree of a unit exactly where the tokens are
//! one, and else the fault of the tokens with its kind. Both are defined in `c_parse_spec`, by
//! the grammar's derivations alone (`specs/Units.antt`, `specs/Faults.antt`). [`definition_in`]
//! gives where the first struct or enum is defined within an initial value of a global, of which no
//! tree is kept.
#![tactic(auto)]

ghost use Rattle.std.specs.Prelude.{◌≡◌, IfOk, IfErr, Err, drop};
ghost use Rattle.c_syntax_spec.specs.Unit as tree;
ghost use Rattle.c_parse_spec.specs.Faults.{IsUnit, offset_of};
ghost use Rattle.c_syntax.specs.Units.{unit_of};
ghost use Rattle.c_parse_laws.specs.Units.{read_external_declarations};
ghost use Rattle.c_parse_token.specs.Lists.{list_of, fault_of, Gives};
ghost use Rattle.c_parse.specs.Refused.{IsFaultOf, reported};

mod class;
mod ends;
mod globals;
mod initial;
mod initial_scan;
mod items;
mod keywords;
mod kind;
mod pieces;
mod statement;

use attempt::Refusal;
use c_parse_spec::ParseFaultKind;
use c_parse_token::{SyntaxFault, Tokens};
use c_syntax::unit::TranslationUnit;
use c_token::Token;
pub use initial_scan::definition_in;
use items::unit;
use kind::fault_kind;
use std::alloc::Global;

/// Where and why tokens are no unit.
#[derive(Clone, Copy)]
pub struct ParseFault {
    /// How many tokens are before the one at fault: all of them, where the end is at fault.
    pub token: usize,
    /// Why.
    pub kind: ParseFaultKind,
}

impl ParseFault {
    /// The offset of the fault in bytes from the start of the text, which has `end` bytes.
    pub fn offset(&self, tokens: &[Token<'_>], end: usize) -> usize
        ensures { result ≡ offset_of end (drop self.now.token (list_of tokens.now)) }
    {
        if self.token < tokens.len() {
            tokens[self.token].offset
        } else {
            end
        }
    }
}

// The kind of the fault at the first of these tokens, or at the end.
fn kind_of(fault: SyntaxFault, rest: &[Token<'_>]) -> ParseFaultKind
    ensures { result ≡ reported (fault_of fault) (list_of rest.now) }
{
    match fault {
        SyntaxFault::LimitExceeded => ParseFaultKind::Depth,
        SyntaxFault::Wrong(role) => fault_kind(role, rest),
    }
}

// The fault where the parser stopped, at the first of these tokens or at the end.
fn fault_at(
    tokens: &[Token<'_>],
    rest: &[Token<'_>],
    stopped: Refusal<SyntaxFault>,
) -> Refusal<ParseFault>
    requires { Gives (read_external_declarations (list_of tokens.now)) unit_of rest.now
        (Err stopped) }
    ensures { IsFaultOf (list_of tokens.now) result }
{
    match stopped {
        Refusal::NoMemory => Refusal::NoMemory,
        Refusal::Fault(fault) => {
            let kind = kind_of(fault, rest);
            let token = tokens.len().saturating_sub(rest.len());
            Refusal::Fault(ParseFault { token, kind })
        }
    }
}

/// The unit that the tokens are; or their first fault, which is at the first token with which
/// those so far begin no unit, or where the nesting limit is exceeded.
pub fn parse<'t>(
    alloc: Global,
    tokens: &'t [Token<'t>],
) -> Result<TranslationUnit<'t>, Refusal<ParseFault>>
    ensures found { IfOk result (λ unit. IsUnit (list_of tokens.now) (unit_of unit)) }
    ensures same { IfOk result (λ unit. (other : tree.TranslationUnit) → IsUnit (list_of tokens.now)
        other → other ≡ unit_of unit) }
    ensures fault { IfErr result (λ error. IsFaultOf (list_of tokens.now) error) }
    ensures only { IfErr result (λ error. (other : tree.TranslationUnit) → IsUnit
        (list_of tokens.now) other → error ≡ Refusal.NoMemory) }
{
    let mut left = Tokens {
        rest: tokens,
        count: 0,
    };
    match unit(alloc, &mut left) {
        Ok(read) => Ok(read),
        Err(stopped) => Err(fault_at(tokens, left.rest, stopped)),
    }
}

/// Drops a unit. That its parts are dropped is proved here, and not in each crate that drops one.
pub fn discard(_unit: TranslationUnit<'_>) {}
