ghost use Rattle.std.specs.Prelude.{ℕ, List, Err};
ghost use Rattle.c_token_spec.specs.Lexical.{AreTokens};
ghost use Rattle.c_token.specs.Refused as token;
ghost use Rattle.c_syntax_spec.specs.Unit.{TranslationUnit as translation_unit};
ghost use Rattle.c_syntax.specs.Units.{unit_of as tree_of};
ghost use Rattle.c_parse_spec.specs.Initials.{DefinesNothing};
ghost use Rattle.c_parse_spec.specs.Source.{HasTree};
ghost use Rattle.c_parse_token.specs.Lists.{list_of};
ghost use Rattle.c_parse.specs.Refused as syntax;
ghost use Rattle.c_types_spec.specs.Units.{typed};
ghost use Rattle.c_types.specs.Typed.{IsChecked};
ghost use Rattle.tv_core.specs.Cores.{HasCore, IsRefused};

use attempt::Refusal;
use c_parse::{ParseFault, definition_in, parse};
use c_syntax::unit::TranslationUnit;
use c_token::{Token, TokenFault};
use c_types::typed::{TypeFault, Typed};
use c_types::unit::check;
use c_types_spec::{LeftOut, TypeFaultKind};
use report_text_spec::SourceKind;
use std::alloc::Global;

/// Why a source is refused, and the offset in bytes.
#[derive(Clone, Copy)]
pub(crate) struct SourceFault {
    pub kind: SourceKind,
    pub offset: usize,
}

/// The fault of a source that has no tokens.
pub(crate) fn token_fault(error: Refusal<TokenFault>) -> Refusal<SourceFault>
    ensures { (text : List ℕ) → token.IsFaultOf text error → IsRefused text result }
{
    match error {
        Refusal::Fault(fault) => Refusal::Fault(SourceFault {
            kind: SourceKind::Token(fault.kind),
            offset: fault.offset,
        }),
        Refusal::NoMemory => Refusal::NoMemory,
    }
}

/// The fault of a source whose tokens are no unit.
fn syntax_fault(
    error: Refusal<ParseFault>,
    tokens: &[Token<'_>],
    source: &[u8],
) -> Refusal<SourceFault>
    ensures { AreTokens source.now (list_of tokens.now)
        → syntax.IsFaultOf (list_of tokens.now) error → IsRefused source.now result }
{
    match error {
        Refusal::Fault(fault) => Refusal::Fault(SourceFault {
            kind: SourceKind::Syntax(fault.kind),
            offset: fault.offset(tokens, source.len()),
        }),
        Refusal::NoMemory => Refusal::NoMemory,
    }
}

/// The fault of a source whose tree has no types.
fn typing_fault(error: Refusal<TypeFault>) -> Refusal<SourceFault>
    ensures { (text : List ℕ) (tree : translation_unit) → HasTree text tree → DefinesNothing text
        → IsChecked (Err error) (typed tree) → IsRefused text result }
{
    match error {
        Refusal::Fault(TypeFault::At(kind, offset)) => Refusal::Fault(SourceFault {
            kind: SourceKind::Typing(kind),
            offset,
        }),
        Refusal::NoMemory => Refusal::NoMemory,
    }
}

/// The typed core of a tree whose source defines nothing within initial values of globals.
fn checked<'t>(alloc: Global, tree: &TranslationUnit<'t>) -> Result<Typed<'t>, Refusal<SourceFault>>
    ensures { (text : List ℕ) → HasTree text (tree_of tree.now) → DefinesNothing text
        → HasCore text result }
{
    match check(alloc, tree) {
        Ok(unit) => Ok(unit),
        Err(error) => Err(typing_fault(error)),
    }
}

/// The typed core of a source of these tokens and this tree, or its first fault.
fn core_of_tree<'t>(
    alloc: Global,
    lexed: &[Token<'_>],
    tree: &TranslationUnit<'t>,
) -> Result<Typed<'t>, Refusal<SourceFault>>
    ensures { (text : List ℕ) → AreTokens text (list_of lexed.now)
        → HasTree text (tree_of tree.now) → HasCore text result }
{
    match definition_in(lexed) {
        Some(offset) => Err(Refusal::Fault(SourceFault {
            kind: SourceKind::Typing(TypeFaultKind::LeftOut(LeftOut::Struct)),
            offset,
        })),
        None => checked(alloc, tree),
    }
}

/// The typed core of a source of these tokens, or its first fault.
pub(crate) fn core_of<'t>(
    alloc: Global,
    source: &[u8],
    lexed: &'t [Token<'t>],
) -> Result<Typed<'t>, Refusal<SourceFault>>
    requires { AreTokens source.now (list_of lexed.now) }
    ensures { HasCore source.now result }
{
    match parse(alloc, lexed) {
        Ok(tree) => core_of_tree(alloc, lexed, &tree),
        Err(error) => Err(syntax_fault(error, lexed, source)),
    }
}
