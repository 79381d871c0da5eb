//! Parts of expressions that hold nothing inside.

ghost use Rattle.std.specs.Prelude.{◌≡◌, ◌≤◌, IfOk};
ghost use Rattle.c_parse_spec.specs.declared.Role.TheVariants.{Nothing};
ghost use Rattle.c_parse_spec.specs.Leaves.{plain};
ghost use Rattle.c_parse_spec.specs.Expressions.{operators, count_at};
ghost use Rattle.c_parse_laws.specs.Classes.{atom_at};
ghost use Rattle.c_parse_laws.specs.Parsers.{token};
ghost use Rattle.c_parse_token.specs.Lists.{names_of, Parses, IsShorter};
ghost use Rattle.c_parse_expression.specs.Steps.{tree_of, read_member_after, counting_of};
ghost use Rattle.c_parse_expression.specs.Steps.{ReadsAfter};
ghost use Rattle.c_parse_spec.specs.Limits.{operator_limit};

use attempt::Refusal;
use c_parse_spec::Role;
use c_parse_token::{SyntaxFault, Tokens, TypedefNames, allocated, attempt};
use c_syntax::expression::{Expression, Name};
use c_token::Kind;
use std::alloc::Global;

/// A name that is no typedef name, or a constant.
pub fn atom<'t>(
    alloc: Global,
    tokens: &mut Tokens<'t>,
    names: &TypedefNames<'t>,
) -> Result<Box<Expression<'t>>, Refusal<SyntaxFault>>
    ensures gives { Parses (token Nothing plain (atom_at (names_of names.now))) tree_of tokens.old
        tokens.new result }
    ensures counted { IfOk result (λ x. (operators (tree_of x) ≡ 0) ×
        (tokens.new.count ≡ tokens.old.count)) }
    ensures shorter { IfOk result (λ _. IsShorter tokens.new tokens.old) }
{
    let [first, rest @ ..] = tokens.rest else {
        return Err(Refusal::Fault(SyntaxFault::Wrong(Role::Nothing)));
    };
    let offset = first.offset;
    let x = match first.kind {
        Kind::Name(spelling) if !names.contains(spelling) => {
            allocated!(Expression::named(alloc, Name { spelling, offset }))
        }
        Kind::Number(value, of) => allocated!(Expression::number(alloc, value, of, offset)),
        Kind::Character(value) => allocated!(Expression::character(alloc, value, offset)),
        _ => return Err(Refusal::Fault(SyntaxFault::Wrong(Role::Nothing))),
    };
    tokens.rest = rest;
    Ok(x)
}

/// A member after its base.
pub fn member<'t>(
    alloc: Global,
    tokens: &mut Tokens<'t>,
    base: Box<Expression<'t>>,
) -> Result<Box<Expression<'t>>, Refusal<SyntaxFault>>
    requires count { tokens.old.count ≤ operator_limit }
    ensures { ReadsAfter (read_member_after tokens.old.count (tree_of base.entry)) (tree_of
        base.entry) IsShorter tokens.old tokens.new result }
{
    let (access, offset) = attempt!(tokens.access());
    let name = attempt!(tokens.name(Role::Nothing));
    Ok(allocated!(Expression::member(alloc, base, access, name, offset)))
}

/// Begins a length or an enumeration value: a whole expression, in a type that is in no other.
pub fn begin_whole(tokens: &mut Tokens<'_>, is_alone: bool)
    ensures rest { tokens.new.rest ≡ tokens.old.rest }
    ensures count { tokens.new.count ≡ count_at (counting_of is_alone tokens.old.count) }
{
    if is_alone {
        tokens.count = 0;
    }
}
