//! What is expected after a part.

ghost use Rattle.std.specs.Prelude.{◌≡◌};
ghost use Rattle.c_parse_spec.specs.Expressions as grammar;
ghost use Rattle.c_parse_laws.specs.Types as types;
ghost use Rattle.c_syntax.specs.Expressions.{declarator_of, constant_of};

use c_parse_spec::Role;
use c_syntax::expression::{Constant, Declarator};

/// What is expected after a member's declarator.
pub fn member_end(declarator: &Declarator<'_>) -> Role
    ensures { result ≡ grammar.member_end (declarator_of declarator.now) }
{
    if declarator.dimensions.is_open {
        return Role::Nothing;
    }
    if declarator.dimensions.lengths.is_empty() {
        Role::MemberEnd
    } else {
        Role::Nothing
    }
}

/// What is expected after a constant of an enumeration.
pub fn constant_end(constant: &Constant<'_>) -> Role
    ensures { result ≡ types.constant_end (constant_of constant.now) }
{
    match constant.value {
        Some(_) => Role::OperandEnd,
        None => Role::Nothing,
    }
}
