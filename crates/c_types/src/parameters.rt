//! Parameters (6.7.6.3).

ghost use Rattle.std.specs.Prelude.{◌≡◌, map};
ghost use Rattle.c_syntax.specs.Units.{parameter_of};
ghost use Rattle.c_types_expression.specs.Trees.{unboxed};
ghost use Rattle.c_types_layout.specs.Types.{type_of};
ghost use Rattle.c_types_scope.specs.Meanings.{types_in};
ghost use Rattle.c_types_scope.specs.States.{state_of, Runs};
ghost use Rattle.c_types_spec.specs.Units as rule;

use attempt::{Refusal, attempt};
use c_syntax::unit::Parameter;
use c_types_core::fault::TypeFault;
use c_types_declaration::declare::parameter;
use c_types_expression::expression::{lengths, specifiers};
use c_types_expression::types::declared_type;
use c_types_layout::types::CType;
use c_types_operator::attempt_or_drop;
use c_types_scope::state::{State, push};
use std::alloc::Global;

/// A parameter, and its type.
#[tactic(auto, unfolding(c_types_spec::specs::Units::declared_parameter), using(c_types_expression::proofs::Parts::parts))]
fn declared_parameter<'a>(
    alloc: Global,
    given: &Parameter<'a>,
    has_body: bool,
    state: &mut State<'a>,
) -> Result<CType, Refusal<TypeFault>>
    ensures { Runs type_of result state.new
        (rule.declared_parameter (parameter_of given.now) has_body
        (state_of state.old)) }
{
    let base = attempt!(specifiers(alloc, &given.specifiers, state));
    let list = given.dimensions.lengths.as_slice();
    let found = attempt_or_drop!(lengths(alloc, list, state); base);
    let is_open = given.dimensions.is_open;
    let made = declared_type(alloc, given.pointers, is_open, found.as_slice(), &base);
    drop(base);
    let of = attempt!(made);
    parameter(
        alloc,
        given.name,
        of,
        has_body,
        given.specifiers.offset,
        state,
    )
}

/// The types of parameters, after those so far.
#[tactic(auto, unfolding(c_types_spec::specs::Units::parameters), using(crate::proofs::Lists::lists))]
pub fn parameters<'a>(
    alloc: Global,
    list: &[Box<Parameter<'a>>],
    has_body: bool,
    types: &mut Vec<CType>,
    state: &mut State<'a>,
) -> Result<(), Refusal<TypeFault>>
    ensures { Runs (λ _. types_in types.new) result state.new (rule.parameters (map parameter_of
        (unboxed list.now)) has_body (types_in types.old) (state_of state.old)) }
{
    for item in list {
        let of = attempt!(declared_parameter(alloc, item, has_body, state));
        attempt!(push(types, of));
    }
    Ok(())
}
