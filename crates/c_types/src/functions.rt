//! Functions (6.9.1).

ghost use Rattle.std.specs.Prelude.{◌≡◌, ◌++◌, Ok, map};
ghost use Rattle.c_syntax.specs.Statements.{part_of, parts_of};
ghost use Rattle.c_syntax.specs.Units.{function_of};
ghost use Rattle.c_types_layout.specs.Types.{type_of};
ghost use Rattle.c_types_operator.specs.Gives.{Gives};
ghost use Rattle.c_types_scope.specs.Meanings.{signature_of, types_in};
ghost use Rattle.c_types_scope.specs.States.{nothing, state_of, texts_in, Runs};
ghost use Rattle.c_types_spec.specs.Expressions as expressions;
ghost use Rattle.c_types_spec.specs.Units as rule;
ghost use Rattle.c_types_statement.specs.Contexts.{action_in, context_of};
ghost use Rattle.c_types.specs.Typed.{body_of, function_type_of};
ghost use Rattle.c_types.specs.Functions as specs;

use crate::parameters::parameters;
use crate::typed::{Body, FunctionType};
use attempt::{Refusal, attempt};
use c_syntax::statement::Part;
use c_syntax::unit::FunctionDeclarator;
use c_types_core::action::Action;
use c_types_core::counts::sum;
use c_types_core::fault::TypeFault;
use c_types_declaration::declare::function;
use c_types_declaration::sizes::is_void;
use c_types_expression::types::pointers_to;
use c_types_layout::types::CType;
use c_types_operator::attempt_or_drop;
use c_types_operator::operand::type_or_memory;
use c_types_scope::meaning::Signature;
use c_types_scope::state::{State, push};
use c_types_spec::Scalar;
use c_types_statement::calls::both;
use c_types_statement::context::{Context, action_or_memory};
use c_types_statement::counts::locals_of;
use c_types_statement::statement::parts;
use std::alloc::Global;

/// The types of a function.
fn signature(
    alloc: Global,
    parameters: Vec<CType>,
    pointers: usize,
    base: &CType,
) -> Result<Box<Signature>, Refusal<TypeFault>>
    ensures { Gives (λ s. signature_of s.value) result (Ok (rule.signature_of (types_in
        parameters) (expressions.pointers_to pointers (type_of base.now)))) }
{
    let copy = attempt!(type_or_memory(base.copy(alloc)));
    let returned = attempt!(pointers_to(pointers, copy));
    match Box::new(
        alloc,
        Signature {
            parameters,
            returned,
        },
    ) {
        Ok(made) => Ok(made),
        Err(_) => Err(Refusal::NoMemory),
    }
}

/// The scalars among types, after those so far.
#[tactic(auto, using(crate::proofs::Lists::scalar_lists))]
fn scalars(types: &[CType], found: &mut Vec<Scalar>) -> Result<(), Refusal<TypeFault>>
    ensures { Gives (λ _. found.new.items) result
        (Ok (found.old.items ++ rule.scalars_of (map type_of
        types.now))) }
{
    for of in types {
        match of.scalar() {
            Some(scalar) => attempt!(push(found, scalar)),
            None => {}
        }
    }
    Ok(())
}

/// The types of a function in the typed core.
fn function_type(alloc: Global, of: &Signature) -> Result<Box<FunctionType>, Refusal<TypeFault>>
    ensures { Gives (λ t. function_type_of t.value) result (Ok (rule.function_type (signature_of
        of.now))) }
{
    let mut parameters = Vec::new(alloc);
    attempt!(scalars(of.parameters.as_slice(), &mut parameters));
    let returned = of.returned.scalar();
    match Box::new(
        alloc,
        FunctionType {
            parameters,
            returned,
        },
    ) {
        Ok(made) => Ok(made),
        Err(_) => Err(Refusal::NoMemory),
    }
}

/// A function without a body. Its parameters are in a block of their own.
#[tactic(auto, unfolding(c_types_spec::specs::Units::declared_function))]
pub fn declared_function<'a>(
    alloc: Global,
    given: &FunctionDeclarator<'a>,
    base: &CType,
    state: &mut State<'a>,
) -> Result<(), Refusal<TypeFault>>
    ensures { Runs nothing result state.new (rule.declared_function (function_of given.now) (type_of
        base.now) (state_of state.old)) }
{
    attempt!(state.open());
    let mut types = Vec::new(alloc);
    attempt!(parameters(alloc, given.parameters.as_slice(), false, &mut types, state));
    state.close();
    let of = attempt!(signature(alloc, types, given.pointers, base));
    function(given.name, of, false, state)
}

/// What is done at the `}` of a body.
fn at_end<'a>(
    alloc: Global,
    returned: &CType,
    close: usize,
) -> Result<Box<Action<'a>>, Refusal<TypeFault>>
    ensures { Gives action_in result (Ok (rule.at_end (type_of returned.now) close)) }
{
    if is_void(returned) {
        action_or_memory(Action::give_back(alloc, None))
    } else {
        action_or_memory(Action::missing_return(alloc, close))
    }
}

/// The globals that the body that has been read names.
#[tactic(auto, unfolding(c_types_scope::specs::States::state_of))]
fn mentions<'a>(alloc: Global, state: &State<'a>) -> Result<Vec<&'a [u8]>, Refusal<TypeFault>>
    ensures { Gives texts_in result (Ok (state_of state.now).mentions) }
{
    let mut names = Vec::new(alloc);
    match names.extend_from_slice(state.mentions.as_slice()) {
        Ok(()) => Ok(names),
        Err(_) => Err(Refusal::NoMemory),
    }
}

/// The body of the function that has been read.
#[tactic(auto, unfolding(c_types_scope::specs::States::state_of), using(crate::proofs::Lists::scalar_lists))]
fn body<'a>(
    alloc: Global,
    name: &'a [u8],
    signature: Box<FunctionType>,
    action: Box<Action<'a>>,
    state: &State<'a>,
) -> Result<Box<Body<'a>>, Refusal<TypeFault>>
    ensures { Gives (λ b. body_of b.value) result (Ok (specs.body_made name.now (function_type_of
        signature.value) (action_in action.entry) (state_of state.now))) }
{
    let mut locals = Vec::new(alloc);
    attempt!(scalars(state.locals.as_slice(), &mut locals));
    attempt!(scalars(state.results.as_slice(), &mut locals));
    let mentions = attempt!(mentions(alloc, state));
    let made = Body {
        name,
        signature,
        locals,
        loops: state.loops,
        calls: state.calls,
        mentions,
        action,
    };
    match Box::new(alloc, made) {
        Ok(made) => Ok(made),
        Err(_) => Err(Refusal::NoMemory),
    }
}

/// What a body does, and what is done at its `}`.
fn action<'a>(
    alloc: Global,
    list: &[Part<'a>],
    context: Context<'_>,
    close: usize,
    state: &mut State<'a>,
) -> Result<Box<Action<'a>>, Refusal<TypeFault>>
    ensures { Runs action_in result state.new (specs.action (parts_of (map part_of list.now))
        (context_of context.entry) close (state_of state.old)) }
{
    let mut done = Vec::new(alloc);
    attempt!(parts(alloc, list, context, &mut done, state));
    let first = attempt!(action_or_memory(Action::block(alloc, done)));
    let last = attempt!(at_end(alloc, context.returned, close));
    both(alloc, first, last)
}

/// What a function with a body is, whose parameters have been declared.
#[tactic(auto, using(crate::proofs::Lists::counts))]
fn function_of_types<'a>(
    alloc: Global,
    given: &FunctionDeclarator<'a>,
    types: Vec<CType>,
    base: &CType,
    list: &[Part<'a>],
    close: usize,
    state: &mut State<'a>,
) -> Result<Box<Body<'a>>, Refusal<TypeFault>>
    ensures { Runs (λ b. body_of b.value) result state.new (specs.function_of_types (function_of
        given.now) (types_in types) (type_of base.now) (parts_of (map part_of list.now)) close
        (state_of state.old)) }
{
    let count = attempt!(locals_of(list), Refusal::NoMemory);
    let declared_locals = attempt!(sum(types.len(), count), Refusal::NoMemory);
    let of = attempt!(signature(alloc, types, given.pointers, base));
    let made = attempt!(function_type(alloc, &of));
    let returned = attempt!(type_or_memory(of.returned.copy(alloc)));
    attempt_or_drop!(function(given.name, of, true, state); returned);
    state.start_body();
    let context = Context {
        returned: &returned,
        declared_locals,
        in_loop: false,
        in_switch: false,
    };
    let done = action(alloc, list, context, close, state);
    drop(returned);
    let done = attempt!(done);
    body(alloc, given.name.spelling, made, done, state)
}

/// A function with a body, in the block that its parameters and its body share.
fn function_body<'a>(
    alloc: Global,
    given: &FunctionDeclarator<'a>,
    base: &CType,
    list: &[Part<'a>],
    close: usize,
    state: &mut State<'a>,
) -> Result<Box<Body<'a>>, Refusal<TypeFault>>
    ensures { Runs (λ b. body_of b.value) result state.new (specs.function_body (function_of
        given.now) (type_of base.now) (parts_of (map part_of list.now)) close (state_of
        state.old)) }
{
    state.start_function();
    let mut types = Vec::new(alloc);
    attempt!(parameters(alloc, given.parameters.as_slice(), true, &mut types, state));
    function_of_types(alloc, given, types, base, list, close, state)
}

/// A function with a body.
#[tactic(auto, unfolding(c_types_spec::specs::Units::defined_function))]
pub fn defined_function<'a>(
    alloc: Global,
    given: &FunctionDeclarator<'a>,
    base: &CType,
    list: &[Part<'a>],
    close: usize,
    state: &mut State<'a>,
) -> Result<Box<Body<'a>>, Refusal<TypeFault>>
    ensures { Runs (λ b. body_of b.value) result state.new (rule.defined_function (function_of
        given.now) (type_of base.now) (parts_of (map part_of list.now)) close (state_of
        state.old)) }
{
    attempt!(state.open());
    let made = attempt!(function_body(alloc, given, base, list, close, state));
    state.close();
    Ok(made)
}
