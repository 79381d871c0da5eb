//! Calls (6.5.2.2).

ghost use Rattle.std.specs.Prelude.{◌≡◌, ◌++◌, ◌∷◌, [], if◌then◌else◌, Some, None, Ok, map};
ghost use Rattle.c_syntax.specs.Names.{name_of};
ghost use Rattle.c_syntax.specs.Simples.{call_of};
ghost use Rattle.c_types_spec.specs.Core as core;
ghost use Rattle.c_types_spec.specs.Names as names;
ghost use Rattle.c_types_spec.specs.Statements as rule;
ghost use Rattle.c_types_layout.specs.Types.{type_of};
ghost use Rattle.c_types_operator.specs.Gives.{Gives};
ghost use Rattle.c_types_operator.specs.Operands.{core_in, operand_of, valued_of};
ghost use Rattle.c_types_expression.specs.Trees.{expressions_in};
ghost use Rattle.c_types_scope.specs.Meanings.{signature_of};
ghost use Rattle.c_types_scope.specs.States.{nothing, state_of, Runs};
ghost use Rattle.c_types_simple.specs.Contexts.{action_in, context_of, cores_in, made_of};
ghost use Rattle.c_types_simple.specs.Contexts.{seen_local};
ghost use Rattle.c_types_core.specs.Actions.{actions_in};
ghost use Rattle.c_types_simple.specs.Contexts.{values_in};
ghost use Rattle.c_types_simple.specs.Calls as specs;
ghost use Rattle.c_types_simple.specs.Calls.{after};

use crate::assignment::{assigned_value, assignment, is_assignable};
use crate::context::{Context, action_or_memory};
use attempt::{Refusal, attempt};
use c_syntax::expression::{Expression, Name};
use c_syntax::simple::Call;
use c_types_core::action::Action;
use c_types_core::counts::sum;
use c_types_core::expression::Core;
use c_types_core::fault::TypeFault;
use c_types_declaration::faults::first_fault;
use c_types_expression::expression::value;
use c_types_layout::types::CType;
use c_types_operator::attempt_or_drop;
use c_types_operator::conversion::{assigned, converts};
use c_types_operator::operand::{Category, Operand, Valued, type_or_memory};
use c_types_operator::value::read_local;
use c_types_scope::meaning::{Meaning, Signature};
use c_types_scope::state::{State, push};
use c_types_spec::{LeftOut, TypeFaultKind};
use std::alloc::Global;

/// A call whose arguments have been converted.
#[derive(Drop)]
pub struct Made<'a> {
    /// Its number in its function.
    pub number: usize,
    /// The function that is called.
    pub callee: &'a [u8],
    /// The arguments in order.
    pub arguments: Vec<Box<Core<'a>>>,
    /// The type of its value.
    pub of: CType,
    /// The offset of the callee.
    pub offset: usize,
}

/// The values of arguments, after those so far.
#[tactic(auto, unfolding(c_types_spec::specs::Statements::arguments), using(crate::proofs::Lists::lists))]
fn arguments<'a>(
    alloc: Global,
    list: &[Box<Expression<'a>>],
    values: &mut Vec<Valued<'a>>,
    state: &mut State<'a>,
) -> Result<(), Refusal<TypeFault>>
    ensures { Runs (λ _. values_in values.new.items) result state.new (rule.arguments
        (expressions_in list.now) (values_in values.old.items) (state_of state.old)) }
{
    for item in list {
        let v = attempt!(value(alloc, item, state));
        attempt!(push(values, v));
    }
    Ok(())
}

/// Puts the values of arguments, each converted to the type of its parameter, after those so far;
/// whether there are as many, each of which converts.
#[tactic(auto, unfolding(c_types_spec::specs::Statements::passed))]
fn pass<'a>(
    alloc: Global,
    types: &[CType],
    values: Vec<Valued<'a>>,
    cores: &mut Vec<Box<Core<'a>>>,
) -> Result<bool, Refusal<TypeFault>>
    ensures { Gives (λ all. if all then Some (cores_in cores.new) else None) result (Ok (after
        (cores_in cores.old) (rule.passed (map type_of types.now)
        (values_in values.entry.items)))) }
{
    let mut place = 0;
    for v in values {
        if place >= types.len() {
            drop(v);
            return Ok(false);
        }
        let made = match assigned(alloc, &types[place], v) {
            Ok(made) => made,
            Err(fault) => return Err(fault),
        };
        match made {
            Some(core) => match push(cores, core) {
                Ok(()) => {}
                Err(fault) => return Err(fault),
            },
            None => return Ok(false),
        }
        place += 1;
    }
    Ok(place == types.len())
}

/// A call of a function of a signature.
#[tactic(auto, unfolding(crate::specs::Contexts::made_of))]
fn made_by<'a>(
    alloc: Global,
    signature: &Signature,
    callee: Name<'a>,
    values: Vec<Valued<'a>>,
    number: usize,
) -> Result<Box<Made<'a>>, Refusal<TypeFault>>
    ensures { Gives (λ m. made_of m.value) result
        (rule.made_of (signature_of signature.now) (name_of
        callee.entry) (values_in values.entry.items) number) }
{
    let mut arguments = Vec::new(alloc);
    if !attempt!(pass(
        alloc,
        signature.parameters.as_slice(),
        values,
        &mut arguments
    )) {
        return Err(Refusal::Fault(TypeFault::At(TypeFaultKind::Mismatch, callee.offset)));
    }
    let of = attempt!(type_or_memory(signature.returned.copy(alloc)));
    boxed(
        alloc,
        Made {
            number,
            callee: callee.spelling,
            arguments,
            of,
            offset: callee.offset,
        },
    )
}

/// A call in memory of its own.
fn boxed<'a>(alloc: Global, made: Made<'a>) -> Result<Box<Made<'a>>, Refusal<TypeFault>>
    ensures { Gives (λ m. m.value) result (Ok made.entry) }
{
    match Box::new(alloc, made) {
        Ok(made) => Ok(made),
        Err(_) => Err(Refusal::NoMemory),
    }
}

/// The name of a callee is declared.
fn is_known(state: &State<'_>, name: Name<'_>) -> bool
    ensures { result ≡ rule.is_known (names.in_scope (state_of state.now).names
        name.entry.spelling.now) }
{
    match state.meaning(name.spelling) {
        Some(Some(_)) => true,
        Some(None) | None => false,
    }
}

/// A call of what a name means.
fn called<'a>(
    alloc: Global,
    callee: Name<'a>,
    values: Vec<Valued<'a>>,
    number: usize,
    state: &State<'a>,
) -> Result<Box<Made<'a>>, Refusal<TypeFault>>
    ensures { Gives (λ m. made_of m.value) result (rule.called_by (names.in_scope (state_of
        state.now).names callee.entry.spelling.now) (name_of callee.entry) (values_in
        values.entry.items) number) }
{
    match state.meaning(callee.spelling) {
        Some(Some(Meaning::Function(signature, _))) => {
            made_by(alloc, signature, callee, values, number)
        }
        _ => Err(Refusal::Fault(TypeFault::At(TypeFaultKind::Mismatch, callee.offset))),
    }
}

/// A call whose arguments have been read, which gets the next number.
fn numbered<'a>(
    alloc: Global,
    callee: Name<'a>,
    values: Vec<Valued<'a>>,
    state: &mut State<'a>,
) -> Result<Box<Made<'a>>, Refusal<TypeFault>>
    ensures { Runs (λ m. made_of m.value) result state.new (specs.numbered (name_of callee.entry)
        (values_in values.entry.items) (state_of state.old)) }
{
    let number = attempt!(state.new_call(), Refusal::NoMemory);
    called(alloc, callee, values, number, state)
}

/// A call of a name that is declared.
fn known_call<'a>(
    alloc: Global,
    made: &Call<'a>,
    state: &mut State<'a>,
) -> Result<Box<Made<'a>>, Refusal<TypeFault>>
    ensures { Runs (λ m. made_of m.value) result state.new (specs.known_call (call_of made.now)
        (state_of state.old)) }
{
    let mut values = Vec::new(alloc);
    attempt!(arguments(alloc, made.arguments.as_slice(), &mut values, state));
    numbered(alloc, made.callee, values, state)
}

/// A call.
#[tactic(auto, unfolding(c_types_spec::specs::Statements::call))]
pub fn call<'a>(
    alloc: Global,
    made: &Call<'a>,
    state: &mut State<'a>,
) -> Result<Box<Made<'a>>, Refusal<TypeFault>>
    ensures { Runs (λ m. made_of m.value) result state.new (rule.call (call_of made.now) (state_of
        state.old)) }
{
    if is_known(state, made.callee) {
        known_call(alloc, made, state)
    } else {
        Err(Refusal::Fault(TypeFault::At(TypeFaultKind::Unknown, made.callee.offset)))
    }
}

/// A call whose value is put into a local, or dropped.
#[tactic(auto, unfolding(crate::specs::Contexts::made_of))]
pub fn call_into<'a>(
    alloc: Global,
    made: Box<Made<'a>>,
    local: Option<usize>,
) -> Result<Box<Action<'a>>, Refusal<TypeFault>>
    ensures { Gives action_in result (Ok (rule.call_into (made_of made.entry.value) local)) }
{
    let Made {
        number,
        callee,
        arguments,
        of,
        offset: _,
    } = Box::into_inner(made);
    drop(of);
    action_or_memory(Action::call(alloc, number, callee, arguments, local))
}

/// The further local that a call's value is put into, and its value.
#[tactic(auto, unfolding(crate::specs::Contexts::made_of))]
fn further_local<'a>(
    alloc: Global,
    context: Context<'_>,
    made: &Made<'a>,
    state: &mut State<'a>,
) -> Result<(usize, Valued<'a>), Refusal<TypeFault>>
    ensures { Runs seen_local result state.new (specs.further_local (context_of context.entry)
        (made_of made.now) (state_of state.old)) }
{
    let copy = attempt!(type_or_memory(made.of.copy(alloc)));
    let count = attempt!(state.new_result(copy));
    let local = attempt!(sum(context.declared_locals, count), Refusal::NoMemory);
    let of = attempt!(type_or_memory(made.of.copy(alloc)));
    let v = attempt!(read_local(alloc, of, local, made.offset));
    Ok((local, v))
}

/// Two actions, one after the other.
pub fn both<'a>(
    alloc: Global,
    first: Box<Action<'a>>,
    second: Box<Action<'a>>,
) -> Result<Box<Action<'a>>, Refusal<TypeFault>>
    ensures { Gives action_in result (Ok (core.Sequence (action_in first.entry) (action_in
        second.entry))) }
{
    let mut actions = Vec::new(alloc);
    attempt!(push_action(&mut actions, first));
    attempt!(push_action(&mut actions, second));
    action_or_memory(Action::block(alloc, actions))
}

/// One more action, after the others.
pub fn push_action<'a>(
    actions: &mut Vec<Action<'a>>,
    action: Box<Action<'a>>,
) -> Result<(), Refusal<TypeFault>>
    ensures { Gives (λ _. actions_in actions.new) result (Ok (actions_in actions.old ++ action_in
        action.entry ∷ [])) }
{
    attempt!(push(actions, Box::into_inner(action)));
    Ok(())
}

/// The value of a call, put through a further local into a global.
fn through_global<'a>(
    alloc: Global,
    context: Context<'_>,
    x: Operand<'a>,
    made: Box<Made<'a>>,
    offset: usize,
    state: &mut State<'a>,
) -> Result<Box<Action<'a>>, Refusal<TypeFault>>
    ensures { Runs action_in result state.new
        (rule.through_local (context_of context.entry) (made_of
        made.entry.value) (λ v. rule.assignment (operand_of x.entry) v offset) (state_of
        state.old)) }
{
    let further = attempt_or_drop!(further_local(alloc, context, &made, state); x);
    let action = attempt!(assignment(alloc, x, further.1, offset));
    let first = attempt!(call_into(alloc, made, Some(further.0)));
    both(alloc, first, action)
}

/// The value of a call, returned through a further local.
pub fn through_return<'a>(
    alloc: Global,
    context: Context<'_>,
    made: Box<Made<'a>>,
    state: &mut State<'a>,
) -> Result<Box<Action<'a>>, Refusal<TypeFault>>
    ensures { Runs action_in result state.new
        (rule.through_local (context_of context.entry) (made_of
        made.entry.value) (λ v. rule.return_value (context_of context.entry) v) (state_of
        state.old)) }
{
    let further = attempt!(further_local(alloc, context, &made, state));
    let action = attempt!(return_value(alloc, context, further.1));
    let first = attempt!(call_into(alloc, made, Some(further.0)));
    both(alloc, first, action)
}

/// A value that the function returns.
#[tactic(auto, unfolding(c_types_operator::specs::Operands::valued_of))]
pub fn return_value<'a>(
    alloc: Global,
    context: Context<'_>,
    v: Valued<'a>,
) -> Result<Box<Action<'a>>, Refusal<TypeFault>>
    ensures { Gives action_in result (rule.return_value (context_of context.entry) (valued_of
        v.entry)) }
{
    let offset = v.offset;
    let core = attempt!(assigned_value(alloc, context.returned, v, offset));
    action_or_memory(Action::give_back(alloc, Some(core)))
}

/// The value of a call for an object: into a local, or through a further local into a global.
#[tactic(auto, unfolding(c_types_operator::specs::Operands::operand_of))]
fn call_stored<'a>(
    alloc: Global,
    context: Context<'_>,
    x: Operand<'a>,
    made: Box<Made<'a>>,
    offset: usize,
    state: &mut State<'a>,
) -> Result<Box<Action<'a>>, Refusal<TypeFault>>
    ensures { Runs action_in result state.new
        (rule.call_stored (context_of context.entry) (operand_of
        x.entry) (made_of made.entry.value) offset (state_of state.old)) }
{
    match &x.category {
        Category::Value(_) => {
            drop(x);
            Err(Refusal::Fault(TypeFault::At(TypeFaultKind::NotLvalue, offset)))
        }
        Category::InLocal(local) => {
            let local = *local;
            drop(x);
            call_into(alloc, made, Some(local))
        }
        Category::InMemory(_, _) => through_global(alloc, context, x, made, offset, state),
    }
}

/// What is asked of a call whose value is assigned to an object.
#[tactic(auto, unfolding(c_types_operator::specs::Operands::operand_of, crate::specs::Contexts::made_of))]
fn call_faults(
    x: &Operand<'_>,
    is_plain: bool,
    made: &Made<'_>,
    offset: usize,
) -> Result<(), Refusal<TypeFault>>
    ensures { Gives nothing result (specs.call_faults (operand_of x.now) is_plain (made_of made.now)
        offset) }
{
    first_fault(
        &[
            (!is_assignable(x), TypeFaultKind::NotLvalue),
            (!converts(&x.of, &made.of), TypeFaultKind::Mismatch),
            (!is_plain, TypeFaultKind::LeftOut(LeftOut::CallPlace)),
        ],
        offset,
    )
}

/// The value of a call is assigned to an object.
#[tactic(auto, unfolding(c_types_spec::specs::Statements::call_assignment))]
pub fn call_assignment<'a>(
    alloc: Global,
    context: Context<'_>,
    x: Operand<'a>,
    is_plain: bool,
    made: Box<Made<'a>>,
    offset: usize,
    state: &mut State<'a>,
) -> Result<Box<Action<'a>>, Refusal<TypeFault>>
    ensures { Runs action_in result state.new (rule.call_assignment (context_of context.entry)
        (operand_of x.entry) is_plain (made_of made.entry.value) offset (state_of state.old)) }
{
    attempt_or_drop!(call_faults(&x, is_plain, &made, offset); x);
    call_stored(alloc, context, x, made, offset, state)
}
